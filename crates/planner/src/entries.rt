// What can be asked for entries.
ghost use Rattle.std.specs.Prelude.{◌≡◌, ℕ, List, Some, Option};
ghost use Rattle.std.specs.Option.{option_map};
ghost use Rattle.std.specs.List.{slice_get};
ghost use Rattle.planner.specs.Noted.{Noted, found_of};

use terms::Found;

pub trait Entries {
    // The entry of each output's name.
    ghost entry: { Self → List ℕ → Option Noted };

    // An output's entry: its index and its mtime.
    fn find(&self, output: &[u8]) -> Option<Found>
        ensures { result ≡ option_map found_of (entry self.now output.now) };

    // The name of the k-th input of the entry with an index.
    fn input(&self, index: usize, k: usize) -> Option<&[u8]>
        ensures { (output : List ℕ) (e : Noted) → entry self.now output ≡ Some e → e.index ≡ index → option_map (λ x. x.now) result ≡ slice_get e.inputs k };
}
