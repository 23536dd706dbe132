// A note as a caller gives it.
ghost use Rattle.std.specs.Prelude.{◌≡◌};
ghost use Rattle.notes.specs.Meant.{given_note};

use terms::Place;

// A note as a caller gives it: names are places in some bytes.
#[derive(Clone, Copy)]
pub struct Given<'a> {
    pub bytes: &'a [u8],
    pub output: Place,
    pub mtime: u64,
    pub inputs: &'a [Place],
}

impl<'a> Given<'a> {
    pub fn output_name(&self) -> &[u8]
        ensures { result.now ≡ (given_note self.now).output }
    {
        self.output.of(self.bytes)
    }
}
