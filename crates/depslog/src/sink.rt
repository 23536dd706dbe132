// Where the records of notes go on a medium.
ghost use Rattle.std.specs.Prelude.{◌≡◌, ◌+◌, ◌≤◌, ℕ, List, length};
ghost use Rattle.medium.specs.State.{State, all};
ghost use Rattle.depslog.specs.State.{live_of};
ghost use Rattle.depslog.specs.Appending.{AppendedAll};
ghost use Rattle.depslog.specs.Drafting.{DraftedAll};
ghost use Rattle.depslog.specs.Putting.{Puts, InPieces};
ghost use Rattle.depslog.specs.Sinks.{live_in_pieces, draft_in_pieces};

use medium::{Fault, Medium};

// The medium is handed to each call and stands in no sink: a draft's token is used up by `promote` beside it, so a value of both would be
// taken apart where it is made.
// That the power is on and that there is room are asked at each call: they are facts of the moment, which no type of a medium could keep, since every call may lose the power.
pub(super) trait Sink<M: Medium> {
    // The bytes behind which they go.
    ghost held: { State → List ℕ };

    ghost puts: { Puts };

    ghost pieces: { InPieces held puts };

    fn put(&self, medium: &mut M, bytes: &[u8]) -> Result<(), Fault>
        requires { length (held (M.Medium.state medium.old)) + length bytes.now ≤ (M.Medium.state medium.old).capacity }
        ensures { puts bytes.now (M.Medium.state medium.old) result (M.Medium.state medium.new) };
}

// Behind the live bytes.
#[derive(Clone, Copy)]
pub(super) struct Live;

impl<M: Medium> Sink<M> for Live {
    ghost held = { live_of };

    ghost puts = { λ bs s r t. AppendedAll bs s r t };

    ghost pieces = { live_in_pieces };

    fn put(&self, medium: &mut M, bytes: &[u8]) -> Result<(), Fault> {
        medium.append(bytes)
    }
}

// Into the draft.
#[derive(Drop)]
pub(super) struct Draft<'a, M: Medium> {
    pub(super) token: &'a M::Draft,
}

impl<M: Medium> Sink<M> for Draft<'_, M> {
    ghost held = { λ s. all s.draft };

    ghost puts = { λ bs s r t. DraftedAll bs s r t };

    ghost pieces = { draft_in_pieces };

    fn put(&self, medium: &mut M, bytes: &[u8]) -> Result<(), Fault> {
        medium.draft_append(self.token, bytes)
    }
}
