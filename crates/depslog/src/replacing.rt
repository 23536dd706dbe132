// Replacing all live bytes of a medium at once, by a draft.
ghost use Rattle.std.specs.Prelude.{◌≡◌, ◌≤◌, ℕ, List, true, length, OnOk};
ghost use Rattle.medium.specs.State.{none};
ghost use Rattle.depslog.specs.Replacing.{InPlace, DraftFilled};
ghost use Rattle.depslog.specs.Drafting.{DraftedAll};

use super::sink::{Draft, Sink};
use medium::{Fault, Medium};

// What can take the place of all live bytes. Writing it may teach something.
pub(super) trait Contents<M: Medium> {
    type Known;

    ghost bytes: { Self → List ℕ };

    // What is known once all of it is written.
    ghost taught: { Self → Self.Known → Type 0 };

    fn length(&self, known: &mut Self::Known) -> usize
        ensures { result ≡ length (bytes self.now) };

    fn write(&self, medium: &mut M, draft: &Draft<M>, known: &mut Self::Known) -> Result<(), Fault>
        requires on { (M.Medium.state medium.old).power ≡ true }
        requires empty { (M.Medium.state medium.old).draft ≡ none }
        requires room { length (bytes self.now) ≤ (M.Medium.state medium.old).capacity }
        ensures drafted { DraftedAll (bytes self.now) (M.Medium.state medium.old) result (M.Medium.state medium.new) }
        ensures taught { OnOk result (taught self.now known.new) };
}

// Some bytes as they are.
#[derive(Clone, Copy)]
pub(super) struct Bytes<'a> {
    pub(super) bytes: &'a [u8],
}

impl<M: Medium> Contents<M> for Bytes<'_> {
    type Known = ();

    ghost bytes = { λ b. b.bytes.now };

    ghost taught = { λ b k. Unit {0} };

    fn length(&self, known: &mut ()) -> usize {
        self.bytes.len()
    }

    fn write(&self, medium: &mut M, draft: &Draft<M>, known: &mut ()) -> Result<(), Fault> {
        draft.put(medium, self.bytes)
    }
}

// Puts the contents into an empty draft, and syncs it. The power and the room are asked at each call, as in `Sink`.
fn fill_draft<M: Medium, C: Contents<M>>(
    medium: &mut M,
    token: &M::Draft,
    contents: &C,
    known: &mut C::Known,
) -> Result<(), Fault>
    requires on { (M.Medium.state medium.old).power ≡ true }
    requires empty { (M.Medium.state medium.old).draft ≡ none }
    requires room { length (C.Contents.bytes contents.now) ≤ (M.Medium.state medium.old).capacity }
    ensures filled { DraftFilled (C.Contents.bytes contents.now) (M.Medium.state medium.old) result (M.Medium.state medium.new) }
    ensures taught { OnOk result (C.Contents.taught contents.now known.new) }
{
    contents.write(medium, &Draft { token }, known)?;
    medium.draft_sync(token)
}

// Puts the contents in the place of all live bytes, where they fit.
pub(super) fn replace<M: Medium, C: Contents<M>>(
    medium: &mut M,
    contents: &C,
    known: &mut C::Known,
) -> Result<(), Fault>
    ensures medium { InPlace (C.Contents.bytes contents.now) (M.Medium.state medium.old) result (M.Medium.state medium.new) }
    ensures taught { OnOk result (C.Contents.taught contents.now known.new) }
{
    if medium.capacity() < contents.length(known) {
        return Err(Fault::Full);
    }
    let token = medium.begin()?;
    match fill_draft(medium, &token, contents, known) {
        Ok(()) => medium.promote(token),
        Err(fault) => {
            medium.give_up(token);
            Err(fault)
        }
    }
}
