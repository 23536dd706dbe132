// A medium over any medium, which holds live bytes back in an array of its own.
ghost use Rattle.std.specs.Prelude.{◌≡◌, []};
ghost use Rattle.medium.specs.Held.{items};
ghost use Rattle.medium.specs.Calls.{Appended, Synced, Begun, Drafted, DraftSynced, Promoted, Failed, Returned};
ghost use Rattle.medium.specs.Holding.{Sized, Passed, PassedThen, HeldBack, lit};
ghost use Rattle.medium.specs.View.{held_by, view};

use crate::held::Held;
use crate::{Fault, Medium, fits};

// The bytes of `held` are held back, as far as there is room for them below, and none while the power below is off. So every
// value has a meaning.
#[derive(Drop)]
pub struct WriteBuffer<M: Medium> {
    below: M,
    held: Held,
}

// How many live bytes the medium below has, and how many are held.
#[derive(Clone, Copy)]
struct Sizes {
    below: usize,
    held: usize,
}

impl<M: Medium> WriteBuffer<M> {
    pub fn new(below: M) -> WriteBuffer<M>
        ensures view { view M.Medium.state result ≡ M.Medium.state below }
        ensures below { result.below ≡ below }
        ensures held { held_by M.Medium.state result ≡ [] }
    {
        WriteBuffer {
            below,
            held: Held::new(),
        }
    }

    fn sizes(&self) -> Result<Sizes, Fault>
        ensures { Sized (M.Medium.state self.now.below) (items self.now.held) result }
    {
        let below = self.below.length()?;
        let room = self.below.capacity().saturating_sub(below);
        let held = self.held.as_slice().len().min(room);
        Ok(Sizes { below, held })
    }

    // Passes the bytes held to the medium below. Where that fails, they are gone.
    fn pass_held(&mut self) -> Result<(), Fault>
        ensures held { items self.new.held ≡ [] }
        ensures passed { Passed (held_by M.Medium.state self.old) (M.Medium.state self.old.below) result (M.Medium.state self.new.below) }
    {
        let count = self.sizes().map_or(0, |sizes| sizes.held);
        if count == 0 {
            self.held.truncate(0);
            return Ok(());
        }
        let held = self.held;
        self.held.truncate(0);
        self.below.append(&held.as_slice()[..count])
    }
}

impl<M: Medium> Medium for WriteBuffer<M> {
    type Draft = M::Draft;

    ghost state = { λ w. view M.Medium.state w };

    fn capacity(&self) -> usize {
        self.below.capacity()
    }

    fn length(&self) -> Result<usize, Fault> {
        let sizes = self.sizes()?;
        Ok(sizes.below + sizes.held)
    }

    fn read(&self, offset: usize, buf: &mut [u8]) -> Result<usize, Fault> {
        let sizes = self.sizes()?;
        let n = self.below.read(offset, buf)?;
        if offset >= sizes.below + sizes.held {
            return Ok(n);
        }
        if offset + n < sizes.below {
            return Ok(n);
        }
        let start = offset + n - sizes.below;
        let m = (sizes.held - start).min(buf.len() - n);
        buf[n..n + m].copy_from_slice(&self.held.as_slice()[start..start + m]);
        Ok(n + m)
    }

    fn append(&mut self, bytes: &[u8]) -> Result<(), Fault>
        ensures answer { Appended bytes.now (view M.Medium.state self.old) result (view M.Medium.state self.new) }
        ensures passed { HeldBack bytes.now (M.Medium.state self.old.below) (held_by M.Medium.state self.old) result (M.Medium.state self.new.below) (held_by M.Medium.state self.new) }
    {
        let sizes = self.sizes()?;
        if !fits(sizes.below + sizes.held, bytes.len(), self.below.capacity()) {
            return Err(Fault::Full);
        }
        self.held.truncate(sizes.held);
        if self.held.extend_from_slice(bytes).is_err() {
            self.pass_held()?;
            return self.below.append(bytes);
        }
        Ok(())
    }

    fn sync(&mut self) -> Result<(), Fault>
        ensures answer { Synced (view M.Medium.state self.old) result (view M.Medium.state self.new) }
        ensures passed { PassedThen (held_by M.Medium.state self.old) Synced (M.Medium.state self.old.below) result (M.Medium.state self.new.below) }
        ensures held { held_by M.Medium.state self.new ≡ [] }
    {
        self.pass_held()?;
        self.below.sync()
    }

    #[tactic(auto, using(crate::proofs::Layers::begun))]
    fn begin(&mut self) -> Result<M::Draft, Fault>
        ensures answer { Begun (view M.Medium.state self.old) result (view M.Medium.state self.new) }
        ensures passed { Begun (M.Medium.state self.old.below) result (M.Medium.state self.new.below) }
        ensures held { held_by M.Medium.state self.new ≡ lit (M.Medium.state self.new.below) (held_by M.Medium.state self.old) }
    {
        self.below.begin()
    }

    #[tactic(auto, using(crate::proofs::Layers::drafted))]
    fn draft_append(&mut self, draft: &M::Draft, bytes: &[u8]) -> Result<(), Fault>
        ensures answer { Drafted bytes.now (view M.Medium.state self.old) result (view M.Medium.state self.new) }
        ensures passed { Drafted bytes.now (M.Medium.state self.old.below) result (M.Medium.state self.new.below) }
        ensures held { held_by M.Medium.state self.new ≡ lit (M.Medium.state self.new.below) (held_by M.Medium.state self.old) }
    {
        self.below.draft_append(draft, bytes)
    }

    #[tactic(auto, using(crate::proofs::Layers::draft_synced))]
    fn draft_sync(&mut self, draft: &M::Draft) -> Result<(), Fault>
        ensures answer { DraftSynced (view M.Medium.state self.old) result (view M.Medium.state self.new) }
        ensures passed { DraftSynced (M.Medium.state self.old.below) result (M.Medium.state self.new.below) }
        ensures held { held_by M.Medium.state self.new ≡ lit (M.Medium.state self.new.below) (held_by M.Medium.state self.old) }
    {
        self.below.draft_sync(draft)
    }

    #[tactic(auto, using(crate::proofs::Layers::promoted))]
    fn promote(&mut self, draft: M::Draft) -> Result<(), Fault>
        ensures answer { Promoted (view M.Medium.state self.old) result (view M.Medium.state self.new) }
        ensures passed { Promoted (M.Medium.state self.old.below) result (M.Medium.state self.new.below) }
        ensures held { held_by M.Medium.state self.new ≡ [] }
    {
        self.held.truncate(0);
        self.below.promote(draft)
    }

    fn give_up(&self, draft: M::Draft) {
        self.below.give_up(draft)
    }

    #[tactic(auto, using(crate::proofs::Layers::failed))]
    fn power_failure(&mut self)
        ensures answer { Failed (view M.Medium.state self.old) (view M.Medium.state self.new) }
        ensures passed { Failed (M.Medium.state self.old.below) (M.Medium.state self.new.below) }
        ensures held { held_by M.Medium.state self.new ≡ [] }
    {
        self.below.power_failure()
    }

    fn power_return(&mut self) -> Result<(), Fault>
        ensures answer { Returned (view M.Medium.state self.old) result (view M.Medium.state self.new) }
        ensures passed { Returned (M.Medium.state self.old.below) result (M.Medium.state self.new.below) }
        ensures held { held_by M.Medium.state self.new ≡ held_by M.Medium.state self.old }
    {
        if self.below.length().is_err() {
            self.held.truncate(0);
        }
        self.below.power_return()
    }
}
