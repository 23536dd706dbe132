// A medium over two areas, whose power fails by some rule: a bench over two lent areas, whose power fails at the step that it is
// told, or a paged medium over its own arrays, which loses power only between calls, and then keeps whole pages.
ghost use Rattle.std.specs.Prelude.{◌≡◌, true, length, Ok, Err, if◌then◌else◌};
ghost use Rattle.medium.specs.declared.Fault.TheVariants.{Off};
ghost use Rattle.medium.specs.State.{none, with_promoted};
ghost use Rattle.medium.specs.Calls.{Measured, ReadOut, Appended, Synced, Begun, Drafted, DraftSynced, Promoted, Failed, Returned};
ghost use Rattle.media.specs.Memory.{filled};
ghost use Rattle.media.specs.Told.{stepped, fallen, append, sync, begin, draft_append, draft_sync, promote, power_return, measure, count, copied};
ghost use Rattle.media.specs.View.{of_store, outcome, of_bench, of_paged, started};

use crate::area::Area;
use crate::failing::Failing;
use crate::shelf::Shelf;
use crate::{Pages, Plan, Side};
use medium::{Fault, Medium, fits};
use std::marker::PhantomData;
use std::mem;

#[derive(Drop)]
pub struct Store<A, F> {
    live: Shelf<A>,
    draft: Shelf<A>,
    // A flag, as the power goes off inside calls that borrow the store, so no type can say whether it is on.
    on: bool,
    failing: F,
}

// The right to write the draft of a store that fails by `F`.
pub struct Token<F> {
    of: PhantomData<F>,
}

pub type Bench<'a> = Store<&'a mut [u8], Plan>;

// 16 pages of 256 bytes for the live bytes, and for the draft.
pub type Paged = Store<[u8; 4096], Pages>;

impl<'a> Store<&'a mut [u8], Plan> {
    // The first `first` bytes of `live`, as far as there is room, are the live bytes.
    pub fn new(live: &'a mut [u8], draft: &'a mut [u8], first: usize, plan: Plan) -> Bench<'a>
        ensures state { of_bench result ≡ started first (filled live.old) (filled draft.old) }
        ensures plan { result.failing ≡ plan }
    {
        Store::over(live, draft, first, plan)
    }
}

impl Store<[u8; 4096], Pages> {
    pub fn new() -> Paged
        ensures { of_paged result ≡ record { power = true; capacity = 4096; live = none; draft = none } }
    {
        Store::over([0; 4096], [0; 4096], 0, Pages)
    }
}

impl<A: Area, F: Failing> Store<A, F> {
    // The first `first` bytes of `live`, as far as there is room, are the live bytes.
    fn over(live: A, draft: A, first: usize, failing: F) -> Store<A, F>
        ensures state { of_store A.memory result ≡ started first (A.memory live) (A.memory draft) }
        ensures failing { result.failing ≡ failing }
    {
        Store {
            live: Shelf::new(live, first),
            draft: Shelf::new(draft, 0),
            on: true,
            failing,
        }
    }

    fn room(&self) -> usize
        ensures { result ≡ (of_store A.memory self.now).capacity }
    {
        self.live.size().min(self.draft.size()).min(65536)
    }

    // Refuses a call while the power is off.
    fn powered(&self) -> Result<(), Fault>
        ensures { result ≡ (if self.now.on then Ok tt else Err Off) }
    {
        if self.on { Ok(()) } else { Err(Fault::Off) }
    }

    // Counts a step, at which the power may fail.
    fn step(&mut self) -> Result<(), Fault>
        requires on { self.old.on ≡ true }
        ensures exact { outcome A.memory F.plan result self.new ≡ stepped _ (of_store A.memory self.old) (of_store A.memory self.old) (F.plan self.old.failing) }
    {
        let plan = self.failing.plan();
        self.failing.count();
        if plan.is_due() {
            self.fall(plan.keep);
            return Err(Fault::Off);
        }
        Ok(())
    }

    // Makes the draft live, and empties the draft.
    fn turn(&mut self)
        ensures state { of_store A.memory self.new ≡ with_promoted (of_store A.memory self.old) }
        ensures failing { self.new.failing ≡ self.old.failing }
    {
        mem::swap(&mut self.live, &mut self.draft);
        self.draft.clear();
    }

    // The power fails, and `keep` of the pending live bytes are kept.
    fn fall(&mut self, keep: usize)
        ensures state { of_store A.memory self.new ≡ fallen keep (of_store A.memory self.old) }
        ensures failing { self.new.failing ≡ self.old.failing }
    {
        let room = self.room();
        self.live.cut(room, keep);
        self.draft.clear();
        self.on = false;
    }
}

impl<A: Area, F: Failing> Medium for Store<A, F> {
    type Draft = Token<F>;

    ghost state = { λ s. of_store A.memory s };

    fn capacity(&self) -> usize {
        self.room()
    }

    fn length(&self) -> Result<usize, Fault>
        ensures answer { Measured (of_store A.memory self.now) result }
        ensures exact { result ≡ measure (of_store A.memory self.now) }
    {
        self.powered()?;
        Ok(self.live.count(self.room()))
    }

    fn read(&self, offset: usize, buf: &mut [u8]) -> Result<usize, Fault>
        ensures answer { ReadOut offset (of_store A.memory self.now) buf.old result buf.new }
        ensures count { result ≡ count offset (of_store A.memory self.now) (length buf.old) }
        ensures bytes { buf.new ≡ copied offset (of_store A.memory self.now) buf.old }
    {
        self.powered()?;
        Ok(self.live.read(self.room(), offset, buf))
    }

    fn append(&mut self, bytes: &[u8]) -> Result<(), Fault>
        ensures answer { Appended bytes.now (of_store A.memory self.old) result (of_store A.memory self.new) }
        ensures exact { outcome A.memory F.plan result self.new ≡ append bytes.now (of_store A.memory self.old) (F.plan self.old.failing) }
    {
        self.powered()?;
        let room = self.room();
        if !fits(self.live.count(room), bytes.len(), room) {
            return Err(Fault::Full);
        }
        self.live.push(room, bytes);
        self.step()
    }

    fn sync(&mut self) -> Result<(), Fault>
        ensures answer { Synced (of_store A.memory self.old) result (of_store A.memory self.new) }
        ensures exact { outcome A.memory F.plan result self.new ≡ sync (of_store A.memory self.old) (F.plan self.old.failing) }
    {
        self.powered()?;
        self.step()?;
        let room = self.room();
        self.live.settle(room);
        Ok(())
    }

    fn begin(&mut self) -> Result<Token<F>, Fault>
        ensures answer { Begun (of_store A.memory self.old) result (of_store A.memory self.new) }
        ensures exact { outcome A.memory F.plan result self.new ≡ begin (record { of = record {} }) (of_store A.memory self.old) (F.plan self.old.failing) }
    {
        self.powered()?;
        self.step()?;
        self.draft.clear();
        Ok(Token { of: PhantomData })
    }

    fn draft_append(&mut self, draft: &Token<F>, bytes: &[u8]) -> Result<(), Fault>
        ensures answer { Drafted bytes.now (of_store A.memory self.old) result (of_store A.memory self.new) }
        ensures exact { outcome A.memory F.plan result self.new ≡ draft_append bytes.now (of_store A.memory self.old) (F.plan self.old.failing) }
    {
        self.powered()?;
        let room = self.room();
        if !fits(self.draft.count(room), bytes.len(), room) {
            return Err(Fault::Full);
        }
        self.step()?;
        self.draft.push(room, bytes);
        Ok(())
    }

    // As `sync`, of the other shelf: two calls of the trait, each with a clause of its own.
    fn draft_sync(&mut self, draft: &Token<F>) -> Result<(), Fault>
        ensures answer { DraftSynced (of_store A.memory self.old) result (of_store A.memory self.new) }
        ensures exact { outcome A.memory F.plan result self.new ≡ draft_sync (of_store A.memory self.old) (F.plan self.old.failing) }
    {
        self.powered()?;
        self.step()?;
        let room = self.room();
        self.draft.settle(room);
        Ok(())
    }

    fn promote(&mut self, draft: Token<F>) -> Result<(), Fault>
        ensures answer { Promoted (of_store A.memory self.old) result (of_store A.memory self.new) }
        ensures exact { outcome A.memory F.plan result self.new ≡ promote (of_store A.memory self.old) (F.plan self.old.failing) }
    {
        let Token { of: _ } = draft;
        self.powered()?;
        let plan = self.failing.plan();
        if !plan.is_due() || plan.side == Side::Draft {
            self.turn();
        }
        self.step()
    }

    fn give_up(&self, draft: Token<F>) {
        let Token { of: _ } = draft;
    }

    fn power_failure(&mut self)
        ensures answer { Failed (of_store A.memory self.old) (of_store A.memory self.new) }
        ensures exact { of_store A.memory self.new ≡ F.falls (of_store A.memory self.old) }
        ensures failing { self.new.failing ≡ self.old.failing }
    {
        let room = self.room();
        let keep = self
            .failing
            .keep(self.live.durable(room), self.live.count(room));
        self.fall(keep);
    }

    fn power_return(&mut self) -> Result<(), Fault>
        ensures answer { Returned (of_store A.memory self.old) result (of_store A.memory self.new) }
        ensures exact { outcome A.memory F.plan result self.new ≡ power_return (of_store A.memory self.old) (F.plan self.old.failing) }
    {
        self.on = true;
        Ok(())
    }
}
