// When the power fails, and what a failure keeps.
ghost use Rattle.std.specs.Prelude.{◌≡◌, ℕ, length, refl};
ghost use Rattle.std.proofs.Common.{ap};
ghost use Rattle.medium.specs.State.{State, all};
ghost use Rattle.media.specs.Fill.{over_pages, whole-cut};
ghost use Rattle.media.specs.Told.{is_due, counted, never, fallen, fallen_to, fallen_whole};

// What a failure inside `promote` leaves.
#[derive(Clone, Copy, Debug, PartialEq, Eq)]
pub enum Side {
    // The old live bytes.
    Old,
    // The draft.
    Draft,
}

// When the power fails, and what that failure keeps.
#[derive(Clone, Copy, Debug, PartialEq, Eq)]
pub struct Plan {
    // How many steps from here on pass before the one at which the power fails; none where it never fails.
    pub after: Option<u64>,
    // How many of the pending bytes are kept, or all where there are fewer.
    pub keep: usize,
    // What a failure inside `promote` leaves.
    pub side: Side,
}

impl Plan {
    // The plan of no failure.
    pub const NEVER: Plan = Plan {
        after: None,
        keep: 0,
        side: Side::Old,
    };

    // Whether a failure comes at the next step.
    pub(super) fn is_due(&self) -> bool
        ensures { result ≡ is_due self.now }
    {
        self.after == Some(0)
    }
}

pub trait Failing: Drop {
    ghost use Rattle.media.specs.declared.failing.Plan.{Plan};

    // By which plan the power fails inside calls.
    ghost plan: { Self → Plan };

    // How many of the pending bytes a failure between calls keeps, of d durable bytes and n in all.
    ghost kept: { ℕ → ℕ → ℕ };

    // What that failure leaves.
    ghost falls: { State → State };

    fn plan(&self) -> Plan
        ensures { result ≡ plan self.now };

    // Counts a step.
    fn count(&mut self)
        ensures { plan self.new ≡ counted (plan self.old) };

    // How many of the pending bytes a failure between calls keeps, where `durable` of the `len` live bytes are durable.
    fn keep(&self, durable: usize, len: usize) -> usize
        ensures { result ≡ kept durable len };

    ghost cuts: { (s : State) → falls s ≡ fallen (kept (length s.live.durable) (length (all s.live))) s };
}

// It fails as it is told, and between calls keeps nothing that is pending.
impl Failing for Plan {
    ghost plan = { λ p. p };

    ghost kept = { λ d n. 0 };

    ghost falls = { fallen 0 };

    ghost cuts = { λ s. refl };

    fn plan(&self) -> Plan {
        *self
    }

    fn count(&mut self) {
        self.after = self.after.and_then(|n| n.checked_sub(1));
    }

    fn keep(&self, durable: usize, len: usize) -> usize {
        0
    }
}

// It fails only between calls, and then keeps whole pages of 256 bytes.
#[derive(Clone, Copy, Debug, PartialEq, Eq)]
pub struct Pages;

impl Failing for Pages {
    ghost plan = { λ _. never };

    ghost kept = { over_pages };

    ghost falls = { fallen_whole };

    ghost cuts = { λ s. ap (λ b. fallen_to b s) (whole-cut s.live) };

    fn plan(&self) -> Plan {
        Plan::NEVER
    }

    fn count(&mut self) {}

    fn keep(&self, durable: usize, len: usize) -> usize {
        (len / 256 * 256).saturating_sub(durable)
    }
}
