// Faults of the lines of a text.
ghost use Rattle.std.specs.Prelude.{◌≡◌, ℕ};
ghost use Rattle.terms.specs.declared.Refusal.{Refusal as Told};

use crate::{At, Refusal};

// What is wrong with a line, which is a refusal once the line is known.
pub trait LineFault {
    ghost told: { ℕ → Self → Told };

    fn in_line(self, line: usize) -> Refusal
        ensures { result ≡ told line self };
}

impl<F: LineFault> From<At<F>> for Refusal {
    ghost from_gives = { λ fault refusal. refusal ≡ F.told fault.offset fault.value };

    fn from(fault: At<F>) -> Refusal {
        fault.value.in_line(fault.offset)
    }
}
