// A medium's fault as the refusal of a call.
ghost use Rattle.std.specs.Prelude.{◌≡◌};
ghost use Rattle.medium.specs.Refusals.{refusal_of};

use super::Fault;
use terms::Refusal;

impl From<Fault> for Refusal {
    ghost from_gives = { λ fault refusal. refusal ≡ refusal_of fault };

    fn from(fault: Fault) -> Refusal {
        match fault {
            Fault::Off => Refusal::PowerOff,
            Fault::Full => Refusal::Full,
        }
    }
}
