// What is wrong with a line of a manifest.
ghost use Rattle.manifest.specs.Faults.{fault_refusal};

use terms::{LineFault, Refusal};

#[derive(Clone, Copy, PartialEq, Eq, Debug)]
pub enum Fault {
    // It is not understood.
    NotUnderstood,
    // It names a rule that is not declared above it, or declares one again.
    RuleDeclared,
    // It is past a limit.
    PastLimit,
    // An output is made already, or twice.
    MadeTwice,
}

impl LineFault for Fault {
    ghost told = { fault_refusal };

    fn in_line(self, line: usize) -> Refusal {
        match self {
            Fault::NotUnderstood => Refusal::ManifestLine(line),
            Fault::RuleDeclared => Refusal::RuleDeclared(line),
            Fault::PastLimit => Refusal::PastLimit(line),
            Fault::MadeTwice => Refusal::MadeTwice(line),
        }
    }
}
