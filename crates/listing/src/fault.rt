// What is wrong with a line of a listing.
ghost use Rattle.listing.specs.Faults.{listing_refusal};

use terms::{LineFault, Refusal};

#[derive(Clone, Copy, PartialEq, Eq, Debug)]
pub enum ListingFault {
    // It is not understood, or its name was listed before.
    BadLine,
    // It is the 513th row.
    PastRows,
}

impl LineFault for ListingFault {
    ghost told = { listing_refusal };

    fn in_line(self, line: usize) -> Refusal {
        match self {
            ListingFault::BadLine => Refusal::ListingLine(line),
            ListingFault::PastRows => Refusal::PastLimit(line),
        }
    }
}
