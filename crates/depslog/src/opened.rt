// What an open answers.
use image::Cause;
use terms::At;

#[derive(Clone, Copy, PartialEq, Eq, Debug)]
pub struct Opened {
    // The number of good records.
    pub records: usize,
    // The tail that was dropped, where there was one.
    pub tail: Option<At<Cause>>,
}
