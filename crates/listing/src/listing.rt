// A listing that was read: its text, and the rows in it.
use super::row::Row;

#[derive(Clone, Copy)]
pub struct Listing<'t, 'r> {
    pub text: &'t [u8],
    pub rows: &'r [Row],
}
