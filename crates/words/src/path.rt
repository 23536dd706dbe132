// A name, as it is or as a word spells it.
#[derive(Clone, Copy)]
pub enum Path<'a> {
    Plain(&'a [u8]),
    Spelled(&'a [u8]),
}
