// Names as they are printed.
use std::fmt;

// A name as it is printed: a space, a `%`, a byte below 33 and a byte above 126 as `%` and two hexadecimal digits.
#[derive(Clone, Copy)]
pub struct Shown<'a>(pub &'a [u8]);

impl fmt::Display for Shown<'_> {
    fn fmt<W: fmt::Write>(&self, f: &mut fmt::Formatter<W>) -> fmt::Result {
        for &b in self.0 {
            match b {
                b'%' | 0..=32 | 127.. => write!(f, "%{b:02X}")?,
                _ => f.write_char(char::from(b))?,
            }
        }
        Ok(())
    }
}
