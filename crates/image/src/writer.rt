// Writing the header and records into a caller's buffer.
ghost use Rattle.std.specs.Prelude.{◌≡◌};
ghost use Rattle.image.specs.Bytes.{header, padding, path, deps, record_bytes};
ghost use Rattle.image.specs.View.{text, entry_of};
ghost use Rattle.image.specs.Written.{written};

use super::entry::DepsEntry;
use super::name::Name;
use std::error::Error;
use std::fmt;

// What an image begins with: a text, a newline, and the version 4.
pub const HEADER: [u8; 16] = *b"# ninjadeps\n\x04\0\0\0";

// The buffer is too short: so many bytes are needed.
#[derive(Clone, Copy, PartialEq, Eq, Debug)]
pub struct TooShort {
    pub need: usize,
}

impl fmt::Display for TooShort {
    fn fmt<W: fmt::Write>(&self, f: &mut fmt::Formatter<W>) -> fmt::Result {
        write!(f, "the buffer is too short: {} bytes are needed", self.need)
    }
}

impl Error for TooShort {}

pub fn write_header(buf: &mut [u8]) -> Result<usize, TooShort>
    ensures { (result, buf.new) ≡ written header buf.old }
{
    if buf.len() < 16 {
        return Err(TooShort { need: 16 });
    }
    buf[..16].copy_from_slice(&HEADER);
    Ok(16)
}

// How many zeros make a multiple of 4 of so many bytes.
pub fn padding_of(len: usize) -> usize
    ensures { result ≡ padding len }
{
    (4 - len % 4) % 4
}

// Writes the path record that gives a name this id.
pub fn write_path(buf: &mut [u8], id: u32, name: &Name) -> Result<usize, TooShort>
    ensures { (result, buf.new) ≡ written (record_bytes id (path (text name.now))) buf.old }
{
    let bytes = name.as_bytes();
    let zeros = padding_of(bytes.len());
    let size = bytes.len() + zeros + 4;
    if buf.len() < 4 + size {
        return Err(TooShort { need: 4 + size });
    }
    let word = size as u32;
    buf[..4].copy_from_slice(&word.to_le_bytes());
    buf[4..4 + bytes.len()].copy_from_slice(bytes);
    buf[4 + bytes.len()..size].fill(0);
    buf[size..4 + size].copy_from_slice(&(!id).to_le_bytes());
    Ok(4 + size)
}

// Writes the deps record that gives the output with this id an entry.
pub fn write_deps(buf: &mut [u8], output: u32, entry: &DepsEntry) -> Result<usize, TooShort>
    ensures { (result, buf.new) ≡ written (record_bytes 0 (deps output (entry_of entry.now).mtime (entry_of entry.now).inputs)) buf.old }
{
    let inputs = entry.inputs();
    let size = 12 + 4 * inputs.len();
    if buf.len() < 4 + size {
        return Err(TooShort { need: 4 + size });
    }
    let word = 0x8000_0000 + size as u32;
    buf[..4].copy_from_slice(&word.to_le_bytes());
    buf[4..8].copy_from_slice(&output.to_le_bytes());
    buf[8..16].copy_from_slice(&entry.mtime().to_le_bytes());
    // By index: of a slice written through `chunks_exact_mut` a proof knows the length afterwards, and no element.
    for (k, id) in inputs.iter().enumerate() {
        buf[16 + 4 * k..20 + 4 * k].copy_from_slice(&id.to_le_bytes());
    }
    Ok(4 + size)
}
