// The bytes that a write buffer holds back.
ghost use Rattle.std.specs.Prelude.{◌≡◌, ◌+◌, ◌≤◌, [], ◌++◌, length, take, Ok, Err, if◌then◌else◌, nat_le};
ghost use Rattle.medium.specs.Held.{items};

use terms::NoRoom;

// At most 512 bytes, the first `len` of `bytes`, or all where there are fewer. So every value has a meaning.
// It is not a `terms::Few`, which has ghost fields: a function at a pile over a bench, whose type then holds them beside a
// `&mut`, gets no proof.
#[derive(Clone, Copy)]
pub(super) struct Held {
    bytes: [u8; 512],
    len: usize,
}

impl Held {
    // No bytes.
    pub(super) fn new() -> Held
        ensures { items result ≡ [] }
    {
        Held {
            bytes: [0; 512],
            len: 0,
        }
    }

    pub(super) fn as_slice(&self) -> &[u8]
        ensures { result.now ≡ items self.now }
    {
        let bytes: &[u8] = &self.bytes;
        &bytes[..self.len.min(bytes.len())]
    }

    // Some bytes more, unless there would be more than 512.
    pub(super) fn extend_from_slice(&mut self, more: &[u8]) -> Result<(), NoRoom>
        ensures room { result ≡ (if nat_le (length (items self.old) + length more.now) 512 then Ok tt else Err (record {})) }
        ensures after { items self.new ≡ (if nat_le (length (items self.old) + length more.now) 512 then items self.old ++ more.now else items self.old) }
    {
        let at = self.as_slice().len();
        if more.len() > 512 - at {
            return Err(NoRoom);
        }
        let past = at + more.len();
        self.bytes[at..past].copy_from_slice(more);
        self.len = past;
        Ok(())
    }

    // Keeps at most the first `len` bytes.
    pub(super) fn truncate(&mut self, len: usize)
        ensures { items self.new ≡ take len (items self.old) }
    {
        self.len = self.len.min(len);
    }
}
