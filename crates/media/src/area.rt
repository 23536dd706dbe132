// Memory for bytes: lent by a caller, or of its own.
ghost use Rattle.std.specs.Prelude.{◌≡◌, ◌+◌, ◌≤◌, length};
ghost use Rattle.media.specs.Memory.{Memory, lent, own, written};

pub trait Area: Drop {
    ghost memory: { Self → Memory };

    // All that stands there.
    fn bytes(&self) -> &[u8]
        ensures bytes { result.now ≡ (memory self.now).bytes }
        ensures size { length result.now ≡ (memory self.now).size };

    // Puts bytes in the place of those from `at` on.
    fn put(&mut self, at: usize, bytes: &[u8])
        requires { at + length bytes.now ≤ (memory self.old).size }
        ensures bytes { (memory self.new).bytes ≡ written at bytes.now (memory self.old).bytes }
        ensures size { (memory self.new).size ≡ (memory self.old).size };
}

impl<'a> Area for &'a mut [u8] {
    ghost memory = { lent };

    fn bytes(&self) -> &[u8] {
        self
    }

    fn put(&mut self, at: usize, bytes: &[u8]) {
        self[at..at + bytes.len()].copy_from_slice(bytes);
    }
}

impl<const N: usize> Area for [u8; N] {
    ghost memory = { own N };

    fn bytes(&self) -> &[u8] {
        self
    }

    fn put(&mut self, at: usize, bytes: &[u8]) {
        let all = &mut self[..];
        all[at..at + bytes.len()].copy_from_slice(bytes);
    }
}
