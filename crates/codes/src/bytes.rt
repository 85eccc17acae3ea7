// Byte strings of a fixed length, by value.
ghost use Rattle.std.specs.Prelude.{◌≡◌, ℕ, List, length, replicate, slice_index, slice_set};

// So many bytes; what a kind of that width is written to and read from.
pub trait ByteArray: Copy {
    // The bytes, in order.
    ghost list: { Self → List ℕ };

    // How many there are.
    ghost size: { ℕ };

    // How many bytes there are.
    fn size() -> usize
        ensures { result ≡ size };

    // Zeros only.
    fn zeros() -> Self
        ensures { list result ≡ replicate size 0 };

    // The byte at `place`, or 0 past the end.
    fn at(&self, place: usize) -> u8
        ensures { result ≡ slice_index (list self.now) place };

    // Puts `byte` at `place`; past the end nothing changes.
    fn put(&mut self, place: usize, byte: u8)
        ensures { list self.new ≡ slice_set (list self.old) place byte };
}

impl<const N: usize> ByteArray for [u8; N] {
    ghost list = { λ bytes. bytes };

    ghost size = { N };

    fn size() -> usize {
        N
    }

    fn zeros() -> Self {
        [0; N]
    }

    fn at(&self, place: usize) -> u8 {
        self.get(place).copied().unwrap_or(0)
    }

    fn put(&mut self, place: usize, byte: u8) {
        if place < self.len() {
            self[place] = byte;
        }
    }
}
