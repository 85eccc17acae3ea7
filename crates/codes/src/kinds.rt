// The plain numbers: a byte, a number and a deadline. An impl each: one for all of them needs a trait over their
// `to_le_bytes`, and that an impl for each.
ghost use Rattle.codes.specs.Little.{little_bytes, little_at};

use crate::coded::Coded;

// A frame count.
pub type Deadline = u64;

impl Coded for u8 {
    type Bytes = [u8; 1];

    ghost bytes = { little_bytes 1 };

    ghost item = { λ string. little_at 1 string 0 };

    fn width() -> u8 {
        1
    }

    fn encode(self) -> [u8; 1] {
        [self]
    }

    fn decode(string: [u8; 1]) -> u8 {
        string[0]
    }
}

impl Coded for u32 {
    type Bytes = [u8; 4];

    ghost bytes = { little_bytes 4 };

    ghost item = { λ string. little_at 4 string 0 };

    fn width() -> u8 {
        4
    }

    fn encode(self) -> [u8; 4] {
        self.to_le_bytes()
    }

    fn decode(string: [u8; 4]) -> u32 {
        u32::from_le_bytes(string)
    }
}

impl Coded for u64 {
    type Bytes = [u8; 8];

    ghost bytes = { little_bytes 8 };

    ghost item = { λ string. little_at 8 string 0 };

    fn width() -> u8 {
        8
    }

    fn encode(self) -> [u8; 8] {
        self.to_le_bytes()
    }

    fn decode(string: [u8; 8]) -> u64 {
        u64::from_le_bytes(string)
    }
}
