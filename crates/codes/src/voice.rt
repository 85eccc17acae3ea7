// A sound that plays, and its byte form.
ghost use Rattle.codes.specs.Kinds.{voice_bytes, voice_item};

use crate::coded::Coded;

// Where its samples begin, how many are left, and how loud it is on either side.
#[derive(Clone, Copy, PartialEq, Eq, Debug)]
pub struct Voice {
    pub first_sample: u32,
    pub samples_left: u32,
    pub left_gain: i16,
    pub right_gain: i16,
}

impl Coded for Voice {
    type Bytes = [u8; 12];

    ghost bytes = { voice_bytes };

    ghost item = { voice_item };

    fn width() -> u8 {
        12
    }

    fn encode(self) -> [u8; 12] {
        let [a, b, c, d] = self.first_sample.to_le_bytes();
        let [e, f, g, h] = self.samples_left.to_le_bytes();
        let [i, j] = self.left_gain.to_le_bytes();
        let [k, l] = self.right_gain.to_le_bytes();
        [a, b, c, d, e, f, g, h, i, j, k, l]
    }

    fn decode(string: [u8; 12]) -> Voice {
        let [a, b, c, d, e, f, g, h, i, j, k, l] = string;
        Voice {
            first_sample: u32::from_le_bytes([a, b, c, d]),
            samples_left: u32::from_le_bytes([e, f, g, h]),
            left_gain: i16::from_le_bytes([i, j]),
            right_gain: i16::from_le_bytes([k, l]),
        }
    }
}
