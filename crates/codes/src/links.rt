// The byte form of a link pair: previous, then next.
ghost use Rattle.codes.specs.Kinds.{link_bytes, link_item};

use crate::coded::Coded;
use rows::FreeListEntry;

impl Coded for FreeListEntry {
    type Bytes = [u8; 8];

    ghost bytes = { link_bytes };

    ghost item = { link_item };

    fn width() -> u8 {
        8
    }

    fn encode(self) -> [u8; 8] {
        let [a, b, c, d] = self.previous.to_le_bytes();
        let [e, f, g, h] = self.next.to_le_bytes();
        [a, b, c, d, e, f, g, h]
    }

    fn decode(string: [u8; 8]) -> FreeListEntry {
        let [a, b, c, d, e, f, g, h] = string;
        FreeListEntry {
            previous: u32::from_le_bytes([a, b, c, d]),
            next: u32::from_le_bytes([e, f, g, h]),
        }
    }
}
