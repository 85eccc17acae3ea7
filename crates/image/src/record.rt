// The records of an image.
ghost use Rattle.std.specs.Prelude.{◌≡◌, ◌++◌, MatchOption};
ghost use Rattle.image.specs.Format.{MayCome, NoEntry, NoEnd, entry_bytes, end_bytes};
ghost use Rattle.image.specs.Pieces.{entry};

use crate::header::Header;

// The marks of the end. Those of a value record stand in the pattern that takes it apart.
pub const END_MARKS: &[u8; 2] = b"SE";

// A record of an image. The bytes of a value are those of the image.
#[derive(Clone, Copy, PartialEq, Eq, Debug)]
pub enum Record<'a> {
    Header(Header),
    Value { key: u16, bytes: &'a [u8] },
    End,
}

// The value record at the front of `image`, as a key and the bytes of its value, and what follows it; if the key
// may come where those from `low` on are left.
pub(crate) fn split_value(image: &[u8], header: Header, low: u16) -> Option<((u16, &[u8]), &[u8])>
    ensures { MatchOption result (NoEntry header low image.now) (λ p. MayCome header low (entry p.0.0 p.0.1.now) × (image.now ≡ entry_bytes (entry p.0.0 p.0.1.now) ++ p.1.now)) }
{
    let [0x53, 0x56, k0, k1, rest @ ..] = image else {
        return None;
    };
    let key = u16::from_le_bytes([*k0, *k1]);
    if key < low || key >= header.capacity {
        return None;
    }
    let (bytes, rest) = rest.split_at_checked(usize::from(header.width))?;
    Some(((key, bytes), rest))
}

// What follows the end at the front of `image`.
pub(crate) fn split_end(image: &[u8]) -> Option<&[u8]>
    ensures { MatchOption result (NoEnd image.now) (λ rest. image.now ≡ end_bytes ++ rest.now) }
{
    image.strip_prefix(END_MARKS)
}
