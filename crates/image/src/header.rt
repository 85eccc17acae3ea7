// The header of an image.
ghost use Rattle.std.specs.Prelude.{◌≡◌, ◌++◌, MatchOption};
ghost use Rattle.image.specs.Format.{Legal, NoHeader, header_bytes};

// The marks of a header.
pub const HEADER_MARKS: &[u8; 2] = b"SM";

// The number of the form.
pub const FORM: u8 = 1;

// What an image says of itself: the bytes of a value, the keys of the table, and how many of these hold.
#[derive(Clone, Copy, PartialEq, Eq, Debug)]
pub struct Header {
    pub width: u8,
    pub capacity: u16,
    pub held: u16,
}

// The header at the front of `image`, and what follows it.
pub(crate) fn split_header(image: &[u8]) -> Option<(Header, &[u8])>
    ensures { MatchOption result (NoHeader image.now) (λ p. Legal p.0 × (image.now ≡ header_bytes p.0 ++ p.1.now)) }
{
    let [FORM, width, c0, c1, h0, h1, rest @ ..] = image.strip_prefix(HEADER_MARKS)? else {
        return None;
    };
    let header = Header {
        width: *width,
        capacity: u16::from_le_bytes([*c0, *c1]),
        held: u16::from_le_bytes([*h0, *h1]),
    };
    let legal = header.width > 0 && header.held <= header.capacity;
    legal.then_some((header, rest))
}
