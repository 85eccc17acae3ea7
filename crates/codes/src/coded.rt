// Kinds with a byte form.
ghost use Rattle.std.specs.Prelude.{◌≡◌, ℕ, ◌<◌, List, length};

use crate::bytes::ByteArray;

// A kind of which every item is written in the same number of bytes, 1 to 255, and every
// string of so many bytes reads as an item. An item's bytes read as that item.
pub trait Coded: Copy {
    type Bytes: ByteArray;

    // The bytes of an item.
    ghost bytes: { Self → List ℕ };

    // The item that bytes read as.
    ghost item: { List ℕ → Self };

    // How many bytes an item has.
    fn width() -> u8
        ensures value { result ≡ Self.Bytes.ByteArray.size }
        ensures some { 0 < result };

    // The bytes of this item, which read as this item.
    fn encode(self) -> Self::Bytes
        ensures value { Self.Bytes.ByteArray.list result ≡ bytes self }
        ensures width { length (bytes self) ≡ Self.Bytes.ByteArray.size }
        ensures back { item (bytes self) ≡ self };

    // The item that `string` reads as.
    fn decode(string: Self::Bytes) -> Self
        ensures { result ≡ item (Self.Bytes.ByteArray.list string) };
}
