// A link pair, stored through three rows: a caller's bytes, a window of them, and link pairs
// packed into the window.
ghost use Rattle.std.specs.Prelude.{◌≡◌, ◌*◌, is_ok, if◌then◌else◌, slice_set};
ghost use Rattle.std.proofs.Math.Seq.{paste};
ghost use Rattle.rows.specs.Cells.{write_at, window, around};
ghost use Rattle.codes.specs.Kinds.{link_bytes, link_item};
ghost use Rattle.codes.specs.Packed.{packed, behind};

use codes::PackedRow;
use refusal::Refusal;
use rows::{FreeListEntry, Row, SliceRow, WindowRow};

// Stores `entry` as link pair `place` of the window of at most `most` bytes from `from` on,
// and hands the bytes back. They are the same memory, and what lies outside the window, and
// in it past the last whole link pair, is as it was.
pub fn store_link<'a>(
    bytes: &'a mut [u8],
    from: usize,
    most: usize,
    place: usize,
    entry: FreeListEntry,
) -> (Result<(), Refusal>, &'a mut [u8])
    ensures value { result.0 ≡ write_at (packed 8 link_item (window from most bytes.old)) place }
    ensures after { packed 8 link_item (window from most result.1.now) ≡ slice_set (packed 8 link_item (window from most bytes.old)) place entry }
    ensures bytes { window from most result.1.now ≡ (if is_ok result.0 then paste (window from most bytes.old) (place * 8) (link_bytes entry) 8 else window from most bytes.old) }
    ensures beside { behind (around result.1.ghost_name from most result.1.now) 8 (window from most result.1.now) ≡ behind (around bytes.entry.ghost_name from most bytes.old) 8 (window from most bytes.old) }
{
    let row = WindowRow::new(SliceRow::new(bytes), from, most);
    let mut links: PackedRow<FreeListEntry, WindowRow<SliceRow<'a, u8>>> = PackedRow::new(row);
    let answer = links.write(place, entry);
    (answer, links.into_row().into_row().into_slice())
}
