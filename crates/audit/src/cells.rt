// The cells of a row, read without a refusal.
ghost use Rattle.std.specs.Prelude.{◌≡◌, slice_index_or};
ghost use Rattle.rows.specs.Kept.{Kept};

use rows::Row;

// The cell at `place`, or `other` where the row has no such place.
pub(crate) fn cell_or<R: Row>(row: &mut R, place: u32, other: R::Item) -> R::Item
    ensures value { result ≡ slice_index_or (R.Row.cells row.old) place other }
    ensures kept { Kept R.Row row.old row.new }
{
    row.read(place as usize).unwrap_or(other)
}
