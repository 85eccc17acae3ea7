// A number, stored through a row over the caller's slice.
ghost use Rattle.std.specs.Prelude.{◌≡◌, slice_set};
ghost use Rattle.rows.specs.Cells.{write_at};

use refusal::Refusal;
use rows::{Row, SliceRow};

// Stores `value` at `place`. Once the row is gone, the caller's slice holds its cells.
pub fn store_number(numbers: &mut [u32], place: usize, value: u32) -> Result<(), Refusal>
    ensures value { result ≡ write_at numbers.old place }
    ensures after { numbers.new ≡ slice_set numbers.old place value }
{
    let mut row = SliceRow::new(numbers);
    row.write(place, value)
}
