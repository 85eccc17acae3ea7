// What a row promises. Code above a row relies on this alone.
ghost use Rattle.std.specs.Prelude.{◌≡◌, false, List, length, is_ok, slice_set};
ghost use Rattle.rows.specs.Cells.{read_at, write_at};

use refusal::Refusal;

// A list of cells of one kind, whose count never changes.
pub trait Row {
    type Item: Copy;

    // The cells, in order.
    ghost cells: { Self → List Self.Item };

    // What belongs to the row and is no cell of it, as the memory that it stands over and
    // the cells beside a window. No call changes it.
    ghost Outside: { Type 0 };

    ghost outside: { Self → Outside };

    // The row as it is stored, down to the memory at the bottom: cells, and what lies outside.
    // Only a write that is not refused changes it.
    ghost Stored: { Type 0 };

    ghost stored: { Self → Stored };

    // How many cells there are.
    fn count(&mut self) -> usize
        ensures value { result ≡ length (cells self.old) }
        ensures same { cells self.new ≡ cells self.old }
        ensures untouched { stored self.new ≡ stored self.old }
        ensures beside { outside self.new ≡ outside self.old };

    // The cell at `place`; refused where there is no such place.
    fn read(&mut self, place: usize) -> Result<Self::Item, Refusal>
        ensures value { result ≡ read_at (cells self.old) place }
        ensures same { cells self.new ≡ cells self.old }
        ensures untouched { stored self.new ≡ stored self.old }
        ensures beside { outside self.new ≡ outside self.old };

    // Stores `value` in the cell at `place` and in no other; refused where there is no such
    // place, and then `set` changes nothing: what is stored below stays as it was.
    fn write(&mut self, place: usize, value: Self::Item) -> Result<(), Refusal>
        ensures value { result ≡ write_at (cells self.old) place }
        ensures after { cells self.new ≡ slice_set (cells self.old) place value }
        ensures kept { is_ok result ≡ false → stored self.new ≡ stored self.old }
        ensures beside { outside self.new ≡ outside self.old };
}
