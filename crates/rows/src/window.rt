// A row over a part of another row.
ghost use Rattle.std.specs.Prelude.{◌≡◌, ℕ, ◌^◌, ◌<◌, length};
ghost use Rattle.rows.specs.Cells.{window, Around, around};
ghost use Rattle.rows.specs.Kept.{Kept};

use crate::row::Row;
use refusal::Refusal;

// The cells of `row` from place `from` on, at most `most` of them.
#[derive(Drop)]
pub struct WindowRow<R: Row> {
    row: R,
    from: usize,
    most: usize,
}

// How many cells of `row` a window shows.
fn shown<R: Row>(row: &mut R, from: usize, most: usize) -> usize
    ensures value { result ≡ length (window from most (R.Row.cells row.old)) }
    ensures fits { length (R.Row.cells row.old) < 2 ^ 64 }
    ensures kept { Kept R.Row row.old row.new }
{
    let rest = row.count().saturating_sub(from);
    rest.min(most)
}

impl<R: Row> WindowRow<R> {
    // From past the end there are none.
    pub fn new(row: R, from: usize, most: usize) -> Self
        ensures cells { window result.from result.most (R.Row.cells result.row) ≡ window from most (R.Row.cells row) }
        ensures row { result.row ≡ row }
        ensures from { result.from ≡ from }
        ensures most { result.most ≡ most }
    {
        WindowRow { row, from, most }
    }

    // The row below, with all its cells.
    pub fn into_row(self) -> R
        ensures row { result ≡ self.row }
        ensures cells { R.Row.cells result ≡ R.Row.cells self.row }
    {
        let WindowRow { row, .. } = self;
        row
    }
}

impl<R: Row> Row for WindowRow<R> {
    type Item = R::Item;

    ghost cells = { λ s. window s.from s.most (R.Row.cells s.row) };

    ghost Outside = { Around R.Row.Outside R.Item };

    ghost outside = { λ s. around (R.Row.outside s.row) s.from s.most (R.Row.cells s.row) };

    ghost Stored = { R.Row.Stored × ℕ × ℕ };

    ghost stored = { λ s. (R.Row.stored s.row, s.from, s.most) };

    fn count(&mut self) -> usize {
        shown(&mut self.row, self.from, self.most)
    }

    fn read(&mut self, place: usize) -> Result<R::Item, Refusal> {
        if place < shown(&mut self.row, self.from, self.most) {
            self.row.read(self.from + place)
        } else {
            Err(Refusal::NoPlace)
        }
    }

    fn write(&mut self, place: usize, value: R::Item) -> Result<(), Refusal> {
        if place < shown(&mut self.row, self.from, self.most) {
            self.row.write(self.from + place, value)
        } else {
            Err(Refusal::NoPlace)
        }
    }
}
