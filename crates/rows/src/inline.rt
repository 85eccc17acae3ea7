// A row that carries its cells in itself.
ghost use Rattle.std.specs.Prelude.{◌≡◌, List, length, replicate};

use crate::row::Row;
use crate::slice::{element, store};
use refusal::Refusal;

// How many cells a row carries.
const CELLS: usize = 64;

// Sixty-four cells of any plain kind: an array, since there is no heap.
#[derive(Clone, Copy)]
pub struct InlineRow<T> {
    cells: [T; CELLS],
}

impl<T: Copy> InlineRow<T> {
    // Sixty-four cells that all hold `cell`.
    pub fn filled(cell: T) -> Self
        ensures { result.cells ≡ replicate 64 cell }
    {
        InlineRow {
            cells: [cell; CELLS],
        }
    }

    // The cells.
    pub fn into_array(self) -> [T; CELLS]
        ensures { result ≡ self.cells }
    {
        let InlineRow { cells } = self;
        cells
    }
}

impl<T: Copy> Row for InlineRow<T> {
    type Item = T;

    ghost cells = { λ s. s.cells };

    ghost Outside = { Unit {0} };

    ghost outside = { λ _. tt };

    ghost Stored = { List T };

    ghost stored = { λ s. s.cells };

    fn count(&mut self) -> usize {
        self.cells.len()
    }

    fn read(&mut self, place: usize) -> Result<T, Refusal> {
        element(&mut self.cells, place)
    }

    fn write(&mut self, place: usize, value: T) -> Result<(), Refusal> {
        store(&mut self.cells, place, value)
    }
}
