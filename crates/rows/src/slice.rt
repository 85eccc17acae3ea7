// A row over a slice that the caller keeps.
ghost use Rattle.std.specs.Prelude.{◌≡◌, false, List, length, is_ok, slice_set};
ghost use Rattle.std.specs.Borrow.{GName};
ghost use Rattle.rows.specs.Cells.{read_at, write_at};

use crate::row::Row;
use refusal::Refusal;

// The cells are the slice's.
#[derive(Drop)]
pub struct SliceRow<'a, T> {
    slice: &'a mut [T],
}

// The element at `place`.
pub(crate) fn element<T: Copy>(slice: &mut [T], place: usize) -> Result<T, Refusal>
    ensures value { result ≡ read_at slice.old place }
    ensures same { slice.new ≡ slice.old }
{
    slice.get(place).copied().ok_or(Refusal::NoPlace)
}

// Stores `value` in the element at `place`.
pub(crate) fn store<T: Copy>(slice: &mut [T], place: usize, value: T) -> Result<(), Refusal>
    ensures value { result ≡ write_at slice.old place }
    ensures after { slice.new ≡ slice_set slice.old place value }
    ensures kept { is_ok result ≡ false → slice.new ≡ slice.old }
{
    if place >= slice.len() {
        return Err(Refusal::NoPlace);
    }
    slice[place] = value;
    Ok(())
}

impl<'a, T> SliceRow<'a, T> {
    // A row of the slice's elements. `name` is the name of the loan by which the caller's memory is
    // held, so that its end is the caller's own.
    pub fn new(slice: &'a mut [T]) -> Self
        ensures cells { result.slice.now ≡ slice.old }
        ensures memory { result.slice.ghost_name ≡ slice.entry.ghost_name }
    {
        SliceRow { slice }
    }

    // The slice, which holds the row's cells.
    pub fn into_slice(self) -> &'a mut [T]
        ensures cells { result.now ≡ self.entry.slice.now }
        ensures memory { result.ghost_name ≡ self.entry.slice.ghost_name }
    {
        let SliceRow { slice } = self;
        slice
    }
}

impl<'a, T: Copy> Row for SliceRow<'a, T> {
    type Item = T;

    ghost cells = { λ s. s.slice.now };

    ghost Outside = { GName };

    ghost outside = { λ s. s.slice.ghost_name };

    ghost Stored = { GName × List T };

    ghost stored = { λ s. (s.slice.ghost_name, s.slice.now) };

    fn count(&mut self) -> usize {
        self.slice.len()
    }

    fn read(&mut self, place: usize) -> Result<T, Refusal> {
        element(self.slice, place)
    }

    fn write(&mut self, place: usize, value: T) -> Result<(), Refusal> {
        store(self.slice, place, value)
    }
}
