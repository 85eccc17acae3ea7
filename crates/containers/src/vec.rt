// A vector over any row.
ghost use Rattle.std.specs.Prelude.{◌≡◌, ◌+◌, ◌-◌, ◌≤◌, min, false, [], length, take, is_ok, if◌then◌else◌, Ok, Err, ◌==◌, nat_lt, slice_set};
ghost use Rattle.std.specs.List.{slice_get};
ghost use Rattle.std.specs.Option.{ok_or};
ghost use Rattle.refusal.specs.declared.Refusal.TheVariants.{PlacePastLength};
ghost use Rattle.containers.specs.Bounded.{Means, append_answer, appended};

use crate::capacity::fitting;
use crate::extent::Extent;
use refusal::Refusal;
use rows::Row;
use std::marker::Model;

// Elements in a row's first cells, in order. The row has a cell for each place.
#[derive(Drop)]
pub struct MetaVec<R: Row> {
    row: R,
    extent: Extent,
}

impl<R: Row> Model for MetaVec<R> {
    ghost use Rattle.std.specs.Prelude.{◌≤◌, length};
    ghost use Rattle.containers.specs.Values.{VecValue};

    ghost Value = { VecValue R };

    ghost view = { λ v. record { row = v.row; extent = v.extent } };

    ghost invariant = { λ v. v.extent.capacity ≤ length (R.Row.cells v.row) };
}

impl<R: Row> MetaVec<R> {
    ghost use Rattle.containers.specs.Vectors.{vector, contents, with, Backed, push_answer, pop_answer, read_answer, write_answer};

    // An empty vector over all cells of `row`, or over the first 65,535 of them.
    pub fn new(mut row: R) -> Self
        ensures state { vector R.Row.cells result ≡ record { capacity = min 65535 (length (R.Row.cells row)); len = 0; cells = R.Row.cells row } }
        ensures backed { Backed (vector R.Row.cells result) }
        ensures untouched { R.Row.stored result.row ≡ R.Row.stored row }
        ensures beside { R.Row.outside result.row ≡ R.Row.outside row }
    {
        let capacity = fitting(u32::MAX, row.count());
        let extent = Extent { capacity, len: 0 };
        MetaVec { row, extent }
    }

    // The row below, with all its cells.
    pub fn into_row(self) -> R
        ensures row { result ≡ self.row }
        ensures cells { R.Row.cells result ≡ R.Row.cells self.row }
    {
        let MetaVec { row, .. } = self;
        row
    }

    // How many elements can be held.
    pub fn capacity(&self) -> u32
        ensures { result ≡ (vector R.Row.cells self.now).capacity }
    {
        self.extent.capacity
    }

    // How many elements are held.
    pub fn len(&self) -> u32
        ensures value { result ≡ (vector R.Row.cells self.now).len }
        ensures means { result ≡ length (contents (vector R.Row.cells self.now)) }
        ensures backed { Backed (vector R.Row.cells self.now) }
    {
        self.extent.len
    }

    // True where no more can be held.
    pub fn is_full(&self) -> bool
        ensures value { result ≡ ((vector R.Row.cells self.now).len == (vector R.Row.cells self.now).capacity) }
        ensures means { result ≡ (length (contents (vector R.Row.cells self.now)) == (vector R.Row.cells self.now).capacity) }
    {
        self.len() == self.capacity()
    }

    // True where nothing is held.
    pub fn is_empty(&self) -> bool
        ensures value { result ≡ ((vector R.Row.cells self.now).len == 0) }
        ensures means { result ≡ (length (contents (vector R.Row.cells self.now)) == 0) }
    {
        self.len() == 0
    }

    // Adds `value` behind the last element; refused where the vector is full.
    pub fn push(&mut self, value: R::Item) -> Result<(), Refusal>
        ensures value { result ≡ push_answer (vector R.Row.cells self.old) }
        ensures after { vector R.Row.cells self.new ≡ (if is_ok result then with (vector R.Row.cells self.old) ((vector R.Row.cells self.old).len + 1) (slice_set (vector R.Row.cells self.old).cells (vector R.Row.cells self.old).len value) else vector R.Row.cells self.old) }
        ensures means { Means contents Backed (vector R.Row.cells self.old) result (vector R.Row.cells self.new) (append_answer (vector R.Row.cells self.old).capacity) (appended (vector R.Row.cells self.old).capacity value) }
        ensures kept { is_ok result ≡ false → R.Row.stored self.new.row ≡ R.Row.stored self.old.row }
        ensures beside { R.Row.outside self.new.row ≡ R.Row.outside self.old.row }
    {
        if self.is_full() {
            return Err(Refusal::NoSpace);
        }
        let len = self.len();
        self.row.write(len as usize, value)?;
        self.extent = self.extent.resized(len + 1);
        Ok(())
    }

    // Lets all elements go.
    pub fn clear(&mut self)
        ensures after { vector R.Row.cells self.new ≡ with (vector R.Row.cells self.old) 0 (vector R.Row.cells self.old).cells }
        ensures holds { contents (vector R.Row.cells self.new) ≡ [] }
        ensures backed { Backed (vector R.Row.cells self.new) }
        ensures untouched { R.Row.stored self.new.row ≡ R.Row.stored self.old.row }
        ensures beside { R.Row.outside self.new.row ≡ R.Row.outside self.old.row }
    {
        self.extent = self.extent.resized(0);
    }

    // Takes the last element out.
    pub fn pop(&mut self) -> Option<R::Item>
        ensures value { Ok result ≡ pop_answer (vector R.Row.cells self.old) }
        ensures after { vector R.Row.cells self.new ≡ with (vector R.Row.cells self.old) ((vector R.Row.cells self.old).len - 1) (vector R.Row.cells self.old).cells }
        ensures means { Means contents Backed (vector R.Row.cells self.old) result (vector R.Row.cells self.new) (λ xs. slice_get xs (length xs - 1)) (λ xs. take (length xs - 1) xs) }
        ensures untouched { R.Row.stored self.new.row ≡ R.Row.stored self.old.row }
        ensures beside { R.Row.outside self.new.row ≡ R.Row.outside self.old.row }
    {
        let len = self.len().checked_sub(1)?;
        let last = self.read(len as usize).ok()?;
        self.extent = self.extent.resized(len);
        Some(last)
    }

    // The element at `place`; refused at or past the length.
    pub fn read(&mut self, place: usize) -> Result<R::Item, Refusal>
        ensures value { result ≡ read_answer (vector R.Row.cells self.old) place }
        ensures same { vector R.Row.cells self.new ≡ vector R.Row.cells self.old }
        ensures means { Means contents Backed (vector R.Row.cells self.old) result (vector R.Row.cells self.new) (λ xs. ok_or (slice_get xs place) PlacePastLength) (λ xs. xs) }
        ensures untouched { R.Row.stored self.new.row ≡ R.Row.stored self.old.row }
        ensures beside { R.Row.outside self.new.row ≡ R.Row.outside self.old.row }
    {
        if place < self.len() as usize {
            self.row.read(place)
        } else {
            Err(Refusal::PlacePastLength)
        }
    }

    // Stores `value` in the element at `place`; refused at or past the length.
    pub fn write(&mut self, place: usize, value: R::Item) -> Result<(), Refusal>
        ensures value { result ≡ write_answer (vector R.Row.cells self.old) place }
        ensures after { vector R.Row.cells self.new ≡ with (vector R.Row.cells self.old) (vector R.Row.cells self.old).len (if is_ok result then slice_set (vector R.Row.cells self.old).cells place value else (vector R.Row.cells self.old).cells) }
        ensures means { Means contents Backed (vector R.Row.cells self.old) result (vector R.Row.cells self.new) (λ xs. (if nat_lt place (length xs) then Ok tt else Err PlacePastLength)) (λ xs. slice_set xs place value) }
        ensures kept { is_ok result ≡ false → R.Row.stored self.new.row ≡ R.Row.stored self.old.row }
        ensures beside { R.Row.outside self.new.row ≡ R.Row.outside self.old.row }
    {
        if place < self.len() as usize {
            self.row.write(place, value)
        } else {
            Err(Refusal::PlacePastLength)
        }
    }
}
