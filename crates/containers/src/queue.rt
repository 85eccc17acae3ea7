// A queue over any row.
ghost use Rattle.std.specs.Prelude.{◌≡◌, ◌≤◌, ℕ, min, false, [], ◌∷◌, ◌++◌, length, drop, is_ok, if◌then◌else◌, Ok, ◌==◌};
ghost use Rattle.std.specs.List.{slice_get};
ghost use Rattle.std.specs.Option.{ok_or};
ghost use Rattle.refusal.specs.declared.Refusal.TheVariants.{PlacePastLength};
ghost use Rattle.containers.specs.Bounded.{Means, append_answer, appended, displaced, latest};

use crate::capacity::fitting;
use crate::position::Position;
use refusal::Refusal;
use rows::Row;
use std::marker::Model;

// First in, first out, round a ring of places. The row has a cell for each place.
#[derive(Drop)]
pub struct MetaQueue<R: Row> {
    row: R,
    position: Position,
}

impl<R: Row> Model for MetaQueue<R> {
    ghost use Rattle.std.specs.Prelude.{◌≤◌, length};
    ghost use Rattle.containers.specs.Values.{QueueValue};

    ghost Value = { QueueValue R };

    ghost view = { λ q. record { row = q.row; position = q.position } };

    ghost invariant = { λ q. q.position.capacity ≤ length (R.Row.cells q.row) };
}

impl<R: Row> MetaQueue<R> {
    ghost use Rattle.containers.specs.Queues.{queue, contents, empty, cleared, Backed, pushed, popped, overflowed, push_answer, oldest_answer, overflow_answer, get_answer};

    // An empty queue over all cells of `row`, or over the first 65,535 of them.
    pub fn new(row: R) -> Self
        ensures state { queue R.Row.cells result ≡ empty (min 65535 (length (R.Row.cells row))) (R.Row.cells row) }
        ensures backed { Backed (queue R.Row.cells result) }
        ensures untouched { R.Row.stored result.row ≡ R.Row.stored row }
        ensures beside { R.Row.outside result.row ≡ R.Row.outside row }
    {
        MetaQueue::with_capacity(row, u32::MAX)
    }

    // An empty queue over the first cells of `row`: `capacity` of them, if there are so many and
    // they are at most 65,535.
    pub fn with_capacity(mut row: R, capacity: u32) -> Self
        ensures state { queue R.Row.cells result ≡ empty (min (min capacity 65535) (length (R.Row.cells row))) (R.Row.cells row) }
        ensures backed { Backed (queue R.Row.cells result) }
        ensures untouched { R.Row.stored result.row ≡ R.Row.stored row }
        ensures beside { R.Row.outside result.row ≡ R.Row.outside row }
    {
        let capacity = fitting(capacity, row.count());
        let position = Position::unused(capacity);
        MetaQueue { row, position }
    }

    // The row below, with all its cells.
    pub fn into_row(self) -> R
        ensures row { result ≡ self.row }
        ensures cells { R.Row.cells result ≡ R.Row.cells self.row }
    {
        let MetaQueue { row, .. } = self;
        row
    }

    // The element `index` from the oldest; refused at or past the length.
    pub fn get(&mut self, index: usize) -> Result<R::Item, Refusal>
        ensures value { result ≡ get_answer (queue R.Row.cells self.old) index }
        ensures same { queue R.Row.cells self.new ≡ queue R.Row.cells self.old }
        ensures means { Means contents Backed (queue R.Row.cells self.old) result (queue R.Row.cells self.new) (λ xs. ok_or (slice_get xs index) PlacePastLength) (λ xs. xs) }
        ensures untouched { R.Row.stored self.new.row ≡ R.Row.stored self.old.row }
        ensures beside { R.Row.outside self.new.row ≡ R.Row.outside self.old.row }
    {
        // `as u32`, since an index below a length fits: with a `try_from` there would be one more case to refuse.
        if index < self.len() as usize {
            self.row.read(self.position.place_of(index as u32) as usize)
        } else {
            Err(Refusal::PlacePastLength)
        }
    }

    // True where nothing is held.
    pub fn is_empty(&self) -> bool
        ensures value { result ≡ ((queue R.Row.cells self.now).len == 0) }
        ensures means { result ≡ (length (contents (queue R.Row.cells self.now)) == 0) }
    {
        self.len() == 0
    }

    // The place that the next push writes.
    pub fn start(&self) -> u32
        ensures { result ≡ (queue R.Row.cells self.now).start }
    {
        self.position.start
    }

    // How many elements can be held.
    pub fn capacity(&self) -> u32
        ensures { result ≡ (queue R.Row.cells self.now).capacity }
    {
        self.position.capacity
    }

    // How many elements are held.
    pub fn len(&self) -> u32
        ensures value { result ≡ (queue R.Row.cells self.now).len }
        ensures means { result ≡ length (contents (queue R.Row.cells self.now)) }
        ensures backed { Backed (queue R.Row.cells self.now) }
    {
        self.position.len
    }

    // True where no more can be held.
    pub fn is_full(&self) -> bool
        ensures value { result ≡ ((queue R.Row.cells self.now).len == (queue R.Row.cells self.now).capacity) }
        ensures means { result ≡ (length (contents (queue R.Row.cells self.now)) == (queue R.Row.cells self.now).capacity) }
    {
        self.len() == self.capacity()
    }

    // Lets all elements go; `start` stays where it is.
    pub fn clear(&mut self)
        ensures after { queue R.Row.cells self.new ≡ cleared (queue R.Row.cells self.old) }
        ensures holds { contents (queue R.Row.cells self.new) ≡ [] }
        ensures backed { Backed (queue R.Row.cells self.new) }
        ensures untouched { R.Row.stored self.new.row ≡ R.Row.stored self.old.row }
        ensures beside { R.Row.outside self.new.row ≡ R.Row.outside self.old.row }
    {
        self.position = self.position.cleared();
    }

    // The oldest element, which stays.
    pub fn peek(&mut self) -> Option<R::Item>
        ensures value { Ok result ≡ oldest_answer (queue R.Row.cells self.old) }
        ensures same { queue R.Row.cells self.new ≡ queue R.Row.cells self.old }
        ensures means { Means contents Backed (queue R.Row.cells self.old) result (queue R.Row.cells self.new) (λ xs. slice_get xs 0) (λ xs. xs) }
        ensures untouched { R.Row.stored self.new.row ≡ R.Row.stored self.old.row }
        ensures beside { R.Row.outside self.new.row ≡ R.Row.outside self.old.row }
    {
        self.get(0).ok()
    }

    // Takes the oldest element out.
    pub fn pop(&mut self) -> Option<R::Item>
        ensures value { Ok result ≡ oldest_answer (queue R.Row.cells self.old) }
        ensures after { queue R.Row.cells self.new ≡ popped (queue R.Row.cells self.old) }
        ensures means { Means contents Backed (queue R.Row.cells self.old) result (queue R.Row.cells self.new) (λ xs. slice_get xs 0) (drop 1) }
        ensures untouched { R.Row.stored self.new.row ≡ R.Row.stored self.old.row }
        ensures beside { R.Row.outside self.new.row ≡ R.Row.outside self.old.row }
    {
        let oldest = self.peek();
        self.position = self.position.popped();
        oldest
    }

    // Adds `value` behind the newest element; refused where the queue is full.
    pub fn push(&mut self, value: R::Item) -> Result<(), Refusal>
        ensures value { result ≡ push_answer (queue R.Row.cells self.old) }
        ensures after { queue R.Row.cells self.new ≡ (if is_ok result then pushed (queue R.Row.cells self.old) value else queue R.Row.cells self.old) }
        ensures means { Means contents Backed (queue R.Row.cells self.old) result (queue R.Row.cells self.new) (append_answer (queue R.Row.cells self.old).capacity) (appended (queue R.Row.cells self.old).capacity value) }
        ensures kept { is_ok result ≡ false → R.Row.stored self.new.row ≡ R.Row.stored self.old.row }
        ensures beside { R.Row.outside self.new.row ≡ R.Row.outside self.old.row }
    {
        if self.is_full() {
            return Err(Refusal::NoSpace);
        }
        self.row.write(self.position.start as usize, value)?;
        self.position = self.position.pushed();
        Ok(())
    }

    // Adds `value` behind the newest element; where the queue is full, the oldest has to go and
    // is answered. Refused where there is no cell at all.
    pub fn push_with_overflow(&mut self, value: R::Item) -> Result<Option<R::Item>, Refusal>
        ensures value { result ≡ overflow_answer (queue R.Row.cells self.old) }
        ensures after { queue R.Row.cells self.new ≡ (if is_ok result then overflowed (queue R.Row.cells self.old) value else queue R.Row.cells self.old) }
        ensures means { Means contents Backed (queue R.Row.cells self.old) result (queue R.Row.cells self.new) (displaced (queue R.Row.cells self.old).capacity) (λ xs. latest (queue R.Row.cells self.old).capacity (xs ++ (value ∷ []))) }
        ensures kept { is_ok result ≡ false → R.Row.stored self.new.row ≡ R.Row.stored self.old.row }
        ensures beside { R.Row.outside self.new.row ≡ R.Row.outside self.old.row }
    {
        if self.capacity() == 0 {
            return Err(Refusal::NoCell);
        }
        if self.len() < self.capacity() {
            self.push(value)?;
            return Ok(None);
        }
        // No place is free, so the oldest element lies where the next push writes: read and written there, it takes
        // two thirds of the time of a pop and a push.
        let start = self.position.start as usize;
        let oldest = self.row.read(start)?;
        self.row.write(start, value)?;
        self.position = self.position.popped().pushed();
        Ok(Some(oldest))
    }
}

// All cells of the row below, whatever the position: so that what a queue stands on can be looked
// at. No call of these moves the position.
impl<R: Row> Row for MetaQueue<R> {
    type Item = R::Item;

    ghost cells = { λ q. R.Row.cells q.row };

    ghost Outside = { ℕ × ℕ × ℕ × R.Row.Outside };

    ghost outside = { λ q. (q.position.capacity, q.position.start, q.position.len, R.Row.outside q.row) };

    ghost Stored = { ℕ × ℕ × ℕ × R.Row.Stored };

    ghost stored = { λ q. (q.position.capacity, q.position.start, q.position.len, R.Row.stored q.row) };

    fn count(&mut self) -> usize {
        self.row.count()
    }

    fn read(&mut self, place: usize) -> Result<R::Item, Refusal> {
        self.row.read(place)
    }

    fn write(&mut self, place: usize, value: R::Item) -> Result<(), Refusal> {
        self.row.write(place, value)
    }
}
