// The slots: each belongs to one key or waits once. A slot that was met has a mark.
ghost use Rattle.std.specs.Prelude.{◌≡◌, ◌-◌, ◌≤◌, length, MatchBool};
ghost use Rattle.audit.specs.Parts.{ring, Apart, Marked, Shared};
ghost use Rattle.rows.specs.Kept.{Kept};
ghost use Rattle.audit.specs.Verdict.{queue_of};

use crate::cells::cell_or;
use crate::registers::Registers;
use containers::MAX_CAPACITY;
use rows::{NONE, Row};

// The most slots that a table has.
const MOST_SLOTS: usize = MAX_CAPACITY as usize;

// Marks the slots in `places` cells of a row, from `first` on and round its first `capacity`
// cells; whether they are `slots` slots that had no mark and differ. A cell that is `NONE` is
// passed over.
fn mark_slots<R: Row<Item = u32>>(
    row: &mut R,
    first: u32,
    places: u32,
    slots: u32,
    capacity: u32,
    marks: &mut [bool; MOST_SLOTS],
) -> bool
    requires { (capacity ≤ 65535) × ((places ≤ capacity) × (first ≤ 131070)) }
    ensures value { MatchBool result (Marked marks.old marks.new capacity (ring (R.Row.cells row.old) capacity first) places slots) (Apart marks.old capacity (ring (R.Row.cells row.old) capacity first) places slots → ⊥) }
    ensures kept { Kept R.Row row.old row.new }
{
    // A chain's closure would change the row and the marks, and then nothing is known of them after it.
    let mut marked = 0;
    for i in 0..places {
        let slot = cell_or(row, (first + i) % capacity, NONE);
        if slot == NONE {
            continue;
        }
        if slot >= capacity || marks[slot as usize] {
            return false;
        }
        marks[slot as usize] = true;
        marked += 1;
    }
    marked == slots
}

// Whether each index cell is none or a slot, so many of them slots as there are keys that hold,
// and each number that waits is a slot, and no slot stands twice among these.
pub(crate) fn slots_stand<X: Row<Item = u32>, Q: Row<Item = u32>>(
    index: &mut X,
    slots: &mut Q,
    registers: Registers,
) -> bool
    requires small { registers.capacity ≤ 65535 }
    requires begins { registers.start ≤ registers.capacity - 1 }
    requires within { registers.waiting ≤ registers.capacity }
    requires backed { registers.capacity ≤ length (Q.Row.cells slots.old) }
    ensures value { MatchBool result (Shared (X.Row.cells index.old) (queue_of registers (Q.Row.cells slots.old)) registers.len) (Shared (X.Row.cells index.old) (queue_of registers (Q.Row.cells slots.old)) registers.len → ⊥) }
    ensures index { Kept X.Row index.old index.new }
    ensures slots { Kept Q.Row slots.old slots.new }
{
    let Registers {
        capacity,
        head: _,
        start,
        waiting,
        len,
    } = registers;
    // A byte for each slot that there can be: there is no heap.
    let mut marks = [false; MOST_SLOTS];
    if !mark_slots(index, 0, capacity, len, capacity, &mut marks) {
        return false;
    }
    let oldest = start + capacity - waiting;
    mark_slots(slots, oldest, waiting, waiting, capacity, &mut marks)
}
