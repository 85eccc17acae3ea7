// Whether cells and registers stand.
ghost use Rattle.std.specs.Prelude.{◌≡◌, length, MatchBool, nat_le};
ghost use Rattle.audit.specs.Parts.{Sized};
ghost use Rattle.rows.specs.Kept.{Kept};
ghost use Rattle.audit.specs.Verdict.{layout_of, Verdict};

use crate::keys::{free_list_stands, holding_keys_are_loose};
use crate::registers::Registers;
use crate::slots::slots_stand;
use containers::MAX_CAPACITY;
use refusal::Refusal;
use rows::{FreeListEntry, Row};

// Whether a row has `count` cells or more.
fn has_cells<R: Row>(row: &mut R, count: u32) -> bool
    ensures value { result ≡ nat_le count (length (R.Row.cells row.old)) }
    ensures kept { Kept R.Row row.old row.new }
{
    count as usize <= row.count()
}

// Whether the capacity is small enough, each row has a cell for each key and slot, the queue's
// position is legal, and holding keys and waiting slots together are as many as slots.
fn sizes_stand<X: Row<Item = u32>, L: Row<Item = FreeListEntry>, D: Row, Q: Row<Item = u32>>(
    index: &mut X,
    links: &mut L,
    values: &mut D,
    slots: &mut Q,
    registers: Registers,
) -> bool
    ensures value { MatchBool result (Sized (layout_of registers (X.Row.cells index.old) (L.Row.cells links.old) (D.Row.cells values.old) (Q.Row.cells slots.old))) (Sized (layout_of registers (X.Row.cells index.old) (L.Row.cells links.old) (D.Row.cells values.old) (Q.Row.cells slots.old)) → ⊥) }
    ensures index { Kept X.Row index.old index.new }
    ensures links { Kept L.Row links.old links.new }
    ensures values { Kept D.Row values.old values.new }
    ensures slots { Kept Q.Row slots.old slots.new }
{
    let Registers {
        capacity,
        head: _,
        start,
        waiting,
        len,
    } = registers;
    if capacity > MAX_CAPACITY || waiting > capacity || len != capacity - waiting {
        return false;
    }
    if start > 0 && start >= capacity {
        return false;
    }
    has_cells(index, capacity)
        && has_cells(links, capacity)
        && has_cells(values, capacity)
        && has_cells(slots, capacity)
}

// Audits a table by its registers and rows: accepts them where they stand, and refuses them
// where they do not. Nothing changes. Four rows one by one, here and above: a table lends its own fields, which have
// the names of the Rust, and the rows of another caller may be on loan.
pub fn audit<X: Row<Item = u32>, L: Row<Item = FreeListEntry>, D: Row, Q: Row<Item = u32>>(
    index: &mut X,
    links: &mut L,
    values: &mut D,
    slots: &mut Q,
    registers: Registers,
) -> Result<(), Refusal>
    ensures verdict { Verdict result (layout_of registers (X.Row.cells index.old) (L.Row.cells links.old) (D.Row.cells values.old) (Q.Row.cells slots.old)) }
    ensures index { Kept X.Row index.old index.new }
    ensures links { Kept L.Row links.old links.new }
    ensures values { Kept D.Row values.old values.new }
    ensures slots { Kept Q.Row slots.old slots.new }
{
    if sizes_stand(index, links, values, slots, registers)
        && free_list_stands(index, links, registers)
        && holding_keys_are_loose(index, links, registers.capacity)
        && slots_stand(index, slots, registers)
    {
        Ok(())
    } else {
        Err(Refusal::AuditFailed)
    }
}
