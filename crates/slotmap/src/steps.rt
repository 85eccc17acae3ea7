// The steps of the calls on the cells of a table, whatever those are. Each step checks before its first
// write.
ghost use Rattle.std.specs.Prelude.{◌≡◌, false, is_ok, if◌then◌else◌};
ghost use Rattle.model.specs.Checks.{slot_of, index_of, value_of, head_cells, vacate_answer, fillable, storable, store_answer, waiting};
ghost use Rattle.model.specs.Layouts.{Layout, capacity, Legal, oldest_slot, claimed, released, given, rewritten, emptied_at};
ghost use Rattle.audit.specs.Verdict.{Verdict};
ghost use Rattle.slotmap.specs.Laid.{laid};
ghost use Rattle.std.proofs.Common.{rules};

use crate::table::{MetaSlotMap, SlotMapKey};
use audit::{Registers, audit};
use freelist::{check_claim, check_neighbour, link_first, link_of, unlink};
use refusal::Refusal;
use rows::{FreeListEntry, NONE, Row};

pub trait Steps {
    type Value: Copy;

    // The cells and registers.
    ghost layout: { Self → Layout Self.Value };

    // What no call changes.
    ghost Outside: { Type 0 };

    ghost outside: { Self → Outside };

    // The rows as they are stored, which no call that only reads changes.
    ghost Stored: { Type 0 };

    ghost stored: { Self → Stored };

    // `len_impl`, `capacity_impl`, `audit_impl` and `acquire_next_free_index`, names of the Rust, are told by the cells;
    // the trait with the calls adds what they mean. With these four taken over by `SlotMap: Steps` every user of the
    // calls would have the steps too.

    // How many keys hold something.
    fn len_impl(&self) -> u32
        ensures { result ≡ (layout self.now).len };

    // How many keys there are.
    fn capacity_impl(&self) -> u32
        ensures { result ≡ capacity (layout self.now) };

    // The index cell of `key`, a slot or none.
    fn index_of(&mut self, key: SlotMapKey) -> Result<Option<u32>, Refusal>
        ensures value { result ≡ index_of (layout self.old) key }
        ensures same { layout self.new ≡ layout self.old }
        ensures untouched { stored self.new ≡ stored self.old }
        ensures beside { outside self.new ≡ outside self.old };

    // The slot of `key`, which is refused at or past the capacity.
    fn slot_of(&mut self, key: SlotMapKey) -> Result<Option<u32>, Refusal>
        ensures value { result ≡ slot_of (layout self.old) key }
        ensures same { layout self.new ≡ layout self.old }
        ensures untouched { stored self.new ≡ stored self.old }
        ensures beside { outside self.new ≡ outside self.old };

    // The value in `slot`.
    fn value_of(&mut self, slot: u32) -> Result<Self::Value, Refusal>
        ensures value { result ≡ value_of (layout self.old) slot }
        ensures same { layout self.new ≡ layout self.old }
        ensures untouched { stored self.new ≡ stored self.old }
        ensures beside { outside self.new ≡ outside self.old };

    // The free list's first key, if it has one. The key stays there until `claim_index` takes it out.
    fn acquire_next_free_index(&self) -> Option<SlotMapKey>
        ensures { result ≡ head_cells (layout self.now) };

    // The slot that waits longest.
    fn waiting_slot(&mut self) -> Result<u32, Refusal>
        ensures value { result ≡ waiting (layout self.old).slots }
        ensures same { layout self.new ≡ layout self.old }
        ensures untouched { stored self.new ≡ stored self.old }
        ensures beside { outside self.new ≡ outside self.old };

    // Sees that `key` is vacant, that not every key holds, and that the key can leave the free list;
    // answers its link.
    fn check_fill(&mut self, key: SlotMapKey) -> Result<FreeListEntry, Refusal>
        ensures value { result ≡ fillable (layout self.old) key }
        ensures same { layout self.new ≡ layout self.old }
        ensures untouched { stored self.new ≡ stored self.old }
        ensures beside { outside self.new ≡ outside self.old };

    // Takes `key`, whose link is `entry`, out of the free list, at its head or further on.
    fn claim_index(&mut self, key: SlotMapKey, entry: FreeListEntry)
        ensures after { layout self.new ≡ claimed (layout self.old) key entry }
        ensures beside { outside self.new ≡ outside self.old };

    // Puts `key` at the free list's front.
    fn release_free_index(&mut self, key: SlotMapKey)
        ensures after { layout self.new ≡ released (layout self.old) key }
        ensures beside { outside self.new ≡ outside self.old };

    // Gives `value` to `key`, in the slot that waits longest, which then waits no longer.
    fn store_value(&mut self, key: SlotMapKey, value: Self::Value) -> Result<(), Refusal>
        ensures value { result ≡ store_answer (layout self.old) }
        ensures after { layout self.new ≡ (if is_ok result then given (layout self.old) key (oldest_slot (layout self.old).slots) value else layout self.old) }
        ensures kept { is_ok result ≡ false → stored self.new ≡ stored self.old }
        ensures beside { outside self.new ≡ outside self.old };

    // `slot` gets another value.
    fn overwrite(&mut self, slot: u32, value: Self::Value) -> Result<(), Refusal>
        ensures value { result ≡ storable (layout self.old).values slot }
        ensures after { layout self.new ≡ (if is_ok result then rewritten (layout self.old) slot value else layout self.old) }
        ensures kept { is_ok result ≡ false → stored self.new ≡ stored self.old }
        ensures beside { outside self.new ≡ outside self.old };

    // `key`, whose slot is `slot`, becomes vacant.
    fn vacate(&mut self, key: SlotMapKey, slot: u32) -> Result<(), Refusal>
        ensures value { result ≡ vacate_answer (layout self.old) key }
        ensures after { layout self.new ≡ (if is_ok result then emptied_at (layout self.old) key slot else layout self.old) }
        ensures kept { is_ok result ≡ false → stored self.new ≡ stored self.old }
        ensures beside { outside self.new ≡ outside self.old };

    // Whether the cells and registers stand.
    fn audit_impl(&mut self) -> Result<(), Refusal>
        ensures verdict { Verdict result (layout self.old) }
        ensures same { layout self.new ≡ layout self.old }
        ensures untouched { stored self.new ≡ stored self.old }
        ensures beside { outside self.new ≡ outside self.old };

    // The position of the queue is legal, whatever the cells are.
    ghost legal: { (x : Self) → Legal (layout x).slots };
}

impl<X: Row<Item = u32>, L: Row<Item = FreeListEntry>, D: Row, Q: Row<Item = u32>> Steps
    for MetaSlotMap<X, L, D, Q> {
    type Value = D::Item;

    ghost layout = { laid X.Row.cells L.Row.cells D.Row.cells Q.Row.cells };

    ghost Outside = { X.Row.Outside × L.Row.Outside × D.Row.Outside × Q.Row.Outside };

    ghost outside = { λ t. (X.Row.outside t.idx_to_data, L.Row.outside t.idx_to_data_free_list, D.Row.outside t.«data», Q.Row.outside t.data_next_free_index.row) };

    ghost Stored = { X.Row.Stored × L.Row.Stored × D.Row.Stored × Q.Row.Stored };

    ghost stored = { λ t. (X.Row.stored t.idx_to_data, L.Row.stored t.idx_to_data_free_list, D.Row.stored t.«data», Q.Row.stored t.data_next_free_index.row) };

    ghost legal = { Prim.search rules };

    fn len_impl(&self) -> u32 {
        self.len
    }

    fn capacity_impl(&self) -> u32 {
        self.data_next_free_index.capacity()
    }

    fn index_of(&mut self, key: SlotMapKey) -> Result<Option<u32>, Refusal> {
        match self.idx_to_data.read(key as usize) {
            Ok(NONE) => Ok(None),
            Ok(slot) if slot < self.data_next_free_index.capacity() => Ok(Some(slot)),
            _ => Err(Refusal::AuditFailed),
        }
    }

    fn slot_of(&mut self, key: SlotMapKey) -> Result<Option<u32>, Refusal> {
        if key >= self.data_next_free_index.capacity() {
            return Err(Refusal::KeyPastTable);
        }
        self.index_of(key)
    }

    fn value_of(&mut self, slot: u32) -> Result<D::Item, Refusal> {
        self.data
            .read(slot as usize)
            .map_err(|_| Refusal::AuditFailed)
    }

    fn acquire_next_free_index(&self) -> Option<SlotMapKey> {
        match self.idx_to_data_free_list_head {
            NONE => None,
            head => Some(head),
        }
    }

    fn waiting_slot(&mut self) -> Result<u32, Refusal> {
        match self.data_next_free_index.peek() {
            Some(slot) if slot < self.data_next_free_index.capacity() => Ok(slot),
            _ => Err(Refusal::AuditFailed),
        }
    }

    fn check_fill(&mut self, key: SlotMapKey) -> Result<FreeListEntry, Refusal> {
        if self.index_of(key)?.is_some() {
            return Err(Refusal::AuditFailed);
        }
        let capacity = self.data_next_free_index.capacity();
        if self.len >= capacity {
            return Err(Refusal::AuditFailed);
        }
        check_claim(&mut self.idx_to_data_free_list, capacity, key)
    }

    fn claim_index(&mut self, key: SlotMapKey, entry: FreeListEntry) {
        unlink(&mut self.idx_to_data_free_list, key, entry);
        if entry.previous == NONE {
            self.idx_to_data_free_list_head = entry.next;
        }
    }

    fn release_free_index(&mut self, key: SlotMapKey) {
        link_first(
            &mut self.idx_to_data_free_list,
            self.idx_to_data_free_list_head,
            key,
        );
        self.idx_to_data_free_list_head = key;
    }

    fn store_value(&mut self, key: SlotMapKey, value: D::Item) -> Result<(), Refusal> {
        if self.len >= self.data_next_free_index.capacity() {
            return Err(Refusal::AuditFailed);
        }
        let slot = self.waiting_slot()?;
        self.overwrite(slot, value)?;
        let _ = self.idx_to_data.write(key as usize, slot);
        let _ = self.data_next_free_index.pop();
        self.len += 1;
        Ok(())
    }

    fn overwrite(&mut self, slot: u32, value: D::Item) -> Result<(), Refusal> {
        self.data
            .write(slot as usize, value)
            .map_err(|_| Refusal::AuditFailed)
    }

    fn vacate(&mut self, key: SlotMapKey, slot: u32) -> Result<(), Refusal> {
        if self.len == 0 {
            return Err(Refusal::AuditFailed);
        }
        let capacity = self.data_next_free_index.capacity();
        link_of(&mut self.idx_to_data_free_list, capacity, key)?;
        check_neighbour(
            &mut self.idx_to_data_free_list,
            capacity,
            self.idx_to_data_free_list_head,
        )?;
        self.data_next_free_index
            .push(slot)
            .map_err(|_| Refusal::AuditFailed)?;
        self.release_free_index(key);
        let _ = self.idx_to_data.write(key as usize, NONE);
        self.len -= 1;
        Ok(())
    }

    fn audit_impl(&mut self) -> Result<(), Refusal> {
        let registers = Registers {
            capacity: self.data_next_free_index.capacity(),
            head: self.idx_to_data_free_list_head,
            start: self.data_next_free_index.start(),
            waiting: self.data_next_free_index.len(),
            len: self.len,
        };
        audit(
            &mut self.idx_to_data,
            &mut self.idx_to_data_free_list,
            &mut self.data,
            &mut self.data_next_free_index,
            registers,
        )
    }
}
