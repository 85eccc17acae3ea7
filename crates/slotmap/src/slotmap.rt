// The calls of a table, by its cells and by what they mean.
ghost use Rattle.std.specs.Prelude.{◌≡◌, false, is_ok, if◌then◌else◌, Ok, ◌==◌, nat_eq};
ghost use Rattle.model.specs.Checks.{fill_answer, get_cells, contains_cells, head_cells, step_cells, insert_cells, insert_at_cells, inserted_at, remove_cells, when_given, gave};
ghost use Rattle.model.specs.Layouts.{Layout, capacity, Legal, SameBeyond, filled, overwritten, emptied};
ghost use Rattle.model.specs.Sound.{Follows, Tells};
ghost use Rattle.audit.specs.Verdict.{Verdict};
ghost use Rattle.model.specs.Tables.{insert_answer, insert_after, insert_at_answer, insert_at_after, get_answer, replace_after, remove_after, contains_answer, len_answer, step_answer};
ghost use Rattle.std.proofs.Common.{rules};

use crate::steps::Steps;
use crate::table::SlotMapKey;
use refusal::Refusal;

// A table with stable keys. Each contract says what the call answers and leaves by the cells, whatever
// those are, and that on cells that mean a table it is the table's call. A call that is refused changes
// nothing, and no call touches a cell at or past the capacity.
pub trait SlotMap {
    type Value: Copy;

    // The cells and registers.
    ghost layout: { Self → Layout Self.Value };

    // What belongs to the rows and is no cell of them. No call changes it.
    ghost Outside: { Type 0 };

    ghost outside: { Self → Outside };

    // The rows as they are stored, down to the memory at the bottom. No call that only reads changes it.
    ghost Stored: { Type 0 };

    ghost stored: { Self → Stored };

    // What `key` holds, if it holds something; refused at or past the capacity.
    fn get(&mut self, key: SlotMapKey) -> Result<Option<Self::Value>, Refusal>
        ensures value { result ≡ get_cells (layout self.old) key }
        ensures same { layout self.new ≡ layout self.old }
        ensures untouched { stored self.new ≡ stored self.old }
        ensures beside { outside self.new ≡ outside self.old }
        ensures means { Follows (layout self.old) result (layout self.new) (λ t. get_answer t key) (λ t. t) };

    // Whether `key` holds something; refused at or past the capacity.
    fn contains(&mut self, key: SlotMapKey) -> Result<bool, Refusal>
        ensures value { result ≡ contains_cells (layout self.old) key }
        ensures same { layout self.new ≡ layout self.old }
        ensures untouched { stored self.new ≡ stored self.old }
        ensures beside { outside self.new ≡ outside self.old }
        ensures means { Follows (layout self.old) result (layout self.new) (λ t. contains_answer t key) (λ t. t) };

    // The first key at or after `start` that holds something, with what it holds. A key of which `get`
    // is refused is passed over.
    fn next_available_key_after(&mut self, start: SlotMapKey) -> Option<(SlotMapKey, Self::Value)>
        ensures value { result ≡ step_cells (layout self.old) start }
        ensures same { layout self.new ≡ layout self.old }
        ensures untouched { stored self.new ≡ stored self.old }
        ensures beside { outside self.new ≡ outside self.old }
        ensures means { Follows (layout self.old) result (layout self.new) (λ t. step_answer t start) (λ t. t) };

    // Accepts where the cells and registers stand the audit, and refuses them where they do not. Time
    // grows with the capacity.
    fn audit(&mut self) -> Result<(), Refusal>
        ensures verdict { Verdict result (layout self.old) }
        ensures same { layout self.new ≡ layout self.old }
        ensures untouched { stored self.new ≡ stored self.old }
        ensures beside { outside self.new ≡ outside self.old }
        ensures means { Tells (layout self.old) result (λ t. Ok tt) };

    // The key that the next insert takes, if there is one.
    fn next_free_key(&self) -> Option<SlotMapKey>
        ensures value { result ≡ head_cells (layout self.now) }
        ensures means { Tells (layout self.now) result insert_answer };

    // How many keys hold something.
    fn len(&self) -> u32
        ensures value { result ≡ (layout self.now).len }
        ensures means { Tells (layout self.now) result len_answer };

    // How many keys there are.
    fn capacity(&self) -> u32
        ensures value { result ≡ capacity (layout self.now) }
        ensures means { Tells (layout self.now) result (λ t. t.capacity) };

    // True where no key holds something.
    fn is_empty(&self) -> bool
        ensures value { result ≡ ((layout self.now).len == 0) }
        ensures means { Tells (layout self.now) result (λ t. nat_eq (len_answer t) 0) };

    // True where every key holds something.
    fn is_full(&self) -> bool
        ensures value { result ≡ ((layout self.now).len == capacity (layout self.now)) }
        ensures means { Tells (layout self.now) result (λ t. nat_eq (len_answer t) t.capacity) };

    // Stores `value` at the free list's first key, and answers that key; on an empty list, none.
    fn insert(&mut self, value: Self::Value) -> Result<Option<SlotMapKey>, Refusal>
        ensures value { result ≡ insert_cells (layout self.old) }
        ensures after { layout self.new ≡ when_given result (filled (layout self.old) (layout self.old).head value) (layout self.old) }
        ensures beyond { SameBeyond (layout self.old) (layout self.new) }
        ensures kept { gave result ≡ false → stored self.new ≡ stored self.old }
        ensures beside { outside self.new ≡ outside self.old }
        ensures means { Follows (layout self.old) result (layout self.new) (λ t. Ok (insert_answer t)) (λ t. insert_after t value) };

    // Stores `value` at `key`, in place of what it held, if it held something; refused at or past the
    // capacity.
    fn insert_at(&mut self, key: SlotMapKey, value: Self::Value) -> Result<(), Refusal>
        ensures value { result ≡ insert_at_cells (layout self.old) key }
        ensures after { layout self.new ≡ (if is_ok result then inserted_at (layout self.old) key value else layout self.old) }
        ensures beyond { SameBeyond (layout self.old) (layout self.new) }
        ensures kept { is_ok result ≡ false → stored self.new ≡ stored self.old }
        ensures beside { outside self.new ≡ outside self.old }
        ensures means { Follows (layout self.old) result (layout self.new) (λ t. insert_at_answer t key) (λ t. insert_at_after t key value) };

    // Stores `value` at `key` if it holds something, and answers what it held; refused at or past the
    // capacity. A vacant key stays vacant.
    fn replace(
        &mut self,
        key: SlotMapKey,
        value: Self::Value,
    ) -> Result<Option<Self::Value>, Refusal>
        ensures value { result ≡ get_cells (layout self.old) key }
        ensures after { layout self.new ≡ when_given result (overwritten (layout self.old) key value) (layout self.old) }
        ensures beyond { SameBeyond (layout self.old) (layout self.new) }
        ensures kept { gave result ≡ false → stored self.new ≡ stored self.old }
        ensures beside { outside self.new ≡ outside self.old }
        ensures means { Follows (layout self.old) result (layout self.new) (λ t. get_answer t key) (λ t. replace_after t key value) };

    // Empties `key`, which then stands first in the free list, and answers what it held, if it held
    // something; refused at or past the capacity.
    fn remove(&mut self, key: SlotMapKey) -> Result<Option<Self::Value>, Refusal>
        ensures value { result ≡ remove_cells (layout self.old) key }
        ensures after { layout self.new ≡ when_given result (emptied (layout self.old) key) (layout self.old) }
        ensures beyond { SameBeyond (layout self.old) (layout self.new) }
        ensures kept { gave result ≡ false → stored self.new ≡ stored self.old }
        ensures beside { outside self.new ≡ outside self.old }
        ensures means { Follows (layout self.old) result (layout self.new) (λ t. get_answer t key) (λ t. remove_after t key) };

    // The position of the queue is legal, whatever the cells are.
    ghost legal: { (x : Self) → Legal (layout x).slots };
}

// A vacant key gets a slot and `value`.
fn fill<T: Steps>(table: &mut T, key: SlotMapKey, value: T::Value) -> Result<(), Refusal>
    ensures value { result ≡ fill_answer (T.Steps.layout table.old) key }
    ensures after { T.Steps.layout table.new ≡ (if is_ok result then filled (T.Steps.layout table.old) key value else T.Steps.layout table.old) }
    ensures kept { is_ok result ≡ false → T.Steps.stored table.new ≡ T.Steps.stored table.old }
    ensures beside { T.Steps.outside table.new ≡ T.Steps.outside table.old }
{
    let entry = table.check_fill(key)?;
    table.store_value(key, value)?;
    table.claim_index(key, entry);
    Ok(())
}

impl<T: Steps> SlotMap for T {
    type Value = T::Value;

    ghost layout = { T.Steps.layout };

    ghost Outside = { T.Steps.Outside };

    ghost outside = { T.Steps.outside };

    ghost Stored = { T.Steps.Stored };

    ghost stored = { T.Steps.stored };

    ghost legal = { Prim.search rules };

    fn get(&mut self, key: SlotMapKey) -> Result<Option<T::Value>, Refusal> {
        let Some(slot) = self.slot_of(key)? else {
            return Ok(None);
        };
        let value = self.value_of(slot)?;
        Ok(Some(value))
    }

    fn contains(&mut self, key: SlotMapKey) -> Result<bool, Refusal> {
        let slot = self.slot_of(key)?;
        Ok(slot.is_some())
    }

    fn next_available_key_after(&mut self, start: SlotMapKey) -> Option<(SlotMapKey, T::Value)> {
        for key in start..self.capacity() {
            if let Some(value) = self.get(key).unwrap_or(None) {
                return Some((key, value));
            }
        }
        None
    }

    fn audit(&mut self) -> Result<(), Refusal> {
        self.audit_impl()
    }

    fn next_free_key(&self) -> Option<SlotMapKey> {
        self.acquire_next_free_index()
    }

    fn len(&self) -> u32 {
        self.len_impl()
    }

    fn capacity(&self) -> u32 {
        self.capacity_impl()
    }

    fn is_empty(&self) -> bool {
        self.len() == 0
    }

    fn is_full(&self) -> bool {
        self.len() == self.capacity()
    }

    fn insert(&mut self, value: T::Value) -> Result<Option<SlotMapKey>, Refusal> {
        let Some(key) = self.acquire_next_free_index() else {
            return Ok(None);
        };
        fill(self, key, value)?;
        Ok(Some(key))
    }

    fn insert_at(&mut self, key: SlotMapKey, value: T::Value) -> Result<(), Refusal> {
        match self.slot_of(key)? {
            Some(slot) => self.overwrite(slot, value),
            None => fill(self, key, value),
        }
    }

    fn replace(&mut self, key: SlotMapKey, value: T::Value) -> Result<Option<T::Value>, Refusal> {
        let Some(slot) = self.slot_of(key)? else {
            return Ok(None);
        };
        let old = self.value_of(slot)?;
        let _ = self.overwrite(slot, value);
        Ok(Some(old))
    }

    fn remove(&mut self, key: SlotMapKey) -> Result<Option<T::Value>, Refusal> {
        let Some(slot) = self.slot_of(key)? else {
            return Ok(None);
        };
        let value = self.value_of(slot)?;
        self.vacate(key, slot)?;
        Ok(Some(value))
    }
}
