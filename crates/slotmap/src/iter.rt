// A walk over the keys that hold something, from the smallest on.
ghost use Rattle.std.specs.Prelude.{◌≡◌};
ghost use Rattle.model.specs.Checks.{step_cells};
ghost use Rattle.model.specs.Sound.{Follows};
ghost use Rattle.model.specs.Tables.{step_answer, step_after};

use crate::slotmap::SlotMap;
use crate::table::SlotMapKey;

// The place where a walk goes on. The table is passed at each step, so that it can change between
// two steps.
#[derive(Clone, Copy, PartialEq, Eq, Debug)]
pub struct Cursor {
    key: SlotMapKey,
}

impl Cursor {
    // A walk that has not begun.
    pub fn new() -> Cursor
        ensures { result.key ≡ 0 }
    {
        Cursor { key: 0 }
    }

    // The first holding key at or after the cursor's place, with what it holds, and the cursor then
    // stands past that key; or none, and the cursor stays.
    pub fn next<T: SlotMap>(&mut self, table: &mut T) -> Option<(SlotMapKey, T::Value)>
        ensures value { result ≡ step_cells (T.SlotMap.layout table.old) self.old.key }
        ensures after { self.new.key ≡ step_after self.old.key result }
        ensures same { T.SlotMap.layout table.new ≡ T.SlotMap.layout table.old }
        ensures untouched { T.SlotMap.stored table.new ≡ T.SlotMap.stored table.old }
        ensures beside { T.SlotMap.outside table.new ≡ T.SlotMap.outside table.old }
        ensures means { Follows (T.SlotMap.layout table.old) result (T.SlotMap.layout table.new) (λ t. step_answer t self.old.key) (λ t. t) }
    {
        let (key, value) = table.next_available_key_after(self.key)?;
        self.key = key + 1;
        Some((key, value))
    }
}
