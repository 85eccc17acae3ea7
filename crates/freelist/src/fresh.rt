// The free list of a fresh table.
ghost use Rattle.std.specs.Prelude.{◌≡◌};
ghost use Rattle.model.specs.Fresh.{key_of, fresh_link};

use rows::{FreeListEntry, NONE};

// The neighbours of `key` in a free list of `capacity` keys in order.
pub fn fresh_link(key: u32, capacity: u32) -> FreeListEntry
    ensures { result ≡ fresh_link capacity key }
{
    let previous = key.checked_sub(1).unwrap_or(NONE);
    let next = if key < capacity.saturating_sub(1) {
        key + 1
    } else {
        NONE
    };
    FreeListEntry { previous, next }
}

// The free list's first key: key 0, or `NONE` where there is no key, since it goes to a register that is as a cell
// (`MetaSlotMap`).
pub fn first_key(capacity: u32) -> u32
    ensures { result ≡ key_of capacity 0 }
{
    if 0 < capacity { 0 } else { NONE }
}
