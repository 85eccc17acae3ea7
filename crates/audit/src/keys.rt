// The keys: those that are vacant stand in the free list, and those that hold have no links. The rows are passed
// one by one: a struct of them would hold loans, and each contract would have to say that they stay the same loans.
ghost use Rattle.std.specs.Prelude.{◌≡◌, MatchBool};
ghost use Rattle.audit.specs.Parts.{next_key, Listed, Loose};
ghost use Rattle.rows.specs.Kept.{Kept};

use crate::cells::cell_or;
use crate::registers::Registers;
use rows::{FreeListEntry, NO_LINK, NONE, Row};

// The key after `key` in the free list; none where `key` is no vacant key of the table, or its
// link does not say that `previous` is before it.
fn next_key<X: Row<Item = u32>, L: Row<Item = FreeListEntry>>(
    index: &mut X,
    links: &mut L,
    capacity: u32,
    previous: u32,
    key: u32,
) -> Option<u32>
    ensures value { result ≡ next_key (X.Row.cells index.old) (L.Row.cells links.old) capacity previous key }
    ensures index { Kept X.Row index.old index.new }
    ensures links { Kept L.Row links.old links.new }
{
    if key >= capacity {
        return None;
    }
    let link = cell_or(links, key, NO_LINK);
    if link.previous != previous {
        return None;
    }
    if cell_or(index, key, NONE) != NONE {
        return None;
    }
    Some(link.next)
}

// Whether the free list has as many keys as there are slots that wait, all of them vacant.
pub(crate) fn free_list_stands<X: Row<Item = u32>, L: Row<Item = FreeListEntry>>(
    index: &mut X,
    links: &mut L,
    registers: Registers,
) -> bool
    ensures value { MatchBool result (Listed (X.Row.cells index.old) (L.Row.cells links.old) registers.capacity registers.head registers.waiting) (Listed (X.Row.cells index.old) (L.Row.cells links.old) registers.capacity registers.head registers.waiting → ⊥) }
    ensures index { Kept X.Row index.old index.new }
    ensures links { Kept L.Row links.old links.new }
{
    let mut previous = NONE;
    let mut key = registers.head;
    for _ in 0..registers.waiting {
        let Some(next) = next_key(index, links, registers.capacity, previous, key) else {
            return false;
        };
        previous = key;
        key = next;
    }
    key == NONE
}

// Whether no holding key has links.
pub(crate) fn holding_keys_are_loose<X: Row<Item = u32>, L: Row<Item = FreeListEntry>>(
    index: &mut X,
    links: &mut L,
    capacity: u32,
) -> bool
    ensures value { MatchBool result (Loose (X.Row.cells index.old) (L.Row.cells links.old) capacity) (Loose (X.Row.cells index.old) (L.Row.cells links.old) capacity → ⊥) }
    ensures index { Kept X.Row index.old index.new }
    ensures links { Kept L.Row links.old links.new }
{
    for key in 0..capacity {
        if cell_or(index, key, NONE) == NONE {
            continue;
        }
        if cell_or(links, key, NO_LINK) != NO_LINK {
            return false;
        }
    }
    true
}
