// The free list, in the row of links. Links and capacity are passed one by one: a table has them in two fields, and
// a struct of both would hold a loan, of which each contract would have to say that it stays the same loan.
ghost use Rattle.std.specs.Prelude.{◌≡◌};
ghost use Rattle.model.specs.Checks.{link_of, neighbour, claimable};
ghost use Rattle.model.specs.Layouts.{relinked, cut_out, put_first};
ghost use Rattle.rows.specs.Kept.{Kept};

use refusal::Refusal;
use rows::{FreeListEntry, NO_LINK, NONE, Row};

// The link of `key`, which is one of `capacity` keys.
pub fn link_of<L: Row<Item = FreeListEntry>>(
    links: &mut L,
    capacity: u32,
    key: u32,
) -> Result<FreeListEntry, Refusal>
    ensures value { result ≡ link_of (L.Row.cells links.old) capacity key }
    ensures kept { Kept L.Row links.old links.new }
{
    if key >= capacity {
        return Err(Refusal::AuditFailed);
    }
    links.read(key as usize).map_err(|_| Refusal::AuditFailed)
}

// Sees that `key` can be relinked: it is none, or one of `capacity` keys.
pub fn check_neighbour<L: Row<Item = FreeListEntry>>(
    links: &mut L,
    capacity: u32,
    key: u32,
) -> Result<(), Refusal>
    ensures value { result ≡ neighbour (L.Row.cells links.old) capacity key }
    ensures kept { Kept L.Row links.old links.new }
{
    if key == NONE {
        return Ok(());
    }
    link_of(links, capacity, key)?;
    Ok(())
}

// The link of `key`, once it is seen that the key can leave the free list.
pub fn check_claim<L: Row<Item = FreeListEntry>>(
    links: &mut L,
    capacity: u32,
    key: u32,
) -> Result<FreeListEntry, Refusal>
    ensures value { result ≡ claimable (L.Row.cells links.old) capacity key }
    ensures kept { Kept L.Row links.old links.new }
{
    let entry = link_of(links, capacity, key)?;
    check_neighbour(links, capacity, entry.previous)?;
    check_neighbour(links, capacity, entry.next)?;
    Ok(entry)
}

// Changes the link of `key`, unless that is none.
fn relink<L: Row<Item = FreeListEntry>, F: FnOnce(FreeListEntry) -> FreeListEntry>(
    links: &mut L,
    key: u32,
    change: F,
)
    requires { F.IsAlwaysCallable change }
    ensures after { (f : FreeListEntry → FreeListEntry) → ((e r : FreeListEntry) → F.post change e r → r ≡ f e) → L.Row.cells links.new ≡ relinked f (L.Row.cells links.old) key }
    ensures beside { L.Row.outside links.new ≡ L.Row.outside links.old }
{
    if key == NONE {
        return;
    }
    if let Ok(entry) = links.read(key as usize) {
        let _ = links.write(key as usize, change(entry));
    }
}

// Takes `key`, whose link is `entry`, out of the free list. It keeps no link.
pub fn unlink<L: Row<Item = FreeListEntry>>(links: &mut L, key: u32, entry: FreeListEntry)
    ensures after { L.Row.cells links.new ≡ cut_out (L.Row.cells links.old) key entry }
    ensures beside { L.Row.outside links.new ≡ L.Row.outside links.old }
{
    let FreeListEntry { previous, next } = entry;
    relink(links, previous, |link| FreeListEntry { next, ..link });
    relink(links, next, |link| FreeListEntry { previous, ..link });
    let _ = links.write(key as usize, NO_LINK);
}

// Puts `key` in front of the free list that begins at `head`.
pub fn link_first<L: Row<Item = FreeListEntry>>(links: &mut L, head: u32, key: u32)
    ensures after { L.Row.cells links.new ≡ put_first (L.Row.cells links.old) head key }
    ensures beside { L.Row.outside links.new ≡ L.Row.outside links.old }
{
    let previous = key;
    relink(links, head, |link| FreeListEntry { previous, ..link });
    let first = FreeListEntry {
        next: head,
        ..NO_LINK
    };
    let _ = links.write(key as usize, first);
}
