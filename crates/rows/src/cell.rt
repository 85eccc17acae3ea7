// The kinds of cell that a table's own rows have.

// No key and no slot: stands where a link ends and where a key holds nothing. A number and no `Option`,
// since cells are plain numbers of a fixed width, in the caller's memory or in bytes.
pub const NONE: u32 = 4_294_967_295;

// The neighbours of a vacant key in the free list, each a key or `NONE`. Keys and no boxes: there is no heap.
#[derive(Clone, Copy, PartialEq, Eq, Debug)]
pub struct FreeListEntry {
    pub previous: u32,
    pub next: u32,
}

// The link of a key that is not in the free list.
pub const NO_LINK: FreeListEntry = FreeListEntry {
    previous: NONE,
    next: NONE,
};
