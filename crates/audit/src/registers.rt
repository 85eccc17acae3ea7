// What an audit is told beside the rows.

// The registers of a table: its capacity, the free list's first key, where the queue of waiting
// slots starts and how many wait, and how many keys hold. The head is a key or `NONE`, as the
// table's own register (`MetaSlotMap`) is, for the same reason.
#[derive(Clone, Copy, PartialEq, Eq, Debug)]
pub struct Registers {
    pub capacity: u32,
    pub head: u32,
    pub start: u32,
    pub waiting: u32,
    pub len: u32,
}
