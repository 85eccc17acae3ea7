// The table, by its rows and registers.
ghost use Rattle.std.specs.Prelude.{◌≡◌};

use containers::MetaQueue;
use rows::{FreeListEntry, Row};

// A key of a table, below its capacity.
pub type SlotMapKey = u32;

// A table over four rows: each key's slot, the links of the free list, the values, and the
// slots that wait.
#[derive(Drop)]
pub struct MetaSlotMap<
    X: Row<Item = u32>,
    L: Row<Item = FreeListEntry>,
    D: Row,
    Q: Row<Item = u32>,
> {
    pub(crate) idx_to_data: X,
    pub(crate) idx_to_data_free_list: L,
    pub(crate) data: D,
    pub(crate) data_next_free_index: MetaQueue<Q>,
    // a key, or `NONE`, as in a link cell: it is copied from link cells and to them, and an `Option` would be one more
    // form of no key, `Some(NONE)`
    pub(crate) idx_to_data_free_list_head: u32,
    pub(crate) len: u32,
}

// The four rows of a table: those that it is made over, and those that it gives back.
#[derive(Drop)]
pub struct Rows<X, L, D, Q> {
    pub index: X,
    pub links: L,
    pub values: D,
    pub slots: Q,
}

impl<X: Row<Item = u32>, L: Row<Item = FreeListEntry>, D: Row, Q: Row<Item = u32>> MetaSlotMap<
    X,
    L,
    D,
    Q,
> {
    // Gives the table up, and its rows back as they are.
    pub fn into_rows(self) -> Rows<X, L, D, Q>
        ensures index { result.index ≡ self.idx_to_data }
        ensures links { result.links ≡ self.idx_to_data_free_list }
        ensures values { result.values ≡ self.«data» }
        ensures slots { result.slots ≡ self.data_next_free_index.row }
    {
        Rows {
            index: self.idx_to_data,
            links: self.idx_to_data_free_list,
            values: self.data,
            slots: self.data_next_free_index.into_row(),
        }
    }
}
