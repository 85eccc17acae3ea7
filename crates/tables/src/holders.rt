// A type of a caller's own that holds a table over four rows of bytes of the type's parameter.
use codes::PackedRow;
use rows::{FreeListEntry, Row, SliceRow};
use slotmap::{MetaSlotMap, Plan, Rows, SlotMap};

#[derive(Drop)]
struct Stored<B: Row<Item = u8>> {
    table: MetaSlotMap<
        PackedRow<u32, B>,
        PackedRow<FreeListEntry, B>,
        PackedRow<u32, B>,
        PackedRow<u32, B>,
    >,
}

impl<B: Row<Item = u8>> Stored<B> {
    fn new(index: B, links: B, values: B, slots: B) -> Self {
        Stored {
            table: Plan::new(3).init(Rows {
                index: PackedRow::new(index),
                links: PackedRow::new(links),
                values: PackedRow::new(values),
                slots: PackedRow::new(slots),
            }),
        }
    }

    fn keep(&mut self, number: u32) -> Option<u32> {
        self.table.insert(number).ok().flatten()
    }
}

#[test]
fn numbers_are_kept_in_four_rows_of_bytes(rt: HostRuntime) {
    let (mut index, mut links, mut values, mut slots) = ([0; 12], [0; 24], [0; 12], [0; 12]);
    let mut stored = Stored::new(
        SliceRow::new(&mut index),
        SliceRow::new(&mut links),
        SliceRow::new(&mut values),
        SliceRow::new(&mut slots),
    );
    assert_eq!(rt; stored.keep(7), Some(0));
    assert_eq!(rt; stored.keep(8), Some(1));
    assert_eq!(rt; stored.table.get(1), Ok(Some(8)));
    assert_eq!(rt; stored.table.len(), 2);
}
