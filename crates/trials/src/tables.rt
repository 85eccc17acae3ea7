// The table over two kinds of rows.
use codes::PackedRow;
use refusal::Refusal;
use rows::{FreeListEntry, InlineRow, Row, SliceRow};
use slotmap::{Plan, Rows, SlotMap};
use std::process::Abort;

// Three keys are handed out, two given back, and three handed out again.
fn churn<T: SlotMap<Value = u32>>(rt: &impl Abort, table: &mut T) {
    assert_eq!(rt; table.insert(10), Ok(Some(0)));
    assert_eq!(rt; table.insert(11), Ok(Some(1)));
    assert_eq!(rt; table.insert(12), Ok(Some(2)));
    assert_eq!(rt; table.remove(0), Ok(Some(10)));
    assert_eq!(rt; table.remove(2), Ok(Some(12)));
    assert_eq!(rt; table.remove(2), Ok(None));
    assert_eq!(rt; table.insert(13), Ok(Some(2)));
    assert_eq!(rt; table.insert(14), Ok(Some(0)));
    assert_eq!(rt; table.insert(15), Ok(Some(3)));
    assert_eq!(rt; table.insert(16), Ok(None));
    assert_eq!(rt; table.get(2), Ok(Some(13)));
    assert_eq!(rt; table.get(4), Err(Refusal::KeyPastTable));
    assert_eq!(rt; table.remove(u32::MAX), Err(Refusal::KeyPastTable));
}

// As in the tests of crate `tables`: a crate of their own for these lines would be no plainer.
const LINK: FreeListEntry = FreeListEntry {
    previous: 0,
    next: 0,
};

// Rows for up to 64 keys, before a table is made over them.
fn zero_rows() -> Rows<InlineRow<u32>, InlineRow<FreeListEntry>, InlineRow<u32>, InlineRow<u32>> {
    Rows {
        index: InlineRow::filled(0),
        links: InlineRow::filled(LINK),
        values: InlineRow::filled(0),
        slots: InlineRow::filled(0),
    }
}

#[test]
fn four_keys_over_inline_rows(rt: HostRuntime) {
    let mut rows = zero_rows();
    let plan = Plan::new(4);
    assert_eq!(rt;
        plan.check(
            &mut rows.index,
            &mut rows.links,
            &mut rows.values,
            &mut rows.slots
        ),
        Ok(())
    );
    let mut table = plan.init(rows);
    churn(&rt, &mut table);
}

#[test]
fn four_keys_over_slices_and_packed_rows(rt: HostRuntime) {
    let mut index = [7; 5];
    let mut link_bytes = [9; 40];
    let mut values = [0; 4];
    let mut slot_bytes = [9; 19];
    let links: PackedRow<FreeListEntry, SliceRow<u8>> = PackedRow::new(SliceRow::new(
        &mut link_bytes,
    ));
    let slots: PackedRow<u32, SliceRow<u8>> = PackedRow::new(SliceRow::new(&mut slot_bytes));
    let mut table = Plan::new(u32::MAX).init(Rows {
        index: SliceRow::new(&mut index),
        links,
        values: SliceRow::new(&mut values),
        slots,
    });
    churn(&rt, &mut table);
    let rows = table.into_rows();
    let index = rows.index.into_slice();
    assert!(rt; index.len() == 5 && index[4] == 7);
}

#[test]
fn plans_that_do_not_fit(rt: HostRuntime) {
    let mut rows = zero_rows();
    let plan = Plan::new(65);
    assert_eq!(rt;
        plan.check(
            &mut rows.index,
            &mut rows.links,
            &mut rows.values,
            &mut rows.slots
        ),
        Err(Refusal::PlanTooLarge)
    );
    let mut none = Plan::new(0).init(rows);
    assert_eq!(rt; none.insert(1), Ok(None));
    assert_eq!(rt; none.get(0), Err(Refusal::KeyPastTable));
}
