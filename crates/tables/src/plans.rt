// Plans that fit and that do not, and the table without keys.
use crate::LINK;
use refusal::Refusal;
use rows::{FreeListEntry, InlineRow};
use slotmap::{Plan, Rows, SlotMap};

// Rows for up to 64 keys, before a table is made over them.
fn zero_rows() -> Rows<InlineRow<u32>, InlineRow<FreeListEntry>, InlineRow<u32>, InlineRow<u32>> {
    Rows {
        index: InlineRow::filled(0),
        links: InlineRow::filled(LINK),
        values: InlineRow::filled(0),
        slots: InlineRow::filled(0),
    }
}

#[test]
fn a_plan_of_as_many_keys_as_cells(rt: HostRuntime) {
    let mut rows = zero_rows();
    assert_eq!(rt;
        Plan::new(64).check(
            &mut rows.index,
            &mut rows.links,
            &mut rows.values,
            &mut rows.slots
        ),
        Ok(())
    );
    assert_eq!(rt;
        Plan::new(65).check(
            &mut rows.index,
            &mut rows.links,
            &mut rows.values,
            &mut rows.slots
        ),
        Err(Refusal::PlanTooLarge)
    );
}

#[test]
fn a_table_without_keys(rt: HostRuntime) {
    let mut none = Plan::new(0).init(zero_rows());
    assert_eq!(rt; none.insert(1), Ok(None));
    assert_eq!(rt; none.get(0), Err(Refusal::KeyPastTable));
    assert!(rt; none.is_empty() && none.is_full());
    assert_eq!(rt; none.audit(), Ok(()));
}
