// The audit, on cells that stand and on cells that do not.
use audit::{Registers, audit};
use refusal::Refusal;
use rows::{FreeListEntry, NO_LINK, NONE, SliceRow};

// Audits a table of three keys: key 1 holds slot 0, and keys 2 and 0 stand in the free list.
fn audited(
    index: [u32; 3],
    first: FreeListEntry,
    slots: [u32; 3],
    len: u32,
) -> Result<(), Refusal> {
    let mut index = index;
    let mut links = [
        FreeListEntry {
            previous: 2,
            next: NONE,
        },
        NO_LINK,
        first,
    ];
    let mut values = [10, 20, 30];
    let mut slots = slots;
    let registers = Registers {
        capacity: 3,
        head: 2,
        start: 2,
        waiting: 2,
        len,
    };
    audit(
        &mut SliceRow::new(&mut index),
        &mut SliceRow::new(&mut links),
        &mut SliceRow::new(&mut values),
        &mut SliceRow::new(&mut slots),
        registers,
    )
}

const FIRST: FreeListEntry = FreeListEntry {
    previous: NONE,
    next: 0,
};

#[test]
fn three_keys(rt: HostRuntime) {
    assert_eq!(rt; audited([NONE, 0, NONE], FIRST, [1, 2, 9], 1), Ok(()));
    let refused = Err(Refusal::AuditFailed);
    assert_eq!(rt; audited([NONE, 0, NONE], FIRST, [1, 2, 9], 2), refused);
    assert_eq!(rt; audited([NONE, 1, NONE], FIRST, [1, 2, 9], 1), refused);
    assert_eq!(rt; audited([NONE, 3, NONE], FIRST, [1, 2, 9], 1), refused);
    assert_eq!(rt; audited([NONE, 0, NONE], FIRST, [1, 1, 9], 1), refused);
    assert_eq!(rt; audited([0, NONE, NONE], FIRST, [1, 2, 9], 1), refused);
    let round = FreeListEntry {
        previous: NONE,
        next: 2,
    };
    assert_eq!(rt; audited([NONE, 0, NONE], round, [1, 2, 9], 1), refused);
}
