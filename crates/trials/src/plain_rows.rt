// Slice rows, inline rows and windows.
use layers::store_number;
use refusal::Refusal;
use rows::{FreeListEntry, InlineRow, NO_LINK, NONE, Row, SliceRow, WindowRow};
use std::test::Fail;

#[test]
fn slice_row(rt: HostRuntime) {
    let mut numbers = [10, 20, 30];
    let mut row = SliceRow::new(&mut numbers);
    assert_eq!(rt; row.count(), 3);
    assert_eq!(rt; row.read(2), Ok(30));
    assert_eq!(rt; row.read(3), Err(Refusal::NoPlace));
    assert_eq!(rt; row.write(0, 11), Ok(()));
    assert_eq!(rt; row.write(3, 0), Err(Refusal::NoPlace));
    assert_eq!(rt; row.write(usize::MAX, 0), Err(Refusal::NoPlace));
    let slice = row.into_slice();
    assert_eq!(rt; &*slice, [11, 20, 30].as_slice());
}

#[test]
fn the_callers_slice_holds_the_cells(rt: HostRuntime) {
    let mut numbers = [1, 2];
    assert_eq!(rt; store_number(&mut numbers, 1, 7), Ok(()));
    assert_eq!(rt; store_number(&mut numbers, 2, 9), Err(Refusal::NoPlace));
    assert_eq!(rt; numbers, [1, 7]);
    let mut none: [u32; 0] = [];
    assert_eq!(rt; store_number(&mut none, 0, 9), Err(Refusal::NoPlace));
}

#[test]
fn inline_row_of_link_pairs(rt: HostRuntime) {
    let end = NO_LINK;
    let first = FreeListEntry {
        previous: NONE,
        next: 1,
    };
    let mut row = InlineRow::filled(end);
    assert_eq!(rt; row.count(), 64);
    assert_eq!(rt; row.write(63, first), Ok(()));
    assert_eq!(rt; row.write(64, first), Err(Refusal::NoPlace));
    assert_eq!(rt; row.read(63), Ok(first));
    assert_eq!(rt; row.read(62), Ok(end));
    assert_eq!(rt; row.read(64), Err(Refusal::NoPlace));
    let cells = row.into_array();
    assert!(rt; cells.len() == 64);
    assert_eq!(rt; cells[63], first);
}

#[test]
fn window_from_five_of_at_most_four_over_seven(rt: HostRuntime) {
    let mut numbers = [0, 1, 2, 3, 4, 5, 6];
    let mut row = WindowRow::new(SliceRow::new(&mut numbers), 5, 4);
    assert_eq!(rt; row.count(), 2);
    assert_eq!(rt; row.read(1), Ok(6));
    assert_eq!(rt; row.read(2), Err(Refusal::NoPlace));
    assert_eq!(rt; row.write(1, 60), Ok(()));
    assert_eq!(rt; row.write(2, 70), Err(Refusal::NoPlace));
    let slice = row.into_row().into_slice();
    assert!(rt; slice.len() == 7 && slice[4] == 4 && slice[5] == 5 && slice[6] == 60);
}

#[test]
fn windows_at_the_ends_of_the_range(rt: HostRuntime) {
    let mut numbers = [1, 2, 3];
    let mut row = WindowRow::new(SliceRow::new(&mut numbers), usize::MAX, usize::MAX);
    assert_eq!(rt; row.count(), 0);
    assert_eq!(rt; row.read(0), Err(Refusal::NoPlace));
    assert_eq!(rt; row.write(usize::MAX, 5), Err(Refusal::NoPlace));
    let mut row = WindowRow::new(row.into_row(), 1, usize::MAX);
    assert_eq!(rt; row.count(), 2);
    assert_eq!(rt; row.read(usize::MAX), Err(Refusal::NoPlace));
    let mut row = WindowRow::new(row.into_row(), 0, 0);
    assert_eq!(rt; row.count(), 0);
    let mut row = WindowRow::new(row.into_row(), 3, 1);
    assert_eq!(rt; row.count(), 0);
}

#[test]
fn window_of_a_window(rt: HostRuntime) {
    let mut numbers = [0, 1, 2, 3, 4, 5, 6];
    let outer = WindowRow::new(SliceRow::new(&mut numbers), 1, 5);
    let mut inner = WindowRow::new(outer, 2, 9);
    assert_eq!(rt; inner.count(), 3);
    assert_eq!(rt; inner.read(0), Ok(3));
    assert_eq!(rt; inner.write(2, 50), Ok(()));
    let slice = inner.into_row().into_row().into_slice();
    assert!(rt; slice.len() == 7 && slice[5] == 50 && slice[6] == 6);
}

#[test]
fn link_pairs_changed_in_the_callers_slice(rt: HostRuntime) -> Result<(), Fail> {
    let end = NO_LINK;
    let mut links = [end; 1];
    let mut row = SliceRow::new(&mut links);
    assert_eq!(rt; row.count(), 1);
    let entry = row.read(0)?;
    let linked = FreeListEntry { next: 7, ..entry };
    assert_eq!(rt; row.write(0, linked), Ok(()));
    assert_eq!(rt; row.read(0), Ok(linked));
    assert_eq!(rt; row.write(1, linked), Err(Refusal::NoPlace));
    let slice = row.into_slice();
    let cell = FreeListEntry {
        previous: NONE,
        next: 7,
    };
    assert_eq!(rt; &*slice, [cell].as_slice());
    Ok(())
}
