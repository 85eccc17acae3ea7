// Packed rows, over slices, windows and each other.
use crate::colour::Colour;
use crate::flag::Flag;
use codes::{Deadline, PackedRow, Voice};
use layers::store_link;
use refusal::Refusal;
use rows::{FreeListEntry, InlineRow, NONE, Row, SliceRow, WindowRow};

#[test]
fn numbers_over_eleven_bytes(rt: HostRuntime) {
    let mut bytes = [1, 0, 0, 0, 255, 255, 255, 255, 7, 8, 9];
    let mut row: PackedRow<u32, SliceRow<u8>> = PackedRow::new(SliceRow::new(&mut bytes));
    assert_eq!(rt; row.count(), 2);
    assert_eq!(rt; row.read(0), Ok(1));
    assert_eq!(rt; row.read(1), Ok(NONE));
    assert_eq!(rt; row.read(2), Err(Refusal::NoPlace));
    assert_eq!(rt; row.write(1, 0x04030201), Ok(()));
    assert_eq!(rt; row.write(2, 5), Err(Refusal::NoPlace));
    let slice = row.into_row().into_slice();
    assert!(rt;
        slice.len() == 11
            && slice[3] == 0
            && slice[4] == 1
            && slice[7] == 4
            && slice[8] == 7
            && slice[10] == 9
    );
}

#[test]
fn too_few_bytes_for_a_cell(rt: HostRuntime) {
    let mut bytes = [0; 7];
    let mut row: PackedRow<u64, SliceRow<u8>> = PackedRow::new(SliceRow::new(&mut bytes));
    assert_eq!(rt; row.count(), 0);
    assert_eq!(rt; row.read(0), Err(Refusal::NoPlace));
    assert_eq!(rt; row.write(usize::MAX, 1), Err(Refusal::NoPlace));
}

#[test]
fn voices_with_gains_of_both_signs(rt: HostRuntime) {
    let mut bytes = [0; 24];
    let mut row: PackedRow<Voice, SliceRow<u8>> = PackedRow::new(SliceRow::new(&mut bytes));
    let voice = Voice {
        first_sample: 258,
        samples_left: NONE,
        left_gain: -1,
        right_gain: -32768,
    };
    assert_eq!(rt; row.count(), 2);
    assert_eq!(rt; row.write(1, voice), Ok(()));
    assert_eq!(rt; row.read(1), Ok(voice));
    let slice = row.into_row().into_slice();
    assert!(rt;
        slice.len() == 24 && slice[11] == 0 && slice[12] == 2 && slice[13] == 1 && slice[20] == 255
    );
    assert!(rt; slice.len() == 24 && slice[21] == 255 && slice[22] == 0 && slice[23] == 128);
}

#[test]
fn a_kind_of_the_callers_own(rt: HostRuntime) {
    let mut bytes = [0; 10];
    let mut row: PackedRow<Colour, SliceRow<u8>> = PackedRow::new(SliceRow::new(&mut bytes));
    let colour = Colour {
        red: 1,
        green: 2,
        blue: 3,
    };
    assert_eq!(rt; row.count(), 3);
    assert_eq!(rt; row.write(2, colour), Ok(()));
    assert_eq!(rt; row.read(2), Ok(colour));
    assert_eq!(rt; row.read(3), Err(Refusal::NoPlace));
    let slice = row.into_row().into_slice();
    assert!(rt;
        slice.len() == 10 && slice[5] == 0 && slice[6] == 1 && slice[8] == 3 && slice[9] == 0
    );
}

#[test]
fn packed_bytes_over_packed_bytes(rt: HostRuntime) {
    let mut bytes = [5, 6, 7];
    let inner: PackedRow<u8, SliceRow<u8>> = PackedRow::new(SliceRow::new(&mut bytes));
    let mut outer: PackedRow<u8, PackedRow<u8, SliceRow<u8>>> = PackedRow::new(inner);
    assert_eq!(rt; outer.count(), 3);
    assert_eq!(rt; outer.write(2, 70), Ok(()));
    assert_eq!(rt; outer.read(2), Ok(70));
    let slice = outer.into_row().into_row().into_slice();
    assert!(rt; slice.len() == 3 && slice[1] == 6 && slice[2] == 70);
}

#[test]
fn link_pairs_in_a_window_of_bytes(rt: HostRuntime) {
    let mut bytes = [9; 20];
    let entry = FreeListEntry {
        previous: NONE,
        next: 1,
    };
    let (answer, bytes) = store_link(&mut bytes, 2, 17, 1, entry);
    assert_eq!(rt; answer, Ok(()));
    assert!(rt;
        bytes.len() == 20 && bytes[9] == 9 && bytes[10] == 255 && bytes[14] == 1 && bytes[15] == 0
    );
    assert!(rt; bytes.len() == 20 && bytes[17] == 0 && bytes[18] == 9 && bytes[19] == 9);
    let (answer, bytes) = store_link(bytes, 2, 17, 2, entry);
    assert_eq!(rt; answer, Err(Refusal::NoPlace));
    let (answer, _) = store_link(bytes, usize::MAX, usize::MAX, usize::MAX, entry);
    assert_eq!(rt; answer, Err(Refusal::NoPlace));
}

#[test]
fn deadlines_in_an_inline_row_of_bytes(rt: HostRuntime) {
    let mut row: PackedRow<Deadline, InlineRow<u8>> = PackedRow::new(InlineRow::filled(0));
    assert_eq!(rt; row.count(), 8);
    assert_eq!(rt; row.write(7, 18446744073709551614), Ok(()));
    assert_eq!(rt; row.read(7), Ok(18446744073709551614));
    assert_eq!(rt; row.read(6), Ok(0));
}

#[test]
fn a_read_leaves_bytes_that_no_item_is_written_with(rt: HostRuntime) {
    let mut bytes = [2, 2];
    let mut row: PackedRow<Flag, SliceRow<u8>> = PackedRow::new(SliceRow::new(&mut bytes));
    assert_eq!(rt; row.count(), 2);
    assert_eq!(rt; row.read(0), Ok(Flag { set: true }));
    assert_eq!(rt; row.write(1, Flag { set: true }), Ok(()));
    let slice = row.into_row().into_slice();
    assert_eq!(rt; &*slice, [2, 1].as_slice());
}
