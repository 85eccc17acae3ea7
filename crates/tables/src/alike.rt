// One list of calls on tables over three kinds of memory.
use codes::PackedRow;
use history::{Answer, Call};
use play::play;
use refusal::Refusal;
use rows::{FreeListEntry, InlineRow, SliceRow, WindowRow};
use slotmap::{Plan, Rows};
use std::process::Abort;

const OTHER_LINK: FreeListEntry = FreeListEntry {
    previous: 3,
    next: 3,
};

fn script() -> [Call<u32>; 16] {
    [
        Call::InsertAt(0, 5),
        Call::Insert(6),
        Call::NextFreeKey,
        Call::InsertAt(3, 7),
        Call::Remove(0),
        Call::Remove(0),
        Call::Remove(1),
        Call::Replace(3, 9),
        Call::Replace(0, 9),
        Call::Insert(8),
        Call::Step(0),
        Call::Step(2),
        Call::Get(4),
        Call::Len,
        Call::Insert(1),
        Call::Insert(2),
    ]
}

fn expected() -> [Result<Answer<u32>, Refusal>; 16] {
    [
        Ok(Answer::Done),
        Ok(Answer::Key(Some(1))),
        Ok(Answer::Key(Some(2))),
        Ok(Answer::Done),
        Ok(Answer::Value(Some(5))),
        Ok(Answer::Value(None)),
        Ok(Answer::Value(Some(6))),
        Ok(Answer::Value(Some(7))),
        Ok(Answer::Value(None)),
        Ok(Answer::Key(Some(1))),
        Ok(Answer::Pair(Some((1, 8)))),
        Ok(Answer::Pair(Some((3, 9)))),
        Err(Refusal::KeyPastTable),
        Ok(Answer::Number(2)),
        Ok(Answer::Key(Some(0))),
        Ok(Answer::Key(Some(2))),
    ]
}

fn as_expected(rt: &impl Abort, answers: &[Result<Answer<u32>, Refusal>]) {
    let expected = expected();
    assert_eq!(rt; answers, expected.as_slice());
}

#[test]
fn over_slices(rt: HostRuntime) {
    let mut index = [7; 5];
    let mut links = [OTHER_LINK; 6];
    let mut values = [0; 4];
    let mut slots = [9; 4];
    let mut answers = [Ok(Answer::Done); 16];
    let played = play(
        Plan::new(70000),
        Rows {
            index: SliceRow::new(&mut index),
            links: SliceRow::new(&mut links),
            values: SliceRow::new(&mut values),
            slots: SliceRow::new(&mut slots),
        },
        &script(),
        &mut answers,
    );
    assert_eq!(rt; played.count, 16);
    as_expected(&rt, &answers);
}

#[test]
fn inside_the_table(rt: HostRuntime) {
    let mut answers = [Ok(Answer::Done); 16];
    let played = play(
        Plan::new(4),
        Rows {
            index: InlineRow::filled(1),
            links: InlineRow::filled(OTHER_LINK),
            values: InlineRow::filled(2),
            slots: InlineRow::filled(3),
        },
        &script(),
        &mut answers,
    );
    assert_eq!(rt; played.count, 16);
    as_expected(&rt, &answers);
}

#[test]
fn in_four_parts_of_one_slice_of_bytes(rt: HostRuntime) {
    let mut memory = [238; 120];
    let (index_bytes, rest) = memory.split_at_mut(30);
    let (link_bytes, rest) = rest.split_at_mut(39);
    let (value_bytes, slot_bytes) = rest.split_at_mut(30);
    let index: PackedRow<u32, WindowRow<SliceRow<u8>>> = PackedRow::new(WindowRow::new(
        SliceRow::new(index_bytes),
        5,
        18,
    ));
    let links: PackedRow<FreeListEntry, SliceRow<u8>> = PackedRow::new(SliceRow::new(link_bytes));
    let values: PackedRow<u32, SliceRow<u8>> = PackedRow::new(SliceRow::new(value_bytes));
    let slots: PackedRow<u32, SliceRow<u8>> = PackedRow::new(SliceRow::new(slot_bytes));
    let mut answers = [Ok(Answer::Done); 16];
    let played = play(
        Plan::new(4),
        Rows {
            index,
            links,
            values,
            slots,
        },
        &script(),
        &mut answers,
    );
    assert_eq!(rt; played.count, 16);
    as_expected(&rt, &answers);
}

#[test]
fn as_many_calls_as_places(rt: HostRuntime) {
    let mut answers = [Ok(Answer::Number(77)); 2];
    let played = play(
        Plan::new(1),
        Rows {
            index: InlineRow::filled(1),
            links: InlineRow::filled(OTHER_LINK),
            values: InlineRow::filled(2),
            slots: InlineRow::filled(3),
        },
        &[Call::Insert(5)],
        &mut answers,
    );
    assert_eq!(rt; played.count, 1);
    assert_eq!(rt; answers[0], Ok(Answer::Key(Some(0))));
    assert_eq!(rt; answers[1], Ok(Answer::Number(77)));
}
