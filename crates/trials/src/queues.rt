// The worked run of a queue, performed over two makes of row, and the queue at the ends of
// its range.
use codes::PackedRow;
use containers::{MetaQueue, MetaVec};
use history::Answer;
use refusal::Refusal;
use rows::{InlineRow, Row, SliceRow};
use runs::{QueueCall, perform};
use std::process::Abort;
use std::test::Fail;

const RUN: [(QueueCall, Result<Answer<u32>, Refusal>); 7] = [
    (QueueCall::Push(1), Ok(Answer::Done)),
    (QueueCall::Push(2), Ok(Answer::Done)),
    (QueueCall::Push(3), Ok(Answer::Done)),
    (QueueCall::Push(4), Err(Refusal::NoSpace)),
    (QueueCall::PushWithOverflow(4), Ok(Answer::Value(Some(1)))),
    (QueueCall::Get(0), Ok(Answer::Number(2))),
    (QueueCall::Get(3), Err(Refusal::PlacePastLength)),
];

// Makes the calls of the worked run, and holds each answer to the stated one.
fn run<R: Row<Item = u32>>(rt: &impl Abort, queue: &mut MetaQueue<R>) {
    for (call, answer) in RUN {
        assert_eq!(rt; perform(queue, call), answer);
    }
}

#[test]
fn queue_of_three_over_an_inline_row(rt: HostRuntime) {
    let mut queue = MetaQueue::with_capacity(InlineRow::filled(0), 3);
    run(&rt, &mut queue);
}

#[test]
fn queue_of_three_over_packed_numbers(rt: HostRuntime) {
    let mut bytes = [0; 13];
    let row: PackedRow<u32, SliceRow<u8>> = PackedRow::new(SliceRow::new(&mut bytes));
    let mut queue = MetaQueue::new(row);
    run(&rt, &mut queue);
}

#[test]
fn queue_of_one_goes_round(rt: HostRuntime) {
    let mut queue = MetaQueue::with_capacity(InlineRow::filled(0), 1);
    assert_eq!(rt; queue.peek(), None);
    assert_eq!(rt; queue.push_with_overflow(1), Ok(None));
    assert_eq!(rt; queue.push_with_overflow(2), Ok(Some(1)));
    assert_eq!(rt; queue.peek(), Some(2));
    assert_eq!(rt; queue.pop(), Some(2));
    assert_eq!(rt; queue.pop(), None);
    assert_eq!(rt; queue.push(3), Ok(()));
    assert!(rt; queue.is_full() && queue.len() == 1);
    queue.clear();
    assert!(rt; queue.is_empty());
    assert_eq!(rt; queue.get(0), Err(Refusal::PlacePastLength));
}

#[test]
fn queue_without_a_cell(rt: HostRuntime) {
    let mut queue = MetaQueue::with_capacity(InlineRow::filled(0), 0);
    assert!(rt; queue.is_empty() && queue.is_full() && queue.capacity() == 0);
    assert_eq!(rt; queue.push(1), Err(Refusal::NoSpace));
    assert_eq!(rt; queue.push_with_overflow(1), Err(Refusal::NoCell));
    assert_eq!(rt; queue.pop(), None);
    assert_eq!(rt; queue.get(usize::MAX), Err(Refusal::PlacePastLength));
}

#[test]
fn capacity_is_at_most_the_count(rt: HostRuntime) {
    let queue = MetaQueue::with_capacity(InlineRow::filled(0), u32::MAX);
    assert_eq!(rt; queue.capacity(), 64);
    let queue = MetaQueue::new(queue.into_row());
    assert_eq!(rt; queue.capacity(), 64);
}

#[test]
fn capacity_is_at_most_65535(rt: HostRuntime) -> Result<(), Fail> {
    let mut cells = vec![in rt.alloc(); 0u8; 65537]?;
    let queue = MetaQueue::with_capacity(SliceRow::new(cells.as_mut_slice()), u32::MAX);
    assert_eq!(rt; queue.capacity(), 65535);
    let mut vec = MetaVec::new(queue.into_row());
    assert_eq!(rt; vec.capacity(), 65535);
    assert_eq!(rt; vec.push(1), Ok(()));
    Ok(())
}
