// Types of a caller's own that hold a queue or a vector over a row made of the type's parameter.
use containers::{MetaQueue, MetaVec};
use refusal::Refusal;
use rows::{InlineRow, Row, SliceRow, WindowRow};

// Numbers that wait in part of any row.
#[derive(Drop)]
struct Waiting<R: Row<Item = u32>> {
    queue: MetaQueue<WindowRow<R>>,
}

impl<R: Row<Item = u32>> Waiting<R> {
    // The three cells of `row` after its first.
    fn new(row: R) -> Self {
        Waiting {
            queue: MetaQueue::new(WindowRow::new(row, 1, 3)),
        }
    }

    fn push(&mut self, number: u32) -> Result<(), Refusal> {
        self.queue.push(number)
    }

    fn into_row(self) -> R {
        self.queue.into_row().into_row()
    }
}

// Values of any plain kind: those that came last, and all of them.
#[derive(Drop)]
struct Seen<T: Copy> {
    last: MetaQueue<InlineRow<T>>,
    all: MetaVec<InlineRow<T>>,
}

impl<T: Copy> Seen<T> {
    fn new(nothing: T) -> Self {
        Seen {
            last: MetaQueue::with_capacity(InlineRow::filled(nothing), 2),
            all: MetaVec::new(InlineRow::filled(nothing)),
        }
    }

    fn see(&mut self, value: T) -> Result<Option<T>, Refusal> {
        self.all.push(value)?;
        self.last.push_with_overflow(value)
    }
}

// A vector over the row that a queue is.
#[derive(Drop)]
struct Listed<R: Row<Item = u32>> {
    vec: MetaVec<MetaQueue<R>>,
}

#[test]
fn numbers_wait_in_a_part_of_a_row(rt: HostRuntime) {
    let mut cells = [7; 5];
    let mut waiting = Waiting::new(SliceRow::new(&mut cells));
    assert_eq!(rt; waiting.push(1), Ok(()));
    assert_eq!(rt; waiting.push(2), Ok(()));
    assert_eq!(rt; waiting.push(3), Ok(()));
    assert_eq!(rt; waiting.push(4), Err(Refusal::NoSpace));
    assert_eq!(rt;
        &*waiting.into_row().into_slice(),
        [7, 1, 2, 3, 7].as_slice()
    );
}

#[test]
fn values_of_any_kind_are_seen(rt: HostRuntime) {
    let mut seen = Seen::new('-');
    assert_eq!(rt; seen.see('a'), Ok(None));
    assert_eq!(rt; seen.see('b'), Ok(None));
    assert_eq!(rt; seen.see('c'), Ok(Some('a')));
    assert_eq!(rt; seen.last.len(), 2);
    assert_eq!(rt; seen.all.len(), 3);
}

#[test]
fn a_vector_stands_over_a_queue(rt: HostRuntime) {
    let queue = MetaQueue::with_capacity(InlineRow::filled(0), 2);
    let mut listed = Listed {
        vec: MetaVec::new(queue),
    };
    assert_eq!(rt; listed.vec.push(9), Ok(()));
    assert_eq!(rt; listed.vec.read(0), Ok(9));
}
