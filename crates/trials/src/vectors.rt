// The vector at the ends of its range.
use containers::MetaVec;
use refusal::Refusal;
use rows::{Row, SliceRow};

#[test]
fn vector_of_two(rt: HostRuntime) {
    let mut numbers = [8, 9];
    let mut vec = MetaVec::new(SliceRow::new(&mut numbers));
    assert!(rt; vec.is_empty() && !vec.is_full());
    assert_eq!(rt; vec.pop(), None);
    assert_eq!(rt; vec.read(0), Err(Refusal::PlacePastLength));
    assert_eq!(rt; vec.push(1), Ok(()));
    assert_eq!(rt; vec.write(1, 5), Err(Refusal::PlacePastLength));
    assert_eq!(rt; vec.push(2), Ok(()));
    assert_eq!(rt; vec.push(3), Err(Refusal::NoSpace));
    assert!(rt; vec.is_full() && vec.len() == 2 && vec.capacity() == 2);
    assert_eq!(rt; vec.write(0, 10), Ok(()));
    assert_eq!(rt; vec.read(0), Ok(10));
    assert_eq!(rt; vec.pop(), Some(2));
    vec.clear();
    assert!(rt; vec.is_empty());
    let slice = vec.into_row().into_slice();
    assert_eq!(rt; &*slice, [10, 2].as_slice());
}

#[test]
fn vector_without_a_cell(rt: HostRuntime) {
    let mut none: [u32; 0] = [];
    let mut vec = MetaVec::new(SliceRow::new(&mut none));
    assert!(rt; vec.is_empty() && vec.is_full());
    assert_eq!(rt; vec.push(1), Err(Refusal::NoSpace));
    assert_eq!(rt; vec.pop(), None);
}
