// Images, whole and broken, and what is answered to them.
use crate::answers::{
    ONE_NUMBER, ONE_NUMBER_CHANGED, ONE_NUMBER_CUT, TWO_BYTES, TWO_BYTES_CHANGED, TWO_BYTES_CUT,
};
use image::{Header, Record, Records, validate};
use refusal::Refusal;
use std::process::Abort;

// Checks what is answered to bytes: no refusal, or the one with this offset.
fn answers(rt: &impl Abort, bytes: &[u8], expected: Option<u64>) {
    let refusal = validate(bytes).err();
    assert_eq!(rt; refusal, expected.map(Refusal::ImageBroken), "{bytes:?}");
}

// Checks what is answered to an image that is cut short.
fn cut(rt: &impl Abort, image: &[u8], rows: &[Option<u64>]) {
    assert_eq!(rt; rows.len(), image.len());
    for (length, expected) in rows.iter().enumerate() {
        answers(rt, &image[..length], *expected);
    }
}

// Checks what is answered to an image with one byte changed.
fn changed<const N: usize>(rt: &impl Abort, image: [u8; N], rows: &[(usize, u8, u8, Option<u64>)]) {
    let mut tried = 0usize;
    for (place, first, last, expected) in rows {
        for byte in *first..=*last {
            let mut other = image;
            assert!(rt; *place < other.len());
            other[*place] = byte;
            answers(rt, &other, *expected);
            tried = tried.wrapping_add(1);
        }
    }
    assert_eq!(rt; tried, N.wrapping_mul(256));
}

#[test]
fn the_records_of_an_image(rt: HostRuntime) {
    let header = Header {
        width: 4,
        capacity: 3,
        held: 1,
    };
    let value = Record::Value {
        key: 1,
        bytes: &[7, 0, 0, 0],
    };
    assert_eq!(rt; validate(&ONE_NUMBER), Ok(header));
    let mut records = Records::new(&ONE_NUMBER);
    assert_eq!(rt; records.next(), Some(Record::Header(header)));
    assert_eq!(rt; records.next(), Some(value));
    assert_eq!(rt; records.next(), Some(Record::End));
    assert_eq!(rt; records.next(), None);
}

#[test]
fn images_that_are_cut_short(rt: HostRuntime) {
    cut(&rt, &ONE_NUMBER, &ONE_NUMBER_CUT);
    cut(&rt, &TWO_BYTES, &TWO_BYTES_CUT);
}

#[test]
fn images_with_one_byte_changed(rt: HostRuntime) {
    changed(&rt, ONE_NUMBER, &ONE_NUMBER_CHANGED);
    changed(&rt, TWO_BYTES, &TWO_BYTES_CHANGED);
}

#[test]
fn a_byte_after_the_end(rt: HostRuntime) {
    answers(&rt, b"SM\x01\x04\x03\0\0\0SE", None);
    answers(&rt, b"SM\x01\x04\x03\0\0\0SE\0", Some(10));
}
