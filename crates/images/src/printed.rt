// What is printed of images, and of bytes that are none.
use crate::answers::{ONE_NUMBER, TWO_BYTES};
use std::process::Abort;
use std::test::Fail;
use viewing::print_image;

// Checks what is printed of an input.
fn prints(rt: &(impl Abort + AllocGlobal), input: &[u8], expected: &str) -> Result<(), Fail> {
    let printed = print_image(rt.alloc(), input)?;
    assert_eq!(rt; printed.as_str(), expected);
    Ok(())
}

#[test]
fn images(rt: HostRuntime) -> Result<(), Fail> {
    prints(
        &rt,
        &ONE_NUMBER,
        "form 1 width 4 capacity 3 held 1\n1: 07000000\nok\n",
    )?;
    prints(
        &rt,
        &TWO_BYTES,
        "form 1 width 1 capacity 259 held 2\n2: fe\n258: 0a\nok\n",
    )?;
    prints(
        &rt,
        b"SM\x01\xff\0\0\0\0SE",
        "form 1 width 255 capacity 0 held 0\nok\n",
    )
}

#[test]
fn bytes_that_are_no_image(rt: HostRuntime) -> Result<(), Fail> {
    prints(&rt, b"", "refused 8 0\n")?;
    prints(&rt, &ONE_NUMBER[..17], "refused 8 16\n")?;
    prints(&rt, b"SM\x01\x04\x03\0\0\0SE\n", "refused 8 10\n")
}
