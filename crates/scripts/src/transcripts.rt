// Scripts, and what they print. tools/keyscript_says.py says what that must be.
use script::{run, transcribe};
use std::process::Abort;
use std::test::Fail;

// Checks what a script prints.
fn prints(rt: &(impl Abort + AllocGlobal), input: &[u8], expected: &str) -> Result<(), Fail> {
    let printed = transcribe(rt.alloc(), input)?;
    assert_eq!(rt; printed.as_str(), expected);
    Ok(())
}

#[test]
fn lines_that_are_not_legal(rt: HostRuntime) -> Result<(), Fail> {
    prints(
        &rt,
        b"\nm\nm \nm 5 6\ni 4294967296\ni 00000000001\na 1\nc\nmm\n m\nn \nm 5\r\n\t\n\0\n",
        "refused 12 0\nrefused 12 1\nrefused 12 2\nrefused 12 3\nrefused 12 11\nrefused 12 12\nrefused 12 3\nrefused 12 0\nrefused 12 1\nrefused 12 0\nrefused 12 1\nrefused 12 3\nrefused 12 0\nrefused 12 0\n",
    )
}

#[test]
fn ends_of_lines(rt: HostRuntime) -> Result<(), Fail> {
    prints(&rt, b"", "")?;
    prints(&rt, b"\n", "refused 12 0\n")?;
    prints(&rt, b"m 1\ni 4294967295", "ok\n0\n")
}

#[test]
fn tables_of_no_keys_and_of_sixty_four(rt: HostRuntime) -> Result<(), Fail> {
    prints(
        &rt,
        b"i 1\nn\nl\nk\ng 0\nm 64\na 63 9\na 64 9\nm 65\nk\n",
        "none\nnone\n0\n-\nrefused 1\nok\nok\nrefused 1\nrefused 6\n63=9\n",
    )
}

#[test]
fn a_full_table(rt: HostRuntime) -> Result<(), Fail> {
    prints(
        &rt,
        b"m 2\ni 7\ni 8\ni 9\nn\nr 0\nr 0\np 1 3\np 0 3\nn\ni 9\nk\n",
        "ok\n0\n1\nnone\nnone\n7\nnone\n8\nnone\n0\n0\n0=9 1=3\n",
    )
}

#[test]
fn inputs_as_long_as_may_be(rt: HostRuntime) -> Result<(), Fail> {
    let input = [120; 65537];
    prints(&rt, &input[0..65536], "refused 12 0\n")?;
    prints(&rt, &input, "refused 12 65536\n")
}

#[test]
fn lines_that_a_byte_spoils(rt: HostRuntime) -> Result<(), Fail> {
    prints(
        &rt,
        b"a 1 \na 1  2\nm\t5\ni 4294967295 \ni 42949672950\na 4294967296 5\np 1 2 3\nr -1\ng 0x1\nk\0\ni 1\xff\n\xff\n",
        "refused 12 4\nrefused 12 4\nrefused 12 1\nrefused 12 12\nrefused 12 12\nrefused 12 11\nrefused 12 5\nrefused 12 2\nrefused 12 3\nrefused 12 1\nrefused 12 3\nrefused 12 0\n",
    )
}

#[test]
fn keys_past_the_table(rt: HostRuntime) -> Result<(), Fail> {
    prints(
        &rt,
        b"m 2\na 1 9\nr 2\np 2 5\ng 2\na 2 5\nr 4294967295\nk\nr 1\n",
        "ok\nok\nrefused 1\nrefused 1\nrefused 1\nrefused 1\nrefused 1\n1=9\n9\n",
    )
}

#[test]
fn tables_made_anew(rt: HostRuntime) -> Result<(), Fail> {
    prints(
        &rt,
        b"m 2\ni 5\nm 3\nl\nk\ni 6\nm 0\nl\nm 0\ni 7\n",
        "ok\n0\nok\n0\n-\n0\nok\n0\nok\nnone\n",
    )?;
    prints(
        &rt,
        b"m 2\ni 5\ni 6\nr 0\nm 65\nm 4294967295\ng 1\nn\nl\ni 7\nk\n",
        "ok\n0\n1\n5\nrefused 6\nrefused 6\n6\n0\n1\n0\n0=7 1=6\n",
    )
}

#[test]
fn numbers_with_leading_zeros(rt: HostRuntime) -> Result<(), Fail> {
    prints(
        &rt,
        b"m 0000000003\ni 0000000001\na 0000000002 0000000007\ni 4294967295\nk\ni 00000000001\n",
        "ok\n0\nok\n1\n0=1 1=4294967295 2=7\nrefused 12 12\n",
    )
}

// A long line, and a command that ends with the input.
#[test]
fn command_at_the_last_byte(rt: HostRuntime) -> Result<(), Fail> {
    let mut input = [120; 65536];
    input[65534] = b'\n';
    input[65535] = b'l';
    prints(&rt, &input, "refused 12 0\n0\n")
}

#[test]
fn only_ends_of_lines(rt: HostRuntime) -> Result<(), Fail> {
    prints(&rt, b"\n\n\n", "refused 12 0\nrefused 12 0\nrefused 12 0\n")
}

// The scripts in examples/, each here once more.
#[test]
fn examples(rt: HostRuntime) -> Result<(), Fail> {
    prints(
        &rt,
        b"m 4\na 0 100\nn\ni 201\ni 202\nk\nr 1\ni 203\ng 0\nr 0\nn\nk\n",
        "ok\nok\n1\n1\n2\n0=100 1=201 2=202\n201\n1\n100\n100\n0\n1=203 2=202\n",
    )?;
    prints(
        &rt,
        b"m 2\ni 7\ni 8\ni 9\nn\nr 0\nn\ni 9\ni 10\nk\nm 0\ni 1\nn\nk\nm 65\nm 64\nl\n",
        "ok\n0\n1\nnone\nnone\n7\n0\n0\nnone\n0=9 1=8\nok\nnone\nnone\n-\nrefused 6\nok\n0\n",
    )?;
    prints(
        &rt,
        b"m 3\na 2 5\na 3 6\ni 1\ng 2\ng 3\nr 3\np 3 9\np 1 4\nk\n",
        "ok\nok\nrefused 1\n0\n5\nrefused 1\nrefused 1\nrefused 1\nnone\n0=1 2=5\n",
    )
}

// What is written comes after what is there, and bytes past the 65,537th are not read.
#[test]
fn from_a_reader_to_a_writer(rt: HostRuntime) -> Result<(), Fail> {
    let mut reader: &[u8] = b"m 1\ni 5";
    let mut written = Vec::from_array(rt.alloc(), [b'>'])?;
    run(rt.alloc(), &mut reader, &mut written)?;
    assert_eq!(rt; written.as_slice(), b">ok\n0\n".as_slice());
    let long = [b'l'; 65540];
    let mut reader: &[u8] = &long;
    run(rt.alloc(), &mut reader, &mut written)?;
    assert_eq!(rt;
        written.as_slice(),
        b">ok\n0\nrefused 12 65536\n".as_slice()
    );
    assert_eq!(rt; reader.len(), 3);
    Ok(())
}
