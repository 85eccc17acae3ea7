// What refusals and the program's library print.
use recents::last_numbers;
use refusal::Refusal;
use std::test::Fail;

const REFUSALS: [Refusal; 12] = [
    Refusal::KeyPastTable,
    Refusal::PlacePastLength,
    Refusal::NoSpace,
    Refusal::NoCell,
    Refusal::NoPlace,
    Refusal::PlanTooLarge,
    Refusal::BufferTooShort,
    Refusal::ImageBroken(16),
    Refusal::OtherShape,
    Refusal::TableNotEmpty,
    Refusal::AuditFailed,
    Refusal::LineNotLegal(18446744073709551615),
];

#[test]
fn refusals_are_numbered_in_order(rt: HostRuntime) {
    for (refusal, expected) in REFUSALS.iter().zip(1u32..=12) {
        assert_eq!(rt; refusal.number(), expected);
        assert_eq!(rt;
            refusal.carried().is_some(),
            expected == 8 || expected == 12
        );
    }
}

#[test]
fn refusals_in_words(rt: HostRuntime) -> Result<(), Fail> {
    let heap = rt.alloc();
    let plain = format!(in heap; "{}", Refusal::NoPlace)?;
    assert_eq!(rt; plain.as_str(), "refused 5");
    let offset = format!(in heap; "{}", Refusal::ImageBroken(16))?;
    assert_eq!(rt; offset.as_str(), "refused 8 16");
    let length = format!(in heap; "{}", Refusal::LineNotLegal(18446744073709551615))?;
    assert_eq!(rt; length.as_str(), "refused 12 18446744073709551615");
    Ok(())
}

#[test]
fn numbers_and_other_lines(rt: HostRuntime) -> Result<(), Fail> {
    let text = b"3\n\n4294967295\n4294967296\n00000000005\n0000000006\nx\n-1\n+1\n1 \n8";
    let printed = last_numbers(rt.alloc(), text)?;
    assert_eq!(rt; printed.out.as_str(), "3\n4294967295\n6\n8\n");
    assert_eq!(rt;
        printed.err.as_str(),
        "line 2: not a number\nline 4: not a number\nline 5: not a number\nline 7: not a number\nline 8: not a number\nline 9: not a number\nline 10: not a number\n"
    );
    Ok(())
}

#[test]
fn no_text(rt: HostRuntime) -> Result<(), Fail> {
    let printed = last_numbers(rt.alloc(), b"")?;
    assert!(rt; printed.out.is_empty() && printed.err.is_empty());
    Ok(())
}
