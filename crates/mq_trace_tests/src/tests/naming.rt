//! The line on each refusal.
use mq_log::Refusal;
use std::alloc::Global;
use std::test::Fail;

const NAMES: [(Refusal, &str); 16] = [
    (Refusal::Header(0), "refused 1 Header at 0"),
    (Refusal::Version(4), "refused 2 Version at 4"),
    (Refusal::Role(5), "refused 3 Role at 5"),
    (Refusal::Flags(7), "refused 4 Flags at 7"),
    (Refusal::Kind(8), "refused 5 Kind at 8"),
    (Refusal::Length(12), "refused 6 Length at 12"),
    (Refusal::Nested(13), "refused 7 Nested at 13"),
    (Refusal::NotOpen(18), "refused 8 NotOpen at 18"),
    (
        Refusal::ReleaseUnrecorded(20),
        "refused 9 ReleaseUnrecorded at 20",
    ),
    (Refusal::Cut(33), "refused 10 Cut at 33"),
    (Refusal::TooLarge(52), "refused 11 TooLarge at 52"),
    (Refusal::OtherVersion(47), "refused 12 OtherVersion at 47"),
    (
        Refusal::TooManyEarly(28_702),
        "refused 13 TooManyEarly at 28702",
    ),
    (
        Refusal::TooLong(4294967296),
        "refused 14 TooLong at 4294967296",
    ),
    (Refusal::Read(8192), "refused 15 Read at 8192"),
    (
        Refusal::Memory(18446744073709551615),
        "refused 16 Memory at 18446744073709551615",
    ),
];

// Whether this is the line on a refusal.
fn is_named(alloc: Global, refusal: Refusal, text: &str) -> Result<bool, Fail> {
    let mut written = String::new(alloc);
    write!(written, "{refusal}")?;
    Ok(written.as_str() == text)
}

#[test]
fn each_has_its_number_and_its_name(rt: HostRuntime) -> Result<(), Fail> {
    for (refusal, text) in &NAMES {
        assert!(rt; is_named(rt.alloc(), *refusal, text)?, "{text}");
    }
    Ok(())
}
