use mq_wire::*;
use std::alloc::Global;
use std::test::Fail;

// Where reading a field failed, and why; None if it didn't.
fn fault<T: Drop>(read: Result<T, WireFault>) -> Option<(usize, Reason)> {
    match read {
        Ok(_) => None,
        Err(fault) => Some((fault.at, fault.reason)),
    }
}

// Whether integers are read one after the other.
fn reads_in_order(cursor: &mut Cursor<'_>) -> bool {
    matches!(cursor.u8(), Ok(5))
        && matches!(cursor.u16(), Ok(0x1234))
        && cursor.at() == 103
        && matches!(cursor.u32(), Ok(0xDEAD_BEEF))
        && !cursor.is_empty()
}

// Whether the last byte is no wider integer, and is read as what it is.
fn reads_the_last_byte(cursor: &mut Cursor<'_>) -> bool {
    fault(cursor.u16()) == Some((107, Reason::Short))
        && fault(cursor.u32()) == Some((107, Reason::Short))
        && matches!(cursor.u8(), Ok(9))
        && fault(cursor.u8()) == Some((108, Reason::Short))
        && cursor.is_empty()
}

// Whether both hold of these bytes, which stand at the offset 100.
fn reads_all() -> bool {
    let mut cursor = Cursor::starting_at(&[5, 0x12, 0x34, 0xDE, 0xAD, 0xBE, 0xEF, 9], 100);
    reads_in_order(&mut cursor) && reads_the_last_byte(&mut cursor)
}

#[test]
fn reads_integers(rt: HostRuntime) {
    assert!(rt; reads_all());
    assert_eq!(rt; Cursor::new(b"ab").rest(), b"ab".as_slice());
}

// The table of MQTT 5.0, 1.5.5.
const VARINTS: [(u32, &[u8]); 8] = [
    (0, &[0x00]),
    (127, &[0x7F]),
    (128, &[0x80, 0x01]),
    (16_383, &[0xFF, 0x7F]),
    (16_384, &[0x80, 0x80, 0x01]),
    (2_097_151, &[0xFF, 0xFF, 0x7F]),
    (2_097_152, &[0x80, 0x80, 0x80, 0x01]),
    (268_435_455, &[0xFF, 0xFF, 0xFF, 0x7F]),
];

// Whether the number is read from these bytes, all of them.
fn is_read_from(bytes: &[u8], number: u32) -> bool {
    let mut cursor = Cursor::new(bytes);
    cursor.varint() == Ok(number) && cursor.is_empty()
}

#[test]
fn reads_varints(rt: HostRuntime) {
    for (number, bytes) in &VARINTS {
        assert!(rt; is_read_from(bytes, *number), "reading {number}");
    }
}

// Whether the number is written as these bytes.
fn is_written_as(alloc: Global, number: u32, bytes: &[u8]) -> bool {
    let mut out = Vec::new(alloc);
    put_varint(&mut out, number).is_ok() && out.as_slice() == bytes
}

#[test]
fn writes_varints(rt: HostRuntime) {
    for (number, bytes) in &VARINTS {
        assert!(rt;
            is_written_as(rt.alloc(), *number, bytes),
            "writing {number}"
        );
    }
}

// Whether the number is too large for a varint, and nothing is written.
fn is_too_long(alloc: Global, number: u32) -> bool {
    let mut out = Vec::new(alloc);
    put_varint(&mut out, number) == Err(PutFault::TooLong) && out.is_empty()
}

#[test]
fn writes_no_longer_varint(rt: HostRuntime) {
    assert!(rt; is_too_long(rt.alloc(), 268_435_456));
}

const BAD_VARINTS: [(&[u8], Reason); 9] = [
    (&[], Reason::Short),
    (&[0x80], Reason::Short),
    (&[0xFF, 0xFF, 0xFF], Reason::Short),
    (&[0x80, 0x00], Reason::Overlong),
    (&[0xFF, 0x00, 0x01], Reason::Overlong),
    (&[0xFF, 0xFF, 0x00], Reason::Overlong),
    (&[0x80, 0x80, 0x80, 0x00], Reason::Overlong),
    (&[0xFF, 0xFF, 0xFF, 0xFF], Reason::Overlong),
    (&[0x80, 0x80, 0x80, 0x80, 0x01], Reason::Overlong),
];

// Whether no varint is read from these bytes, for this reason, and the cursor stays where it is.
fn is_no_varint(bytes: &[u8], reason: Reason) -> bool {
    let mut cursor = Cursor::new(bytes);
    fault(cursor.varint()) == Some((0, reason)) && cursor.rest() == bytes
}

#[test]
fn refuses_varints(rt: HostRuntime) {
    for (bytes, reason) in &BAD_VARINTS {
        assert!(rt; is_no_varint(bytes, *reason), "{bytes:?}");
    }
}

// The byte order mark is kept, and noncharacters are accepted.
const TEXTS: [(&[u8], &str); 8] = [
    (b"\x00\x00", ""),
    (b"\x00\x03a/b", "a/b"),
    (b"\x00\x03\xEF\xBB\xBF", "\u{FEFF}"),
    (b"\x00\x03\xED\x9F\xBF", "\u{D7FF}"),
    (b"\x00\x03\xEF\xB7\x90", "\u{FDD0}"),
    (b"\x00\x03\xEF\xBF\xBF", "\u{FFFF}"),
    (b"\x00\x04\xF0\x9F\xBF\xBF", "\u{1FFFF}"),
    (b"\x00\x04\xF4\x8F\xBF\xBF", "\u{10FFFF}"),
];

// Whether the text is read from these bytes, all of them.
fn is_text(bytes: &[u8], text: &str) -> bool {
    let mut cursor = Cursor::new(bytes);
    cursor.text() == Ok(text) && cursor.is_empty()
}

#[test]
fn reads_texts(rt: HostRuntime) {
    for (bytes, text) in &TEXTS {
        assert!(rt; is_text(bytes, text), "{bytes:?}");
    }
}

const BAD_TEXTS: [(&[u8], Reason); 15] = [
    (b"\x00", Reason::Short),
    (b"\x00\x03ab", Reason::Short),
    (b"\x00\x03\xC0\x80", Reason::Short),
    (b"\x00\x01\x00", Reason::Nul),
    (b"\x00\x03a\x00b", Reason::Nul),
    (b"\x00\x03\x00\xC0\x80", Reason::NotUtf8),
    (b"\x00\x01\x80", Reason::NotUtf8),
    (b"\x00\x02\xC0\x80", Reason::NotUtf8),
    (b"\x00\x03\xE0\x9F\xBF", Reason::NotUtf8),
    (b"\x00\x03\xED\xA0\x80", Reason::NotUtf8),
    (b"\x00\x03\xED\xBF\xBF", Reason::NotUtf8),
    (b"\x00\x04\xF0\x8F\xBF\xBF", Reason::NotUtf8),
    (b"\x00\x04\xF4\x90\x80\x80", Reason::NotUtf8),
    (b"\x00\x02\xE2\x82", Reason::NotUtf8),
    (b"\x00\x02\xE2\x82\xAC", Reason::NotUtf8),
];

// Whether no text is read from these bytes, for this reason, and the cursor stays where it is.
fn is_no_text(bytes: &[u8], reason: Reason) -> bool {
    let mut cursor = Cursor::new(bytes);
    fault(cursor.text()) == Some((0, reason)) && cursor.rest() == bytes
}

#[test]
fn refuses_texts(rt: HostRuntime) {
    for (bytes, reason) in &BAD_TEXTS {
        assert!(rt; is_no_text(bytes, *reason), "{bytes:?}");
    }
}

// Whether binary data and a pair are read one after the other, and then a pair is refused whole.
fn reads_in_turn(cursor: &mut Cursor<'_>) -> bool {
    cursor.binary() == Ok(b"\x00\xFF".as_slice())
        && cursor.pair() == Ok(("a", "bc"))
        && cursor.at() == 11
        && fault(cursor.pair()) == Some((11, Reason::Nul))
        && cursor.at() == 11
}

#[test]
fn reads_binary_and_pairs(rt: HostRuntime) {
    let bytes = b"\x00\x02\x00\xFF\x00\x01a\x00\x02bc\x00\x01a\x00\x01\x00";
    assert!(rt; reads_in_turn(&mut Cursor::new(bytes)));
}

#[test]
fn refuses_binary_and_pairs(rt: HostRuntime) {
    let both = fault(Cursor::new(b"\x00\x01\x00\x00\x01\xFF").pair());
    assert_eq!(rt; both, Some((0, Reason::Nul)));
    let cut = fault(Cursor::new(b"\x00\x02a").binary());
    assert_eq!(rt; cut, Some((0, Reason::Short)));
}

// Writes a field of each type but a varint.
fn put_fields(out: &mut Vec<u8>) -> Result<(), PutFault> {
    put_u8(out, 5)?;
    put_u16(out, 0x1234)?;
    put_u32(out, 0xDEAD_BEEF)?;
    put_binary(out, &[0, 255])?;
    put_text(out, "\u{20AC}")?;
    put_pair(out, "a", "bc")
}

// How they are spelled.
const FIELDS: &[u8] =
    b"\x05\x12\x34\xDE\xAD\xBE\xEF\x00\x02\x00\xFF\x00\x03\xE2\x82\xAC\x00\x01a\x00\x02bc";

// Whether they are written so, and nothing of a text or a pair with U+0000 after them.
fn are_fields_written(out: &mut Vec<u8>) -> bool {
    put_fields(out).is_ok()
        && out.as_slice() == FIELDS
        && put_text(out, "a\0").is_err()
        && put_pair(out, "a", "\0") == Err(PutFault::Nul)
        && out.len() == FIELDS.len()
}

#[test]
fn writes_fields(rt: HostRuntime) {
    let mut out = Vec::new(rt.alloc());
    assert!(rt; are_fields_written(&mut out));
}

// Whether the longest text is written, and one more byte is not.
fn is_longest(out: &mut Vec<u8>, long: &str, longer: &str) -> bool {
    put_text(out, long).is_ok()
        && Cursor::new(out).text() == Ok(long)
        && put_text(out, longer) == Err(PutFault::TooLong)
        && put_binary(out, longer.as_bytes()) == Err(PutFault::TooLong)
        && put_pair(out, "\0", longer) == Err(PutFault::TooLong)
        && out.len() == 65_537
}

// Whether that holds of texts of `x`.
fn is_longest_written(alloc: Global) -> Result<bool, Fail> {
    let long = "x".repeat(alloc, 65_535)?;
    let longer = "x".repeat(alloc, 65_536)?;
    let mut out = Vec::new(alloc);
    Ok(is_longest(&mut out, long.as_str(), longer.as_str()))
}

#[test]
fn writes_long_texts(rt: HostRuntime) -> Result<(), Fail> {
    assert!(rt; is_longest_written(rt.alloc())?);
    Ok(())
}
