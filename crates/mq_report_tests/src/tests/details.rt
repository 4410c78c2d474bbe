//! The details of packets, written out.
use super::harness::is_made_of;
use mq_display::{show_long, write_long_packet};
use std::alloc::{AllocError, Global};
use std::process::Abort;
use std::test::Fail;

// Whether these lines are written of these bytes: the first one, and then the rest.
fn is_written_as(alloc: Global, bytes: &[u8], parts: &[&str]) -> bool {
    let mut written = Vec::new(alloc);
    let answer = write_long_packet(bytes, &mut written);
    answer.is_ok() && is_made_of(written.as_slice(), parts)
}

// Whether a packet has this line, and on the next one these details, if there are any.
fn is_detailed_as(alloc: Global, bytes: &[u8], line: &str, details: &str) -> bool {
    if details.is_empty() {
        return is_written_as(alloc, bytes, &[line, "\n"]);
    }
    is_written_as(alloc, bytes, &[line, "\n ", details, "\n"])
}

// A packet, its line and its details.
type Detailed = (&'static [u8], &'static str, &'static str);

// Asserts that the packet of each row has these.
fn assert_detailed(rt: &(impl Abort + AllocGlobal), rows: &[Detailed]) {
    for (bytes, line, details) in rows {
        assert!(rt;
            is_detailed_as(rt.alloc(), bytes, line, details),
            "{details}"
        );
    }
}

#[rattlefmt::skip]
static DETAILED: [Detailed; 19] = [
    (
        b"\x10\x0d\x00\x04MQTT\x05\x02\x00<\x00\x00\x00",
        "CONNECT size 15",
        " client \"\" clean-start 1 keep-alive 60",
    ),
    (
        b"\x10\x6a\x00\x04MQTT\x05\xee\x00\x00&\x11\x00\x00\x00d!\x00\x14'\x00\x00\x10\x00\"\x00\x0a\x19\x01\x17\x00&\x00\x01n\x00\x01v\x15\x00\x01m\x16\x00\x04data\x00\x02id\x1f\x18\x00\x00\x00\x05\x01\x01\x02\x00\x00\x00\x07\x03\x00\x01t\x08\x00\x01r\x09\x00\x02cd&\x00\x00\x00\x01w\x00\x03w/t\x00\x03bye\x00\x01u\x00\x06secret",
        "CONNECT size 108",
        " client \"id\" clean-start 1 keep-alive 0 session-expiry-interval 100 receive-maximum 20 maximum-packet-size 4096 topic-alias-maximum 10 request-response-information 1 request-problem-information 0 user-property \"n\" \"v\" authentication-method \"m\" authentication-data 4 will-topic \"w/t\" will-payload 3 will-qos 1 will-retain 1 will-delay-interval 5 will-payload-format-indicator 1 will-message-expiry-interval 7 will-content-type \"t\" will-response-topic \"r\" will-correlation-data 2 will-user-property \"\" \"w\" user \"u\" password 6",
    ),
    (
        b"\x20\x06\x01\x00\x03!\x00\x14",
        "CONNACK size 8",
        " code 0x00 session-present 1 receive-maximum 20",
    ),
    (
        b"\x20\x23\x00\x9c $\x01%\x00\x12\x00\x02id(\x00)\x01*\x00\x13\xff\xff\x1a\x00\x01i\x1c\x00\x01s\x1f\x00\x03why",
        "CONNACK size 37",
        " code 0x9C session-present 0 maximum-qos 1 retain-available 0 assigned-client-identifier \"id\" wildcard-subscription-available 0 subscription-identifier-available 1 shared-subscription-available 0 server-keep-alive 65535 response-information \"i\" server-reference \"s\" reason-string \"why\"",
    ),
    (
        b"\x31\x25\x00\x01a \x01\x00\x02\xff\xff\xff\xff#\x00\x03\x08\x00\x01b\x09\x00\x00&\x00\x01k\x00\x01v\x0b\xff\xff\xff\x7f\x03\x00\x00x",
        "PUBLISH size 39 qos 0 dup 0",
        " retain 1 topic \"a\" payload 1 payload-format-indicator 0 message-expiry-interval 4294967295 topic-alias 3 response-topic \"b\" correlation-data 0 user-property \"k\" \"v\" subscription-identifier 268435455 content-type \"\"",
    ),
    (
        b"\x3c\x08\x00\x03a/b\x00\x07\x00",
        "PUBLISH size 10 qos 2 dup 1 id 7",
        " retain 0 topic \"a/b\" payload 0",
    ),
    (
        b"\x30\x0c\x00\x09\"\\\x0a\x1b\x7f\xc3\xa9~ \x00",
        "PUBLISH size 14 qos 0 dup 0",
        " retain 0 topic \"\\\"\\\\\\x0A\\x1B\\x7Fé~ \" payload 0",
    ),
    (
        b"\x40\x09\x00\x07\x10\x05\x1f\x00\x02no",
        "PUBACK size 11 id 7",
        " code 0x10 reason-string \"no\"",
    ),
    (
        b"\x50\x03\x00\x07\x80",
        "PUBREC size 5 id 7",
        " code 0x80",
    ),
    (
        b"\x62\x02\x00\x07",
        "PUBREL size 4 id 7",
        " code 0x00",
    ),
    (
        b"\x70\x0a\x00\x07\x92\x06&\x00\x01a\x00\x00",
        "PUBCOMP size 12 id 7",
        " code 0x92 user-property \"a\" \"\"",
    ),
    (
        b"\x82\x0f\x00\x07\x02\x0b\x05\x00\x03a/#\x01\x00\x01+.",
        "SUBSCRIBE size 17 id 7",
        " subscription-identifier 5 filter \"a/#\" qos 1 no-local 0 retain-as-published 0 retain-handling 0 filter \"+\" qos 2 no-local 1 retain-as-published 1 retain-handling 2",
    ),
    (
        b"\x90\x09\x00\x07\x04\x1f\x00\x01r\x01\x80",
        "SUBACK size 11 id 7",
        " reason-string \"r\" code 0x01 code 0x80",
    ),
    (
        b"\xa2\x12\x00\x07\x07&\x00\x01a\x00\x01b\x00\x01a\x00\x03b/c",
        "UNSUBSCRIBE size 20 id 7",
        " user-property \"a\" \"b\" filter \"a\" filter \"b/c\"",
    ),
    (
        b"\xb0\x05\x00\x07\x00\x00\x11",
        "UNSUBACK size 7 id 7",
        " code 0x00 code 0x11",
    ),
    (
        b"\xc0\x00",
        "PINGREQ size 2",
        "",
    ),
    (
        b"\xd0\x00",
        "PINGRESP size 2",
        "",
    ),
    (
        b"\xe0\x07\x04\x05\x11\x00\x00\x00\x00",
        "DISCONNECT size 9",
        " code 0x04 session-expiry-interval 0",
    ),
    (
        b"\xf0\x0a\x18\x08\x15\x00\x01m\x16\x00\x01\x01",
        "AUTH size 12",
        " code 0x18 authentication-method \"m\" authentication-data 1",
    ),
];

#[test]
#[rattlefmt::skip]
fn each_packet_has_its_details(rt: HostRuntime) {
    assert_detailed(&rt, &DETAILED);
}

// Whether a log is shown in long lines as this text.
fn is_shown_as(alloc: Global, log: &[u8], text: &str) -> bool {
    let mut reader = log;
    let mut shown = Vec::new(alloc);
    let answer = show_long(alloc, &mut reader, &mut shown);
    answer.is_ok() && shown.as_slice() == text.as_bytes()
}

// In the log of a client that records releases a direction is lost.
#[test]
fn nothing_is_said_of_other_events(rt: HostRuntime) {
    let log = b"MQTR\x01\x00\x01\x00\
        \x01\x00\x00\x00\x00\
        \x05\x00\x00\x00\x00\
        \x06\x00\x00\x00\x02\x00\x07\
        \x03\x00\x00\x00\x05\x30\xff\xff\xff\xff";
    let text = "1 record 1 OPEN\n2 record 2 REST\n3 record 3 RELEASE 7\n4 record 4 RECV LOST\n";
    assert!(rt; is_shown_as(rt.alloc(), log, text));
}

// Logs, and their long lines.
#[rattlefmt::skip]
static CLOSED: [(&[u8], &str); 4] = [
    (
        b"MQTR\x01\x00\x00\x00\x01\x00\x00\x00\x00\
        \x04\x00\x00\x00\x00",
        "1 record 1 OPEN\n2 record 2 CLOSE\n",
    ),
    (
        b"MQTR\x01\x00\x00\x00\x01\x00\x00\x00\x00\
        \x02\x00\x00\x00\x03\x30\x0d\x00\
        \x04\x00\x00\x00\x00",
        "1 record 1 OPEN\n2 record 3 CLOSE unfinished sent type PUBLISH size 3 bytes 30 0D 00\n",
    ),
    (
        b"MQTR\x01\x00\x00\x00\x01\x00\x00\x00\x00\
        \x03\x00\x00\x00\x01\xf0\
        \x04\x00\x00\x00\x00",
        "1 record 1 OPEN\n2 record 3 CLOSE unfinished received type AUTH size 1 bytes F0\n",
    ),
    (
        b"MQTR\x01\x00\x00\x00\x01\x00\x00\x00\x00\
        \x02\x00\x00\x00\x01\x32\
        \x03\x00\x00\x00\x02\x40\x02\
        \x04\x00\x00\x00\x00",
        "1 record 1 OPEN\n2 record 4 CLOSE unfinished sent type PUBLISH size 1 bytes 32 unfinished received type PUBACK size 2 bytes 40 02\n",
    ),
];

#[test]
#[rattlefmt::skip]
fn a_close_has_what_it_leaves_unfinished(rt: HostRuntime) {
    for (log, text) in &CLOSED {
        assert!(rt; is_shown_as(rt.alloc(), log, text), "{text}");
    }
}

const W01: &str = "W01 The flags of a packet other than PUBLISH are those of its type.";

const W02: &str = "W02 The type isn't 0.";

const W04: &str = "W04 A text is well-formed UTF-8.";

const W05: &str = "W05 A text doesn't contain U+0000.";

const W06: &str = "W06 Each field ends within its packet or list, and no bytes are left over.";

const W07: &str = "W07 The QoS of a PUBLISH isn't 3.";

const W09: &str = "W09 A Packet Identifier isn't 0.";

const W10: &str = "W10 A property is known, and allowed in its list.";

const W13: &str = "W13 A Reason Code is one that its packet may have.";

const W14: &str = "W14 A Topic Name, and the Response Topic of a PUBLISH, has no wildcard.";

const W15: &str = "W15 A Topic Filter is valid.";

// Whether bytes that break a rule have this line, these words on the next one, and then their
// statement.
fn is_broken_as(alloc: Global, bytes: &[u8], line: &str, words: &str, statement: &str) -> bool {
    is_written_as(alloc, bytes, &[line, "\n ", words, "\n  ", statement, "\n"])
}

// Bytes that break a rule, with their line, the words on the next one, and the statement.
type Broken = (&'static [u8], &'static str, &'static str, &'static str);

// Asserts that the bytes of each row have these.
fn assert_broken(rt: &(impl Abort + AllocGlobal), rows: &[Broken]) {
    for (bytes, line, words, statement) in rows {
        assert!(rt;
            is_broken_as(rt.alloc(), bytes, line, words, statement),
            "{words}"
        );
    }
}

#[rattlefmt::skip]
static OF_EACH_TYPE: [Broken; 18] = [
    (b"\x00\x00", "BAD W02 offset 0", " type Reserved bytes [00] 00", W02),
    (b"\x11\x00", "BAD W01 offset 0", " type CONNECT bytes [11] 00", W01),
    (b"\x20\x03\x00\x01\x00", "BAD W13 offset 3", " type CONNACK bytes 20 03 00 [01] 00", W13),
    (b"\x32\x01\x00", "BAD W06 offset 2", " type PUBLISH bytes 32 01 [00]", W06),
    (b"\x40\x02\x00\x00", "BAD W09 offset 2", " type PUBACK bytes 40 02 [00] 00", W09),
    (b"\x51\x00", "BAD W01 offset 0", " type PUBREC bytes [51] 00", W01),
    (b"\x6F\x00", "BAD W01 offset 0", " type PUBREL bytes [6F] 00", W01),
    (b"\x71\x00", "BAD W01 offset 0", " type PUBCOMP bytes [71] 00", W01),
    (b"\x80\x00", "BAD W01 offset 0", " type SUBSCRIBE bytes [80] 00", W01),
    (b"\x91\x00", "BAD W01 offset 0", " type SUBACK bytes [91] 00", W01),
    (b"\xA0\x00", "BAD W01 offset 0", " type UNSUBSCRIBE bytes [A0] 00", W01),
    (b"\xB1\x00", "BAD W01 offset 0", " type UNSUBACK bytes [B1] 00", W01),
    (b"\xC1\x00", "BAD W01 offset 0", " type PINGREQ bytes [C1] 00", W01),
    (b"\xD1\x00", "BAD W01 offset 0", " type PINGRESP bytes [D1] 00", W01),
    (b"\xE1\x00", "BAD W01 offset 0", " type DISCONNECT bytes [E1] 00", W01),
    (b"\xF1\x00", "BAD W01 offset 0", " type AUTH bytes [F1] 00", W01),
    // The packet ends before the field, or right after its first byte.
    (b"\x40\x00", "BAD W06 offset 2", " type PUBACK bytes 40 00 []", W06),
    (b"\x40\x01\x00", "BAD W06 offset 2", " type PUBACK bytes 40 01 [00]", W06),
];

#[test]
#[rattlefmt::skip]
fn a_packet_that_breaks_a_rule_has_its_type_and_its_bytes(rt: HostRuntime) {
    assert_broken(&rt, &OF_EACH_TYPE);
}

// Their bytes mostly count on from 0x30, so that it is seen which ones are shown.
#[rattlefmt::skip]
static LONG: [Broken; 5] = [
    (b"6>23456789:;<=>?@ABCDEFGHIJKLMNOPQRSTUVWXYZ[\\]^_`abcdefghijklmno", "BAD W07 offset 0", " type PUBLISH bytes [36] 3E 32 33 34 35 36 37 38 39 3A 3B 3C 3D 3E 3F 40 41 42 43 44 45 46 47 48 49 4A 4B 4C 4D 4E 4F 50 51 52 53 54 55 56 57 58 59 5A 5B 5C 5D 5E 5F 60 61 62 63 64 65 66 67 68 69 6A 6B 6C 6D 6E 6F", W07),
    (b"0?\x00:456789:;<=>?@ABCDEFGHIJKLMNOPQRSTUVWXYZ[\\]^_`abcdefghijklm\x02op", "BAD W10 offset 63", " type PUBLISH bytes 30 3F 00 3A 34 35 36 37 38 39 3A 3B 3C 3D 3E 3F 40 41 42 43 44 45 46 47 48 49 4A 4B 4C 4D 4E 4F 50 51 52 53 54 55 56 57 58 59 5A 5B 5C 5D 5E 5F 60 61 62 63 64 65 66 67 68 69 6A 6B 6C 6D 02 [6F] ..", W10),
    (b"0?\x00;456789:;<=>?@ABCDEFGHIJKLMNOPQRSTUVWXYZ[\\]^_`abcdefghijklmn\x01p", "BAD W10 offset 64", " type PUBLISH bytes .. 50 51 52 53 54 55 56 57 58 59 5A 5B 5C 5D 5E 5F 60 61 62 63 64 65 66 67 68 69 6A 6B 6C 6D 6E 01 [70]", W10),
    (b"0>\x00<456789:;<=>?@ABCDEFGHIJKLMNOPQRSTUVWXYZ[\\]^_`abcdefghijklmno", "BAD W06 offset 64", " type PUBLISH bytes .. 50 51 52 53 54 55 56 57 58 59 5A 5B 5C 5D 5E 5F 60 61 62 63 64 65 66 67 68 69 6A 6B 6C 6D 6E 6F []", W06),
    (b"0\xc5\x01\x00^56789:;<=>?@ABCDEFGHIJKLMNOPQRSTUVWXYZ[\\]^_`abcdefghijklmno0123456789:;<=>?@ABCDEFGHIJKLMNOPQRd\x94UVWXYZ[\\]^_`abcdefghijklmno0123456789:;<=>?@ABCDEFGHIJKLMNOPQRSTUVWXYZ[\\]^_`abcdefghijklmno01234567", "BAD W10 offset 100", " type PUBLISH bytes .. 34 35 36 37 38 39 3A 3B 3C 3D 3E 3F 40 41 42 43 44 45 46 47 48 49 4A 4B 4C 4D 4E 4F 50 51 52 64 [94] 55 56 57 58 59 5A 5B 5C 5D 5E 5F 60 61 62 63 64 65 66 67 68 69 6A 6B 6C 6D 6E 6F 30 31 32 33 ..", W10),
];

#[test]
#[rattlefmt::skip]
fn of_a_long_packet_at_most_64_bytes_are_shown(rt: HostRuntime) {
    assert_broken(&rt, &LONG);
}

#[rattlefmt::skip]
static OF_TEXTS: [Broken; 21] = [
    // Not UTF-8: an odd byte, a surrogate, and a character that is cut.
    (b"0\x05\x00\x02\xc3(\x00", "BAD W04 offset 2", " type PUBLISH at 4 bytes 30 05 00 02 [C3] 28 00", W04),
    (b"0\x07\x00\x04a\xed\xa0\x80\x00", "BAD W04 offset 2", " type PUBLISH at 5 bytes 30 07 00 04 61 [ED] A0 80 00", W04),
    (b"0\x07\x00\x04ab\xe2\x82\x00", "BAD W04 offset 2", " type PUBLISH at 6 bytes 30 07 00 04 61 62 [E2] 82 00", W04),
    // In a Will Topic.
    (b"\x10\x15\x00\x04MQTT\x05\x06\x00<\x00\x00\x00\x00\x00\x03w\xc0t\x00\x00", "BAD W04 offset 16", " type CONNECT at 19 bytes 10 15 00 04 4D 51 54 54 05 06 00 3C 00 00 00 00 00 03 77 [C0] 74 00 00", W04),
    // U+0000, and then another one.
    (b"0\x07\x00\x04a\x00b\x00\x00", "BAD W05 offset 2", " type PUBLISH at 5 bytes 30 07 00 04 61 [00] 62 00 00", W05),
    // In the first and in the second text of a User Property.
    (b"0\x0b\x00\x01a\x07&\x00\x01\x00\x00\x01v", "BAD W05 offset 7", " type PUBLISH at 9 bytes 30 0B 00 01 61 07 26 00 01 [00] 00 01 76", W05),
    (b"0\x0c\x00\x01a\x08&\x00\x01n\x00\x02v\xff", "BAD W04 offset 7", " type PUBLISH at 13 bytes 30 0C 00 01 61 08 26 00 01 6E 00 02 76 [FF]", W04),
    (b"0\x0c\x00\x01a\x08&\x00\x01n\x00\x02v\x00", "BAD W05 offset 7", " type PUBLISH at 13 bytes 30 0C 00 01 61 08 26 00 01 6E 00 02 76 [00]", W05),
    // A wildcard in a Topic Name and in a Response Topic.
    (b"0\x08\x00\x05a/+/#\x00", "BAD W14 offset 2", " type PUBLISH at 6 bytes 30 08 00 05 61 2F [2B] 2F 23 00", W14),
    (b"0\x0a\x00\x01a\x06\x08\x00\x03r/#", "BAD W14 offset 7", " type PUBLISH at 11 bytes 30 0A 00 01 61 06 08 00 03 72 2F [23]", W14),
    // The first wildcard that is misplaced, after others that aren't.
    (b"\x82\x0c\x00\x01\x00\x00\x06a/b+/c\x00", "BAD W15 offset 5", " type SUBSCRIBE at 10 bytes 82 0C 00 01 00 00 06 61 2F 62 [2B] 2F 63 00", W15),
    (b"\x82\x0b\x00\x01\x00\x00\x05+/#/c\x00", "BAD W15 offset 5", " type SUBSCRIBE at 9 bytes 82 0B 00 01 00 00 05 2B 2F [23] 2F 63 00", W15),
    (b"\x82\x0c\x00\x01\x00\x00\x06+/+c/#\x00", "BAD W15 offset 5", " type SUBSCRIBE at 9 bytes 82 0C 00 01 00 00 06 2B 2F [2B] 63 2F 23 00", W15),
    (b"\x82\x09\x00\x01\x00\x00\x03/#b\x00", "BAD W15 offset 5", " type SUBSCRIBE at 8 bytes 82 09 00 01 00 00 03 2F [23] 62 00", W15),
    (b"\x82\x0a\x00\x01\x00\x00\x04+/##\x00", "BAD W15 offset 5", " type SUBSCRIBE at 9 bytes 82 0A 00 01 00 00 04 2B 2F [23] 23 00", W15),
    // In the second filter of an UNSUBSCRIBE.
    (b"\xa2\x0b\x00\x01\x00\x00\x01a\x00\x03#/b", "BAD W15 offset 8", " type UNSUBSCRIBE at 10 bytes A2 0B 00 01 00 00 01 61 00 03 [23] 2F 62", W15),
    // An empty filter has no byte, so its length is marked; so is that of a text that isn't
    // whole.
    (b"\x82\x06\x00\x01\x00\x00\x00\x00", "BAD W15 offset 5", " type SUBSCRIBE bytes 82 06 00 01 00 [00] 00 00", W15),
    (b"\x82\x0b\x00\x01\x00\x00\x00\x00\x00\x02+b\x00", "BAD W15 offset 5", " type SUBSCRIBE bytes 82 0B 00 01 00 [00] 00 00 00 02 2B 62 00", W15),
    (b"0\x04\x00\x05a\x00", "BAD W06 offset 2", " type PUBLISH bytes 30 04 [00] 05 61 00", W06),
    (b"0\x01\x00", "BAD W06 offset 2", " type PUBLISH bytes 30 01 [00]", W06),
    // Another rule isn't on a text.
    (b"\x40\x07\x00\x07\x00\x00\x00\x01\x00", "BAD W06 offset 6", " type PUBACK bytes 40 07 00 07 00 00 [00] 01 00", W06),
];

#[test]
#[rattlefmt::skip]
fn what_is_wrong_in_a_text_is_marked(rt: HostRuntime) {
    assert_broken(&rt, &OF_TEXTS);
}

// A PUBLISH whose topic has 120 bytes, with a U+0000 after 90.
fn with_far_nul(alloc: Global) -> Result<Vec<u8>, AllocError> {
    let mut bytes = Vec::new(alloc);
    bytes.extend_from_slice(b"\x30\x7b\x00\x78")?;
    for place in 0..120 {
        let byte = if place == 90 { 0 } else { b'z' };
        bytes.push(byte)?;
    }
    bytes.push(0)?;
    Ok(bytes)
}

// Whether it has these words.
fn is_far_nul_broken_as(alloc: Global, words: &str) -> Result<bool, AllocError> {
    let bytes = with_far_nul(alloc)?;
    Ok(is_broken_as(alloc, bytes.as_slice(), "BAD W05 offset 2", words, W05))
}

#[test]
#[rattlefmt::skip]
fn the_bytes_around_the_mark_are_shown(rt: HostRuntime) -> Result<(), Fail> {
    let text = " type PUBLISH at 94 bytes .. 7A 7A 7A 7A 7A 7A 7A 7A 7A 7A 7A 7A 7A 7A 7A 7A 7A 7A 7A 7A 7A 7A 7A 7A 7A 7A 7A 7A 7A 7A 7A 7A [00] 7A 7A 7A 7A 7A 7A 7A 7A 7A 7A 7A 7A 7A 7A 7A 7A 7A 7A 7A 7A 7A 7A 7A 7A 7A 7A 7A 7A 7A 00";
    assert!(rt; is_far_nul_broken_as(rt.alloc(), text)?);
    Ok(())
}

// A PUBLISH with a topic of 65,535 quotes.
fn with_quotes(alloc: Global) -> Result<Vec<u8>, AllocError> {
    let mut bytes = Vec::new(alloc);
    bytes.extend_from_slice(b"\x30\x82\x80\x04\xff\xff")?;
    for _ in 0..65_535 {
        bytes.push(b'"')?;
    }
    bytes.push(0)?;
    Ok(bytes)
}

// The lines that are to be written of it.
fn lines_of_quotes(alloc: Global) -> Result<Vec<u8>, AllocError> {
    let mut lines = Vec::new(alloc);
    lines.extend_from_slice(b"PUBLISH size 65542 qos 0 dup 0\n  retain 0 topic \"")?;
    for _ in 0..65_535 {
        lines.extend_from_slice(b"\\\"")?;
    }
    lines.extend_from_slice(b"\" payload 0\n")?;
    Ok(lines)
}

// Whether they are.
fn are_quotes_written(alloc: Global) -> Result<bool, AllocError> {
    let bytes = with_quotes(alloc)?;
    let lines = lines_of_quotes(alloc)?;
    let mut written = Vec::new(alloc);
    let answer = write_long_packet(bytes.as_slice(), &mut written);
    Ok(answer.is_ok() && written.as_slice() == lines.as_slice())
}

#[test]
fn a_text_may_be_longer_than_what_waits(rt: HostRuntime) -> Result<(), Fail> {
    assert!(rt; are_quotes_written(rt.alloc())?);
    Ok(())
}
