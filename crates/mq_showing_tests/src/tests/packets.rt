//! `packet`.
use mq_command::EarlyExit;
use mq_host::{FAILED, FAULTY, MISUSED, Misuse, NoText, PASSED, read_text};
use mq_tasks_harness::{
    Narrow, Printed, Trickle, is_failed_write, is_written, printed_by, status_by,
};
use std::alloc::Global;
use std::io;
use std::io::Cursor;
use std::test::Fail;

// The digits of some bytes, and the line on them.
struct Row {
    hex: &'static str,
    line: &'static str,
    status: u8,
}

static ROWS: [Row; 48] = [
    Row {
        hex: "320700016100010078",
        line: "PUBLISH size 9 qos 1 dup 0 id 1\n",
        status: PASSED,
    },
    Row {
        hex: "41020001",
        line: "BAD W01 offset 0\n",
        status: FAULTY,
    },
    Row {
        hex: "0000",
        line: "BAD W02 offset 0\n",
        status: FAULTY,
    },
    Row {
        hex: "3006000161800078",
        line: "BAD W03 offset 5\n",
        status: FAULTY,
    },
    Row {
        hex: "30040001FF00",
        line: "BAD W04 offset 2\n",
        status: FAULTY,
    },
    Row {
        hex: "300400010000",
        line: "BAD W05 offset 2\n",
        status: FAULTY,
    },
    Row {
        hex: "C00100",
        line: "BAD W06 offset 2\n",
        status: FAULTY,
    },
    Row {
        hex: "360700016100010078",
        line: "BAD W07 offset 0\n",
        status: FAULTY,
    },
    Row {
        hex: "38050001610078",
        line: "BAD W08 offset 0\n",
        status: FAULTY,
    },
    Row {
        hex: "30080001610321000178",
        line: "BAD W10 offset 6\n",
        status: FAULTY,
    },
    Row {
        hex: "3009000161040100010078",
        line: "BAD W11 offset 8\n",
        status: FAULTY,
    },
    Row {
        hex: "30080001610323000078",
        line: "BAD W12 offset 7\n",
        status: FAULTY,
    },
    Row {
        hex: "4003000101",
        line: "BAD W13 offset 4\n",
        status: FAULTY,
    },
    Row {
        hex: "300400012300",
        line: "BAD W14 offset 2\n",
        status: FAULTY,
    },
    Row {
        hex: "82080001000002612300",
        line: "BAD W15 offset 5\n",
        status: FAULTY,
    },
    Row {
        hex: "8203000100",
        line: "BAD W16 offset 5\n",
        status: FAULTY,
    },
    Row {
        hex: "820700010000016103",
        line: "BAD W17 offset 8\n",
        status: FAULTY,
    },
    Row {
        hex: "100D00044D5154580502003C000000",
        line: "BAD W18 offset 2\n",
        status: FAULTY,
    },
    Row {
        hex: "100D00044D5154540503003C000000",
        line: "BAD W19 offset 9\n",
        status: FAULTY,
    },
    Row {
        hex: "2003020000",
        line: "BAD W20 offset 2\n",
        status: FAULTY,
    },
    Row {
        hex: "300400000078",
        line: "BAD W21 offset 4\n",
        status: FAULTY,
    },
    Row {
        hex: "100C00044D5154540402003C0000",
        line: "other version 4\n",
        status: FAULTY,
    },
    Row {
        hex: "30FFFFFFFF",
        line: "LOST\n",
        status: FAULTY,
    },
    Row {
        hex: "D00000",
        line: "left over 1 bytes\n",
        status: FAULTY,
    },
    Row {
        hex: "",
        line: "need more bytes\n",
        status: FAULTY,
    },
    Row {
        hex: "4002",
        line: "need more bytes\n",
        status: FAULTY,
    },
    Row {
        hex: "40020001",
        line: "PUBACK size 4 id 1\n",
        status: PASSED,
    },
    Row {
        hex: "40020000",
        line: "BAD W09 offset 2\n",
        status: FAULTY,
    },
    // Bytes after a frame are reported, whatever the frame holds; a frame may have any size; and
    // each of the fifteen packets.
    Row {
        hex: "41020001FFFF",
        line: "left over 2 bytes\n",
        status: FAULTY,
    },
    Row {
        hex: "100C00044D5154540402003C000000",
        line: "left over 1 bytes\n",
        status: FAULTY,
    },
    Row {
        hex: "30FFFFFF7F",
        line: "need more bytes\n",
        status: FAULTY,
    },
    Row {
        hex: "30",
        line: "need more bytes\n",
        status: FAULTY,
    },
    Row {
        hex: "3080",
        line: "need more bytes\n",
        status: FAULTY,
    },
    Row {
        hex: "100D00044D5154540502003C000000",
        line: "CONNECT size 15\n",
        status: PASSED,
    },
    Row {
        hex: "2003000000",
        line: "CONNACK size 5\n",
        status: PASSED,
    },
    Row {
        hex: "30050001610078",
        line: "PUBLISH size 7 qos 0 dup 0\n",
        status: PASSED,
    },
    Row {
        hex: "3C07000161FFFF0078",
        line: "PUBLISH size 9 qos 2 dup 1 id 65535\n",
        status: PASSED,
    },
    Row {
        hex: "50020001",
        line: "PUBREC size 4 id 1\n",
        status: PASSED,
    },
    Row {
        hex: "62020001",
        line: "PUBREL size 4 id 1\n",
        status: PASSED,
    },
    Row {
        hex: "70020001",
        line: "PUBCOMP size 4 id 1\n",
        status: PASSED,
    },
    Row {
        hex: "820700010000016100",
        line: "SUBSCRIBE size 9 id 1\n",
        status: PASSED,
    },
    Row {
        hex: "900400010000",
        line: "SUBACK size 6 id 1\n",
        status: PASSED,
    },
    Row {
        hex: "A206000100000161",
        line: "UNSUBSCRIBE size 8 id 1\n",
        status: PASSED,
    },
    Row {
        hex: "B00400010000",
        line: "UNSUBACK size 6 id 1\n",
        status: PASSED,
    },
    Row {
        hex: "c000",
        line: "PINGREQ size 2\n",
        status: PASSED,
    },
    Row {
        hex: "d000",
        line: "PINGRESP size 2\n",
        status: PASSED,
    },
    Row {
        hex: "e000",
        line: "DISCONNECT size 2\n",
        status: PASSED,
    },
    Row {
        hex: "F0021800",
        line: "AUTH size 4\n",
        status: PASSED,
    },
];

fn printed_of_packet(alloc: Global, hex: &str) -> Result<Printed, EarlyExit> {
    printed_by(alloc, &["mqjudge", "packet", hex], &mut io::empty())
}

#[test]
fn says_which_packet_bytes_are(rt: HostRuntime) -> Result<(), Fail> {
    for row in &ROWS {
        let printed = printed_of_packet(rt.alloc(), row.hex)?;
        assert!(rt; printed.says(row.status, row.line), "{}", row.hex);
    }
    Ok(())
}

// Texts that spell no bytes, and what is said of each.
const ODD: [(&str, &str); 16] = [
    ("4", "mqjudge: a digit is missing after character 1, `4`\n"),
    (
        "400",
        "mqjudge: a digit is missing after character 3, `0`\n",
    ),
    (
        "40 020",
        "mqjudge: a digit is missing after character 6, `0`\n",
    ),
    (
        "0x40 0x0\n",
        "mqjudge: character 9, byte 0x0A, is no hexadecimal digit\n",
    ),
    (
        "0x40,0x0",
        "mqjudge: a digit is missing after character 8, `0`\n",
    ),
    ("4g", "mqjudge: character 2, `g`, is no hexadecimal digit\n"),
    (
        "40 02 g0",
        "mqjudge: character 7, `g`, is no hexadecimal digit\n",
    ),
    (
        "40:02:0:01",
        "mqjudge: character 8, `:`, is no hexadecimal digit\n",
    ),
    (
        "4 00",
        "mqjudge: character 2, ` `, is no hexadecimal digit\n",
    ),
    (
        "4,0",
        "mqjudge: character 2, `,`, is no hexadecimal digit\n",
    ),
    (
        "4\t0",
        "mqjudge: character 2, byte 0x09, is no hexadecimal digit\n",
    ),
    (
        "40 é0",
        "mqjudge: character 4, byte 0xC3, is no hexadecimal digit\n",
    ),
    (
        "x40",
        "mqjudge: character 1, `x`, is no hexadecimal digit\n",
    ),
    (
        "400x0",
        "mqjudge: a digit is missing after character 5, `0`\n",
    ),
    (
        "40-02-00-01",
        "mqjudge: character 3, `-`, is no hexadecimal digit\n",
    ),
    (
        "40\u{7f}",
        "mqjudge: character 3, byte 0x7F, is no hexadecimal digit\n",
    ),
];

#[test]
fn says_what_is_odd_in_digits(rt: HostRuntime) -> Result<(), Fail> {
    for (hex, message) in ODD {
        let printed = printed_of_packet(rt.alloc(), hex)?;
        assert!(rt; printed.complains(MISUSED, message), "{hex}");
    }
    Ok(())
}

// The words of a PUBACK, whose digits are written in all ways.
const WRITTEN: [&[&str]; 17] = [
    &["mqjudge", "packet", "40 02 00 01"],
    &["mqjudge", "packet", "40", "02", "00", "01"],
    &["mqjudge", "packet", "4002", "0001"],
    &["mqjudge", "packet", "  4002 00  01 "],
    &["mqjudge", "packet", "40 02", "", "00 01"],
    &["mqjudge", "packet", "0x40 0x02 0x00 0x01"],
    &["mqjudge", "packet", "0x40", "0x02", "0X00", "0x01"],
    &["mqjudge", "packet", "0x40020001"],
    &["mqjudge", "packet", "0X40020001"],
    &["mqjudge", "packet", "0x400x020x000x01"],
    &["mqjudge", "packet", "40:02:00:01"],
    &["mqjudge", "packet", "40,02,00,01"],
    &["mqjudge", "packet", "0x40, 0x02, 0x00, 0x01"],
    &["mqjudge", "packet", "0x40,", "0x02,", "0x00,", "0x01,"],
    &["mqjudge", "packet", "40\t02\t00\t01"],
    &["mqjudge", "packet", "40 02\n00 01\n"],
    &["mqjudge", "packet", "\r\n40:02:\r\n00:01\r\n"],
];

#[test]
fn takes_digits_as_they_are_written(rt: HostRuntime) -> Result<(), Fail> {
    for words in WRITTEN {
        let printed = printed_by(rt.alloc(), words, &mut Trickle::of(b"", Some(0)))?;
        assert!(rt; printed.says(PASSED, "PUBACK size 4 id 1\n"), "{words:?}");
    }
    Ok(())
}

#[test]
fn takes_capital_and_small_digits(rt: HostRuntime) -> Result<(), Fail> {
    for hex in [
        "f0021800",
        "F0021800",
        "0xF0,0x02,0x18,0x00",
        "0xf0:02:18:00",
    ] {
        let printed = printed_of_packet(rt.alloc(), hex)?;
        assert!(rt; printed.says(PASSED, "AUTH size 4\n"), "{hex}");
    }
    Ok(())
}

const DASH: [&str; 3] = ["mqjudge", "packet", "-"];

// What is on standard input, the status, and what is printed: on standard output if the status is 0
// or 1, else as a message.
const GIVEN: [(&[u8], u8, &str); 8] = [
    (b"40020001", PASSED, "PUBACK size 4 id 1\n"),
    (b"40 02 00 01\n", PASSED, "PUBACK size 4 id 1\n"),
    (
        b"0x40, 0x02,\r\n0x00, 0x01\r\n",
        PASSED,
        "PUBACK size 4 id 1\n",
    ),
    (b"41:02:00:01\n", FAULTY, "BAD W01 offset 0\n"),
    (b"", FAULTY, "need more bytes\n"),
    (b"\n", FAULTY, "need more bytes\n"),
    (
        b"40 02\n0g",
        MISUSED,
        "mqjudge: character 8, `g`, is no hexadecimal digit\n",
    ),
    (
        b"\x40\x02\x00\x01",
        MISUSED,
        "mqjudge: character 1, `@`, is no hexadecimal digit\n",
    ),
];

#[test]
fn reads_digits_from_standard_input(rt: HostRuntime) -> Result<(), Fail> {
    for (text, status, line) in GIVEN {
        let whole = printed_by(rt.alloc(), &DASH, &mut &text[..])?;
        let pieces = printed_by(rt.alloc(), &DASH, &mut Trickle::of(text, None))?;
        assert!(rt;
            is_said(&whole, status, line) && is_said(&pieces, status, line),
            "{line}"
        );
    }
    Ok(())
}

// Whether it ended with this status, and said this where that belongs.
fn is_said(printed: &Printed, status: u8, text: &str) -> bool {
    if status < MISUSED {
        printed.says(status, text)
    } else {
        printed.complains(status, text)
    }
}

#[test]
fn reports_standard_input_that_fails(rt: HostRuntime) -> Result<(), Fail> {
    for after in [0, 4, 8] {
        let mut input = Trickle::of(b"40020001", Some(after));
        let printed = printed_by(rt.alloc(), &DASH, &mut input)?;
        assert!(rt;
            printed.complains(FAILED, "mqjudge: read failed\n"),
            "{after}"
        );
    }
    Ok(())
}

#[test]
fn takes_only_so_much_text(rt: HostRuntime) -> Result<(), Fail> {
    let text = b"40020001";
    let whole = read_text(rt.alloc(), &mut &text[..], 8);
    assert!(rt; matches!(&whole, Ok(read) if read.as_slice() == &text[..]));
    let more = read_text(rt.alloc(), &mut &text[..], 7);
    assert!(rt; matches!(&more, Err(NoText::TooLong)));
    let mut error = Vec::new(rt.alloc());
    assert_eq!(rt; Misuse::TooLong.report(rt.alloc(), &mut error), MISUSED);
    let line =
        b"mqjudge: standard input has more than 134217728 bytes, the most that packet takes\n";
    assert!(rt; error.as_slice() == &line[..]);
    Ok(())
}

#[test]
fn reports_a_packet_line_that_fails(rt: HostRuntime) -> Result<(), Fail> {
    let words = ["mqjudge", "packet", "40020001"];
    for (room, stays) in [(0, false), (18, false), (19, true)] {
        let failed = is_failed_write(rt.alloc(), &words, b"", Narrow { room, stays })?;
        assert!(rt; failed, "{room} bytes");
    }
    Ok(())
}

// Digits, the status, and what is printed of them with `--long`.
const LONG: [(&str, u8, &str); 13] = [
    (
        "320700016100010078",
        PASSED,
        "PUBLISH size 9 qos 1 dup 0 id 1\n  retain 0 topic \"a\" payload 1\n",
    ),
    ("40020001", PASSED, "PUBACK size 4 id 1\n  code 0x00\n"),
    (
        "820700010000016101",
        PASSED,
        "SUBSCRIBE size 9 id 1\n  filter \"a\" qos 1 no-local 0 retain-as-published 0 retain-handling 0\n",
    ),
    ("c000", PASSED, "PINGREQ size 2\n"),
    ("d000", PASSED, "PINGRESP size 2\n"),
    (
        "320700016100000078",
        FAULTY,
        "BAD W09 offset 5\n\
        \x20 type PUBLISH bytes 32 07 00 01 61 [00] 00 00 78\n\
        \x20 W09 A Packet Identifier isn't 0.\n",
    ),
    (
        "41020001",
        FAULTY,
        "BAD W01 offset 0\n\
        \x20 type PUBACK bytes [41] 02 00 01\n\
        \x20 W01 The flags of a packet other than PUBLISH are those of its type.\n",
    ),
    (
        "30070002C328006869",
        FAULTY,
        "BAD W04 offset 2\n\
        \x20 type PUBLISH at 4 bytes 30 07 00 02 [C3] 28 00 68 69\n\
        \x20 W04 A text is well-formed UTF-8.\n",
    ),
    (
        "A20B0001000001610003232F62",
        FAULTY,
        "BAD W15 offset 8\n\
        \x20 type UNSUBSCRIBE at 10 bytes A2 0B 00 01 00 00 01 61 00 03 [23] 2F 62\n\
        \x20 W15 A Topic Filter is valid.\n",
    ),
    ("D00000", FAULTY, "left over 1 bytes\n"),
    ("", FAULTY, "need more bytes\n"),
    ("30FFFFFFFF", FAULTY, "LOST\n"),
    ("100C00044D5154540402003C0000", FAULTY, "other version 4\n"),
];

#[test]
fn says_more_of_a_packet(rt: HostRuntime) -> Result<(), Fail> {
    for (hex, status, lines) in LONG {
        let words = ["mqjudge", "packet", "--long", hex];
        let printed = printed_by(rt.alloc(), &words, &mut io::empty())?;
        assert!(rt; printed.says(status, lines), "{hex}");
        let read = ["mqjudge", "packet", "-", "--long"];
        let given = printed_by(rt.alloc(), &read, &mut hex.as_bytes())?;
        assert!(rt; given.says(status, lines), "{hex}");
    }
    Ok(())
}

#[test]
fn reports_long_lines_that_fail(rt: HostRuntime) -> Result<(), Fail> {
    let words = ["mqjudge", "packet", "--long", "40020001"];
    for (room, stays) in [
        (0, false),
        (18, false),
        (19, false),
        (30, false),
        (31, true),
    ] {
        let failed = is_failed_write(rt.alloc(), &words, b"", Narrow { room, stays })?;
        assert!(rt; failed, "{room} bytes");
    }
    Ok(())
}

// With each allocation failing in turn, the result is the packet's, or that memory ran out, and
// nothing else.
#[test]
fn reports_a_packet_without_memory(rt: HostRuntime) {
    let mut output = Cursor::new([0; 64]);
    let mut error = Cursor::new([0; 64]);
    let words = ["mqjudge", "packet", "40020001"];
    let status = status_by(rt.alloc(), &words, b"", &mut output, &mut error);
    let (line, complaint): (&[u8], &[u8]) = if status == PASSED {
        (b"PUBACK size 4 id 1\n", b"")
    } else {
        assert_eq!(rt; status, FAILED);
        (b"", b"mqjudge: out of memory\n")
    };
    assert!(rt; is_written(&output, line) && is_written(&error, complaint));
}
