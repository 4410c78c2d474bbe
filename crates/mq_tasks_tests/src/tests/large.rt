//! Logs that are larger than a buffer.
use mq_command::EarlyExit;
use mq_host::{PASSED, REFUSED};
use mq_tasks_harness::{CONNECTED, CONNECTED_LINES, add_record, printed_by};
use std::alloc::{AllocError, Global};
use std::fmt::Write as _;
use std::test::Fail;

// The first bytes of a PUBLISH of 2 MiB.
const LARGE_START: &[u8] = b"\x30\xfc\xff\x7f\x00\x01a\x00";

const LARGE_SIZE: usize = 2_097_152;

// In each of two records.
const PINGS: usize = 35_000;

// A log with a packet of 2 MiB in three records, the last of which has two bytes of it.
fn large_packet(alloc: Global) -> Result<Vec<u8>, AllocError> {
    let mut packet = Vec::new(alloc);
    packet.extend_from_slice(LARGE_START)?;
    packet.resize(LARGE_SIZE, b'x')?;
    let mut log = Vec::new(alloc);
    log.extend_from_slice(CONNECTED)?;
    for body in packet.chunks(1_048_575) {
        add_record(&mut log, 2, body)?;
    }
    Ok(log)
}

// A log with 70,000 PINGREQs in two records.
fn pings(alloc: Global) -> Result<Vec<u8>, AllocError> {
    let body = body_of_pings(alloc)?;
    let mut log = Vec::new(alloc);
    log.extend_from_slice(CONNECTED)?;
    add_record(&mut log, 2, body.as_slice())?;
    add_record(&mut log, 2, body.as_slice())?;
    Ok(log)
}

fn body_of_pings(alloc: Global) -> Result<Vec<u8>, AllocError> {
    let mut body = Vec::new(alloc);
    for _ping in 0..PINGS {
        body.extend_from_slice(b"\xc0\x00")?;
    }
    Ok(body)
}

// The lines of its events, and then this one.
fn lines_of_pings(alloc: Global, last: &str) -> Result<String, Fail> {
    let mut lines = String::new(alloc);
    lines.push_str(CONNECTED_LINES)?;
    for at in 0..2 * PINGS {
        writeln!(
            lines,
            "{} record {} SENT PINGREQ size 2",
            at + 4,
            at / PINGS + 4
        )?;
    }
    lines.push_str(last)?;
    Ok(lines)
}

// Whether this command, with this log, has this status, writes this, and reports nothing on the
// error stream.
fn does(
    alloc: Global,
    command: &str,
    log: &[u8],
    status: u8,
    text: &str,
) -> Result<bool, EarlyExit> {
    let printed = printed_by(alloc, &["mqjudge", command], &mut &log[..])?;
    Ok(printed.says(status, text))
}

// Whether a check of a log of 70,000 pings and one that is shown have this status, and write this
// last.
fn are_taken(
    alloc: Global,
    log: &[u8],
    status: u8,
    checked: &str,
    shown: &str,
) -> Result<bool, Fail> {
    let lines = lines_of_pings(alloc, shown)?;
    Ok(
        does(alloc, "check", log, status, checked)?
            && does(alloc, "show", log, status, lines.as_str())?,
    )
}

#[test]
fn takes_a_packet_of_2_mib_in_three_records(rt: HostRuntime) -> Result<(), Fail> {
    let log = large_packet(rt.alloc())?;
    let lines = format!(in rt.alloc();
        "{CONNECTED_LINES}4 record 6 SENT PUBLISH size 2097152 qos 0 dup 0\n"
    )?;
    assert!(rt; does(rt.alloc(), "check", &log, PASSED, "pass 4 events\n")?);
    assert!(rt; does(rt.alloc(), "show", &log, PASSED, lines.as_str())?);
    Ok(())
}

// These are more than a buffer has room for, and more than 65,536.
#[test]
fn takes_70_000_events(rt: HostRuntime) -> Result<(), Fail> {
    let log = pings(rt.alloc())?;
    assert!(rt; are_taken(rt.alloc(), &log, PASSED, "pass 70003 events\n", "")?);
    Ok(())
}

#[test]
fn refuses_a_second_connection_after_70_000_events(rt: HostRuntime) -> Result<(), Fail> {
    let mut log = pings(rt.alloc())?;
    add_record(&mut log, 1, b"")?;
    let refused = "refused 7 Nested at 140053\n";
    assert!(rt; are_taken(rt.alloc(), &log, REFUSED, refused, refused)?);
    Ok(())
}
