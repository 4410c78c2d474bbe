//! The examples in the documentation of the public calls, as they stand there.
use mq_display::*;
use mq_judge::*;
use std::test::Fail;

#[test]
fn judging_pieces(rt: HostRuntime) -> Result<(), Fail> {
    let mut judge = Judge::new(rt.alloc(), Options::default());
    judge.feed(b"MQTR\x01\x00\x01\x00\x01\x00")?;
    judge.feed(b"\x00\x00\x00\x04\x00\x00\x00\x00")?;
    assert!(rt; judge.role() == Some(Role::Client));
    let verdict = judge.finish()?;
    assert_eq!(rt; verdict.events, 2);
    assert!(rt; verdict.faults.is_empty());
    Ok(())
}

#[test]
fn judging_a_reader(rt: HostRuntime) -> Result<(), Fail> {
    let log = b"MQTR\x01\x00\x01\x00\x01\x00\x00\x00\x00";
    let mut report = Vec::new(rt.alloc());
    let outcome = run(
        rt.alloc(),
        &mut log.as_slice(),
        &mut report,
        Form::Text,
        Choice::Usual,
    )?;
    assert_eq!(rt; outcome, Outcome::Pass);
    assert_eq!(rt; report.as_slice(), b"pass 1 events\n".as_slice());
    Ok(())
}

#[test]
fn refusing_a_log(rt: HostRuntime) -> Result<(), Fail> {
    let nested = b"MQTR\x01\x00\x01\x00\x01\x00\x00\x00\x00\x01";
    let refused = judge_reader(rt.alloc(), &mut nested.as_slice(), Choice::Usual);
    assert!(rt; matches!(refused, Err(RunFault::Refused(Refusal::Nested(13)))));
    Ok(())
}

#[test]
fn showing_events(rt: HostRuntime) -> Result<(), Fail> {
    let log = b"MQTR\x01\x00\x01\x00\x01\x00\x00\x00\x00\x04\x00\x00\x00\x00";
    let mut lines = Vec::new(rt.alloc());
    show(rt.alloc(), &mut log.as_slice(), &mut lines)?;
    let shown = b"1 record 1 OPEN\n2 record 2 CLOSE\n";
    assert_eq!(rt; lines.as_slice(), shown.as_slice());
    Ok(())
}

#[test]
fn showing_moments(rt: HostRuntime) -> Result<(), Fail> {
    let log = b"MQTR\x02\x00\x01\x00\x01\x00\x00\x00\x00\x00\x00\x00\x00\x00\x00\x00\x07";
    let mut lines = Vec::new(rt.alloc());
    show(rt.alloc(), &mut log.as_slice(), &mut lines)?;
    let shown = b"1 record 1 moment 7 OPEN\n";
    assert_eq!(rt; lines.as_slice(), shown.as_slice());
    Ok(())
}

#[test]
fn naming_a_packet(rt: HostRuntime) -> Result<(), Fail> {
    let mut line = Vec::new(rt.alloc());
    assert!(rt; write_packet(b"\x40\x02\x00\x0a", &mut line)?);
    assert_eq!(rt; line.as_slice(), b"PUBACK size 4 id 10\n".as_slice());
    Ok(())
}
