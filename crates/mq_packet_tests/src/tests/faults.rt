//! The messages of the faults.

use mq_packet::*;
use std::alloc::Global;
use std::fmt::Write;
use std::test::Fail;

// Whether this is shown of a fault.
fn is_shown(alloc: Global, fault: DecodeFault, wanted: &str) -> Result<bool, Fail> {
    let mut text = String::new(alloc);
    write!(text, "{fault}")?;
    Ok(text.as_str() == wanted)
}

// Why a PUBLISH with the Packet Identifier 0 isn't read.
fn zero_identifier() -> Option<DecodeFault> {
    decode(0x32, &[0x00, 0x01, 0x61, 0x00, 0x00, 0x00]).err()
}

#[test]
fn a_broken_rule_is_shown(rt: HostRuntime) -> Result<(), Fail> {
    let broken = zero_identifier().ok_or("it is a packet")?;
    assert!(rt; is_shown(rt.alloc(), broken, "rule W09 is broken at byte 5")?);
    Ok(())
}

#[test]
fn another_version_is_shown(rt: HostRuntime) -> Result<(), Fail> {
    let other = DecodeFault::OtherVersion(4);
    assert!(rt; is_shown(rt.alloc(), other, "a CONNECT of protocol version 4")?);
    Ok(())
}

// Whether this is shown of a packet that can't be written.
fn is_cause(alloc: Global, fault: EncodeFault, wanted: &str) -> Result<bool, Fail> {
    let mut text = String::new(alloc);
    write!(text, "{fault}")?;
    Ok(text.as_str() == wanted)
}

#[test]
fn encoding_faults_show_their_cause(rt: HostRuntime) -> Result<(), Fail> {
    let long = "the Remaining Length would be over 268,435,455";
    assert!(rt; is_cause(rt.alloc(), EncodeFault::TooLong, long)?);
    let full = "the vector could not grow";
    assert!(rt; is_cause(rt.alloc(), EncodeFault::Memory, full)?);
    Ok(())
}
