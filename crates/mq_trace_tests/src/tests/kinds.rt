//! Kinds of records, and the lengths that they may have.
use mq_log::RecordKind;

#[test]
fn a_kind_allows_its_lengths(rt: HostRuntime) {
    assert_eq!(rt; RecordKind::from_byte(6), Some(RecordKind::Release));
    assert!(rt; RecordKind::Recv.allows(1, 1_048_576));
    assert!(rt; !RecordKind::Recv.allows(1, 1_048_577));
    assert!(rt; RecordKind::Sent.allows(2, 16_777_216));
    assert!(rt; !RecordKind::Sent.allows(2, 16_777_217));
    assert!(rt; !RecordKind::Release.allows(1, 1));
    assert!(rt; !RecordKind::Rest.allows(2, 1));
    assert!(rt; !RecordKind::Release.needs_connection());
}
