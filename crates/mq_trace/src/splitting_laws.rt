//! How bytes are cut into records: laws of the definitions, each proved as the contract of a
//! function that does nothing.
ghost use Rattle.std.specs.Prelude.{◌≡◌, ℕ, ◌<◌, ◌≤◌, ◌^◌, List, [], ◌++◌, length, map};
ghost use Rattle.mq_log.specs.Framing.{records, header_by};
ghost use Rattle.mq_log.specs.Events.{events};
ghost use Rattle.mq_trace.specs.Writing.{sent_record, received_record, record_bytes};
ghost use Rattle.mq_trace.specs.Splitting.{but_record};

/// A SENT or RECV record may be split in two anywhere, whatever comes before and after it, if in
/// version 2 both parts have its moment: the events stay the same, in their order, at their
/// positions and with their moments, and only the numbers of their records change.
pub fn splitting_changes_record_numbers_alone()
    ensures sent { (before after a b : List ℕ) (moment : ℕ) → 8 ≤ length before → (records before).rest ≡ [] → length (a ++ b) < 2 ^ 32
        → map but_record (events (before ++ record_bytes (header_by before).version moment (sent_record (a ++ b)) ++ after)) ≡ map but_record (events (before ++ record_bytes (header_by before).version moment (sent_record a) ++ record_bytes (header_by before).version moment (sent_record b) ++ after)) }
    ensures received { (before after a b : List ℕ) (moment : ℕ) → 8 ≤ length before → (records before).rest ≡ [] → length (a ++ b) < 2 ^ 32
        → map but_record (events (before ++ record_bytes (header_by before).version moment (received_record (a ++ b)) ++ after)) ≡ map but_record (events (before ++ record_bytes (header_by before).version moment (received_record a) ++ record_bytes (header_by before).version moment (received_record b) ++ after)) }
{}
