//! The events of a log and the streams of its connections: laws of the definitions, each proved as
//! the contract of a function that does nothing.
ghost use Rattle.std.specs.Prelude.{◌≡◌, ℕ, List, Some};
ghost use Rattle.mq_log.specs.declared.kind.Direction.{Direction};
ghost use Rattle.mq_log.specs.declared.kind.Direction.TheVariants as directions;
ghost use Rattle.mq_log.specs.Framing.{ahead_in, begun_records, stream};
ghost use Rattle.mq_log.specs.Events.{UnfinishedPackets, closed, unfinished_in, event_at, events};
ghost use Rattle.mq_trace.specs.Joined.{opened_records, joined, connection_items, stream_items};

/// On each connection of a log and in each direction, the items of the events are, in order, those
/// of the frames of one stream: the joined bodies of the direction's records. `Lost` is the last
/// one exactly if the rest of that stream can't be parsed (MQTT 5.0, sections 2.1 and 1.5.5). It
/// doesn't matter whether the log is refused. A CONNECT of another protocol version is no item; a
/// log with one is refused.
pub fn events_are_what_streams_hold()
    ensures { (number : ℕ) (direction : Direction) (log : List ℕ) → connection_items number direction (events log) ≡ stream_items (stream (joined (ahead_in log) number direction (begun_records log))) }
{}

/// A CLOSE says what is left of its connection's stream in each direction after the stream's whole
/// frames. The stream is the joined bodies of the SENT records of that connection, or of its RECV
/// records (MQTT 5.0, section 2.1). Of a stream whose rest can't be parsed it says nothing. `log`
/// is all that comes before the last byte of the CLOSE.
pub fn closes_say_what_was_unfinished()
    ensures sent { (log : List ℕ) (byte : ℕ) (unfinished : UnfinishedPackets) → event_at log byte ≡ Some (closed unfinished)
        → unfinished.sent ≡ unfinished_in (joined (ahead_in log) (opened_records (begun_records log)) directions.Sent (begun_records log)) }
    ensures received { (log : List ℕ) (byte : ℕ) (unfinished : UnfinishedPackets) → event_at log byte ≡ Some (closed unfinished)
        → unfinished.received ≡ unfinished_in (joined (ahead_in log) (opened_records (begun_records log)) directions.Recv (begun_records log)) }
{}
