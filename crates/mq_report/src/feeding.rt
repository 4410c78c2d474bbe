//! Feeding a log from a reader to what stops for refusals alone.
ghost use Rattle.std.specs.Prelude.{◌≡◌, ◌*◌, ◌<◌, ◌≤◌, [], ℕ, OnOk, IfErr, length};
ghost use Rattle.mq_trace.specs.Feeding.{FedAll, TakesAtMost};
ghost use Rattle.mq_report.specs.Stopping.{FedBefore};

use mq_log::Refusal;
use mq_trace::{Feed, feed_all};
use std::io::Read;

/// The largest packet that is read by default, in bytes.
pub const DEFAULT_LIMIT: u32 = 16_777_216;

/// Feeds all that a reader gives, at most as many bytes a turn as the buffer holds, for at most
/// `turns` turns. The buffer holds 1 to 65,536 bytes.
///
/// # Errors
///
/// The feeder's refusal; `Read`, at the number of bytes that were fed, if the reader fails or
/// hasn't ended after `turns` turns.
pub fn feed_log<R: Read, S, F: Feed<S, Refusal>>(
    feeder: &mut F,
    sink: &mut S,
    reader: &mut R,
    buffer: &mut [u8],
    turns: u32,
) -> Result<(), Refusal>
    requires room { (0 < length buffer.old) × (length buffer.old ≤ 65536) }
    requires follows { F.follows feeder.old sink.old [] }
    ensures all { OnOk result (FedAll F.limit F.follows (F.limit feeder.old) (R.remaining reader.old) (R.remaining reader.new) feeder.new sink.new) }
    ensures some { IfErr result (FedBefore F.limit F.follows F.stops (F.limit feeder.old) (R.remaining reader.old) (R.remaining reader.new) feeder.new sink.new) }
    ensures few { (room : ℕ) → length buffer.old ≤ room → TakesAtMost (room * turns) (R.remaining reader.old) (R.remaining reader.new) }
{
    match feed_all(feeder, sink, reader, buffer, turns) {
        Ok(()) => Ok(()),
        Err(halt) => Err(halt.refusal()),
    }
}
