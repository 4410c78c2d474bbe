//! Feeding a log from a reader, piece by piece, to whatever takes it in.
ghost use Rattle.std.specs.Prelude.{◌≡◌, ◌*◌, ◌<◌, ◌≤◌, [], ◌++◌, ℕ, List, OnOk, IfErr, length};
ghost use Rattle.mq_trace.specs.Feeding.{FedAll, FedSome, RunsOutAt, TakesAtMost, refusal_of};

use super::turns::Turns;
use mq_log::Refusal;
use std::io::{ErrorKind, Read};

/// Takes in a log, piece by piece, and passes what it finds to a sink. It may stop, for a reason of
/// type `E`.
pub trait Feed<S, E> {
    // The largest packet that it reads.
    ghost limit: { Self → ℕ };
    // It has taken in this log, and refused none of it; and the sink has received all that is in
    // it.
    ghost follows: { Self → S → List ℕ → Type 0 };
    // With this limit on packets, it has stopped at a byte of this piece after this log, for this
    // reason; and this is the sink's state.
    ghost stops: { ℕ → Self → S → List ℕ → List ℕ → E → Type 0 };

    /// Takes in the next piece of the log.
    ///
    /// # Errors
    ///
    /// Why it stopped at a byte of the piece.
    fn feed(&mut self, sink: &mut S, piece: &[u8]) -> Result<(), E>
        ensures limit { OnOk result (limit self.new ≡ limit self.old) }
        ensures follows { (log : List ℕ) → follows self.old sink.old log → OnOk result (follows self.new sink.new (log ++ piece.now)) }
        ensures stops { (log : List ℕ) → follows self.old sink.old log → IfErr result (λ why. stops (limit self.old) self.new sink.new log piece.now why) };
}

/// Why feeding ended before the reader did.
pub enum Halt<E> {
    /// The feeder stopped.
    Stopped(E),
    /// The reader failed after so many bytes.
    Failed(u64),
    /// The turns ran out after so many bytes.
    RanOut(u64),
}

impl Halt<Refusal> {
    /// The refusal of the log: the feeder's own; or `Read`, at the number of bytes that were fed,
    /// if the reader failed or the turns ran out.
    pub fn refusal(self) -> Refusal
        ensures { result ≡ refusal_of self }
    {
        match self {
            Halt::Stopped(refusal) => refusal,
            Halt::Failed(fed) | Halt::RanOut(fed) => Refusal::Read(fed),
        }
    }
}

/// Feeds all that a reader gives, at most as many bytes a turn as the buffer holds, for at most
/// `turns` turns. The buffer holds 1 to 65,536 bytes; what was in it doesn't matter. An interrupted
/// read is retried, in a turn of its own.
///
/// # Errors
///
/// `Stopped` if the feeder stops; `Failed` if the reader fails; `RanOut` if it hasn't ended after
/// `turns` turns.
pub fn feed_all<R: Read, S, E, F: Feed<S, E>>(
    feeder: &mut F,
    sink: &mut S,
    reader: &mut R,
    buffer: &mut [u8],
    turns: u32,
) -> Result<(), Halt<E>>
    requires room { (0 < length buffer.old) × (length buffer.old ≤ 65536) }
    requires follows { F.follows feeder.old sink.old [] }
    ensures all { OnOk result (FedAll F.limit F.follows (F.limit feeder.old) (R.remaining reader.old) (R.remaining reader.new) feeder.new sink.new) }
    ensures some { IfErr result (FedSome F.limit F.follows F.stops (F.limit feeder.old) (R.remaining reader.old) (R.remaining reader.new) feeder.new sink.new) }
    ensures few { (room : ℕ) → length buffer.old ≤ room → TakesAtMost (room * turns) (R.remaining reader.old) (R.remaining reader.new) }
{
    let mut turns = Turns::new(turns);
    take_turns(feeder, sink, reader, buffer, &mut turns)
}

// Feeds until the reader ends, turn by turn.
//
// Errors: As `feed_all`.
fn take_turns<R: Read, S, E, F: Feed<S, E>>(
    feeder: &mut F,
    sink: &mut S,
    reader: &mut R,
    buffer: &mut [u8],
    turns: &mut Turns,
) -> Result<(), Halt<E>>
    requires room { (0 < length buffer.old) × (length buffer.old ≤ 65536) }
    requires follows { F.follows feeder.old sink.old [] }
    ensures all { OnOk result (FedAll F.limit F.follows (F.limit feeder.old) (R.remaining reader.old) (R.remaining reader.new) feeder.new sink.new) }
    ensures some { IfErr result (FedSome F.limit F.follows F.stops (F.limit feeder.old) (R.remaining reader.old) (R.remaining reader.new) feeder.new sink.new) }
    ensures last { IfErr result (RunsOutAt turns.new.left) }
    ensures few { (room : ℕ) → length buffer.old ≤ room → TakesAtMost (room * turns.old.left) (R.remaining reader.old) (R.remaining reader.new) }
{
    let mut fed = 0;
    'turns: while turns.are_left() {
        match turns.read(reader, buffer) {
            Ok(0) => return Ok(()),
            Ok(count) => {
                match feeder.feed(sink, &buffer[..count]) {
                    Ok(()) => fed += count as u64,
                    Err(why) => return Err(Halt::Stopped(why)),
                }
            }
            Err(error) => {
                if error.kind() != ErrorKind::Interrupted {
                    return Err(Halt::Failed(fed));
                }
            }
        }
    }
    Err(Halt::RanOut(fed))
}
