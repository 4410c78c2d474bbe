//! Reads a log again, to drive a watcher over its events.
ghost use Rattle.std.specs.Prelude.{[], ℕ, List, IfSome, Some};
ghost use Rattle.mq_rules.specs.declared.fate.Fate.TheVariants.{Void};
ghost use Rattle.mq_trace.specs.Tracing.{IsTracedTo};
ghost use Rattle.mq_trail.specs.Following.{EndsAs, FollowsOver};

use super::following::{Follower, Following, Watched};
use mq_log::Refusal;
use mq_report::{DEFAULT_LIMIT, feed_log};
use mq_rules::{Further, Tested};
use mq_trace::{Feed, Tracer};
use std::alloc::Global;
use std::io::Read;
use std::marker::Brand;

/// Reads a log, and passes its events to a watcher.
#[derive(Drop)]
struct Rereading {
    tracer: Tracer,
}

impl Rereading {
    // Ends the log, and returns the end that its header names, judged by these further statements
    // too.
    //
    // Errors: `Cut` if the log is cut short.
    fn end(&mut self, further: Further) -> Result<Tested, Refusal>
        ensures { (log : List ℕ) → IsTracedTo self.old.tracer log → EndsAs further log result }
    {
        self.tracer.finish()?;
        match self.tracer.header() {
            Some(header) => Ok(Tested::of(header, further)),
            None => Err(Refusal::Cut(self.tracer.byte_count())),
        }
    }
}

impl<W: Follower, K: Watched> Feed<Following<W, K>, Refusal> for Rereading {
    ghost use Rattle.std.specs.Prelude.{map};
    ghost use Rattle.mq_log.specs.Events.{events};
    ghost use Rattle.mq_rules.specs.Notes.{seen as seen_of};
    ghost use Rattle.mq_trace.specs.Tracing.{IsTracedTo};
    ghost use Rattle.mq_report.specs.Stopping.{StopsIn};
    ghost use Rattle.mq_trail.specs.Following.{HasFollowed};

    ghost limit = { λ rereading. rereading.tracer.reading.limit };

    ghost follows = { λ rereading following log. IsTracedTo rereading.tracer log × HasFollowed W.agrees K.tested following.watcher (map seen_of (events log)) };

    ghost stops = { λ limit _ following log piece refusal. StopsIn limit log piece refusal };

    fn feed(&mut self, following: &mut Following<W, K>, piece: &[u8]) -> Result<(), Refusal> {
        self.tracer.feed(piece, following)
    }
}

/// Drives a watcher of this tested end over the events of the log that a reader gives, and returns
/// it and the end that the log's header names, which may be another one. That is judged by the same
/// statements: by the further ones too, if this one is. It reads at most
/// 4,294,967,295 times, and at most 8,192 bytes each time.
///
/// # Errors
///
/// Why the log is refused; `Read` if the reader fails, or hasn't ended after the last turn;
/// `Memory` if there is no memory for an event, or for what the watcher keeps.
pub fn follow_reader<R: Read, W: Follower + Drop>(
    alloc: Global,
    reader: &mut R,
    tested: Tested,
    watcher: W,
) -> Result<(W, Tested), Refusal>
    requires { W.agrees watcher tested (Some Void) [] }
    ensures { IfSome (R.remaining reader.old) (λ log. FollowsOver W.agrees tested.further tested log (R.remaining reader.new) result) }
{
    follow_as::<R, W, Brand>(alloc, reader, tested, watcher)
}

// Drives a watcher over the log that a reader gives. The tested end is the one that is picked:
// which it is, the watcher knows, and the code asks it only for the statements that are judged.
fn follow_as<R: Read, W: Follower + Drop, K: Watched>(
    alloc: Global,
    reader: &mut R,
    tested: Tested,
    watcher: W,
) -> Result<(W, Tested), Refusal>
    requires { W.agrees watcher K.tested (Some Void) [] }
    ensures { IfSome (R.remaining reader.old) (λ log. FollowsOver W.agrees tested.further K.tested log (R.remaining reader.new) result) }
{
    let mut rereading = Rereading {
        tracer: Tracer::new(alloc, DEFAULT_LIMIT),
    };
    let mut following = Following::<W, K>::new(alloc, watcher);
    let mut buffer = [0; 8192];
    feed_log(
        &mut rereading,
        &mut following,
        reader,
        &mut buffer,
        u32::MAX,
    )?;
    let named = rereading.end(tested.further)?;
    Ok((following.into_watcher(), named))
}
