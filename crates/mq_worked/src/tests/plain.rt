//! The judge finds the same faults as the plain evaluators, which look back over all events.
use mq_connections::{plain_c, plain_connections, plain_w};
use mq_judge::{Judge, Options};
use mq_log::{Event, Place3, Refusal};
use mq_plain::{plain_further, plain_lb, plain_se, plain_sessions};
use mq_rules::{Faults, Further, Memory, Note, Seen, Tested};
use mq_trace::{Sink, Tracer};
use mq_watchers::watch_sessions;
use std::alloc::Global;

// The events of a log, as the statements see them.
#[derive(Drop)]
struct Notes {
    alloc: Global,
    seen: Vec<Seen>,
}

impl Sink for Notes {
    ghost use Rattle.std.specs.Prelude.{⊤};

    ghost agrees = { λ _ _. ⊤ };

    ghost refuses = { λ _ _ _. ⊤ };

    fn event(&mut self, place: Place3, event: Event<'_>) -> Result<(), Refusal> {
        let Ok(note) = Note::of(self.alloc, &event) else {
            return Err(Refusal::Memory(0));
        };
        match self.seen.push(Seen { place, note }) {
            Ok(()) => Ok(()),
            Err(_) => Err(Refusal::Memory(0)),
        }
    }
}

// The faults by the four plain evaluators of statements that are always judged.
fn plain_faults(alloc: Global, tested: Tested, seen: &[Seen]) -> Result<Faults, Memory> {
    let mut faults = Faults::new(alloc);
    plain_w(alloc, tested, seen, &mut faults)?;
    plain_c(alloc, tested, seen, &mut faults)?;
    plain_se(alloc, tested, seen, &mut faults)?;
    plain_lb(alloc, tested, seen, &mut faults)?;
    Ok(faults)
}

// The faults by the two that judge by all these statements in one pass each.
fn plain_faults_at_once(alloc: Global, tested: Tested, seen: &[Seen]) -> Result<Faults, Memory> {
    let mut faults = Faults::new(alloc);
    plain_connections(alloc, tested, seen, &mut faults)?;
    plain_sessions(alloc, tested, seen, &mut faults)?;
    Ok(faults)
}

// The faults with those on sessions by the watchers, which take in each event once.
fn watched_faults(alloc: Global, tested: Tested, seen: &[Seen]) -> Result<Faults, Memory> {
    let mut faults = Faults::new(alloc);
    plain_connections(alloc, tested, seen, &mut faults)?;
    watch_sessions(alloc, tested, seen, &mut faults)?;
    Ok(faults)
}

// The tested end and the events of a log; `None` if it is refused, or its header isn't whole. These
// further statements are asked for.
fn noted(
    alloc: Global,
    log: &[u8],
    further: Further,
) -> Result<Option<(Tested, Vec<Seen>)>, Memory> {
    let mut tracer = Tracer::new(alloc, Options::default().limit);
    let mut notes = Notes {
        alloc,
        seen: Vec::new(alloc),
    };
    match tracer.feed(log, &mut notes) {
        Ok(()) => match tracer.header() {
            Some(header) => Ok(Some((Tested::of(header, further), notes.seen))),
            None => Ok(None),
        },
        Err(Refusal::Memory(_)) => Err(Memory),
        Err(_) => Ok(None),
    }
}

// The faults by the four plain evaluators; `None` if those that go through the events once, or the
// watchers, find others.
fn agreed_faults(alloc: Global, tested: Tested, seen: &[Seen]) -> Result<Option<Faults>, Memory> {
    let faults = plain_faults(alloc, tested, seen)?;
    let at_once = plain_faults_at_once(alloc, tested, seen)?;
    let watched = watched_faults(alloc, tested, seen)?;
    if are_same(&faults, &at_once) && are_same(&faults, &watched) {
        Ok(Some(faults))
    } else {
        Ok(None)
    }
}

/// The faults that the plain evaluators find in a log; `None` if it is refused, if its header isn't
/// whole, or if those that go through it once, or the watchers, find others.
///
/// # Errors
///
/// `Memory` if there is none.
pub fn plain_faults_in(alloc: Global, log: &[u8]) -> Result<Option<Faults>, Memory> {
    match noted(alloc, log, Further::NONE)? {
        Some((tested, seen)) => agreed_faults(alloc, tested, seen.as_slice()),
        None => Ok(None),
    }
}

/// Whether two collections have the same faults.
pub fn are_same(these: &Faults, those: &Faults) -> bool {
    these.len() == those.len()
        && these
            .iter()
            .all(|(key, fault)| those.get(*key) == Some(*fault))
}

/// Whether the judge and the plain evaluators find the same faults in a log, or both refuse it.
///
/// # Errors
///
/// `Memory` if there is none.
pub fn are_faults_alike(alloc: Global, log: &[u8]) -> Result<bool, Memory> {
    let mut judge = Judge::new(alloc, Options::default());
    let judged = judge.feed(log);
    match plain_faults_in(alloc, log)? {
        Some(faults) => Ok(judged.is_ok() && are_same(judge.known(), &faults)),
        None => Ok(judged.is_err() || judge.role().is_none()),
    }
}

/// The faults that the plain evaluators find in a log, those of these further statements too; `None`
/// if it is refused, or its header isn't whole.
///
/// # Errors
///
/// `Memory` if there is none.
pub fn plain_further_faults_in(
    alloc: Global,
    log: &[u8],
    further: Further,
) -> Result<Option<Faults>, Memory> {
    match noted(alloc, log, further)? {
        Some((tested, seen)) => {
            let mut faults = plain_faults(alloc, tested, seen.as_slice())?;
            plain_further(alloc, tested, seen.as_slice(), &mut faults)?;
            Ok(Some(faults))
        }
        None => Ok(None),
    }
}

/// Whether the judge and the plain evaluators find the same faults in a log if these further
/// statements are asked for, or both refuse it.
///
/// # Errors
///
/// `Memory` if there is none.
pub fn are_further_faults_alike(
    alloc: Global,
    log: &[u8],
    further: Further,
) -> Result<bool, Memory> {
    let options = Options {
        further,
        ..Options::default()
    };
    let mut judge = Judge::new(alloc, options);
    let judged = judge.feed(log);
    match plain_further_faults_in(alloc, log, further)? {
        Some(faults) => Ok(judged.is_ok() && are_same(judge.known(), &faults)),
        None => Ok(judged.is_err() || judge.role().is_none()),
    }
}
