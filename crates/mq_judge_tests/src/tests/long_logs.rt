//! Logs that are longer than a buffer, a count or a number of turns at which something might stop.
use mq_display::show;
use mq_harness::{
    CLIENT, CONNACK, CONNECT, CONNECT_OF_C, Failing, HEADER, PINGREQ, PUBLISH_UNIDENTIFIED, Part,
    Pieces, SERVER, add_record, log_of,
};
use mq_judge::{Choice, Form, Outcome, RunFault, run, run_bounded};
use mq_log::Refusal;
use std::alloc::Global;
use std::fmt::Write as _;
use std::io;
use std::io::{ErrorKind, Read};
use std::test::Fail;

/// A connection that a server accepted. Without its CONNACK it may have no more than 4,096 events.
const ACCEPTED: [Part; 3] = [Part::Open, Part::Recv(CONNECT_OF_C), Part::Sent(CONNACK)];

// A log of a connection that begins with these parts, on which a server then receives `count`
// PINGREQs in one record.
fn pings(alloc: Global, parts: &[Part], count: u32) -> Result<Vec<u8>, Fail> {
    let mut body = Vec::new(alloc);
    for _ in 0..count {
        body.extend_from_slice(PINGREQ)?;
    }
    let mut log = log_of(alloc, SERVER, parts)?;
    add_record(&mut log, 3, &body)?;
    Ok(log)
}

// The lines on an OPEN and 1,000 PINGREQs in one record.
fn lines_of_pings(alloc: Global) -> Result<String, Fail> {
    let mut lines = String::new(alloc);
    write!(lines, "1 record 1 OPEN\n")?;
    for position in 2..1002 {
        write!(lines, "{position} record 2 RECV PINGREQ size 2\n")?;
    }
    Ok(lines)
}

// How showing these ends, and whether their lines are written.
fn shown_pings(alloc: Global) -> Result<(Result<(), RunFault>, bool), Fail> {
    let log = pings(alloc, &[Part::Open], 1000)?;
    let expected = lines_of_pings(alloc)?;
    let mut shown = Vec::new(alloc);
    let answer = show(alloc, &mut log.as_slice(), &mut shown);
    Ok((answer, shown.as_slice() == expected.as_bytes()))
}

#[test]
fn shows_more_lines_than_a_buffer_holds(rt: HostRuntime) -> Result<(), Fail> {
    assert_eq!(rt; shown_pings(rt.alloc())?, (Ok(()), true));
    Ok(())
}

// How showing these ends if the first write fails, and how many bytes are written.
fn shown_unwritten(alloc: Global) -> Result<(Result<(), RunFault>, usize), Fail> {
    let log = pings(alloc, &[Part::Open], 1000)?;
    let mut writer = Failing::after(alloc, 0, Some(ErrorKind::Other));
    let answer = show(alloc, &mut log.as_slice(), &mut writer);
    Ok((answer, writer.taken.len()))
}

#[test]
fn writes_nothing_after_a_failed_write(rt: HostRuntime) -> Result<(), Fail> {
    assert_eq!(rt; shown_unwritten(rt.alloc())?, (Err(RunFault::Write), 0));
    Ok(())
}

// How a run on what this reader gives ends, and whether this report is written.
fn ran<R: Read>(alloc: Global, reader: &mut R, report: &str) -> (Result<Outcome, RunFault>, bool) {
    let mut written = Vec::new(alloc);
    let answer = run(alloc, reader, &mut written, Form::Text, Choice::Usual);
    (answer, written.as_slice() == report.as_bytes())
}

// The same on a connection with 69,997 PINGREQs.
fn ran_at_once(alloc: Global, report: &str) -> Result<(Result<Outcome, RunFault>, bool), Fail> {
    let log = pings(alloc, &ACCEPTED, 69_997)?;
    Ok(ran(alloc, &mut log.as_slice(), report))
}

#[test]
fn judges_70000_events(rt: HostRuntime) -> Result<(), Fail> {
    assert_eq!(rt;
        ran_at_once(rt.alloc(), "pass 70000 events\n")?,
        (Ok(Outcome::Pass), true)
    );
    Ok(())
}

// The same on one with 26,000 PINGREQs, of which a byte comes every other turn.
fn ran_in_turns(alloc: Global, report: &str) -> Result<(Result<Outcome, RunFault>, bool), Fail> {
    let log = pings(alloc, &ACCEPTED, 26_000)?;
    let mut reader = Pieces::interrupted(log.as_slice(), 1, false);
    Ok(ran(alloc, &mut reader, report))
}

#[test]
fn reads_for_more_than_100000_turns(rt: HostRuntime) -> Result<(), Fail> {
    assert_eq!(rt;
        ran_in_turns(rt.alloc(), "pass 26003 events\n")?,
        (Ok(Outcome::Pass), true)
    );
    Ok(())
}

// What a run of `turns` turns returns on a log of a header alone, of which a byte comes every other
// turn.
fn run_for(alloc: Global, turns: u32) -> Result<Outcome, RunFault> {
    let mut reader = Pieces::interrupted(HEADER, 1, false);
    let mut written = Vec::new(alloc);
    run_bounded(
        alloc,
        &mut reader,
        &mut written,
        Form::Text,
        Choice::Usual,
        turns,
    )
}

#[test]
fn stops_when_its_turns_run_out(rt: HostRuntime) {
    for turns in 0..18 {
        let read = RunFault::Refused(Refusal::Read(u64::from(turns / 2)));
        assert_eq!(rt; run_for(rt.alloc(), turns), Err(read), "{turns} turns");
    }
    assert_eq!(rt; run_for(rt.alloc(), 18), Ok(Outcome::Pass));
}

/// A reader that is interrupted at each read, and counts them.
#[derive(Drop)]
struct Interrupted {
    reads: u32,
}

impl Read for Interrupted {
    fn read(&mut self, _: &mut [u8]) -> io::Result<usize> {
        self.reads = self.reads.saturating_add(1);
        Err(io::Error::from(ErrorKind::Interrupted))
    }
}

// How a run of so many turns on such a reader ends, how many bytes it writes, and how many reads it
// makes.
fn ran_interrupted(alloc: Global, turns: u32) -> (Result<Outcome, RunFault>, usize, u32) {
    let mut reader = Interrupted { reads: 0 };
    let mut written = Vec::new(alloc);
    let answer = run_bounded(
        alloc,
        &mut reader,
        &mut written,
        Form::Json,
        Choice::Usual,
        turns,
    );
    (answer, written.len(), reader.reads)
}

#[test]
fn refuses_after_as_many_reads_as_it_was_given(rt: HostRuntime) {
    let unread = Err(RunFault::Refused(Refusal::Read(0)));
    for turns in &[0, 1, 2, 1000] {
        assert_eq!(rt; ran_interrupted(rt.alloc(), *turns), (unread, 0, *turns));
    }
}

// How showing a connection with 18,000 PINGREQs ends, of which a byte comes every other turn.
fn shown_in_turns(alloc: Global) -> Result<Result<(), RunFault>, Fail> {
    let log = pings(alloc, &ACCEPTED, 18_000)?;
    let mut reader = Pieces::interrupted(log.as_slice(), 1, false);
    let mut shown = Vec::new(alloc);
    Ok(show(alloc, &mut reader, &mut shown))
}

#[test]
fn shows_for_more_than_65536_turns(rt: HostRuntime) -> Result<(), Fail> {
    assert_eq!(rt; shown_in_turns(rt.alloc())?, Ok(()));
    Ok(())
}

// A log of a client that sends 1,200 times a PUBLISH whose Packet Identifier is 0.
fn many_faults(alloc: Global) -> Result<Vec<u8>, Fail> {
    let connected = [Part::Open, Part::Sent(CONNECT), Part::Recv(CONNACK)];
    let mut log = log_of(alloc, CLIENT, &connected)?;
    for _ in 0..1200 {
        add_record(&mut log, 2, PUBLISH_UNIDENTIFIED)?;
    }
    Ok(log)
}

// How judging that log ends, with a report in this form.
fn outcome_of_many(alloc: Global, form: Form) -> Result<Result<Outcome, RunFault>, Fail> {
    let log = many_faults(alloc)?;
    let mut written = Vec::new(alloc);
    Ok(run(
        alloc,
        &mut log.as_slice(),
        &mut written,
        form,
        Choice::Usual,
    ))
}

// What is written has more than 8,192 bytes in two of the three forms.
#[test]
fn reports_1200_faults_in_each_form(rt: HostRuntime) -> Result<(), Fail> {
    for form in &[Form::Text, Form::Json, Form::Summary] {
        assert_eq!(rt;
            outcome_of_many(rt.alloc(), *form)?,
            Ok(Outcome::Fail),
            "{form:?}"
        );
    }
    Ok(())
}
