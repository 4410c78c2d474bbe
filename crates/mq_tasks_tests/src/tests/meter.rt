//! What somebody who waits at a terminal is told.
use mq_judge::Progress;
use mq_tasks::Meter;

const TWICE: &str = "\rmqjudge: 50 MB judged, 0 faults so far\
    \rmqjudge: 101 MB judged, 3 faults so far\n";

#[test]
fn tells_megabytes_and_faults_and_ends_the_line(rt: HostRuntime) {
    let mut told = Vec::new(rt.alloc());
    let mut meter = Meter::new(&mut told, true);
    meter.advance(49_999_999, 0);
    meter.advance(1, 0);
    // The next line is due after 50 MB more.
    meter.advance(49_999_999, 2);
    meter.advance(1_500_000, 3);
    meter.end();
    drop(meter);
    assert!(rt; told.as_slice() == TWICE.as_bytes());
}

#[test]
fn tells_nothing_of_a_short_log(rt: HostRuntime) {
    let mut told = Vec::new(rt.alloc());
    let mut meter = Meter::new(&mut told, true);
    meter.advance(49_999_999, 2);
    meter.end();
    drop(meter);
    assert!(rt; told.is_empty());
}

#[test]
fn tells_nothing_where_it_is_not_shown(rt: HostRuntime) {
    let mut told = Vec::new(rt.alloc());
    let mut meter = Meter::new(&mut told, false);
    meter.advance(120_000_000, 2);
    meter.end();
    drop(meter);
    assert!(rt; told.is_empty());
}
