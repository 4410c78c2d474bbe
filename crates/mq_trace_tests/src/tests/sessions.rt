//! Logs and the lines on their events, whatever the records and wherever a log ends.

use super::emission::{LIMIT, Lines, other_cutting, other_cutting_of, trace, traced};
use super::logs::Part::{Close, Open, Raw, Recv, Release, Rest, Sent};
use super::logs::{
    BEGINNING, CLIENT, CONNACK, CONNECT, END, LOST, PUBACK, PUBLISH, Row, SERVER, UNIDENTIFIED,
    log_of,
};
use mq_trace::{Header, Refusal, Tracer};
use std::alloc::Global;
use std::test::Fail;

pub static SESSIONS: [Row; 17] = [
    // A log needs no record.
    Row {
        connack_seen: false,
        parts: &[CLIENT],
        lines: "",
        answer: Ok(()),
    },
    Row {
        connack_seen: true,
        parts: &[Sent(PUBLISH), Recv(PUBACK), Rest, Close],
        lines: "4 record 4 SENT Publish 9\n5 record 5 RECV Puback 4\n6 record 6 REST\n7 record 7 CLOSE\n",
        answer: Ok(()),
    },
    // A packet belongs to the record that has its last byte, and the other direction may come
    // between.
    Row {
        connack_seen: true,
        parts: &[
            Sent(b"\x32"),
            Sent(b"\x07"),
            Sent(b"\x00"),
            Sent(b"\x01"),
            Sent(b"a"),
            Sent(b"\x00"),
            Sent(b"\x00"),
            Sent(b"\x00"),
            Recv(b"\xd0\x00"),
            Sent(b"x"),
        ],
        lines: "4 record 12 RECV Pingresp 2\n5 record 13 SENT W09 5 of [50, 7, 0, 1, 97, 0, 0, 0, 120]\n",
        answer: Ok(()),
    },
    Row {
        connack_seen: true,
        parts: &[
            Sent(BEGINNING),
            Recv(b"\x32\x07\x00\x01"),
            Rest,
            Sent(b"\x00\x01"),
            Release(7),
            Recv(b"a\x00\x02\x00yP\x02"),
            Sent(b"\x00x"),
            Recv(b"\x00\x01"),
        ],
        lines: "4 record 6 REST\n5 record 8 RELEASE 7\n6 record 9 RECV Publish 9\n7 record 10 SENT Publish 9\n\
            8 record 11 RECV Pubrec 4\n",
        answer: Ok(()),
    },
    // A record with many packets, and the beginning of one more.
    Row {
        connack_seen: true,
        parts: &[
            Sent(b"\xc0\x00\x40\x02\x00\x02\xc0\x00\x32\x07\x00\x01a\x00\x00\x00x\xc0\x00\x40"),
            Sent(b"\x02\x00\x03\xc0\x00"),
        ],
        lines: "4 record 4 SENT Pingreq 2\n5 record 4 SENT Puback 4\n6 record 4 SENT Pingreq 2\n\
            7 record 4 SENT W09 5 of [50, 7, 0, 1, 97, 0, 0, 0, 120]\n\
            8 record 4 SENT Pingreq 2\n9 record 5 SENT Puback 4\n10 record 5 SENT Pingreq 2\n",
        answer: Ok(()),
    },
    // Records without bytes count as records, and have no other effect, also within a packet.
    Row {
        connack_seen: true,
        parts: &[
            Sent(b""),
            Recv(b""),
            Sent(BEGINNING),
            Sent(b""),
            Recv(b""),
            Sent(END),
            Recv(b""),
            Rest,
        ],
        lines: "4 record 9 SENT Publish 9\n5 record 11 REST\n",
        answer: Ok(()),
    },
    // A direction that is lost gives no more events on its connection.
    Row {
        connack_seen: true,
        parts: &[Sent(LOST), Sent(PUBLISH), Recv(PUBLISH), Rest],
        lines: "4 record 4 SENT LOST\n5 record 6 RECV Publish 9\n6 record 7 REST\n",
        answer: Ok(()),
    },
    Row {
        connack_seen: true,
        parts: &[
            Recv(b"\xd0\x00\x30\x80\x00\xd0\x00"),
            Recv(b"\xd0\x00"),
            Sent(b"\xc0\x00"),
        ],
        lines: "4 record 4 RECV Pingresp 2\n5 record 4 RECV LOST\n6 record 6 SENT Pingreq 2\n",
        answer: Ok(()),
    },
    // The byte that shows it is the first that no Remaining Length can have.
    Row {
        connack_seen: true,
        parts: &[
            Sent(b"\x30\x80"),
            Recv(b"\x30\xff\xff\xff"),
            Sent(b"\x00"),
            Recv(b"\x80"),
        ],
        lines: "4 record 6 SENT LOST\n5 record 7 RECV LOST\n",
        answer: Ok(()),
    },
    // What is unfinished or lost at the CLOSE is dropped: the next connection's streams start over.
    Row {
        connack_seen: true,
        parts: &[
            Sent(BEGINNING),
            Recv(b"\x30\x80\x00"),
            Close,
            Release(9),
            Open,
            Sent(CONNECT),
            Recv(CONNACK),
            Sent(PUBLISH),
            Sent(LOST),
            Recv(b"\x40"),
            Close,
            Open,
            Recv(CONNACK),
            Sent(CONNECT),
        ],
        lines: "4 record 5 RECV LOST\n5 record 6 CLOSE after [50, 7, 0, 1, 97] and []\n6 record 7 RELEASE 9\n7 record 8 OPEN\n8 record 9 SENT Connect 15\n\
            9 record 10 RECV Connack 5\n10 record 11 SENT Publish 9\n11 record 12 SENT LOST\n12 record 14 CLOSE after [] and [64]\n\
            13 record 15 OPEN\n14 record 16 RECV Connack 5\n15 record 17 SENT Connect 15\n",
        answer: Ok(()),
    },
    // A CLOSE says the bytes of the packets that it leaves unfinished, however many came, and
    // whatever came before them.
    Row {
        connack_seen: true,
        parts: &[
            Sent(b"\x32"),
            Close,
            Open,
            Sent(CONNECT),
            Recv(CONNACK),
            Sent(b"\xc0\x00\x34\x07\x00\x01"),
            Recv(b"\xd0\x00\x30"),
            Close,
            Open,
            Close,
        ],
        lines: "4 record 5 CLOSE after [50] and []\n5 record 6 OPEN\n6 record 7 SENT Connect 15\n7 record 8 RECV Connack 5\n\
            8 record 9 SENT Pingreq 2\n9 record 10 RECV Pingresp 2\n10 record 11 CLOSE after [52, 7, 0, 1] and [48]\n\
            11 record 12 OPEN\n12 record 13 CLOSE\n",
        answer: Ok(()),
    },
    // It says none of a packet that ended, or after the direction is lost.
    Row {
        connack_seen: true,
        parts: &[
            Sent(BEGINNING),
            Sent(END),
            Recv(BEGINNING),
            Close,
            Open,
            Sent(b"\x82\x80\x80\x80\x80"),
            Close,
        ],
        lines: "4 record 5 SENT Publish 9\n5 record 7 CLOSE after [] and [50, 7, 0, 1, 97]\n6 record 8 OPEN\n7 record 9 SENT LOST\n8 record 10 CLOSE\n",
        answer: Ok(()),
    },
    // A tested server sends the CONNACK.
    Row {
        connack_seen: false,
        parts: &[
            SERVER,
            Open,
            Recv(CONNECT),
            Sent(CONNACK),
            Recv(PUBLISH),
            Sent(PUBACK),
            Release(1),
        ],
        lines: "1 record 1 OPEN\n2 record 2 RECV Connect 15\n3 record 3 SENT Connack 5\n4 record 4 RECV Publish 9\n\
            5 record 5 SENT Puback 4\n6 record 6 RELEASE 1\n",
        answer: Ok(()),
    },
    // Between connections a release needs no CONNACK.
    Row {
        connack_seen: false,
        parts: &[CLIENT, Release(1), Open, Sent(CONNECT), Close, Release(2)],
        lines: "1 record 1 RELEASE 1\n2 record 2 OPEN\n3 record 3 SENT Connect 15\n4 record 4 CLOSE\n5 record 5 RELEASE 2\n",
        answer: Ok(()),
    },
    // Packets that need no session may come before the CONNACK, and so may bytes that break a rule.
    Row {
        connack_seen: false,
        parts: &[
            CLIENT,
            Open,
            Sent(CONNECT),
            Sent(b"\xc0\x00"),
            Recv(b"\xd0\x00\xf0\x00"),
            Sent(UNIDENTIFIED),
            Sent(b"\xe0\x00"),
            Recv(LOST),
            Rest,
        ],
        lines: "1 record 1 OPEN\n2 record 2 SENT Connect 15\n3 record 3 SENT Pingreq 2\n4 record 4 RECV Pingresp 2\n\
            5 record 4 RECV Auth 2\n6 record 5 SENT W09 5 of [50, 7, 0, 1, 97, 0, 0, 0, 120]\n\
            7 record 6 SENT Disconnect 2\n8 record 7 RECV LOST\n9 record 8 REST\n",
        answer: Ok(()),
    },
    // A second CONNACK of a connection changes nothing here.
    Row {
        connack_seen: true,
        parts: &[Recv(CONNACK), Sent(PUBLISH)],
        lines: "4 record 4 RECV Connack 5\n5 record 5 SENT Publish 9\n",
        answer: Ok(()),
    },
    // A body may have 1,048,576 bytes.
    Row {
        connack_seen: false,
        parts: &[CLIENT, Open, Raw(b"\x02\x00\x10\x00\x00")],
        lines: "1 record 1 OPEN\n",
        answer: Err(Refusal::Cut(18)),
    },
];

#[test]
fn reports_sessions(rt: HostRuntime) -> Result<(), Fail> {
    for (number, row) in SESSIONS.iter().enumerate() {
        let Row {
            connack_seen,
            parts,
            lines,
            answer,
        } = row;
        let other = other_cutting_of(rt.alloc(), *connack_seen, parts, lines, *answer)?;
        assert_eq!(rt; other, None, "session {number}");
    }
    Ok(())
}

// What a log gives, without the records' numbers, and how it ends.
fn unnumbered(alloc: Global, row: &Row) -> Result<Lines, Fail> {
    let log = log_of(alloc, row.connack_seen, row.parts, false)?;
    let (_, emitted) = traced(alloc, LIMIT, log.as_slice(), 8192, false);
    Ok(emitted)
}

// The first size of pieces in which a row's log gives other lines where each byte has a record of
// its own. A log that is refused is left out.
fn other_split(alloc: Global, row: &Row) -> Result<Option<usize>, Fail> {
    if row.answer.is_err() {
        return Ok(None);
    }
    let emitted = unnumbered(alloc, row)?;
    let split = log_of(alloc, row.connack_seen, row.parts, true)?;
    let lines = emitted.text.as_str();
    Ok(other_cutting(alloc, LIMIT, split.as_slice(), false, "", lines, Ok(())))
}

// How bytes are cut into records changes only the records' numbers.
#[test]
fn reports_the_same_for_any_records(rt: HostRuntime) -> Result<(), Fail> {
    for (number, row) in SESSIONS.iter().enumerate() {
        assert_eq!(rt; other_split(rt.alloc(), row)?, None, "session {number}");
    }
    Ok(())
}

// How many events a log has, its header, and its result.
fn emitted_of(alloc: Global, log: &[u8]) -> (usize, Option<Header>, Option<Result<(), Refusal>>) {
    let mut tracer = Tracer::new(alloc, LIMIT);
    let mut emitted = Lines::new(alloc, true, u32::MAX);
    let ended = trace(&mut tracer, LIMIT, log, 5, &mut emitted);
    (emitted.count as usize, tracer.header(), ended)
}

/// Where the second session's log may end: after its header and each of its records.
const ENDS: [usize; 8] = [8, 13, 33, 43, 57, 66, 71, 76];

const HEADER: Header = Header {
    version: 1,
    server: false,
    releases: true,
};

// Whether a beginning of the second session's log is cut short, unless it ends after a record, and
// gives the events of the records that are whole.
fn is_cut_short(alloc: Global, begin: &[u8]) -> bool {
    let count = begin.len();
    let whole = ENDS.iter().filter(|end| **end <= count).count();
    let answer = if ENDS.contains(&count) {
        Ok(())
    } else {
        Err(Refusal::Cut(count as u64))
    };
    let (events, header, ended) = emitted_of(alloc, begin);
    events == whole.saturating_sub(1)
        && header == (count >= 8).then_some(HEADER)
        && ended == Some(answer)
}

// How long the first beginning is of which that doesn't hold, or the whole log if it hasn't 76
// bytes.
fn first_other_beginning(alloc: Global) -> Result<Option<usize>, Fail> {
    let log = log_of(alloc, true, SESSIONS[1].parts, false)?;
    if log.len() != 76 {
        return Ok(Some(log.len()));
    }
    for count in 0..77 {
        if !is_cut_short(alloc, &log[..count]) {
            return Ok(Some(count));
        }
    }
    Ok(None)
}

#[test]
fn reports_beginnings(rt: HostRuntime) -> Result<(), Fail> {
    assert_eq!(rt; first_other_beginning(rt.alloc())?, None);
    Ok(())
}
