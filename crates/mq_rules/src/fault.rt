//! Faults: where a statement is false, and where that was decided.
ghost use Rattle.std.specs.Prelude.{◌≡◌};

use mq_log::Place3;

/// What is reported of a position and a statement that is false there.
#[derive(Clone, Copy, Debug, PartialEq, Eq)]
pub struct Fault {
    /// The last position of the shortest beginning of the log in which the statement is false
    /// there.
    pub decided: u32,
    /// The number of the record of the fault's position.
    pub record_no: u32,
    /// For a rule on a packet's bytes, where in the packet it is broken.
    pub offset: Option<u32>,
}

impl Fault {
    /// The fault of a statement that is judged at its own position.
    pub fn at_once(place: Place3, offset: Option<u32>) -> Self
        ensures { result ≡ record { decided = place.position; record_no = place.record_no; offset = offset } }
    {
        Fault {
            decided: place.position,
            record_no: place.record_no,
            offset,
        }
    }
}
