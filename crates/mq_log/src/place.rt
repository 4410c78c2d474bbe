//! Where an event is in its log.

/// Where an event is in its log. Positions and records count from 1.
#[derive(Clone, Copy, Debug, PartialEq, Eq)]
pub struct Place3 {
    /// The event's number among the events.
    pub position: u32,
    /// The number of the record that holds the event's last byte.
    pub record_no: u32,
    /// That record's moment, of any unit: 0 in version 1, whose records have none.
    pub moment: u64,
}

/// A record of a log.
#[derive(Clone, Copy, Debug, PartialEq, Eq)]
pub struct InRecord {
    /// Its number, counted from 1.
    pub record_no: u32,
    /// Its moment, 0 in version 1.
    pub moment: u64,
}
