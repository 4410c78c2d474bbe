//! What is known of an event before it is judged, besides the events before it.

use mq_rules::{Fate, Tested};

/// What the statements on sessions need to know of an event, besides the events before it. It is
/// found once for all of them.
#[derive(Clone, Copy)]
pub struct Turn {
    /// The end that is judged.
    pub tested: Tested,
    /// The fate of the event's connection; `Void` before the first one (MQTT 5.0, section 3.2.2).
    pub fate: Fate,
    /// The position at which that fate is known, and the event is judged.
    pub decided: u32,
    /// Whether the event is a REST that binds.
    pub rests: bool,
}
