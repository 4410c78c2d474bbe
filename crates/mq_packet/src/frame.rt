//! Where the packet at the front of a stream is.

/// What is at the front of a stream of packets (MQTT 5.0, section 2.1).
#[derive(Clone, Copy, Debug, PartialEq, Eq)]
pub enum Cut {
    /// No whole packet yet: more bytes are needed.
    Need,
    /// A whole packet.
    Frame {
        /// Its first byte: its type and flags.
        first: u8,
        /// Where its body begins, which is after the Remaining Length.
        body_start: usize,
        /// Where its body ends, which is the packet's end.
        body_end: usize,
    },
    /// No packet, whatever follows: the Remaining Length is no variable byte integer (MQTT 5.0,
    /// section 1.5.5).
    Lost,
}
