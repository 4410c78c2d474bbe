//! What a caller tells without a log.

/// What happened at the end that is judged.
#[derive(Clone, Copy)]
pub enum Event<'a> {
    /// A network connection begins.
    Open,
    /// The end sent these bytes.
    Sent(&'a [u8]),
    /// The end received these bytes.
    Received(&'a [u8]),
    /// The network connection ended.
    Close,
    /// The end is at rest.
    Rest,
    /// The end released the QoS 2 message that it received under this Packet Identifier.
    Release(u16),
}
