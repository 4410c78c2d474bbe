//! A whole packet, split after its fixed header.

ghost use Rattle.std.specs.Prelude.{◌≡◌, ◌+◌, ◌≤◌, Some, length, slice_index};
ghost use Rattle.mq_packet.specs.Stream.{fixed_header_of};
ghost use Rattle.mq_packet.specs.declared.header.FixedHeader.TheVariants as headers;
ghost use Rattle.mq_packet.specs.Decoding.{decoded};
ghost use Rattle.mq_packet.specs.Sizes.{size_with, remaining_length};
ghost use Rattle.mq_packet.specs.declared.packet.Packet.{Packet};
ghost use Rattle.mq_log.specs.Events.{read_frame};
ghost use Rattle.mq_trace.specs.Settling.{IsFrame};

/// A whole packet.
#[derive(Drop)]
pub struct Frame<'a> {
    /// Its bytes, from the first one, which names its type (MQTT 5.0, section 2.1.2), to the last
    /// one.
    pub bytes: &'a [u8],
    /// How many of them are its fixed header.
    header: usize,
}

impl<'a> Frame<'a> {
    /// The packet that these bytes are, with so many bytes in its fixed header.
    #[inline(always)]
    pub fn new(bytes: &'a [u8], header: usize) -> Self
        requires whole { fixed_header_of bytes.now ≡ headers.Whole header (length bytes.now) }
        requires fits { length bytes.now ≤ header + 268435455 }
        ensures bytes { result.bytes.now ≡ bytes.now }
        ensures frame { IsFrame result }
    {
        Frame { bytes, header }
    }

    /// Its first byte.
    #[inline(always)]
    pub fn first(&self) -> u8
        requires { IsFrame self.now }
        ensures { result ≡ slice_index self.now.bytes.now 0 }
    {
        self.bytes[0]
    }

    /// Its body, which follows its fixed header.
    #[inline(always)]
    pub fn body(&self) -> &'a [u8]
        requires { IsFrame self.now }
        ensures bound { length result.now ≤ 268435455 }
        ensures reads { decoded (slice_index self.now.bytes.now 0) result.now ≡ read_frame self.now.bytes.now }
        ensures sized { (packet : Packet) → remaining_length packet ≡ length result.now → size_with (remaining_length packet) ≡ Some (length self.now.bytes.now) }
    {
        &self.bytes[self.header..]
    }

    /// Its size in bytes.
    #[inline(always)]
    pub fn size(&self) -> u32
        requires { IsFrame self.now }
        ensures { result ≡ length self.now.bytes.now }
    {
        self.bytes.len() as u32
    }
}
