//! A record's head, as far as its kind and its length came: the same for a reader of events and for
//! a copier.

ghost use Rattle.std.specs.Prelude.{◌≡◌, ◌+◌, ◌*◌, ◌<◌, ◌≤◌, Some, None, OnOk, IfOk, IfErr};
ghost use Rattle.mq_log.specs.Framing.{kind_named};
ghost use Rattle.mq_log.specs.Refusals.{first_byte_refusal};
ghost use Rattle.mq_trace.specs.Heads.{IsHeadStep, begin_refusal, head_of};

use mq_log::{RecordKind, Refusal};

/// A record's kind, and 0 to 3 of the four bytes of its body's length.
#[derive(Clone, Copy)]
pub struct Head {
    /// The kind that the record's first byte names.
    pub kind: RecordKind,
    /// How many bytes of the length came: 0 to 3.
    pub count: u8,
    /// The number that they spell, the most significant byte first.
    pub number: u32,
}

/// What the next byte of a record's length is to its head.
#[derive(Clone, Copy)]
pub enum HeadStep {
    /// More of the length is to come.
    GoesOn {
        /// How many bytes of it came: 1 to 3.
        count: u8,
        /// The number that they spell.
        number: u32,
    },
    /// The length is whole, and this.
    Ends(u32),
    /// The length is whole, and the kind doesn't allow it.
    Barred,
}

impl Head {
    /// The head of the record that this byte begins, the one at this offset in the log: by whether
    /// the log has releases, whether a connection is open, and how many records came before.
    ///
    /// # Errors
    ///
    /// The refusal that applies at the byte.
    #[inline(always)]
    pub fn from_byte(
        byte: u8,
        at: u64,
        releases: bool,
        connected: bool,
        records: u32,
    ) -> Result<Head, Refusal>
        ensures named { IfOk result (λ head. kind_named byte ≡ Some head.kind) }
        ensures met { IfOk result (λ head. first_byte_refusal at releases connected records head.kind ≡ None) }
        ensures room { OnOk result (records < 4294967295) }
        ensures begun { IfOk result (λ head. head ≡ head_of head.kind 0 0) }
        ensures refused { IfErr result (λ refusal. begin_refusal at releases connected records (kind_named byte) ≡ Some refusal) }
    {
        let Some(kind) = RecordKind::from_byte(byte) else {
            return Err(Refusal::Kind(at));
        };
        if let Some(refusal) = kind.refusal(at, releases, connected, records) {
            return Err(refusal);
        }
        Ok(Head {
            kind,
            count: 0,
            number: 0,
        })
    }

    /// What the next byte of the length is, in a log of this version.
    #[inline(always)]
    pub fn step(self, version: u8, byte: u8) -> HeadStep
        requires few { self.count ≤ 3 }
        requires small { self.number < 16777216 }
        ensures { IsHeadStep version self byte result }
    {
        let number = self.number * 256 + u32::from(byte);
        if self.count < 3 {
            HeadStep::GoesOn {
                count: self.count + 1,
                number,
            }
        } else if self.kind.allows(version, number) {
            HeadStep::Ends(number)
        } else {
            HeadStep::Barred
        }
    }
}
