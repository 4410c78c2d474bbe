//! Text on its way to a writer.
ghost use Rattle.std.specs.Prelude.{◌≡◌, ◌≤◌, ◌+◌, ◌++◌, false, true, IfErr, OnOk, [], decimal, length};
ghost use Rattle.std.specs.Io.KnownBytes.{Appends};
ghost use Rattle.mq_display.specs.Outgoing.{Puts};
ghost use Rattle.mq_report.specs.Report.{StopsWriting};

use mq_log::Refusal;
use mq_report::{Lines, RunFault, write_bytes};
use std::fmt;
use std::fmt::Write as _;
use std::io::Write;

/// How many bytes `make_room` makes room for. The longest line of an event without its details has
/// 106.
const LINE_ROOM: usize = 160;

/// Text on its way to a writer, through a buffer of 8,192 bytes that is written when it has no room
/// for more. As `fmt::DebugStruct` does, it keeps the first failure: nothing is written after it,
/// and `result` returns it.
pub struct Outgoing<'a, W> {
    pub(super) lines: Lines,
    pub(super) writer: &'a mut W,
    pub(super) failed: bool,
}

impl<W> Drop for Outgoing<'_, W> {
    fn drop(self)
        ensures { self.exit.1.0.now ≡ self.entry.writer.now }
    {
        let Self {
            lines: _lines,
            writer: _,
            failed: _,
        } = self;
    }
}

impl<'a, W> Outgoing<'a, W> {
    /// No text yet, for this writer.
    pub fn to(writer: &'a mut W) -> Self
        ensures { (result.writer ≡ writer.entry) × (result.lines ≡ []) × (result.failed ≡ false) }
    {
        Outgoing {
            lines: Lines::new(),
            writer,
            failed: false,
        }
    }
}

impl<W: Write> Outgoing<'_, W> {
    /// Appends a text of any length. If it has no room among what waits, that is written first.
    pub fn put(&mut self, text: &str)
        ensures { Puts W.contents self.old text.now self.new }
    {
        self.put_bytes(text.as_bytes());
    }

    /// Appends a number in decimal digits in the same way.
    pub fn put_number(&mut self, number: u64)
        ensures { Puts W.contents self.old (decimal number) self.new }
    {
        self.make_room();
        self.failed = put_unless_failed(self.failed, &mut self.lines, number);
    }

    /// Appends bytes in the same way.
    pub fn put_bytes(&mut self, bytes: &[u8])
        ensures { Puts W.contents self.old bytes.now self.new }
    {
        match self.lines.put_bytes(bytes) {
            Ok(()) => {}
            Err(_) => self.write_through(bytes),
        }
    }

    /// Makes room for 160 bytes in `lines`. After a failure what waits is dropped.
    #[inline(always)]
    pub fn make_room(&mut self)
        ensures room { length self.new.lines + 160 ≤ 8192 }
        ensures puts { Puts W.contents self.old [] self.new }
    {
        if self.lines.has_room(LINE_ROOM) {
            return;
        }
        self.write_out();
    }

    /// Whether no write has failed so far.
    ///
    /// # Errors
    ///
    /// `Memory(0)` if a write failed.
    #[inline(always)]
    pub fn result(&self) -> Result<(), Refusal>
        ensures ok { OnOk result (self.now.failed ≡ false) }
        ensures err { IfErr result (λ _. self.now.failed ≡ true) }
    {
        if self.failed {
            return Err(Refusal::Memory(0));
        }
        Ok(())
    }

    /// Writes what waits, at the end.
    ///
    /// # Errors
    ///
    /// `Write` if a write failed, now or before. After an earlier failure nothing is written.
    pub fn write_last(&mut self) -> Result<(), RunFault>
        ensures same { self.new.writer.ghost_name ≡ self.old.writer.ghost_name }
        ensures written { OnOk result ((self.old.failed ≡ false) × Appends (W.contents self.old.writer.now) (W.contents self.new.writer.now) self.old.lines) }
        ensures failed { IfErr result (λ fault. (fault ≡ RunFault.Write) × StopsWriting self.old.failed (W.contents self.old.writer.now) (W.contents self.new.writer.now) self.old.lines) }
    {
        if self.failed {
            return Err(RunFault::Write);
        }
        write_bytes(self.lines.as_bytes(), self.writer)
    }

    // Writes what waits, and then these bytes.
    fn write_through(&mut self, bytes: &[u8])
        ensures { Puts W.contents self.old bytes.now self.new }
    {
        self.write_out();
        self.failed = write_unless_failed(self.failed, bytes, self.writer);
    }

    // Writes what waits.
    fn write_out(&mut self)
        ensures empty { self.new.lines ≡ [] }
        ensures puts { Puts W.contents self.old [] self.new }
    {
        self.failed = write_unless_failed(self.failed, self.lines.as_bytes(), self.writer);
        self.lines.clear();
    }
}

// Appends a number to what waits. Returns true if a write has failed before, or if there is no
// room: 160 bytes have room for any number.
fn put_unless_failed(failed: bool, lines: &mut Lines, number: u64) -> bool
    ensures { result ≡ false → (failed ≡ false) × (lines.new ≡ lines.old ++ decimal number) }
{
    match put_digits(lines, number) {
        Ok(()) => failed,
        Err(_) => true,
    }
}

// Appends a number's decimal digits to what waits.
fn put_digits(lines: &mut Lines, number: u64) -> fmt::Result
    ensures { OnOk result (lines.new ≡ lines.old ++ decimal number) }
{
    write!(lines, "{number}")
}

// Writes bytes, if no write has failed before. Returns whether one has failed, now or before.
fn write_unless_failed<W: Write>(failed: bool, bytes: &[u8], writer: &mut W) -> bool
    ensures written { result ≡ false → (failed ≡ false) × Appends (W.contents writer.old) (W.contents writer.new) bytes.now }
    ensures stopped { result ≡ true → StopsWriting failed (W.contents writer.old) (W.contents writer.new) bytes.now }
{
    if failed {
        return true;
    }
    write_bytes(bytes, writer).is_err()
}
