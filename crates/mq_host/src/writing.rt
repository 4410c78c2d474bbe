//! Writing a text to the end.
ghost use Rattle.std.specs.Prelude.{◌≡◌, IfErr, OnOk};
ghost use Rattle.std.specs.Io.KnownBytes.{Appends, Keeps};
ghost use Rattle.mq_trace.specs.Writing.{AppendsBeginning};
ghost use Rattle.mq_host.specs.Streams.{AppendsPart};

use crate::failure::Failure;
use mq_trace::{WriteFault, write_bytes};
use std::io::Write;

/// Writes the text, and flushes the writer.
///
/// # Errors
///
/// `Write` if a write or the flush failed. Part of the text, or all of it, was then written.
pub fn write_out<W: Write>(text: &str, writer: &mut W) -> Result<(), Failure>
    ensures written { OnOk result (Appends (W.contents writer.old) (W.contents writer.new) text.now) }
    ensures failed { IfErr result (λ failure. failure ≡ Failure.Write) }
    ensures begun { IfErr result (λ _. AppendsPart (W.contents writer.old) (W.contents writer.new) text.now) }
{
    write_text(text, writer)?;
    flush(writer)
}

// Writes the text. If a write fails, also by an interruption, a beginning of the text, but not all
// of it, was written.
fn write_text<W: Write>(text: &str, writer: &mut W) -> Result<(), Failure>
    ensures written { OnOk result (Appends (W.contents writer.old) (W.contents writer.new) text.now) }
    ensures failed { IfErr result (λ failure. failure ≡ Failure.Write) }
    ensures begun { IfErr result (λ _. AppendsBeginning (W.contents writer.old) (W.contents writer.new) text.now) }
{
    match write_bytes(text.as_bytes(), writer) {
        Ok(()) => Ok(()),
        Err(WriteFault::Write) => Err(Failure::Write),
    }
}

/// Flushes the writer.
///
/// # Errors
///
/// `Write` if the flush failed.
pub fn flush<W: Write>(writer: &mut W) -> Result<(), Failure>
    ensures kept { Keeps (W.contents writer.old) (W.contents writer.new) }
    ensures failed { IfErr result (λ failure. failure ≡ Failure.Write) }
{
    writer.flush().map_err(|_| Failure::Write)
}
