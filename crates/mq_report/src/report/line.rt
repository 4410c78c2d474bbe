//! Lines, each complete before it is written.
ghost use Rattle.std.specs.Prelude.{◌≡◌, ◌++◌, IfSome, IfErr, OnOk};
ghost use Rattle.std.specs.Io.KnownBytes.{Appends};
ghost use Rattle.mq_trace.specs.Writing.{AppendsBeginning};
ghost use Rattle.mq_report.specs.Report.{line};

use super::super::lines::Lines;
use super::RunFault;
use mq_trace::WriteFault;
use std::fmt;
use std::fmt::{Display, Write as _};
use std::io::Write;

/// Writes these bytes.
///
/// # Errors
///
/// `Write` if a write failed: the writer returned an error, also one for an interruption, or took
/// no byte.
pub fn write_bytes<W: Write>(bytes: &[u8], writer: &mut W) -> Result<(), RunFault>
    ensures ok { OnOk result (Appends (W.contents writer.old) (W.contents writer.new) bytes.now) }
    ensures write { IfErr result (λ fault. (fault ≡ RunFault.Write)
        × AppendsBeginning (W.contents writer.old) (W.contents writer.new) bytes.now) }
{
    match mq_trace::write_bytes(bytes, writer) {
        Ok(()) => Ok(()),
        Err(WriteFault::Write) => Err(RunFault::Write),
    }
}

/// Writes a value as a line of its own, which is built in a buffer in place of what waited there.
///
/// # Errors
///
/// `Write` if a write failed, or the line has no room for the value.
pub fn write_line<D: Display + Drop, W: Write>(
    value: D,
    lines: &mut Lines,
    writer: &mut W,
) -> Result<(), RunFault>
    ensures ok { OnOk result (IfSome (D.output value) (λ text. Appends (W.contents writer.old) (W.contents writer.new) (line text))) }
    ensures write { IfErr result (λ fault. (fault ≡ RunFault.Write)
        × IfSome (D.output value) (λ text. AppendsBeginning (W.contents writer.old) (W.contents writer.new) (line text))) }
{
    lines.clear();
    match put_line(lines, value) {
        Ok(()) => write_bytes(lines.as_bytes(), writer),
        Err(_) => Err(RunFault::Write),
    }
}

// Appends a value as a line to those that wait.
//
// Errors: If there is no room for it. A beginning of it may then have been appended.
fn put_line<D: Display + Drop>(lines: &mut Lines, value: D) -> fmt::Result
    ensures { OnOk result (IfSome (D.output value) (λ text. lines.new ≡ lines.old ++ line text)) }
{
    lines.writeln(value)
}
