//! Reading a text from standard input.
ghost use Rattle.std.specs.Prelude.{◌≡◌, ◌≢◌, ◌<◌, ◌^◌, IfErr, IfOk, IfSome, length};

use std::alloc::Global;
use std::io::{ErrorKind, Read};

/// How many bytes of text are taken: 128 MiB, so that a packet of 16,777,216 bytes may have eight
/// characters for each byte.
pub const MOST_TEXT: u64 = 134_217_728;

/// Why no text was read.
#[derive(Clone, Copy)]
pub enum NoText {
    /// Reading failed.
    Unread,
    /// Memory ran out.
    Memory,
    /// There is more text than is taken.
    TooLong,
}

/// Reads all that a reader gives, at most so many bytes.
///
/// # Errors
///
/// Why there is no text.
pub fn read_text<R: Read>(alloc: Global, reader: &mut R, most: u64) -> Result<Vec<u8>, NoText>
    requires { most < 2 ^ 63 }
    ensures text { IfOk result (λ text. IfSome (R.remaining reader.old) (λ all. all ≡ text.items)) }
    ensures long { IfErr result (λ why. why ≡ NoText.TooLong → IfSome (R.remaining reader.old) (λ all. most < length all)) }
{
    let mut text = Vec::new(alloc);
    match reader.take(most + 1).read_to_end(&mut text) {
        Ok(_) => {
            if most < text.len() as u64 {
                Err(NoText::TooLong)
            } else {
                Ok(text)
            }
        }
        Err(error) => Err(reason_of(error.kind())),
    }
}

// Why there is no text, by the kind of the error.
fn reason_of(kind: ErrorKind) -> NoText
    ensures { result ≢ NoText.TooLong }
{
    match kind {
        ErrorKind::OutOfMemory => NoText::Memory,
        _ => NoText::Unread,
    }
}
