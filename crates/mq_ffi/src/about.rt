//! Texts in a caller's buffer.
ghost use Rattle.std.specs.Prelude.{option_map};
ghost use Rattle.mq_ffi.specs.Asking.{statement_at as statement_of, role_at as role_of};
ghost use Rattle.mq_ffi.specs.Texts.{PutsText, PutsTextIfSome, PutsCitation};

use crate::answer::{Trouble, code_of};
use crate::fault::{role_at, statement_at};

/// Puts a text and a zero byte at the start of a buffer. `length` is then that of the text, also if
/// there is no room.
pub fn put_text(text: &str, buffer: &mut [u8], length: &mut usize) -> Result<(), Trouble>
    ensures { PutsText text.now buffer.old buffer.new length.new result }
{
    let bytes = text.as_bytes();
    *length = bytes.len();
    if buffer.len() <= bytes.len() {
        return Err(Trouble::Room);
    }
    buffer[..bytes.len()].copy_from_slice(bytes);
    buffer[bytes.len()] = 0;
    Ok(())
}

/// Puts a text, if there is one.
pub fn put_text_if_some(text: Option<&'static str>, buffer: &mut [u8], length: &mut usize) -> u32
    ensures { PutsTextIfSome (option_map (λ t. t.now) text.entry) buffer.old buffer.new length.old length.new result }
{
    match text {
        Some(text) => code_of(put_text(text, buffer, length)),
        None => code_of(Err(Trouble::Absent)),
    }
}

/// Puts the citation of a statement for an end, by their numbers.
pub fn put_citation(statement: u32, server: u32, buffer: &mut [u8], length: &mut usize) -> u32
    ensures { PutsCitation (statement_of statement) (role_of server) buffer.old buffer.new length.old length.new result }
{
    let Some(rule) = statement_at(statement) else {
        return code_of(Err(Trouble::Absent));
    };
    match role_at(server) {
        Some(role) => code_of(put_text(rule.citation(role), buffer, length)),
        None => code_of(Err(Trouble::Value)),
    }
}
