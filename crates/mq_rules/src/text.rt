//! Texts that notes own. A contract sees each as a plain list of bytes.
//!
//! A short text is stored in the value itself, so making one can't fail.

use crate::copying::copy_text;
use crate::faults::Memory;
use crate::short_text::{ROOM, ShortText};
use std::alloc::Global;
use std::marker::Model;

/// Where the bytes of a text are.
#[derive(Debug, Drop)]
enum Form {
    Short(ShortText),
    Long(String),
}

/// A text, of at most 65,535 bytes. A contract sees the bytes of its UTF-8 encoding.
///
/// Most Topic Names are short: they are stored in the value itself, so that a note of one takes no
/// memory of its own.
#[derive(Debug, Drop)]
pub struct Text {
    form: Form,
}

impl Model for Text {
    ghost use Rattle.std.specs.Prelude.{List, ℕ};
    ghost use Rattle.mq_rules.specs.Texts.{form_bytes};

    ghost Value = { List ℕ };

    ghost view = { λ t. form_bytes t.form };
}

impl Text {
    ghost use Rattle.std.specs.Prelude.{◌≡◌, ◌<◌, ◌≤◌, ◌==◌, nat_le, [], length, IfOk, OnErr};

    /// The empty text.
    #[inline(always)]
    pub fn empty() -> Text
        ensures { result ≡ [] }
    {
        Text {
            form: Form::Short(ShortText::empty()),
        }
    }

    /// A copy of the text.
    ///
    /// # Errors
    ///
    /// `Memory` if there is no memory for it. A text of at most 30 bytes needs none.
    #[inline(always)]
    pub fn of(alloc: Global, text: &str) -> Result<Text, Memory>
        ensures exact { IfOk result (λ copy. copy ≡ text.now) }
        ensures needed { OnErr result (30 < length text.now) }
    {
        if Text::is_short(text) {
            Ok(Text::short(text))
        } else {
            Text::long(alloc, text)
        }
    }

    /// A copy of this text.
    ///
    /// # Errors
    ///
    /// `Memory` if there is no memory for it. A text of at most 30 bytes needs none.
    pub fn copy(&self, alloc: Global) -> Result<Text, Memory>
        ensures exact { IfOk result (λ copy. copy ≡ self.now) }
        ensures needed { OnErr result (30 < length self.now) }
    {
        Text::of(alloc, self.as_str())
    }

    /// Whether a copy of the text lies in the value itself.
    #[inline(always)]
    pub fn is_short(text: &str) -> bool
        ensures { result ≡ nat_le (length text.now) 30 }
    {
        text.len() <= ROOM
    }

    /// A copy of the text, which lies in the value itself.
    #[inline(always)]
    pub fn short(text: &str) -> Text
        requires { length text.now ≤ 30 }
        ensures { result ≡ text.now }
    {
        Text {
            form: Form::Short(ShortText::of(text)),
        }
    }

    // A copy of the text, in memory of its own.
    #[inline(never)]
    fn long(alloc: Global, text: &str) -> Result<Text, Memory>
        ensures { IfOk result (λ copy. copy ≡ text.now) }
    {
        let text = copy_text(alloc, text)?;
        Ok(Text {
            form: Form::Long(text),
        })
    }

    /// The text.
    #[inline]
    pub fn as_str(&self) -> &str
        ensures { result.now ≡ self.now }
    {
        match &self.form {
            Form::Short(text) => text.as_str(),
            Form::Long(text) => text.as_str(),
        }
    }

    /// How many bytes it has.
    #[inline]
    pub fn len(&self) -> usize
        ensures { result ≡ length self.now }
    {
        match &self.form {
            Form::Short(text) => text.len(),
            Form::Long(text) => text.len(),
        }
    }

    /// Whether it is empty.
    #[inline]
    pub fn is_empty(&self) -> bool
        ensures { result ≡ (length self.now == 0) }
    {
        self.len() == 0
    }
}

/// A Topic Filter of a SUBSCRIBE, with its Subscription Options (MQTT 5.0, section 3.8.3), or of an
/// UNSUBSCRIBE, which has none.
#[derive(Debug, Drop)]
pub struct NotedFilter {
    /// The Topic Filter.
    pub filter: Text,
    /// The Subscription Options, or 0 if there are none. Bits 1 and 0 are the Maximum QoS, 0 to 2.
    pub options: u8,
}
