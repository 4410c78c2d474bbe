//! The Authentication Method of a packet, as notes have it.
//!
//! Few packets have one. So its text lies in memory of its own, and a note hardly grows by it.

use crate::faults::Memory;
use crate::text::Text;
use std::alloc::Global;
use std::marker::Model;

/// The Authentication Method of a packet, if it has one (MQTT 5.0, section 4.12). A contract sees
/// the bytes of its UTF-8 encoding.
#[derive(Debug, Drop)]
pub struct Method {
    text: Option<Box<Text>>,
}

impl Model for Method {
    ghost use Rattle.std.specs.Prelude.{List, ℕ, Option, option_map};

    ghost Value = { Option (List ℕ) };

    ghost view = { λ m. option_map (λ text. text.value) m.text };
}

impl Method {
    ghost use Rattle.std.specs.Prelude.{◌≡◌, true, None, is_some, option_map, IfOk, OnErr};

    /// No Authentication Method.
    #[inline]
    pub fn none() -> Method
        ensures { result ≡ None }
    {
        Method { text: None }
    }

    /// A copy of the Authentication Method, if there is one.
    ///
    /// # Errors
    ///
    /// `Memory` if there is no memory for it. None needs none.
    pub fn of(alloc: Global, method: Option<&str>) -> Result<Method, Memory>
        ensures exact { IfOk result (λ copy. copy ≡ option_map (λ method. method.now) method.entry) }
        ensures needed { OnErr result (is_some method.entry ≡ true) }
    {
        let Some(method) = method else {
            return Ok(Method::none());
        };
        let text = Text::of(alloc, method)?;
        let text = Box::new(alloc, text)?;
        Ok(Method { text: Some(text) })
    }

    /// A copy of this one.
    ///
    /// # Errors
    ///
    /// `Memory` if there is no memory for it. None needs none.
    pub fn copy(&self, alloc: Global) -> Result<Method, Memory>
        ensures exact { IfOk result (λ copy. copy ≡ self.now) }
        ensures needed { OnErr result (is_some self.now ≡ true) }
    {
        Method::of(alloc, self.as_str())
    }

    /// The Authentication Method, if there is one.
    #[inline]
    pub fn as_str(&self) -> Option<&str>
        ensures { option_map (λ method. method.now) result ≡ self.now }
    {
        match &self.text {
            Some(text) => Some(text.as_str()),
            None => None,
        }
    }
}
