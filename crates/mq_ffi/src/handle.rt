//! What a caller holds in place of a judge.
ghost use Rattle.std.specs.Prelude.{◌≡◌, Some, None, is_some, true, option_map};
ghost use Rattle.mq_ffi.specs.Owning.{held_by};

use crate::live::Live;
use crate::loose::Loose;
use crate::pointer::Pointer;
use std::alloc::Global;
use std::mem::replace;

/// The number that says that a handle holds a judge.
const HOLDS: u64 = 1;

/// A caller's handle. C's `mqjudge` has the same fields, in this order, and its caller never writes
/// them.
#[repr(C)]
pub struct Handle {
    pointer: Pointer,
    holds: u64,
    ghost made: { holds ≡ 1 → is_some pointer.live ≡ true },
}

// A handle is let go only if it holds no judge: so what a caller held was freed, or is held on.
impl Drop for Handle {
    fn drop(self)
        requires { held_by self.holds self.pointer.live ≡ None }
    {
        let Handle {
            pointer: _pointer,
            holds: _holds,
        } = self;
    }
}

impl Handle {
    /// A handle that holds nothing.
    pub fn empty() -> Handle
        ensures { held_by result.holds result.pointer.live ≡ None }
    {
        Handle {
            pointer: Pointer::empty(),
            holds: 0,
        }
    }

    /// A handle that holds this judge.
    pub fn of(live: Box<Live>) -> Handle
        ensures { held_by result.holds result.pointer.live ≡ Some live.value }
    {
        Handle {
            pointer: Pointer::of(Loose::of(live)),
            holds: HOLDS,
        }
    }

    /// Whether it holds a judge.
    pub fn is_held(&self) -> bool
        ensures { result ≡ is_some (held_by self.now.holds self.now.pointer.live) }
    {
        self.holds == HOLDS
    }

    /// Takes the judge out, if there is one. The handle is then empty.
    pub fn take(&mut self, alloc: Global) -> Option<Box<Live>>
        ensures taken { option_map (λ live. live.value) result ≡ held_by self.old.holds self.old.pointer.live }
        ensures empty { held_by self.new.holds self.new.pointer.live ≡ None }
    {
        replace(self, Handle::empty()).into_judge(alloc)
    }

    // The judge, if there is one.
    fn into_judge(self, alloc: Global) -> Option<Box<Live>>
        ensures { option_map (λ live. live.value) result ≡ held_by self.holds self.pointer.live }
    {
        let Handle { pointer, holds } = self;
        if holds != HOLDS {
            return None;
        }
        Some(pointer.into_loose(alloc).into_box())
    }

    /// Puts a judge into an empty handle.
    pub fn put(&mut self, live: Box<Live>)
        requires { held_by self.old.holds self.old.pointer.live ≡ None }
        ensures { held_by self.new.holds self.new.pointer.live ≡ Some live.value }
    {
        *self = Handle::of(live);
    }
}
