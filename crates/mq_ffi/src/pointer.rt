//! A judge as a pointer that C can hold.
ghost use Rattle.std.specs.Prelude.{◌≡◌, Option, Some, None, is_some, true};
ghost use Rattle.std.specs.Coded.{coded_option};
ghost use Rattle.mq_ffi.specs.Owning.{inside};
ghost use Rattle.mq_ffi.specs.declared.live.Live.{Live as TheLive};
ghost use Rattle.mq_ffi.specs.contracts.live.Live as live;

use crate::live::Live;
use crate::loose::Loose;
use std::alloc::Global;
use std::marker::Model;
use std::ptr::null_mut;

/// A pointer to a judge on the heap, which it owns, or to nothing.
#[repr(C)]
#[derive(Drop)]
pub struct Pointer {
    at: *mut u8,
    pub ghost live: { Option TheLive } by { coded_option live.the_row.coded },
}

impl Model for Pointer {
    ghost also_owns = { λ pointer. inside pointer.at pointer.live };
}

impl Pointer {
    /// A pointer to nothing.
    pub fn empty() -> Pointer
        ensures { result.live ≡ None }
    {
        Pointer { at: null_mut() }
    }

    /// The pointer of a box.
    pub fn of(loose: Loose<Live, Global>) -> Pointer
        ensures { result.live ≡ Some loose.value }
    {
        let Loose { at, alloc: _ } = loose;
        Pointer { at: at as *mut u8 }
    }

    /// The box of a pointer that owns a judge.
    pub fn into_loose(self, alloc: Global) -> Loose<Live, Global>
        requires { is_some self.live ≡ true }
        ensures { self.live ≡ Some result.value }
    {
        let Pointer { at } = self;
        Loose {
            at: at as *mut Live,
            alloc,
        }
    }
}
