//! Where a handle has the box of what it holds, if it holds anything.
ghost use Rattle.std.specs.Prelude.{◌≡◌, None, Option, Some, is_some, true};
ghost use Rattle.lif_c.specs.Slots.{slot_owns};
ghost use Rattle.lif_c.specs.declared.opened.Opened.{Opened};

use crate::loose::Loose;
use crate::opened::Opened;
use std::alloc::Global;
use std::marker::Model;

/// A pointer that owns the box at it, where there is a value. Its type says nothing of what stands there, so that C can have it.
#[repr(C)]
pub(crate) struct Slot {
    at: *mut u8,
    pub(crate) ghost value: { Option Opened },
}

impl Model for Slot {
    ghost also_owns = { λ s. slot_owns s.at s.value };
}

impl Slot {
    /// Nothing.
    pub(crate) fn empty() -> Slot
        ensures { result.value ≡ None }
    {
        Slot {
            at: std::ptr::null_mut(),
        }
    }

    /// A value.
    pub(crate) fn of(loose: Loose<Opened, Global>) -> Slot
        ensures { result.value ≡ Some loose.value }
    {
        let Loose { at, alloc: _ } = loose;
        Slot { at: at as *mut u8 }
    }

    /// The value again.
    pub(crate) fn into_loose(self, alloc: Global) -> Loose<Opened, Global>
        requires { is_some self.value ≡ true }
        ensures { Some result.value ≡ self.value }
    {
        let Slot { at } = self;
        Loose {
            at: at as *mut Opened,
            alloc,
        }
    }

    /// Forgets it, where there is nothing.
    pub(crate) fn forget(self)
        requires { self.value ≡ None }
    {
        let Slot { at: _ } = self;
    }
}
