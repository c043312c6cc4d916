//! Handles: what a caller holds.
ghost use Rattle.std.specs.Prelude.{◌≡◌, is_some};

use crate::loose::Loose;
use crate::opened::Opened;
use crate::slot::Slot;
use std::alloc::Global;
use std::mem::replace;

/// What a caller has of a code, a node or a sink. All bytes zero are a closed handle.
#[repr(C)]
pub struct Handle {
    slot: Slot,
    is_open: bool,
    ghost says: { is_open ≡ is_some slot.value },
}

impl Handle {
    ghost use Rattle.std.specs.Prelude.{◌≡◌, None, Some, is_some, option_map};
    ghost use Rattle.lif_c.specs.Held.{held};

    fn closed() -> Handle
        ensures { held result ≡ None }
    {
        Handle {
            slot: Slot::empty(),
            is_open: false,
        }
    }

    fn of(opened: Box<Opened>) -> Handle
        ensures { held result ≡ Some opened.value }
    {
        Handle {
            slot: Slot::of(Loose::of(opened)),
            is_open: true,
        }
    }

    fn into_box(self, alloc: Global) -> Option<Box<Opened>>
        ensures { option_map (λ opened. opened.value) result ≡ held self }
    {
        let Handle { slot, is_open } = self;
        if is_open {
            Some(slot.into_loose(alloc).into_box())
        } else {
            slot.forget();
            None
        }
    }

    fn forget(self)
        requires { held self ≡ None }
    {
        let Handle { slot, is_open: _ } = self;
        slot.forget();
    }

    /// Whether it holds anything.
    pub(crate) fn is_open(&self) -> bool
        ensures { result ≡ is_some (held self.now) }
    {
        self.is_open
    }

    /// Takes out what it holds, which closes it.
    pub(crate) fn take(&mut self, alloc: Global) -> Option<Box<Opened>>
        ensures taken { option_map (λ opened. opened.value) result ≡ held self.old }
        ensures closed { held self.new ≡ None }
    {
        replace(self, Handle::closed()).into_box(alloc)
    }

    /// Has it hold what it is given.
    pub(crate) fn put(&mut self, opened: Box<Opened>)
        requires { held self.old ≡ None }
        ensures { held self.new ≡ Some opened.value }
    {
        replace(self, Handle::of(opened)).forget();
    }
}
