ghost use Rattle.std.specs.Prelude.{◌≡◌, Option, None, Some, true, false, is_some};
ghost use Rattle.std.specs.Coded.{coded_option};
ghost use Rattle.morph_c.specs.Slots.{Held, held_coded};

use crate::held::Held;
use crate::loose::Loose;
use std::alloc::Global;
use std::marker::Model;
use std::ptr::null_mut;

/// What C points to and doesn't look into.
#[repr(C)]
pub struct Inside {
    /// Nothing is read of it.
    byte: u8,
}

/// The memory behind a project as C holds it: a value of its own, or none.
#[repr(C)]
pub struct Slot {
    /// Where the value is.
    at: *mut Inside,
    /// The value, if there is one.
    pub ghost value: { Option Held } by { coded_option held_coded },
}

impl Model for Slot {
    ghost use Rattle.morph_c.specs.Slots.{slot_owns};

    ghost also_owns = { λ s. slot_owns s.at s.value };
}

impl Slot {
    /// No value.
    pub(crate) fn none() -> Slot
        ensures { result.value ≡ None }
    {
        Slot { at: null_mut() }
    }

    /// This value.
    pub(crate) fn of(held: Loose<Held, Global>) -> Slot
        ensures { result.value ≡ Some held.value }
    {
        let Loose { at, alloc: _ } = held;
        Slot {
            at: at as *mut Inside,
        }
    }

    /// Lets go of a slot that has no value.
    pub(crate) fn discard(self)
        requires { is_some self.value ≡ false }
    {
        let Slot { at: _ } = self;
    }

    /// The value.
    pub(crate) fn into_loose(self, alloc: Global) -> Loose<Held, Global>
        requires { is_some self.value ≡ true }
        ensures { self.value ≡ Some result.value }
    {
        let Slot { at } = self;
        Loose {
            at: at as *mut Held,
            alloc,
        }
    }
}
