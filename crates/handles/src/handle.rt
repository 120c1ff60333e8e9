//! A handle: an interner behind a pointer. C knows it by its address.

ghost use Rattle.std.specs.Prelude.{◌≡◌};
ghost use Rattle.std.specs.Box.Ownership.{box_owns};
ghost use Rattle.handles.specs.Owns.{Inner, freed};
ghost use Rattle.handles.specs.declared.any.AnyInterner.{AnyInterner};

mod lends;

use crate::any::AnyInterner;
use crate::loose::Loose;
use std::alloc::Global;
use std::marker::Model;

/// An interner behind a pointer: what `interner *` points to in C.
#[repr(C)]
pub struct Handle {
    at: *mut u8,
    alloc: Global,
    pub ghost value: { AnyInterner } by { Inner.coded },
}

impl Model for Handle {
    ghost also_owns = { λ h. box_owns (freed h.alloc) Inner h.at h.value };
}

impl Drop for Handle {
    fn drop(self) {
        drop(self.into_loose().into_box());
    }
}

impl Handle {
    /// Makes a handle that holds the interner of a box.
    pub fn of(interner: Box<AnyInterner, Global>) -> Handle
        ensures { result.value ≡ interner.value }
    {
        Handle::of_loose(Loose::of(interner))
    }

    /// Makes a handle from the parts of a box that holds an interner.
    fn of_loose(loose: Loose<AnyInterner, Global>) -> Handle
        ensures { result.value ≡ loose.value }
    {
        let Loose { at, alloc } = loose;
        Handle {
            at: at as *mut u8,
            alloc,
        }
    }

    /// Takes a handle apart.
    fn into_loose(self) -> Loose<AnyInterner, Global>
        ensures { result.value ≡ self.value }
    {
        let Handle { at, alloc } = self;
        Loose {
            at: at as *mut AnyInterner,
            alloc,
        }
    }
}

/// A handle may go to another thread, because the interner that it holds may.
unsafe impl Send for Handle {}
