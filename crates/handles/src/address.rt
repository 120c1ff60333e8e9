//! Addresses of handles, which C stores.

ghost use Rattle.std.specs.Prelude.{◌≡◌, Some, Option};
ghost use Rattle.std.specs.Coded.{coded_option};
ghost use Rattle.std.specs.Ptr.{if_non_null};
ghost use Rattle.std.specs.Box.Ownership.{box_owns};
ghost use Rattle.handles.specs.Owns.{freed};
ghost use Rattle.handles.specs.Address.{Behind, leads};
ghost use Rattle.handles.specs.declared.handle.Handle.{Handle};

use crate::handle::Handle;
use crate::loose::Loose;
use std::alloc::Global;
use std::marker::Model;

/// Where a call writes the address of a handle that it makes: what `interner **` points to in C. Before the call it may
/// hold anything.
#[derive(Drop)]
#[repr(C)]
pub struct Slot {
    at: *mut Handle,
    alloc: Global,
    pub ghost held: { Option Handle } by { coded_option Behind.coded },
}

impl Model for Slot {
    ghost also_owns = { λ s. leads (freed s.alloc) Behind s.at s.held };
}

impl Slot {
    /// Makes a slot that holds the address of a handle.
    pub fn of(handle: Box<Handle, Global>) -> Slot
        ensures { result.held ≡ Some handle.value }
    {
        Slot::of_loose(Loose::of(handle))
    }

    /// Makes a slot from the parts of a box that holds a handle.
    fn of_loose(loose: Loose<Handle, Global>) -> Slot
        ensures { result.held ≡ Some loose.value }
    {
        let Loose { at, alloc } = loose;
        Slot { at, alloc }
    }
}

/// The address of a handle that C gives back, or null: `interner *` of C. A struct of one pointer is passed by value as that
/// pointer is.
#[repr(C)]
pub struct Returned {
    at: *mut Handle,
    alloc: Global,
    ghost value: { Handle } by { Behind.coded },
}

impl Model for Returned {
    ghost also_owns = { λ r. if_non_null r.at (box_owns (freed r.alloc) Behind r.at r.value) };
}

impl Drop for Returned {
    fn drop(self) {
        if let Some(loose) = self.into_loose() {
            drop(loose.into_box());
        }
    }
}

impl Returned {
    /// Takes the parts of the handle's box, if it is not null.
    fn into_loose(self) -> Option<Loose<Handle, Global>> {
        let Returned { at, alloc } = self;
        if at.is_null() {
            None
        } else {
            Some(Loose { at, alloc })
        }
    }
}
