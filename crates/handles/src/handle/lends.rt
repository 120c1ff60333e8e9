//! The interner of a handle.

ghost use Rattle.std.specs.Prelude.{◌≡◌};
ghost use types.Logic.{sem};
ghost use Rattle.handles.specs.Follows.{IsKept, handle_follows};

use super::Handle;
use crate::any::AnyInterner;

impl Handle {
    /// Lends the interner of a handle.
    pub fn interner(&mut self) -> &mut AnyInterner
        ensures* writes_back { sem 𝓛 (handle_follows self.entry result) }
        ensures value { result.now ≡ self.old.value }
    {
        unsafe { &mut *(self.at as *mut AnyInterner) }
    }

    /// Lends the interner of a handle to be read. Once it comes back, the handle holds what it held.
    pub fn read(&mut self) -> &AnyInterner
        ensures* same { sem 𝓛 (IsKept self.entry) }
        ensures value { result.now ≡ self.old.value }
    {
        self.interner()
    }
}
