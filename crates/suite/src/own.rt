//! What the backends offer beyond the trait `Backend`, each under its own type, and what an interner offers under some
//! hashers alone: in one trait each, so that a scenario reaches it over any of them.

use crate::fault::{Failure, Mistake};
use crate::odd::Salted;
use std::alloc::AllocError;
use string_interner::StringInterner;
use string_interner::backend::{Backend, BucketBackend, BufferBackend, CopyBackend, StringBackend};
use string_interner::dedup::{CopyIndex, TextHasher};
use string_interner::symbol::Symbol;

/// A backend of the scenarios.
pub trait SuiteBackend: Backend + CopyBackend + PartialEq + Drop {
    /// Counts the texts that it was asked for since this was last called, if it counts them at all.
    fn count_asked(&self) -> Option<usize> {
        None
    }

    /// Calls `as_bytes`, where the backend offers that.
    fn bytes(&self) -> Option<&[u8]> {
        None
    }

    /// Calls `clone`, where the backend offers that, and else `try_copy`.
    fn make_clone(&self) -> Result<Self, AllocError> {
        self.try_copy()
    }
}

impl<S: Symbol> SuiteBackend for StringBackend<S> {
    fn make_clone(&self) -> Result<Self, AllocError> {
        self.clone()
    }
}

impl<S: Symbol> SuiteBackend for BucketBackend<S> {
    fn make_clone(&self) -> Result<Self, AllocError> {
        self.clone()
    }
}

impl<S: Symbol> SuiteBackend for BufferBackend<S> {
    fn bytes(&self) -> Option<&[u8]> {
        Some(self.as_bytes())
    }

    fn make_clone(&self) -> Result<Self, AllocError> {
        self.clone()
    }
}

/// A hasher of the scenarios.
pub trait SuiteHasher: TextHasher + Default + Clone + Drop {
    /// Calls `try_copy`, where an interner under this hasher offers that.
    fn copy_interner<B: CopyBackend + Drop, I: CopyIndex<B::Symbol> + Drop>(
        interner: &StringInterner<B, Self, I>,
    ) -> Result<StringInterner<B, Self, I>, Failure>;
}

impl<H: TextHasher + Default + Copy> SuiteHasher for H {
    fn copy_interner<B: CopyBackend + Drop, I: CopyIndex<B::Symbol> + Drop>(
        interner: &StringInterner<B, Self, I>,
    ) -> Result<StringInterner<B, Self, I>, Failure> {
        Ok(interner.try_copy()?)
    }
}

/// It is no `Copy` hasher, since its clone has another salt.
impl SuiteHasher for Salted {
    fn copy_interner<B: CopyBackend + Drop, I: CopyIndex<B::Symbol> + Drop>(
        _interner: &StringInterner<B, Self, I>,
    ) -> Result<StringInterner<B, Self, I>, Failure> {
        Err(Failure::Line(Mistake::NotOffered))
    }
}
