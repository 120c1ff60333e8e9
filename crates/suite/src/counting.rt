//! A backend of a caller: it hands all on to a `StringBackend`, and counts the texts that it is asked for.
//!
//! An interner owns its backend and gives nothing of it out but texts and symbols, and a program has no cell that is
//! shared by all. So the backend tells its count by what any caller sees, which texts are refused: between two times that
//! `SIGNAL` is resolved it counts nothing, and refuses two texts for each one that it was asked for.

ghost use Rattle.std.specs.Prelude.{◌≡◌, ◌^◌, ◌-◌};
ghost use Rattle.std.specs.Cmp.{partial_equiv_from_equiv, on_equiv};
ghost use Rattle.std.proofs.Common.{rules, refl};
ghost use Rattle.string_interner.specs.Text.{texts_eq, texts_eq-IsEquivalence};
ghost use Rattle.string_interner.specs.Numbering.{by_index};
ghost use Rattle.string_interner.specs.Symbol.{number_below};
ghost use Rattle.string_interner.specs.ByIndexLaws.{length_grows, reads_at_length};

use crate::own::SuiteBackend;
use crate::texts::Texts;
use std::alloc::{AllocError, Global};
use std::cell::Cell;
use string_interner::backend::{Backend, CopyBackend, InternError, Store, StringBackend};
use string_interner::symbol::{Symbol, SymbolU32};

/// The number of the last `SymbolU32`.
const SIGNAL: usize = 4294967294;

/// A backend that counts the texts that it is asked for. Its contracts promise no room.
#[derive(Drop)]
pub struct Counting {
    inner: StringBackend<SymbolU32>,
    asked: Cell<usize>,
    /// While the count is told: how many texts are still to be refused.
    owed: Cell<Option<usize>>,
}

impl Counting {
    /// Counts nothing so far.
    fn with_inner(inner: StringBackend<SymbolU32>) -> Self
        ensures { result.inner ≡ inner }
    {
        Counting {
            inner,
            asked: Cell::new(0),
            owed: Cell::new(None),
        }
    }

    /// Counts a text that is asked for.
    fn count_one(&self) {
        if self.owed.get().is_none() {
            self.asked.set(self.asked.get().wrapping_add(1));
        }
    }

    /// Begins to tell the count, or goes on to count. The count that was told is forgotten where all of it was.
    fn take_signal(&self) {
        match self.owed.take() {
            None => self.owed.set(Some(self.asked.get().wrapping_mul(2))),
            Some(0) => self.asked.set(0),
            Some(_) => {}
        }
    }

    /// Whether the next text is to be refused.
    fn owes(&self) -> bool {
        match self.owed.get() {
            None | Some(0) => false,
            Some(owed) => {
                self.owed.set(Some(owed.wrapping_sub(1)));
                true
            }
        }
    }
}

impl Store for Counting {
    type Symbol = SymbolU32;

    ghost texts = { λ b. b.inner.texts };

    ghost numbering = { by_index (number_below (2 ^ 32 - 1)) (λ symbol. symbol) (λ _. 1) };

    ghost room = { λ _. 0 };

    fn is_full(&self) -> bool {
        self.inner.is_full()
    }

    fn intern(&mut self, text: &str) -> Result<SymbolU32, InternError> {
        // Its clauses tell a proof what the list keeps to.
        let _ = self.inner.count();
        if !self.inner.is_full() && self.owes() {
            return Err(InternError::Memory(AllocError));
        }
        self.inner.intern(text)
    }

    fn resolve(&self, symbol: SymbolU32) -> Option<&str> {
        if symbol.to_usize() == SIGNAL {
            self.take_signal();
        } else {
            self.count_one();
        }
        self.inner.resolve(symbol)
    }

    fn resolve_unchecked(&self, symbol: SymbolU32) -> &str {
        self.count_one();
        self.inner.resolve_unchecked(symbol)
    }

    fn shrink_to_fit(&mut self) {
        self.inner.shrink_to_fit();
    }

    ghost symbols = { (refl, refl) };

    ghost starts = { refl };

    ghost grows = { length_grows };

    ghost costs = { λ text. Prim.search rules };

    ghost reads = { λ texts i kept within. reads_at_length texts i within };
}

impl Backend for Counting {
    ghost grant = { λ _. 0 };

    fn new(alloc: Global) -> Self {
        Counting::with_inner(StringBackend::new(alloc))
    }

    fn with_capacity(alloc: Global, capacity: usize) -> Result<Self, AllocError> {
        Ok(Counting::with_inner(StringBackend::with_capacity(alloc, capacity)?))
    }

    fn count(&self) -> usize {
        self.inner.count()
    }

    fn next_symbol(&self) -> Option<SymbolU32> {
        self.inner.next_symbol()
    }

    fn entry_at(&self, at: usize) -> (SymbolU32, &str, usize) {
        self.count_one();
        self.inner.entry_at(at)
    }

    fn truncate(&mut self, len: usize) {
        self.inner.truncate(len);
    }
}

impl CopyBackend for Counting {
    fn try_copy(&self) -> Result<Self, AllocError> {
        Ok(Counting::with_inner(self.inner.try_copy()?))
    }
}

impl PartialEq for Counting {
    ghost eq = { λ a b. texts_eq a.inner.texts b.inner.texts };

    ghost laws = { partial_equiv_from_equiv
        (on_equiv (λ b. b.inner.texts) texts_eq-IsEquivalence) };

    fn eq(&self, other: &Self) -> bool {
        self.inner == other.inner
    }
}

/// Resolves the number that a `Counting` takes as a signal. Other backends have nothing there.
pub fn signal<B: Backend, T: Texts<B>>(texts: &T) {
    if let Some(symbol) = B::Symbol::try_from_usize(SIGNAL) {
        let _ = texts.resolve(symbol);
    }
}

impl SuiteBackend for Counting {
    fn count_asked(&self) -> Option<usize> {
        Some(self.asked.replace(0))
    }
}
