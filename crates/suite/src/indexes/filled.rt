//! A backend of distinct texts with an index of them.

ghost use Rattle.std.specs.Prelude.{◌≡◌};
ghost use Rattle.string_interner.specs.Interner.{known_symbol};

use crate::texts::Texts;
use std::alloc::{AllocError, Global};
use std::marker::Model;
use string_interner::backend::{Backend, InternError, Iter};
use string_interner::dedup::{Index, Looks, TextHasher};

/// A backend of distinct texts with an index of them, by the public calls of both alone.
#[derive(Drop)]
pub struct Filled<B: Backend, H: TextHasher> {
    backend: B,
    hasher: H,
    index: Index<B::Symbol>,
}

/// Contracts see the texts.
impl<B: Backend, H: TextHasher> Model for Filled<B, H> {
    ghost use Rattle.std.specs.Prelude.{List};
    ghost use Rattle.string_interner.specs.Text.{Text};
    ghost use Rattle.string_interner.specs.Interner.{IsSoundInterner};
    ghost use Rattle.string_interner.specs.Layout.{IsTable, plain_layout};
    ghost use Rattle.string_interner.specs.Table.{entry_count};

    ghost Value = { List Text };

    ghost view = { λ f. B.texts f.backend };

    ghost invariant = { λ f. IsSoundInterner B.numbering
        (λ entry. IsTable plain_layout entry (H.code f.hasher) f.index.slots)
        (entry_count plain_layout f.index) (B.texts f.backend) };
}

impl<B: Backend, H: TextHasher + Default> Filled<B, H> {
    /// No texts.
    pub fn new(alloc: Global) -> Self {
        Filled {
            backend: B::new(alloc),
            hasher: H::default(),
            index: Index::new(alloc),
        }
    }

    /// No texts, with an index of a capacity.
    pub fn with_capacity(alloc: Global, capacity: usize) -> Result<Self, AllocError> {
        let index = Index::with_capacity(alloc, capacity)?;
        Ok(Filled {
            backend: B::new(alloc),
            hasher: H::default(),
            index,
        })
    }
}

impl<B: Backend, H: TextHasher> Filled<B, H> {
    /// The backend.
    pub fn backend(&self) -> &B {
        &self.backend
    }

    /// The index.
    pub fn index(&self) -> &Index<B::Symbol> {
        &self.index
    }

    /// Calls `reserve_one`.
    pub fn reserve(&mut self) -> Result<(), AllocError> {
        self.index.reserve_one(&self.hasher, &self.backend)
    }

    /// Truncates the backend and calls `refill`.
    pub fn truncate(&mut self, len: usize) {
        if len < self.backend.count() {
            let _ = self.index.slots();
            self.backend.truncate(len);
            self.index.refill(&self.hasher, &self.backend);
        }
    }
}

impl<B: Backend, H: TextHasher> Texts<B> for Filled<B, H> {
    fn entries(&self) -> Iter<'_, B> {
        self.backend.iter()
    }

    /// Calls `find`.
    fn find(&self, text: &str) -> Option<B::Symbol>
        ensures { result ≡ known_symbol B.numbering self.now text.now }
    {
        let mut looks = Looks::new(&self.backend);
        self.index.find(&self.hasher, &mut looks, text)
    }

    fn resolve(&self, symbol: B::Symbol) -> Option<&str> {
        self.backend.resolve(symbol)
    }

    /// Interns a text in the backend and calls `insert` with its symbol, unless the text is there.
    fn intern(&mut self, text: &str) -> Result<B::Symbol, InternError> {
        if let Some(symbol) = self.find(text) {
            return Ok(symbol);
        }
        self.index
            .reserve_one(&self.hasher, &self.backend)
            .map_err(InternError::Memory)?;
        let symbol = self.backend.intern(text)?;
        self.index.insert(&self.hasher, &self.backend, symbol);
        Ok(symbol)
    }
}
