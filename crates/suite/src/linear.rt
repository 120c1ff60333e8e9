//! An index of a caller.

ghost use Rattle.std.specs.Prelude.{◌≡◌, ◌≤◌, IfNone, IfOk, IfSome, Some, [], length, vec_capacity};
ghost use Rattle.string_interner.specs.Entry.{entry_text};
ghost use Rattle.string_interner.specs.TextIndex.{IsNewText};
ghost use Rattle.suite.specs.LinearIndex.{IsListed};

use std::alloc::{AllocError, Global};
use std::marker::Model;
use string_interner::backend::{Backend, Store};
use string_interner::dedup::{CopyIndex, Entry, TextHasher, TextIndex};
use string_interner::symbol::Symbol;

/// A list of symbols that is searched from its front. It hashes nothing, has no slot without a symbol but those that it
/// was made with, and grows by one.
#[derive(Drop)]
pub struct LinearIndex<S: Symbol> {
    symbols: Vec<S>,
}

/// Contracts see the list, and for how many symbols there is room.
impl<S: Symbol> Model for LinearIndex<S> {
    ghost use Rattle.std.specs.Prelude.{vec_capacity};
    ghost use Rattle.suite.specs.LinearIndex.{LinearContents};

    ghost Value = { LinearContents S };

    ghost view = { λ i. record { symbols = i.symbols.items; slots = vec_capacity i.symbols } };
}

/// The first symbol whose text this is.
fn find<S: Symbol, B: Store<Symbol = S>>(symbols: &[S], backend: &B, text: &str) -> Option<S>
    requires { IsListed (entry_text B.numbering (B.texts backend.now)) symbols.now }
    ensures some { IfSome result
        (λ symbol. entry_text B.numbering (B.texts backend.now) symbol ≡ Some text.now) }
    ensures none { IfNone result
        (IsNewText (entry_text B.numbering (B.texts backend.now)) text.now) }
{
    for symbol in symbols {
        if backend.resolve_unchecked(*symbol) == text {
            return Some(*symbol);
        }
    }
    None
}

/// Puts the symbol of each entry into an empty list that has room for all.
fn put_all<S: Symbol, B: Backend<Symbol = S>>(symbols: &mut Vec<S>, backend: &B)
    requires empty { symbols.old.items ≡ [] }
    requires room { length (B.texts backend.now) ≤ vec_capacity symbols.old }
    ensures listed { IsListed (entry_text B.numbering (B.texts backend.now)) symbols.new.items }
    ensures count { length symbols.new.items ≡ length (B.texts backend.now) }
    ensures capacity { vec_capacity symbols.new ≡ vec_capacity symbols.old }
{
    for (symbol, _) in backend.iter() {
        symbols.push_reserved(symbol);
    }
}

/// Copies a list, with room for as many symbols.
fn copy_symbols<S: Symbol>(symbols: &Vec<S>) -> Result<Vec<S>, AllocError>
    ensures items { IfOk result (λ copy. copy.items ≡ symbols.now.items) }
    ensures capacity { IfOk result (λ copy. vec_capacity copy ≡ vec_capacity symbols.now) }
{
    let mut copy = Vec::with_capacity(*symbols.allocator(), symbols.capacity())?;
    for symbol in symbols {
        copy.push_reserved(*symbol);
    }
    Ok(copy)
}

impl<S: Symbol> TextIndex<S> for LinearIndex<S> {
    ghost use Rattle.std.specs.Prelude.{⊤};
    ghost use Rattle.suite.specs.LinearIndex.{one_by_one, one_by_one-laws};

    type Vacancy = ();

    ghost indexes = { λ index entry code. IsListed entry index.symbols };

    ghost entries = { λ index. length index.symbols };

    ghost slots = { λ index. index.slots };

    ghost rule = { one_by_one };

    ghost is_vacant = { λ index code vacancy. ⊤ };

    fn new(alloc: Global) -> Self {
        LinearIndex {
            symbols: Vec::new(alloc),
        }
    }

    fn with_capacity(alloc: Global, capacity: usize) -> Result<Self, AllocError> {
        Ok(LinearIndex {
            symbols: Vec::with_capacity(alloc, capacity)?,
        })
    }

    fn allocator(&self) -> Global {
        *self.symbols.allocator()
    }

    fn len(&self) -> usize {
        self.symbols.len()
    }

    fn entry<B: Store<Symbol = S>>(&self, _code: u64, backend: &B, text: &str) -> Entry<S, ()> {
        match find(&self.symbols, backend, text) {
            Some(symbol) => Entry::Occupied(symbol),
            None => Entry::Vacant(()),
        }
    }

    fn reserve_one<H: TextHasher, B: Store<Symbol = S>>(
        &mut self,
        _hasher: &H,
        _backend: &B,
    ) -> Result<(), AllocError> {
        self.symbols.reserve_exact(1)
    }

    fn insert_at(&mut self, _vacancy: (), symbol: S) {
        self.symbols.push_reserved(symbol);
    }

    fn refill<H: TextHasher, B: Backend<Symbol = S>>(&mut self, _hasher: &H, backend: &B) {
        self.symbols.clear();
        put_all(&mut self.symbols, backend);
    }

    ghost rule_laws = { one_by_one-laws };
}

impl<S: Symbol> CopyIndex<S> for LinearIndex<S> {
    fn try_copy(&self) -> Result<Self, AllocError> {
        Ok(LinearIndex {
            symbols: copy_symbols(&self.symbols)?,
        })
    }
}
