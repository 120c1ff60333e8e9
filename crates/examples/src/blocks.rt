//! Names in nested blocks, where a name of an inner block hides the same name of those around it.

ghost use Rattle.std.specs.Prelude.{◌≡◌, [], ◌∷◌, IfOk, OnOk, OnErr};
ghost use Rattle.string_interner.specs.Interner.{Interns};
ghost use Rattle.string_interner.specs.StandsFor.{StandsFor, KeepsSymbols};
ghost use Rattle.string_interner.specs.Scopes.{Leaves};
ghost use Rattle.examples.specs.Blocks.{blocks, open_blocks, declaration_of};

use std::alloc::{AllocError, Global};
use std::marker::Model;
use std::mem;
use string_interner::StringInterner;
use string_interner::backend::{Backend, DefaultBackend, InternError};
use string_interner::dedup::{DefaultHashBuilder, TextHasher};

/// The open blocks of a source. Each has an interner of its own, so it may declare again a name of a block around it, where
/// `Scopes` would return that one's symbol.
#[derive(Drop)]
pub struct Blocks<B: Backend = DefaultBackend, H: TextHasher = DefaultHashBuilder> {
    innermost: StringInterner<B, H>,
    /// The blocks around it, the outermost first.
    outer: Vec<StringInterner<B, H>>,
}

/// Contracts see the names of each block.
impl<B: Backend, H: TextHasher> Model for Blocks<B, H> {
    ghost use Rattle.examples.specs.Blocks.{Open, open_blocks};

    ghost Value = { Open };

    ghost view = { λ b. open_blocks b.innermost b.outer.items };
}

impl<B: Backend, H: TextHasher + Default> Blocks<B, H> {
    /// Begins with one block, which declares no name. Takes no memory.
    pub fn new(alloc: Global) -> Self
        ensures { blocks result ≡ [] ∷ [] }
    {
        Blocks {
            innermost: StringInterner::new(alloc),
            outer: Vec::new(alloc),
        }
    }

    /// Enters a block within the innermost one, which declares no name yet.
    ///
    /// Returns `Err` only if memory for one more block cannot be allocated. Nothing changes then.
    pub fn enter(&mut self, alloc: Global) -> Result<(), AllocError>
        ensures ok { OnOk result (blocks self.new ≡ [] ∷ blocks self.old) }
        ensures err { OnErr result (self.new ≡ self.old) }
    {
        self.outer.reserve(1)?;
        let around = mem::replace(&mut self.innermost, StringInterner::new(alloc));
        self.outer.push_reserved(around);
        Ok(())
    }
}

impl<B: Backend + Drop, H: TextHasher + Drop> Blocks<B, H> {
    /// Leaves the innermost block, with its names, and returns whether there is one around it; if not, it stays.
    pub fn leave(&mut self) -> bool
        ensures { Leaves (blocks self.old) result (blocks self.new) }
    {
        match self.outer.pop() {
            Some(around) => {
                self.innermost = around;
                true
            }
            None => false,
        }
    }
}

impl<B: Backend, H: TextHasher> Blocks<B, H> {
    /// Declares a name in the innermost block, and returns its symbol there.
    ///
    /// Fails as `get_or_intern` does. No block changes then.
    pub fn declare(&mut self, name: &str) -> Result<B::Symbol, InternError>
        ensures interns { Interns B.numbering self.old.innermost name.now result
            self.new.innermost }
        ensures stands { IfOk result (λ symbol.
            StandsFor B.numbering self.new.innermost symbol name.now) }
        ensures keeps { KeepsSymbols B.numbering self.old.innermost self.new.innermost }
        ensures outer { self.new.outer ≡ self.old.outer }
    {
        self.innermost.get_or_intern(name)
    }

    /// Returns which declaration a use of a name means, if any: that of the innermost block which has the name, as the
    /// number of blocks around that one and the name's symbol there.
    pub fn resolve(&self, name: &str) -> Option<(usize, B::Symbol)>
        ensures { result ≡ declaration_of B.numbering (blocks self.now) name.now }
    {
        resolve_in(&self.innermost, &self.outer, name)
    }
}

/// Looks for a name in a block, and then in those around it, which are in the list the outermost first.
fn resolve_in<B: Backend, H: TextHasher>(
    block: &StringInterner<B, H>,
    outer: &[StringInterner<B, H>],
    name: &str,
) -> Option<(usize, B::Symbol)>
    ensures { result
        ≡ declaration_of B.numbering (blocks (open_blocks block.now outer.now)) name.now }
{
    if let Some(symbol) = block.get(name) {
        return Some((outer.len(), symbol));
    }
    let (around, outer) = outer.split_last()?;
    resolve_in(around, outer, name)
}
