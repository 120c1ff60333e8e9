//! Texts with symbols, whatever holds them.

use crate::counting::signal;
use crate::sight::Sight;
use string_interner::StringInterner;
use string_interner::backend::{Backend, InternError, Iter};
use string_interner::dedup::{TextHasher, TextIndex};
use string_interner::symbol::Symbol;

/// A list of texts, each with a symbol of a backend.
pub trait Texts<B: Backend> {
    /// The entries, in the order in which they came.
    fn entries(&self) -> Iter<'_, B>;

    /// The symbol of a text, where texts are looked up.
    fn find(&self, text: &str) -> Option<B::Symbol>;

    /// The text of a symbol.
    fn resolve(&self, symbol: B::Symbol) -> Option<&str>;

    /// Interns a text.
    fn intern(&mut self, text: &str) -> Result<B::Symbol, InternError>;
}

impl<B: Backend, H: TextHasher, I: TextIndex<B::Symbol>> Texts<B> for StringInterner<B, H, I> {
    fn entries(&self) -> Iter<'_, B> {
        self.iter()
    }

    fn find(&self, text: &str) -> Option<B::Symbol> {
        self.get(text)
    }

    fn resolve(&self, symbol: B::Symbol) -> Option<&str> {
        self.resolve(symbol)
    }

    fn intern(&mut self, text: &str) -> Result<B::Symbol, InternError> {
        self.get_or_intern(text)
    }
}

/// What is seen of the first texts, so many at most, and of a text that may be among them.
pub fn sight_of<B: Backend, T: Texts<B>>(texts: &T, text: &str, most: usize) -> Sight {
    signal(texts);
    let mut sight = Sight::default().with_symbol(texts.find(text));
    for (symbol, text) in texts.entries() {
        if sight.count < most {
            let is_found = texts.find(text) == Some(symbol);
            let is_read = texts.resolve(symbol) == Some(text);
            sight = sight.with_entry(symbol.to_usize(), text, is_found, is_read);
        }
    }
    signal(texts);
    sight
}
