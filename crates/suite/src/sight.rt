//! What is seen without memory, to tell whether a refused call changed it.

use string_interner::dedup::{FixedState, TextHasher};
use string_interner::symbol::Symbol;

/// How many entries were looked at, one number from their texts, their symbols and whether each finds the other, and one
/// from all else.
#[derive(Clone, Copy, PartialEq, Eq, Default)]
pub struct Sight {
    pub count: usize,
    entries: u64,
    rest: u64,
}

/// A number from this one and from what is seen next.
fn mix(seen: u64, next: u64) -> u64 {
    seen.wrapping_mul(31).wrapping_add(next)
}

impl Sight {
    /// The same with one more entry: the number of its symbol, its text, whether the symbol is found by the text, and
    /// whether the text is read by the symbol.
    pub fn with_entry(self, symbol: usize, text: &str, is_found: bool, is_read: bool) -> Self {
        let seen = mix(mix(self.entries, symbol as u64), FixedState.hash_text(text));
        Sight {
            count: self.count.saturating_add(1),
            entries: mix(mix(seen, u64::from(is_found)), u64::from(is_read)),
            ..self
        }
    }

    /// The same with one more number.
    pub fn with_number(self, number: usize) -> Self {
        Sight {
            rest: mix(self.rest, number as u64),
            ..self
        }
    }

    /// The same with a symbol, if there is one.
    pub fn with_symbol<S: Symbol>(self, symbol: Option<S>) -> Self {
        match symbol {
            Some(symbol) => self.with_number(1).with_number(symbol.to_usize()),
            None => self.with_number(0),
        }
    }

    /// Whether the same entries were seen.
    pub fn has_entries_of(self, other: Self) -> bool {
        self.count == other.count && self.entries == other.entries
    }
}
