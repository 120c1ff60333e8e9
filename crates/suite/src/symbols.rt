//! Calls on symbols, with no backend.

use crate::fault::{Failure, Mistake, Told};
use crate::interners::{symbol_from_json, symbol_to_json};
use crate::level::Level;
use crate::line::Call;
use crate::sight::Sight;
use crate::tell::{symbol_of, tell, tell_found};
use std::cmp::Ordering;
use std::hash::{DefaultHasher, Hash, Hasher};
use std::marker::PhantomData;
use string_interner::dedup::{FixedState, TextHasher};
use string_interner::symbol::Symbol;

/// The hash of a symbol.
fn hash_of<S: Hash>(symbol: &S) -> u64 {
    let mut hasher = DefaultHasher::new();
    symbol.hash(&mut hasher);
    hasher.finish()
}

/// Compares the symbols with two numbers, and prints whether they have one hash.
fn compare<S: Symbol + Ord + Hash>(rt: &HostRuntime, call: Call<'_>) -> Told {
    let (one, other) = (symbol_of::<S>(call.number)?, symbol_of::<S>(call.second)?);
    let order = match one.cmp(&other) {
        Ordering::Less => "less",
        Ordering::Equal => "equal",
        Ordering::Greater => "greater",
    };
    let hash = if hash_of(&one) == hash_of(&other) {
        "same"
    } else {
        "other"
    };
    tell(rt, &format_args!("{order}, {hash} hash"))
}

/// Prints the code of a text under the default hasher.
fn hash_text(rt: &HostRuntime, text: &str) -> Told {
    tell(rt, &format_args!("{:x}", FixedState.hash_text(text)))
}

/// The calls are made on a symbol type, of which no value is kept.
impl<S: Symbol + Ord + Hash> Level for PhantomData<S> {
    fn call(&mut self, rt: &HostRuntime, call: Call<'_>) -> Told {
        match call.name {
            "try_from_usize" => tell_found(rt, S::try_from_usize(call.number)),
            "compare" => compare::<S>(rt, call),
            "symbol_to_json" => symbol_to_json::<S>(rt, call.number),
            "symbol_from_json" => symbol_from_json::<S>(rt, call.text),
            "hash_text" => hash_text(rt, call.text),
            _ => Err(Failure::Line(Mistake::Call)),
        }
    }

    /// A symbol type has no texts.
    fn sight(&self, _text: &str, _most: usize) -> Sight {
        Sight::default()
    }
}
