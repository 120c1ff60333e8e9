//! What calls print.

use crate::fault::{Failure, Mistake, Told};
use crate::scenario::Scenario;
use std::fmt::Display;
use std::iter::ExactSizeIterator;
use string_interner::backend::{Backend, InternError, Iter};
use string_interner::symbol::Symbol;

/// Prints a value.
pub fn tell<D: Display>(rt: &HostRuntime, value: &D) -> Told {
    println!(rt; "{value}")?;
    Ok(())
}

/// Prints that a call returned.
pub fn tell_done(rt: &HostRuntime) -> Told {
    tell(rt, &"ok")
}

/// Puts what a call made into its place, and prints that the call returned.
pub fn put<T: Drop, E>(rt: &HostRuntime, place: &mut T, made: Result<T, E>) -> Told
where
    Failure: From<E>,
{
    *place = made?;
    tell_done(rt)
}

/// Prints the number of a symbol, or that there is none.
pub fn tell_found<S: Symbol>(rt: &HostRuntime, symbol: Option<S>) -> Told {
    match symbol {
        Some(symbol) => tell(rt, &format_args!("symbol {}", symbol.to_usize())),
        None => tell(rt, &"none"),
    }
}

/// Prints the symbol that interning a text returned.
pub fn tell_symbol<S: Symbol>(rt: &HostRuntime, answer: Result<S, InternError>) -> Told {
    tell_found(rt, Some(answer?))
}

/// Prints a text, or that there is none.
pub fn tell_text(rt: &HostRuntime, text: Option<&str>) -> Told {
    match text {
        Some(text) => tell(rt, &format_args!("text {text}")),
        None => tell(rt, &"none"),
    }
}

/// The symbol with a number.
pub fn symbol_of<S: Symbol>(number: usize) -> Result<S, Failure> {
    S::try_from_usize(number).ok_or(Failure::NoSuchSymbol)
}

/// What a backend offers, or that the line is wrong because it does not.
pub fn require<T>(offered: Option<T>) -> Result<T, Failure> {
    offered.ok_or(Failure::Line(Mistake::NotOffered))
}

/// Prints a count that a backend offers.
pub fn tell_offered(rt: &HostRuntime, offered: Option<usize>) -> Told {
    tell(rt, &require(offered)?)
}

/// Prints how many texts were hashed since this was last done, where the hasher counts them.
pub fn tell_hashed(rt: &HostRuntime, scenario: Scenario<'_>) -> Told {
    match scenario.hasher {
        "counting" => tell(rt, &scenario.hashed.replace(0)),
        _ => Err(Failure::Line(Mistake::NotOffered)),
    }
}

/// How many entries are still to come, by `len`. Says so where `size_hint` differs.
fn count_left<B: Backend>(rt: &HostRuntime, iter: &Iter<'_, B>) -> Result<usize, Failure> {
    let left = iter.len();
    if iter.size_hint() != (left, Some(left)) {
        println!(rt; "  size_hint differs")?;
    }
    Ok(left)
}

/// Prints the entries ahead, and how many are left after the last one.
pub fn tell_entries<B: Backend>(rt: &HostRuntime, iter: &mut Iter<'_, B>) -> Told {
    for _ in 0..u64::MAX {
        let left = count_left(rt, iter)?;
        let Some((symbol, text)) = iter.next() else {
            break;
        };
        println!(rt; "  {left} left, symbol {}, text {text}", symbol.to_usize())?;
    }
    let left = count_left(rt, iter)?;
    tell(rt, &format_args!("{left} left"))
}
