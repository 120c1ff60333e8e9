//! Calls that read and write JSON.

use crate::fault::{Failure, Told};
use crate::tell::{symbol_of, tell, tell_found};
use serde_json::Value;
use std::alloc::{AllocError, Global};
use string_interner::json;
use string_interner::symbol::Symbol;

/// The value of a JSON text.
pub fn parse_json(alloc: Global, text: &str) -> Result<Value, Failure> {
    match Value::from_str(alloc, text) {
        Ok(value) => Ok(value),
        Err(error) if error.is_memory() => Err(AllocError.into()),
        Err(_) => Err(Failure::NotJson),
    }
}

/// Prints how many texts were read.
pub fn tell_read(rt: &HostRuntime, count: usize) -> Told {
    tell(rt, &format_args!("{count} texts"))
}

/// Reads a symbol from a JSON text.
pub fn symbol_from_json<S: Symbol>(rt: &HostRuntime, text: &str) -> Told {
    let value = parse_json(rt.alloc(), text)?;
    tell_found(rt, Some(json::symbol_from_json::<S>(&value)?))
}

/// Prints the JSON form of the symbol with a number.
pub fn symbol_to_json<S: Symbol>(rt: &HostRuntime, number: usize) -> Told {
    let symbol = symbol_of::<S>(number)?;
    tell(rt, &json::symbol_to_json(rt.alloc(), symbol)?)
}
