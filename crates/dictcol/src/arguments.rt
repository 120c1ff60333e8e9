//! The arguments.

mod given;
pub mod misuse;
mod options;

use crate::command::Invocation;
use given::{Given, Next};
use misuse::Misuse;
use std::alloc::Global;

/// Returns what the arguments ask for, or the first thing that is wrong with them. Options may be anywhere before `--`.
pub fn parse_arguments(alloc: Global, arguments: &[String]) -> Result<Invocation<'_>, Misuse<'_>> {
    let mut given = Given::new(alloc);
    let mut next = Next::OptionOrOperand;
    for argument in arguments {
        next = given.take(next, argument.as_str())?;
        if given.asks_help {
            return Ok(Invocation::Help);
        }
        if given.asks_version {
            return Ok(Invocation::Version);
        }
    }
    match next {
        Next::Value(name, _) => Err(Misuse::NoValue(name)),
        Next::OptionOrOperand | Next::Operand => given.decide(),
    }
}
