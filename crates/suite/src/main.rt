//! The program `suite`: it runs one scenario, a list of calls of the library, and prints what each call returns.
//!
//! The first line of a scenario says what the calls are made on, each further line is a call. A call that was refused
//! memory is made again, and what is seen before and after the refusal is compared; so standard output is the same
//! whichever request for memory is refused.
#![tactic(auto)]

mod backends;
mod counting;
mod fault;
mod indexes;
mod input;
mod interners;
mod level;
mod line;
mod linear;
mod many;
mod odd;
mod own;
mod runs;
mod scenario;
mod scopes;
mod sight;
mod symbols;
mod tell;
mod texts;

use fault::{Fault, Mistake};
use input::read_text;
use scenario::{blame_first_line, read_scenario, run_scenario};
use std::cell::Cell;
use std::process::ExitCode;

/// Reads a scenario from standard input and runs it.
fn run_input(rt: &HostRuntime) -> Result<(), Fault> {
    let mut buffer = [0u8; 131072];
    let text = read_text(&mut rt.stdin(), &mut buffer)?;
    let hashed = Cell::new(0);
    match read_scenario(text, &hashed) {
        Some(scenario) => run_scenario(rt, scenario),
        None => blame_first_line(Mistake::NoScenario),
    }
}

fn main(rt: HostRuntime) -> ExitCode {
    match run_input(&rt) {
        Ok(()) => ExitCode::SUCCESS,
        Err(fault) => {
            // There is nowhere left to tell that standard error is closed.
            let _ = eprintln!(rt; "{fault}");
            ExitCode::from(fault.status())
        }
    }
}
