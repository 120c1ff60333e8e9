//! The calls of a scenario, one after another.

use crate::fault::{Failure, Fault, Told};
use crate::line::{Call, read_call};
use crate::many::make_text_again;
use crate::scenario::Scenario;
use crate::sight::Sight;
use string_interner::json::JsonError;

/// What the calls of a scenario are made on.
pub trait Level {
    /// Makes a call and prints what it returned. Where it fails it prints nothing.
    fn call(&mut self, rt: &HostRuntime, call: Call<'_>) -> Told;

    /// What is seen of the first texts, so many at most, and of a text that may be among them.
    fn sight(&self, text: &str, most: usize) -> Sight;
}

/// Whether memory was refused.
pub fn is_refused<T>(ended: &Result<T, Failure>) -> bool {
    matches!(
        ended,
        Err(Failure::Error(JsonError::Memory(_)) | Failure::Partly | Failure::Dropped)
    )
}

/// Reports a call that was refused memory and made again: on standard output where the refusal changed what is seen,
/// and on standard error where the second time was not refused.
pub fn tell_refusal(rt: &HostRuntime, name: &str, is_kept: bool, is_granted: bool) -> Told {
    if !is_kept {
        println!(rt; "changed by a refused {name}")?;
    }
    if is_granted {
        eprintln!(rt; "refused: {name}")?;
    }
    Ok(())
}

/// Makes a call, and makes it again if memory was refused. Neither what is looked at nor what a refused call hashes
/// counts.
pub fn make_call<L: Level>(rt: &HostRuntime, level: &mut L, call: Call<'_>) -> Told {
    let hashed = call.scenario.hashed.get();
    let before = level.sight(call.text, usize::MAX);
    call.scenario.hashed.set(hashed);
    let ended = level.call(rt, call);
    if !is_refused(&ended) {
        return ended;
    }
    let is_kept = match ended {
        Err(Failure::Partly) => level.sight(call.text, before.count).has_entries_of(before),
        Err(Failure::Dropped) => true,
        _ => level.sight(call.text, usize::MAX) == before,
    };
    call.scenario.hashed.set(hashed);
    let mut again = call;
    again.is_again = true;
    let again = level.call(rt, again);
    tell_refusal(rt, call.name, is_kept, !is_refused(&again))?;
    again
}

/// Makes the call of a line. The program makes the texts of some calls.
fn call_line<L: Level>(
    rt: &HostRuntime,
    level: &mut L,
    line: &str,
    scenario: Scenario<'_>,
) -> Told {
    let call = read_call(line, scenario)?;
    match make_text_again(rt, call)? {
        Some(text) => make_call(
            rt,
            level,
            Call {
                text: &text,
                limit: call.number,
                ..call
            },
        ),
        None => make_call(rt, level, call),
    }
}

/// Ends the call of a line: prints why it printed nothing, unless the scenario ends there.
pub fn end_call(rt: &HostRuntime, line: usize, ended: Result<(), Failure>) -> Result<(), Fault> {
    match ended {
        Ok(()) => Ok(()),
        Err(Failure::Line(mistake)) => Err(Fault::Line { line, mistake }),
        Err(Failure::Output) => Err(Fault::Output),
        Err(failure) => Ok(println!(rt; "{failure}")?),
    }
}

/// Makes the calls of a scenario.
pub fn run_calls<L: Level>(
    rt: &HostRuntime,
    scenario: Scenario<'_>,
    level: &mut L,
) -> Result<(), Fault> {
    let mut number: usize = 1;
    for line in scenario.lines.split_terminator('\n') {
        number = number.saturating_add(1);
        let ended = call_line(rt, level, line, scenario);
        end_call(rt, number, ended)?;
    }
    Ok(())
}
