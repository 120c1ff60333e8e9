//! The commands that a block of lines states. The block is the text of a call.

use crate::fault::{Failure, Mistake, Told};
use crate::line::{Call, read_call};
use crate::scenario::Scenario;
use std::alloc::{AllocError, Global};
use string_interner::run::Command;

/// What the commands of a block take: commands, texts of `Extend`, and numbers of `InternNumbers`.
#[derive(Clone, Copy, Default)]
pub struct Plan {
    commands: usize,
    texts: usize,
    pub numbers: usize,
}

impl Plan {
    /// Plans for one more line.
    pub fn add(&mut self, line: &str, scenario: Scenario<'_>) -> Told {
        let call = read_call(line, scenario)?;
        let commands = match call.name {
            "InternNumbers" => {
                self.numbers = self.numbers.max(call.number);
                call.number
            }
            "Extend" => {
                self.texts = self.texts.saturating_add(call.texts().count());
                1
            }
            _ if read_plain(call).is_some() => 1,
            _ => return Err(Failure::Line(Mistake::Call)),
        };
        self.commands = self.commands.saturating_add(commands);
        Ok(())
    }
}

/// A command that has neither a list of texts nor numbers.
fn read_plain<'t>(call: Call<'t>) -> Option<Command<'t>> {
    match call.name {
        "Intern" => Some(Command::Intern(call.text)),
        "InternStatic" => Some(Command::InternStatic(call.static_text)),
        "Get" => Some(Command::Get(call.text)),
        "Resolve" => Some(Command::Resolve(call.number)),
        "Number" => Some(Command::Number(call.number)),
        "Len" => Some(Command::Len),
        "Shrink" => Some(Command::Shrink),
        "Truncate" => Some(Command::Truncate(call.number)),
        _ => None,
    }
}

/// The texts of all commands that extend, one after another.
pub fn read_texts<'t>(
    alloc: Global,
    block: Call<'t>,
    plan: Plan,
) -> Result<Vec<&'t str>, AllocError> {
    let mut texts = Vec::with_capacity(alloc, plan.texts)?;
    for line in block.text.split_terminator('\n') {
        if let Ok(call) = read_call(line, block.scenario)
            && call.name == "Extend"
        {
            for text in call.texts() {
                texts.push(text)?;
            }
        }
    }
    Ok(texts)
}

/// Appends the commands of a line. One that extends takes its texts in turn, and the result is where those of the next
/// one begin.
fn push_commands<'t>(
    commands: &mut Vec<Command<'t>>,
    call: Call<'t>,
    texts: &'t [&'t str],
    numbers: &'t str,
    at: usize,
) -> Result<usize, AllocError> {
    if let Some(command) = read_plain(call) {
        commands.push(command)?;
        return Ok(at);
    }
    if call.name == "InternNumbers" {
        for text in numbers.split(',').take(call.number) {
            commands.push(Command::Intern(text))?;
        }
        return Ok(at);
    }
    let end = at.saturating_add(call.texts().count());
    commands.push(Command::Extend(texts.get(at..end).unwrap_or(&[])))?;
    Ok(end)
}

/// The commands of a block.
pub fn read_commands<'t>(
    alloc: Global,
    block: Call<'t>,
    plan: Plan,
    texts: &'t [&'t str],
    numbers: &'t str,
) -> Result<Vec<Command<'t>>, AllocError> {
    let mut commands = Vec::with_capacity(alloc, plan.commands)?;
    let mut at = 0;
    for line in block.text.split_terminator('\n') {
        if let Ok(call) = read_call(line, block.scenario) {
            at = push_commands(&mut commands, call, texts, numbers, at)?;
        }
    }
    Ok(commands)
}
