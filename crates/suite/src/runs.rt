//! Runs of commands.

mod commands;

use crate::fault::{Failure, Fault, Told};
use crate::level::{Level, end_call, make_call};
use crate::line::{Call, bare_call};
use crate::many::join_numbers;
use crate::scenario::Scenario;
use crate::sight::Sight;
use crate::tell::{tell, tell_done, tell_text};
use crate::texts::sight_of;
use commands::{Plan, read_commands, read_texts};
use std::alloc::{AllocError, Global};
use string_interner::StringInterner;
use string_interner::backend::{Backend, InternError};
use string_interner::dedup::{TextHasher, TextIndex};
use string_interner::run::{Reply, run};

/// An interner, the plan of the block that is run, and how many texts there were before it.
#[derive(Drop)]
pub struct Runs<B: Backend, H: TextHasher, I: TextIndex<B::Symbol>> {
    interner: StringInterner<B, H, I>,
    plan: Plan,
    before: usize,
}

/// Prints a reply.
fn tell_reply(rt: &HostRuntime, reply: &Reply) -> Told {
    match reply {
        Reply::Symbol(number) => tell(rt, &format_args!("symbol {number}")),
        Reply::Nothing => tell(rt, &"none"),
        Reply::Text(text) => tell_text(rt, Some(text)),
        Reply::Len(count) => tell(rt, count),
        Reply::Done => tell_done(rt),
        Reply::NoReply => tell(rt, &"no reply"),
        Reply::NoSymbol => tell(rt, &InternError::NoSymbol),
        Reply::NoMemory => tell(rt, &"out of memory"),
    }
}

/// Prints replies.
fn tell_replies(rt: &HostRuntime, replies: &[Reply]) -> Told {
    for reply in replies {
        tell_reply(rt, reply)?;
    }
    Ok(())
}

impl<B: Backend, H: TextHasher, I: TextIndex<B::Symbol>> Runs<B, H, I> {
    /// An interner with no texts.
    pub fn new(alloc: Global, hasher: H) -> Self {
        Runs {
            interner: StringInterner::with_hasher(alloc, hasher),
            plan: Plan::default(),
            before: 0,
        }
    }

    /// Runs the commands of a block.
    fn run_commands(&mut self, alloc: Global, call: Call<'_>) -> Result<Vec<Reply>, Failure> {
        let numbers = join_numbers(alloc, self.plan.numbers)?;
        let texts = read_texts(alloc, call, self.plan)?;
        let commands = read_commands(alloc, call, self.plan, &texts, &numbers)?;
        Ok(run(alloc, &mut self.interner, &commands)?)
    }

    /// Drops the texts that came since the block began, as one of its commands was refused memory. Texts that a command
    /// dropped do not come back.
    fn take_back(&mut self) -> Failure {
        self.interner.truncate(self.before);
        if self.interner.len() < self.before {
            Failure::Dropped
        } else {
            AllocError.into()
        }
    }
}

impl<B: Backend, H: TextHasher, I: TextIndex<B::Symbol>> Level for Runs<B, H, I> {
    /// Runs the commands of a block, which is the text of the call, and prints the replies and the count of texts.
    fn call(&mut self, rt: &HostRuntime, call: Call<'_>) -> Told {
        if !call.is_again {
            self.before = self.interner.len();
        }
        let replies = self.run_commands(rt.alloc(), call)?;
        if replies.iter().any(|reply| matches!(reply, Reply::NoMemory)) {
            return Err(self.take_back());
        }
        tell_replies(rt, &replies)?;
        tell(rt, &self.interner.len())
    }

    fn sight(&self, text: &str, most: usize) -> Sight {
        sight_of(&self.interner, text, most)
    }
}

/// Runs the blocks of lines one after another.
pub fn run_blocks<B: Backend, H: TextHasher, I: TextIndex<B::Symbol>>(
    rt: &HostRuntime,
    scenario: Scenario<'_>,
    runs: &mut Runs<B, H, I>,
) -> Result<(), Fault> {
    let mut number: usize = 1;
    for lines in scenario.lines.split("\n\n") {
        runs.plan = Plan::default();
        for line in lines.split_terminator('\n') {
            number = number.saturating_add(1);
            let added = runs.plan.add(line, scenario);
            end_call(rt, number, added)?;
        }
        let ended = make_call(rt, runs, bare_call("run", Some(lines), scenario));
        end_call(rt, number, ended)?;
        number = number.saturating_add(1);
    }
    Ok(())
}
