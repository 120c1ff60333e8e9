//! Why a call printed no answer of its own, and why the program ends before it made every call.

use std::alloc::AllocError;
use std::io;
use string_interner::backend::InternError;
use string_interner::json::JsonError;
use thiserror::Error;

/// What is wrong with a line of a scenario.
#[derive(Clone, Copy, Debug, Error)]
pub enum Mistake {
    #[error("the first line is LEVEL BACKEND SYMBOL HASHER")]
    NoScenario,
    #[error("not UTF-8")]
    NotUtf8,
    #[error("the scenario is too long")]
    TooLong,
    #[error("unknown level")]
    Level,
    #[error("unknown backend")]
    Backend,
    #[error("unknown symbol type")]
    Symbol,
    #[error("unknown hasher")]
    Hasher,
    #[error("this combination is not built")]
    NotBuilt,
    #[error("unknown call")]
    Call,
    #[error("this combination has no such call")]
    NotOffered,
    #[error("this call takes nothing after its name")]
    Unwanted,
    #[error("not a number")]
    NotANumber,
    #[error("not one of the static texts")]
    NotStatic,
}

/// Why a call printed no answer of its own. Its text is printed in the place of one.
#[derive(Clone, Copy, Debug, Error)]
pub enum Failure {
    /// What the library returned: these are the reasons of all its calls.
    #[error("{0}")]
    Error(#[from] JsonError),
    /// Memory was refused to a call that may have interned texts before.
    #[error("out of memory")]
    Partly,
    /// Memory was refused to a call that had dropped texts before.
    #[error("out of memory")]
    Dropped,
    /// The symbol type has not the number of a call.
    #[error("no such symbol")]
    NoSuchSymbol,
    /// The text of a call is no JSON.
    #[error("not JSON")]
    NotJson,
    /// The line is wrong.
    #[error("{0}")]
    Line(#[from] Mistake),
    /// Standard output or standard error failed.
    #[error("cannot write output")]
    Output,
}

/// What a call printed is on standard output.
pub type Told = Result<(), Failure>;

impl From<InternError> for Failure {
    fn from(error: InternError) -> Failure {
        Failure::Error(error.into())
    }
}

impl From<AllocError> for Failure {
    fn from(error: AllocError) -> Failure {
        Failure::Error(JsonError::Memory(error))
    }
}

impl From<io::Error> for Failure {
    fn from(_error: io::Error) -> Failure {
        Failure::Output
    }
}

/// Why the program failed. Its text is the message for standard error.
#[derive(Clone, Copy, Debug, Error)]
pub enum Fault {
    /// The line with this number, counted from 1, is wrong.
    #[error("line {line}: {mistake}")]
    Line { line: usize, mistake: Mistake },
    /// Standard input failed.
    #[error("cannot read input")]
    Input,
    /// Standard output or standard error failed.
    #[error("cannot write output")]
    Output,
}

/// The calls of a scenario only write.
impl From<io::Error> for Fault {
    fn from(_error: io::Error) -> Fault {
        Fault::Output
    }
}

impl Fault {
    /// The exit status: 2 where the scenario is wrong, 1 where the system failed.
    pub fn status(&self) -> u8 {
        match self {
            Fault::Line { .. } => 2,
            Fault::Input | Fault::Output => 1,
        }
    }
}
