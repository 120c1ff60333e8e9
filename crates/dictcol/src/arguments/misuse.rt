//! What may be wrong with the arguments.

use crate::shown::ShownWord;
use crate::source::INPUT_TWICE;
use thiserror::Error;

/// What is wrong with the arguments. It is displayed as the message for standard error.
#[derive(Clone, Copy, Debug, Error)]
pub enum Misuse<'a> {
    #[error("missing command")]
    NoCommand,
    #[error("unknown command {0}")]
    UnknownCommand(ShownWord<'a>),
    #[error("unknown option {0}")]
    UnknownOption(ShownWord<'a>),
    #[error("{0} takes no option '{1}'")]
    OptionOfAnother(&'a str, &'static str),
    #[error("option '{0}' needs a value")]
    NoValue(&'static str),
    #[error("option '{0}' needs option '{1}'")]
    NeedsOption(&'static str, &'static str),
    #[error("option {0} takes no value")]
    HasValue(ShownWord<'a>),
    #[error("unknown backend {0}")]
    UnknownBackend(ShownWord<'a>),
    #[error("option '--invalid' takes error, replace or skip, and not {0}")]
    UnknownMending(ShownWord<'a>),
    #[error("option '{0}' takes a number above 0, and not {1}")]
    NotPositive(&'static str, ShownWord<'a>),
    #[error("option '--at-least' takes a number, and not {0}")]
    NoLeast(ShownWord<'a>),
    #[error("option '{0}' takes one byte but no newline, and not {1}")]
    NoByte(&'static str, ShownWord<'a>),
    #[error("extra operand {0}")]
    ExtraOperand(ShownWord<'a>),
    #[error("extra operand {0}: files are named by option '--files0-from'")]
    FileBesideList(ShownWord<'a>),
    #[error("option '{0}' excludes option '{1}'")]
    Excluded(&'static str, &'static str),
    #[error("option '{0}' is given twice")]
    Repeated(&'static str),
    #[error("merge needs a FILE")]
    NoFile,
    #[error("shard needs a number and a DIR")]
    NoShards,
    #[error("shard takes a number of files, and not {0}")]
    NoCount(ShownWord<'a>),
    #[error("the DIR of {0} is empty")]
    EmptyFolder(&'static str),
    #[error("get needs a DIR, and a TEXT or option '--rows'")]
    NoText,
    #[error("option '--rows' takes a range like 3..5, and not {0}")]
    NoRange(ShownWord<'a>),
    #[error("extra operand {0}: option '--rows' takes no TEXT beside it")]
    TextBesideRows(ShownWord<'a>),
    #[error("{INPUT_TWICE}")]
    InputTwice,
    /// An allocation failed, which is no fault of the arguments.
    #[error("out of memory")]
    Memory,
}
