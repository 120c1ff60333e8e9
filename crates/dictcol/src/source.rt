//! Where input comes from.

ghost use Rattle.std.specs.Prelude.{◌≡◌};
ghost use Rattle.dictcol.specs.Names.{Names};

/// What may be done about the name of a file that is not UTF-8.
pub const NAME_ADVICE: &str = " (a file with such a name can be standard input)";

/// What is said of a second `-`.
pub const INPUT_TWICE: &str = "standard input is named twice";

/// Where the input comes from.
#[derive(Clone, Copy)]
pub enum Source<'a> {
    StandardInput,
    /// The file with this path.
    File(&'a str),
}

impl<'a> Source<'a> {
    /// Returns the file that a word names.
    pub fn of_word(word: &'a str) -> Source<'a>
        ensures { Names word.now result }
    {
        if word == "-" {
            Source::StandardInput
        } else {
            Source::File(word)
        }
    }
}
