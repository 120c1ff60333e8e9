//! `get`: some of what plain columns hold, of which the rest is not read.

ghost use Rattle.std.specs.Prelude.{◌≡◌, ◌≤◌, ℕ, List, length, slice_range};
ghost use Rattle.string_interner.specs.Text.{Text};
ghost use Rattle.string_column.specs.Column.{rows_of};
ghost use Rattle.dictcol.specs.Excerpt.{rows_within};

use crate::fault::Fault;
use crate::hasher::LineHasher;
use crate::output::open_output;
use crate::plain::{find, folder};
use crate::shown::{ShownPath, ShownWord};
use string_interner::backend::StringBackend;

/// Which rows are asked for.
#[derive(Clone, Copy)]
pub struct RowRange {
    /// The first of them, from 0 on.
    pub start: usize,
    /// The first behind them, unless they go on to the end.
    pub end: Option<usize>,
}

impl RowRange {
    /// Returns where the codes of the rows that are asked for begin, and where they end, among so many.
    pub fn within(self, count: usize) -> (usize, usize)
        ensures ordered { result.0 ≤ result.1 }
        ensures there { result.1 ≤ count }
        ensures rows { (lines : List Text) (codes : List ℕ) → length codes ≡ count
            → rows_of lines (slice_range codes result.0 result.1)
            ≡ rows_within (rows_of lines codes) self.start self.end }
    {
        let start = self.start.min(count);
        let end = self.end.unwrap_or(count).min(count);
        (start, end.max(start))
    }
}

/// What is asked for of a folder.
#[derive(Drop)]
pub enum Asked<'a> {
    /// The numbers of these texts.
    Texts(Vec<&'a str>),
    /// The lines of these rows.
    Rows(RowRange),
}

/// What is got of a folder.
#[derive(Drop)]
pub struct Get<'a> {
    /// The folder.
    pub folder: &'a str,
    /// What is written.
    pub asked: Asked<'a>,
    /// Whether all numbers are read, to see that the files are of one run.
    pub is_checked: bool,
}

/// Tells on standard error which texts have no number in a folder. Returns whether all have one.
fn tell_missing(rt: &HostRuntime, folder: &str, texts: &[&str], numbers: &[Option<usize>]) -> bool {
    let folder = ShownPath(folder);
    let mut has_all = true;
    for (text, number) in texts.iter().zip(numbers) {
        if number.is_none() {
            has_all = false;
            let text = ShownWord(*text);
            // Nothing is lost if standard error is closed.
            let _ = eprintln!(rt; "dictcol: {folder}: dict.txt has no line {text}");
        }
    }
    has_all
}

/// Writes the numbers of texts in the dictionary of a folder. Returns whether all texts have one.
fn write_numbers(rt: &HostRuntime, get: &Get<'_>, texts: &[&str]) -> Result<bool, Fault> {
    let hasher = LineHasher::draw(rt)?;
    let mut output = open_output(rt, false)?;
    let numbers = folder::find_numbers::<StringBackend>(rt, hasher, get, texts)?;
    find::write_numbers(&numbers, &mut output)?;
    Ok(tell_missing(rt, get.folder, texts, &numbers))
}

/// Writes what is got of a folder. Returns whether all of it is there: a text may have no number.
pub fn write(rt: &HostRuntime, get: &Get<'_>) -> Result<bool, Fault> {
    match &get.asked {
        Asked::Texts(texts) => write_numbers(rt, get, texts),
        Asked::Rows(range) => {
            let mut output = open_output(rt, false)?;
            folder::write_rows(rt, get, *range, &mut output)?;
            Ok(true)
        }
    }
}
