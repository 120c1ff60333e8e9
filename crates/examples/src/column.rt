//! A column of a table: the pages of a site that visitors saw, a row for each visit.
//!
//! There are many visits and few pages. So a row is stored as a code of four bytes, and each page once.

ghost use Rattle.std.specs.Prelude.{◌≡◌, ◌++◌, ◌↔◌, IfOk, IsTrue, slice_get};
ghost use Rattle.string_interner.specs.Extend.{texts_of};
ghost use Rattle.string_column.specs.Column.{counts_of};

use std::alloc::Global;
use string_column::Column;
use string_interner::backend::InternError;

/// Encodes the pages of a day's visits, in order.
///
/// Fails as `encode` does; then there is no column.
pub fn encode_day(alloc: Global, pages: &[&str]) -> Result<Column, InternError>
    ensures { IfOk result (λ visits. visits ≡ texts_of pages.now) }
{
    let mut visits = <Column>::new(alloc);
    visits.encode(pages.iter().copied())?;
    Ok(visits)
}

/// Merges the visits of two days, and counts how many each page has, in the order in which pages were first seen.
///
/// Each day is encoded by itself, which looks up each visit. Merging looks up each page of the second day once. Fails as
/// `encode`, `append` and `counts` do.
pub fn count_visits(
    alloc: Global,
    monday: &[&str],
    tuesday: &[&str],
) -> Result<(Column, Vec<usize>), InternError>
    ensures rows { IfOk result (λ counted.
        counted.0 ≡ texts_of monday.now ++ texts_of tuesday.now) }
    ensures counts { IfOk result (λ counted.
        counted.1.items ≡ counts_of (texts_of monday.now ++ texts_of tuesday.now)) }
{
    let mut visits = encode_day(alloc, monday)?;
    visits.append(&encode_day(alloc, tuesday)?)?;
    let counts = visits.counts(alloc)?;
    Ok((visits, counts))
}

/// Reports whether two visits were to the same page, by their codes alone: no text is read. Two visits that do not exist
/// count as such, too.
pub fn is_same_page(visits: &Column, one: usize, other: usize) -> bool
    ensures { IsTrue result ↔ (slice_get visits.now one ≡ slice_get visits.now other) }
{
    // For the proof: states that the entries of the dictionary are distinct.
    let _ = visits.dictionary().len();
    let codes = visits.codes();
    codes.get(one) == codes.get(other)
}
