use examples::column::{count_visits, is_same_page};
use std::alloc::Global;
use std::test::Fail;
use string_column::{Codes, Column, Dictionary, PartsError};
use string_interner::backend::{Backend, BucketBackend, BufferBackend, InternError};
use string_interner::dedup::FoldState;

/// Passes a test whose calls were not refused, and answered as they should.
fn check_answer(answered: Result<bool, InternError>) -> Result<(), Fail> {
    match answered {
        Ok(true) => Ok(()),
        Ok(false) => Err("it answered otherwise".into()),
        Err(_) => Err("it was refused".into()),
    }
}

/// Reports whether the rows red, green, red are stored as such.
fn is_encoded<B: Backend>(colors: &Column<B>) -> bool {
    let is_counted = (colors.len(), colors.distinct()) == (3, 2);
    let is_read = (colors.row(1), colors.row(2), colors.row(3))
        == (Some("green"), Some("red"), None);
    let codes = colors.codes();
    let is_coded = (codes.get(0), codes.get(1), codes.get(2), codes.get(3))
        == (Some(0), Some(1), Some(0), None);
    is_counted & is_read & is_coded
}

/// Reports whether an iterator over the rows yields red, green, red, and knows how many are left.
fn is_iterated<B: Backend>(colors: &Column<B>) -> bool {
    let mut rows = colors.iter();
    let first = (rows.len(), rows.next(), rows.len());
    let rest = (rows.next(), rows.next(), rows.next());
    let is_yielded = rest == (Some("green"), Some("red"), None);
    let is_whole = colors.into_iter().last() == Some("red");
    !colors.is_empty() & (first == (3, Some("red"), 2)) & is_yielded & is_whole
}

fn encodes<B: Backend + Drop>(alloc: Global) -> Result<bool, InternError> {
    let mut colors = Column::<B>::new(alloc);
    colors.encode(["red", "green", "red"].iter().copied())?;
    let counts = colors.counts(alloc)?;
    let is_counted = counts.as_slice() == [2, 1].as_slice();
    Ok(is_encoded(&colors) & is_iterated(&colors) & is_counted)
}

#[test]
fn rows_are_encoded(rt: HostRuntime) -> Result<(), Fail> {
    check_answer(encodes::<BucketBackend>(rt.alloc()))?;
    check_answer(encodes::<BufferBackend>(rt.alloc()))
}

fn indexes<B: Backend + Drop>(alloc: Global) -> Result<bool, InternError> {
    let mut colors = Dictionary::<B>::with_hasher(alloc, FoldState::default());
    let found = (
        colors.intern("red")?,
        colors.intern("green")?,
        colors.intern("red")?,
    );
    Ok((found == (0, 1, 0)) & (colors.interner().len() == 2))
}

#[test]
fn texts_have_indexes(rt: HostRuntime) -> Result<(), Fail> {
    check_answer(indexes::<BufferBackend>(rt.alloc()))
}

fn appends(alloc: Global) -> Result<bool, InternError> {
    let mut front = <Column<BufferBackend>>::new(alloc);
    let mut rest = <Column<BufferBackend>>::new(alloc);
    front.push("red")?;
    rest.encode(["blue", "green", "red"].iter().copied())?;
    let end = rest.len();
    front.append(&rest.slice(alloc, FoldState::default(), end.min(1), end)?)?;
    Ok(is_encoded(&front))
}

#[test]
fn a_part_is_appended(rt: HostRuntime) -> Result<(), Fail> {
    check_answer(appends(rt.alloc()))
}

fn counts(alloc: Global) -> Result<bool, InternError> {
    let (visits, counts) = count_visits(alloc, &["home", "news", "home"], &["map", "home", "map"])?;
    let is_merged = (visits.len(), visits.row(3)) == (6, Some("map"));
    let are_same = is_same_page(&visits, 0, 4) & is_same_page(&visits, 6, 7);
    let are_others = !is_same_page(&visits, 0, 1) & !is_same_page(&visits, 0, 6);
    Ok(is_merged & are_same & are_others & (counts.as_slice() == [3, 1, 2].as_slice()))
}

#[test]
fn visits_of_two_days_are_counted(rt: HostRuntime) -> Result<(), Fail> {
    check_answer(counts(rt.alloc()))
}

fn list_codes(alloc: Global, numbers: [usize; 3]) -> Result<Codes, InternError> {
    let mut codes = Codes::new(alloc);
    for number in numbers {
        codes.push(number)?;
    }
    Ok(codes)
}

/// Reports whether entries and codes make the rows red, green, red, or fail like this.
fn makes(
    alloc: Global,
    entries: &[&str],
    numbers: [usize; 3],
    fault: Option<PartsError>,
) -> Result<bool, InternError> {
    let codes = list_codes(alloc, numbers)?;
    match <Column>::from_parts(alloc, FoldState::default(), entries, codes) {
        Ok(colors) => Ok(fault.is_none() & is_encoded(&colors)),
        Err(error) => Ok(fault == Some(error)),
    }
}

fn makes_all(alloc: Global) -> Result<bool, InternError> {
    let in_order = makes(alloc, &["red", "green"], [0, 1, 0], None)?;
    let other_order = makes(alloc, &["blue", "green", "red"], [2, 1, 2], None)?;
    let repeated = Some(PartsError::Repeated { index: 2 });
    let is_refused = makes(alloc, &["red", "green", "red"], [0, 1, 0], repeated)?;
    let outside = Some(PartsError::NoEntry { row: 1 });
    let has_no_entry = makes(alloc, &["red", "green"], [0, 2, 3], outside)?;
    Ok(in_order & other_order & is_refused & has_no_entry)
}

#[test]
fn parts_make_columns(rt: HostRuntime) -> Result<(), Fail> {
    check_answer(makes_all(rt.alloc()))
}

#[test]
fn faults_of_parts_are_told(rt: HostRuntime) -> Result<(), Fail> {
    let told = format!(in rt.alloc(); "{}", PartsError::NoEntry { row: 1 })?;
    if told.as_str() == "the code of row 1 has no entry" {
        Ok(())
    } else {
        Err("it was told otherwise".into())
    }
}
