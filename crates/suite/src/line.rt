//! The lines of a scenario: the name of a call, and what stands after it.

use crate::fault::Mistake;
use crate::scenario::Scenario;
use std::str::SplitN;

/// The call of one line, with its argument in each form in which calls take it.
#[derive(Clone, Copy)]
pub struct Call<'t> {
    /// The name of the call, as the scenario writes it.
    pub name: &'t str,
    /// All that follows the first space, or that follows the number.
    pub text: &'t str,
    /// How many texts `text` has between its commas: as many as there are, but none where there was no space.
    pub limit: usize,
    pub static_text: &'static str,
    pub number: usize,
    pub second: usize,
    /// Whether it is made once more, since memory was refused.
    pub is_again: bool,
    pub scenario: Scenario<'t>,
}

impl<'t> Call<'t> {
    /// The texts between the commas.
    pub fn texts(self) -> SplitN<'t, char> {
        self.text.splitn(self.limit, ',')
    }
}

/// Reads a number in decimal digits.
fn parse_number(digits: &str) -> Result<usize, Mistake> {
    if digits.starts_with('+') {
        return Err(Mistake::NotANumber);
    }
    digits.parse().map_err(|_| Mistake::NotANumber)
}

/// The calls that take nothing.
const BARE: &'static str =
    "new with_hasher into_backend shrink_to_fit next_symbol len is_empty iter to_json clone \
    try_copy swap equal json_again json_exact_again texts_asked texts_hashed count entry_at as_bytes slots put_back \
    greatest looks_size enter leave depth interner Len Shrink";

/// The calls that take a number.
const NUMBERED: &'static str =
    "with_capacity with_capacity_and_hasher from_iter_numbers letters numbers \
    extend_numbers intern_all_numbers truncate get_numbers resolve symbol_to_json empties try_from_usize \
    InternNumbers Resolve Number Truncate";

/// Whether a name is one of the words.
fn is_among(words: &'static str, name: &str) -> bool {
    words.split(' ').any(|word| word == name)
}

/// Reads what stands after the name of a call: a text, if nothing else.
fn read_argument<'t>(bare: Call<'t>) -> Result<Call<'t>, Mistake> {
    let mut call = bare;
    let (first, second) = bare.text.split_once(' ').unwrap_or((bare.text, ""));
    match bare.name {
        "get_or_intern_static" | "intern_static" | "InternStatic" => call.static_text =
            find_static_text(bare.text)?,
        "compare" => {
            call.number = parse_number(first)?;
            call.second = parse_number(second)?;
        }
        "choices" | "distances" => {
            call.number = parse_number(first)?;
            call.text = second;
        }
        name if is_among(NUMBERED, name) => call.number = parse_number(bare.text)?,
        name if bare.limit > 0 && is_among(BARE, name) => return Err(Mistake::Unwanted),
        _ => {}
    }
    Ok(call)
}

/// A call of this name with a text, but for what else the text may be read as.
pub fn bare_call<'t>(name: &'t str, text: Option<&'t str>, scenario: Scenario<'t>) -> Call<'t> {
    Call {
        name,
        text: text.unwrap_or(""),
        limit: if text.is_some() { usize::MAX } else { 0 },
        static_text: "",
        number: 0,
        second: 0,
        is_again: false,
        scenario,
    }
}

/// Reads the call of a line.
pub fn read_call<'t>(line: &'t str, scenario: Scenario<'t>) -> Result<Call<'t>, Mistake> {
    let bare = match line.split_once(' ') {
        Some((name, text)) => bare_call(name, Some(text), scenario),
        None => bare_call(line, None, scenario),
    };
    read_argument(bare)
}

/// Texts that live as long as the program, between commas. A scenario names one by writing it.
const STATIC_TEXTS: &'static str =
    ",a,b,c,d,e,f,g,aa,bc,cc,de,zz,Tiger,Horse,Bear,Ox,Elephant,Earth,é,0,00,0 ,40000,\
    65534,65535,fghijklm,a longer one,123456789012345678901234567890,a text that is longer than the room that two \
    small texts leave to it in any of the backends";

/// The static text that is equal to a text.
fn find_static_text(text: &str) -> Result<&'static str, Mistake> {
    let known = STATIC_TEXTS.split(',').find(|known| *known == text);
    known.ok_or(Mistake::NotStatic)
}
