//! Texts that the program makes, and calls on many of them.

use crate::fault::{Failure, Told};
use crate::level::{is_refused, tell_refusal};
use crate::line::Call;
use crate::tell::{tell, tell_symbol};
use crate::texts::Texts;
use std::alloc::Global;
use std::io;
use std::io::{Cursor, Write};
use std::str::{Bytes, from_utf8};
use string_interner::backend::{Backend, InternError};
use string_interner::symbol::Symbol;

/// A text of at most 96 bytes, which takes no memory.
type SmallText = Cursor<[u8; 96]>;

/// What was written.
pub fn as_str(text: &SmallText) -> &str {
    match text.get_ref().get(..text.position() as usize) {
        Some(bytes) => from_utf8(bytes).unwrap_or(""),
        None => "",
    }
}

/// Writes a number in decimal.
pub fn format_number(number: usize) -> io::Result<SmallText> {
    let mut text = Cursor::new([0u8; 96]);
    write!(text, "{number}")?;
    Ok(text)
}

/// Joins words, one of each two: the first of them where the next bit of a number is 0, from its low end on.
fn choose_words(words: &str, number: usize) -> io::Result<SmallText> {
    let mut text = Cursor::new([0u8; 96]);
    let mut bits = number;
    let mut is_second = false;
    for word in words.split(',') {
        if (bits % 2 == 1) == is_second {
            text.write_all(word.as_bytes())?;
        }
        if is_second {
            bits /= 2;
        }
        is_second = !is_second;
    }
    Ok(text)
}

/// The distance that two letters of ASCII stand for, as digits to base 94, of which `!` is 0.
fn read_distance(letters: &mut Bytes<'_>) -> usize {
    let mut distance: usize = 0;
    for _ in 0..2 {
        let digit = usize::from(letters.next().unwrap_or(b'!')).wrapping_sub(33);
        distance = distance.wrapping_mul(94).wrapping_add(digit);
    }
    distance
}

/// Joins the decimal numbers below a count by commas, in one request for memory: a number below the count has no more
/// digits than the count.
pub fn join_numbers(alloc: Global, count: usize) -> Result<String, Failure> {
    let width = as_str(&format_number(count)?).len().saturating_add(1);
    let mut text = String::with_capacity(alloc, count.saturating_mul(width))?;
    for number in 0..count {
        if number > 0 {
            text.push(',')?;
        }
        text.push_str(as_str(&format_number(number)?))?;
    }
    Ok(text)
}

/// The text that the program makes for a call, if it makes one.
fn make_text(alloc: Global, call: Call<'_>) -> Result<Option<String>, Failure> {
    match call.name {
        "letters" => Ok(Some("a".repeat(alloc, call.number)?)),
        "extend_numbers" | "intern_all_numbers" | "from_iter_numbers" => join_numbers(
            alloc,
            call.number,
        ).map(Some),
        _ => Ok(None),
    }
}

/// The same, made again if memory was refused.
pub fn make_text_again(rt: &HostRuntime, call: Call<'_>) -> Result<Option<String>, Failure> {
    let made = make_text(rt.alloc(), call);
    if !is_refused(&made) {
        return made;
    }
    let again = make_text(rt.alloc(), call);
    tell_refusal(rt, call.name, true, again.is_ok())?;
    again
}

/// Interns one of many texts, again if memory was refused. After a refusal only the count of texts and that text are
/// looked at, as a sight of all texts takes too long here.
fn intern_again<B: Backend, T: Texts<B>>(
    rt: &HostRuntime,
    texts: &mut T,
    call: Call<'_>,
    text: &str,
) -> Result<Result<B::Symbol, InternError>, Failure> {
    let (before, hashed) = (texts.entries().len(), call.scenario.hashed.get());
    let answer = texts.intern(text);
    if !matches!(answer, Err(InternError::Memory(_))) {
        return Ok(answer);
    }
    let is_kept = texts.entries().len() == before && texts.find(text).is_none();
    call.scenario.hashed.set(hashed);
    let again = texts.intern(text);
    let is_granted = !matches!(again, Err(InternError::Memory(_)));
    tell_refusal(rt, call.name, is_kept, is_granted)?;
    Ok(again)
}

/// The text of this number that the program makes for a call of many texts. `far` is the sum of the distances before it.
fn make_one(
    call: Call<'_>,
    number: usize,
    letters: &mut Bytes<'_>,
    far: &mut usize,
) -> io::Result<SmallText> {
    match call.name {
        "choices" => choose_words(call.text, number),
        "distances" => {
            *far = far.wrapping_add(read_distance(letters));
            format_number(*far)
        }
        _ => format_number(number),
    }
}

/// Interns the decimal numbers below a count, choices of words by them, or as many numbers as there are distances from each to
/// the next one. Prints a symbol where the step from the one before is another one than that one's was; the first is to be 0,
/// and the next one 1.
pub fn intern_many<B: Backend, T: Texts<B>>(
    rt: &HostRuntime,
    texts: &mut T,
    call: Call<'_>,
) -> Told {
    let mut last = usize::MAX;
    let mut step: usize = 1;
    let mut letters = call.text.bytes();
    let mut far: usize = 0;
    for number in 0..call.number {
        let text = make_one(call, number, &mut letters, &mut far)?;
        match intern_again(rt, texts, call, as_str(&text))? {
            Ok(symbol) => {
                let symbol = symbol.to_usize();
                if symbol.wrapping_sub(last) != step {
                    step = symbol.wrapping_sub(last);
                    println!(rt; "  {number} has symbol {symbol}, and so on")?;
                }
                last = symbol;
            }
            Err(error) => println!(rt; "  {number}: {error}")?,
        }
    }
    tell(rt, &format_args!("last symbol {last}"))
}

/// Interns the empty text so many times, and prints the last answer.
pub fn intern_empties<B: Backend, T: Texts<B>>(
    rt: &HostRuntime,
    texts: &mut T,
    call: Call<'_>,
) -> Told {
    let mut last = Err(InternError::NoSymbol);
    for _ in 0..call.number {
        last = intern_again(rt, texts, call, "")?;
    }
    tell_symbol(rt, last)
}
