//! Calls on interners: `one`, on which calls are made, and `other`.

mod json;

use crate::counting::signal;
use crate::fault::{Failure, Mistake, Told};
use crate::level::{Level, is_refused, tell_refusal};
use crate::line::Call;
use crate::many::{as_str, format_number, intern_many};
use crate::own::{SuiteBackend, SuiteHasher};
use crate::sight::Sight;
use crate::tell::{
    put, symbol_of, tell, tell_done, tell_entries, tell_found, tell_hashed, tell_symbol, tell_text,
};
use crate::texts::sight_of;
pub use json::{symbol_from_json, symbol_to_json};
use json::{parse_json, tell_read};
use serde_json::Value;
use std::alloc::Global;
use std::mem::{replace, swap};
use string_interner::StringInterner;
use string_interner::backend::{Backend, InternError};
use string_interner::dedup::{CopyIndex, TextHasher, TextIndex};
use string_interner::json::JsonError;
use string_interner::symbol::Symbol;

/// Two interners, the hasher under which they began, and the symbols of a call of `intern_all`.
#[derive(Drop)]
pub struct Interners<B: Backend, H: TextHasher, I: TextIndex<B::Symbol>> {
    one: StringInterner<B, H, I>,
    other: StringInterner<B, H, I>,
    hasher: H,
    symbols: Vec<B::Symbol>,
}

/// A clone of a hasher, which may have other codes.
fn clone_hasher<H: Clone + Default>(hasher: &H) -> H {
    hasher.clone().unwrap_or_default()
}

/// Interns a text and calls `resolve_unchecked` with its symbol.
fn read_back<'i, B: Backend, H: TextHasher, I: TextIndex<B::Symbol>>(
    interner: &'i mut StringInterner<B, H, I>,
    text: &str,
) -> Result<&'i str, InternError> {
    let symbol = interner.get_or_intern(text)?;
    Ok(interner.resolve_unchecked(symbol))
}

/// The same, and prints the text.
fn tell_read_back<B: Backend, H: TextHasher, I: TextIndex<B::Symbol>>(
    rt: &HostRuntime,
    interner: &mut StringInterner<B, H, I>,
    text: &str,
) -> Told {
    tell_text(rt, Some(read_back(interner, text)?))
}

/// Prints the text of the symbol with a number.
fn tell_resolved<B: Backend, H: TextHasher, I: TextIndex<B::Symbol>>(
    rt: &HostRuntime,
    interner: &StringInterner<B, H, I>,
    number: usize,
) -> Told {
    tell_text(rt, interner.resolve(symbol_of(number)?))
}

/// What a call returned that interns texts one by one: where it was refused memory, it may have interned the first.
fn mark_partly(outcome: Result<(), InternError>) -> Told {
    match outcome {
        Err(InternError::Memory(_)) => Err(Failure::Partly),
        _ => Ok(outcome?),
    }
}

/// Looks for the decimal numbers below a count, and prints those that have no symbol which resolves to them.
fn get_numbers<B: Backend, H: TextHasher, I: TextIndex<B::Symbol>>(
    rt: &HostRuntime,
    interner: &StringInterner<B, H, I>,
    count: usize,
) -> Told {
    let mut known: usize = 0;
    for number in 0..count {
        let text = format_number(number)?;
        let symbol = interner.get(as_str(&text));
        if symbol.and_then(|symbol| interner.resolve(symbol)) == Some(as_str(&text)) {
            known = known.saturating_add(1);
        } else {
            println!(rt; "  {number} is not known")?;
        }
    }
    tell(rt, &format_args!("{known} known"))
}

/// A text that no scenario interns.
const QUESTION: &'static str = "how many texts were you asked for?";

/// How often a text is asked to be interned at most, so that a backend that refuses it always is seen.
const MOST_QUESTIONS: usize = 1 << 20;

/// Prints how many texts the backend was asked for, which a `Counting` tells by two refusals for each.
fn tell_asked<B: Backend, H: TextHasher, I: TextIndex<B::Symbol>>(
    rt: &HostRuntime,
    interner: &mut StringInterner<B, H, I>,
    call: Call<'_>,
) -> Told {
    if call.scenario.backend != "counting" {
        return Err(Failure::Line(Mistake::NotOffered));
    }
    let count = interner.len();
    signal(interner);
    let refusals = (0..MOST_QUESTIONS)
        .take_while(|_| interner.get_or_intern(QUESTION).is_err())
        .count();
    interner.truncate(count);
    signal(interner);
    // An odd refusal is one of memory.
    tell_refusal(rt, call.name, true, refusals % 2 == 1)?;
    tell(rt, &(refusals / 2))
}

/// Prints the symbols of a list.
fn tell_symbols<S: Symbol>(rt: &HostRuntime, symbols: &[S]) -> Told {
    for symbol in symbols {
        println!(rt; "  symbol {}", symbol.to_usize())?;
    }
    Ok(())
}

/// The texts of a call.
fn collect_texts<'t>(alloc: Global, call: Call<'t>) -> Result<Vec<&'t str>, Failure> {
    let mut texts = Vec::with_capacity(alloc, call.texts().count())?;
    for text in call.texts() {
        texts.reserve(1)?;
        texts.push_reserved(text);
    }
    Ok(texts)
}

/// Calls `intern_slice` with the texts of a call, and prints the number of the symbol of each that was interned.
fn intern_slice<B: Backend, H: TextHasher, I: TextIndex<B::Symbol>>(
    rt: &HostRuntime,
    interner: &mut StringInterner<B, H, I>,
    call: Call<'_>,
) -> Told {
    let texts = collect_texts(rt.alloc(), call)?;
    let mut numbers = vec![in rt.alloc(); 0_usize; texts.len()]?;
    let (done, ended) = match interner.intern_slice(&texts, &mut numbers) {
        Ok(()) => (texts.len(), Ok(())),
        Err(stopped) => (stopped.done, Err(stopped.error)),
    };
    let outcome = mark_partly(ended);
    if !is_refused(&outcome) {
        tell_numbers(rt, &numbers, done)?;
    }
    outcome?;
    tell_done(rt)
}

/// Prints the first numbers of a list.
fn tell_numbers(rt: &HostRuntime, numbers: &[usize], count: usize) -> Told {
    for number in numbers.iter().take(count) {
        println!(rt; "  number {number}")?;
    }
    Ok(())
}

/// Reads an interner from a value by the call that is named.
fn read_by<B: Backend + Drop, H: TextHasher + Default + Drop, I: TextIndex<B::Symbol> + Drop>(
    alloc: Global,
    name: &str,
    value: &Value,
) -> Result<StringInterner<B, H, I>, JsonError> {
    match name {
        "from_json" | "json_again" => StringInterner::from_json(alloc, value),
        _ => StringInterner::from_json_exact(alloc, value),
    }
}

impl<B: SuiteBackend, H: SuiteHasher, I: CopyIndex<B::Symbol> + Drop> Level for Interners<B, H, I> {
    fn call(&mut self, rt: &HostRuntime, call: Call<'_>) -> Told {
        match call.name {
            "get_or_intern" | "letters" => tell_symbol(rt, self.one.get_or_intern(call.text)),
            "get_or_intern_static" => tell_symbol(
                rt,
                self.one.get_or_intern_static(call.static_text),
            ),
            "resolve_unchecked" => tell_read_back(rt, &mut self.one, call.text),
            "numbers" | "choices" | "distances" => intern_many(rt, &mut self.one, call),
            "texts_asked" => tell_asked(rt, &mut self.one, call),
            "texts_hashed" => tell_hashed(rt, call.scenario),
            _ => self.look(rt, call),
        }
    }

    fn sight(&self, text: &str, most: usize) -> Sight {
        sight_of(&self.one, text, most)
    }
}

impl<B: SuiteBackend, H: SuiteHasher, I: CopyIndex<B::Symbol> + Drop> Interners<B, H, I> {
    /// Two interners under a hasher.
    pub fn new(alloc: Global, hasher: H) -> Self {
        Interners {
            one: StringInterner::with_hasher(alloc, clone_hasher(&hasher)),
            other: StringInterner::with_hasher(alloc, clone_hasher(&hasher)),
            hasher,
            symbols: Vec::new(alloc),
        }
    }

    /// Makes a call that changes nothing.
    fn look(&mut self, rt: &HostRuntime, call: Call<'_>) -> Told {
        match call.name {
            "get" => tell_found(rt, self.one.get(call.text)),
            "contains" => tell(rt, &self.one.contains(call.text)),
            "next_symbol" => tell_found(rt, self.one.next_symbol()),
            "get_numbers" => get_numbers(rt, &self.one, call.number),
            "resolve" => tell_resolved(rt, &self.one, call.number),
            "len" => tell(rt, &self.one.len()),
            "is_empty" => tell(rt, &self.one.is_empty()),
            "iter" => tell_entries(rt, &mut self.one.iter()),
            "equal" => tell(rt, &(self.one == self.other)),
            _ => self.change(rt, call),
        }
    }

    /// Makes a call that changes an interner, or makes one with the hasher of one.
    fn change(&mut self, rt: &HostRuntime, call: Call<'_>) -> Told {
        match call.name {
            "shrink_to_fit" => {
                self.one.shrink_to_fit();
                tell_done(rt)
            }
            "truncate" => {
                self.one.truncate(call.number);
                tell_done(rt)
            }
            "extend" | "extend_numbers" => self.extend(rt, call),
            "intern_all" | "intern_all_numbers" => self.intern_all(rt, call),
            "intern_slice" => intern_slice(rt, &mut self.one, call),
            "with_hasher" => self.begin(rt),
            "with_capacity_and_hasher" => self.begin_with_capacity(rt, call.number),
            "clone" => put(rt, &mut self.other, self.one.clone()),
            "try_copy" => put(rt, &mut self.other, H::copy_interner(&self.one)),
            "swap" => {
                swap(&mut self.one, &mut self.other);
                tell_done(rt)
            }
            _ => self.make(rt, call),
        }
    }

    /// Interns texts.
    fn extend(&mut self, rt: &HostRuntime, call: Call<'_>) -> Told {
        mark_partly(self.one.extend(call.texts()))?;
        tell_done(rt)
    }

    /// Makes a new interner under the hasher.
    fn begin(&mut self, rt: &HostRuntime) -> Told {
        self.one = StringInterner::with_hasher(rt.alloc(), clone_hasher(&self.hasher));
        tell_done(rt)
    }

    /// The same with room for some texts.
    fn begin_with_capacity(&mut self, rt: &HostRuntime, capacity: usize) -> Told {
        let hasher = clone_hasher(&self.hasher);
        let made = StringInterner::with_capacity_and_hasher(rt.alloc(), capacity, hasher);
        put(rt, &mut self.one, made)
    }

    /// Makes a call that takes the default of the hasher. One that counts has no default that does.
    fn make(&mut self, rt: &HostRuntime, call: Call<'_>) -> Told {
        match call.name {
            _ if call.scenario.hasher == "counting" => Err(Failure::Line(Mistake::NotOffered)),
            "new" => put(
                rt,
                &mut self.one,
                Ok::<_, Failure>(StringInterner::new(rt.alloc())),
            ),
            "with_capacity" => put(
                rt,
                &mut self.one,
                StringInterner::with_capacity(rt.alloc(), call.number),
            ),
            "from_iter" | "from_iter_numbers" => put(
                rt,
                &mut self.one,
                StringInterner::from_iter(rt.alloc(), call.texts()),
            ),
            "to_json" => self.write_json(rt),
            "symbol_to_json" => symbol_to_json::<B::Symbol>(rt, call.number),
            "symbol_from_json" => symbol_from_json::<B::Symbol>(rt, call.text),
            "from_json" | "from_json_exact" => self.read_json(rt, call),
            "json_again" | "json_exact_again" => self.read_json_again(rt, call),
            "into_backend" => self.take_backend(rt),
            _ => Err(Failure::Line(Mistake::Call)),
        }
    }

    /// Prints the JSON text.
    fn write_json(&self, rt: &HostRuntime) -> Told {
        tell(rt, &self.one.to_json(rt.alloc())?)
    }

    /// Reads an interner from a JSON text.
    fn read_json(&mut self, rt: &HostRuntime, call: Call<'_>) -> Told {
        let value = parse_json(rt.alloc(), call.text)?;
        self.one = read_by(rt.alloc(), call.name, &value)?;
        tell_read(rt, self.one.len())
    }

    /// Reads the other interner from the JSON value of this one.
    fn read_json_again(&mut self, rt: &HostRuntime, call: Call<'_>) -> Told {
        let value = self.one.to_json(rt.alloc())?;
        self.other = read_by(rt.alloc(), call.name, &value)?;
        tell_read(rt, self.other.len())
    }

    /// Takes the interner apart, and prints the entries of its backend.
    fn take_backend(&mut self, rt: &HostRuntime) -> Told {
        let new = StringInterner::new(rt.alloc());
        tell_entries(rt, &mut replace(&mut self.one, new).into_backend().iter())
    }

    /// Calls `intern_all` with the texts that have no symbol in the list yet, which is new where nothing was refused, and
    /// prints the list.
    fn intern_all(&mut self, rt: &HostRuntime, call: Call<'_>) -> Told {
        if !call.is_again {
            self.symbols = Vec::new(rt.alloc());
        }
        let texts = call.texts().skip(self.symbols.len());
        let outcome = mark_partly(self.one.intern_all(texts, &mut self.symbols));
        if !is_refused(&outcome) {
            tell_symbols(rt, &self.symbols)?;
        }
        outcome?;
        tell_done(rt)
    }
}
