//! Calls on backends, which look for no repeats: `one`, on which calls are made, and `other`.

use crate::fault::{Failure, Mistake, Told};
use crate::level::Level;
use crate::line::Call;
use crate::many::intern_empties;
use crate::own::SuiteBackend;
use crate::sight::Sight;
use crate::tell::{
    put, require, symbol_of, tell, tell_done, tell_entries, tell_found, tell_offered, tell_symbol,
    tell_text,
};
use crate::texts::{Texts, sight_of};
use std::alloc::Global;
use std::mem::swap;
use string_interner::backend::{Backend, InternError, Iter};
use string_interner::symbol::Symbol;

/// Two backends.
#[derive(Drop)]
pub struct Backends<B: Backend> {
    one: B,
    other: B,
}

/// Puts a text last and calls `resolve_unchecked` with its symbol.
fn read_back<'b, B: Backend>(backend: &'b mut B, text: &str) -> Result<&'b str, InternError> {
    let symbol = backend.intern(text)?;
    Ok(backend.resolve_unchecked(symbol))
}

/// The same, and prints the text.
fn tell_read_back<B: Backend>(rt: &HostRuntime, backend: &mut B, text: &str) -> Told {
    tell_text(rt, Some(read_back(backend, text)?))
}

/// Prints the text of the symbol with a number.
fn tell_resolved<B: Backend>(rt: &HostRuntime, backend: &B, number: usize) -> Told {
    tell_text(rt, backend.resolve(symbol_of(number)?))
}

/// Prints each entry by `entry_at`: its place, its symbol, its text, and the place of the next one.
fn tell_places<B: Backend>(rt: &HostRuntime, backend: &B) -> Told {
    let mut at = 0;
    for _entry in 0..backend.count() {
        let (symbol, text, next) = backend.entry_at(at);
        println!(rt;
            "  at {at}: symbol {}, text {text}, next {next}",
            symbol.to_usize()
        )?;
        at = next;
    }
    Ok(())
}

/// Prints how many bytes there are, and the first of them.
fn tell_bytes(rt: &HostRuntime, offered: Option<&[u8]>) -> Told {
    let bytes = require(offered)?;
    let first = bytes.get(..24).unwrap_or(bytes);
    tell(rt, &format_args!("{} bytes, {first:?}", bytes.len()))
}

impl<B: SuiteBackend> Level for Backends<B> {
    fn call(&mut self, rt: &HostRuntime, call: Call<'_>) -> Told {
        match call.name {
            "intern" | "letters" => tell_symbol(rt, self.one.intern(call.text)),
            "intern_static" => tell_symbol(rt, self.one.intern_static(call.static_text)),
            "resolve_unchecked" => tell_read_back(rt, &mut self.one, call.text),
            "empties" => intern_empties(rt, self, call),
            "entry_at" => tell_places(rt, &self.one),
            "iter" => tell_entries(rt, &mut self.one.iter()),
            _ => self.look(rt, call),
        }
    }

    fn sight(&self, text: &str, most: usize) -> Sight {
        sight_of(self, text, most)
            .with_symbol(self.one.next_symbol())
            .with_number(self.one.count())
            .with_number(self.one.bytes().map_or(0, |bytes| bytes.len()))
    }
}

impl<B: Backend> Texts<B> for Backends<B> {
    fn entries(&self) -> Iter<'_, B> {
        self.one.iter()
    }

    fn find(&self, _text: &str) -> Option<B::Symbol> {
        None
    }

    fn resolve(&self, symbol: B::Symbol) -> Option<&str> {
        self.one.resolve(symbol)
    }

    fn intern(&mut self, text: &str) -> Result<B::Symbol, InternError> {
        self.one.intern(text)
    }
}

impl<B: SuiteBackend> Backends<B> {
    /// Two backends with no texts.
    pub fn new(alloc: Global) -> Self {
        Backends {
            one: B::new(alloc),
            other: B::new(alloc),
        }
    }

    /// Makes a call that changes nothing.
    fn look(&mut self, rt: &HostRuntime, call: Call<'_>) -> Told {
        match call.name {
            "count" => tell(rt, &self.one.count()),
            "next_symbol" => tell_found(rt, self.one.next_symbol()),
            "resolve" => tell_resolved(rt, &self.one, call.number),
            "as_bytes" => tell_bytes(rt, self.one.bytes()),
            "texts_asked" => tell_offered(rt, self.one.count_asked()),
            "equal" => tell(rt, &(self.one == self.other)),
            _ => self.change(rt, call),
        }
    }

    /// Makes a call that prints `ok`.
    fn change(&mut self, rt: &HostRuntime, call: Call<'_>) -> Told {
        match call.name {
            "new" => put(rt, &mut self.one, Ok::<_, Failure>(B::new(rt.alloc()))),
            "with_capacity" => put(rt, &mut self.one, B::with_capacity(rt.alloc(), call.number)),
            "shrink_to_fit" => {
                self.one.shrink_to_fit();
                tell_done(rt)
            }
            "truncate" => {
                self.one.truncate(call.number);
                tell_done(rt)
            }
            "clone" => put(rt, &mut self.other, self.one.make_clone()),
            "try_copy" => put(rt, &mut self.other, self.one.try_copy()),
            "swap" => {
                swap(&mut self.one, &mut self.other);
                tell_done(rt)
            }
            _ => Err(Failure::Line(Mistake::Call)),
        }
    }
}
