//! Calls on scopes.

use crate::fault::{Failure, Mistake, Told};
use crate::level::Level;
use crate::line::Call;
use crate::sight::Sight;
use crate::tell::{
    symbol_of, tell, tell_done, tell_entries, tell_found, tell_hashed, tell_symbol, tell_text,
};
use crate::texts::sight_of;
use string_interner::backend::Backend;
use string_interner::dedup::{TextHasher, TextIndex};
use string_interner::scope::Scopes;

/// Opens a scope.
fn enter<B: Backend, H: TextHasher, I: TextIndex<B::Symbol>>(
    rt: &HostRuntime,
    scopes: &mut Scopes<B, H, I>,
) -> Told {
    scopes.enter()?;
    tell_done(rt)
}

/// Prints the text of the symbol with a number.
fn tell_resolved<B: Backend, H: TextHasher, I: TextIndex<B::Symbol>>(
    rt: &HostRuntime,
    scopes: &Scopes<B, H, I>,
    number: usize,
) -> Told {
    tell_text(rt, scopes.resolve(symbol_of(number)?))
}

/// Makes a call that changes nothing.
fn look<B: Backend, H: TextHasher, I: TextIndex<B::Symbol>>(
    rt: &HostRuntime,
    scopes: &Scopes<B, H, I>,
    call: Call<'_>,
) -> Told {
    match call.name {
        "find" => tell_found(rt, scopes.find(call.text)),
        "depth" => tell(rt, &scopes.depth()),
        "interner" => tell(rt, &scopes.interner().len()),
        "resolve" => tell_resolved(rt, scopes, call.number),
        "len" => tell(rt, &scopes.len()),
        "is_empty" => tell(rt, &scopes.is_empty()),
        "iter" => tell_entries(rt, &mut scopes.iter()),
        _ => Err(Failure::Line(Mistake::Call)),
    }
}

impl<B: Backend, H: TextHasher, I: TextIndex<B::Symbol>> Level for Scopes<B, H, I> {
    fn call(&mut self, rt: &HostRuntime, call: Call<'_>) -> Told {
        match call.name {
            "enter" => enter(rt, self),
            "leave" => tell(rt, &self.leave()),
            "declare" => tell_symbol(rt, self.declare(call.text)),
            "texts_hashed" => tell_hashed(rt, call.scenario),
            _ => look(rt, self, call),
        }
    }

    fn sight(&self, text: &str, most: usize) -> Sight {
        sight_of(self.interner(), text, most).with_number(self.depth())
    }
}
