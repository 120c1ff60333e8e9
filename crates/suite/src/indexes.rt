//! Calls on an index over a backend that has each text once.

mod filled;

use crate::fault::{Failure, Mistake, Told};
use crate::level::Level;
use crate::line::Call;
use crate::many::intern_many;
use crate::own::{SuiteBackend, SuiteHasher};
use crate::sight::Sight;
use crate::tell::{put, tell, tell_done, tell_found, tell_offered, tell_symbol};
use crate::texts::{Texts, sight_of};
pub use filled::Filled;
use std::mem::size_of;
use string_interner::backend::InternError;
use string_interner::dedup::{Looks, TextHasher};

/// Calls `reserve_one` and inserts a text. Where the backend is refused memory, the index has room for one more.
fn insert<B: SuiteBackend, H: TextHasher>(
    rt: &HostRuntime,
    filled: &mut Filled<B, H>,
    text: &str,
) -> Told {
    if filled.find(text).is_none() {
        filled.reserve()?;
    }
    match filled.intern(text) {
        Err(InternError::Memory(_)) => Err(Failure::Partly),
        answer => tell_symbol(rt, answer),
    }
}

/// Makes a call that prints `ok`.
fn change<B: SuiteBackend, H: SuiteHasher>(
    rt: &HostRuntime,
    filled: &mut Filled<B, H>,
    call: Call<'_>,
) -> Told {
    match call.name {
        "new" => put(rt, filled, Ok::<_, Failure>(Filled::new(rt.alloc()))),
        "with_capacity" => put(rt, filled, Filled::with_capacity(rt.alloc(), call.number)),
        "truncate" => {
            filled.truncate(call.number);
            tell_done(rt)
        }
        _ => Err(Failure::Line(Mistake::Call)),
    }
}

impl<B: SuiteBackend, H: SuiteHasher> Level for Filled<B, H> {
    fn call(&mut self, rt: &HostRuntime, call: Call<'_>) -> Told {
        match call.name {
            "insert" => insert(rt, self, call.text),
            "find" => tell_found(rt, self.find(call.text)),
            "numbers" => intern_many(rt, self, call),
            "slots" => tell(rt, &self.index().slots()),
            "put_back" => tell(rt, &self.index().put_back()),
            "greatest" => tell(rt, &self.index().greatest()),
            "looks_size" => tell(rt, &size_of::<Looks<'_, B>>()),
            "texts_asked" => tell_offered(rt, self.backend().count_asked()),
            _ => change(rt, self, call),
        }
    }

    fn sight(&self, text: &str, most: usize) -> Sight {
        sight_of(self, text, most)
            .with_number(self.index().slots())
            .with_number(self.index().put_back())
            .with_number(self.index().greatest())
    }
}
