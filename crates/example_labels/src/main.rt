//! Labels, each stored once, under symbols of one byte.
#![tactic(auto)]

ghost use Rattle.std.specs.Prelude.{ℕ, ◌<◌, length};
ghost use Rattle.std.proofs.Common.{rules, lit≤};
ghost use Rattle.string_interner.specs.Symbol.{number_below, number_below-some};

use std::io;
use std::marker::Model;
use string_interner::StringInterner;
use string_interner::backend::StringBackend;
use string_interner::dedup::TextHasher;
use string_interner::symbol::Symbol;

/// A symbol with the numbers from 0 to 199.
#[derive(Clone, Copy, PartialEq, Eq)]
struct Label {
    value: u8,
}

/// Contracts see the number.
impl Model for Label {
    ghost Value = { ℕ };

    ghost view = { λ label. label.value };

    ghost invariant = { λ label. label.value < 200 };

    ghost inverse = { λ n. record { value = n } };
}

impl Symbol for Label {
    ghost number = { λ label. label };

    ghost symbol_of = { number_below 200 };

    fn try_from_usize(index: usize) -> Option<Self> {
        if index < 200 {
            Some(Label { value: index as u8 })
        } else {
            None
        }
    }

    fn to_usize(self) -> usize {
        usize::from(self.value)
    }

    ghost numbered = { number_below-some 200 (lit≤ tt) };

    ghost equal_by_number = { Prim.search rules };

    ghost injective = { λ a b same. same };
}

/// Few labels have the same length, so it serves as their hash code.
#[derive(Clone, Copy, Default)]
struct ByLength;

impl TextHasher for ByLength {
    ghost code = { λ _ text. length text };

    fn hash_text(&self, text: &str) -> u64 {
        text.len() as u64
    }
}

fn main(rt: HostRuntime) -> io::Result<()> {
    let mut labels = StringInterner::<StringBackend<Label>, ByLength>::new(rt.alloc());
    for text in ["red", "green", "red"] {
        match labels.get_or_intern(text) {
            Ok(label) => println!(rt; "{text} {}", label.to_usize())?,
            Err(error) => println!(rt; "{text}: {error}")?,
        }
    }
    Ok(())
}
