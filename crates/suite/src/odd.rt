//! Symbol types and hashers of a caller.

ghost use Rattle.std.specs.Prelude.{◌<◌, ◌+◌, ◌*◌, ◌%◌, ◌^◌, ℕ, length};
ghost use Rattle.std.proofs.Common.{rules, lit≤};
ghost use Rattle.string_interner.specs.Hasher.{fnv_1a};
ghost use Rattle.string_interner.specs.Symbol.{number_below, number_below-some};
ghost use Rattle.suite.specs.Samples.{half_of, half_of-some, halves_equal, halves_same};

use core::hash::keyed_hasher;
use std::alloc::AllocError;
use std::cell::Cell;
use std::hash::Hasher;
use std::marker::Model;
use string_interner::dedup::{FixedState, TextHasher};
use string_interner::symbol::Symbol;

/// A hasher that gives all texts one code.
#[derive(Clone, Copy, Default)]
pub struct Constant;

impl TextHasher for Constant {
    ghost code = { λ _ text. 0 };

    fn hash_text(&self, _text: &str) -> u64 {
        0
    }
}

/// A hasher by the count of bytes.
#[derive(Clone, Copy, Default)]
pub struct ByteCount;

impl TextHasher for ByteCount {
    ghost code = { λ _ text. length text };

    fn hash_text(&self, text: &str) -> u64 {
        text.len() as u64
    }
}

/// A hasher by the count of bytes and a salt. Its clone has another salt.
#[derive(Drop)]
pub struct Salted {
    pub salt: u64,
}

impl Clone for Salted {
    fn clone(&self) -> Result<Self, AllocError> {
        Ok(Salted {
            salt: self.salt.wrapping_add(29),
        })
    }
}

impl TextHasher for Salted {
    ghost code = { λ hasher text. (hasher.salt + length text) % 2 ^ 64 };

    fn hash_text(&self, text: &str) -> u64 {
        self.salt.wrapping_add(text.len() as u64)
    }
}

impl Default for Salted {
    fn default() -> Self {
        Salted { salt: 5 }
    }
}

/// A hasher with the codes of the default one, which counts the texts that it hashes. The count is in a cell, which it
/// shares with its copies and clones.
#[derive(Clone, Copy, Default)]
pub struct CountingHasher<'c> {
    pub hashed: Option<&'c Cell<usize>>,
}

impl<'c> TextHasher for CountingHasher<'c> {
    ghost code = { λ _ text. fnv_1a text };

    fn hash_text(&self, text: &str) -> u64 {
        if let Some(hashed) = self.hashed {
            hashed.set(hashed.get().wrapping_add(1));
        }
        FixedState.hash_text(text)
    }
}

/// SipHash-1-3 under two keys. Those of its default stand for keys that a system draws: Python makes them of
/// `PYTHONHASHSEED=1`.
#[derive(Clone, Copy)]
pub struct Keyed {
    key0: u64,
    key1: u64,
}

impl TextHasher for Keyed {
    ghost use Rattle.suite.specs.Keyed.{keyed_code};

    ghost code = { λ hasher text. keyed_code hasher.key0 hasher.key1 text };

    fn hash_text(&self, text: &str) -> u64 {
        let mut state = keyed_hasher(self.key0, self.key1);
        state.write(text.as_bytes());
        state.finish()
    }
}

impl Default for Keyed {
    fn default() -> Self {
        Keyed {
            key0: 0xAED6_6CE1_84BE_2329,
            key1: 0xEBE9_BBF1_F149_9052,
        }
    }
}

/// A symbol type with gaps: the even numbers below 2^17.
#[derive(Clone, Copy, PartialEq, Eq, PartialOrd, Ord, Hash, Debug)]
pub struct Even {
    half: u16,
}

impl Model for Even {
    ghost Value = { ℕ };

    ghost view = { λ symbol. symbol.half };

    ghost inverse = { λ n. record { half = n } };
}

impl Symbol for Even {
    ghost number = { λ symbol. 2 * symbol };

    ghost symbol_of = { half_of };

    fn try_from_usize(index: usize) -> Option<Self> {
        if index % 2 == 0 && index / 2 < 65536 {
            Some(Even {
                half: (index / 2) as u16,
            })
        } else {
            None
        }
    }

    fn to_usize(self) -> usize {
        2 * self.half as usize
    }

    ghost numbered = { half_of-some };

    ghost equal_by_number = { halves_equal };

    ghost injective = { halves_same };
}

/// A symbol type that has two symbols: the numbers 0 and 1.
#[derive(Clone, Copy, PartialEq, Eq, PartialOrd, Ord, Hash, Debug)]
pub struct Bit {
    number: u8,
}

impl Model for Bit {
    ghost Value = { ℕ };

    ghost view = { λ symbol. symbol.number };

    ghost invariant = { λ symbol. symbol.number < 2 };

    ghost inverse = { λ n. record { number = n } };
}

impl Symbol for Bit {
    ghost number = { λ symbol. symbol };

    ghost symbol_of = { number_below 2 };

    fn try_from_usize(index: usize) -> Option<Self> {
        if index < 2 {
            Some(Bit {
                number: index as u8,
            })
        } else {
            None
        }
    }

    fn to_usize(self) -> usize {
        self.number as usize
    }

    ghost numbered = { number_below-some 2 (lit≤ tt) };

    ghost equal_by_number = { Prim.search rules };

    ghost injective = { λ a b same. same };
}
