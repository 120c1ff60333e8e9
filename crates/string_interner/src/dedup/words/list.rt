//! A list of words that stays as long as it is.

ghost use Rattle.std.specs.Prelude.{◌≡◌, ◌<◌, length, replicate, slice_index_or, slice_set, [], IfOk};

use std::alloc::{AllocError, Global};
use std::marker::Model;

/// A list of words, which begin as 0.
///
/// In the Rust crate each word is atomic there, so that threads may read the words while one thread writes them.
#[derive(Drop)]
pub struct Words {
    items: Vec<u64>,
}

/// Contracts see the list.
impl Model for Words {
    ghost use Rattle.std.specs.Prelude.{List, ℕ};

    ghost Value = { List ℕ };

    ghost view = { λ w. w.items.items };
}

impl Words {
    /// Makes a list of no words. Allocates nothing.
    pub fn new(alloc: Global) -> Words
        ensures { result ≡ [] }
    {
        Words {
            items: Vec::new(alloc),
        }
    }

    /// Makes a list of so many words. Returns `Err` only if an allocation fails.
    pub fn zeros(alloc: Global, count: usize) -> Result<Words, AllocError>
        ensures { IfOk result (λ words. words ≡ replicate count 0) }
    {
        Ok(Words {
            items: Vec::from_elem(alloc, 0, count)?,
        })
    }

    /// Returns an equal list. Returns `Err` only if an allocation fails.
    pub fn try_copy(&self) -> Result<Words, AllocError>
        ensures { IfOk result (λ copy. copy ≡ self.now) }
    {
        let alloc = *self.items.allocator();
        Ok(Words {
            items: Vec::from_slice(alloc, &self.items)?,
        })
    }

    /// Returns how many words there are.
    #[inline(always)]
    pub fn len(&self) -> usize
        ensures { result ≡ length self.now }
    {
        self.items.len()
    }

    /// Returns a word.
    #[inline(always)]
    pub fn get(&self, at: usize) -> u64
        requires { at < length self.now }
        ensures { result ≡ slice_index_or self.now at 0 }
    {
        self.items[at]
    }

    /// Writes a word.
    #[inline(always)]
    pub fn set(&mut self, at: usize, word: u64)
        requires { at < length self.old }
        ensures { self.new ≡ slice_set self.old at word }
    {
        self.items[at] = word;
    }

    /// Writes 0 to all words.
    pub fn clear(&mut self)
        ensures { self.new ≡ replicate (length self.old) 0 }
    {
        self.items.fill(0);
    }
}
