//! The numbers of texts among the lines of `dict.txt`, of which no more is held than a block.

ghost use Rattle.std.specs.Prelude.{◌≡◌, ◌<◌, ◌⊎◌, All, List, [], ◌∷◌, length, map, slice_index_or, None, IfErr, IfOk, IfSome, OnOk};
ghost use Rattle.std.specs.Io.KnownBytes.{Appends};
ghost use Rattle.string_interner.specs.Text.{Text};
ghost use Rattle.string_interner.specs.Extend.{texts_of};
ghost use Rattle.string_column.specs.Column.{IsColumn};
ghost use Rattle.dictcol.specs.Blocks.{Takes};
ghost use Rattle.dictcol.specs.Fault.{IsTakeFault, IsWriteFault};
ghost use Rattle.dictcol.specs.Get.{HasFound, HasSought, IsFindFault, numbers_text};
ghost use Rattle.dictcol.specs.TooMany.{HasRefused, IsPastCount, LacksLine};
ghost use Rattle.dictcol.specs.declared.fault.Fault.TheVariants.{Memory};

use super::dictionary::take_file;
use crate::fault::Fault;
use crate::hasher::LineHasher;
use crate::input::blocks::{Taker, TakesLines};
use crate::input::split::Lines;
use crate::output::write;
use itoa::Buffer;
use std::alloc::Global;
use std::io::{Read, Write};
use string_column::Dictionary;
use string_interner::backend::Backend;

/// Texts that are sought among lines.
#[derive(Drop)]
struct Sought<B: Backend> {
    /// The distinct ones.
    texts: Dictionary<B, LineHasher>,
    /// For each text its index among these.
    codes: Vec<usize>,
    /// For each distinct text the number of the first line that equals it.
    numbers: Vec<Option<usize>>,
    /// How many lines were looked at.
    total: usize,
}

/// What was found among lines.
#[derive(Drop)]
pub struct Found {
    /// For each text the number of the first line that equals it, from 0 on.
    pub numbers: Vec<Option<usize>>,
    /// How many lines there are.
    pub lines: usize,
}

impl<B: Backend + Drop> Sought<B> {
    /// Makes what looks for these texts.
    fn new(alloc: Global, hasher: LineHasher, asked: &[&str]) -> Result<Self, Fault>
        ensures none { IfOk result (λ sought. HasSought sought []) }
        ensures codes { IfOk result
            (λ sought. IsColumn sought.texts sought.codes.items (texts_of asked.now)) }
        ensures fault { IfErr result
            (IsTakeFault (HasRefused (LacksLine B.numbering) (texts_of asked.now))) }
    {
        let mut texts = Dictionary::with_hasher(alloc, hasher);
        let mut codes = Vec::new(alloc);
        for text in asked {
            let code = match texts.intern(text) {
                Ok(code) => code,
                Err(error) => return Err(Fault::of_intern(error)),
            };
            if codes.push(code).is_err() {
                return Err(Fault::Memory);
            }
        }
        let Ok(numbers) = vec![in alloc; None; texts.interner().len()] else {
            return Err(Fault::Memory);
        };
        Ok(Sought {
            texts,
            codes,
            numbers,
            total: 0,
        })
    }
}

impl<B: Backend> Sought<B> {
    /// Looks at a line.
    #[inline]
    fn take(&mut self, line: &str) -> Result<(), Fault>
        ensures taken { OnOk result (Takes HasSought self.old self.new (line.now ∷ [])) }
        ensures texts { self.new.texts ≡ self.old.texts }
        ensures codes { self.new.codes ≡ self.old.codes }
        ensures fault { (lines : List Text) → HasSought self.old lines
            → IfErr result (IsTakeFault (IsPastCount lines line.now)) }
    {
        let total = self.total.checked_add(1).ok_or(Fault::TooMany)?;
        if self.texts.interner().contains(line) {
            // Nothing is interned: the text has an index.
            let index = self.texts.intern(line).map_err(|_| Fault::Memory)?;
            if index < self.numbers.len() && self.numbers[index].is_none() {
                self.numbers[index] = Some(self.total);
            }
        }
        self.total = total;
        Ok(())
    }

    /// Returns the number for each text.
    fn list_numbers(&self, alloc: Global) -> Result<Vec<Option<usize>>, Fault>
        requires { All (λ code. code < length self.now.numbers.items) self.now.codes.items }
        ensures ok { IfOk result (λ numbers. numbers.items
            ≡ map (λ code. slice_index_or self.now.numbers.items code None) self.now.codes.items) }
        ensures fault { IfErr result (λ fault. fault ≡ Memory) }
    {
        let mut numbers = Vec::new(alloc);
        for code in &self.codes {
            numbers
                .push(self.numbers[*code])
                .map_err(|_| Fault::Memory)?;
        }
        Ok(numbers)
    }
}

impl<B: Backend> Taker for Sought<B> {
    ghost use Rattle.std.specs.Prelude.{ℕ, List};
    ghost use Rattle.string_interner.specs.Text.{Text};
    ghost use Rattle.dictcol.specs.Get.{HasSought};
    ghost use Rattle.dictcol.specs.TooMany.{IsPastCount};

    ghost has_taken = { HasSought };

    ghost refuses = { IsPastCount };

    ghost Kept = { List Text × List ℕ };

    ghost kept = { λ sought. (sought.texts, sought.codes.items) };
}

impl<B: Backend> TakesLines for Sought<B> {
    fn take_lines(&mut self, text: &str) -> Result<(), Fault> {
        for line in Lines::new(text) {
            self.take(line)?;
        }
        Ok(())
    }

    fn count_lines(&self) -> usize {
        self.total
    }
}

/// Finds the numbers of texts among the lines of a file, which may be there twice.
pub fn find_numbers<B: Backend + Drop, R: Read>(
    alloc: Global,
    hasher: LineHasher,
    asked: &[&str],
    file: &mut R,
) -> Result<Found, Fault>
    ensures ok { IfOk result (λ found.
        IfSome (R.remaining file.old) (λ text. HasFound (texts_of asked.now) text found)) }
    ensures fault { IfErr result
        (IsFindFault B.numbering (texts_of asked.now) (R.remaining file.old)) }
{
    let mut sought = Sought::<B>::new(alloc, hasher, asked)?;
    take_file(alloc, file, &mut sought)?;
    Ok(Found {
        numbers: sought.list_numbers(alloc)?,
        lines: sought.total,
    })
}

/// Writes the numbers that were found, a line each.
pub fn write_numbers<W: Write>(numbers: &[Option<usize>], output: &mut W) -> Result<(), Fault>
    ensures written { OnOk result (Appends (W.contents output.old) (W.contents output.new)
        (numbers_text numbers.now)) }
    ensures fault { IfErr result IsWriteFault }
{
    let mut digits = Buffer::new();
    for found in numbers {
        if let Some(number) = found {
            write(output, digits.format(*number).as_bytes())?;
            write(output, b"\n")?;
        }
    }
    output.flush().map_err(Fault::of_write)
}
