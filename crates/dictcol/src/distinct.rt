//! `distinct`: each line once.

ghost use Rattle.std.specs.Prelude.{◌≡◌, ◌≤◌, ◌⊎◌, List, [], ◌++◌, IfErr, IfSome, IsErrAnd, OnOk, length};
ghost use Rattle.std.specs.Io.KnownBytes.{Appends};
ghost use Rattle.string_interner.specs.Text.{Text};
ghost use Rattle.string_interner.specs.Extend.{fresh, texts_of};
ghost use Rattle.string_column.specs.Column.{dictionary_of};
ghost use Rattle.dictcol.specs.Blocks.{IsLinesTaskFault};
ghost use Rattle.dictcol.specs.Distinct.{HasMet, IsCodedBy, WritesFirst, distinct_text};
ghost use Rattle.dictcol.specs.Fault.{IsWriteFault};
ghost use Rattle.dictcol.specs.Lines.{ended_text, lines_of};
ghost use Rattle.dictcol.specs.TooMany.{LacksLine};
ghost use Rattle.dictcol.specs.declared.fault.Fault.TheVariants.{Memory};

use crate::fault::Fault;
use crate::hasher::LineHasher;
use crate::input::block::Block;
use crate::input::blocks;
use crate::input::blocks::{Taker, TakesLines};
use crate::input::line_blocks::{TakesBlocks, take_blocks};
use crate::lines::push_line;
use crate::output::write;
use std::alloc::Global;
use std::io;
use std::io::{ErrorKind, Read, Write};
use string_column::{Codes, Dictionary};
use string_interner::backend::Backend;

/// So much room is kept for lines that wait: no block needs more, unless a line is long.
const ROOM: usize = 1 << 20;

/// The distinct lines of those that were met. A line that is met again takes no memory.
#[derive(Drop)]
struct DistinctLines<B: Backend> {
    lines: Dictionary<B, LineHasher>,
    /// So many of them were written.
    written: usize,
    /// The others, and a newline behind each.
    waiting: Vec<u8>,
    /// How many lines were met, or `usize::MAX` if there are more.
    total: usize,
    /// The codes of the lines of a block, while these are looked at.
    codes: Codes,
}

/// Appends the lines of a block that are new, by the codes of all. Those below `known` are of lines from before.
fn push_new(waiting: &mut Vec<u8>, block: &[&str], codes: &Codes, known: usize) -> Result<(), Fault>
    requires { length codes.now.items ≤ length block.now }
    ensures ok { OnOk result ((lines : List Text)
        → IsCodedBy lines (texts_of block.now) known codes.now.items
        → waiting.new.items ≡ waiting.old.items
        ++ ended_text (fresh (dictionary_of lines) (texts_of block.now))) }
    ensures fault { IfErr result (λ fault. fault ≡ Memory) }
{
    let mut new = 0;
    for at in 0..codes.len() {
        let code = codes.at(at);
        if code < known {
            continue;
        }
        if code - known < new {
            // An earlier line of the block is the same one.
            continue;
        }
        push_line(waiting, block[at])?;
        new += 1;
    }
    Ok(())
}

impl<B: Backend> DistinctLines<B> {
    /// Makes the distinct ones of no lines.
    fn new(alloc: Global, hasher: LineHasher) -> Self
        ensures { HasMet result [] }
    {
        DistinctLines {
            lines: Dictionary::with_hasher(alloc, hasher),
            written: 0,
            waiting: Vec::new(alloc),
            total: 0,
            codes: Codes::new(alloc),
        }
    }

    /// Writes the lines that wait.
    fn write_waiting<W: Write>(&mut self, output: &mut W) -> Result<(), Fault>
        ensures met { OnOk result ((lines : List Text) → HasMet self.old lines
            → HasMet self.new lines × (self.new.written ≡ length self.old.lines)) }
        ensures written { OnOk result (Appends (W.contents output.old) (W.contents output.new)
            self.old.waiting.items) }
        ensures fault { IfErr result IsWriteFault }
    {
        write(output, &self.waiting)?;
        output.flush().map_err(Fault::of_write)?;
        self.written = self.lines.interner().len();
        self.waiting.clear();
        if self.waiting.capacity() > ROOM {
            // A long line was here: the next one may go elsewhere.
            self.waiting.shrink_to_fit();
        }
        Ok(())
    }
}

impl<B: Backend> Taker for DistinctLines<B> {
    ghost use Rattle.std.specs.Prelude.{ℕ};
    ghost use Rattle.dictcol.specs.Distinct.{HasMet};
    ghost use Rattle.dictcol.specs.TooMany.{LacksLine};

    ghost has_taken = { HasMet };

    ghost refuses = { LacksLine B.numbering };

    ghost Kept = { ℕ };

    ghost kept = { λ known. known.written };
}

impl<B: Backend> TakesBlocks for DistinctLines<B> {
    #[inline]
    fn add(&mut self, line: &str) -> Result<(), Fault> {
        let known = self.lines.interner().len();
        let index = self.lines.intern(line).map_err(Fault::of_intern)?;
        self.total = self.total.saturating_add(1);
        if index < known {
            return Ok(());
        }
        push_line(&mut self.waiting, line)?;
        Ok(())
    }

    #[inline(never)]
    fn add_block(&mut self, block: &[&str]) -> Result<(), Fault> {
        let known = self.lines.interner().len();
        self.codes.truncate(0);
        self.lines
            .intern_block(block, &mut self.codes)
            .map_err(Fault::of_intern)?;
        self.total = self.total.saturating_add(block.len());
        push_new(&mut self.waiting, block, &self.codes, known)?;
        Ok(())
    }

    #[inline]
    fn count_entries(&self) -> usize {
        self.lines.interner().len()
    }
}

impl<B: Backend> TakesLines for DistinctLines<B> {
    fn take_lines(&mut self, text: &str) -> Result<(), Fault> {
        take_blocks(self, text)
    }

    fn count_lines(&self) -> usize {
        self.total
    }
}

/// Writes each line of an input once, in the order of first appearance: a new one when the read that ends it is done. So the lines
/// before one that is not UTF-8 are written, but for those of the same read.
pub fn distinct<B: Backend + Drop, R: Read, W: Write>(
    alloc: Global,
    hasher: LineHasher,
    input: &mut R,
    output: &mut W,
) -> Result<(), Fault>
    ensures written { OnOk result (IfSome (R.remaining input.old) (λ all.
        Appends (W.contents output.old) (W.contents output.new) (distinct_text (lines_of all)))) }

    // Unless a write failed, no line is cut.
    ensures first { IsErrAnd result IsWriteFault ⊎ IfSome (R.remaining input.old) (λ all.
        WritesFirst (lines_of all) (W.contents output.old) (W.contents output.new)) }
    ensures fault { IfErr result
        (IsLinesTaskFault (LacksLine B.numbering) (R.remaining input.old)) }
{
    let mut lines: DistinctLines<B> = DistinctLines::new(alloc, hasher);
    let mut block = Block::new(alloc)?;
    for _ in 0..u64::MAX {
        if blocks::read_block(&mut block, input, &mut lines)? {
            let rest = blocks::end_block(block, lines.count_lines())?;
            if !rest.is_empty() {
                lines.add(&rest)?;
            }
            return lines.write_waiting(output);
        }
        lines.write_waiting(output)?;
    }
    Err(Fault::of_read(io::Error::from(ErrorKind::Interrupted)))
}
