//! Lines in shards: each line goes to the output that its hash code tells. So equal lines are in one shard, and what is counted or
//! encoded of a shard needs no other.

pub mod folder;

ghost use Rattle.std.specs.Prelude.{◌≡◌, ◌<◌, All, List, [], ◌∷◌, ◌++◌, length, IfErr, IfOk, IfSome, OnOk, string_bytes};
ghost use Rattle.std.specs.Io.KnownBytes.{Keeps};
ghost use Rattle.string_interner.specs.Text.{Text};
ghost use Rattle.dictcol.specs.Blocks.{IsLinesTaskFault, IsTextOf};
ghost use Rattle.dictcol.specs.Fault.{IsTakeFault, IsWriteFault};
ghost use Rattle.dictcol.specs.Lines.{lines_of};
ghost use Rattle.dictcol.specs.TooMany.{IsPastCount};
ghost use Rattle.dictcol.specs.declared.fault.Fault.TheVariants.{Memory};

use crate::fault::Fault;
use crate::input::block::Block;
use crate::input::blocks;
use crate::input::blocks::{Taker, TakesLines};
use crate::input::split::Lines;
use crate::lines::push_line;
use itoa::Buffer;
use std::alloc::Global;
use std::io;
use std::io::{ErrorKind, Read, Write};
use string_interner::dedup::TextHasher;

/// So many bytes wait for an output at most when a block has been read.
const FULL: usize = 1 << 16;

/// An output, and what is still to be written to it.
#[derive(Drop)]
pub struct Shard<W> {
    output: W,
    waiting: Vec<u8>,
}

impl<W: Write> Shard<W> {
    ghost use Rattle.dictcol.specs.Shards.{held_by, IsWritten, WaitsAtMost};

    /// Makes the shard of an output.
    pub fn new(alloc: Global, output: W) -> Self
        ensures output { result.output ≡ output }
        ensures none { IsWritten result }
    {
        Shard {
            output,
            waiting: Vec::new(alloc),
        }
    }

    /// Returns the output.
    pub fn output(&self) -> &W
        ensures { result.now ≡ self.now.output }
    {
        &self.output
    }

    /// Adds a line and a newline to what waits.
    fn push_line(&mut self, line: &str) -> Result<(), Fault>
        ensures ok { OnOk result
            (self.new.waiting.items ≡ self.old.waiting.items ++ line.now ++ 10 ∷ []) }
        ensures same { self.new.output ≡ self.old.output }
        ensures fault { IfErr result (λ fault. fault ≡ Memory) }
    {
        push_line(&mut self.waiting, line)
    }

    /// Writes what waits, if it is more than so many bytes.
    fn write_above(&mut self, most: usize) -> Result<(), Fault>
        ensures same { OnOk result
            (Keeps (held_by W.contents self.old) (held_by W.contents self.new)) }
        ensures few { OnOk result (WaitsAtMost most self.new) }
        ensures fault { IfErr result IsWriteFault }
    {
        if self.waiting.len() <= most {
            return Ok(());
        }
        self.output
            .write_all(&self.waiting)
            .map_err(Fault::of_write)?;
        self.waiting.clear();
        if self.waiting.capacity() > 2 * FULL {
            // A long line was here, or most of a block: the next one may go elsewhere.
            self.waiting.shrink_to_fit();
        }
        Ok(())
    }
}

/// Lines by shard. The last output gets the number of each line's shard, in the order of the lines.
#[derive(Drop)]
pub struct Shards<H, W> {
    hasher: H,
    shards: Vec<Shard<W>>,
    order: Shard<W>,
    /// How many lines were taken.
    total: usize,
    ghost some: { 0 < length shards.items },
}

impl<H: TextHasher, W: Write> Shards<H, W> {
    ghost use Rattle.dictcol.specs.Shards.{HasSharded, HoldShards, IsWritten, WaitsAtMost};

    /// Makes shards of these outputs, by the hash codes of this hasher.
    pub fn new(hasher: H, shards: Vec<Shard<W>>, order: Shard<W>) -> Self
        requires some { 0 < length shards.items }
        requires written { All IsWritten shards.items × IsWritten order }
        ensures kept { (result.hasher ≡ hasher) × (result.shards ≡ shards)
            × (result.order ≡ order) }
        ensures none { HoldShards H.code W.contents result []
            → HasSharded H.code W.contents result [] }
    {
        Shards {
            hasher,
            shards,
            order,
            total: 0,
        }
    }

    /// Returns the shards, and what has their numbers.
    pub fn outputs(&self) -> (&[Shard<W>], &Shard<W>)
        ensures shards { result.0.now ≡ self.now.shards.items }
        ensures order { result.1.now ≡ self.now.order }
    {
        (&self.shards, &self.order)
    }

    /// Adds a line to its shard, and the number of this shard.
    fn add(&mut self, line: &str) -> Result<(), Fault>
        ensures added { OnOk result ((lines : List Text)
            → HasSharded H.code W.contents self.old lines
            → HasSharded H.code W.contents self.new (lines ++ line.now ∷ [])) }
        ensures fault { (lines : List Text) → HasSharded H.code W.contents self.old lines
            → IfErr result (IsTakeFault (IsPastCount lines line.now)) }
    {
        let total = self.total.checked_add(1).ok_or(Fault::TooMany)?;
        let code = self.hasher.hash_text(line);
        let shard = (code % self.shards.len() as u64) as usize;
        self.shards[shard].push_line(line)?;
        self.order.push_line(Buffer::new().format(shard))?;
        self.total = total;
        Ok(())
    }

    /// Writes what waits for each output, if it is more than so many bytes.
    fn write_above(&mut self, most: usize) -> Result<(), Fault>
        ensures same { OnOk result ((lines : List Text)
            → HasSharded H.code W.contents self.old lines
            → HasSharded H.code W.contents self.new lines) }
        ensures few { OnOk result
            (All (WaitsAtMost most) self.new.shards.items × WaitsAtMost most self.new.order) }
        ensures fault { IfErr result IsWriteFault }
    {
        for shard in 0..self.shards.len() {
            self.shards[shard].write_above(most)?;
        }
        self.order.write_above(most)
    }

    /// Reads an input, and takes the lines that a newline ends, of which few wait. Returns what is behind the last newline.
    fn write_whole_lines<R: Read>(&mut self, alloc: Global, input: &mut R) -> Result<String, Fault>
        requires { HasSharded H.code W.contents self.old [] }
        ensures ok { IfOk result (λ rest. (seen : List Text)
            × HasSharded H.code W.contents self.new seen
            × IsTextOf (R.remaining input.old) seen (string_bytes rest)) }
        ensures fault { IfErr result (IsLinesTaskFault IsPastCount (R.remaining input.old)) }
    {
        let mut block = Block::new(alloc)?;
        for _ in 0..u64::MAX {
            if blocks::read_block(&mut block, input, self)? {
                return blocks::end_block(block, self.count_lines());
            }
            self.write_above(FULL)?;
        }
        Err(Fault::of_read(io::Error::from(ErrorKind::Interrupted)))
    }

    /// Writes the lines that are all that an input yields. However long it is, no more of it waits than 64 KiB an output, and a block.
    pub fn write_lines<R: Read>(&mut self, alloc: Global, input: &mut R) -> Result<(), Fault>
        requires { HasSharded H.code W.contents self.old [] }
        ensures written { OnOk result (IfSome (R.remaining input.old)
            (λ all. HoldShards H.code W.contents self.new (lines_of all))) }
        ensures fault { IfErr result (IsLinesTaskFault IsPastCount (R.remaining input.old)) }
    {
        let rest = self.write_whole_lines(alloc, input)?;
        if !rest.is_empty() {
            self.add(&rest)?;
        }
        self.write_above(0)
    }
}

impl<H: TextHasher, W: Write> Taker for Shards<H, W> {
    ghost use Rattle.dictcol.specs.Shards.{HasSharded};
    ghost use Rattle.dictcol.specs.TooMany.{IsPastCount};

    ghost has_taken = { HasSharded H.code W.contents };

    ghost refuses = { IsPastCount };

    ghost kept = { λ _. tt };
}

impl<H: TextHasher, W: Write> TakesLines for Shards<H, W> {
    fn take_lines(&mut self, text: &str) -> Result<(), Fault> {
        for line in Lines::new(text) {
            self.add(line)?;
        }
        Ok(())
    }

    fn count_lines(&self) -> usize {
        self.total
    }
}
