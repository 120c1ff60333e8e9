//! Blocks of lines: in a large dictionary the lines of a block are looked for together.

ghost use Rattle.std.specs.Prelude.{◌≡◌, [], ◌∷◌, ◌++◌, ◌≤◌, List, length, IfErr, OnOk};
ghost use Rattle.std.specs.List.{slice_split};
ghost use Rattle.string_interner.specs.Text.{Text};
ghost use Rattle.string_interner.specs.Extend.{texts_of};
ghost use Rattle.dictcol.specs.Blocks.{Takes};
ghost use Rattle.dictcol.specs.Fault.{IsTakeFault};
ghost use Rattle.dictcol.specs.Lines.{is_newline};
ghost use Rattle.dictcol.specs.TooMany.{HasRefused};

use crate::fault::Fault;
use crate::input::blocks::Taker;
use crate::input::split::Lines;
use string_column::{BLOCK_LEN, FEWEST_FOR_BLOCKS};

/// What looks lines up in a dictionary: one, or those of a block together.
pub trait TakesBlocks: Taker {
    /// Takes a line.
    fn add(&mut self, line: &str) -> Result<(), Fault>
        ensures taken { OnOk result (Takes Self.has_taken self.old self.new (line.now ∷ [])) }
        ensures same { Self.kept self.new ≡ Self.kept self.old }
        ensures fault { (lines : List Text) → Self.has_taken self.old lines
            → IfErr result (IsTakeFault (Self.refuses lines line.now)) };

    /// Takes the lines of a block, which are looked for together.
    fn add_block(&mut self, block: &[&str]) -> Result<(), Fault>
        requires { length block.now ≤ 256 }
        ensures taken { OnOk result (Takes Self.has_taken self.old self.new (texts_of block.now)) }
        ensures same { Self.kept self.new ≡ Self.kept self.old }
        ensures fault { (lines : List Text) → Self.has_taken self.old lines → IfErr result
            (IsTakeFault (HasRefused Self.refuses (lines ++ texts_of block.now))) };

    /// Returns how many texts the dictionary has.
    fn count_entries(&self) -> usize;
}

/// Takes the lines of a text, a block at a time where the dictionary is large.
pub fn take_blocks<T: TakesBlocks>(taker: &mut T, text: &str) -> Result<(), Fault>
    ensures ok { OnOk result
        (Takes T.has_taken taker.old taker.new (slice_split is_newline text.now)) }
    ensures same { T.kept taker.new ≡ T.kept taker.old }
    ensures fault { (lines : List Text) → T.has_taken taker.old lines → IfErr result
        (IsTakeFault (HasRefused T.refuses (lines ++ slice_split is_newline text.now))) }
{
    let mut block = [""; BLOCK_LEN];
    let mut len = 0;
    for line in Lines::new(text) {
        // A block that has begun is filled first, so that lines stay in order.
        if len == 0 && taker.count_entries() < FEWEST_FOR_BLOCKS {
            taker.add(line)?;
            continue;
        }
        block[len] = line;
        len += 1;
        if len == BLOCK_LEN {
            taker.add_block(&block)?;
            len = 0;
        }
    }
    taker.add_block(&block[..len])
}
