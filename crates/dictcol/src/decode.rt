//! `decode`: the text that a file holds.

ghost use Rattle.std.specs.Prelude.{IfErr, IfSome, OnOk};
ghost use Rattle.dictcol.specs.Crowded.{IsDecodeFault};
ghost use Rattle.dictcol.specs.Fault.{WritesLast};
ghost use Rattle.dictcol.specs.File.{DecodesFile};
ghost use Rattle.dictcol.specs.Writes.{Writes};

use crate::fault::Fault;
use crate::hasher::LineHasher;
use crate::input::whole::read_whole;
use crate::json_form::file;
use std::alloc::Global;
use std::io::{Read, Write};

/// Writes the text that a file holds, or finds where the file is damaged. Nothing is written of a damaged file.
pub fn decode<R: Read, W: Write>(
    alloc: Global,
    hasher: LineHasher,
    input: &mut R,
    output: &mut W,
) -> Result<(), Fault>
    ensures written { OnOk result (IfSome (R.remaining input.old) (λ file.
        Writes (DecodesFile file) (W.contents output.old) (W.contents output.new))) }

    // Unless all went well or a write failed, the output was not touched.
    ensures silent { WritesLast result output.old output.new }

    // A file that holds a text is never called damaged. Where it ceases to be UTF-8 is told.
    ensures err { IfErr result (IsDecodeFault (R.remaining input.old)) }
{
    let bytes = read_whole(alloc, input)?;
    file::decode(alloc, hasher, bytes, output)
}
