//! Writing a file, through memory that is asked for before the first byte is written.

ghost use Rattle.std.specs.Prelude.{◌≡◌, ℕ, ◌+◌, ◌*◌, ◌^◌, ◌<◌, ◌≤◌, List, [], ◌++◌, All, length, map, IfOk, IfErr, OnOk};
ghost use Rattle.json.specs.Print.{escape, escape_byte};
ghost use Rattle.serde_json.specs.Data.{array};
ghost use Rattle.serde_json.specs.View.{items_of};
ghost use Rattle.serde_json.specs.Written.{comma_if, compact_text};
ghost use Rattle.string_interner.specs.Json.{json_of_texts, json_of_number};
ghost use Rattle.dictcol.specs.Fault.{IsOutputFault, WritesLast};
ghost use Rattle.dictcol.specs.File.{IsColumnFile, IsFileText};
ghost use Rattle.dictcol.specs.Lines.{AreLines};
ghost use Rattle.dictcol.specs.Writes.{Puts, Writes};

use super::escapes::{digit_of, is_plain, letter_of};
use crate::fault::Fault;
use crate::hasher::LineHasher;
use crate::output::block_writer::{BLOCK, BlockWriter};
use itoa::Buffer;
use std::alloc::Global;
use std::io;
use std::io::Write;
use string_column::{Codes, Column};
use string_interner::StringInterner;
use string_interner::backend::Backend;
use string_interner::dedup::TaggedIndex;

/// How many bytes of a text are put at once, at most. In a string of JSON each takes up to six.
const PIECE: usize = 1 << 13;

/// Appends a comma if an item stands before.
#[inline(always)]
fn put_comma(block: &mut BlockWriter, is_further: bool)
    requires { length block.old < 2 ^ 17 }
    ensures { block.new ≡ block.old ++ comma_if is_further }
{
    if is_further {
        block.put(b",");
    }
}

/// Appends what a string of JSON has for a byte.
#[inline(always)]
fn put_byte(block: &mut BlockWriter, byte: u8)
    requires { length block.old + 6 ≤ 2 ^ 17 }
    ensures bytes { block.new ≡ block.old ++ escape_byte byte }
    ensures few { length block.new ≤ length block.old + 6 }
{
    let letter = letter_of(byte);
    if letter > 0 {
        block.put(&[b'\\', letter]);
    } else if byte < b' ' {
        let (high, low) = (digit_of(byte / 16), digit_of(byte % 16));
        block.put(&[b'\\', b'u', b'0', b'0', high, low]);
    } else {
        block.put(&[byte]);
    }
}

/// Appends what a string of JSON has for bytes.
fn put_escaped(block: &mut BlockWriter, bytes: &[u8])
    requires { length block.old + 6 * length bytes.now ≤ 2 ^ 17 }
    ensures bytes { block.new ≡ block.old ++ escape bytes.now }
    ensures few { length block.new ≤ length block.old + 6 * length bytes.now }
{
    if is_plain(bytes) {
        return block.put(bytes);
    }
    for byte in bytes {
        put_byte(block, *byte);
    }
}

/// Appends what a string of JSON has for bytes, but not for the last ones, which it returns.
#[cold]
#[inline(never)]
fn write_pieces<'t, W: Write>(
    block: &mut BlockWriter,
    output: &mut W,
    bytes: &'t [u8],
) -> io::Result<&'t [u8]>
    requires { length block.old ≤ 2 ^ 16 + 64 }
    ensures puts { IfOk result (λ rest. (front : List ℕ) × (bytes.now ≡ front ++ rest.now)
        × Puts (W.contents output.old) block.old (W.contents output.new) block.new
        (escape front)) }
    ensures few { IfOk result (λ rest. length rest.now ≤ 2 ^ 13) }
    ensures room { OnOk result (length block.new ≤ 2 ^ 16 + 64) }
{
    let mut rest = bytes;
    while rest.len() > PIECE {
        let (piece, behind) = rest.split_at(PIECE);
        put_escaped(block, piece);
        block.write(output)?;
        rest = behind;
    }
    Ok(rest)
}

/// Appends the array of the texts.
fn write_texts<B: Backend, W: Write>(
    block: &mut BlockWriter,
    output: &mut W,
    texts: &StringInterner<B, LineHasher, TaggedIndex<B::Symbol>>,
) -> io::Result<()>
    ensures { OnOk result
        (Puts (W.contents output.old) block.old (W.contents output.new) block.new
        (compact_text (json_of_texts texts.now.texts))) }
{
    block.append(output, b"[")?;
    let mut is_further = false;
    for (_, text) in texts {
        if block.len() >= BLOCK {
            block.write(output)?;
        }
        put_comma(block, is_further);
        block.put(b"\"");
        let mut rest = text.as_bytes();
        if rest.len() > PIECE {
            rest = write_pieces(block, output, rest)?;
        }
        put_escaped(block, rest);
        block.put(b"\"");
        is_further = true;
    }
    block.append(output, b"]")
}

/// Appends the array of the codes.
fn write_codes<W: Write>(block: &mut BlockWriter, output: &mut W, codes: &Codes) -> io::Result<()>
    ensures puts { OnOk result
        (Puts (W.contents output.old) block.old (W.contents output.new) block.new
        (compact_text (array (items_of (map json_of_number codes.now.items))))) }
    ensures small { OnOk result (All (λ code. code < 2 ^ 64) codes.now.items) }
{
    block.append(output, b"[")?;
    let mut digits = Buffer::new();
    for row in 0..codes.len() {
        if block.len() >= BLOCK {
            block.write(output)?;
        }
        put_comma(block, row > 0);
        block.put(digits.format(codes.at(row)).as_bytes());
    }
    block.append(output, b"]")
}

/// Writes the object with these texts and codes, and a newline.
fn write_object<B: Backend, W: Write>(
    block: &mut BlockWriter,
    output: &mut W,
    lines: &Column<B, LineHasher>,
    is_ended: bool,
) -> io::Result<()>
    requires { block.old ≡ [] }
    ensures { OnOk result (Writes (IsFileText lines.now is_ended)
        (W.contents output.old) (W.contents output.new)) }
{
    block.append(output, b"{\"dictionary\":")?;
    write_texts(block, output, lines.dictionary())?;
    block.append(output, b",\"final_newline\":")?;
    block.append(output, if is_ended { b"true" } else { b"false" })?;
    block.append(output, b",\"lines\":")?;
    write_codes(block, output, lines.codes())?;
    block.append(output, b"}\n")?;
    block.write(output)?;
    output.flush()
}

/// Writes the file of the lines.
pub fn write_file<B: Backend, W: Write>(
    alloc: Global,
    lines: &Column<B, LineHasher>,
    is_ended: bool,
    output: &mut W,
) -> Result<(), Fault>
    ensures written { (bytes : List ℕ) → AreLines bytes lines.now is_ended → OnOk result
        (Writes (IsColumnFile bytes) (W.contents output.old) (W.contents output.new)) }
    ensures silent { WritesLast result output.old output.new }
    ensures fault { IfErr result IsOutputFault }
{
    let Ok(mut block) = BlockWriter::new(alloc) else {
        return Err(Fault::Memory);
    };
    match write_object(&mut block, output, lines, is_ended) {
        Ok(()) => Ok(()),
        Err(error) => Err(Fault::of_write(error)),
    }
}
