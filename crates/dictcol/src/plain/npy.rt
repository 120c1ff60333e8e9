//! The file `codes.npy`: an array of numbers of four bytes in NumPy's format 1.0.

ghost use Rattle.std.specs.Prelude.{◌≡◌, ℕ, ◌+◌, ◌*◌, ◌/◌, ◌^◌, ◌<◌, [], ◌++◌, List, All, length, IfOk, IfErr, OnOk};
ghost use Rattle.std.specs.List.{flat_map};
ghost use Rattle.dictcol.specs.Fault.{IsArrayDamage};
ghost use Rattle.dictcol.specs.Plain.{code_bytes, codes_in, npy_header, AreNumbers, IsArrayFault, IsHeaderFault, IsNotALine, IsNpy, IsNumbersFault};
ghost use Rattle.dictcol.specs.Writes.{Writes};
ghost use Rattle.dictcol.specs.declared.fault.Fault.TheVariants.{Memory};

use crate::fault::Fault;
use crate::output::block_writer::BlockWriter;
use itoa::Buffer;
use memchr::memmem;
use std::alloc::{AllocError, Global};
use std::io;
use std::io::Write;

/// How many bytes stand before the numbers.
pub const HEADER: usize = 128;

/// Returns what stands before so many numbers.
pub fn format_header(alloc: Global, count: usize) -> Result<Vec<u8>, AllocError>
    ensures { IfOk result (λ header. header.items ≡ npy_header count) }
{
    let mut digits = Buffer::new();
    let mut header = Vec::with_capacity(alloc, HEADER)?;
    header.extend_from_slice(b"\x93NUMPY\x01\x00v\x00")?;
    header.extend_from_slice(b"{'descr': '<u4', 'fortran_order': False, 'shape': (")?;
    header.extend_from_slice(digits.format(count).as_bytes())?;
    header.extend_from_slice(b",), }")?;
    header.resize(HEADER - 1, b' ')?;
    header.push(b'\n')?;
    Ok(header)
}

/// Writes a file of numbers through an empty block: its header, earlier numbers, which are four bytes each, and the others.
pub fn write_file<W: Write>(
    block: &mut BlockWriter,
    output: &mut W,
    header: &[u8],
    earlier: &[u8],
    numbers: &[u32],
) -> io::Result<()>
    requires empty { block.old ≡ [] }
    requires header { header.now ≡ npy_header (length numbers.now + length earlier.now / 4) }
    requires fits { length numbers.now + length earlier.now / 4 < 2 ^ 64 }
    ensures { (limit : ℕ) (front : List ℕ) → AreNumbers limit front earlier.now → OnOk result
        (Writes (IsNpy (front ++ numbers.now)) (W.contents output.old) (W.contents output.new)) }
{
    block.append(output, header)?;
    block.append(output, earlier)?;
    for number in numbers {
        block.append(output, &number.to_le_bytes())?;
    }
    block.write(output)?;
    output.flush()
}

/// Returns what is wrong with a header.
fn find_fault(header: &[u8]) -> Fault
    ensures { IsArrayDamage result }
{
    if !header.starts_with(b"\x93NUMPY\x01\x00") {
        return Fault::NotNpy;
    }
    if memmem::find(header, b"'descr': '<u4',").is_none() {
        return Fault::OtherType;
    }
    if memmem::find(header, b"'fortran_order': False,").is_none() {
        return Fault::OtherOrder;
    }
    if memmem::find(header, b",), }").is_none() {
        return Fault::OtherShape;
    }
    Fault::OtherLength
}

/// Returns how many numbers stand behind a header, by its bytes and how many are behind them, or finds what is wrong with it.
pub fn count_numbers(alloc: Global, header: &[u8], behind: usize) -> Result<usize, Fault>
    requires { length header.now ≡ 128 }
    ensures ok { IfOk result (λ count. (header.now ≡ npy_header count) × (behind ≡ 4 * count)) }
    ensures err { IfErr result (IsHeaderFault header.now behind) }
{
    let count = behind / 4;
    let Ok(right) = format_header(alloc, count) else {
        return Err(Fault::Memory);
    };
    if behind % 4 != 0 || header != right.as_slice() {
        return Err(find_fault(header));
    }
    Ok(count)
}

/// Returns what stands behind the header of a file, or finds what is wrong with the header.
fn split_header(alloc: Global, file: &[u8]) -> Result<&[u8], Fault>
    ensures ok { IfOk result (λ numbers. (count : ℕ) × (file.now ≡ npy_header count ++ numbers.now)
        × (length numbers.now ≡ 4 * count) × (count < 2 ^ 64)) }
    ensures err { IfErr result (IsArrayFault file.now) }
{
    let Some((header, numbers)) = file.split_at_checked(HEADER) else {
        return Err(Fault::NotNpy);
    };
    let _ = count_numbers(alloc, header, numbers.len())?;
    Ok(numbers)
}

/// Checks that each of the numbers that bytes are is below `limit`.
fn check_numbers(bytes: &[u8], limit: usize) -> Result<(), Fault>
    requires { (count : ℕ) × (length bytes.now ≡ 4 * count) }
    ensures ok { OnOk result ((numbers : List ℕ) × AreNumbers limit numbers bytes.now) }
    ensures err { IfErr result (λ fault. (numbers : List ℕ)
        × (bytes.now ≡ flat_map code_bytes numbers) × All (λ number. number < 2 ^ 32) numbers
        × IsNotALine limit numbers fault) }
{
    let mut rest = bytes;
    'numbers: while let Some((first, behind)) = rest.split_first_chunk::<4>() {
        if u32::from_le_bytes(*first) as usize >= limit {
            return Err(Fault::NotALine((bytes.len() - rest.len()) / 4));
        }
        rest = behind;
    }
    Ok(())
}

/// Returns the numbers that bytes are, four each.
pub fn list_numbers(alloc: Global, bytes: &[u8]) -> Result<Vec<u32>, Fault>
    ensures ok { IfOk result (λ numbers. numbers.items ≡ codes_in bytes.now) }
    ensures err { IfErr result (λ fault. fault ≡ Memory) }
{
    let Ok(mut numbers) = Vec::with_capacity(alloc, bytes.len() / 4) else {
        return Err(Fault::Memory);
    };
    let mut rest = bytes;
    'numbers: while let Some((first, behind)) = rest.split_first_chunk::<4>() {
        if numbers.push(u32::from_le_bytes(*first)).is_err() {
            return Err(Fault::Memory);
        }
        rest = behind;
    }
    Ok(numbers)
}

/// Returns the bytes of the numbers that a file has, each of which must be below `limit`.
pub fn read(alloc: Global, file: &[u8], limit: usize) -> Result<&[u8], Fault>
    ensures ok { IfOk result (λ bytes. (codes : List ℕ)
        × AreNumbers limit codes bytes.now × IsNpy codes file.now) }
    ensures err { IfErr result (IsNumbersFault limit file.now) }
{
    let bytes = split_header(alloc, file)?;
    check_numbers(bytes, limit)?;
    Ok(bytes)
}
