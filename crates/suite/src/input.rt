//! Standard input, read without asking for memory.

use crate::fault::{Fault, Mistake};
use std::io;
use std::io::Read;
use std::str::from_utf8;

/// Reads input to its end or that of the buffer, and returns the count of bytes.
fn fill<R: Read>(input: &mut R, buffer: &mut [u8]) -> io::Result<usize> {
    let mut len: usize = 0;
    for _ in 0..u64::MAX {
        let Some(rest) = buffer.get_mut(len..) else {
            break;
        };
        match input.read(rest)? {
            0 => break,
            count => len = len.saturating_add(count),
        }
    }
    Ok(len)
}

/// The number of the line that begins after these bytes, or goes on there, counted from 1.
fn line_after(bytes: &[u8]) -> usize {
    bytes.split(|byte| *byte == b'\n').count()
}

/// Reads the text of the whole input, which must be shorter than the buffer.
pub fn read_text<'b, R: Read>(input: &mut R, buffer: &'b mut [u8]) -> Result<&'b str, Fault> {
    let room = buffer.len();
    let len = fill(input, buffer).map_err(|_| Fault::Input)?;
    let bytes = buffer.get(..len).unwrap_or(&[]);
    let (valid, mistake) = match from_utf8(bytes) {
        _ if len == room => (bytes, Mistake::TooLong),
        Ok(text) => return Ok(text),
        Err(error) => (
            bytes.get(..error.valid_up_to()).unwrap_or(bytes),
            Mistake::NotUtf8,
        ),
    };
    Err(Fault::Line {
        line: line_after(valid),
        mistake,
    })
}
