//! Input that is not all UTF-8, mended before its lines are looked at.

ghost use Rattle.std.specs.Prelude.{◌≡◌, ◌+◌, ◌≤◌, ◌++◌, [], Some, false, length, take, drop, IfOk, OnOk, OnErr};
ghost use Rattle.std.specs.Io.KnownBytes.{prepend_known, Keeps, IsAtEnd};
ghost use Rattle.dictcol.specs.Lines.{utf8_lines};

use crate::input::ready::give;
use memchr::{memchr, memrchr};
use std::alloc::{AllocError, Global};
use std::io;
use std::io::{ErrorKind, Read};

/// What is done with what is not UTF-8.
#[derive(Clone, Copy)]
pub enum Mending {
    /// Each maximal part that is not UTF-8 becomes U+FFFD.
    Replace,
    /// Each line that is not UTF-8 is left out.
    Skip,
}

/// How many bytes are read at once.
const BLOCK: usize = 1 << 16;

/// Reads what an input holds once it is mended, or as it is. However long the input is, no more of it is held than a block and one
/// line, and what these become.
#[derive(Drop)]
pub struct Mended<R: Read> {
    alloc: Global,
    pub input: R,
    /// What is done with what is not UTF-8. If nothing is, the input is read as it is.
    mending: Option<Mending>,
    /// What was read and is not mended. It begins where a line does.
    held: Vec<u8>,
    /// What was mended, of which the first bytes were given on.
    ready: Vec<u8>,
    given: usize,
    /// How many lines were left out so far.
    pub skipped: usize,
    is_ended: bool,
    ghost within: { given ≤ length ready.items },
}

impl<R: Read> Mended<R> {
    ghost use Rattle.dictcol.specs.Mended.{mend_text, mended_left, mended_text, ready_left};

    /// Returns the input, mended in this way.
    pub fn new(alloc: Global, input: R, mending: Option<Mending>) -> Self
        ensures text { mended_left result ≡ mended_text mending (R.remaining input) }
        ensures input { result.input ≡ input }
        ensures skipped { result.skipped ≡ 0 }
    {
        Mended {
            alloc,
            input,
            mending,
            held: Vec::new(alloc),
            ready: Vec::new(alloc),
            given: 0,
            skipped: 0,
            is_ended: false,
        }
    }

    /// Reads once, behind what is held. Returns how many bytes came: none at the end of the input.
    fn hold_more(&mut self) -> io::Result<usize>
        ensures ok { IfOk result (λ count.
            length self.new.held.items ≡ length self.old.held.items + count) }
        ensures kept { Keeps (prepend_known self.old.held.items (R.remaining self.old.input))
            (prepend_known self.new.held.items (R.remaining self.new.input)) }
        ensures end { IfOk result (λ count. count ≡ 0 → IsAtEnd (R.remaining self.new.input)) }
        ensures same { (self.new.ready ≡ self.old.ready) × (self.new.given ≡ self.old.given)
            × (self.new.mending ≡ self.old.mending) × (self.new.is_ended ≡ self.old.is_ended) }
        ensures err { OnErr result (self.new.held.items ≡ self.old.held.items) }
    {
        let start = self.held.len();
        self.held.resize(start.saturating_add(BLOCK), 0)?;
        let outcome = self.input.read(&mut self.held[start..]);
        let count = match &outcome {
            Ok(count) => *count,
            Err(_) => 0,
        };
        self.held.truncate(start + count);
        outcome
    }

    /// Mends the first bytes of what is held.
    fn mend(&mut self, mending: Mending, count: usize) -> Result<(), AllocError>
        requires { count ≤ length self.old.held.items }
        ensures ok { OnOk result
            ((ready_left self.new ≡ mend_text mending (take count self.old.held.items))
            × (self.new.held.items ≡ drop count self.old.held.items)) }
        ensures same { (self.new.input ≡ self.old.input)
            × (self.new.mending ≡ self.old.mending) × (self.new.is_ended ≡ self.old.is_ended) }
        ensures err { OnErr result ((self.new.held.items ≡ self.old.held.items)
            × (self.new.given ≡ 0)) }
    {
        self.given = 0;
        let front = &self.held[..count];
        match mending {
            Mending::Replace => {
                self.ready = String::from_utf8_lossy(self.alloc, front)?.into_bytes();
            }
            Mending::Skip => {
                self.ready.clear();
                keep_good_lines(front, &mut self.ready, &mut self.skipped)?;
            }
        }
        let end = self.held.len();
        self.held.copy_within(count..end, 0);
        self.held.truncate(end - count);
        Ok(())
    }

    /// Reads once, and mends the lines that are whole then.
    fn mend_more(&mut self, mending: Mending) -> io::Result<()>
        requires { (ready_left self.old ≡ []) × (self.old.mending ≡ Some mending)
            × (self.old.is_ended ≡ false) }
        ensures kept { Keeps (mended_left self.old) (mended_left self.new) }
        ensures same { self.new.mending ≡ self.old.mending }
    {
        let start = self.held.len();
        let count = self.hold_more()?;
        let whole = if count == 0 {
            start
        } else {
            match memrchr(b'\n', &self.held[start..]) {
                Some(at) => start + at + 1,
                None => return Ok(()),
            }
        };
        if self.mend(mending, whole).is_err() {
            // Nothing of what is held is given twice.
            self.ready.clear();
            return Err(io::Error::from(ErrorKind::OutOfMemory));
        }
        self.is_ended = count == 0;
        Ok(())
    }
}

/// Appends the lines of a text that are UTF-8, and counts the others.
fn keep_good_lines(text: &[u8], kept: &mut Vec<u8>, skipped: &mut usize) -> Result<(), AllocError>
    ensures { OnOk result (kept.new.items ≡ kept.old.items ++ utf8_lines text.now) }
{
    let mut rest = text;
    while !rest.is_empty() {
        let end = match memchr(b'\n', rest) {
            Some(at) => at + 1,
            None => rest.len(),
        };
        let line = &rest[..end];
        if simdutf8::basic::from_utf8(line).is_ok() {
            kept.extend_from_slice(line)?;
        } else {
            *skipped = skipped.saturating_add(1);
        }
        rest = &rest[end..];
    }
    Ok(())
}

impl<R: Read> Read for Mended<R> {
    ghost use Rattle.dictcol.specs.Mended.{mended_left};

    ghost remaining = { mended_left };

    fn read(&mut self, buf: &mut [u8]) -> io::Result<usize> {
        let Some(mending) = self.mending else {
            return self.input.read(buf);
        };
        for _ in 0..u64::MAX {
            if self.given < self.ready.len() || self.is_ended {
                return Ok(give(&self.ready, &mut self.given, buf));
            }
            self.mend_more(mending)?;
        }
        Err(io::Error::from(ErrorKind::Interrupted))
    }
}
