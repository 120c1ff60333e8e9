//! `serve` over readers and writers in memory: given inputs with their replies and faults, and streams that fail.

use crate::serve::serve;
use std::alloc::Global;
use std::io::{ErrorKind, Read, Result as IoResult, Write};
use std::process::Abort;
use std::test::Fail;

/// Returns the message and the status at the end of `serve` on these words: nothing and 0 if all went well.
fn end_of<R: Read, W: Write>(
    alloc: Global,
    words: &[&str],
    input: &mut R,
    output: &mut W,
) -> Result<(String, u8), Fail> {
    let mut arguments = Vec::new(alloc);
    for word in words {
        arguments.push(String::from_str(alloc, word)?)?;
    }
    match serve(alloc, &arguments, input, output) {
        Ok(()) => Ok((String::new(alloc), 0)),
        Err(fault) => Ok((format!(in alloc; "{fault}")?, fault.status())),
    }
}

/// Checks what `serve` writes on these words, and its message and status at the end.
fn check<R: Read>(
    rt: &impl Abort,
    alloc: Global,
    words: &[&str],
    input: &mut R,
    wanted: (&str, &str, u8),
) -> Result<(), Fail> {
    let mut output = Vec::new(alloc);
    let (message, status) = end_of(alloc, words, input, &mut output)?;
    let (replies, fault, code) = wanted;
    assert_eq!(rt; (message.as_str(), status), (fault, code));
    assert_eq!(rt; output.as_slice(), replies.as_bytes());
    Ok(())
}

#[test]
fn lines_get_their_replies(rt: HostRuntime) -> Result<(), Fail> {
    for (word, lines, replies) in [
        (
            "string",
            "i Elephant\ni Tiger\ni Tiger\n",
            "symbol 0\nsymbol 1\nsymbol 1\n",
        ),
        (
            "string",
            "i Elephant\ni Tiger\ni Tiger\nr 1\ng Horse\n",
            "symbol 0\nsymbol 1\nsymbol 1\ntext Tiger\nnone\n",
        ),
        (
            "buffer",
            "i Tiger\nn 1\nn 6\nr 5\nr 1\nr 0\nlen\nshrink\n",
            "symbol 0\nnone\nnone\nno reply\nno reply\ntext Tiger\nlen 1\nok\n",
        ),
        ("string", "i \nr 0\n", "symbol 0\ntext \n"),
        ("string", "", ""),
        (
            "string",
            "i a\nn 0\nn 1\nn 4294967295\nn 18446744073709551615\nr 1\nr 0\nlen\n",
            "symbol 0\ntext a\nnone\nnone\nnone\nno reply\ntext a\nlen 1\n",
        ),
        (
            "string",
            "i a\ni b\ng b\nr 2\n",
            "symbol 0\nsymbol 1\nsymbol 1\ntext b\n",
        ),
        ("string", "len", "len 0\n"),
        ("string", "i a\nn 000\n", "symbol 0\ntext a\n"),
    ] {
        check(
            &rt,
            rt.alloc(),
            &[word],
            &mut lines.as_bytes(),
            (replies, "", 0),
        )?;
    }
    Ok(())
}

#[test]
fn wrong_arguments_get_the_usage_line(rt: HostRuntime) -> Result<(), Fail> {
    let wanted = ("", "usage: intern string|bucket|buffer", 2);
    for lines in ["", "x\n"] {
        check(&rt, rt.alloc(), &[], &mut lines.as_bytes(), wanted)?;
        check(&rt, rt.alloc(), &["String"], &mut lines.as_bytes(), wanted)?;
        check(
            &rt,
            rt.alloc(),
            &["string", "bucket"],
            &mut lines.as_bytes(),
            wanted,
        )?;
    }
    Ok(())
}

#[test]
fn the_first_bad_line_is_told(rt: HostRuntime) -> Result<(), Fail> {
    for (lines, fault) in [
        ("len\n\n", "bad line 2"),
        ("\n", "bad line 1"),
        ("x\n", "bad line 1"),
        ("i\n", "bad line 1"),
        ("I a\n", "bad line 1"),
        ("len \n", "bad line 1"),
        ("n \n", "bad line 1"),
        ("n  1\n", "bad line 1"),
        ("r -1\n", "bad line 1"),
        ("r +1\n", "bad line 1"),
        ("n 18446744073709551616\n", "bad line 1"),
        ("len\r\n", "bad line 1"),
    ] {
        check(
            &rt,
            rt.alloc(),
            &["string"],
            &mut lines.as_bytes(),
            ("", fault, 2),
        )?;
    }
    Ok(())
}

/// A reader of some bytes that fails at their end.
#[derive(Drop)]
struct BrokenInput<'b> {
    bytes: &'b [u8],
    kind: ErrorKind,
}

impl Read for BrokenInput<'_> {
    fn read(&mut self, buffer: &mut [u8]) -> IoResult<usize> {
        if self.bytes.is_empty() {
            return Err(self.kind.into());
        }
        self.bytes.read(buffer)
    }
}

#[test]
fn input_that_fails_is_blamed(rt: HostRuntime) -> Result<(), Fail> {
    let mut damaged = [0x69, 0x20, 0xFF, 0x0A].as_slice();
    check(
        &rt,
        rt.alloc(),
        &["string"],
        &mut damaged,
        ("", "cannot read input", 1),
    )?;
    for (kind, fault) in [
        (ErrorKind::ConnectionReset, "cannot read input"),
        (ErrorKind::OutOfMemory, "out of memory"),
    ] {
        let bytes = "i a\n".as_bytes();
        let mut input = BrokenInput { bytes, kind };
        check(&rt, rt.alloc(), &["string"], &mut input, ("", fault, 1))?;
    }
    Ok(())
}

/// A writer that takes all it is given, and fails after so many lines, or after so many writes, as if its reader has left.
#[derive(Drop)]
struct Output {
    bytes: Vec<u8>,
    lines_left: usize,
    writes_left: usize,
    flushes: usize,
    has_joined_lines: bool,
}

impl Output {
    fn new(alloc: Global, lines_left: usize, writes_left: usize) -> Self {
        Output {
            bytes: Vec::new(alloc),
            lines_left,
            writes_left,
            flushes: 0,
            has_joined_lines: false,
        }
    }
}

impl Write for Output {
    fn write(&mut self, buffer: &[u8]) -> IoResult<usize> {
        if self.lines_left == 0 || self.writes_left == 0 {
            return Err(ErrorKind::BrokenPipe.into());
        }
        self.writes_left -= 1;
        if let Some(end) = buffer.iter().position(|byte| *byte == b'\n') {
            self.lines_left -= 1;
            self.has_joined_lines |= buffer.len() - end > 1;
        }
        self.bytes.write(buffer)
    }

    fn flush(&mut self) -> IoResult<()> {
        self.flushes = self.flushes.saturating_add(1);
        Ok(())
    }
}

#[test]
fn each_line_is_written_by_itself_and_all_are_flushed_once(rt: HostRuntime) -> Result<(), Fail> {
    let mut output = Output::new(rt.alloc(), usize::MAX, usize::MAX);
    let mut input = "i Tiger\nr 0\n".as_bytes();
    let (message, status) = end_of(rt.alloc(), &["string"], &mut input, &mut output)?;
    assert_eq!(rt; (message.as_str(), status), ("", 0));
    assert_eq!(rt;
        output.bytes.as_slice(),
        "symbol 0\ntext Tiger\n".as_bytes()
    );
    assert_eq!(rt; (output.flushes, output.has_joined_lines), (1, false));
    Ok(())
}

#[test]
fn output_that_fails_is_blamed(rt: HostRuntime) -> Result<(), Fail> {
    for (lines, writes, front) in [
        (0, usize::MAX, ""),
        (1, usize::MAX, "symbol 0\n"),
        (usize::MAX, 0, ""),
        (usize::MAX, 1, "symbol 0\n"),
    ] {
        let mut output = Output::new(rt.alloc(), lines, writes);
        let mut input = "i Tiger\nr 0\n".as_bytes();
        let (message, status) = end_of(rt.alloc(), &["string"], &mut input, &mut output)?;
        assert_eq!(rt; (message.as_str(), status), ("cannot write output", 1));
        // A write that fails may have written a part of its line.
        assert!(rt; front.as_bytes().starts_with(output.bytes.as_slice()));
        if writes == usize::MAX {
            assert_eq!(rt; output.bytes.as_slice(), front.as_bytes());
        }
    }
    Ok(())
}
