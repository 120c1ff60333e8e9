//! The input: files that are read one after another, as `cat` writes them, and folders of plain columns as their text.

ghost use Rattle.std.specs.Prelude.{◌≡◌, ◌≤◌, [], length, false, true, None, IfOk, OnOk, if◌then◌else◌};
ghost use Rattle.dictcol.specs.Compression.{compression_of, explained};
ghost use Rattle.dictcol.specs.Inputs.{caused, goes_on, lines_begun, newlines_with, noted, source_at, IsLocated, StaysAt};

use crate::fault::Fault;
use crate::input::blocks::count_byte;
use crate::input::compression::Compression;
use crate::input::zero::exchange_ends;
use crate::located::Located;
use crate::plain::folder;
use crate::plain::held::{HeldRows, HeldText};
use crate::source::Source;
use std::fs::File;
use std::io::{ErrorKind, IsTerminal, Read};
use std::{fs, io};

/// With what a file begins that `encode` wrote.
const ENCODED: &[u8] = b"{\"dictionary\":[";

/// Linux's number for a folder in the place of a file.
const IS_FOLDER: i32 = 21;

/// Input of this many bytes is long: progress is reported on a terminal.
const LONG: usize = 1 << 24;

/// Reports on a terminal how far the work on a long input is.
fn report_progress(rt: &HostRuntime, bytes: usize, what: &str) {
    if bytes >= LONG && rt.stderr().is_terminal() {
        // Nothing is lost if standard error is closed.
        let _ = eprintln!(rt; "dictcol: {} MiB {what}", bytes >> 20);
    }
}

/// Between two reports of how much of files with known sizes was read are at least so many bytes, and a tenth of them all.
const STEP: usize = 1 << 28;

/// Returns how many bytes these files have together, if all are files with a size.
fn total_size(rt: &HostRuntime, sources: &[Source<'_>]) -> Option<usize> {
    let mut total = 0_usize;
    for source in sources {
        let Source::File(path) = *source else {
            return None;
        };
        match fs::metadata(rt, path) {
            Ok(metadata) if metadata.is_file() => {
                total = total.saturating_add(metadata.len() as usize);
            }
            _ => return None,
        }
    }
    Some(total)
}

/// Reports on a terminal how much of these files was read, if their sizes are known. Returns at how many bytes that is due again.
fn report_share(rt: &HostRuntime, bytes: usize, sources: &[Source<'_>]) -> usize {
    if !rt.stderr().is_terminal() {
        return usize::MAX;
    }
    let Some(total) = total_size(rt, sources) else {
        return usize::MAX;
    };
    if bytes >= total {
        return usize::MAX;
    }
    let share = bytes / (total / 100).max(1);
    // Nothing is lost if standard error is closed.
    let _ = eprintln!(rt; "dictcol: {} MiB read, {share}%", bytes >> 20);
    bytes.saturating_add((total / 10).max(STEP))
}

/// Where a file begins in the input.
#[derive(Clone, Copy)]
struct Begin<'a> {
    source: Source<'a>,
    /// How many newlines come before it.
    newlines: usize,
    /// How many lines begin before it: one more if its first bytes are of a line of an earlier file.
    lines: usize,
}

/// What is open.
#[derive(Drop)]
enum Opened {
    File(File),
    /// The text that a folder of plain columns holds.
    Folder(HeldText),
}

impl Read for Opened {
    fn read(&mut self, buf: &mut [u8]) -> io::Result<usize> {
        match self {
            Opened::File(file) => file.read(buf),
            Opened::Folder(text) => text.read(buf),
        }
    }
}

/// Reads some files one after another. If a file does not end in a newline, its last line and the first of the next file are one.
#[derive(Drop)]
pub struct Inputs<'a> {
    rt: &'a HostRuntime,
    sources: &'a [Source<'a>],
    /// Whether newlines and zero bytes are exchanged.
    is_exchanged: bool,
    /// Whether folders of plain columns are read as the text that they hold.
    takes_folders: bool,
    /// The index of the file that is read.
    at: usize,
    /// This file, if it is open and not standard input.
    opened: Option<Opened>,
    /// What is wrong with it, if it is a folder.
    damage: Option<Fault>,
    /// Whether it gave bytes so far.
    has_bytes: bool,
    /// How many bytes were read.
    length: usize,
    /// At how many it is reported next how much was read.
    next_report: usize,
    is_ended: bool,
    /// How many newlines were read.
    newlines: usize,
    /// Whether there is a line behind the last of them.
    is_within: bool,
    /// Of several files those that gave bytes so far.
    begins: Vec<Begin<'a>>,
    /// What compressed the file that is read, as it looks. One that goes on with a line of an earlier file is not looked at.
    compression: Option<Compression>,
    /// The first of them that looks like one that `encode` wrote.
    pub encoded: Option<Source<'a>>,
    /// The first of them that looks compressed.
    pub compressed: Option<Source<'a>>,
}

impl<'a> Inputs<'a> {
    /// Returns the input of these files, none of which is open yet.
    pub fn new(rt: &'a HostRuntime, sources: &'a [Source<'a>]) -> Inputs<'a>
        ensures sources { result.sources.now ≡ sources.now }
        ensures as_they_are { (result.is_exchanged ≡ false) × (result.takes_folders ≡ false) }
        ensures sound { result.damage ≡ None }
    {
        Inputs {
            rt,
            sources,
            is_exchanged: false,
            takes_folders: false,
            at: 0,
            opened: None,
            damage: None,
            has_bytes: false,
            length: 0,
            next_report: STEP,
            is_ended: false,
            newlines: 0,
            is_within: false,
            begins: Vec::new(rt.alloc()),
            compression: None,
            encoded: None,
            compressed: None,
        }
    }

    /// Returns the input of these files and folders of lines, none of which is open yet. A zero byte ends each line, or a newline.
    pub fn of_lines(
        rt: &'a HostRuntime,
        sources: &'a [Source<'a>],
        is_zero_ended: bool,
    ) -> Inputs<'a>
        ensures sources { result.sources.now ≡ sources.now }
        ensures exchanged { result.is_exchanged ≡ is_zero_ended }
        ensures folders { result.takes_folders ≡ true }
        ensures sound { result.damage ≡ None }
    {
        let mut inputs = Inputs::new(rt, sources);
        inputs.is_exchanged = is_zero_ended;
        inputs.takes_folders = true;
        inputs
    }

    /// Reads a folder of plain columns, in which no zero byte ends a line.
    fn read_folder(&self, path: &str) -> Result<HeldRows, Fault> {
        if self.is_exchanged {
            return Err(Fault::NotZeroEnded);
        }
        folder::read_held(self.rt, path)
    }

    /// Opens a folder of plain columns.
    fn open_folder(&mut self, path: &str) -> io::Result<Opened> {
        match self.read_folder(path) {
            Ok(rows) => Ok(Opened::Folder(HeldText::new(self.rt.alloc(), rows))),
            Err(fault) if folder::has_none(self.rt, path, &fault) => {
                Err(io::Error::from_raw_os_error(IS_FOLDER))
            }
            Err(fault) => {
                self.damage = Some(fault);
                Err(io::Error::from(ErrorKind::InvalidData))
            }
        }
    }

    /// Opens a file.
    fn open(&mut self, path: &str) -> io::Result<Opened> {
        match File::open(self.rt, path) {
            Ok(file) => {
                if !self.takes_folders || !file.metadata()?.is_dir() {
                    return Ok(Opened::File(file));
                }
            }
            // Who may not list a folder may be allowed to open its files.
            Err(error) => {
                if !self.takes_folders || !folder::is_folder(self.rt, path) {
                    return Err(error);
                }
            }
        }
        self.open_folder(path)
    }

    /// Reads from a file, which is opened first if none is open.
    fn read_source(&mut self, source: Source<'a>, buf: &mut [u8]) -> io::Result<usize>
        ensures { IfOk result (λ count. count ≤ length buf.new) }
    {
        let Source::File(path) = source else {
            return self.rt.stdin().read(buf);
        };
        if let Some(opened) = &mut self.opened {
            return opened.read(buf);
        }
        let mut opened = self.open(path)?;
        let outcome = opened.read(buf);
        self.opened = Some(opened);
        outcome
    }

    /// Notes the first bytes of a file.
    fn note_begin(&mut self, bytes: &[u8]) -> io::Result<()>
        ensures begun { OnOk result (self.new.has_bytes ≡ true) }
        ensures compression { OnOk result (self.new.compression
            ≡ (if self.old.is_within then None else compression_of bytes.now)) }
        ensures begin { OnOk result (self.new.begins.items ≡ noted self.old.sources.now
            self.old.begins.items record {
              source = source_at self.old.sources.now self.old.at;
              newlines = self.old.newlines;
              lines = lines_begun self.old.newlines self.old.is_within;
            }) }
    {
        let source = self.current();
        if self.encoded.is_none() && bytes.starts_with(ENCODED) {
            self.encoded = Some(source);
        }
        let begin = Begin {
            source,
            newlines: self.newlines,
            lines: if self.is_within {
                self.newlines.saturating_add(1)
            } else {
                self.newlines
            },
        };
        self.compression = if self.is_within {
            None
        } else {
            Compression::of(bytes)
        };
        if self.compressed.is_none() && self.compression.is_some() {
            self.compressed = Some(source);
        }
        self.has_bytes = true;
        if self.sources.len() > 1 && self.begins.push(begin).is_err() {
            return Err(io::Error::from(ErrorKind::OutOfMemory));
        }
        Ok(())
    }

    /// Counts the newlines of several files, so that the file of a line can be found.
    fn count_newlines(&mut self, bytes: &[u8])
        ensures { self.new.newlines
            ≡ newlines_with self.old.sources.now self.old.newlines bytes.now }
    {
        if self.sources.len() > 1 {
            self.newlines = self.newlines.saturating_add(count_byte(b'\n', bytes));
        }
    }

    /// Notes whether a line goes on behind the bytes.
    fn note_end(&mut self, bytes: &[u8])
        ensures { self.new.is_within ≡ goes_on self.old.is_within bytes.now }
    {
        if let Some(last) = bytes.last() {
            self.is_within = *last != b'\n';
        }
    }

    /// Notes how many bytes were read at once, which are none at the end of the input.
    fn note_length(&mut self, count: usize) {
        self.length = self.length.saturating_add(count);
        if self.length >= self.next_report {
            self.next_report = report_share(self.rt, self.length, self.sources);
        }
        if count == 0 && !self.is_ended {
            self.is_ended = true;
            report_progress(self.rt, self.length, "read");
        }
    }

    /// Reports on a terminal that a long input is done.
    pub fn report_end(&self) {
        report_progress(self.rt, self.length, "done");
    }

    /// Returns the file that is read, or the only one. Behind the last of several it is standard input, which has no name to tell.
    fn current(&self) -> Source<'a>
        ensures { result ≡ source_at self.now.sources.now self.now.at }
    {
        let at = if self.sources.len() == 1 { 0 } else { self.at };
        match self.sources.get(at) {
            Some(source) => *source,
            None => Source::StandardInput,
        }
    }

    /// Returns what is wrong with the folder that is read, which ended reading, or this fault if nothing is.
    pub fn find_cause(&mut self, fault: Fault) -> Fault
        ensures cause { result ≡ caused self.old.damage fault }
        ensures same { StaysAt self.old self.new }
    {
        self.damage.take().unwrap_or(fault)
    }

    /// Returns a fault as one of the file that it is about, if it is about one: lines are counted from its own first one, and a
    /// line of two files is one of that in which it begins.
    pub fn locate(&self, fault: Fault) -> Located<'a>
        ensures file { IsLocated self.now fault result }
        ensures advice { result.advice.now ≡ [] }
    {
        let Fault::NotUtf8(line) = fault else {
            return Located::new(self.current(), fault);
        };
        let count = self.begins.len();
        for later in 0..count {
            let begin = self.begins[count - 1 - later];
            if begin.lines < line {
                let line = line.saturating_sub(begin.newlines);
                return Located::new(begin.source, self.explain(Fault::NotUtf8(line)));
            }
        }
        Located::new(self.current(), self.explain(fault))
    }

    /// Returns a fault of the file that is read, which is told of as compressed if it looks like that.
    pub fn explain(&self, fault: Fault) -> Fault
        ensures { result ≡ explained self.now.compression fault }
    {
        match (fault, self.compression) {
            (Fault::NotUtf8(line), Some(compression)) => Fault::Compressed(line, compression),
            (fault, _) => fault,
        }
    }
}

impl Inputs<'_> {
    /// Reads bytes as they are.
    fn read_plain(&mut self, buf: &mut [u8]) -> io::Result<usize>
        ensures { IfOk result (λ count. count ≤ length buf.new) }
    {
        let sources = self.sources;
        for index in self.at..sources.len() {
            let count = self.read_source(sources[index], buf)?;
            if count > 0 || buf.is_empty() {
                return Ok(count);
            }
            self.at = index + 1;
            self.opened = None;
            self.has_bytes = false;
        }
        Ok(0)
    }
}

impl Read for Inputs<'_> {
    fn read(&mut self, buf: &mut [u8]) -> io::Result<usize> {
        let count = self.read_plain(buf)?;
        self.note_length(count);
        let bytes = &mut buf[..count];
        if self.is_exchanged {
            exchange_ends(bytes);
        }
        if !self.has_bytes && !bytes.is_empty() {
            self.note_begin(bytes)?;
        }
        self.count_newlines(bytes);
        self.note_end(bytes);
        Ok(count)
    }
}
