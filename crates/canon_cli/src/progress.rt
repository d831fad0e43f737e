//! The reader and the writer of a module, which show progress on a terminal: one line, erased at the end.
use crate::input::Input;
use crate::request::Location;
use std::fs::{File, Metadata};
use std::io::{IsTerminal, Read, Stdin, Write};
use std::{fs, io};

/// Size in bytes from which a module's progress is shown.
const LARGE: usize = 16 << 20;

/// Number of bytes to read before the line is written anew.
const STEP: usize = 1 << 20;

/// The progress line.
#[derive(Clone, Copy)]
pub struct Progress {
    rt: HostRuntime,
    /// Whether the line is written.
    is_shown: bool,
}

impl Progress {
    /// Returns a progress line on standard error. It is written only if standard error is a terminal.
    pub fn new(rt: &HostRuntime) -> Progress {
        Progress {
            rt: *rt,
            is_shown: rt.stderr().is_terminal(),
        }
    }

    /// Suppresses the line if `quiet` is set.
    pub fn unless(self, quiet: bool) -> Progress {
        Progress {
            is_shown: self.is_shown && !quiet,
            ..self
        }
    }

    /// Suppresses the line if the module's bytes go to a terminal too.
    pub fn beside(self, output: Location<'_>) -> Progress {
        let is_taken = output == Location::Standard && self.rt.stdout().is_terminal();
        Progress {
            is_shown: self.is_shown && !is_taken,
            ..self
        }
    }

    /// Writes the line: the phase, and the number of bytes. Blanks cover the previous line.
    fn tell(self, phase: &str, len: usize) {
        if self.is_shown && len >= LARGE {
            let (whole, tenth) = (len / 1_000_000, len / 100_000 % 10);
            let _ = eprint!(self.rt; "\rwasmcanon: {phase} {whole}.{tenth} MB{:9}", "");
        }
    }

    /// Erases the line of a module of `len` bytes.
    fn erase(self, len: usize) {
        if self.is_shown && len >= LARGE {
            let _ = eprint!(self.rt; "\r{:60}\r", "");
        }
    }
}

/// The reader of a module.
#[derive(Drop)]
pub struct Source {
    stream: Stream,
    progress: Progress,
    /// Length in bytes of the file that is read. `None` means that it is no file.
    file_len: Option<usize>,
    /// Number of bytes read so far.
    len: usize,
    /// The header of a module.
    header: [u8; 8],
    /// Whether the first bytes differ from the header. Then no more is read than the header's length.
    is_foreign: bool,
}

#[derive(Drop)]
enum Stream {
    Standard(Stdin),
    File(File),
}

impl Source {
    /// Opens a location for reading a module, which begins with this header.
    ///
    /// Fails if a file can't be opened.
    pub fn open(
        rt: &HostRuntime,
        input: Location<'_>,
        header: [u8; 8],
        progress: Progress,
    ) -> io::Result<Source> {
        let (stream, file_len) = match input {
            Location::Standard => {
                let file_len = file_len(fs::metadata(rt, "/dev/stdin"));
                (Stream::Standard(rt.stdin()), file_len)
            }
            Location::File(path) => {
                let file = File::open(rt, path)?;
                let file_len = file_len(file.metadata());
                (Stream::File(file), file_len)
            }
            Location::NotText(_) => return Err(not_text()),
        };
        Ok(Source {
            stream,
            progress,
            file_len,
            len: 0,
            header,
            is_foreign: false,
        })
    }

    /// Compares bytes that come after the first `start` bytes with the header of a module.
    fn compare_with_header(&mut self, start: usize, bytes: &[u8]) {
        for (expected, found) in self.header.iter().skip(start).zip(bytes) {
            if expected != found {
                self.is_foreign = true;
            }
        }
    }

    /// Wraps a writer, so that it shows progress.
    pub fn watch<'a, W>(&self, writer: &'a mut W) -> Watched<'a, W> {
        Watched {
            writer,
            progress: self.progress,
        }
    }

    /// Closes the reader and erases the line.
    pub fn end(self) {
        self.progress.erase(self.len);
    }
}

/// Returns the error for a file whose name isn't UTF-8.
pub fn not_text() -> io::Error {
    io::Error::new(io::ErrorKind::InvalidInput, "file name is not UTF-8")
}

impl Read for Source {
    fn read(&mut self, buffer: &mut [u8]) -> io::Result<usize> {
        if self.is_foreign && self.len >= self.header.len() {
            return Ok(0);
        }
        let count = match &mut self.stream {
            Stream::Standard(stdin) => stdin.read(buffer)?,
            Stream::File(file) => file.read(buffer)?,
        };
        let before = self.len;
        self.len = before.saturating_add(count);
        if before < self.header.len() {
            self.compare_with_header(before, buffer.get(..count).unwrap_or(&[]));
        }
        if count == 0 {
            self.progress.tell("canonicalising", self.len);
        } else if self.len / STEP != before / STEP {
            self.progress.tell("reading", self.len);
        }
        Ok(count)
    }
}

impl Input for Source {
    fn expected_len(&self) -> Option<usize> {
        self.file_len
    }
}

/// Returns the length in bytes of a file. `None` means that it is no file, or that its length isn't known.
fn file_len(metadata: io::Result<Metadata>) -> Option<usize> {
    match metadata {
        Ok(metadata) if metadata.is_file() => usize::try_from(metadata.len()).ok(),
        _ => None,
    }
}

/// A writer that shows progress.
#[derive(Drop)]
pub struct Watched<'a, W> {
    writer: &'a mut W,
    progress: Progress,
}

impl<W: Write> Write for Watched<'_, W> {
    fn write(&mut self, bytes: &[u8]) -> io::Result<usize> {
        self.progress.tell("writing", bytes.len());
        self.writer.write(bytes)
    }

    fn flush(&mut self) -> io::Result<()> {
        self.writer.flush()
    }
}
