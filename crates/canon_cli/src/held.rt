//! A writer that holds back what is written, so that it can be taken back.
use std::alloc::Global;
use std::io;
use std::io::Write;

/// Number of bytes that are held back at most.
const MOST: usize = 1 << 20;

/// A buffered writer. What was written since a mark can be taken back, until it is too much to hold.
#[derive(Drop)]
pub struct HeldWriter<W> {
    writer: W,
    held: Vec<u8>,
    /// Number of bytes held before the mark. `None` means that bytes after the mark were passed on.
    mark: Option<usize>,
}

impl<W: Write> HeldWriter<W> {
    /// Returns a writer that holds nothing.
    pub fn new(alloc: Global, writer: W) -> HeldWriter<W> {
        HeldWriter {
            writer,
            held: Vec::new(alloc),
            mark: None,
        }
    }

    /// Sets the mark to the end of what was written.
    pub fn mark(&mut self) {
        self.mark = Some(self.held.len());
    }

    /// Takes back what was written since the mark. Returns whether that was possible.
    pub fn take_back(&mut self) -> bool {
        match self.mark {
            Some(len) => {
                self.held.truncate(len);
                true
            }
            None => false,
        }
    }

    /// Passes on what is held.
    fn pass_on(&mut self) -> io::Result<()> {
        self.mark = None;
        self.writer.write_all(&self.held)?;
        self.held.clear();
        Ok(())
    }
}

impl<W: Write> Write for HeldWriter<W> {
    fn write(&mut self, bytes: &[u8]) -> io::Result<usize> {
        if self.held.len().saturating_add(bytes.len()) > MOST {
            self.pass_on()?;
        }
        if bytes.len() > MOST {
            return self.writer.write(bytes);
        }
        self.held.extend_from_slice(bytes)?;
        Ok(bytes.len())
    }

    fn flush(&mut self) -> io::Result<()> {
        self.pass_on()?;
        self.writer.flush()
    }
}
