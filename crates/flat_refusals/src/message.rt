//! The text of a refusal.
ghost use Rattle.std.specs.Prelude.{◌≡◌, ◌-◌, ◌<◌, ◌≤◌, length};
ghost use Rattle.flat_refusals.specs.Messages.{HoldsText, HoldsTextOf};

use crate::refusal::FlatRefusal;
use crate::statuses::{NO_MEMORY, REFUSED};
use std::fmt;
use std::fmt::Write;

/// Length in bytes that no text exceeds.
const MOST: usize = 256;

/// Writes the text of a refusal to the buffer, cut to its length, with a NUL at its end. Returns the length of the
/// whole text.
///
/// Writes nothing if the buffer is empty. The text is empty if nothing was refused.
pub fn write_message(refusal: &FlatRefusal, buffer: &mut [u8]) -> usize
    ensures len { result ≤ 256 }
    ensures held { HoldsTextOf result buffer.old buffer.new }
{
    let text = Text::of(refusal);
    let shown = text.shown();
    put(shown, buffer);
    shown.len()
}

/// Writes the text to the buffer, cut to its length, with a NUL at its end.
fn put(text: &[u8], buffer: &mut [u8])
    ensures { HoldsText text.now buffer.old buffer.new }
{
    if buffer.is_empty() {
        return;
    }
    let count = cut_len(text.len(), buffer.len());
    buffer[..count].copy_from_slice(&text[..count]);
    buffer[count] = 0;
}

/// Returns how many bytes of a text fit into so much room, with a NUL after them.
fn cut_len(len: usize, room: usize) -> usize
    requires { 0 < room }
    ensures whole { len < room → result ≡ len }
    ensures cut { room ≤ len → result ≡ room - 1 }
{
    if len < room { len } else { room - 1 }
}

/// A text of at most `MOST` bytes.
#[derive(Drop)]
struct Text {
    /// The text and, after it, zeros.
    bytes: [u8; MOST],
    /// Length of the text.
    len: usize,
}

impl Text {
    /// Returns the text of a refusal.
    fn of(refusal: &FlatRefusal) -> Text {
        let mut text = Text {
            bytes: [0; MOST],
            len: 0,
        };
        // Writing never fails: what doesn't fit is dropped.
        let _ = text.tell(refusal);
        text
    }

    /// Appends the text of a refusal.
    fn tell(&mut self, refusal: &FlatRefusal) -> fmt::Result {
        if refusal.status == NO_MEMORY {
            return self.write_str("no memory");
        }
        if refusal.status != REFUSED {
            return Ok(());
        }
        match refusal.refusal() {
            Some(told) => write!(self, "{told}"),
            None => write!(self, "refused at {}", refusal.at),
        }
    }

    /// Returns the text.
    fn shown(&self) -> &[u8]
        ensures { length result.now ≤ 256 }
    {
        match self.bytes.get(..self.len) {
            Some(text) => text,
            None => &self.bytes,
        }
    }
}

impl fmt::Write for Text {
    fn write_str(&mut self, s: &str) -> fmt::Result {
        for byte in s.as_bytes() {
            if self.len < MOST {
                self.bytes[self.len] = *byte;
                self.len += 1;
            }
        }
        Ok(())
    }
}
