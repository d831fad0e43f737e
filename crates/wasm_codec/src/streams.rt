//! Writes all bytes to a writer.
ghost use Rattle.std.specs.Io.{WritesAtMost};
ghost use Rattle.std.specs.Io.KnownBytes.{WriteAppends};
ghost use Rattle.wasm_codec.specs.Streams.{WritesAll};

use std::io;
use std::io::{ErrorKind, Write};

/// Writes bytes, in as many writes as necessary.
///
/// Fails with the kind `WriteZero` if a write takes no byte, and with the errors of the writer. `write_all` of the
/// standard library doesn't say which bytes were written before an error.
pub fn write_all<W: Write>(writer: &mut W, bytes: &[u8]) -> io::Result<()>
    ensures writes { WritesAll bytes.now (W.contents writer.old) (W.contents writer.new) result }
{
    let mut written = 0;
    while written < bytes.len() {
        match write_once(writer, &bytes[written..])? {
            0 => return Err(io::Error::from(ErrorKind::WriteZero)),
            count => written += count,
        }
    }
    Ok(())
}

/// Writes some of the bytes, and returns their number. Repeats an interrupted write.
fn write_once<W: Write>(writer: &mut W, bytes: &[u8]) -> io::Result<usize>
    ensures bound { WritesAtMost result bytes.now }
    ensures bytes { WriteAppends (W.contents writer.old) (W.contents writer.new) result bytes.now }
{
    for _ in 0..u32::MAX {
        match writer.write(bytes) {
            Err(error) if error.kind() == ErrorKind::Interrupted => {}
            result => return result,
        }
    }
    Err(io::Error::from(ErrorKind::Interrupted))
}
