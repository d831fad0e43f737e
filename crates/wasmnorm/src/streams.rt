//! Reads and writes everything. An interrupted call is a failed call.
ghost use Rattle.std.specs.Prelude.{◌≡◌, ◌<◌, ◌≤◌, ◌+◌, take, drop, length, IfOk, IfErr, IfSome, OnOk, OnErr, IsOkUnless, vec_len};
ghost use Rattle.std.specs.Io.KnownBytes.{IsAtEnd, Appends, Consumes, Keeps};
ghost use Rattle.wasm_codec.specs.Streams.{AppendsPrefix};
ghost use Rattle.wasmnorm.specs.Streams.{IsReadError};

use crate::run::RunError;
use std::alloc::{AllocError, Global};
use std::io::{Read, Write};

/// Size in bytes of the room for a read.
const ROOM: usize = 64 * 1024;

/// Number of zeros that are written at once. A longer write is no faster, and counts as an instruction for each byte.
const STEP: usize = 2 * 1024;

/// Reads all of the input, in at most `most_reads` reads.
///
/// `expected_len` is the length of the input in bytes, if it is known. A wrong length costs only time and memory.
///
/// Fails with `Memory` if memory runs out, and with `Read` if a read fails or the last read doesn't reach the end.
pub fn read_all<R: Read>(
    alloc: Global,
    reader: &mut R,
    expected_len: Option<usize>,
    most_reads: u32,
) -> Result<Vec<u8>, RunError>
    // All bytes of the input are returned, if they are known.
    ensures all { IfOk result (λ bytes. IfSome (R.remaining reader.old) (λ input.
        bytes.items ≡ input)) }
    // No byte is left.
    ensures end { OnOk result (IsAtEnd (R.remaining reader.new)) }
    // The error is `Memory` or `Read`.
    ensures error { IfErr result IsReadError }
{
    let mut bytes = Vec::new(alloc);
    if let Some(len) = expected_len {
        // The last read, which finds the end, needs room too. Without memory for all, the list grows with the input.
        let _ = bytes.reserve_exact(len.saturating_add(1));
    }
    let mut filled = 0;
    for _ in 0..most_reads {
        match read_after(reader, &mut bytes, filled)? {
            0 => {
                bytes.truncate(filled);
                return Ok(bytes);
            }
            count => filled += count,
        }
    }
    Err(RunError::Read)
}

/// Reads once into the list after its first `filled` bytes, and returns the number of bytes read: 0 at the end.
///
/// Fails as `read_all` does.
fn read_after<R: Read>(
    reader: &mut R,
    bytes: &mut Vec<u8>,
    filled: usize,
) -> Result<usize, RunError>
    requires { filled ≤ vec_len bytes.old }
    ensures front { OnOk result (take filled bytes.new.items ≡ take filled bytes.old.items) }
    ensures fits { IfOk result (λ count. filled + count ≤ vec_len bytes.new) }
    ensures read { IfOk result (λ count. Consumes (R.remaining reader.old) (R.remaining reader.new)
        (take count (drop filled bytes.new.items))) }
    ensures end { IfOk result (λ count. count ≡ 0 → IsAtEnd (R.remaining reader.new)) }
    ensures error { IfErr result IsReadError }
{
    make_room(bytes, filled)?;
    read_at(reader, bytes.as_mut_slice(), filled)
}

/// Reads once into the bytes from the offset `at` on, and returns the number of bytes read: 0 at the end.
///
/// Fails with `Read` if the read fails.
fn read_at<R: Read>(reader: &mut R, bytes: &mut [u8], at: usize) -> Result<usize, RunError>
    requires { at < length bytes.old }
    ensures front { take at bytes.new ≡ take at bytes.old }
    ensures fits { IfOk result (λ count. at + count ≤ length bytes.new) }
    ensures read { IfOk result (λ count. Consumes (R.remaining reader.old) (R.remaining reader.new)
        (take count (drop at bytes.new))) }
    ensures end { IfOk result (λ count. count ≡ 0 → IsAtEnd (R.remaining reader.new)) }
    ensures error { IsOkUnless result RunError.Read }
{
    match reader.read(&mut bytes[at..]) {
        Ok(count) => Ok(count),
        Err(_) => Err(RunError::Read),
    }
}

/// Lengthens the list with zeros, if it has no more than its first `filled` bytes. A read can overwrite them.
fn make_room(bytes: &mut Vec<u8>, filled: usize) -> Result<(), AllocError>
    requires { filled ≤ vec_len bytes.old }
    ensures front { OnOk result (take filled bytes.new.items ≡ take filled bytes.old.items) }
    ensures room { OnOk result (filled < vec_len bytes.new) }
{
    if filled < bytes.len() {
        return Ok(());
    }
    if filled == bytes.capacity() {
        bytes.reserve(ROOM)?;
    }
    let end = filled + (bytes.capacity() - filled).min(ROOM);
    while bytes.len() < end {
        let next = end.min(bytes.len() + STEP);
        bytes.resize(next, 0)?;
    }
    Ok(())
}

/// Writes all of the bytes, in as many writes as necessary.
///
/// Fails with `Write` if a write fails or writes no byte.
pub fn write_all<W: Write>(writer: &mut W, bytes: &[u8]) -> Result<(), RunError>
    // All bytes were appended.
    ensures ok { OnOk result (Appends (W.contents writer.old) (W.contents writer.new) bytes.now) }
    // After an error, a proper prefix of them was appended.
    ensures err { OnErr result
        (AppendsPrefix (W.contents writer.old) (W.contents writer.new) bytes.now) }
    ensures error { IsOkUnless result RunError.Write }
{
    let mut written = 0;
    while written < bytes.len() {
        match writer.write(&bytes[written..]) {
            Ok(0) => return Err(RunError::Write),
            Ok(count) => written += count,
            Err(_) => return Err(RunError::Write),
        }
    }
    Ok(())
}

/// Flushes the writer. Fails with `Write` if that fails.
pub fn flush<W: Write>(writer: &mut W) -> Result<(), RunError>
    // The written bytes are unchanged.
    ensures kept { Keeps (W.contents writer.old) (W.contents writer.new) }
    ensures error { IsOkUnless result RunError.Write }
{
    writer.flush().map_err(|_| RunError::Write)
}
