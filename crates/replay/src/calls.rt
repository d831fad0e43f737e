//! The five calls for anything that is decoded from all of its bytes, each held to the others.

use crate::mismatch::Mismatch;
use std::alloc::Global;
use wasm_encoder::reader::{DecodeError, Refusal, without_reason};
use wasm_encoder::{
    CoreDumpSection, CoreDumpStack, CustomSection, DataCountSection, Decode, ReadError,
    StartSection, check, normalise, read, read_strict, rewrite,
};

/// How many items a reader gives, or where it refuses the bytes.
pub type Count = Result<usize, usize>;

/// The normal form that a normaliser gives, or where it refuses the bytes.
pub type Normal = Result<Vec<u8>, usize>;

/// The result of a reader: a list, or one value.
pub trait Counted: Drop {
    /// Returns the number of items.
    fn count(&self) -> usize;
}

impl<T: Drop> Counted for Vec<T> {
    fn count(&self) -> usize {
        self.len()
    }
}

impl Counted for StartSection {
    fn count(&self) -> usize {
        1
    }
}

impl Counted for DataCountSection {
    fn count(&self) -> usize {
        1
    }
}

impl<'a> Counted for CustomSection<'a> {
    fn count(&self) -> usize {
        1
    }
}

impl<'a> Counted for CoreDumpSection<'a> {
    fn count(&self) -> usize {
        1
    }
}

impl<'a> Counted for CoreDumpStack<'a> {
    fn count(&self) -> usize {
        self.frames.len()
    }
}

/// Returns the number of items that a reader gave, or the offset at which it refused the bytes.
pub fn count<T: Counted>(answer: Result<T, ReadError>) -> Result<Count, Mismatch> {
    match answer {
        Ok(items) => Ok(Ok(items.count())),
        Err(ReadError::Refused { at }) => Ok(Err(at)),
        Err(ReadError::Memory) => Err(Mismatch::Memory),
    }
}

/// Runs the reader. Returns the number of items, or the offset at which it refuses the bytes.
pub fn count_of<'a, T: Decode<'a>>(alloc: Global, body: &'a [u8]) -> Result<Count, Mismatch>
where
    T::Output: Counted,
{
    count(without_reason(read::<T>(alloc, body)))
}

/// Runs the strict reader. Checks that `check` accepts the same bytes, and refuses the others at the same offset.
pub fn strict_of<'a, T: Decode<'a>>(alloc: Global, body: &'a [u8]) -> Result<Count, Mismatch>
where
    T::Output: Counted,
{
    let strict = count(without_reason(read_strict::<T>(alloc, body)))?;
    is_checked::<T>(alloc, body, strict)?;
    Ok(strict)
}

/// The check answers as the strict reader did.
fn is_checked<'a, T: Decode<'a>>(
    alloc: Global,
    body: &[u8],
    strict: Count,
) -> Result<(), Mismatch> {
    match (check::<T>(alloc, body), strict) {
        (Ok(()), Ok(_)) => Ok(()),
        (Err(DecodeError::Malformed(refusal)), Err(at)) if refusal.at == at => Ok(()),
        (Err(DecodeError::Memory), _) => Err(Mismatch::Memory),
        _ => Err(Mismatch::Checked),
    }
}

/// Runs the normaliser. Checks that rewriting a copy of the bytes in place gives the same, and that the reader refuses
/// them for the same reason.
pub fn normal_of<'a, T: Decode<'a>>(alloc: Global, body: &'a [u8]) -> Result<Normal, Mismatch> {
    let refused = refusal_by::<T>(alloc, body)?;
    let rewritten = rewrite::<T>(Vec::from_slice(alloc, body)?);
    let normal = normalise::<T>(alloc, body);
    if refusal_of(&rewritten)? != refused || refusal_of(&normal)? != refused {
        return Err(Mismatch::Reason);
    }
    same_normal(without_reason(normal), placed(without_reason(rewritten))?)
}

/// Why and where the reader refuses the bytes, if it does.
pub fn refusal_by<'a, T: Decode<'a>>(
    alloc: Global,
    body: &'a [u8],
) -> Result<Option<Refusal>, Mismatch> {
    refusal_of(&read::<T>(alloc, body))
}

/// Why and where the bytes are refused, if they are.
pub fn refusal_of<T>(answer: &Result<T, DecodeError>) -> Result<Option<Refusal>, Mismatch> {
    match answer {
        Ok(_) => Ok(None),
        Err(DecodeError::Malformed(refusal)) => Ok(Some(*refusal)),
        Err(DecodeError::Memory) => Err(Mismatch::Memory),
    }
}

/// Checks that a normaliser answered `normal`, and returns it.
pub fn same_normal(answer: Result<Vec<u8>, ReadError>, normal: Normal) -> Result<Normal, Mismatch> {
    if is_same(&placed(answer)?, &normal) {
        Ok(normal)
    } else {
        Err(Mismatch::Rewritten)
    }
}

/// The bytes that a normaliser gives, or where it refuses its input.
pub fn placed(answer: Result<Vec<u8>, ReadError>) -> Result<Normal, Mismatch> {
    match answer {
        Ok(bytes) => Ok(Ok(bytes)),
        Err(ReadError::Refused { at }) => Ok(Err(at)),
        Err(ReadError::Memory) => Err(Mismatch::Memory),
    }
}

/// Whether both are the same bytes, or the same offset.
fn is_same(one: &Normal, other: &Normal) -> bool {
    match (one, other) {
        (Ok(bytes), Ok(others)) => bytes.as_slice() == others.as_slice(),
        (Err(at), Err(place)) => at == place,
        _ => false,
    }
}
