//! The error of readers, and the cursor that they read from.
//!
//! A reader decodes all of its input: trailing bytes are malformed.
ghost use Rattle.std.specs.Prelude.{◌≡◌, ◌≤◌, ◌-◌, None};
ghost use Rattle.wasm_codec.specs.declared.reader.ReadError.TheVariants.{Memory, Refused};
ghost use Rattle.wasm_codec.specs.declared.reader.DecodeError.TheVariants as decode_errors;
ghost use Rattle.wasm_codec.specs.Outcomes.{LiesIn, IsNumbered, NeedsNoMemory, as_decoded, as_read, offset_of, error_of, item_of, item_of_fault, named_item, offsets_of, read_error_of};

pub mod beginning;
pub mod cursor;
pub mod malformed;
pub mod names;
pub mod refusal;

use crate::reader::cursor::Fault;
use crate::reader::malformed::{Malformed, Stop};
use crate::reader::refusal::{Refusal, SectionPlace};
use std::alloc::{AllocError, AllocFailed};
use thiserror::Error;

/// Error of a reader, a normaliser or a check.
#[derive(Debug, PartialEq, Eq, Drop, Error)]
pub enum ReadError {
    /// An allocation failed.
    #[error("no memory")]
    Memory,
    /// The bytes are malformed, or not minimally encoded if the call requires that.
    #[error("refused at {at}")]
    Refused {
        /// Length in bytes of the longest prefix that the call accepts: the offset of the first part that it refuses.
        at: usize,
    },
}

impl From<AllocError> for ReadError {
    ghost from_gives = { λ _ e. e ≡ Memory };

    fn from(_error: AllocError) -> ReadError {
        ReadError::Memory
    }
}

impl<T: Drop> From<AllocFailed<T>> for ReadError {
    ghost from_gives = { λ _ e. e ≡ Memory };

    fn from(_error: AllocFailed<T>) -> ReadError {
        ReadError::Memory
    }
}

/// Error of the five generic calls: it says why and where bytes are malformed.
#[derive(Debug, PartialEq, Eq, Drop, Error)]
pub enum DecodeError {
    /// An allocation failed.
    #[error("no memory")]
    Memory,
    /// The bytes are malformed, or not minimally encoded if the call requires that.
    #[error("{0}")]
    Malformed(Refusal),
}

impl DecodeError {
    /// Returns the error for a fault in the part that begins at `at`, in `len` bytes.
    pub fn new(fault: Fault, at: usize, len: usize) -> DecodeError
        ensures error { read_error_of result ≡ error_of fault at }
        ensures place { at ≤ len → LiesIn len result }
        ensures item { item_of result ≡ item_of_fault fault }
    {
        match fault {
            Fault::Memory => DecodeError::Memory,
            Fault::Malformed(malformed) => DecodeError::refused(&malformed, at, len),
        }
    }

    /// Returns the error for bytes that are malformed in the part that begins at `at`, in `len` bytes.
    pub fn refused(malformed: &Malformed, at: usize, len: usize) -> DecodeError
        ensures error { read_error_of result ≡ Refused at }
        ensures place { at ≤ len → LiesIn len result }
        ensures item { item_of result ≡ malformed.now.item }
    {
        DecodeError::Malformed(Refusal::new(malformed, at, len))
    }

    /// Returns the error for a stop at an item, in `len` bytes.
    pub fn stopped(stop: Stop, len: usize) -> DecodeError
        ensures error { read_error_of result ≡ error_of stop.fault (len - stop.left) }
        ensures place { LiesIn len result }
        ensures item { item_of result ≡ item_of_fault stop.fault }
    {
        DecodeError::new(stop.fault, len.saturating_sub(stop.left), len)
    }

    /// Returns the same error, in the item with this index.
    pub fn in_item(self, index: u32) -> DecodeError
        ensures error { read_error_of result ≡ read_error_of self }
        ensures place { offsets_of result ≡ offsets_of self }
        ensures item { item_of result ≡ named_item self index }
    {
        match self {
            DecodeError::Memory => DecodeError::Memory,
            DecodeError::Malformed(refusal) => DecodeError::Malformed(Refusal {
                item: Some(index),
                ..refusal
            }),
        }
    }

    /// Returns the same error, in no item.
    pub fn outside_items(self) -> DecodeError
        ensures error { read_error_of result ≡ read_error_of self }
        ensures place { offsets_of result ≡ offsets_of self }
        ensures item { item_of result ≡ None }
    {
        match self {
            DecodeError::Memory => DecodeError::Memory,
            DecodeError::Malformed(refusal) => DecodeError::Malformed(Refusal {
                item: None,
                ..refusal
            }),
        }
    }

    /// Returns the same error, in the section with this id and this number of sections before it.
    pub fn in_section(self, number: usize, id: u8) -> DecodeError
        ensures error { read_error_of result ≡ read_error_of self }
        ensures place { offsets_of result ≡ offsets_of self }
        ensures item { item_of result ≡ item_of self }
        ensures number { IsNumbered number result }
    {
        match self {
            DecodeError::Memory => DecodeError::Memory,
            DecodeError::Malformed(refusal) => DecodeError::Malformed(Refusal {
                section: Some(SectionPlace { number, id }),
                ..refusal
            }),
        }
    }

    /// Returns the same error, with the number of sections before it.
    pub fn numbered(self, number: usize) -> DecodeError
        ensures error { read_error_of result ≡ read_error_of self }
        ensures place { offsets_of result ≡ offsets_of self }
        ensures item { item_of result ≡ item_of self }
        ensures number { IsNumbered number result }
    {
        match self {
            DecodeError::Memory => DecodeError::Memory,
            DecodeError::Malformed(refusal) => DecodeError::Malformed(Refusal {
                section: refusal.section.map(|section| SectionPlace {
                    number,
                    id: section.id,
                }),
                ..refusal
            }),
        }
    }

    /// Returns `at`, the offset of the first part that the call refuses. `None` means that memory ran out.
    pub fn at(&self) -> Option<usize>
        ensures { result ≡ offset_of self.now }
    {
        match self {
            DecodeError::Memory => None,
            DecodeError::Malformed(refusal) => Some(refusal.at),
        }
    }
}

impl From<AllocError> for DecodeError {
    ghost from_gives = { λ _ e. e ≡ decode_errors.Memory };

    fn from(_error: AllocError) -> DecodeError {
        DecodeError::Memory
    }
}

impl<T: Drop> From<AllocFailed<T>> for DecodeError {
    ghost from_gives = { λ _ e. e ≡ decode_errors.Memory };

    fn from(_error: AllocFailed<T>) -> DecodeError {
        DecodeError::Memory
    }
}

impl From<DecodeError> for ReadError {
    ghost from_gives = { λ error e. e ≡ read_error_of error };

    fn from(error: DecodeError) -> ReadError {
        match error {
            DecodeError::Memory => ReadError::Memory,
            DecodeError::Malformed(refusal) => ReadError::Refused { at: refusal.at },
        }
    }
}

/// Returns the same result, with the error as the named calls have it.
pub fn without_reason<T>(given: Result<T, DecodeError>) -> Result<T, ReadError>
    ensures { result ≡ as_read given }
{
    match given {
        Ok(value) => Ok(value),
        Err(error) => Err(ReadError::from(error)),
    }
}

/// Returns the same result of a call that allocates nothing.
pub fn without_memory<T>(given: Result<T, DecodeError>) -> Result<T, Refusal>
    requires { NeedsNoMemory (as_read given) }
    ensures { as_decoded result ≡ given }
{
    match given {
        Ok(value) => Ok(value),
        Err(DecodeError::Malformed(refusal)) => Err(refusal),
        Err(DecodeError::Memory) => unreachable!(),
    }
}
