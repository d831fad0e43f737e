//! How a vector can differ.

use hex::FromHexError;
use std::alloc::{AllocError, AllocFailed};
use thiserror::Error;
use wasm_encoder::{EncodeError, ReadError};

/// Why a vector does not hold.
#[derive(Debug, Drop, Error)]
pub enum Mismatch {
    /// There was no memory to try it.
    #[error("no memory")]
    Memory,
    /// The line is no vector, or one of a kind that is not known here.
    #[error("the line is not understood")]
    NotUnderstood,
    /// A value was refused.
    #[error("{0}")]
    Refused(EncodeError),
    /// A value was written as other bytes.
    #[error("other bytes are written")]
    Written,
    /// `write_call` does not write what the method writes.
    #[error("write_call writes other bytes")]
    WriteCall,
    /// A list is another where memory is refused, or needs too much.
    #[error("refused memory leaves another list, or too much is asked for")]
    Growth,
    /// An opcode has another kind.
    #[error("the opcode has another kind")]
    Kind,
    /// An opcode has another name.
    #[error("the opcode has another name")]
    Name,
    /// A call has another opcode or other operands than it was made of.
    #[error("a call of other parts is made")]
    Made,
    /// The bytes are read as other calls or sections.
    #[error("other calls or sections are read")]
    Read,
    /// The strict reader takes what isn't in its minimal encoding, or refuses what is.
    #[error("the strict reader answers otherwise")]
    ReadStrictly,
    /// The check accepts or refuses otherwise than the strict reader.
    #[error("the check answers otherwise")]
    Checked,
    /// The normal form is another, or the place of a refusal.
    #[error("the normaliser answers otherwise")]
    Normalised,
    /// Rewriting in place gives something else than the normaliser.
    #[error("the rewriter answers otherwise")]
    Rewritten,
    /// The calls refuse the bytes for different reasons, or for another one.
    #[error("the reason is another")]
    Reason,
    /// The bytes are not refused, or at another place.
    #[error("the place of the refusal is another")]
    Place,
    /// The builders write another module of what the reader gives.
    #[error("the builders write otherwise")]
    Built,
    /// A part of the bytes is taken, or refused elsewhere by the normaliser than by the reader.
    #[error("a part is answered otherwise")]
    Cut,
    /// `check_order` or `find_order_error` answers otherwise.
    #[error("the order is answered otherwise")]
    Order,
}

impl From<AllocError> for Mismatch {
    fn from(_error: AllocError) -> Mismatch {
        Mismatch::Memory
    }
}

impl<T: Drop> From<AllocFailed<T>> for Mismatch {
    fn from(_error: AllocFailed<T>) -> Mismatch {
        Mismatch::Memory
    }
}

impl From<EncodeError> for Mismatch {
    fn from(error: EncodeError) -> Mismatch {
        match error {
            EncodeError::Memory => Mismatch::Memory,
            other => Mismatch::Refused(other),
        }
    }
}

impl From<ReadError> for Mismatch {
    fn from(error: ReadError) -> Mismatch {
        match error {
            ReadError::Memory => Mismatch::Memory,
            ReadError::Refused { .. } => Mismatch::Read,
        }
    }
}

impl From<FromHexError> for Mismatch {
    fn from(error: FromHexError) -> Mismatch {
        match error {
            FromHexError::OutOfMemory => Mismatch::Memory,
            _ => Mismatch::NotUnderstood,
        }
    }
}
