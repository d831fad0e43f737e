//! Writers of numbers and sizes, and the error of all writers.
ghost use Rattle.std.specs.Prelude.{◌≡◌};
ghost use Rattle.wasm_codec.specs.declared.encode.EncodeError.TheVariants.{Memory};

pub mod leb128;
mod sized;
mod undo;

pub(crate) use sized::write_u32;
pub use sized::{mend_count, put_size_before};
use std::alloc::{AllocError, AllocFailed};
use thiserror::Error;
pub use undo::keep_or_undo;

/// Error of a writer. The list of bytes is then as it was before the call.
#[derive(Debug, PartialEq, Eq, Drop, Error)]
pub enum EncodeError {
    /// An allocation failed.
    #[error("no memory")]
    Memory,
    /// A length or a count exceeds 4,294,967,295, the limit of the binary format.
    #[error("too long")]
    TooLong,
    /// The alignment of a memory argument is 64 or more, which the binary format can't encode.
    #[error("alignment out of range")]
    Alignment,
    /// The flags of a symbol ask for a name or a definition that it lacks, or exclude one that it has.
    #[error("symbol doesn't fit its flags")]
    SymbolFlags,
}

impl From<AllocError> for EncodeError {
    ghost from_gives = { λ _ e. e ≡ Memory };

    fn from(_error: AllocError) -> EncodeError {
        EncodeError::Memory
    }
}

impl<T: Drop> From<AllocFailed<T>> for EncodeError {
    ghost from_gives = { λ _ e. e ≡ Memory };

    fn from(_error: AllocFailed<T>) -> EncodeError {
        EncodeError::Memory
    }
}
