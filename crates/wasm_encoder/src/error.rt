//! One error for all calls of the library.
ghost use Rattle.std.specs.Prelude.{◌≡◌, Option, Some, None};
ghost use Rattle.wasm_codec.specs.declared.encode.EncodeError.TheVariants as encode_errors;
ghost use Rattle.wasm_codec.specs.declared.reader.DecodeError.TheVariants as decode_errors;
ghost use Rattle.wasm_encoder.specs.Errors.{at_of};
ghost use Rattle.wasm_encoder.specs.declared.error.Error.TheVariants as errors;

use crate::module_writer::WriteError;
use std::alloc::{AllocError, AllocFailed};
use std::io;
use thiserror::Error as ThisError;
use wasm_codec::encode::EncodeError;
use wasm_codec::reader::refusal::Refusal;
use wasm_codec::reader::{DecodeError, ReadError};
use wasm_custom_sections::names::NameError;
use wasm_modules::order::ModuleError;

/// Error of any call of the library. A function that calls readers, writers and checks returns it, and uses `?`.
///
/// Each call returns the error of its kind, which `?` converts. `Display` writes what that error writes.
///
/// # Examples
///
/// ```
/// # use wasm_encoder::{Error, InstructionSink, ReadError, check_order, read_whole_module};
/// # use std::alloc::Global;
/// fn constant(alloc: Global, module: &[u8]) -> Result<Vec<u8>, Error> {
///     let sections = read_whole_module(alloc, module)?;
///     check_order(&sections)?;
///     let mut code = Vec::new(alloc);
///     InstructionSink::new(&mut code).i32_const(sections.len() as i32)?;
///     Ok(code)
/// }
/// assert_eq!(rt; constant(rt.alloc(), b"\0asm\x01\0\0\0")?.as_slice(), b"\x41\x00".as_slice());
/// let refused = constant(rt.alloc(), b"\0asm\x01\0\0\0\x0e\x00"); // no section has the id 14
/// assert_eq!(rt; refused.err().and_then(|error| error.at()), Some(8));
/// ```
#[derive(Debug, Drop, ThisError)]
pub enum Error {
    /// Error of a writer. A failed allocation of a `Vec` is converted to it too.
    #[error(transparent)]
    Encode(EncodeError),
    /// Error of a reader, a normaliser or a check.
    #[error(transparent)]
    Read(ReadError),
    /// Error of the five generic calls, such as `read`, with the reason.
    #[error(transparent)]
    Decode(DecodeError),
    /// A rule that the sections of a module break.
    #[error(transparent)]
    Module(ModuleError),
    /// Error of a method of `NameSection`.
    #[error(transparent)]
    Name(NameError),
    /// Error of `ModuleWriter::section`.
    #[error(transparent)]
    Write(WriteError),
    /// A write failed.
    #[error(transparent)]
    Io(io::Error),
}

impl Error {
    /// Returns the offset of the first part that a reader refuses. Returns `None` for other errors.
    pub fn at(&self) -> Option<usize>
        ensures { result ≡ at_of self.now }
    {
        match self {
            Error::Read(ReadError::Refused { at }) => Some(*at),
            Error::Decode(DecodeError::Malformed(refusal)) => Some(refusal.at),
            _ => None,
        }
    }
}

impl From<EncodeError> for Error {
    ghost from_gives = { λ error e. e ≡ errors.Encode error };

    fn from(error: EncodeError) -> Error {
        Error::Encode(error)
    }
}

impl From<ReadError> for Error {
    ghost from_gives = { λ error e. e ≡ errors.Read error };

    fn from(error: ReadError) -> Error {
        Error::Read(error)
    }
}

impl From<DecodeError> for Error {
    ghost from_gives = { λ error e. e ≡ errors.Decode error };

    fn from(error: DecodeError) -> Error {
        Error::Decode(error)
    }
}

impl From<Refusal> for Error {
    ghost from_gives = { λ refusal e. e ≡ errors.Decode (decode_errors.Malformed refusal) };

    fn from(refusal: Refusal) -> Error {
        Error::Decode(DecodeError::Malformed(refusal))
    }
}

impl From<ModuleError> for Error {
    ghost from_gives = { λ error e. e ≡ errors.Module error };

    fn from(error: ModuleError) -> Error {
        Error::Module(error)
    }
}

impl From<NameError> for Error {
    ghost from_gives = { λ error e. e ≡ errors.Name error };

    fn from(error: NameError) -> Error {
        Error::Name(error)
    }
}

impl From<WriteError> for Error {
    ghost from_gives = { λ error e. e ≡ errors.Write error };

    fn from(error: WriteError) -> Error {
        Error::Write(error)
    }
}

impl From<io::Error> for Error {
    ghost from_gives = { λ error e. e ≡ errors.Io error };

    fn from(error: io::Error) -> Error {
        Error::Io(error)
    }
}

impl From<AllocError> for Error {
    ghost from_gives = { λ _ e. e ≡ errors.Encode encode_errors.Memory };

    fn from(_error: AllocError) -> Error {
        Error::Encode(EncodeError::Memory)
    }
}

impl<T: Drop> From<AllocFailed<T>> for Error {
    ghost from_gives = { λ _ e. e ≡ errors.Encode encode_errors.Memory };

    fn from(_error: AllocFailed<T>) -> Error {
        Error::Encode(EncodeError::Memory)
    }
}
