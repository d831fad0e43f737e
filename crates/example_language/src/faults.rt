//! What can be wrong with a program.

use std::alloc::{AllocError, AllocFailed};
use thiserror::Error;
use wasm_encoder::{EncodeError, NameError};

/// The first error of a program, with its line.
#[derive(Debug, Drop, Error)]
#[error("line {line}: {fault}")]
pub struct CompileError {
    /// Number of the line. The first is 1.
    pub line: usize,
    /// What is wrong.
    pub fault: Fault,
}

/// An error in a line.
#[derive(Debug, Drop, Error)]
pub enum Fault {
    /// A number that doesn't fit an `i32`.
    #[error("a number is past 2147483647")]
    TooLarge,
    /// A text without its second quotation mark.
    #[error("a text isn't closed")]
    OpenText,
    /// Something else in the place of a name.
    #[error("a name is missing")]
    NoName,
    /// Something else in the place of a name with a parenthesis.
    #[error("a name with its parameters is missing")]
    NoHead,
    /// Something else in the place of a number.
    #[error("a number is missing")]
    NoNumber,
    /// Something else in the place of a text.
    #[error("a text is missing")]
    NoText,
    /// Something else in the place of `=`.
    #[error("'=' is missing")]
    NoEquals,
    /// A token that has no place there.
    #[error("something has no place there")]
    Misplaced,
    /// A missing operand at the end of the line.
    #[error("the expression ends where an operand is wanted")]
    Unfinished,
    /// A parenthesis that isn't closed.
    #[error("a parenthesis isn't closed")]
    Unclosed,
    /// A name without a meaning.
    #[error("unknown name")]
    Unknown,
    /// A name that can't be set.
    #[error("only variables and globals can be set")]
    Constant,
    /// A wrong number of arguments.
    #[error("wrong number of arguments")]
    Arguments,
    /// Too many parameters.
    #[error("a function has at most 8 parameters")]
    Parameters,
    /// A statement outside of a function.
    #[error("a statement stands outside of a function")]
    Outside,
    /// A function in a function.
    #[error("a declaration stands inside of a function")]
    Inside,
    /// A block that isn't open.
    #[error("no such block is open")]
    NoBlock,
    /// A block that isn't closed.
    #[error("a block isn't closed")]
    OpenBlock,
    /// A name that isn't UTF-8.
    #[error("a name isn't UTF-8")]
    NotUtf8,
    /// A failure to write.
    #[error("{0}")]
    Encode(#[from] EncodeError),
    /// A failure to write names.
    #[error("{0}")]
    Names(#[from] NameError),
}

impl From<AllocError> for Fault {
    fn from(_error: AllocError) -> Fault {
        Fault::Encode(EncodeError::Memory)
    }
}

impl<T: Drop> From<AllocFailed<T>> for Fault {
    fn from(_error: AllocFailed<T>) -> Fault {
        Fault::Encode(EncodeError::Memory)
    }
}
