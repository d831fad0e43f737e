//! A run of the program, for any reader and any writer.
ghost use Rattle.std.specs.Prelude.{◌≡◌, List, ℕ, IfSome, OnOk};
ghost use Rattle.std.specs.Io.KnownBytes.{IsAtEnd, Keeps, Appends};
ghost use Rattle.wasm_codec.specs.Outcomes.{IsLongestPrefix};
ghost use Rattle.wasmnorm.specs.Modes.{IsEncoded, NormalForm, IsWholePrefix};
ghost use Rattle.wasmnorm.specs.Run.{AppendsNormalForm, AppendsBeginning, IfRefused, OnceAllIsRead, BeforeAnyWrite, IfWriteFailed, run_error};
ghost use Rattle.wasmnorm.specs.declared.run.RunError.TheVariants.{Memory};

use crate::modes::{Mode, normalise};
use crate::streams::{read_all, write_all};
use std::alloc::{AllocError, Global};
use std::io::{Read, Write};
use wasm_codec::reader::ReadError;

/// Why a run failed.
#[derive(Clone, Copy, Debug, PartialEq, Eq)]
pub enum RunError {
    /// The input is malformed.
    Refused {
        /// Length in bytes of the longest prefix that decodes.
        at: usize,
    },
    /// Memory ran out.
    Memory,
    /// A read failed, or the input has no end.
    Read,
    /// A write failed, or wrote no byte.
    Write,
}

impl From<AllocError> for RunError {
    ghost from_gives = { λ _ error. error ≡ Memory };

    fn from(_error: AllocError) -> RunError {
        RunError::Memory
    }
}

impl From<ReadError> for RunError {
    ghost from_gives = { λ error run. run ≡ run_error error };

    fn from(error: ReadError) -> RunError {
        match error {
            ReadError::Memory => RunError::Memory,
            ReadError::Refused { at } => RunError::Refused { at },
        }
    }
}

/// Reads all of the input, and writes its minimal encoding. `expected_len` is for `read_all`.
///
/// Fails with `Refused` if the input is malformed, with `Memory` if memory runs out, and with `Read` or `Write` if a read
/// or a write fails. An interrupted call is a failed call. After `Memory` or `Read`, part of the input may have been read.
pub fn run<R: Read, W: Write>(
    alloc: Global,
    mode: Mode,
    expected_len: Option<usize>,
    reader: &mut R,
    writer: &mut W,
) -> Result<(), RunError>
    // The minimal encoding of the input was appended, and nothing else.
    ensures ok { OnOk result (IfSome (R.remaining reader.old) (λ input.
        AppendsNormalForm mode input (W.contents writer.old) (W.contents writer.new))) }
    // Every minimal encoding of the input is the one that was appended.
    ensures complete { OnOk result (IfSome (R.remaining reader.old) (λ input.
        (encoding : List ℕ) → NormalForm mode input encoding →
        Appends (W.contents writer.old) (W.contents writer.new) encoding)) }
    // All of the input is read before it is refused or a byte is written.
    ensures read_to_end { OnceAllIsRead result (IsAtEnd (R.remaining reader.new)) }
    // Only a malformed input is refused.
    ensures unencoded { IfRefused result (λ _. IfSome (R.remaining reader.old) (λ input.
        IsEncoded mode input → ⊥)) }
    // `at` is the length of the longest prefix that decodes.
    ensures refused { IfRefused result (λ at. IfSome (R.remaining reader.old) (λ input.
        IsLongestPrefix (IsWholePrefix mode) input at)) }
    // Nothing was written, unless the error is `Write`.
    ensures nothing_written { BeforeAnyWrite result
        (Keeps (W.contents writer.old) (W.contents writer.new)) }
    // After `Write`, a proper prefix of the minimal encoding was appended.
    ensures beginning { IfWriteFailed result (IfSome (R.remaining reader.old) (λ input.
        AppendsBeginning mode input (W.contents writer.old) (W.contents writer.new))) }
{
    let input = read_all(alloc, reader, expected_len, u32::MAX)?;
    let encoding = normalise(mode, input)?;
    write_all(writer, &encoding)
}
