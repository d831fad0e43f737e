//! Code bodies: the locals and instructions of functions (Core 3.0, Code Section).
ghost use Rattle.std.specs.Prelude.{◌≡◌, IfOk, IfErr, ◌++◌, ℕ, List, OnOk, OnErr};
ghost use Rattle.wasm_codec.specs.declared.encode.EncodeError.TheVariants.{Memory};
ghost use Rattle.wasm_codec.specs.Appending.{Appends};
ghost use Rattle.wasm_codec.specs.Encoding.{IsRefusal, IsMinimal, IsMinimalOrLonger, OnlyTooLong};
ghost use Rattle.wasm_code.specs.CodeCounts.{CountedBody};
ghost use Rattle.wasm_code.specs.formats.CodeBodies.{code_body};

pub mod function_body;
pub mod normaliser;
pub mod reader;

use std::alloc::{Allocator, Global};
use wasm_codec::encode::{EncodeError, keep_or_undo, put_size_before};
use wasm_instructions::calls::append_calls;
use wasm_instructions::table::Call;
use wasm_lists::encode::{Encode, encode_list};
use wasm_lists::list::Items;
use wasm_types::types::ValType;

/// A code body: the locals and instructions of a function (Core 3.0, Code Section).
#[derive(Debug, PartialEq, Eq, Drop)]
pub struct CodeBody {
    /// Groups of locals: the number of locals in a group, and their type.
    pub locals: Items<(u32, ValType)>,
    /// Instructions in order, with the last `end`. Neither nesting nor that `end` is checked.
    pub calls: Items<Call>,
}

impl CodeBody {
    /// Returns a copy. Fails with `Memory` if an allocation fails.
    pub fn try_clone(&self) -> Result<CodeBody, EncodeError>
        ensures ok { IfOk result (λ body. body ≡ self.now) }
        ensures err { IfErr result (λ e. e ≡ Memory) }
    {
        let locals = self.locals.try_clone()?;
        let calls = copies_of(self.calls.allocator(), self.calls.as_slice())?;
        Ok(CodeBody {
            locals,
            calls: Items::from(calls),
        })
    }
}

/// Copies calls.
fn copies_of(alloc: Global, calls: &[Call]) -> Result<Vec<Call>, EncodeError>
    ensures ok { IfOk result (λ copies. copies.items ≡ calls.now) }
    ensures err { IfErr result (λ e. e ≡ Memory) }
{
    let mut copies = Vec::with_capacity(alloc, calls.len())?;
    for call in calls {
        copies.push(call.try_clone()?)?;
    }
    Ok(copies)
}

/// The size in bytes of what follows, the list of locals, and the instructions (Core 3.0, Code Section).
///
/// Fails with `TooLong` if there are more than 4,294,967,295 groups of locals, if a list in an instruction is longer,
/// or if the size is over 4,294,967,295.
#[tactic(auto, using(crate::proofs::CodeBodyWriting::body_is_written, crate::proofs::CodeBodyWriting::body_encodes, crate::proofs::CodeBodyWriting::body_minimal))]
impl Encode for CodeBody {
    ghost bytes = { code_body.bytes };

    ghost IsWritten = { IsMinimal code_body.Encodes code_body.bytes };

    ghost CanEncode = { CountedBody };

    ghost refuses = { OnlyTooLong };

    fn encode<A: Allocator>(&self, sink: &mut Vec<u8, A>) -> Result<(), EncodeError>
        ensures ok { OnOk result (sink.new.items ≡ sink.old.items ++ code_body.bytes self.now) }
        ensures can { OnOk result (CountedBody self.now) }
        ensures refused { IfErr result (IsRefusal CountedBody OnlyTooLong self.now) }
        ensures err { OnErr result (sink.new.items ≡ sink.old.items) }
        ensures written { OnOk result (IsMinimal code_body.Encodes code_body.bytes self.now) }
        // The bytes encode the body.
        ensures encodes { OnOk result (code_body.Encodes (code_body.bytes self.now) self.now) }
        // Every other encoding of the body is longer.
        ensures minimal { (bytes : List ℕ) → code_body.Encodes bytes self.now →
            IsMinimalOrLonger bytes (code_body.bytes self.now) }
    {
        let start = sink.len();
        let result = append_body(self, sink);
        keep_or_undo(sink, start, result)
    }
}

/// Appends the size, the locals and the instructions of a body. On error a part of it may remain.
#[tactic(auto, unfolding(crate::specs::formats::CodeBodies::code_body))]
fn append_body<A: Allocator>(body: &CodeBody, sink: &mut Vec<u8, A>) -> Result<(), EncodeError>
    ensures { Appends (code_body.bytes body.now) (CountedBody body.now) (code_body.InRange body.now) sink.old.items sink.new.items result }
{
    let start = sink.len();
    encode_list(body.locals.as_slice(), sink)?;
    append_calls(sink, body.calls.as_slice())?;
    if u32::try_from(sink.len() - start).is_err() {
        return Err(EncodeError::TooLong);
    }
    put_size_before(sink, start)
}
