//! The instruction sink: one method for each instruction (Core 3.0, Instructions).
//!
//! Methods without a list are inlined always: LLVM counts a call after several `?` as rare, and wouldn't inline it.
ghost use Rattle.std.specs.Prelude.{◌≡◌, ◌+◌, ◌*◌, ◌≤◌, vec_len, vec_capacity};

mod aggregates;
mod atomics;
mod control;
mod emit;
mod memory;
mod numeric;
mod parametric;
mod references;
mod stack_switching;
mod tables;
mod variables;
mod vectors;

use std::alloc::Allocator;
use wasm_codec::encode::EncodeError;
use wasm_instructions::calls::{append_call, append_calls};
use wasm_instructions::table::Call;

/// The bytes that are reserved for a call without a list.
const ROOM: usize = 24;

/// Appends instructions to a list of bytes.
///
/// Each method takes the sink by value and returns it, so you chain calls with `?`. The documentation of a method gives
/// the instruction's name in the text format, the bytes of its opcode, and its operands in the order in which they are
/// written.
///
/// Every method fails with `Memory` if the list can't grow. If it can fail with another error, its documentation says
/// so. On error the list is as it was before the call.
///
/// # Examples
///
/// ```
/// # use wasm_encoder::{BlockType, InstructionSink};
/// let mut code = Vec::new(rt.alloc());
/// InstructionSink::new(&mut code)
///     .block(BlockType::Empty)?
///     .local_get(66)?
///     .br_if(0)?
///     .end()?;
/// assert_eq!(rt; code.as_slice(), b"\x02\x40\x20\x42\x0d\x00\x0b".as_slice());
/// ```
#[derive(Drop)]
pub struct InstructionSink<'a, A: Allocator> {
    bytes: &'a mut Vec<u8, A>,
    /// For how many calls without a list the list of bytes has room, 24 bytes each.
    calls: u32,
    ghost reserved: { vec_len bytes.now + 24 * calls ≤ vec_capacity bytes.now },
}

impl<'a, A: Allocator> InstructionSink<'a, A> {
    ghost use Rattle.std.specs.Borrow.{sem};
    ghost use Rattle.wasm_sink.specs.Sink.{IsUnchangedAtErr, EmitsCall, EmitsCalls, Reserves};

    /// Returns a sink that appends to `bytes`.
    pub fn new(bytes: &'a mut Vec<u8, A>) -> InstructionSink<'a, A>
        ensures same_reference { result.bytes.ghost_name ≡ bytes.entry.ghost_name }
        ensures value { result.bytes.now ≡ bytes.old }
    {
        InstructionSink { bytes, calls: 0 }
    }

    /// Reserves room for `calls` calls. So many calls that follow grow nothing and can't fail with `Memory`, unless one
    /// of them has a list, or is [`write_call`](InstructionSink::write_call) or
    /// [`write_calls`](InstructionSink::write_calls), which leave no room.
    ///
    /// It reserves 24 bytes for each call. In a chain after a constant number of calls, none tests whether it has room.
    ///
    /// Fails with `Memory` if the list can't grow by 24 bytes for each call.
    ///
    /// # Examples
    ///
    /// ```
    /// # use wasm_encoder::InstructionSink;
    /// let mut code = Vec::new(rt.alloc());
    /// InstructionSink::new(&mut code).with_room(3)?.local_get(0)?.local_get(1)?.i32_add()?;
    /// assert_eq!(rt; code.as_slice(), b"\x20\x00\x20\x01\x6a".as_slice());
    /// ```
    pub fn with_room(self, calls: u32) -> Result<InstructionSink<'a, A>, EncodeError>
        ensures reserves { Reserves self.entry calls result }
        ensures* unchanged { sem 𝓛 (IsUnchangedAtErr A.row A.Allocator self.entry result) }
    {
        let InstructionSink { bytes, .. } = self;
        bytes.reserve(calls as usize * ROOM)?;
        Ok(InstructionSink { bytes, calls })
    }

    /// Appends the minimal encoding of `call`.
    ///
    /// Fails with `TooLong` if a list in it has more than 4,294,967,295 items.
    pub fn write_call(self, call: &Call) -> Result<InstructionSink<'a, A>, EncodeError>
        ensures emits { EmitsCall self.entry call.now result }
        ensures* unchanged { sem 𝓛 (IsUnchangedAtErr A.row A.Allocator self.entry result) }
    {
        let InstructionSink { bytes, .. } = self;
        append_call(bytes, call)?;
        Ok(InstructionSink { bytes, calls: 0 })
    }

    /// Appends the minimal encodings of `calls`, all of them or none.
    ///
    /// It first asks for room for them, as [`with_room`](InstructionSink::with_room) does. If the list can't grow by so
    /// much, each call asks for its own room.
    ///
    /// Fails with `TooLong` if a list in a call has more than 4,294,967,295 items.
    #[tactic(auto, using(crate::proofs::ChainLaws::same_as_chain))]
    pub fn write_calls(self, calls: &[Call]) -> Result<InstructionSink<'a, A>, EncodeError>
        ensures emits { EmitsCalls self.entry calls.now result }
        ensures* unchanged { sem 𝓛 (IsUnchangedAtErr A.row A.Allocator self.entry result) }
    {
        let InstructionSink { bytes, .. } = self;
        let _ = bytes.reserve(calls.len().saturating_mul(ROOM));
        append_calls(bytes, calls)?;
        Ok(InstructionSink { bytes, calls: 0 })
    }
}
