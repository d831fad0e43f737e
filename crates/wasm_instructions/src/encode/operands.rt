//! Writers of operands into reserved room (Core 3.0, Instructions).
ghost use Rattle.std.specs.Prelude.{◌≡◌, ◌++◌, ◌+◌, ◌<◌, ◌≤◌, vec_len, vec_capacity};
ghost use Rattle.wasm_codec.specs.formats.Combinators.{little_endian};
ghost use Rattle.wasm_instructions.specs.Operands.{BlockTypeFits, CatchFits, HandleFits};
ghost use Rattle.wasm_instructions.specs.OperandParts.{MemArgInRange};
ghost use Rattle.wasm_instructions.specs.formats.Operands.{block_type, castop, catch_clause, handle_clause, lanes as lanes_format, mem_arg, ordering as ordering_format, vector};
ghost use Rattle.wasm_codec.specs.declared.encode.EncodeError.TheVariants.{Alignment};
ghost use Rattle.wasm_codec.specs.Encoding.{IsMinimal};
ghost use Rattle.wasm_instructions.specs.Instructions.{NumbersInRange};
ghost use Rattle.wasm_instructions.specs.declared.table.call.Operands.TheVariants as operands;
ghost use Rattle.wasm_instructions.specs.MemArgs.{HasAlignment, misaligned_at_once};

use crate::operands::{BlockType, Catch, Handle, Lane, MemArg, Ordering, V128};
use std::alloc::Allocator;
use wasm_codec::encode::EncodeError;
use wasm_codec::encode::leb128::{put_index, put_u32, put_u64};
use wasm_lists::encode::Encode;
use wasm_types::types::put_val_type;

/// Writes a block type in 1 to 7 bytes (Core 3.0, Control Instructions).
#[inline(always)]
#[tactic(auto, unfolding(crate::specs::formats::Operands::block_type))]
pub fn put_block_type<A: Allocator>(bytes: &mut Vec<u8, A>, ty: BlockType)
    requires { vec_len bytes.old + 7 ≤ vec_capacity bytes.old }
    ensures items { bytes.new.items ≡ bytes.old.items ++ block_type.bytes ty }
    ensures fits { BlockTypeFits ty }
    ensures len { vec_len bytes.new ≤ vec_len bytes.old + 7 }
    ensures capacity { vec_capacity bytes.new ≡ vec_capacity bytes.old }
{
    match ty {
        BlockType::Empty => bytes.push_reserved(0x40),
        BlockType::Result(ty) => put_val_type(bytes, ty),
        BlockType::FunctionType(index) => put_index(bytes, index),
    }
}

/// Writes a memory argument in 2 to 16 bytes, without the index of memory 0 (Core 3.0, Memory Instructions).
#[tactic(auto, unfolding(crate::specs::formats::Operands::mem_arg, wasm_codec::specs::Leb128::unsigned_leb128, wasm_codec::specs::Leb128::digits_of))]
pub fn put_mem_arg<A: Allocator>(bytes: &mut Vec<u8, A>, arg: MemArg)
    requires aligned { arg.align < 64 }
    requires room { vec_len bytes.old + 16 ≤ vec_capacity bytes.old }
    ensures items { bytes.new.items ≡ bytes.old.items ++ mem_arg.bytes arg }
    ensures fits { MemArgInRange arg }
    ensures len { vec_len bytes.new ≤ vec_len bytes.old + 16 }
    ensures capacity { vec_capacity bytes.new ≡ vec_capacity bytes.old }
{
    if arg.memory_index == 0 {
        bytes.push_reserved(arg.align as u8);
    } else {
        bytes.push_reserved(arg.align as u8 + 64);
        put_u32(bytes, arg.memory_index);
    }
    put_u64(bytes, arg.offset);
}

/// Writes a clause of `try_table` in 2 to 11 bytes (Core 3.0, Control Instructions).
#[tactic(auto, unfolding(crate::specs::formats::Operands::catch_clause))]
pub fn put_catch<A: Allocator>(bytes: &mut Vec<u8, A>, clause: Catch)
    requires { vec_len bytes.old + 11 ≤ vec_capacity bytes.old }
    ensures items { bytes.new.items ≡ bytes.old.items ++ catch_clause.bytes clause }
    ensures fits { CatchFits clause }
    ensures len { vec_len bytes.new ≤ vec_len bytes.old + 11 }
    ensures capacity { vec_capacity bytes.new ≡ vec_capacity bytes.old }
{
    match clause {
        Catch::One { tag, label } => {
            bytes.push_reserved(0x00);
            put_u32(bytes, tag);
            put_u32(bytes, label);
        }
        Catch::OneRef { tag, label } => {
            bytes.push_reserved(0x01);
            put_u32(bytes, tag);
            put_u32(bytes, label);
        }
        Catch::All { label } => {
            bytes.push_reserved(0x02);
            put_u32(bytes, label);
        }
        Catch::AllRef { label } => {
            bytes.push_reserved(0x03);
            put_u32(bytes, label);
        }
    }
}

/// Writes a clause of `resume` in 2 to 11 bytes.
#[tactic(auto, unfolding(crate::specs::formats::Operands::handle_clause))]
pub fn put_handle<A: Allocator>(bytes: &mut Vec<u8, A>, clause: Handle)
    requires { vec_len bytes.old + 11 ≤ vec_capacity bytes.old }
    ensures items { bytes.new.items ≡ bytes.old.items ++ handle_clause.bytes clause }
    ensures fits { HandleFits clause }
    ensures len { vec_len bytes.new ≤ vec_len bytes.old + 11 }
    ensures capacity { vec_capacity bytes.new ≡ vec_capacity bytes.old }
{
    match clause {
        Handle::OnLabel { tag, label } => {
            bytes.push_reserved(0x00);
            put_u32(bytes, tag);
            put_u32(bytes, label);
        }
        Handle::OnSwitch { tag } => {
            bytes.push_reserved(0x01);
            put_u32(bytes, tag);
        }
    }
}

/// Writes an ordering in one byte.
#[tactic(auto, unfolding(crate::specs::formats::Operands::ordering))]
pub fn put_ordering<A: Allocator>(bytes: &mut Vec<u8, A>, ordering: Ordering)
    requires { vec_len bytes.old + 1 ≤ vec_capacity bytes.old }
    ensures items { bytes.new.items ≡ bytes.old.items ++ ordering_format.bytes ordering }
    ensures len { vec_len bytes.new ≤ vec_len bytes.old + 1 }
    ensures capacity { vec_capacity bytes.new ≡ vec_capacity bytes.old }
{
    match ordering {
        Ordering::SeqCst => bytes.push_reserved(0x00),
        Ordering::AcqRel => bytes.push_reserved(0x01),
    }
}

/// Writes the flags of a branch on a cast in one byte. Bit 0 means that the type before the cast is nullable, bit 1 the
/// type after it.
#[inline]
#[tactic(auto, unfolding(crate::specs::formats::Operands::castop))]
pub fn put_castop<A: Allocator>(bytes: &mut Vec<u8, A>, before: bool, after: bool)
    requires { vec_len bytes.old + 1 ≤ vec_capacity bytes.old }
    ensures items { bytes.new.items ≡ bytes.old.items ++ castop.bytes (before, after) }
    ensures len { vec_len bytes.new ≤ vec_len bytes.old + 1 }
    ensures capacity { vec_capacity bytes.new ≡ vec_capacity bytes.old }
{
    match (before, after) {
        (false, false) => bytes.push_reserved(0),
        (true, false) => bytes.push_reserved(1),
        (false, true) => bytes.push_reserved(2),
        (true, true) => bytes.push_reserved(3),
    }
}

/// Writes a number in 4 bytes, little-endian.
#[tactic(auto, unfolding(wasm_codec::specs::formats::Combinators::little_endian))]
pub fn put_bits_32<A: Allocator>(bytes: &mut Vec<u8, A>, value: u32)
    requires { vec_len bytes.old + 4 ≤ vec_capacity bytes.old }
    ensures items { bytes.new.items ≡ bytes.old.items ++ (little_endian 4).bytes value }
    ensures len { vec_len bytes.new ≤ vec_len bytes.old + 4 }
    ensures capacity { vec_capacity bytes.new ≡ vec_capacity bytes.old }
{
    let second = value / 0x100;
    let third = second / 0x100;
    let fourth = third / 0x100;
    bytes.push_reserved((value % 0x100) as u8);
    bytes.push_reserved((second % 0x100) as u8);
    bytes.push_reserved((third % 0x100) as u8);
    bytes.push_reserved((fourth % 0x100) as u8);
}

/// Writes a number in 8 bytes, little-endian.
#[tactic(auto, unfolding(wasm_codec::specs::formats::Combinators::little_endian))]
pub fn put_bits_64<A: Allocator>(bytes: &mut Vec<u8, A>, value: u64)
    requires { vec_len bytes.old + 8 ≤ vec_capacity bytes.old }
    ensures items { bytes.new.items ≡ bytes.old.items ++ (little_endian 8).bytes value }
    ensures len { vec_len bytes.new ≤ vec_len bytes.old + 8 }
    ensures capacity { vec_capacity bytes.new ≡ vec_capacity bytes.old }
{
    let second = value / 0x100;
    let third = second / 0x100;
    let fourth = third / 0x100;
    let fifth = fourth / 0x100;
    let sixth = fifth / 0x100;
    let seventh = sixth / 0x100;
    let eighth = seventh / 0x100;
    bytes.push_reserved((value % 0x100) as u8);
    bytes.push_reserved((second % 0x100) as u8);
    bytes.push_reserved((third % 0x100) as u8);
    bytes.push_reserved((fourth % 0x100) as u8);
    bytes.push_reserved((fifth % 0x100) as u8);
    bytes.push_reserved((sixth % 0x100) as u8);
    bytes.push_reserved((seventh % 0x100) as u8);
    bytes.push_reserved((eighth % 0x100) as u8);
}

/// Writes a vector in 16 bytes, little-endian.
#[tactic(auto, unfolding(crate::specs::formats::Operands::vector))]
pub fn put_vector<A: Allocator>(bytes: &mut Vec<u8, A>, value: V128)
    requires { vec_len bytes.old + 16 ≤ vec_capacity bytes.old }
    ensures items { bytes.new.items ≡ bytes.old.items ++ vector.bytes value }
    ensures len { vec_len bytes.new ≤ vec_len bytes.old + 16 }
    ensures capacity { vec_capacity bytes.new ≡ vec_capacity bytes.old }
{
    put_bits_64(bytes, value.low);
    put_bits_64(bytes, value.high);
}

/// Writes sixteen lane indexes in 16 bytes (Core 3.0, Vector Instructions).
#[tactic(auto, unfolding(crate::specs::formats::Operands::lanes))]
pub fn put_lanes<A: Allocator>(bytes: &mut Vec<u8, A>, lanes: [Lane; 16])
    requires { vec_len bytes.old + 16 ≤ vec_capacity bytes.old }
    ensures items { bytes.new.items ≡ bytes.old.items ++ lanes_format.bytes lanes }
    ensures fits { NumbersInRange (operands.Shuffle lanes) }
    ensures len { vec_len bytes.new ≤ vec_len bytes.old + 16 }
    ensures capacity { vec_capacity bytes.old ≤ vec_capacity bytes.new }
{
    // It can't fail, because the room is reserved.
    let _ = bytes.extend_from_slice(&lanes);
}

/// `0x40` for no result, a value type, or a type index as an s33 (Core 3.0, Control Instructions).
#[tactic(auto, using(crate::proofs::CallRanges::block_written))]
impl Encode for BlockType {
    ghost bytes = { block_type.bytes };

    ghost IsWritten = { IsMinimal block_type.Encodes block_type.bytes };

    fn encode<A: Allocator>(&self, sink: &mut Vec<u8, A>) -> Result<(), EncodeError> {
        sink.reserve(7)?;
        put_block_type(sink, *self);
        Ok(())
    }
}

/// The alignment, the memory index unless it is 0, and the offset (Core 3.0, Memory Instructions).
///
/// Fails with [`EncodeError::Alignment`] if the alignment is 64 or more, before it allocates.
impl Encode for MemArg {
    ghost bytes = { mem_arg.bytes };

    ghost IsWritten = { IsMinimal mem_arg.Encodes mem_arg.bytes };

    ghost CanEncode = { HasAlignment };

    ghost refuses = { λ _ e. e ≡ Alignment };

    ghost at_once = { misaligned_at_once };

    fn encode<A: Allocator>(&self, sink: &mut Vec<u8, A>) -> Result<(), EncodeError> {
        if self.align >= 64 {
            return Err(EncodeError::Alignment);
        }
        sink.reserve(16)?;
        put_mem_arg(sink, *self);
        Ok(())
    }
}

/// The byte of the clause, its tag index, if any, and its label (Core 3.0, Control Instructions).
#[tactic(auto, using(crate::proofs::CallRanges::catch_written))]
impl Encode for Catch {
    ghost bytes = { catch_clause.bytes };

    ghost IsWritten = { IsMinimal catch_clause.Encodes catch_clause.bytes };

    fn encode<A: Allocator>(&self, sink: &mut Vec<u8, A>) -> Result<(), EncodeError> {
        sink.reserve(11)?;
        put_catch(sink, *self);
        Ok(())
    }
}

/// The byte of the clause, its tag index, and its label, if any (stack switching proposal).
#[tactic(auto, using(crate::proofs::CallRanges::handle_written))]
impl Encode for Handle {
    ghost bytes = { handle_clause.bytes };

    ghost IsWritten = { IsMinimal handle_clause.Encodes handle_clause.bytes };

    fn encode<A: Allocator>(&self, sink: &mut Vec<u8, A>) -> Result<(), EncodeError> {
        sink.reserve(11)?;
        put_handle(sink, *self);
        Ok(())
    }
}

/// One byte (threads proposal).
impl Encode for Ordering {
    ghost bytes = { ordering_format.bytes };

    ghost IsWritten = { IsMinimal ordering_format.Encodes ordering_format.bytes };

    fn encode<A: Allocator>(&self, sink: &mut Vec<u8, A>) -> Result<(), EncodeError> {
        sink.reserve(1)?;
        put_ordering(sink, *self);
        Ok(())
    }
}
