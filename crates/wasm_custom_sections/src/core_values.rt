//! Values in core dumps: of locals, and on the stack (tool conventions, Core Dumps).
ghost use Rattle.std.specs.Prelude.{refl, IfErr};
ghost use Rattle.wasm_codec.specs.Encoding.{IsMinimal};
ghost use Rattle.wasm_codec.specs.Inputs.{Passes, Takes};
ghost use Rattle.wasm_codec.specs.Outcomes.{IsMalformed};
ghost use Rattle.wasm_codec.specs.formats.Combinators.{little_endian, s32 as s32_format, s64 as s64_format};
ghost use Rattle.wasm_custom_sections.specs.declared.core_values.CoreDumpValue.{CoreDumpValue};
ghost use Rattle.wasm_custom_sections.specs.formats.CoreStacks.{core_value};

use std::alloc::{Allocator, Global};
use wasm_codec::encode::EncodeError;
use wasm_codec::encode::leb128::{put_i32, put_i64};
use wasm_codec::input::Input;
use wasm_codec::reader::cursor::{Cursor, Fault};
use wasm_codec::reader::malformed::Construct;
use wasm_codec::rewriter::Rewriter;
use wasm_instructions::encode::{put_bits_32, put_bits_64};
use wasm_instructions::operands::{Ieee32, Ieee64};
use wasm_instructions::reader::operands::{read_bits_32, read_bits_64};
use wasm_lists::encode::Encode;
use wasm_lists::list::Items;
use wasm_lists::readable::{Item, Readable};
use wasm_lists::reading::read_list;
use wasm_lists::rewriting::rewrite_list;

/// A value of a local or on the stack.
///
/// # Examples
///
/// ```
/// # use wasm_encoder::{CoreDumpValue, Encode, Ieee32};
/// let mut bytes = Vec::new(rt.alloc());
/// CoreDumpValue::Missing.encode(&mut bytes)?;
/// CoreDumpValue::I32(-1).encode(&mut bytes)?;
/// CoreDumpValue::F32(Ieee32::new(0x3f80_0000)).encode(&mut bytes)?; // 1.0
/// assert_eq!(rt; bytes.as_slice(), b"\x01\x7f\x7f\x7d\x00\x00\x80\x3f".as_slice());
/// ```
#[derive(Clone, Copy, Debug, PartialEq, Eq)]
pub enum CoreDumpValue {
    /// A value that is missing, often because it was optimised away: 0x01.
    Missing,
    /// A number of type `i32`: 0x7F.
    I32(i32),
    /// A number of type `i64`: 0x7E.
    I64(i64),
    /// A number of type `f32`: 0x7D.
    F32(Ieee32),
    /// A number of type `f64`: 0x7C.
    F64(Ieee64),
}

/// An input of constants.
pub trait ConstantInput: Input {
    /// Takes an s32 (Core 3.0, Integers).
    fn s32(&mut self) -> Result<i32, Fault>
        ensures takes { Takes Self.writes s32_format (Self.state self.old) (Self.state self.new) result };

    /// Takes an s64 (Core 3.0, Integers).
    fn s64(&mut self) -> Result<i64, Fault>
        ensures takes { Takes Self.writes s64_format (Self.state self.old) (Self.state self.new) result };

    /// Passes a little-endian number of 4 bytes. Returns it if the input only reads, and else 0.
    fn bits_32(&mut self) -> Result<u32, Fault>
        ensures passes { Passes Self.writes (λ n. n) (little_endian 4) (Self.state self.old) (Self.state self.new) result }
        ensures err { IfErr result IsMalformed };

    /// Passes a little-endian number of 8 bytes. Returns it if the input only reads, and else 0.
    fn bits_64(&mut self) -> Result<u64, Fault>
        ensures passes { Passes Self.writes (λ n. n) (little_endian 8) (Self.state self.old) (Self.state self.new) result }
        ensures err { IfErr result IsMalformed };
}

impl<'a> ConstantInput for Cursor<'a> {
    #[inline(always)]
    fn s32(&mut self) -> Result<i32, Fault> {
        Cursor::s32(self)
    }

    #[inline(always)]
    fn s64(&mut self) -> Result<i64, Fault> {
        Cursor::s64(self)
    }

    #[inline(always)]
    fn bits_32(&mut self) -> Result<u32, Fault> {
        read_bits_32(self)
    }

    #[inline(always)]
    fn bits_64(&mut self) -> Result<u64, Fault> {
        read_bits_64(self)
    }
}

impl ConstantInput for Rewriter<'_> {
    #[inline(always)]
    fn s32(&mut self) -> Result<i32, Fault> {
        Rewriter::s32(self)
    }

    #[inline(always)]
    fn s64(&mut self) -> Result<i64, Fault> {
        Rewriter::s64(self)
    }

    #[inline(always)]
    fn bits_32(&mut self) -> Result<u32, Fault> {
        self.number(4)?;
        Ok(0)
    }

    #[inline(always)]
    fn bits_64(&mut self) -> Result<u64, Fault> {
        self.number(8)?;
        Ok(0)
    }
}

/// Takes a value (tool conventions, Core Dumps).
#[tactic(auto, unfolding(crate::specs::formats::CoreStacks::core_value))]
fn take_value<I: ConstantInput>(input: &mut I) -> Result<CoreDumpValue, Fault>
    ensures passes { Passes I.writes (λ x. x) core_value (I.state input.old) (I.state input.new) result }
    ensures err { IfErr result IsMalformed }
{
    match input.byte_of(Construct::CoreDumpValue)? {
        0x01 => Ok(CoreDumpValue::Missing),
        0x7F => Ok(CoreDumpValue::I32(input.s32()?)),
        0x7E => Ok(CoreDumpValue::I64(input.s64()?)),
        0x7D => Ok(CoreDumpValue::F32(Ieee32::new(input.bits_32()?))),
        0x7C => Ok(CoreDumpValue::F64(Ieee64::new(input.bits_64()?))),
        byte => Err(Fault::Malformed(input.invalid(Construct::CoreDumpValue, byte))),
    }
}

impl<'a> Readable<'a> for CoreDumpValue {
    ghost Value = { CoreDumpValue };

    ghost view = { λ x. x };

    ghost views = { λ xs. xs };

    ghost views_each = { record { none = refl; more = λ xs x. refl } };

    ghost format = { core_value };

    #[inline(always)]
    #[tactic(auto, using(crate::proofs::CoreValueLaws::value_is_lawful, crate::proofs::CoreValueLaws::value_takes))]
    fn is_lawful() {}

    fn read(_alloc: Global, cursor: &mut Cursor<'a>) -> Result<CoreDumpValue, Fault> {
        take_value(cursor)
    }

    fn rewrite(rewriter: &mut Rewriter) -> Result<(), Fault> {
        take_value(rewriter)?;
        Ok(())
    }
}

/// The byte of the kind, and the number: an `i32` or an `i64` in LEB128, an `f32` or an `f64` in 4 or 8 bytes.
#[tactic(auto, using(crate::proofs::CoreValueLaws::value_written), unfolding(crate::specs::formats::CoreStacks::core_value))]
impl Encode for CoreDumpValue {
    ghost bytes = { core_value.bytes };

    ghost IsWritten = { IsMinimal core_value.Encodes core_value.bytes };

    fn encode<A: Allocator>(&self, sink: &mut Vec<u8, A>) -> Result<(), EncodeError> {
        sink.reserve(11)?;
        match *self {
            CoreDumpValue::Missing => sink.push_reserved(0x01),
            CoreDumpValue::I32(number) => {
                sink.push_reserved(0x7F);
                put_i32(sink, number);
            }
            CoreDumpValue::I64(number) => {
                sink.push_reserved(0x7E);
                put_i64(sink, number);
            }
            CoreDumpValue::F32(number) => {
                sink.push_reserved(0x7D);
                put_bits_32(sink, number.bits());
            }
            CoreDumpValue::F64(number) => {
                sink.push_reserved(0x7C);
                put_bits_64(sink, number.bits());
            }
        }
        Ok(())
    }
}
