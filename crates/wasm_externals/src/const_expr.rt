//! Constant expressions (Core 3.0, Expressions).
ghost use Rattle.std.specs.Prelude.{◌≡◌, ◌∷◌, [], IfOk, IfErr, IsOk, ◌↔◌};
ghost use Rattle.wasm_instructions.specs.formats.Instructions.{call};
ghost use Rattle.wasm_instructions.specs.formats.Opcodes.{after_fd, without_prefix};
ghost use Rattle.wasm_instructions.specs.formats.Operands.{v128};
ghost use Rattle.wasm_instructions.specs.Instructions.{IsAligned, IsCall};
ghost use Rattle.wasm_instructions.specs.declared.table.call.Operands.TheVariants as operands;
ghost use Rattle.wasm_externals.specs.ClosedExpressions.{IsClosed, ReadsClosed};
ghost use Rattle.wasm_externals.specs.Making.{Makes};
ghost use Rattle.wasm_externals.specs.HeldCalls.{calls_of};

mod longer;

use crate::expressions::is_closed;
use std::alloc::Global;
use std::fmt;
use std::fmt::Debug;
use std::marker::Model;
use wasm_codec::encode::EncodeError;
use wasm_codec::reader::ReadError;
use wasm_instructions::operands::{Ieee32, Ieee64, V128};
use wasm_instructions::reader::instructions::read_instructions;
use wasm_instructions::table::{Call, Opcode, Operands};
use wasm_lists::list::Items;
use wasm_types::types::HeapType;

/// A constant expression: its instructions without the final `end` (Core 3.0, Expressions).
///
/// Methods such as [`with_i32_add`](ConstExpr::with_i32_add) append an instruction. Every block in an expression is
/// closed. Nothing checks that the instructions are constant. An expression of one instruction allocates nothing. In
/// contracts the expression is the list of its instructions.
///
/// # Examples
///
/// ```
/// # use wasm_encoder::{ConstExpr, InstructionSink};
/// let sixteen = ConstExpr::i32_const(rt.alloc(), 16)?;
/// let mut bytes = Vec::new(rt.alloc());
/// InstructionSink::new(&mut bytes).write_calls(sixteen.as_slice())?.end()?;
/// assert_eq!(rt; bytes.as_slice(), b"\x41\x10\x0b".as_slice());
/// ```
///
/// An expression of several instructions:
///
/// ```
/// # use wasm_encoder::{ConstExpr, InstructionSink};
/// let end = ConstExpr::global_get(rt.alloc(), 0)?.with_i32_const(16)?.with_i32_add()?;
/// let mut bytes = Vec::new(rt.alloc());
/// InstructionSink::new(&mut bytes).write_calls(end.as_slice())?.end()?;
/// assert_eq!(rt; bytes.as_slice(), b"\x23\x00\x41\x10\x6a\x0b".as_slice());
/// ```
#[derive(Debug, Drop)]
pub struct ConstExpr {
    calls: Calls,
}

/// The instructions of an expression.
#[derive(Drop)]
pub(crate) enum Calls {
    /// One instruction without a list, and the allocator for the list.
    One(Global, Call),
    /// Any number of instructions.
    Many(Items<Call>),
}

impl Calls {
    /// Returns the instructions.
    #[inline(always)]
    fn as_slice(&self) -> &[Call]
        ensures value { result.now ≡ calls_of self.now }
    {
        match self {
            Calls::One(_alloc, call) => std::slice::from_ref(call),
            Calls::Many(calls) => calls.as_slice(),
        }
    }
}

/// The list of the instructions.
impl Debug for Calls {
    fn fmt<W: fmt::Write>(&self, f: &mut fmt::Formatter<W>) -> fmt::Result {
        Debug::fmt(self.as_slice(), f)
    }
}

impl Model for ConstExpr {
    ghost use Rattle.std.specs.Prelude.{List};
    ghost use Rattle.wasm_instructions.specs.formats.Instructions.{Instruction};
    ghost use Rattle.wasm_externals.specs.ClosedExpressions.{IsClosed};
    ghost use Rattle.wasm_externals.specs.HeldCalls.{calls_of};

    ghost Value = { List Instruction };

    ghost view = { λ expr. calls_of expr.calls };

    ghost invariant = { λ expr. IsClosed (calls_of expr.calls) };
}

#[tactic(auto, using(crate::proofs::ExpressionLaws::alone_closed), unfolding(wasm_instructions::specs::formats::Opcodes::ranges))]
impl ConstExpr {
    /// Makes an expression of `calls`. Returns `calls` as the error if they leave a block open or close more than they
    /// open.
    pub fn new(calls: Items<Call>) -> Result<ConstExpr, Items<Call>>
        ensures ok { IfOk result (λ expr. expr ≡ calls) }
        ensures err { IfErr result (λ handed. handed ≡ calls) }
        ensures accepts { IsOk result ↔ IsClosed calls }
    {
        if is_closed(calls.as_slice()) {
            Ok(ConstExpr {
                calls: Calls::Many(calls),
            })
        } else {
            Err(calls)
        }
    }

    /// Reads an expression from its instructions, in any encoding and without the final `end`.
    ///
    /// Fails with `Refused` at the first malformed instruction, or at the end of `bytes` if the instructions leave a
    /// block open or close more than they open. Fails with `Memory` if it can't allocate.
    ///
    /// # Examples
    ///
    /// ```
    /// # use wasm_encoder::{ConstExpr, ReadError};
    /// let sum = ConstExpr::raw(rt.alloc(), b"\x23\x00\x41\x10\x6a")?; // global.get 0, i32.const 16, i32.add
    /// assert_eq!(rt; sum.as_slice().len(), 3);
    /// let with_end = ConstExpr::raw(rt.alloc(), b"\x41\x10\x0b");
    /// assert_eq!(rt; with_end.err(), Some(ReadError::Refused { at: 3 }));
    /// ```
    #[tactic(auto, using(crate::proofs::ExpressionLaws::longest_whole))]
    pub fn raw(alloc: Global, bytes: &[u8]) -> Result<ConstExpr, ReadError>
        ensures reads { ReadsClosed bytes.now result }
    {
        let calls = read_instructions(alloc, bytes)?;
        match ConstExpr::new(Items::from(calls)) {
            Ok(expr) => Ok(expr),
            Err(_calls) => Err(ReadError::Refused { at: bytes.len() }),
        }
    }

    /// Returns an expression without instructions. Allocates nothing.
    pub fn empty(alloc: Global) -> ConstExpr
        ensures { result ≡ [] }
    {
        ConstExpr {
            calls: Calls::Many(Items::new(alloc)),
        }
    }

    /// Makes the expression `i32.const value`. Allocates nothing.
    #[inline(always)]
    pub fn i32_const(alloc: Global, value: i32) -> Result<ConstExpr, EncodeError>
        ensures makes { Makes (call (without_prefix 0x41) (operands.I32 value) ∷ []) result }
    {
        ConstExpr::of(alloc, Opcode::without_prefix(0x41), Operands::I32(value))
    }

    /// Makes the expression `i64.const value`. Allocates nothing.
    #[inline(always)]
    pub fn i64_const(alloc: Global, value: i64) -> Result<ConstExpr, EncodeError>
        ensures makes { Makes (call (without_prefix 0x42) (operands.I64 value) ∷ []) result }
    {
        ConstExpr::of(alloc, Opcode::without_prefix(0x42), Operands::I64(value))
    }

    /// Makes the expression `f32.const value`. Allocates nothing.
    #[inline(always)]
    pub fn f32_const(alloc: Global, value: Ieee32) -> Result<ConstExpr, EncodeError>
        ensures makes { Makes (call (without_prefix 0x43) (operands.F32 value) ∷ []) result }
    {
        ConstExpr::of(alloc, Opcode::without_prefix(0x43), Operands::F32(value))
    }

    /// Makes the expression `f64.const value`. Allocates nothing.
    #[inline(always)]
    pub fn f64_const(alloc: Global, value: Ieee64) -> Result<ConstExpr, EncodeError>
        ensures makes { Makes (call (without_prefix 0x44) (operands.F64 value) ∷ []) result }
    {
        ConstExpr::of(alloc, Opcode::without_prefix(0x44), Operands::F64(value))
    }

    /// Makes the expression `v128.const value`. Allocates nothing.
    #[inline(always)]
    pub fn v128_const(alloc: Global, value: i128) -> Result<ConstExpr, EncodeError>
        ensures makes { Makes (call (after_fd 0x0c) (operands.V128 (v128 value)) ∷ []) result }
    {
        ConstExpr::of(
            alloc,
            Opcode::after_fd(0x0C),
            Operands::V128(V128::new(value)),
        )
    }

    /// Makes the expression `global.get index`, with a global index. Allocates nothing.
    #[inline(always)]
    pub fn global_get(alloc: Global, index: u32) -> Result<ConstExpr, EncodeError>
        ensures makes { Makes (call (without_prefix 0x23) (operands.Index index) ∷ []) result }
    {
        ConstExpr::of(alloc, Opcode::without_prefix(0x23), Operands::Index(index))
    }

    /// Makes the expression `ref.null ty`. Allocates nothing.
    #[inline(always)]
    pub fn ref_null(alloc: Global, ty: HeapType) -> Result<ConstExpr, EncodeError>
        ensures makes { Makes (call (without_prefix 0xd0) (operands.Heap ty) ∷ []) result }
    {
        ConstExpr::of(alloc, Opcode::without_prefix(0xD0), Operands::Heap(ty))
    }

    /// Makes the expression `ref.func index`, with a function index. Allocates nothing.
    #[inline(always)]
    pub fn ref_func(alloc: Global, index: u32) -> Result<ConstExpr, EncodeError>
        ensures makes { Makes (call (without_prefix 0xd2) (operands.Index index) ∷ []) result }
    {
        ConstExpr::of(alloc, Opcode::without_prefix(0xD2), Operands::Index(index))
    }

    /// Makes an expression of one instruction, which opens and closes no block. Allocates nothing.
    #[inline(always)]
    #[tactic(auto)]
    fn of(alloc: Global, op: Opcode, immediates: Operands) -> Result<ConstExpr, EncodeError>
        requires call { IsCall op immediates }
        requires aligned { IsAligned immediates }
        requires closed { IsClosed (call op immediates ∷ []) }
        ensures makes { Makes (call op immediates ∷ []) result }
    {
        let calls = Calls::One(alloc, Call::from_parts(op, immediates));
        Ok(ConstExpr { calls })
    }

    /// Returns the instructions, without the final `end`.
    #[inline(always)]
    pub fn as_slice(&self) -> &[Call]
        ensures value { result.now ≡ self.now }
        ensures closed { IsClosed self.now }
    {
        self.calls.as_slice()
    }

    /// Returns the list of instructions, without the final `end`. Fails with `Memory` if it can't allocate the list of
    /// one instruction.
    pub fn into_calls(self) -> Result<Items<Call>, EncodeError>
        ensures makes { Makes self result }
        ensures closed { IsClosed self }
    {
        let ConstExpr { calls } = self;
        match calls {
            Calls::One(alloc, call) => {
                let mut calls = Vec::with_capacity(alloc, 1)?;
                calls.push_reserved(call);
                Ok(Items::from(calls))
            }
            Calls::Many(calls) => Ok(calls),
        }
    }
}
