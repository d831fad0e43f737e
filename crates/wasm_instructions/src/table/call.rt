//! `Call`, an opcode with operands of its kind.
ghost use Rattle.std.specs.Prelude.{◌≡◌, IfOk, IfErr, IsOk, IsTrue, is_some, true, ◌↔◌};
ghost use Rattle.wasm_instructions.specs.Instructions.{NumbersInRange, IsAligned, IsCall, IsShort, kind_of};
ghost use Rattle.wasm_instructions.specs.formats.Instructions.{call};
ghost use Rattle.wasm_instructions.specs.formats.Opcodes.{opcode_kind};
ghost use Rattle.wasm_codec.specs.declared.encode.EncodeError.TheVariants.{Memory};

use crate::operands::{BlockType, Catch, Handle, Ieee32, Ieee64, Lane, MemArg, Ordering, V128};
use crate::table::opcode::{Kind, Opcode};
use std::marker::Model;
use std::mem::size_of;
use wasm_codec::encode::EncodeError;
use wasm_lists::list::{BoxedItems, Items};
use wasm_types::types::{HeapType, RefType, ValType};

/// The operands of an instruction. It has one variant for each [`Kind`], with fields in the order of the binary format.
#[derive(Debug, PartialEq, Eq, Drop)]
pub enum Operands {
    /// No operands.
    None,
    /// A block type.
    Block(BlockType),
    /// An index, such as that of a local, a function or a label.
    Index(u32),
    /// Two indexes, in the order of the binary format.
    TwoIndexes(u32, u32),
    /// The labels of a `br_table`, and its default label.
    BrTable(Items<u32>, u32),
    /// The types of a `select`.
    Types(Items<ValType>),
    /// The block type of a `try_table`, and its clauses.
    TryTable(BlockType, BoxedItems<Catch>),
    /// A memory argument.
    Mem(MemArg),
    /// The constant of an `i32.const`.
    I32(i32),
    /// The constant of an `i64.const`.
    I64(i64),
    /// The constant of an `f32.const`.
    F32(Ieee32),
    /// The constant of an `f64.const`.
    F64(Ieee64),
    /// A heap type.
    Heap(HeapType),
    /// The index of a `resume`'s continuation type, and its clauses.
    Resume(u32, Items<Handle>),
    /// The index of a `resume_throw`'s continuation type, the index of its tag, and its clauses.
    ResumeThrow(u32, u32, Items<Handle>),
    /// The label of a branch on a cast, and the types before and after the cast.
    Cast(u32, RefType, RefType),
    /// The constant of a `v128.const`.
    V128(V128),
    /// The lane indexes of an `i8x16.shuffle`.
    Shuffle([Lane; 16]),
    /// A lane index.
    Lane(Lane),
    /// A memory argument and a lane index.
    MemLane(MemArg, Lane),
    /// An ordering.
    Order(Ordering),
    /// An ordering and an index.
    OrderIndex(Ordering, u32),
    /// An ordering and two indexes.
    OrderTwoIndexes(Ordering, u32, u32),
}

/// An instruction: an opcode of the table with operands of its kind (Core 3.0, Instructions).
///
/// # Examples
///
/// ```
/// # use wasm_encoder::{Call, Opcode, Operands};
/// let local_get = Opcode::without_prefix(0x20);
/// let call = Call::new(local_get, Operands::Index(1));
/// assert!(rt; call.is_ok());
/// let other_kind = Call::new(local_get, Operands::I32(1));
/// assert_eq!(rt; other_kind.err(), Some(Operands::I32(1)));
/// ```
///
/// `Display` writes the instruction as `wasmcanon --list` does:
///
/// ```
/// # use wasm_encoder::{Call, MemArg, Operands};
/// let arg = MemArg {
///     offset: 8,
///     align: 2,
///     memory_index: 0,
/// };
/// let load = Call::named("i32.load", Operands::Mem(arg)).map_err(|_| "operands of another kind")?;
/// let text = load.to_string(rt.alloc())?;
/// assert_eq!(rt; text.as_str(), "i32.load offset=8 align=4");
/// ```
#[derive(Debug, PartialEq, Eq, Drop)]
pub struct Call {
    op: Opcode,
    operands: Operands,
}

// The opcode has 8 bytes, and the operands have 40. Modules have many instructions, so their size matters.
const _: () = prove!(size_of::<Call>() == 48);

impl Model for Call {
    ghost use Rattle.wasm_instructions.specs.formats.Instructions.{Instruction};
    ghost use Rattle.wasm_instructions.specs.Instructions.{IsCall, NumbersInRange};

    ghost Value = { Instruction };

    ghost view = { λ c. record { op = c.op; operands = c.operands } };

    ghost invariant = { λ c. IsCall c.op c.operands × NumbersInRange c.operands };

    ghost inverse = { λ i. record { op = i.op; operands = i.operands } };
}

impl Operands {
    /// Returns the kind of the operands.
    pub fn kind(&self) -> Kind
        ensures { result ≡ kind_of self.now }
    {
        match self {
            Operands::None => Kind::None,
            Operands::Block(_) => Kind::Block,
            Operands::Index(_) => Kind::Index,
            Operands::TwoIndexes(_, _) => Kind::TwoIndexes,
            Operands::BrTable(_, _) => Kind::BrTable,
            Operands::Types(_) => Kind::Types,
            Operands::TryTable(_, _) => Kind::TryTable,
            Operands::Mem(_) => Kind::Mem,
            Operands::I32(_) => Kind::I32,
            Operands::I64(_) => Kind::I64,
            Operands::F32(_) => Kind::F32,
            Operands::F64(_) => Kind::F64,
            Operands::Heap(_) => Kind::Heap,
            Operands::Resume(_, _) => Kind::Resume,
            Operands::ResumeThrow(_, _, _) => Kind::ResumeThrow,
            Operands::Cast(_, _, _) => Kind::Cast,
            Operands::V128(_) => Kind::V128,
            Operands::Shuffle(_) => Kind::Shuffle,
            Operands::Lane(_) => Kind::Lane,
            Operands::MemLane(_, _) => Kind::MemLane,
            Operands::Order(_) => Kind::Order,
            Operands::OrderIndex(_, _) => Kind::OrderIndex,
            Operands::OrderTwoIndexes(_, _, _) => Kind::OrderTwoIndexes,
        }
    }

    /// Checks whether every alignment is below 64, so that the format can encode it.
    pub(crate) fn is_aligned(&self) -> bool
        ensures { IsTrue result ↔ IsAligned self.now }
    {
        match self {
            Operands::Mem(arg) | Operands::MemLane(arg, _) => arg.align < 64,
            _ => true,
        }
    }

    /// Returns a copy. Fails with `Memory` if an allocation fails.
    pub fn try_clone(&self) -> Result<Operands, EncodeError>
        ensures ok { IfOk result (λ o. o ≡ self.now) }
        ensures err { IfErr result (λ e. e ≡ Memory) }
    {
        Ok(match self {
            Operands::None => Operands::None,
            Operands::Block(ty) => Operands::Block(*ty),
            Operands::Index(index) => Operands::Index(*index),
            Operands::TwoIndexes(first, second) => Operands::TwoIndexes(*first, *second),
            Operands::BrTable(labels, default) => Operands::BrTable(labels.try_clone()?, *default),
            Operands::Types(types) => Operands::Types(types.try_clone()?),
            Operands::TryTable(ty, clauses) => Operands::TryTable(*ty, clauses.try_clone()?),
            Operands::Mem(arg) => Operands::Mem(*arg),
            Operands::I32(value) => Operands::I32(*value),
            Operands::I64(value) => Operands::I64(*value),
            Operands::F32(value) => Operands::F32(*value),
            Operands::F64(value) => Operands::F64(*value),
            Operands::Heap(ty) => Operands::Heap(*ty),
            Operands::Resume(index, handlers) => Operands::Resume(*index, handlers.try_clone()?),
            Operands::ResumeThrow(index, tag, handlers) => {
                Operands::ResumeThrow(*index, *tag, handlers.try_clone()?)
            }
            Operands::Cast(label, before, after) => Operands::Cast(*label, *before, *after),
            Operands::V128(value) => Operands::V128(*value),
            Operands::Shuffle(lanes) => Operands::Shuffle(*lanes),
            Operands::Lane(lane) => Operands::Lane(*lane),
            Operands::MemLane(arg, lane) => Operands::MemLane(*arg, *lane),
            Operands::Order(ordering) => Operands::Order(*ordering),
            Operands::OrderIndex(ordering, index) => Operands::OrderIndex(*ordering, *index),
            Operands::OrderTwoIndexes(ordering, first, second) => {
                Operands::OrderTwoIndexes(*ordering, *first, *second)
            }
        })
    }
}

impl Call {
    /// Returns the call of an opcode with these operands.
    ///
    /// Fails with the operands if the opcode isn't in the table or has operands of another kind, or if an alignment is
    /// 64 or more.
    pub fn new(op: Opcode, operands: Operands) -> Result<Call, Operands>
        ensures ok { IfOk result (λ c. c ≡ call op operands) }
        ensures err { IfErr result (λ o. o ≡ operands) }
        ensures accepts { IsOk result ↔ (IsCall op operands × IsAligned operands) }
    {
        if op.kind() == Some(operands.kind()) && operands.is_aligned() {
            Ok(Call { op, operands })
        } else {
            Err(operands)
        }
    }

    /// Returns the call of an opcode with operands that are known to fit it.
    pub fn from_parts(op: Opcode, operands: Operands) -> Call
        requires call { IsCall op operands }
        requires aligned { IsAligned operands }
        ensures { result ≡ call op operands }
    {
        Call { op, operands }
    }

    /// Returns the opcode.
    #[tactic(auto, using(crate::proofs::OpcodeLaws::in_table_short))]
    pub fn op(&self) -> Opcode
        ensures value { result ≡ self.now.op }
        ensures short { IsShort result }
        ensures known { is_some (opcode_kind result) ≡ true }
    {
        self.op
    }

    /// Returns the operands.
    pub fn operands(&self) -> &Operands
        ensures value { result.now ≡ self.now.operands }
        ensures fits { IsCall self.now.op result.now }
        // Numbers outside lists are in range, and alignments are below 64.
        ensures in_range { NumbersInRange result.now }
    {
        &self.operands
    }

    /// Returns a copy. Fails with `Memory` if an allocation fails.
    pub fn try_clone(&self) -> Result<Call, EncodeError>
        ensures ok { IfOk result (λ c. c ≡ self.now) }
        ensures err { IfErr result (λ e. e ≡ Memory) }
    {
        let operands = self.operands.try_clone()?;
        Ok(Call {
            op: self.op,
            operands,
        })
    }
}
