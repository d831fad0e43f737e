//! Constant expressions of several instructions (Core 3.0, Constant Expressions).
ghost use Rattle.std.specs.Prelude.{◌≡◌, ◌∷◌, ◌++◌, [], ℕ};
ghost use Rattle.wasm_instructions.specs.formats.Instructions.{call};
ghost use Rattle.wasm_instructions.specs.formats.Opcodes.{without_prefix, after_fb, after_fd};
ghost use Rattle.wasm_instructions.specs.formats.Operands.{v128};
ghost use Rattle.wasm_instructions.specs.Instructions.{IsAligned, IsCall};
ghost use Rattle.wasm_instructions.specs.declared.table.call.Operands.TheVariants as operands;
ghost use Rattle.wasm_externals.specs.formats.Expressions.{nested};
ghost use Rattle.wasm_externals.specs.formats.PartCombinators.{goes_on};
ghost use Rattle.wasm_externals.specs.Making.{Makes};

use crate::const_expr::{Calls, ConstExpr};
use wasm_codec::encode::EncodeError;
use wasm_instructions::operands::{Ieee32, Ieee64, V128};
use wasm_instructions::table::{Call, Opcode, Operands};
use wasm_lists::list::Items;
use wasm_types::types::HeapType;

/// Methods that append an instruction that may be constant. Each fails with `Memory` if the expression can't grow.
#[tactic(auto, unfolding(wasm_instructions::specs::formats::Opcodes::ranges))]
impl ConstExpr {
    /// Appends `i32.const value`.
    pub fn with_i32_const(self, value: i32) -> Result<ConstExpr, EncodeError>
        ensures makes { Makes (self ++ call (without_prefix 0x41) (operands.I32 value) ∷ []) result }
    {
        self.and(Opcode::without_prefix(0x41), Operands::I32(value))
    }

    /// Appends `i64.const value`.
    pub fn with_i64_const(self, value: i64) -> Result<ConstExpr, EncodeError>
        ensures makes { Makes (self ++ call (without_prefix 0x42) (operands.I64 value) ∷ []) result }
    {
        self.and(Opcode::without_prefix(0x42), Operands::I64(value))
    }

    /// Appends `f32.const value`.
    pub fn with_f32_const(self, value: Ieee32) -> Result<ConstExpr, EncodeError>
        ensures makes { Makes (self ++ call (without_prefix 0x43) (operands.F32 value) ∷ []) result }
    {
        self.and(Opcode::without_prefix(0x43), Operands::F32(value))
    }

    /// Appends `f64.const value`.
    pub fn with_f64_const(self, value: Ieee64) -> Result<ConstExpr, EncodeError>
        ensures makes { Makes (self ++ call (without_prefix 0x44) (operands.F64 value) ∷ []) result }
    {
        self.and(Opcode::without_prefix(0x44), Operands::F64(value))
    }

    /// Appends `v128.const value`.
    pub fn with_v128_const(self, value: i128) -> Result<ConstExpr, EncodeError>
        ensures makes { Makes (self ++ call (after_fd 0x0c) (operands.V128 (v128 value)) ∷ []) result }
    {
        self.and(Opcode::after_fd(0x0C), Operands::V128(V128::new(value)))
    }

    /// Appends `global.get index`.
    pub fn with_global_get(self, index: u32) -> Result<ConstExpr, EncodeError>
        ensures makes { Makes (self ++ call (without_prefix 0x23) (operands.Index index) ∷ []) result }
    {
        self.and(Opcode::without_prefix(0x23), Operands::Index(index))
    }

    /// Appends `ref.null ty`.
    pub fn with_ref_null(self, ty: HeapType) -> Result<ConstExpr, EncodeError>
        ensures makes { Makes (self ++ call (without_prefix 0xd0) (operands.Heap ty) ∷ []) result }
    {
        self.and(Opcode::without_prefix(0xD0), Operands::Heap(ty))
    }

    /// Appends `ref.func index`.
    pub fn with_ref_func(self, index: u32) -> Result<ConstExpr, EncodeError>
        ensures makes { Makes (self ++ call (without_prefix 0xd2) (operands.Index index) ∷ []) result }
    {
        self.and(Opcode::without_prefix(0xD2), Operands::Index(index))
    }

    /// Appends `i32.add`.
    pub fn with_i32_add(self) -> Result<ConstExpr, EncodeError>
        ensures makes { Makes (self ++ call (without_prefix 0x6a) operands.None ∷ []) result }
    {
        self.and(Opcode::without_prefix(0x6A), Operands::None)
    }

    /// Appends `i32.sub`.
    pub fn with_i32_sub(self) -> Result<ConstExpr, EncodeError>
        ensures makes { Makes (self ++ call (without_prefix 0x6b) operands.None ∷ []) result }
    {
        self.and(Opcode::without_prefix(0x6B), Operands::None)
    }

    /// Appends `i32.mul`.
    pub fn with_i32_mul(self) -> Result<ConstExpr, EncodeError>
        ensures makes { Makes (self ++ call (without_prefix 0x6c) operands.None ∷ []) result }
    {
        self.and(Opcode::without_prefix(0x6C), Operands::None)
    }

    /// Appends `i64.add`.
    pub fn with_i64_add(self) -> Result<ConstExpr, EncodeError>
        ensures makes { Makes (self ++ call (without_prefix 0x7c) operands.None ∷ []) result }
    {
        self.and(Opcode::without_prefix(0x7C), Operands::None)
    }

    /// Appends `i64.sub`.
    pub fn with_i64_sub(self) -> Result<ConstExpr, EncodeError>
        ensures makes { Makes (self ++ call (without_prefix 0x7d) operands.None ∷ []) result }
    {
        self.and(Opcode::without_prefix(0x7D), Operands::None)
    }

    /// Appends `i64.mul`.
    pub fn with_i64_mul(self) -> Result<ConstExpr, EncodeError>
        ensures makes { Makes (self ++ call (without_prefix 0x7e) operands.None ∷ []) result }
    {
        self.and(Opcode::without_prefix(0x7E), Operands::None)
    }

    /// Appends `struct.new ty`.
    pub fn with_struct_new(self, ty: u32) -> Result<ConstExpr, EncodeError>
        ensures makes { Makes (self ++ call (after_fb 0) (operands.Index ty) ∷ []) result }
    {
        self.and(Opcode::after_fb(0x00), Operands::Index(ty))
    }

    /// Appends `struct.new_default ty`.
    pub fn with_struct_new_default(self, ty: u32) -> Result<ConstExpr, EncodeError>
        ensures makes { Makes (self ++ call (after_fb 1) (operands.Index ty) ∷ []) result }
    {
        self.and(Opcode::after_fb(0x01), Operands::Index(ty))
    }

    /// Appends `array.new ty`.
    pub fn with_array_new(self, ty: u32) -> Result<ConstExpr, EncodeError>
        ensures makes { Makes (self ++ call (after_fb 6) (operands.Index ty) ∷ []) result }
    {
        self.and(Opcode::after_fb(0x06), Operands::Index(ty))
    }

    /// Appends `array.new_default ty`.
    pub fn with_array_new_default(self, ty: u32) -> Result<ConstExpr, EncodeError>
        ensures makes { Makes (self ++ call (after_fb 7) (operands.Index ty) ∷ []) result }
    {
        self.and(Opcode::after_fb(0x07), Operands::Index(ty))
    }

    /// Appends `array.new_fixed ty length`.
    pub fn with_array_new_fixed(self, ty: u32, length: u32) -> Result<ConstExpr, EncodeError>
        ensures makes { Makes (self ++ call (after_fb 8) (operands.TwoIndexes ty length) ∷ []) result }
    {
        self.and(Opcode::after_fb(0x08), Operands::TwoIndexes(ty, length))
    }

    /// Appends `any.convert_extern`.
    pub fn with_any_convert_extern(self) -> Result<ConstExpr, EncodeError>
        ensures makes { Makes (self ++ call (after_fb 0x1a) operands.None ∷ []) result }
    {
        self.and(Opcode::after_fb(0x1A), Operands::None)
    }

    /// Appends `extern.convert_any`.
    pub fn with_extern_convert_any(self) -> Result<ConstExpr, EncodeError>
        ensures makes { Makes (self ++ call (after_fb 0x1b) operands.None ∷ []) result }
    {
        self.and(Opcode::after_fb(0x1B), Operands::None)
    }

    /// Appends `ref.i31`.
    pub fn with_ref_i31(self) -> Result<ConstExpr, EncodeError>
        ensures makes { Makes (self ++ call (after_fb 0x1c) operands.None ∷ []) result }
    {
        self.and(Opcode::after_fb(0x1C), Operands::None)
    }

    /// Appends an instruction that opens and closes no block. Fails with `Memory` if it can't allocate.
    #[tactic(auto, using(crate::proofs::ExpressionLaws::one_more_closed))]
    fn and(self, op: Opcode, immediates: Operands) -> Result<ConstExpr, EncodeError>
        requires call { IsCall op immediates }
        requires aligned { IsAligned immediates }
        requires flat { (depth : ℕ) → nested depth op ≡ goes_on depth }
        ensures makes { Makes (self ++ call op immediates ∷ []) result }
    {
        let mut calls = self.into_calls()?.into_vec();
        calls.push(Call::from_parts(op, immediates))?;
        Ok(ConstExpr {
            calls: Calls::Many(Items::from(calls)),
        })
    }
}
