//! Constants, lanes, shuffles and splats of vectors (Core 3.0, Vector Instructions).
ghost use Rattle.std.specs.Borrow.{sem};
ghost use Rattle.wasm_sink.specs.Sink.{IsUnchangedAtErr, Emits};
ghost use Rattle.wasm_instructions.specs.formats.Opcodes.{after_fd};
ghost use Rattle.wasm_instructions.specs.formats.Operands.{v128};
ghost use Rattle.wasm_instructions.specs.declared.table.call.Operands.TheVariants as operands;

use crate::sink::InstructionSink;
use std::alloc::Allocator;
use wasm_codec::encode::EncodeError;
use wasm_instructions::operands::{Lane, V128};
use wasm_instructions::table::Prefix;

#[tactic(auto, unfolding(wasm_instructions::specs::formats::Opcodes::ranges))]
impl<'a, A: Allocator> InstructionSink<'a, A> {
    /// `v128.const`: `0xFD 0x0C`, then 16 bytes, the lowest first.
    #[inline(always)]
    pub fn v128_const(self, value: i128) -> Result<InstructionSink<'a, A>, EncodeError>
        ensures emits { Emits self.entry (after_fd 0x0c) (operands.V128 (v128 value)) result }
        ensures* unchanged { sem 𝓛 (IsUnchangedAtErr A.row A.Allocator self.entry result) }
    {
        self.emit_v128(0x0c, V128::new(value))
    }

    /// `i8x16.shuffle`: `0xFD 0x0D`, then 16 lanes.
    #[inline(always)]
    pub fn i8x16_shuffle(self, lanes: [Lane; 16]) -> Result<InstructionSink<'a, A>, EncodeError>
        ensures emits { Emits self.entry (after_fd 0x0d) (operands.Shuffle lanes) result }
        ensures* unchanged { sem 𝓛 (IsUnchangedAtErr A.row A.Allocator self.entry result) }
    {
        self.emit_shuffle(0x0d, lanes)
    }

    /// `i8x16.swizzle`: `0xFD 0x0E`.
    #[inline(always)]
    pub fn i8x16_swizzle(self) -> Result<InstructionSink<'a, A>, EncodeError>
        ensures emits { Emits self.entry (after_fd 0x0e) operands.None result }
        ensures* unchanged { sem 𝓛 (IsUnchangedAtErr A.row A.Allocator self.entry result) }
    {
        self.emit(Prefix::Fd, 0x0e)
    }

    /// `i8x16.splat`: `0xFD 0x0F`.
    #[inline(always)]
    pub fn i8x16_splat(self) -> Result<InstructionSink<'a, A>, EncodeError>
        ensures emits { Emits self.entry (after_fd 0x0f) operands.None result }
        ensures* unchanged { sem 𝓛 (IsUnchangedAtErr A.row A.Allocator self.entry result) }
    {
        self.emit(Prefix::Fd, 0x0f)
    }

    /// `i16x8.splat`: `0xFD 0x10`.
    #[inline(always)]
    pub fn i16x8_splat(self) -> Result<InstructionSink<'a, A>, EncodeError>
        ensures emits { Emits self.entry (after_fd 0x10) operands.None result }
        ensures* unchanged { sem 𝓛 (IsUnchangedAtErr A.row A.Allocator self.entry result) }
    {
        self.emit(Prefix::Fd, 0x10)
    }

    /// `i32x4.splat`: `0xFD 0x11`.
    #[inline(always)]
    pub fn i32x4_splat(self) -> Result<InstructionSink<'a, A>, EncodeError>
        ensures emits { Emits self.entry (after_fd 0x11) operands.None result }
        ensures* unchanged { sem 𝓛 (IsUnchangedAtErr A.row A.Allocator self.entry result) }
    {
        self.emit(Prefix::Fd, 0x11)
    }

    /// `i64x2.splat`: `0xFD 0x12`.
    #[inline(always)]
    pub fn i64x2_splat(self) -> Result<InstructionSink<'a, A>, EncodeError>
        ensures emits { Emits self.entry (after_fd 0x12) operands.None result }
        ensures* unchanged { sem 𝓛 (IsUnchangedAtErr A.row A.Allocator self.entry result) }
    {
        self.emit(Prefix::Fd, 0x12)
    }

    /// `f32x4.splat`: `0xFD 0x13`.
    #[inline(always)]
    pub fn f32x4_splat(self) -> Result<InstructionSink<'a, A>, EncodeError>
        ensures emits { Emits self.entry (after_fd 0x13) operands.None result }
        ensures* unchanged { sem 𝓛 (IsUnchangedAtErr A.row A.Allocator self.entry result) }
    {
        self.emit(Prefix::Fd, 0x13)
    }

    /// `f64x2.splat`: `0xFD 0x14`.
    #[inline(always)]
    pub fn f64x2_splat(self) -> Result<InstructionSink<'a, A>, EncodeError>
        ensures emits { Emits self.entry (after_fd 0x14) operands.None result }
        ensures* unchanged { sem 𝓛 (IsUnchangedAtErr A.row A.Allocator self.entry result) }
    {
        self.emit(Prefix::Fd, 0x14)
    }

    /// `i8x16.extract_lane_s`: `0xFD 0x15`, then a lane.
    #[inline(always)]
    pub fn i8x16_extract_lane_s(self, lane: Lane) -> Result<InstructionSink<'a, A>, EncodeError>
        ensures emits { Emits self.entry (after_fd 0x15) (operands.Lane lane) result }
        ensures* unchanged { sem 𝓛 (IsUnchangedAtErr A.row A.Allocator self.entry result) }
    {
        self.emit_lane(0x15, lane)
    }

    /// `i8x16.extract_lane_u`: `0xFD 0x16`, then a lane.
    #[inline(always)]
    pub fn i8x16_extract_lane_u(self, lane: Lane) -> Result<InstructionSink<'a, A>, EncodeError>
        ensures emits { Emits self.entry (after_fd 0x16) (operands.Lane lane) result }
        ensures* unchanged { sem 𝓛 (IsUnchangedAtErr A.row A.Allocator self.entry result) }
    {
        self.emit_lane(0x16, lane)
    }

    /// `i8x16.replace_lane`: `0xFD 0x17`, then a lane.
    #[inline(always)]
    pub fn i8x16_replace_lane(self, lane: Lane) -> Result<InstructionSink<'a, A>, EncodeError>
        ensures emits { Emits self.entry (after_fd 0x17) (operands.Lane lane) result }
        ensures* unchanged { sem 𝓛 (IsUnchangedAtErr A.row A.Allocator self.entry result) }
    {
        self.emit_lane(0x17, lane)
    }

    /// `i16x8.extract_lane_s`: `0xFD 0x18`, then a lane.
    #[inline(always)]
    pub fn i16x8_extract_lane_s(self, lane: Lane) -> Result<InstructionSink<'a, A>, EncodeError>
        ensures emits { Emits self.entry (after_fd 0x18) (operands.Lane lane) result }
        ensures* unchanged { sem 𝓛 (IsUnchangedAtErr A.row A.Allocator self.entry result) }
    {
        self.emit_lane(0x18, lane)
    }

    /// `i16x8.extract_lane_u`: `0xFD 0x19`, then a lane.
    #[inline(always)]
    pub fn i16x8_extract_lane_u(self, lane: Lane) -> Result<InstructionSink<'a, A>, EncodeError>
        ensures emits { Emits self.entry (after_fd 0x19) (operands.Lane lane) result }
        ensures* unchanged { sem 𝓛 (IsUnchangedAtErr A.row A.Allocator self.entry result) }
    {
        self.emit_lane(0x19, lane)
    }

    /// `i16x8.replace_lane`: `0xFD 0x1A`, then a lane.
    #[inline(always)]
    pub fn i16x8_replace_lane(self, lane: Lane) -> Result<InstructionSink<'a, A>, EncodeError>
        ensures emits { Emits self.entry (after_fd 0x1a) (operands.Lane lane) result }
        ensures* unchanged { sem 𝓛 (IsUnchangedAtErr A.row A.Allocator self.entry result) }
    {
        self.emit_lane(0x1a, lane)
    }

    /// `i32x4.extract_lane`: `0xFD 0x1B`, then a lane.
    #[inline(always)]
    pub fn i32x4_extract_lane(self, lane: Lane) -> Result<InstructionSink<'a, A>, EncodeError>
        ensures emits { Emits self.entry (after_fd 0x1b) (operands.Lane lane) result }
        ensures* unchanged { sem 𝓛 (IsUnchangedAtErr A.row A.Allocator self.entry result) }
    {
        self.emit_lane(0x1b, lane)
    }

    /// `i32x4.replace_lane`: `0xFD 0x1C`, then a lane.
    #[inline(always)]
    pub fn i32x4_replace_lane(self, lane: Lane) -> Result<InstructionSink<'a, A>, EncodeError>
        ensures emits { Emits self.entry (after_fd 0x1c) (operands.Lane lane) result }
        ensures* unchanged { sem 𝓛 (IsUnchangedAtErr A.row A.Allocator self.entry result) }
    {
        self.emit_lane(0x1c, lane)
    }

    /// `i64x2.extract_lane`: `0xFD 0x1D`, then a lane.
    #[inline(always)]
    pub fn i64x2_extract_lane(self, lane: Lane) -> Result<InstructionSink<'a, A>, EncodeError>
        ensures emits { Emits self.entry (after_fd 0x1d) (operands.Lane lane) result }
        ensures* unchanged { sem 𝓛 (IsUnchangedAtErr A.row A.Allocator self.entry result) }
    {
        self.emit_lane(0x1d, lane)
    }

    /// `i64x2.replace_lane`: `0xFD 0x1E`, then a lane.
    #[inline(always)]
    pub fn i64x2_replace_lane(self, lane: Lane) -> Result<InstructionSink<'a, A>, EncodeError>
        ensures emits { Emits self.entry (after_fd 0x1e) (operands.Lane lane) result }
        ensures* unchanged { sem 𝓛 (IsUnchangedAtErr A.row A.Allocator self.entry result) }
    {
        self.emit_lane(0x1e, lane)
    }

    /// `f32x4.extract_lane`: `0xFD 0x1F`, then a lane.
    #[inline(always)]
    pub fn f32x4_extract_lane(self, lane: Lane) -> Result<InstructionSink<'a, A>, EncodeError>
        ensures emits { Emits self.entry (after_fd 0x1f) (operands.Lane lane) result }
        ensures* unchanged { sem 𝓛 (IsUnchangedAtErr A.row A.Allocator self.entry result) }
    {
        self.emit_lane(0x1f, lane)
    }

    /// `f32x4.replace_lane`: `0xFD 0x20`, then a lane.
    #[inline(always)]
    pub fn f32x4_replace_lane(self, lane: Lane) -> Result<InstructionSink<'a, A>, EncodeError>
        ensures emits { Emits self.entry (after_fd 0x20) (operands.Lane lane) result }
        ensures* unchanged { sem 𝓛 (IsUnchangedAtErr A.row A.Allocator self.entry result) }
    {
        self.emit_lane(0x20, lane)
    }

    /// `f64x2.extract_lane`: `0xFD 0x21`, then a lane.
    #[inline(always)]
    pub fn f64x2_extract_lane(self, lane: Lane) -> Result<InstructionSink<'a, A>, EncodeError>
        ensures emits { Emits self.entry (after_fd 0x21) (operands.Lane lane) result }
        ensures* unchanged { sem 𝓛 (IsUnchangedAtErr A.row A.Allocator self.entry result) }
    {
        self.emit_lane(0x21, lane)
    }

    /// `f64x2.replace_lane`: `0xFD 0x22`, then a lane.
    #[inline(always)]
    pub fn f64x2_replace_lane(self, lane: Lane) -> Result<InstructionSink<'a, A>, EncodeError>
        ensures emits { Emits self.entry (after_fd 0x22) (operands.Lane lane) result }
        ensures* unchanged { sem 𝓛 (IsUnchangedAtErr A.row A.Allocator self.entry result) }
    {
        self.emit_lane(0x22, lane)
    }
}
