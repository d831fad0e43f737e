//! The opcodes that are scanned with their operands, in a table by their bytes.
ghost use Rattle.std.specs.Prelude.{◌≡◌, Some, IfSome};
ghost use Rattle.wasm_instructions.specs.formats.Opcodes.{without_prefix, opcode_kind};
ghost use Rattle.wasm_instructions.specs.ScannedOpcodes.{IsScanTable};

use crate::table::Kind;

/// The kind of operands that is scanned after an opcode of one byte. An `Option<Kind>` takes two tests.
#[derive(Clone, Copy)]
pub(super) enum ScannedKind {
    /// The byte is no opcode, or its operands aren't scanned.
    No,
    /// `Kind::None`.
    Plain,
    /// `Kind::Block`.
    Block,
    /// `Kind::Index`.
    Index,
    /// `Kind::Mem`.
    Mem,
    /// `Kind::I32`.
    I32,
    /// `Kind::I64`.
    I64,
    /// `Kind::F32`.
    F32,
    /// `Kind::F64`.
    F64,
}

const NO: ScannedKind = ScannedKind::No;

const PLAIN: ScannedKind = ScannedKind::Plain;

const BLOCK: ScannedKind = ScannedKind::Block;

const INDEX: ScannedKind = ScannedKind::Index;

const MEM: ScannedKind = ScannedKind::Mem;

const I32: ScannedKind = ScannedKind::I32;

const I64: ScannedKind = ScannedKind::I64;

const F32: ScannedKind = ScannedKind::F32;

const F64: ScannedKind = ScannedKind::F64;

pub(crate) const SCANNED: [ScannedKind; 256] = [
    PLAIN, PLAIN, BLOCK, BLOCK, BLOCK, PLAIN, BLOCK, INDEX, INDEX, INDEX, PLAIN, PLAIN, INDEX,
    INDEX, NO, PLAIN, INDEX, NO, INDEX, NO, INDEX, INDEX, NO, NO, INDEX, PLAIN, PLAIN, PLAIN, NO,
    NO, NO, NO, INDEX, INDEX, INDEX, INDEX, INDEX, INDEX, INDEX, NO, MEM, MEM, MEM, MEM, MEM, MEM,
    MEM, MEM, MEM, MEM, MEM, MEM, MEM, MEM, MEM, MEM, MEM, MEM, MEM, MEM, MEM, MEM, MEM, INDEX,
    INDEX, I32, I64, F32, F64, PLAIN, PLAIN, PLAIN, PLAIN, PLAIN, PLAIN, PLAIN, PLAIN, PLAIN,
    PLAIN, PLAIN, PLAIN, PLAIN, PLAIN, PLAIN, PLAIN, PLAIN, PLAIN, PLAIN, PLAIN, PLAIN, PLAIN,
    PLAIN, PLAIN, PLAIN, PLAIN, PLAIN, PLAIN, PLAIN, PLAIN, PLAIN, PLAIN, PLAIN, PLAIN, PLAIN,
    PLAIN, PLAIN, PLAIN, PLAIN, PLAIN, PLAIN, PLAIN, PLAIN, PLAIN, PLAIN, PLAIN, PLAIN, PLAIN,
    PLAIN, PLAIN, PLAIN, PLAIN, PLAIN, PLAIN, PLAIN, PLAIN, PLAIN, PLAIN, PLAIN, PLAIN, PLAIN,
    PLAIN, PLAIN, PLAIN, PLAIN, PLAIN, PLAIN, PLAIN, PLAIN, PLAIN, PLAIN, PLAIN, PLAIN, PLAIN,
    PLAIN, PLAIN, PLAIN, PLAIN, PLAIN, PLAIN, PLAIN, PLAIN, PLAIN, PLAIN, PLAIN, PLAIN, PLAIN,
    PLAIN, PLAIN, PLAIN, PLAIN, PLAIN, PLAIN, PLAIN, PLAIN, PLAIN, PLAIN, PLAIN, PLAIN, PLAIN,
    PLAIN, PLAIN, PLAIN, PLAIN, PLAIN, PLAIN, PLAIN, PLAIN, PLAIN, PLAIN, PLAIN, PLAIN, PLAIN,
    PLAIN, PLAIN, PLAIN, PLAIN, PLAIN, PLAIN, PLAIN, PLAIN, PLAIN, PLAIN, PLAIN, PLAIN, PLAIN,
    PLAIN, PLAIN, NO, NO, NO, NO, NO, NO, NO, NO, NO, NO, NO, NO, PLAIN, INDEX, PLAIN, PLAIN,
    INDEX, INDEX, NO, NO, NO, NO, NO, NO, NO, NO, NO, INDEX, NO, INDEX, NO, NO, NO, NO, NO, NO, NO,
    NO, NO, NO, NO, NO, NO, NO, NO, NO, NO, NO, NO, NO, NO, NO, NO, NO, NO, NO, NO, NO, NO,
];

/// Returns the kind of operands that is scanned after an opcode of one byte, by the table.
#[inline(always)]
pub(crate) fn scanned_kind(places: &[ScannedKind], byte: u8) -> Option<Kind>
    requires { IsScanTable places.now }
    ensures { IfSome result (λ k. opcode_kind (without_prefix byte) ≡ Some k) }
{
    match places[byte as usize] {
        ScannedKind::No => None,
        ScannedKind::Plain => Some(Kind::None),
        ScannedKind::Block => Some(Kind::Block),
        ScannedKind::Index => Some(Kind::Index),
        ScannedKind::Mem => Some(Kind::Mem),
        ScannedKind::I32 => Some(Kind::I32),
        ScannedKind::I64 => Some(Kind::I64),
        ScannedKind::F32 => Some(Kind::F32),
        ScannedKind::F64 => Some(Kind::F64),
    }
}
