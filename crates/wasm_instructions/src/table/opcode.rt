//! Opcodes, and the table of the kinds of their operands (Core 3.0, Instructions).
ghost use Rattle.std.specs.Prelude.{◌≡◌};
ghost use Rattle.wasm_codec.specs.Inputs.{Takes};
ghost use Rattle.wasm_instructions.specs.OpcodeTables.{IsTable};
ghost use Rattle.wasm_instructions.specs.formats.Instructions.{opcode};
ghost use Rattle.wasm_instructions.specs.formats.Opcodes.{opcode_kind, kind_among, ranges, without_prefix, after_fb, after_fc, after_fd, after_fe};

use crate::table::kinds::{AFTER_FB, AFTER_FC, AFTER_FD, AFTER_FE, WITHOUT_PREFIX};
use wasm_codec::input::Input;
use wasm_codec::reader::cursor::Fault;
use wasm_codec::reader::malformed::{Construct, Reason};

/// The prefix byte of an opcode.
#[derive(Clone, Copy, Debug, PartialEq, Eq)]
pub enum Prefix {
    /// No prefix byte: the opcode is one byte.
    None,
    /// `0xFB`: garbage collection.
    Fb,
    /// `0xFC`: saturating conversions, bulk memory and tables, wide arithmetic.
    Fc,
    /// `0xFD`: vectors.
    Fd,
    /// `0xFE`: threads and shared-everything threads.
    Fe,
}

/// An opcode: one byte, or a prefix byte and a number (Core 3.0, Instructions). It may be outside the table.
///
/// # Examples
///
/// ```
/// # use wasm_encoder::{Kind, Opcode};
/// let local_get = Opcode::without_prefix(0x20);
/// assert_eq!(rt; local_get.kind(), Some(Kind::Index));
/// let memory_copy = Opcode::after_fc(10);
/// assert_eq!(rt; memory_copy.kind(), Some(Kind::TwoIndexes));
/// assert_eq!(rt; memory_copy.to_string(rt.alloc())?.as_str(), "memory.copy");
/// assert_eq!(rt; Opcode::without_prefix(0xff).kind(), None);
/// ```
#[derive(Clone, Copy, Debug, PartialEq, Eq)]
pub struct Opcode {
    /// Prefix byte.
    pub prefix: Prefix,
    /// Number after the prefix byte, or the byte itself if there is no prefix.
    pub number: u32,
}

/// The kind of operands that follow an opcode.
#[derive(Clone, Copy, Debug, PartialEq, Eq)]
pub enum Kind {
    /// No operands.
    None,
    /// A block type.
    Block,
    /// An index, as a u32.
    Index,
    /// Two indexes.
    TwoIndexes,
    /// A list of labels and a default label.
    BrTable,
    /// A list of value types.
    Types,
    /// A block type and a list of catch clauses.
    TryTable,
    /// A memory argument.
    Mem,
    /// A signed 32-bit number.
    I32,
    /// A signed 64-bit number.
    I64,
    /// A 32-bit floating-point number, in 4 bytes.
    F32,
    /// A 64-bit floating-point number, in 8 bytes.
    F64,
    /// A heap type.
    Heap,
    /// An index and a list of clauses.
    Resume,
    /// Two indexes and a list of clauses.
    ResumeThrow,
    /// Flags, a label and two heap types.
    Cast,
    /// A vector, in 16 bytes.
    V128,
    /// Sixteen lane indexes.
    Shuffle,
    /// A lane index.
    Lane,
    /// A memory argument and a lane index.
    MemLane,
    /// An ordering.
    Order,
    /// An ordering and an index.
    OrderIndex,
    /// An ordering and two indexes.
    OrderTwoIndexes,
}

impl Opcode {
    /// Returns the opcode of one byte.
    #[inline]
    pub const fn without_prefix(number: u8) -> Opcode
        ensures { result ≡ without_prefix number }
    {
        Opcode {
            prefix: Prefix::None,
            number: number as u32,
        }
    }

    /// Returns the opcode of this number after the prefix byte `0xFB`.
    #[inline]
    pub const fn after_fb(number: u32) -> Opcode
        ensures { result ≡ after_fb number }
    {
        Opcode {
            prefix: Prefix::Fb,
            number,
        }
    }

    /// Returns the opcode of this number after the prefix byte `0xFC`.
    #[inline]
    pub const fn after_fc(number: u32) -> Opcode
        ensures { result ≡ after_fc number }
    {
        Opcode {
            prefix: Prefix::Fc,
            number,
        }
    }

    /// Returns the opcode of this number after the prefix byte `0xFD`.
    #[inline]
    pub const fn after_fd(number: u32) -> Opcode
        ensures { result ≡ after_fd number }
    {
        Opcode {
            prefix: Prefix::Fd,
            number,
        }
    }

    /// Returns the opcode of this number after the prefix byte `0xFE`.
    #[inline]
    pub const fn after_fe(number: u32) -> Opcode
        ensures { result ≡ after_fe number }
    {
        Opcode {
            prefix: Prefix::Fe,
            number,
        }
    }

    /// Returns the reason why an opcode outside the table is malformed.
    #[cold]
    pub fn unknown(self) -> Reason {
        let prefix = match self.prefix {
            Prefix::None => {
                return Reason::UnknownOpcode {
                    number: self.number,
                };
            }
            Prefix::Fb => 0xfb,
            Prefix::Fc => 0xfc,
            Prefix::Fd => 0xfd,
            Prefix::Fe => 0xfe,
        };
        Reason::UnknownPrefixedOpcode {
            prefix,
            number: self.number,
        }
    }

    /// Returns the kind of the operands, or `None` if the opcode isn't in the table.
    #[inline(always)]
    #[tactic(auto, unfolding(crate::specs::formats::Opcodes::ranges))]
    pub fn kind(self) -> Option<Kind>
        ensures { result ≡ opcode_kind self }
    {
        match self.prefix {
            Prefix::None => kind_at(Prefix::None, &WITHOUT_PREFIX, self.number),
            Prefix::Fb => kind_at(Prefix::Fb, &AFTER_FB, self.number),
            Prefix::Fc => kind_at(Prefix::Fc, &AFTER_FC, self.number),
            Prefix::Fd => kind_at(Prefix::Fd, &AFTER_FD, self.number),
            Prefix::Fe => kind_at(Prefix::Fe, &AFTER_FE, self.number),
        }
    }
}

/// Returns the kind of an opcode by its number and the table of its prefix, or `None` past the end of the table.
#[inline(always)]
#[tactic(auto, using(crate::proofs::OpcodeLaws::place_is, crate::proofs::OpcodeLaws::no_place))]
fn kind_at(prefix: Prefix, places: &[Option<Kind>], number: u32) -> Option<Kind>
    requires { IsTable places.now (ranges prefix) }
    ensures { result ≡ kind_among (ranges prefix) number }
{
    // Only the contract mentions the prefix.
    let _ = prefix;
    let place = number as usize;
    if place < places.len() {
        places[place]
    } else {
        None
    }
}

/// Takes an opcode: one byte, or a prefix byte and a number. It may be outside the table.
#[inline(always)]
#[tactic(auto, unfolding(crate::specs::formats::Instructions::opcode))]
pub fn take_opcode<I: Input>(input: &mut I) -> Result<Opcode, Fault>
    ensures takes { Takes I.writes opcode (I.state input.old) (I.state input.new) result }
{
    match input.byte_of(Construct::Opcode)? {
        0xfb => Ok(Opcode::after_fb(input.u32()?)),
        0xfc => Ok(Opcode::after_fc(input.u32()?)),
        0xfd => Ok(Opcode::after_fd(input.u32()?)),
        0xfe => Ok(Opcode::after_fe(input.u32()?)),
        byte => Ok(Opcode::without_prefix(byte)),
    }
}
