//! Index spaces, and which operands of instructions are indices in them (Core 3.0, Indices and Instructions).
ghost use Rattle.std.specs.Prelude.{◌≡◌};
ghost use Rattle.wasm_modules.specs.IndexSpaces.{index_spaces, spaces_without_prefix, spaces_after_fb, spaces_after_fc, spaces_after_fe};
ghost use Rattle.wasm_modules.specs.MappedIndices.{space_number};

use wasm_instructions::table::{Opcode, Prefix};

/// An index space of a module (Core 3.0, Indices).
///
/// Locals, labels and fields also have indices, but not in a space of the module.
#[derive(Clone, Copy, Debug, PartialEq, Eq)]
pub enum IndexSpace {
    /// Types.
    Types,
    /// Functions: imports first, then those that the module defines.
    Functions,
    /// Tables: imports first.
    Tables,
    /// Memories: imports first.
    Memories,
    /// Globals: imports first.
    Globals,
    /// Tags: imports first.
    Tags,
    /// Element segments.
    Elements,
    /// Data segments.
    Data,
}

impl IndexSpace {
    /// Returns the number of the index space, which tells it from the others.
    pub(crate) fn number(self) -> u8
        ensures { result ≡ space_number self }
    {
        match self {
            IndexSpace::Types => 0,
            IndexSpace::Functions => 1,
            IndexSpace::Tables => 2,
            IndexSpace::Memories => 3,
            IndexSpace::Globals => 4,
            IndexSpace::Tags => 5,
            IndexSpace::Elements => 6,
            IndexSpace::Data => 7,
        }
    }
}

/// Returns the index spaces of an opcode's first and second index.
///
/// `None` means that there is no such operand, or that it isn't an index of the module: it is the index of a local, a
/// label or a field, or a number. Memory arguments, types and clauses of handlers aren't counted.
///
/// # Examples
///
/// ```
/// # use wasm_encoder::{IndexSpace, Opcode, index_spaces};
/// let call = Opcode::without_prefix(0x10);
/// assert_eq!(rt; index_spaces(call), (Some(IndexSpace::Functions), None));
/// let memory_init = Opcode::after_fc(0x08);
/// assert_eq!(rt; index_spaces(memory_init), (Some(IndexSpace::Data), Some(IndexSpace::Memories)));
/// let local_get = Opcode::without_prefix(0x20);
/// assert_eq!(rt; index_spaces(local_get), (None, None));
/// ```
pub fn index_spaces(op: Opcode) -> (Option<IndexSpace>, Option<IndexSpace>)
    ensures { result ≡ index_spaces op }
{
    match op.prefix {
        Prefix::None => spaces_without_prefix(op.number),
        Prefix::Fb => spaces_after_fb(op.number),
        Prefix::Fc => spaces_after_fc(op.number),
        Prefix::Fd => (None, None),
        Prefix::Fe => spaces_after_fe(op.number),
    }
}

/// Returns the index spaces of an opcode of one byte.
fn spaces_without_prefix(number: u32) -> (Option<IndexSpace>, Option<IndexSpace>)
    ensures { result ≡ spaces_without_prefix number }
{
    match number {
        0x10 | 0x12 | 0xd2 => (Some(IndexSpace::Functions), None),
        0x11 | 0x13 => (Some(IndexSpace::Types), Some(IndexSpace::Tables)),
        0x23 | 0x24 => (Some(IndexSpace::Globals), None),
        0x25 | 0x26 => (Some(IndexSpace::Tables), None),
        0x3f | 0x40 => (Some(IndexSpace::Memories), None),
        0x07 | 0x08 | 0xe2 => (Some(IndexSpace::Tags), None),
        0x14 | 0x15 | 0xe0 | 0xe3 | 0xe5 => (Some(IndexSpace::Types), None),
        0xe1 => (Some(IndexSpace::Types), Some(IndexSpace::Types)),
        0xe4 | 0xe6 => (Some(IndexSpace::Types), Some(IndexSpace::Tags)),
        _ => (None, None),
    }
}

/// Returns the index spaces of an opcode after `0xFB`.
fn spaces_after_fb(number: u32) -> (Option<IndexSpace>, Option<IndexSpace>)
    ensures { result ≡ spaces_after_fb number }
{
    match number {
        0x09 | 0x12 => (Some(IndexSpace::Types), Some(IndexSpace::Data)),
        0x0a | 0x13 => (Some(IndexSpace::Types), Some(IndexSpace::Elements)),
        0x11 => (Some(IndexSpace::Types), Some(IndexSpace::Types)),
        0x00..=0x0e | 0x10 | 0x20..=0x22 => (Some(IndexSpace::Types), None),
        _ => (None, None),
    }
}

/// Returns the index spaces of an opcode after `0xFC`.
fn spaces_after_fc(number: u32) -> (Option<IndexSpace>, Option<IndexSpace>)
    ensures { result ≡ spaces_after_fc number }
{
    match number {
        0x08 => (Some(IndexSpace::Data), Some(IndexSpace::Memories)),
        0x09 => (Some(IndexSpace::Data), None),
        0x0a => (Some(IndexSpace::Memories), Some(IndexSpace::Memories)),
        0x0b | 0x12 => (Some(IndexSpace::Memories), None),
        0x0c => (Some(IndexSpace::Elements), Some(IndexSpace::Tables)),
        0x0d => (Some(IndexSpace::Elements), None),
        0x0e => (Some(IndexSpace::Tables), Some(IndexSpace::Tables)),
        0x0f..=0x11 => (Some(IndexSpace::Tables), None),
        _ => (None, None),
    }
}

/// Returns the index spaces of an opcode after `0xFE`.
fn spaces_after_fe(number: u32) -> (Option<IndexSpace>, Option<IndexSpace>)
    ensures { result ≡ spaces_after_fe number }
{
    match number {
        0x4f..=0x57 => (Some(IndexSpace::Globals), None),
        0x58..=0x5b => (Some(IndexSpace::Tables), None),
        0x5c..=0x71 => (Some(IndexSpace::Types), None),
        _ => (None, None),
    }
}
