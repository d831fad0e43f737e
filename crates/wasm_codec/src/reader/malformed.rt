//! What is wrong with bytes that don't decode, and where.
ghost use Rattle.std.specs.Prelude.{◌≡◌, Some, None};
ghost use Rattle.wasm_codec.specs.declared.reader.cursor.Fault.TheVariants as faults;

use crate::reader::beginning::{Beginning, OtherVersion};
use crate::reader::cursor::Fault;
use std::alloc::{AllocError, AllocFailed};
use std::fmt;
use thiserror::Error;

/// A part of the binary format.
#[derive(Clone, Copy, Debug, PartialEq, Eq)]
pub enum Construct {
    /// A byte.
    Byte,
    /// A number in LEB128 (Core 3.0, Integers).
    Number,
    /// An unsigned number of 32 bits.
    U32,
    /// An unsigned number of 64 bits.
    U64,
    /// A signed number of 32 bits.
    S32,
    /// A signed number of 64 bits.
    S64,
    /// A type index, encoded as a non-negative number of 33 bits.
    TypeIndex,
    /// A number in little-endian bytes: a float or a vector.
    Constant,
    /// Bytes after their size, such as a section or a code body.
    Body,
    /// A name (Core 3.0, Names).
    Name,
    /// A value type (Core 3.0, Value Types).
    ValType,
    /// A heap type (Core 3.0, Heap Types).
    HeapType,
    /// An abstract heap type, after the byte of a shared one.
    AbstractHeapType,
    /// A reference type (Core 3.0, Reference Types).
    RefType,
    /// The first byte of a recursive type, a sub type or a composite type (Core 3.0, Recursive Types).
    TypeForm,
    /// The byte of a function, structure, array or continuation type (Core 3.0, Composite Types).
    CompositeType,
    /// Whether a field is mutable.
    Mutability,
    /// Whether a global is mutable, and whether it is shared.
    GlobalMutability,
    /// The flags of limits (Core 3.0, Limits).
    Limits,
    /// The flags of a memory type.
    MemoryFlags,
    /// A table.
    Table,
    /// A byte that is 0 (Core 3.0, Table Section), also in core dumps.
    Reserved,
    /// The attribute of a tag type.
    TagAttribute,
    /// The kind of an import.
    ImportKind,
    /// The kind of an export.
    ExportKind,
    /// An opcode, or the number after its prefix.
    Opcode,
    /// A block type.
    BlockType,
    /// A clause of `try_table`.
    Clause,
    /// A clause of `resume`, which handles a tag.
    HandlerClause,
    /// The ordering of an atomic instruction.
    Ordering,
    /// The flags of a branch on a cast.
    CastFlags,
    /// The form of an element segment.
    ElementForm,
    /// The kind of an element segment's items.
    ElementKind,
    /// The form of a data segment.
    DataForm,
    /// The id of a section.
    SectionId,
    /// The id of a subsection.
    SubsectionId,
    /// The byte of a branch hint.
    BranchHint,
    /// The prefix of a target feature.
    FeaturePrefix,
    /// The version of a `linking` section.
    LinkingVersion,
    /// The kind of a symbol.
    SymbolKind,
    /// The first byte of a value in a core dump.
    CoreDumpValue,
}

impl fmt::Display for Construct {
    fn fmt<W: fmt::Write>(&self, f: &mut fmt::Formatter<W>) -> fmt::Result {
        f.write_str(match self {
            Construct::Byte => "byte",
            Construct::Number => "LEB128 number",
            Construct::U32 => "u32",
            Construct::U64 => "u64",
            Construct::S32 => "s32",
            Construct::S64 => "s64",
            Construct::TypeIndex => "type index",
            Construct::Constant => "constant",
            Construct::Body => "body",
            Construct::Name => "name",
            Construct::ValType => "value type",
            Construct::HeapType => "heap type",
            Construct::AbstractHeapType => "abstract heap type",
            Construct::RefType => "reference type",
            Construct::TypeForm => "type form",
            Construct::CompositeType => "composite type",
            Construct::Mutability | Construct::GlobalMutability => "mutability",
            Construct::Limits => "limits flags",
            Construct::MemoryFlags => "memory flags",
            Construct::Table => "table",
            Construct::Reserved => "reserved byte",
            Construct::TagAttribute => "tag attribute",
            Construct::ImportKind => "import kind",
            Construct::ExportKind => "export kind",
            Construct::Opcode => "opcode",
            Construct::BlockType => "block type",
            Construct::Clause | Construct::HandlerClause => "clause",
            Construct::Ordering => "memory ordering",
            Construct::CastFlags => "cast flags",
            Construct::ElementForm => "element segment form",
            Construct::ElementKind => "element kind",
            Construct::DataForm => "data segment form",
            Construct::SectionId => "section id",
            Construct::SubsectionId => "subsection id",
            Construct::BranchHint => "branch hint",
            Construct::FeaturePrefix => "feature prefix",
            Construct::LinkingVersion => "linking version",
            Construct::SymbolKind => "symbol kind",
            Construct::CoreDumpValue => "core dump value",
        })
    }
}

/// Returns the noun after this number of bytes.
fn bytes_word(count: &usize) -> &'static str {
    if *count == 1 { "byte" } else { "bytes" }
}

/// Returns the beginning of an input of `len` bytes with these first four.
fn beginning(first: &u32, len: &usize) -> Beginning {
    Beginning::new(*first, *len)
}

/// Returns a version that isn't that of a module.
fn other_version(version: &u32) -> OtherVersion {
    OtherVersion(*version)
}

/// Why bytes don't decode.
#[derive(Clone, Copy, Debug, PartialEq, Eq, Error)]
pub enum Reason {
    /// The bytes end before or inside this part.
    #[error("unexpected end: expected {construct}")]
    UnexpectedEnd {
        /// The part.
        construct: Construct,
    },
    /// A number has too many bytes.
    #[error("LEB128 number too long: more than {most} bytes")]
    NumberTooLong {
        /// Maximum length in bytes.
        most: u8,
    },
    /// A number is too large or too small.
    #[error("LEB128 number out of range of {construct}")]
    NumberOutOfRange {
        /// What the number should be.
        construct: Construct,
    },
    /// A byte is none of those that may stand in its place.
    #[error("invalid {construct} 0x{byte:02x}")]
    InvalidByte {
        /// What the byte should be.
        construct: Construct,
        /// The byte.
        byte: u8,
    },
    /// A number is none of those that may stand in its place.
    #[error("invalid {construct} {number}")]
    InvalidNumber {
        /// What the number should be.
        construct: Construct,
        /// The number.
        number: u32,
    },
    /// An opcode of one byte is unknown.
    #[error("unknown opcode 0x{number:02X}")]
    UnknownOpcode {
        /// The opcode.
        number: u32,
    },
    /// An opcode with a prefix is unknown.
    #[error("unknown opcode 0x{prefix:02X} 0x{number:02X}")]
    UnknownPrefixedOpcode {
        /// The first byte.
        prefix: u8,
        /// The number after it.
        number: u32,
    },
    /// The alignment of a memory argument is 64 or more.
    #[error("alignment flags {flags} out of range: expected less than 128")]
    InvalidAlignment {
        /// The number that holds the alignment.
        flags: u32,
    },
    /// A name isn't UTF-8.
    #[error("name isn't UTF-8 from its byte {at} on")]
    InvalidUtf8 {
        /// Offset of the first invalid byte in the name.
        at: u32,
    },
    /// Bytes follow after the last part.
    #[error("{count} trailing {}", bytes_word(.count))]
    TrailingBytes {
        /// Number of bytes.
        count: usize,
    },
    /// A size is larger than the number of bytes left.
    #[error("size {size} too large: {left} {} left", bytes_word(.left))]
    SizeTooLarge {
        /// The size.
        size: u32,
        /// Number of bytes left after it.
        left: usize,
    },
    /// The bytes end after a whole instruction of an expression, which has no final `end`.
    #[error("expression without a final end")]
    MissingEnd,
    /// A `delegate` in an expression ends no block.
    #[error("delegate outside of a block")]
    StrayDelimiter,
    /// No section has this id.
    #[error("unknown section id {id}")]
    UnknownSection {
        /// The id.
        id: u8,
    },
    /// The bytes don't begin with the header of a module.
    #[error("not a WebAssembly module: expected the header 00 61 73 6D 01 00 00 00, found {}", beginning(.first, .len))]
    NotAModule {
        /// The first four bytes, little-endian. Each that is missing counts as 0.
        first: u32,
        /// Number of bytes of the input.
        len: usize,
    },
    /// The bytes have another version than that of a module.
    #[error("unsupported version {}", other_version(.version))]
    UnsupportedVersion {
        /// The four bytes after the magic number, little-endian.
        version: u32,
    },
    /// A part decodes, but isn't minimally encoded.
    #[error("not minimally encoded: {bytes} bytes, minimal is {minimal}")]
    NotMinimal {
        /// Length of the part in bytes.
        bytes: usize,
        /// Length of its minimal encoding.
        minimal: usize,
    },
    /// A part decodes, but a number or a form in it isn't minimally encoded.
    #[error("not minimally encoded")]
    LongForm,
    /// The bytes are refused for a reason that a check of it didn't confirm. No known input has it.
    #[error("malformed")]
    Unexplained,
}

/// The first malformed item of several, and the place where it begins.
#[derive(Clone, Copy, Debug, PartialEq, Eq)]
pub struct Stop {
    /// Number of bytes left at its start.
    pub left: usize,
    /// Number of items before it, but for those that were scanned.
    pub passed: usize,
    /// The fault in the item.
    pub fault: Fault,
}

impl Stop {
    /// Returns the stop at an item with `left` bytes up to the end, after this number of others.
    pub fn new(fault: Fault, left: usize, passed: usize) -> Stop
        ensures { result ≡ record { left = left; passed = passed; fault = fault } }
    {
        Stop {
            left,
            passed,
            fault,
        }
    }
}

impl From<AllocError> for Stop {
    ghost from_gives = { λ _ stop. stop.fault ≡ faults.Memory };

    fn from(_error: AllocError) -> Stop {
        Stop::new(Fault::Memory, 0, 0)
    }
}

impl<T: Drop> From<AllocFailed<T>> for Stop {
    ghost from_gives = { λ _ stop. stop.fault ≡ faults.Memory };

    fn from(_error: AllocFailed<T>) -> Stop {
        Stop::new(Fault::Memory, 0, 0)
    }
}

/// Why bytes are malformed, and where.
///
/// Loops and bodies add their numbers on the way out. Offsets are counted from the end of the bytes.
#[derive(Clone, Copy, Debug, PartialEq, Eq)]
pub struct Malformed {
    /// Why.
    pub reason: Reason,
    /// Number of bytes from the malformed part up to the end.
    pub left: usize,
    /// Number of bytes from the size of the innermost body around the part up to the end. `None` outside of bodies.
    pub body: Option<usize>,
    /// Id of the section. `None` outside of sections.
    pub section: Option<u8>,
    /// Number of items before it in the section's list.
    pub item: Option<u32>,
    /// Number of groups of locals before it in its code body.
    pub local_group: Option<u32>,
    /// Number of bytes from the start of the instruction up to the end.
    pub instruction: Option<usize>,
}

impl Malformed {
    /// Returns the fault that a number isn't this part. It begins with `left` bytes up to the end.
    #[cold]
    pub fn invalid_number(construct: Construct, number: u32, left: usize) -> Malformed {
        Malformed::new(Reason::InvalidNumber { construct, number }, left)
    }

    /// Returns the reason at the byte with `left` bytes up to the end.
    pub fn new(reason: Reason, left: usize) -> Malformed
        ensures item { result.item ≡ None }
    {
        Malformed {
            reason,
            left,
            body: None,
            section: None,
            item: None,
            local_group: None,
            instruction: None,
        }
    }

    /// Records that the part lies in the body whose size begins with `left` bytes up to the end, or in none.
    pub fn in_body(self, left: Option<usize>) -> Malformed
        ensures item { result.item ≡ self.item }
    {
        Malformed { body: left, ..self }
    }

    /// Records that the part lies in the section with this id.
    pub fn in_section(self, id: u8) -> Malformed
        ensures item { result.item ≡ self.item }
    {
        Malformed {
            section: Some(id),
            ..self
        }
    }

    /// Records that the part lies in the item with this index. An outer list replaces the index of an inner one.
    pub fn in_item(self, index: u32) -> Malformed
        ensures item { result.item ≡ Some index }
    {
        Malformed {
            item: Some(index),
            ..self
        }
    }

    /// Records that the part lies in no item.
    pub fn outside_items(self) -> Malformed
        ensures item { result.item ≡ None }
    {
        Malformed { item: None, ..self }
    }

    /// Records that the item is a group of locals.
    pub fn in_locals(self) -> Malformed {
        Malformed {
            item: None,
            local_group: self.item,
            ..self
        }
    }

    /// Records that the part lies in the instruction with `left` bytes up to the end.
    pub fn in_instruction(self, left: usize) -> Malformed {
        Malformed {
            instruction: Some(left),
            ..self
        }
    }
}
