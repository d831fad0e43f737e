//! Reasons as numbers. `bindings/c/nosgrivel.h` lists the codes.
ghost use Rattle.std.specs.Prelude.{◌≡◌, ◌⊎◌, Some, IfSome, IfNone};
ghost use Rattle.wasm_codec.specs.declared.reader.malformed.Construct.{Construct};
ghost use Rattle.wasm_codec.specs.declared.reader.malformed.Reason.{Reason};
ghost use Rattle.flat_refusals.specs.FlatRefusals.{Fits, NamesBytes, NamesPart, construct_code, flat_reason, naming, numbers};

use wasm_codec::reader::malformed::{Construct, Reason};

/// The bytes end before or inside a part.
pub const UNEXPECTED_END: u32 = 1;

/// A number has too many bytes.
pub const NUMBER_TOO_LONG: u32 = 2;

/// A number is too large or too small.
pub const NUMBER_OUT_OF_RANGE: u32 = 3;

/// A byte is none of those that may stand in its place.
pub const INVALID_BYTE: u32 = 4;

/// A number is none of those that may stand in its place.
pub const INVALID_NUMBER: u32 = 5;

/// An opcode of one byte is unknown.
pub const UNKNOWN_OPCODE: u32 = 6;

/// An opcode with a prefix is unknown.
pub const UNKNOWN_PREFIXED_OPCODE: u32 = 7;

/// The alignment of a memory argument is 64 or more.
pub const INVALID_ALIGNMENT: u32 = 8;

/// A name isn't UTF-8.
pub const INVALID_UTF8: u32 = 9;

/// Bytes follow after the last part.
pub const TRAILING_BYTES: u32 = 10;

/// A size is larger than the number of bytes left.
pub const SIZE_TOO_LARGE: u32 = 11;

/// An expression has no final `end`.
pub const MISSING_END: u32 = 12;

/// A `delegate` stands outside of a block.
pub const STRAY_DELIMITER: u32 = 13;

/// No section has this id.
pub const UNKNOWN_SECTION: u32 = 14;

/// The bytes don't begin with the header of a module.
pub const NOT_A_MODULE: u32 = 15;

/// The bytes have another version than that of a module.
pub const UNSUPPORTED_VERSION: u32 = 16;

/// A part decodes, but isn't minimally encoded.
pub const NOT_MINIMAL: u32 = 17;

/// A part decodes, but a number or a form in it isn't minimally encoded.
pub const LONG_FORM: u32 = 18;

/// The reason wasn't confirmed.
pub const UNEXPLAINED: u32 = 19;

/// A reason as numbers.
#[derive(Clone, Copy)]
pub(crate) struct FlatReason {
    /// Which reason. 0 means none.
    pub code: u32,
    /// Code of the part that it names. 0 means that it names none.
    pub construct: u32,
    /// The first number that it carries. 0 means that it carries none.
    pub first: u64,
    /// The second number that it carries. 0 means that it carries none.
    pub second: u64,
}

impl FlatReason {
    /// Returns a reason with two numbers.
    fn with(code: u32, first: u64, second: u64) -> FlatReason
        ensures { result ≡ numbers code first second }
    {
        FlatReason {
            code,
            construct: 0,
            first,
            second,
        }
    }

    /// Returns a reason with a part and a number.
    fn naming(code: u32, construct: Construct, first: u64) -> FlatReason
        ensures { result ≡ naming code construct first }
    {
        FlatReason {
            code,
            construct: construct_code(construct),
            first,
            second: 0,
        }
    }

    /// Returns the numbers of a reason.
    pub fn of(reason: Reason) -> FlatReason
        ensures { result ≡ flat_reason reason }
    {
        match reason {
            Reason::UnexpectedEnd { construct } => {
                FlatReason::naming(UNEXPECTED_END, construct, 0)
            }
            Reason::NumberOutOfRange { construct } => {
                FlatReason::naming(NUMBER_OUT_OF_RANGE, construct, 0)
            }
            Reason::InvalidByte { construct, byte } => {
                FlatReason::naming(INVALID_BYTE, construct, u64::from(byte))
            }
            Reason::InvalidNumber { construct, number } => {
                FlatReason::naming(INVALID_NUMBER, construct, u64::from(number))
            }
            other => FlatReason::of_numbers(other),
        }
    }

    /// Returns the numbers of a reason that names no part.
    fn of_numbers(reason: Reason) -> FlatReason
        ensures { NamesPart reason ⊎ (result ≡ flat_reason reason) }
    {
        let (code, first, second) = match reason {
            Reason::NumberTooLong { most } => (NUMBER_TOO_LONG, u64::from(most), 0),
            Reason::UnknownOpcode { number } => (UNKNOWN_OPCODE, u64::from(number), 0),
            Reason::UnknownPrefixedOpcode { prefix, number } => {
                (
                    UNKNOWN_PREFIXED_OPCODE,
                    u64::from(prefix),
                    u64::from(number),
                )
            }
            Reason::InvalidAlignment { flags } => (INVALID_ALIGNMENT, u64::from(flags), 0),
            Reason::InvalidUtf8 { at } => (INVALID_UTF8, u64::from(at), 0),
            Reason::TrailingBytes { count } => (TRAILING_BYTES, count as u64, 0),
            Reason::SizeTooLarge { size, left } => (SIZE_TOO_LARGE, u64::from(size), left as u64),
            Reason::MissingEnd => (MISSING_END, 0, 0),
            Reason::StrayDelimiter => (STRAY_DELIMITER, 0, 0),
            Reason::UnknownSection { id } => (UNKNOWN_SECTION, u64::from(id), 0),
            Reason::NotAModule { first, len } => (NOT_A_MODULE, u64::from(first), len as u64),
            Reason::UnsupportedVersion { version } => (UNSUPPORTED_VERSION, u64::from(version), 0),
            Reason::NotMinimal { bytes, minimal } => (NOT_MINIMAL, bytes as u64, minimal as u64),
            Reason::LongForm => (LONG_FORM, 0, 0),
            Reason::Unexplained => (UNEXPLAINED, 0, 0),
            _ => (0, 0, 0),
        };
        FlatReason::with(code, first, second)
    }

    /// Returns the reason that has these numbers. `None` means that no reason has them.
    pub fn reason(&self) -> Option<Reason>
        ensures { (reason : Reason) → Fits reason → self.now ≡ flat_reason reason → result ≡ Some reason }
    {
        match self.code {
            UNEXPECTED_END => Some(Reason::UnexpectedEnd {
                construct: construct_of(self.construct)?,
            }),
            NUMBER_OUT_OF_RANGE => Some(Reason::NumberOutOfRange {
                construct: construct_of(self.construct)?,
            }),
            INVALID_BYTE => Some(Reason::InvalidByte {
                construct: construct_of(self.construct)?,
                byte: u8::try_from(self.first).ok()?,
            }),
            INVALID_NUMBER => Some(Reason::InvalidNumber {
                construct: construct_of(self.construct)?,
                number: u32::try_from(self.first).ok()?,
            }),
            _ => self.reason_of_numbers(),
        }
    }

    /// Returns the reason that has these numbers, if it names no part.
    fn reason_of_numbers(&self) -> Option<Reason>
        ensures { (reason : Reason) → Fits reason → (NamesPart reason → ⊥) → self.now ≡ flat_reason reason → result ≡ Some reason }
    {
        match self.code {
            NUMBER_TOO_LONG => Some(Reason::NumberTooLong {
                most: u8::try_from(self.first).ok()?,
            }),
            NOT_MINIMAL => Some(Reason::NotMinimal {
                bytes: usize::try_from(self.first).ok()?,
                minimal: usize::try_from(self.second).ok()?,
            }),
            MISSING_END => Some(Reason::MissingEnd),
            STRAY_DELIMITER => Some(Reason::StrayDelimiter),
            LONG_FORM => Some(Reason::LongForm),
            UNEXPLAINED => Some(Reason::Unexplained),
            _ => self.reason_of_bytes(),
        }
    }

    /// Returns the reason that has these numbers, if it names bytes at its offset by numbers.
    fn reason_of_bytes(&self) -> Option<Reason>
        ensures { (reason : Reason) → Fits reason → NamesBytes reason → self.now ≡ flat_reason reason → result ≡ Some reason }
    {
        match self.code {
            UNKNOWN_OPCODE => Some(Reason::UnknownOpcode {
                number: u32::try_from(self.first).ok()?,
            }),
            UNKNOWN_PREFIXED_OPCODE => Some(Reason::UnknownPrefixedOpcode {
                prefix: u8::try_from(self.first).ok()?,
                number: u32::try_from(self.second).ok()?,
            }),
            INVALID_ALIGNMENT => Some(Reason::InvalidAlignment {
                flags: u32::try_from(self.first).ok()?,
            }),
            INVALID_UTF8 => Some(Reason::InvalidUtf8 {
                at: u32::try_from(self.first).ok()?,
            }),
            TRAILING_BYTES => Some(Reason::TrailingBytes {
                count: usize::try_from(self.first).ok()?,
            }),
            SIZE_TOO_LARGE => Some(Reason::SizeTooLarge {
                size: u32::try_from(self.first).ok()?,
                left: usize::try_from(self.second).ok()?,
            }),
            NOT_A_MODULE => Some(Reason::NotAModule {
                first: u32::try_from(self.first).ok()?,
                len: usize::try_from(self.second).ok()?,
            }),
            UNKNOWN_SECTION => Some(Reason::UnknownSection {
                id: u8::try_from(self.first).ok()?,
            }),
            UNSUPPORTED_VERSION => Some(Reason::UnsupportedVersion {
                version: u32::try_from(self.first).ok()?,
            }),
            _ => None,
        }
    }
}

/// Returns the code of a part of the binary format.
fn construct_code(construct: Construct) -> u32
    ensures { result ≡ construct_code construct }
{
    match construct {
        Construct::Byte => 1,
        Construct::Number => 2,
        Construct::U32 => 3,
        Construct::U64 => 4,
        Construct::S32 => 5,
        Construct::S64 => 6,
        Construct::TypeIndex => 7,
        Construct::Constant => 8,
        Construct::Body => 9,
        Construct::Name => 10,
        Construct::ValType => 11,
        Construct::HeapType => 12,
        Construct::RefType => 13,
        Construct::TypeForm => 14,
        Construct::Mutability => 15,
        Construct::Limits => 16,
        Construct::MemoryFlags => 17,
        Construct::Table => 18,
        Construct::TagAttribute => 19,
        Construct::ImportKind => 20,
        Construct::ExportKind => 21,
        Construct::Opcode => 22,
        Construct::BlockType => 23,
        Construct::Clause => 24,
        Construct::Ordering => 25,
        Construct::CastFlags => 26,
        Construct::ElementForm => 27,
        Construct::ElementKind => 28,
        Construct::DataForm => 29,
        Construct::SectionId => 30,
        Construct::SubsectionId => 31,
        Construct::Reserved => 32,
        Construct::AbstractHeapType => 33,
        Construct::HandlerClause => 34,
        Construct::CompositeType => 35,
        Construct::GlobalMutability => 36,
        Construct::BranchHint => 37,
        Construct::FeaturePrefix => 38,
        Construct::LinkingVersion => 39,
        Construct::SymbolKind => 40,
        Construct::CoreDumpValue => 41,
    }
}

/// Returns the part of the binary format that has this code. `None` means that no part has it.
fn construct_of(code: u32) -> Option<Construct>
    ensures some { IfSome result (λ construct. construct_code construct ≡ code) }
    ensures none { IfNone result ((construct : Construct) → construct_code construct ≡ code → ⊥) }
{
    Some(match code {
        1 => Construct::Byte,
        2 => Construct::Number,
        3 => Construct::U32,
        4 => Construct::U64,
        5 => Construct::S32,
        6 => Construct::S64,
        7 => Construct::TypeIndex,
        8 => Construct::Constant,
        9 => Construct::Body,
        10 => Construct::Name,
        11 => Construct::ValType,
        12 => Construct::HeapType,
        13 => Construct::RefType,
        14 => Construct::TypeForm,
        15 => Construct::Mutability,
        16 => Construct::Limits,
        17 => Construct::MemoryFlags,
        18 => Construct::Table,
        19 => Construct::TagAttribute,
        20 => Construct::ImportKind,
        21 => Construct::ExportKind,
        22 => Construct::Opcode,
        23 => Construct::BlockType,
        24 => Construct::Clause,
        25 => Construct::Ordering,
        26 => Construct::CastFlags,
        27 => Construct::ElementForm,
        28 => Construct::ElementKind,
        29 => Construct::DataForm,
        30 => Construct::SectionId,
        31 => Construct::SubsectionId,
        32 => Construct::Reserved,
        33 => Construct::AbstractHeapType,
        34 => Construct::HandlerClause,
        35 => Construct::CompositeType,
        36 => Construct::GlobalMutability,
        37 => Construct::BranchHint,
        38 => Construct::FeaturePrefix,
        39 => Construct::LinkingVersion,
        40 => Construct::SymbolKind,
        41 => Construct::CoreDumpValue,
        _ => return None,
    })
}
