//! The texts of reasons and refusals.

use std::alloc::Global;
use std::test::Fail;
use wasm_encoder::reader::{Construct, DecodeError, Reason, Refusal, SectionPlace};

/// Reasons and their texts.
const REASONS: [(Reason, &str); 21] = [
    (
        Reason::NumberTooLong { most: 5 },
        "LEB128 number too long: more than 5 bytes",
    ),
    (
        Reason::NumberTooLong { most: 10 },
        "LEB128 number too long: more than 10 bytes",
    ),
    (
        Reason::NumberOutOfRange {
            construct: Construct::U32,
        },
        "LEB128 number out of range of u32",
    ),
    (
        Reason::NumberOutOfRange {
            construct: Construct::TypeIndex,
        },
        "LEB128 number out of range of type index",
    ),
    (
        Reason::InvalidByte {
            construct: Construct::ValType,
            byte: 0x7a,
        },
        "invalid value type 0x7a",
    ),
    (
        Reason::InvalidByte {
            construct: Construct::Mutability,
            byte: 2,
        },
        "invalid mutability 0x02",
    ),
    (
        Reason::InvalidNumber {
            construct: Construct::ElementForm,
            number: 8,
        },
        "invalid element segment form 8",
    ),
    (
        Reason::UnknownOpcode { number: 0xff },
        "unknown opcode 0xFF",
    ),
    (
        Reason::UnknownPrefixedOpcode {
            prefix: 0xfd,
            number: 300,
        },
        "unknown opcode 0xFD 0x12C",
    ),
    (
        Reason::InvalidAlignment { flags: 128 },
        "alignment flags 128 out of range: expected less than 128",
    ),
    (
        Reason::InvalidUtf8 { at: 2 },
        "name isn't UTF-8 from its byte 2 on",
    ),
    (Reason::TrailingBytes { count: 2 }, "2 trailing bytes"),
    (
        Reason::SizeTooLarge { size: 5, left: 3 },
        "size 5 too large: 3 bytes left",
    ),
    (Reason::MissingEnd, "expression without a final end"),
    (Reason::StrayDelimiter, "delegate outside of a block"),
    (Reason::UnknownSection { id: 14 }, "unknown section id 14"),
    (
        Reason::UnsupportedVersion { version: 2 },
        "unsupported version 0x2: expected 1",
    ),
    (
        Reason::UnsupportedVersion { version: 0x1000d },
        "unsupported version 0x1000d: expected 1, found a component",
    ),
    (
        Reason::NotMinimal {
            bytes: 9,
            minimal: 6,
        },
        "not minimally encoded: 9 bytes, minimal is 6",
    ),
    (Reason::LongForm, "not minimally encoded"),
    (Reason::Unexplained, "malformed"),
];

/// The names of parts of the format.
const CONSTRUCTS: [(Construct, &str); 41] = [
    (Construct::Byte, "byte"),
    (Construct::Number, "LEB128 number"),
    (Construct::U32, "u32"),
    (Construct::U64, "u64"),
    (Construct::S32, "s32"),
    (Construct::S64, "s64"),
    (Construct::TypeIndex, "type index"),
    (Construct::Constant, "constant"),
    (Construct::Body, "body"),
    (Construct::Name, "name"),
    (Construct::ValType, "value type"),
    (Construct::HeapType, "heap type"),
    (Construct::RefType, "reference type"),
    (Construct::TypeForm, "type form"),
    (Construct::Mutability, "mutability"),
    (Construct::Limits, "limits flags"),
    (Construct::MemoryFlags, "memory flags"),
    (Construct::Table, "table"),
    (Construct::TagAttribute, "tag attribute"),
    (Construct::ImportKind, "import kind"),
    (Construct::ExportKind, "export kind"),
    (Construct::Opcode, "opcode"),
    (Construct::BlockType, "block type"),
    (Construct::Clause, "clause"),
    (Construct::Ordering, "memory ordering"),
    (Construct::CastFlags, "cast flags"),
    (Construct::ElementForm, "element segment form"),
    (Construct::ElementKind, "element kind"),
    (Construct::DataForm, "data segment form"),
    (Construct::SectionId, "section id"),
    (Construct::SubsectionId, "subsection id"),
    (Construct::Reserved, "reserved byte"),
    (Construct::AbstractHeapType, "abstract heap type"),
    (Construct::HandlerClause, "clause"),
    (Construct::CompositeType, "composite type"),
    (Construct::GlobalMutability, "mutability"),
    (Construct::BranchHint, "branch hint"),
    (Construct::FeaturePrefix, "feature prefix"),
    (Construct::LinkingVersion, "linking version"),
    (Construct::SymbolKind, "symbol kind"),
    (Construct::CoreDumpValue, "core dump value"),
];

/// The text for bytes that aren't a module, before what they look like.
const NOT_A_MODULE: &str =
    "not a WebAssembly module: expected the header 00 61 73 6D 01 00 00 00, found ";

/// The first four bytes of inputs that aren't modules, their lengths, and what they look like.
const BEGINNINGS: [([u8; 4], usize, &str); 17] = [
    ([0; 4], 0, "no bytes"),
    ([0; 4], 1, "a cut header"),
    (*b"\0as\0", 3, "a cut header"),
    (*b"\0asm", 7, "a cut header"),
    (*b"\x1f\x8b\x08\0", 20, "a gzip file"),
    (*b"BC\xc0\xde", 20, "LLVM bitcode"),
    (*b"!<ar", 20, "an `ar` archive"),
    (*b"!<th", 20, "an `ar` archive"),
    (*b"(mod", 20, "the text format"),
    (*b"(com", 20, "the text format"),
    (*b";; a", 20, "the text format"),
    (*b"#!/b", 20, "text"),
    (*b"\t~\r\n", 4, "text"),
    (*b"a\0\0\0", 1, "text"),
    (*b"abc\x7f", 20, "61 62 63 7F"),
    (*b"\x7fELF", 20, "7F 45 4C 46"),
    (*b"\0asn", 8, "00 61 73 6E"),
];

/// The sections and how a refusal in their second item begins.
const SECTIONS: [(u8, &str); 14] = [
    (0, "custom section, byte 1, "),
    (1, "type section, type 1, "),
    (2, "import section, import 1, "),
    (3, "function section, function 1, "),
    (4, "table section, table 1, "),
    (5, "memory section, memory 1, "),
    (6, "global section, global 1, "),
    (7, "export section, export 1, "),
    (8, "start section, function 1, "),
    (9, "element section, segment 1, "),
    (10, "code section, function 1, "),
    (11, "data section, segment 1, "),
    (12, "data count section, count 1, "),
    (13, "tag section, tag 1, "),
];

/// The reason says this.
fn says(alloc: Global, reason: Reason, text: &str) -> Result<(), Fail> {
    if reason.to_string(alloc)?.as_str() == text {
        Ok(())
    } else {
        Err(Fail::from(text))
    }
}

/// The refusal says this.
fn tells(alloc: Global, refusal: &Refusal, text: &str) -> Result<(), Fail> {
    if refusal.to_string(alloc)?.as_str() == text {
        Ok(())
    } else {
        Err(Fail::from(text))
    }
}

/// A refusal at offset 31 for an opcode, outside of sections.
const OUTSIDE: Refusal = Refusal {
    at: 8,
    offset: 31,
    body: None,
    section: None,
    item: None,
    local_group: None,
    instruction: None,
    reason: Reason::UnknownOpcode { number: 0xff },
};

#[test]
fn reasons(rt: HostRuntime) -> Result<(), Fail> {
    for (reason, text) in REASONS {
        says(rt.alloc(), reason, text)?;
    }
    Ok(())
}

#[test]
fn beginnings(rt: HostRuntime) -> Result<(), Fail> {
    for (first, len, found) in BEGINNINGS {
        let first = u32::from_le_bytes(first);
        let text = format!(in rt.alloc(); "{NOT_A_MODULE}{found}")?;
        says(rt.alloc(), Reason::NotAModule { first, len }, text.as_str())?;
    }
    Ok(())
}

#[test]
fn parts_of_the_format(rt: HostRuntime) -> Result<(), Fail> {
    for (construct, name) in CONSTRUCTS {
        let text = format!(in rt.alloc(); "unexpected end: expected {name}")?;
        says(
            rt.alloc(),
            Reason::UnexpectedEnd { construct },
            text.as_str(),
        )?;
    }
    Ok(())
}

#[test]
fn sections_and_items(rt: HostRuntime) -> Result<(), Fail> {
    for (id, place) in SECTIONS {
        let refusal = Refusal {
            section: Some(SectionPlace { number: 2, id }),
            item: Some(1),
            ..OUTSIDE
        };
        let text = format!(in rt.alloc(); "{place}offset 0x1f: unknown opcode 0xFF")?;
        tells(rt.alloc(), &refusal, text.as_str())?;
    }
    Ok(())
}

#[test]
fn places(rt: HostRuntime) -> Result<(), Fail> {
    tells(rt.alloc(), &OUTSIDE, "offset 0x1f: unknown opcode 0xFF")?;
    let item = Refusal {
        item: Some(7),
        ..OUTSIDE
    };
    tells(
        rt.alloc(),
        &item,
        "item 7, offset 0x1f: unknown opcode 0xFF",
    )?;
    let unknown = Refusal {
        section: Some(SectionPlace { number: 3, id: 14 }),
        reason: Reason::UnknownSection { id: 14 },
        ..OUTSIDE
    };
    tells(
        rt.alloc(),
        &unknown,
        "section 3, offset 0x1f: unknown section id 14",
    )?;
    let local = Refusal {
        section: Some(SectionPlace { number: 3, id: 10 }),
        item: Some(12),
        local_group: Some(4),
        ..OUTSIDE
    };
    tells(
        rt.alloc(),
        &local,
        "code section, function 12, local group 4, offset 0x1f: unknown opcode 0xFF",
    )
}

#[test]
fn decode_errors(rt: HostRuntime) -> Result<(), Fail> {
    let memory = DecodeError::Memory.to_string(rt.alloc())?;
    assert_eq!(rt; memory.as_str(), "no memory");
    let malformed = DecodeError::Malformed(OUTSIDE).to_string(rt.alloc())?;
    assert_eq!(rt; malformed.as_str(), "offset 0x1f: unknown opcode 0xFF");
    Ok(())
}
