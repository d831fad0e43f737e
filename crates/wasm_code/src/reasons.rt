//! Checks that the reason of a refusal is true of the bytes, before a call gives it.
//!
//! Readers note reasons without a promise. Each check looks at the few bytes that a reason is about.
ghost use Rattle.std.specs.Prelude.{◌≡◌, ◌<◌, ◌≤◌, ◌+◌, ◌-◌, ◌↔◌, true, false, ℕ, List, Some, None, drop, length, IfErr, IfNone, IfSome};
ghost use Rattle.wasm_codec.specs.Outcomes.{LiesIn, as_read, offsets_of, place_of_error, read_error_of, refused_place};
ghost use Rattle.wasm_codec.specs.Lawful.{head_of};
ghost use Rattle.wasm_codec.specs.Places.{place};
ghost use Rattle.wasm_codec.specs.formats.Bodies.{body_at};
ghost use Rattle.wasm_codec.specs.declared.reader.malformed.Reason.TheVariants.{TrailingBytes};
ghost use Rattle.wasm_code.specs.Reasons.{AgreesWith, BeginsWithU32, ErrorAgreesWith, HasBody, HasNoVersion, HasOtherVersion, HasTooLargeSize, Holds, HoldsAt, IsInside, IsNoModule, IsNoName, IsOutOfRangeOf, IsTrueOf, IsUnknownOpcode, LiesInBody, begins_with, end_of, ends_within, first_four, prefix_byte, stands_for};

use std::str;
use wasm_codec::reader::DecodeError;
use wasm_codec::reader::cursor::{Cursor, Fault};
use wasm_codec::reader::malformed::{Construct, Reason};
use wasm_codec::reader::refusal::Refusal;
use wasm_instructions::reader::take_opcode;
use wasm_instructions::table::Prefix;

/// Returns the same result, with a reason for a refusal that is true of the bytes.
pub fn explained<T>(
    given: Result<T, DecodeError>,
    bytes: &[u8],
    strict: bool,
) -> Result<T, DecodeError>
    ensures same { as_read result ≡ as_read given }
    ensures place { (len : ℕ) → IfErr given (LiesIn len) → IfErr result (LiesIn len) }
    ensures refused { refused_place result ≡ refused_place given }
    ensures why { IfErr result (IsTrueOf strict bytes.now) }
    // A reason that is true stays.
    ensures kept { IfErr given (λ error. LiesIn (length bytes.now) error → IsTrueOf strict bytes.now error → IfErr result (λ e. e ≡ error)) }
{
    match given {
        Ok(value) => Ok(value),
        Err(error) => Err(explained_error(error, bytes, strict)),
    }
}

/// Returns the same error, with a reason that is true of the bytes.
#[cold]
fn explained_error(error: DecodeError, bytes: &[u8], strict: bool) -> DecodeError
    ensures error { read_error_of result ≡ read_error_of error }
    ensures place { offsets_of result ≡ offsets_of error }
    ensures refusal { place_of_error result ≡ place_of_error error }
    ensures why { IsTrueOf strict bytes.now result }
    ensures kept { LiesIn (length bytes.now) error → IsTrueOf strict bytes.now error → result ≡ error }
{
    let DecodeError::Malformed(refusal) = error else {
        return DecodeError::Memory;
    };
    if holds(&refusal, bytes, strict) {
        return DecodeError::Malformed(refusal);
    }
    DecodeError::Malformed(Refusal {
        reason: Reason::Unexplained,
        ..refusal
    })
}

/// Returns the same error of a strict call, with its reason only if that agrees with the length of the longest prefix that
/// decodes in any encoding.
pub(crate) fn compared(error: DecodeError, len: usize) -> DecodeError
    ensures error { read_error_of result ≡ read_error_of error }
    ensures place { offsets_of result ≡ offsets_of error }
    ensures refusal { place_of_error result ≡ place_of_error error }
    ensures why { (bytes : List ℕ) → IsTrueOf true bytes error → IsTrueOf true bytes result }
    ensures agrees { ErrorAgreesWith len result }
{
    let DecodeError::Malformed(refusal) = error else {
        return DecodeError::Memory;
    };
    if agrees_with(&refusal, len) {
        return DecodeError::Malformed(refusal);
    }
    DecodeError::Malformed(Refusal {
        reason: Reason::Unexplained,
        ..refusal
    })
}

/// Checks whether the reason of a strict call agrees with the length of the longest prefix that decodes in any encoding.
fn agrees_with(refusal: &Refusal, len: usize) -> bool
    ensures { result ≡ true ↔ AgreesWith len refusal.now refusal.now.reason }
{
    match refusal.reason {
        Reason::NotMinimal { bytes: count, .. } => match refusal.offset.checked_add(count) {
            Some(end) => refusal.at < len && end <= len,
            None => false,
        },
        Reason::LongForm => refusal.at < len,
        Reason::Unexplained => true,
        _ => refusal.at == len,
    }
}

/// Checks whether the reason is true of the bytes at its offset, in the innermost body around them. Only `strict` calls
/// refuse what isn't minimally encoded.
fn holds(refusal: &Refusal, bytes: &[u8], strict: bool) -> bool
    ensures is_true { result ≡ true → Holds strict refusal.now.reason refusal.now.body refusal.now.offset bytes.now }
    ensures kept { refusal.now.offset ≤ length bytes.now → Holds strict refusal.now.reason refusal.now.body refusal.now.offset bytes.now → result ≡ true }
{
    let (body, offset) = (refusal.body, refusal.offset);
    match refusal.reason {
        Reason::UnexpectedEnd { construct: _ } => ends_at(body, offset, bytes),
        Reason::MissingEnd => ends_at(body, offset, bytes),
        Reason::TrailingBytes { count } => has_trailing(count, body, offset, bytes),
        Reason::SizeTooLarge { size, left } => {
            has_too_large_size(size, left, end_of(body, bytes), from(bytes, offset), bytes)
        }
        Reason::InvalidUtf8 { at } => is_no_name(at, offset, body, bytes),
        Reason::NotAModule { first, len } => {
            body.is_none() && offset == 0 && is_no_module(first, len, bytes)
        }
        Reason::UnsupportedVersion { version } => {
            body.is_none() && offset == 0 && has_other_version(version, bytes)
        }
        Reason::NotMinimal {
            bytes: count,
            minimal,
        } => strict && 0 < minimal && minimal < count && lies_in_body(body, offset, count, bytes),
        Reason::LongForm => strict && lies_in_body(body, offset, 1, bytes),
        Reason::Unexplained => true,
        other => match inside(body, offset, bytes) {
            Some(inside) => holds_at(other, inside),
            None => false,
        },
    }
}

/// Checks whether this number of bytes from the offset on lie in the body, or in the input outside of bodies.
fn lies_in_body(body: Option<usize>, offset: usize, count: usize, bytes: &[u8]) -> bool
    ensures { result ≡ true ↔ LiesInBody body offset count bytes.now }
{
    match (end_of(body, bytes), offset.checked_add(count)) {
        (Some(end), Some(after)) => after <= end,
        _ => false,
    }
}

/// Returns the bytes from the offset up to the end of the body. `None` means that there are none.
fn inside(body: Option<usize>, offset: usize, bytes: &[u8]) -> Option<&[u8]>
    ensures some { IfSome result (λ inside. IsInside body offset bytes.now inside.now) }
    ensures none { IfNone result ((end : ℕ) → end_of body bytes.now ≡ Some end → end ≤ offset) }
{
    match end_of(body, bytes) {
        Some(end) if offset < end => Some(&bytes[offset..end]),
        _ => None,
    }
}

/// Checks whether a reason about the next bytes alone is true of them.
fn holds_at(reason: Reason, bytes: &[u8]) -> bool
    ensures { result ≡ true ↔ HoldsAt reason bytes.now }
{
    match reason {
        Reason::NumberTooLong { most } => {
            (most == 5 || most == 10)
                && usize::from(most) <= bytes.len()
                && !ends_within(u32::from(most), bytes)
        }
        Reason::NumberOutOfRange { construct } => is_out_of_range(construct, bytes),
        Reason::InvalidByte { construct, byte } => {
            is_next(byte, bytes) && !begins_with(construct, byte)
        }
        Reason::InvalidNumber { construct, number } => {
            !stands_for(construct, number) && begins_with_u32(number, bytes)
        }
        Reason::UnknownOpcode { number } => is_unknown_opcode(None, number, bytes),
        Reason::UnknownPrefixedOpcode { prefix, number } => {
            is_unknown_opcode(Some(prefix), number, bytes)
        }
        Reason::InvalidAlignment { flags } => flags >= 128 && begins_with_u32(flags, bytes),
        Reason::StrayDelimiter => is_next(0x18, bytes),
        Reason::UnknownSection { id } => id > 13 && is_next(id, bytes),
        _ => false,
    }
}

/// Returns the bytes from this offset on: none if there are fewer.
#[tactic(auto, using(std::proofs::lemmas::List::drop_all))]
fn from(bytes: &[u8], offset: usize) -> &[u8]
    ensures { result.now ≡ drop offset bytes.now }
{
    if bytes.len() < offset {
        return &[];
    }
    bytes.split_at(offset).1
}

/// Checks whether this is the next byte.
fn is_next(byte: u8, bytes: &[u8]) -> bool
    ensures { result ≡ true ↔ head_of bytes.now ≡ Some byte }
{
    match bytes {
        [first, ..] => *first == byte,
        [] => false,
    }
}

/// Returns the offset at which the body ends whose size begins at `body`. Outside of bodies it is the end of the bytes.
fn end_of(body: Option<usize>, bytes: &[u8]) -> Option<usize>
    ensures { result ≡ end_of body bytes.now }
{
    let Some(at) = body else {
        return Some(bytes.len());
    };
    match body_at(at, bytes) {
        Some((_, left)) => Some(bytes.len().saturating_sub(left)),
        None => None,
    }
}

/// Returns the body whose size begins at this offset, and the number of bytes after it.
#[tactic(auto, using(crate::proofs::ReasonLaws::found_body))]
fn body_at(start: usize, bytes: &[u8]) -> Option<(&[u8], usize)>
    ensures found { IfSome result (λ found. HasBody start bytes.now found.0.now found.1) }
    ensures none { IfNone result (body_at (place true (drop start bytes.now)) ≡ None) }
{
    let mut cursor = Cursor::new(from(bytes, start));
    let Ok(mut body) = cursor.body() else {
        return None;
    };
    let size = body.len();
    match body.take(size, Construct::Body) {
        Ok(body) => Some((body, cursor.len())),
        Err(_) => None,
    }
}

/// Checks whether the body, or the input outside of bodies, ends at this offset.
fn ends_at(body: Option<usize>, offset: usize, bytes: &[u8]) -> bool
    ensures { result ≡ true ↔ end_of body bytes.now ≡ Some offset }
{
    match end_of(body, bytes) {
        Some(end) => end == offset,
        None => false,
    }
}

/// Checks whether the body, or the input outside of bodies, has `count` bytes more.
fn has_trailing(count: usize, body: Option<usize>, offset: usize, bytes: &[u8]) -> bool
    ensures { result ≡ true ↔ Holds false (TrailingBytes count) body offset bytes.now }
{
    match offset.checked_add(count) {
        Some(end) => count > 0 && ends_at(body, end, bytes),
        None => false,
    }
}

/// Checks whether one of the first `most` bytes is the last of a number in LEB128.
#[tactic(auto, using(crate::proofs::ReasonLaws::none_of_none, crate::proofs::ReasonLaws::none_in_none, crate::proofs::ReasonLaws::here, crate::proofs::ReasonLaws::later))]
fn ends_within(most: u32, bytes: &[u8]) -> bool
    ensures { result ≡ ends_within most bytes.now }
{
    if most == 0 {
        return false;
    }
    let Some((byte, rest)) = bytes.split_first() else {
        return false;
    };
    *byte < 128 || ends_within(most - 1, rest)
}

/// Checks whether the bytes begin with a number that is out of range of this part.
fn is_out_of_range(construct: Construct, bytes: &[u8]) -> bool
    ensures { result ≡ true ↔ IsOutOfRangeOf construct bytes.now }
{
    let mut cursor = Cursor::new(bytes);
    match construct {
        Construct::U32 => ends_within(5, bytes) && matches!(cursor.u32(), Err(Fault::Malformed(_))),
        Construct::U64 => ends_within(10, bytes)
            && matches!(cursor.u64(), Err(Fault::Malformed(_))),
        Construct::S32 => ends_within(5, bytes) && matches!(cursor.s32(), Err(Fault::Malformed(_))),
        Construct::S64 => ends_within(10, bytes)
            && matches!(cursor.s64(), Err(Fault::Malformed(_))),
        Construct::TypeIndex => {
            ends_within(5, bytes) && matches!(cursor.index(), Err(Fault::Malformed(_)))
        }
        _ => false,
    }
}

/// Checks whether the bytes begin with this number.
#[tactic(auto, using(crate::proofs::ReasonLaws::begins))]
fn begins_with_u32(number: u32, bytes: &[u8]) -> bool
    ensures { result ≡ true ↔ BeginsWithU32 number bytes.now }
{
    let mut cursor = Cursor::new(bytes);
    let Ok(read) = cursor.u32() else {
        return false;
    };
    read == number
}

/// Checks whether `rest`, the last of the bytes, begins with this size, and whether the `left` bytes after it up to `end`
/// are fewer.
fn has_too_large_size(size: u32, left: usize, end: Option<usize>, rest: &[u8], bytes: &[u8]) -> bool
    ensures { result ≡ true ↔ HasTooLargeSize size left end rest.now bytes.now }
{
    let mut cursor = Cursor::new(rest);
    match (cursor.u32(), end) {
        (Ok(read), Some(end)) => {
            let start = bytes.len().saturating_sub(cursor.len());
            read == size && left < size as usize && start <= end && end - start == left
        }
        _ => false,
    }
}

/// Checks whether a part of this kind may begin with this byte.
fn begins_with(construct: Construct, byte: u8) -> bool
    ensures { result ≡ begins_with construct byte }
{
    match construct {
        Construct::AbstractHeapType => (0x68..=0x75).contains(&byte),
        Construct::HeapType => {
            byte <= 0x3f
                || byte >= 0x80
                || byte == 0x62
                || byte == 0x65
                || (0x68..=0x75).contains(&byte)
        }
        Construct::RefType => (0x63..=0x65).contains(&byte) || (0x68..=0x75).contains(&byte),
        Construct::ValType => {
            (0x63..=0x65).contains(&byte)
                || (0x68..=0x75).contains(&byte)
                || (0x7b..=0x7f).contains(&byte)
        }
        Construct::TypeForm => {
            (0x4c..=0x50).contains(&byte) || (0x5d..=0x60).contains(&byte) || byte == 0x65
        }
        Construct::CompositeType => (0x5d..=0x60).contains(&byte),
        Construct::Table => {
            byte == 0x40 || (0x63..=0x65).contains(&byte) || (0x68..=0x75).contains(&byte)
        }
        Construct::Reserved | Construct::TagAttribute | Construct::ElementKind => byte == 0,
        Construct::Mutability | Construct::HandlerClause | Construct::Ordering => byte <= 1,
        Construct::BranchHint => byte <= 1,
        Construct::GlobalMutability | Construct::Clause | Construct::CastFlags => byte <= 3,
        Construct::ExportKind => byte <= 4,
        Construct::ImportKind => byte <= 4 || byte == 0x20,
        Construct::SymbolKind => byte <= 5,
        Construct::Limits => byte <= 7,
        Construct::MemoryFlags => byte <= 15,
        Construct::FeaturePrefix => byte == b'+' || byte == b'-',
        Construct::CoreDumpValue => byte == 1 || (0x7c..=0x7f).contains(&byte),
        _ => true,
    }
}

/// Checks whether this number stands for a part of this kind.
fn stands_for(construct: Construct, number: u32) -> bool
    ensures { result ≡ stands_for construct number }
{
    match construct {
        Construct::ElementForm => number <= 7,
        Construct::DataForm => number <= 2,
        Construct::LinkingVersion => number == 2,
        _ => true,
    }
}

/// Checks whether this byte, or none, comes before the number of an opcode with this prefix.
fn is_prefix_byte(byte: Option<u8>, prefix: Prefix) -> bool
    ensures { result ≡ true ↔ prefix_byte prefix ≡ byte }
{
    match (prefix, byte) {
        (Prefix::None, None) => true,
        (Prefix::Fb, Some(0xfb)) => true,
        (Prefix::Fc, Some(0xfc)) => true,
        (Prefix::Fd, Some(0xfd)) => true,
        (Prefix::Fe, Some(0xfe)) => true,
        _ => false,
    }
}

/// Checks whether the bytes begin with this opcode, and it isn't in the table.
#[tactic(auto, using(crate::proofs::ReasonLaws::unknown))]
fn is_unknown_opcode(prefix: Option<u8>, number: u32, bytes: &[u8]) -> bool
    ensures { result ≡ true ↔ IsUnknownOpcode prefix number bytes.now }
{
    let mut cursor = Cursor::new(bytes);
    let Ok(op) = take_opcode(&mut cursor) else {
        return false;
    };
    if op.number != number || !is_prefix_byte(prefix, op.prefix) {
        return false;
    }
    match op.kind() {
        Some(_) => false,
        None => true,
    }
}

/// Checks whether the body is a name that isn't UTF-8, and whether `offset` lies `at` bytes behind its start.
#[tactic(auto, using(crate::proofs::ReasonLaws::is_utf8_body))]
fn is_no_name(at: u32, offset: usize, body: Option<usize>, bytes: &[u8]) -> bool
    ensures { result ≡ true ↔ IsNoName at offset body bytes.now }
{
    let Some(start) = body else {
        return false;
    };
    let Some((name, left)) = body_at(start, bytes) else {
        return false;
    };
    let Err(error) = str::from_utf8(name) else {
        return false;
    };
    error.valid_up_to() == at as usize
        && offset as u128 + (name.len() as u128 + left as u128) == bytes.len() as u128 + at as u128
}

/// Checks whether the bytes don't begin with the magic number and a version, but with these four, and are `len`.
fn is_no_module(first: u32, len: usize, bytes: &[u8]) -> bool
    ensures { result ≡ true ↔ IsNoModule first len bytes.now }
{
    first == first_four(bytes) && len == bytes.len() && has_no_version(bytes)
}

/// Returns the first four bytes as a number, little-endian. Each that is missing counts as 0.
pub(crate) fn first_four(bytes: &[u8]) -> u32
    ensures { result ≡ first_four bytes.now }
{
    match bytes {
        [] => 0,
        [first] => u32::from(*first),
        [first, second] => u32::from(*first) + 256 * u32::from(*second),
        [first, second, third] => {
            u32::from(*first) + 256 * (u32::from(*second) + 256 * u32::from(*third))
        }
        [first, second, third, fourth, ..] => {
            let high = u32::from(*third) + 256 * u32::from(*fourth);
            u32::from(*first) + 256 * (u32::from(*second) + 256 * high)
        }
    }
}

/// Checks whether the bytes don't begin with the magic number and a version.
fn has_no_version(bytes: &[u8]) -> bool
    ensures { result ≡ true ↔ HasNoVersion bytes.now }
{
    match bytes.strip_prefix(b"\0asm") {
        Some(rest) => rest.len() < 4,
        None => true,
    }
}

/// Checks whether the bytes begin with the magic number and this version, which isn't 1.
fn has_other_version(version: u32, bytes: &[u8]) -> bool
    ensures { result ≡ true ↔ HasOtherVersion version bytes.now }
{
    match bytes {
        [0x00, 0x61, 0x73, 0x6d, first, second, third, fourth, ..] => {
            let high = u64::from(*third) + 256 * u64::from(*fourth);
            let told = u64::from(*first) + 256 * (u64::from(*second) + 256 * high);
            version != 1 && u64::from(version) == told
        }
        _ => false,
    }
}
