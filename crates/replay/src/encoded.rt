//! Vectors of one encoded value: `encode`, the value's token, and its bytes.
ghost use Rattle.std.specs.Prelude.{⊤};
ghost use Rattle.wasm_encoder.specs.Leb128.{unsigned_leb128, signed_leb128};
ghost use Rattle.wasm_encoder.specs.Encoding.{IsCount, OnlyTooLong};
ghost use Rattle.replay.specs.declared.columns.Token.TheVariants as tokens;

use crate::columns::{Token, parse_token};
use crate::mismatch::Mismatch;
use crate::sink::arguments::{block_type, catch, handler, memarg, ordering};
use crate::type_tokens::{
    abstract_heap_type, field_type, heap_type, ref_type, storage_type, val_type,
};
use crate::words::items as list_items;
use crate::written::{Written, check_growth, check_growth_of_full, check_written};
use std::alloc::{Allocator, Global};
use wasm_encoder::{
    Encode, EncodeError, RefType, SectionId, ValType, encode_bytes, encode_list, encode_str,
};

/// Holds `encode` to the vector. One growth is enough, but for a list with items of several bytes.
pub fn check(alloc: Global, token: &str, hex: &str) -> Result<(), Mismatch> {
    let bytes = hex::decode(alloc, hex)?;
    let bytes = bytes.as_slice();
    let written = Written::Token(token);
    check_written(alloc, written, bytes)?;
    match token.split_once(':') {
        Some(("list", _)) if !has_short_items(bytes) => return Ok(()),
        Some(("list" | "bytes" | "str", _)) => check_growth_of_full(alloc, written, bytes)?,
        _ => {}
    }
    check_growth(alloc, 0, written, bytes)
}

/// Whether the bytes are a count of one byte, and as many items of one byte.
fn has_short_items(list: &[u8]) -> bool {
    matches!(list, [count, items @ ..] if items.len() == usize::from(*count))
}

/// Encodes the value that a token stands for.
pub fn encode<A: Allocator>(
    alloc: Global,
    token: &str,
    bytes: &mut Vec<u8, A>,
) -> Result<(), Mismatch> {
    let Some((kind, text)) = token.split_once(':') else {
        return encode_number(token, bytes);
    };
    match kind {
        "list" | "bytes" | "str" => encode_items(alloc, kind, text, bytes),
        "absheap" | "heap" | "ref" | "val" | "storage" => encode_type(kind, text, bytes),
        "field" => encode_known(field_type(text), bytes),
        "block" | "memarg" | "catch" | "handle" | "order" => encode_operand(token, bytes),
        "some" => encode_some(text, bytes),
        _ => encode_number(token, bytes),
    }
}

/// Encodes the value of a token. Fails with `NotUnderstood` if it has none.
fn encode_known<T: Encode + Drop, A: Allocator>(
    value: Option<T>,
    bytes: &mut Vec<u8, A>,
) -> Result<(), Mismatch> {
    let value = value.ok_or(Mismatch::NotUnderstood)?;
    Ok(value.encode(bytes)?)
}

/// Encodes a list of numbers, bytes or a text.
fn encode_items<A: Allocator>(
    alloc: Global,
    kind: &str,
    items: &str,
    bytes: &mut Vec<u8, A>,
) -> Result<(), Mismatch> {
    match kind {
        "list" if items.starts_with("[val:") => encode_each(alloc, items, value_type, bytes),
        "list" if items.starts_with("[ref:") => encode_each(alloc, items, reference_type, bytes),
        "list" => encode_each(alloc, items, number, bytes),
        "bytes" => Ok(encode_bytes(hex::decode(alloc, items)?.as_slice(), bytes)?),
        _ => {
            let text = String::from_utf8(hex::decode(alloc, items)?).ok();
            Ok(encode_str(text.ok_or(Mismatch::NotUnderstood)?.as_str(), bytes)?)
        }
    }
}

/// Encodes a list of what is read from its tokens.
fn encode_each<T: Encode + Drop, Read: Fn(&str) -> Option<T>, A: Allocator>(
    alloc: Global,
    list: &str,
    read: Read,
    bytes: &mut Vec<u8, A>,
) -> Result<(), Mismatch>
    requires { Read.IsAlwaysCallable read }
{
    let items = list_items(alloc, list, read)?;
    Ok(encode_list(items.as_slice(), bytes)?)
}

/// Encodes a type.
fn encode_type<A: Allocator>(
    kind: &str,
    text: &str,
    bytes: &mut Vec<u8, A>,
) -> Result<(), Mismatch> {
    match kind {
        "absheap" => encode_known(abstract_heap_type(text), bytes),
        "heap" => encode_known(heap_type(text), bytes),
        "ref" => encode_known(ref_type(text), bytes),
        "val" => encode_known(val_type(text), bytes),
        _ => encode_known(storage_type(text), bytes),
    }
}

/// Encodes an operand of instructions.
fn encode_operand<A: Allocator>(token: &str, bytes: &mut Vec<u8, A>) -> Result<(), Mismatch> {
    match token.split_once(':') {
        Some(("block", text)) => encode_known(block_type(text), bytes),
        Some(("memarg", text)) => encode_known(memarg(text), bytes),
        Some(("catch", _)) => encode_known(catch(token), bytes),
        Some(("order", text)) => encode_known(ordering(text), bytes),
        _ => encode_known(handler(token), bytes),
    }
}

/// Encodes the value of a token as a `Some`.
fn encode_some<A: Allocator>(token: &str, bytes: &mut Vec<u8, A>) -> Result<(), Mismatch> {
    match token.split_once(':') {
        Some(("val", text)) => encode_known(val_type(text).map(Some), bytes),
        Some(("ref", text)) => encode_known(ref_type(text).map(Some), bytes),
        _ => encode_known(number(token).map(Some), bytes),
    }
}

/// Encodes a number, one that is missing, or a section's id.
fn encode_number<A: Allocator>(token: &str, bytes: &mut Vec<u8, A>) -> Result<(), Mismatch> {
    match token.split_once(':') {
        None if token == "none" => Ok(None::<Token>.encode(bytes)?),
        Some(("sectionid", name)) => encode_known(section_id(name), bytes),
        _ => encode_known(number(token), bytes),
    }
}

/// Reads the value type that a token stands for.
fn value_type(token: &str) -> Option<ValType> {
    val_type(token.strip_prefix("val:")?)
}

/// Reads the reference type that a token stands for.
fn reference_type(token: &str) -> Option<RefType> {
    ref_type(token.strip_prefix("ref:")?)
}

/// Reads the number that a token stands for.
fn number(token: &str) -> Option<Token> {
    parse_token(token).ok()
}

fn section_id(name: &str) -> Option<SectionId> {
    Some(match name {
        "custom" => SectionId::Custom,
        "types" => SectionId::Types,
        "import" => SectionId::Import,
        "function" => SectionId::Function,
        "table" => SectionId::Table,
        "memory" => SectionId::Memory,
        "global" => SectionId::Global,
        "export" => SectionId::Export,
        "start" => SectionId::Start,
        "element" => SectionId::Element,
        "code" => SectionId::Code,
        "data" => SectionId::Data,
        "datacount" => SectionId::DataCount,
        "tag" => SectionId::Tag,
        _ => return None,
    })
}

/// The bytes of the number.
impl Encode for Token {
    ghost bytes = { elim [
      | tokens.U32 n ↦ unsigned_leb128 n
      | tokens.U64 n ↦ unsigned_leb128 n
      | tokens.I32 z ↦ signed_leb128 z
      | tokens.I64 z ↦ signed_leb128 z
      | tokens.Usize n ↦ unsigned_leb128 n
    ] };

    ghost CanEncode = { elim [
      | tokens.U32 n ↦ ⊤
      | tokens.U64 n ↦ ⊤
      | tokens.I32 z ↦ ⊤
      | tokens.I64 z ↦ ⊤
      | tokens.Usize n ↦ IsCount n
    ] };

    ghost refuses = { OnlyTooLong };

    fn encode<A: Allocator>(&self, sink: &mut Vec<u8, A>) -> Result<(), EncodeError> {
        match self {
            Token::U32(value) => value.encode(sink),
            Token::U64(value) => value.encode(sink),
            Token::I32(value) => value.encode(sink),
            Token::I64(value) => value.encode(sink),
            Token::Usize(value) => value.encode(sink),
        }
    }
}
