//! Vectors of type sections: `entry`, the words of one entry, its bytes, and the section of it; or `section`, the words
//! of some entries, the section, and how many entries it has.

use crate::mismatch::Mismatch;
use crate::sink::arguments::value_type;
use crate::type_tokens::{field_type, flag, storage_type};
use crate::words::{Words, items, number};
use std::alloc::Global;
use wasm_encoder::{
    ArrayType, CompositeInnerType, CompositeType, ContType, CoreTypeEncoder, Encode, EncodeError,
    FieldType, FuncType, Items, StructType, SubType, TypeEntry, TypeSection, read_type_section,
};

/// Holds an entry, the section of it, and the reader to the vector.
pub fn check_entry(alloc: Global, words: &str, hex: &str, section: &str) -> Result<(), Mismatch> {
    let mut types = TypeSection::new(alloc);
    let entry = add_entry(alloc, &mut Words::new(alloc, words)?, &mut types)?;
    check_bytes(alloc, &entry, hex)?;
    check_bytes(alloc, &types, section)?;
    check_types(alloc, &[entry], section)
}

/// `entries` writes the section, and the reader gives the entries back.
fn check_types(alloc: Global, entries: &[TypeEntry], section: &str) -> Result<(), Mismatch> {
    check_bytes(alloc, &section_of(alloc, entries)?, section)?;
    let section = hex::decode(alloc, section)?;
    if read_type_section(alloc, after_size(&section)?)?.as_slice() == entries {
        Ok(())
    } else {
        Err(Mismatch::Read)
    }
}

/// The value is encoded as these bytes.
fn check_bytes<T: Encode>(alloc: Global, value: &T, hex: &str) -> Result<(), Mismatch> {
    let expected = hex::decode(alloc, hex)?;
    let mut bytes = Vec::new(alloc);
    value.encode(&mut bytes)?;
    if bytes == expected {
        Ok(())
    } else {
        Err(Mismatch::Written)
    }
}

/// A section that `entries` filled.
fn section_of(alloc: Global, entries: &[TypeEntry]) -> Result<TypeSection, Mismatch> {
    let mut types = TypeSection::new(alloc);
    types.entries(entries)?;
    Ok(types)
}

/// The body of a section: the bytes after its size, whose last byte is the first below 128.
fn after_size(section: &[u8]) -> Result<&[u8], Mismatch> {
    let last = section.iter().position(|byte| *byte < 0x80);
    let rest = last.and_then(|last| section.get(last.saturating_add(1)..));
    rest.ok_or(Mismatch::NotUnderstood)
}

/// Holds a section of some entries to the vector.
pub fn check_section(alloc: Global, words: &str, hex: &str, len: &str) -> Result<(), Mismatch> {
    let types = add_entries(alloc, &mut Words::new(alloc, words)?)?;
    if number(len) != Some(types.len()) {
        return Err(Mismatch::Written);
    }
    check_bytes(alloc, &types, hex)
}

/// Makes the calls that the words give, after their number.
fn add_entries(alloc: Global, words: &mut Words<'_>) -> Result<TypeSection, Mismatch> {
    let count = words.read("entries", number)?;
    let mut types = TypeSection::new(alloc);
    for _ in 0..count {
        add_entry(alloc, words, &mut types)?;
    }
    Ok(types)
}

/// Makes the call that the words give, and gives the entry that it adds.
fn add_entry(
    alloc: Global,
    words: &mut Words<'_>,
    types: &mut TypeSection,
) -> Result<TypeEntry, Mismatch> {
    let call = words.next()?;
    let entry = entry(alloc, call, words)?;
    add(types.ty(), call, &entry)?;
    Ok(entry)
}

/// The entry that a call of this name adds.
fn entry(alloc: Global, call: &str, words: &mut Words<'_>) -> Result<TypeEntry, Mismatch> {
    Ok(match call {
        "subtype" => TypeEntry::Sub(sub_type(alloc, words)?),
        "rec" => TypeEntry::Rec(Items::from(group(alloc, words)?)),
        _ => final_entry(alloc, inner_type(alloc, call, words)?),
    })
}

/// Makes the call of this name that adds the entry.
fn add(types: CoreTypeEncoder<'_>, call: &str, entry: &TypeEntry) -> Result<(), EncodeError> {
    match entry {
        TypeEntry::Sub(ty) if call == "subtype" => types.subtype(ty),
        TypeEntry::Sub(ty) => add_inner(types, call, &ty.composite_type.inner),
        TypeEntry::Rec(_) => add_group(types, entry.try_clone()?),
    }
}

fn add_inner(
    types: CoreTypeEncoder<'_>,
    call: &str,
    inner: &CompositeInnerType,
) -> Result<(), EncodeError> {
    match inner {
        CompositeInnerType::Func(ty) => add_function(types, call, ty),
        CompositeInnerType::Array(ty) => types.array(&ty.0.element_type, ty.0.mutable),
        CompositeInnerType::Struct(ty) => types.struct_(ty.fields.as_slice().iter().copied()),
        CompositeInnerType::Cont(ty) => types.cont(ty),
    }
}

fn add_function(types: CoreTypeEncoder<'_>, call: &str, ty: &FuncType) -> Result<(), EncodeError> {
    if call == "func_type" {
        types.func_type(ty)
    } else {
        types.function(ty.params().iter().copied(), ty.results().iter().copied())
    }
}

fn add_group(types: CoreTypeEncoder<'_>, group: TypeEntry) -> Result<(), EncodeError> {
    match group {
        TypeEntry::Sub(ty) => types.subtype(&ty),
        TypeEntry::Rec(group) => types.rec(group.into_vec().into_iter()),
    }
}

/// The entry of one type: final, without supertypes, not shared.
fn final_entry(alloc: Global, inner: CompositeInnerType) -> TypeEntry {
    TypeEntry::Sub(SubType {
        is_final: true,
        supertype_idxs: Items::new(alloc),
        composite_type: CompositeType {
            inner,
            shared: false,
            descriptor: None,
            describes: None,
        },
    })
}

/// A field, as `field:1:i8`.
fn field(token: &str) -> Option<FieldType> {
    field_type(token.strip_prefix("field:")?)
}

/// Two lists of value types.
fn function(alloc: Global, words: &mut Words<'_>) -> Result<FuncType, Mismatch> {
    let params = words.items(alloc, "list", value_type)?;
    let results = words.items(alloc, "list", value_type)?;
    Ok(FuncType::new(alloc, params, results)?)
}

/// A storage type, and whether it can be written.
fn array(words: &mut Words<'_>) -> Result<ArrayType, Mismatch> {
    let element_type = words.read("storage", storage_type)?;
    let mutable = words.read("mut", flag)?;
    Ok(ArrayType(FieldType {
        element_type,
        mutable,
    }))
}

/// The types of a group, after their number.
fn group(alloc: Global, words: &mut Words<'_>) -> Result<Vec<SubType>, Mismatch> {
    let count = words.read("subs", number)?;
    let mut types = Vec::new(alloc);
    for _ in 0..count {
        types.push(sub_type(alloc, words)?)?;
    }
    Ok(types)
}

/// Reads `sub`, the parts before a composite type, and its inner type.
fn sub_type(alloc: Global, words: &mut Words<'_>) -> Result<SubType, Mismatch> {
    if words.next()? != "sub" {
        return Err(Mismatch::NotUnderstood);
    }
    let is_final = words.read("final", flag)?;
    let supertypes = words.value("supers")?;
    let shared = words.read("shared", flag)?;
    let describes = words.read("describes", optional_index)?;
    let descriptor = words.read("descriptor", optional_index)?;
    let inner = inner_type(alloc, words.next()?, words)?;
    Ok(SubType {
        is_final,
        supertype_idxs: Items::from(items(alloc, supertypes, number)?),
        composite_type: CompositeType {
            inner,
            shared,
            descriptor,
            describes,
        },
    })
}

/// `none` or an index.
fn optional_index(text: &str) -> Option<Option<u32>> {
    match text {
        "none" => Some(None),
        index => Some(Some(number(index)?)),
    }
}

/// Reads the inner type of a composite type, by its name or that of a call.
fn inner_type(
    alloc: Global,
    name: &str,
    words: &mut Words<'_>,
) -> Result<CompositeInnerType, Mismatch> {
    Ok(match name {
        "func" | "function" | "func_type" => CompositeInnerType::Func(function(alloc, words)?),
        "array" => CompositeInnerType::Array(array(words)?),
        "struct" | "struct_" => {
            let fields = words.items(alloc, "list", field)?;
            CompositeInnerType::Struct(StructType::new(alloc, fields.as_slice())?)
        }
        "cont" => CompositeInnerType::Cont(ContType(words.read("u32", number)?)),
        _ => return Err(Mismatch::NotUnderstood),
    })
}
