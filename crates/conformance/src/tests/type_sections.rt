//! Type sections: what their calls write.

use super::{is, is_encoded};
use std::alloc::Global;
use std::iter::repeat_n;
use std::test::Fail;
use wasm_encoder::{
    ContType, EncodeError, Items, Module, RawSection, StorageType, TypeEntry, TypeSection, ValType,
    first_body, normalise_module, read_module, read_type_section,
};

/// The section has so many entries, and these bytes.
fn is_section(alloc: Global, types: &TypeSection, len: u32, hex: &str) -> Result<(), Fail> {
    if types.len() != len || types.is_empty() != (len == 0) {
        return Err(Fail::from(types.len()));
    }
    is_encoded(alloc, types, hex)
}

#[test]
fn a_group_is_one_entry(rt: HostRuntime) -> Result<(), Fail> {
    let mut types = TypeSection::new(rt.alloc());
    is_section(rt.alloc(), &types, 0, "0100")?;
    let empty = [TypeEntry::Rec(Items::new(rt.alloc()))];
    types.entries(empty.as_slice())?;
    is_section(rt.alloc(), &types, 1, "03014E00")?;
    drop(types.ty());
    is_section(rt.alloc(), &types, 1, "03014E00")
}

#[test]
fn a_copy_is_equal_and_apart(rt: HostRuntime) -> Result<(), Fail> {
    let mut types = TypeSection::new(rt.alloc());
    types.ty().cont(&ContType(64))?;
    let copy = types.try_clone()?;
    types.ty().array(&StorageType::I16, true)?;
    is_section(rt.alloc(), &copy, 1, "04015DC000")?;
    is_section(rt.alloc(), &types, 2, "07025DC0005E7701")
}

/// A section refuses a list that is too long before it asks for an item, and stays as it was.
#[test]
fn too_many_parameters(rt: HostRuntime) -> Result<(), Fail> {
    let mut types = TypeSection::new(rt.alloc());
    types.ty().cont(&ContType(0))?;
    let params = repeat_n(ValType::I32, 5_000_000_000);
    let refused = types.ty().function(params, [].iter().copied());
    assert!(rt; refused == Err(EncodeError::TooLong));
    is_section(rt.alloc(), &types, 1, "03015D00")
}

/// A module of a section of other bytes, and a type section of these entries and one more.
fn module_of(alloc: Global, entries: &[TypeEntry]) -> Result<Module, Fail> {
    let mut types = TypeSection::new(alloc);
    types.entries(entries)?;
    types.ty().cont(&ContType(64))?;
    let mut module = Module::new(alloc)?;
    module.section(&RawSection { id: 3, body: &[0] })?;
    module.section(&types)?;
    Ok(module)
}

/// A type section in a module is read back, entry by entry, and is normal.
#[test]
fn type_sections_are_read_back(rt: HostRuntime) -> Result<(), Fail> {
    let entries = read_type_section(
        rt.alloc(),
        b"\x02\x60\x02\x7f\x7f\x01\x7e\x4e\x01\x5e\x7f\x00",
    )?;
    let module = module_of(rt.alloc(), entries.as_slice())?;
    let hex = "0061736D01000000030100010F0360027F7F017E4E015E7F005DC000";
    is(rt.alloc(), module.as_slice(), hex)?;
    is(
        rt.alloc(),
        normalise_module(rt.alloc(), module.as_slice())?.as_slice(),
        hex,
    )?;
    begins_with(rt.alloc(), module.as_slice(), entries.as_slice())
}

/// The type section of a module of two sections has these entries and one more.
fn begins_with(alloc: Global, module: &[u8], entries: &[TypeEntry]) -> Result<(), Fail> {
    let sections = read_module(alloc, module)?;
    let body = first_body(sections.as_slice(), 1).ok_or("no type section")?;
    let read = read_type_section(alloc, body)?;
    if sections.len() == 2 && read.len() == 3 && read.get(..2) == Some(entries) {
        Ok(())
    } else {
        Err(Fail::from("other entries"))
    }
}
