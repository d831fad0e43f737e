//! Names of functions and locals, which debuggers and stack traces show.

use crate::faults::Fault;
use crate::program::Program;
use std::alloc::Global;
use wasm_encoder::{IndirectNameMap, NameMap, NameSection};

/// Returns the name section of a program whose functions have these locals.
pub fn names_of(
    alloc: Global,
    program: &Program,
    locals: &IndirectNameMap,
) -> Result<NameSection, Fault> {
    let mut functions = Vec::new(alloc);
    for function in program.imports.iter().chain(program.functions.iter()) {
        functions.push(function.name)?;
    }
    let mut names = NameSection::new(alloc);
    names.functions(&name_map(alloc, &functions)?)?;
    names.locals(locals)?;
    Ok(names)
}

/// Returns a map of names to their places.
pub fn name_map(alloc: Global, names: &[&[u8]]) -> Result<NameMap, Fault> {
    let mut map = NameMap::new(alloc);
    for name in names {
        map.append(map.len(), text_of(name)?)?;
    }
    Ok(map)
}

/// Returns a name as text.
pub fn text_of(name: &[u8]) -> Result<&str, Fault> {
    str::from_utf8(name).map_err(|_| Fault::NotUtf8)
}
