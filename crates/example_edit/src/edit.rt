//! A module with a trace: two imports before the others, and what each function does with them first.
ghost use Rattle.std.specs.Prelude.{◌≤◌, IfOk, length};
ghost use Rattle.example_edit.specs.Renumbered.{IsRenumbered, raised};

use anyhow::Result;
use std::alloc::Global;
use wasm_encoder::{
    CodeBody, CodeSection, CustomSection, Encode, EncodeError, EntityType, Function, GlobalType,
    Import, ImportSection, IndexSpace, Items, Module, ModuleSection, NameSection, Renumbering,
    TypeEntry, TypeSection, ValType, WholeModule, map_all_indices, read,
};

/// The index of each import that is added, in its own index space.
const ADDED: u32 = 0;

/// Raises the indices of functions and globals by 1, because one more of each is imported before the others.
pub struct Traced;

impl Renumbering for Traced {
    ghost new_indices = { raised };

    fn new_index(&self, space: IndexSpace, index: u32) -> Result<u32, EncodeError> {
        match space {
            IndexSpace::Functions | IndexSpace::Globals => {
                index.checked_add(1).ok_or(EncodeError::TooLong)
            }
            _ => Ok(index),
        }
    }
}

/// Returns the module with the trace.
pub fn edit(alloc: Global, bytes: &[u8]) -> Result<Vec<u8>> {
    let sections = read_renumbered(alloc, bytes)?;
    let types = types_of(&sections);
    let imports = imports_of(&sections);
    let first_body = count_functions(imports).saturating_add(1);
    let (leading, others) = sections.split_at(count_leading(&sections));
    let mut module = Module::new(alloc)?;
    append_sections(alloc, &mut module, leading, first_body)?;
    module.section(&add_type(alloc, types)?)?;
    module.section(&add_imports(alloc, count_types(types), imports)?)?;
    append_sections(alloc, &mut module, others, first_body)?;
    Ok(module.finish())
}

/// Reads the sections, with indices that leave room for the imports.
fn read_renumbered<'a>(alloc: Global, bytes: &'a [u8]) -> Result<Vec<ModuleSection<'a>>>
    // The sections are those that the bytes encode. Indices of functions and globals are raised by 1, and nothing else
    // changes.
    ensures { IfOk result (λ sections. IsRenumbered bytes.now sections.items) }
{
    let sections = read::<WholeModule>(alloc, bytes)?;
    Ok(map_all_indices(alloc, &Traced, &sections)?)
}

/// Returns the number of custom sections before all other sections.
fn count_leading(sections: &[ModuleSection<'_>]) -> usize
    ensures { result ≤ length sections.now }
{
    for (index, section) in sections.iter().enumerate() {
        if !matches!(section, ModuleSection::Custom(_)) {
            return index;
        }
    }
    sections.len()
}

/// Returns the entries of the type section, if there is one.
fn types_of<'s>(sections: &'s [ModuleSection<'_>]) -> &'s [TypeEntry] {
    for section in sections {
        if let ModuleSection::Types(types) = section {
            return types.as_slice();
        }
    }
    &[]
}

/// Returns the imports, if there are any.
fn imports_of<'s, 'a>(sections: &'s [ModuleSection<'a>]) -> &'s [Import<'a>] {
    for section in sections {
        if let ModuleSection::Imports(imports) = section {
            return imports.as_slice();
        }
    }
    &[]
}

/// Returns the number of types.
fn count_types(types: &[TypeEntry]) -> u32 {
    let mut count: u32 = 0;
    for entry in types {
        let more = match entry {
            TypeEntry::Sub(_) => 1,
            TypeEntry::Rec(group) => u32::try_from(group.len()).unwrap_or(u32::MAX),
        };
        count = count.saturating_add(more);
    }
    count
}

/// Returns the number of functions among the imports.
fn count_functions(imports: &[Import<'_>]) -> u32 {
    let mut count: u32 = 0;
    for import in imports {
        if let EntityType::Function(_) | EntityType::FunctionExact(_) = import.ty {
            count = count.saturating_add(1);
        }
    }
    count
}

/// Returns a type section with one more type at the end: a number, and no result.
fn add_type(alloc: Global, types: &[TypeEntry]) -> Result<TypeSection, EncodeError> {
    let mut section = TypeSection::new(alloc);
    section.entries(types)?;
    section.ty().function([ValType::I32], [])?;
    Ok(section)
}

/// Returns an import section with the function and the counter before the other imports.
fn add_imports<'a>(
    alloc: Global,
    ty: u32,
    imports: &[Import<'a>],
) -> Result<ImportSection<'a>, EncodeError> {
    let mut section = ImportSection::new(alloc);
    section.import("trace", "enter", EntityType::Function(ty))?;
    let counter = GlobalType::new(ValType::I32, true);
    section.import("trace", "calls", EntityType::Global(counter))?;
    section.entries(imports)?;
    Ok(section)
}

/// Appends sections to the module.
fn append_sections(
    alloc: Global,
    module: &mut Module,
    sections: &[ModuleSection<'_>],
    first_body: u32,
) -> Result<()> {
    for section in sections {
        append_section(alloc, module, section, first_body)?;
    }
    Ok(())
}

/// Appends a section to the module. Those of types and imports are in it already.
fn append_section(
    alloc: Global,
    module: &mut Module,
    section: &ModuleSection<'_>,
    first_body: u32,
) -> Result<()> {
    match section {
        ModuleSection::Types(_) | ModuleSection::Imports(_) => {}
        ModuleSection::Code(bodies) => { module.section(&trace_calls(alloc, bodies, first_body)?)? }
        ModuleSection::Custom(custom) if custom.name == "name" => {
            let names = renumber_names(alloc, custom.bytes)?;
            module.section(&CustomSection {
                name: custom.name,
                bytes: names.as_slice(),
            })?
        }
        _ => module.section(section)?,
    }
    Ok(())
}

/// Returns the bodies, each of which first counts the call and hands the index of its function to the import.
fn trace_calls(
    alloc: Global,
    bodies: &Items<CodeBody>,
    first: u32,
) -> Result<CodeSection, EncodeError> {
    let mut section = CodeSection::new(alloc);
    let mut index = i32::try_from(first).map_err(|_| EncodeError::TooLong)?;
    for body in bodies {
        let mut function = Function::new(alloc, body.locals.as_slice().iter().copied())?;
        trace(&mut function, index)?;
        function.calls(body.calls.as_slice())?;
        section.function(&function)?;
        index = index.checked_add(1).ok_or(EncodeError::TooLong)?;
    }
    Ok(section)
}

/// Appends what the function with this index does first.
fn trace(function: &mut Function, index: i32) -> Result<(), EncodeError> {
    function
        .instructions()
        .global_get(ADDED)?
        .i32_const(1)?
        .i32_add()?
        .global_set(ADDED)?
        .i32_const(index)?
        .call(ADDED)?;
    Ok(())
}

/// Returns the contents of a name section with new indices.
fn renumber_names(alloc: Global, contents: &[u8]) -> Result<Vec<u8>> {
    let names = map_all_indices(alloc, &Traced, &read::<NameSection>(alloc, contents)?)?;
    let mut renumbered = Vec::new(alloc);
    for subsection in &names {
        subsection.encode(&mut renumbered)?;
    }
    Ok(renumbered)
}
