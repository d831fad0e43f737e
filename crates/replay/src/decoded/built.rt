//! Modules that are built again, section by section.

use crate::mismatch::Mismatch;
use std::alloc::Global;
use wasm_encoder::sections::{ListSection, SectionItem};
use wasm_encoder::{
    CodeSection, DataCountSection, EncodeError, Module, ModuleSection, ReadError, StartSection,
    TypeSection, read_whole_module,
};

/// The builders write the normal form of the module, of what the reader gives. So does `from_sections`.
pub fn check_built(alloc: Global, module: &[u8], normal: &[u8]) -> Result<(), Mismatch> {
    let sections = match read_whole_module(alloc, module) {
        Ok(sections) => sections,
        Err(ReadError::Memory) => return Err(Mismatch::Memory),
        Err(_) => return Err(Mismatch::Read),
    };
    is_built(build(alloc, sections.as_slice()), normal)?;
    is_built(Module::from_sections(alloc, &sections), normal)
}

/// The module was built, and it is the normal form.
fn is_built(built: Result<Module, EncodeError>, normal: &[u8]) -> Result<(), Mismatch> {
    match built {
        Ok(module) if module.as_slice() == normal => Ok(()),
        Err(EncodeError::Memory) => Err(Mismatch::Memory),
        _ => Err(Mismatch::Built),
    }
}

/// The module of these sections.
fn build(alloc: Global, sections: &[ModuleSection<'_>]) -> Result<Module, EncodeError> {
    let mut module = Module::new(alloc)?;
    for section in sections {
        add(alloc, &mut module, section)?;
    }
    Ok(module)
}

/// Adds a section, as its builder writes it.
fn add(alloc: Global, module: &mut Module, section: &ModuleSection<'_>) -> Result<(), EncodeError> {
    match section {
        ModuleSection::Custom(custom) => module.section(custom),
        ModuleSection::Types(entries) => {
            let mut types = TypeSection::new(alloc);
            types.entries(entries.as_slice())?;
            module.section(&types)
        }
        ModuleSection::Imports(imports) => add_list(alloc, module, imports.as_slice()),
        ModuleSection::Functions(functions) => add_list(alloc, module, functions.as_slice()),
        ModuleSection::Tables(tables) => add_list(alloc, module, tables.as_slice()),
        ModuleSection::Memories(memories) => add_list(alloc, module, memories.as_slice()),
        ModuleSection::Globals(globals) => add_list(alloc, module, globals.as_slice()),
        ModuleSection::Exports(exports) => add_list(alloc, module, exports.as_slice()),
        ModuleSection::Start(function_index) => module.section(&StartSection {
            function_index: *function_index,
        }),
        ModuleSection::Elements(elements) => add_list(alloc, module, elements.as_slice()),
        ModuleSection::Code(bodies) => {
            let mut code = CodeSection::new(alloc);
            code.bodies(bodies.as_slice())?;
            module.section(&code)
        }
        ModuleSection::Data(segments) => add_list(alloc, module, segments.as_slice()),
        ModuleSection::DataCount(count) => module.section(&DataCountSection { count: *count }),
        ModuleSection::Tags(tags) => add_list(alloc, module, tags.as_slice()),
    }
}

/// Adds a section that is a list of these items.
fn add_list<T: SectionItem>(
    alloc: Global,
    module: &mut Module,
    items: &[T],
) -> Result<(), EncodeError> {
    let mut section: ListSection<T> = ListSection::new(alloc);
    section.entries(items)?;
    module.section(&section)
}
