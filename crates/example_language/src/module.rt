//! Builds the module of a program.

use crate::compiler::Compiled;
use crate::faults::Fault;
use crate::names::{names_of, text_of};
use crate::program::{MOST_PARAMETERS, Program, Signature, Text};
use std::alloc::Global;
use wasm_encoder::sections::{ListSection, SectionItem, TagKind};
use wasm_encoder::{
    ConstExpr, DataCountSection, DataSection, ElementSection, Elements, EncodeError, EntityType,
    ExportKind, ExportSection, FuncType, FunctionSection, GlobalSection, GlobalType, ImportSection,
    MemorySection, MemoryType, Module, RefType, StartSection, TableSection, TableType, TagSection,
    TagType, TypeSection, ValType,
};

/// Name of the module that imported functions come from.
const IMPORTED: &str = "env";

/// Index of the type of the tags. Function types with fewer parameters come before it.
const TAG_TYPE: u32 = 9;

/// Index of the type of the function that runs at the start.
const START_TYPE: u32 = 10;

/// Returns the bytes of a module of a program, whose functions are compiled.
pub fn module_of(alloc: Global, program: &Program, compiled: &Compiled) -> Result<Vec<u8>, Fault> {
    let mut module = Module::new(alloc)?;
    module.section(&types(alloc)?)?;
    add(&mut module, &imports(alloc, program)?)?;
    add(&mut module, &functions(alloc, program)?)?;
    add_entities(alloc, program, &mut module)?;
    add(&mut module, &exports(alloc, program)?)?;
    add_start(program, &mut module)?;
    add(&mut module, &elements(alloc, program)?)?;
    module.section(&data_count(program)?)?;
    module.section(&compiled.code)?;
    add(&mut module, &data(alloc, program)?)?;
    module.section(&names_of(alloc, program, &compiled.locals)?)?;
    Ok(module.finish())
}

/// Adds the sections of the table, the memory, the tags and the globals.
fn add_entities(alloc: Global, program: &Program, module: &mut Module) -> Result<(), Fault> {
    add(module, &tables(alloc, program)?)?;
    add(module, &memories(alloc, program)?)?;
    add(module, &tags(alloc, program)?)?;
    add(module, &globals(alloc, program)?)?;
    Ok(())
}

/// Adds a section unless it is empty.
fn add<T: SectionItem>(module: &mut Module, section: &ListSection<T>) -> Result<(), EncodeError> {
    if section.is_empty() {
        return Ok(());
    }
    module.section(section)
}

/// Returns the types: functions of 0 to 8 parameters, the tags, and the function that runs at the start.
fn types(alloc: Global) -> Result<TypeSection, EncodeError> {
    let values = [ValType::I32; MOST_PARAMETERS];
    let mut types = TypeSection::new(alloc);
    for count in 0..MOST_PARAMETERS + 1 {
        types
            .ty()
            .function(values[..count].iter().copied(), [ValType::I32])?;
    }
    types.ty().function([ValType::I32], [])?;
    let nothing = FuncType::new(alloc, [], [])?;
    types.ty().func_type(&nothing)?;
    Ok(types)
}

/// Returns the imported functions.
fn imports<'a>(alloc: Global, program: &Program<'a>) -> Result<ImportSection<'a>, Fault> {
    let mut imports = ImportSection::new(alloc);
    for function in &program.imports {
        let name = text_of(function.name)?;
        imports.import(IMPORTED, name, EntityType::Function(function.parameters))?;
    }
    Ok(imports)
}

/// Returns the types of the functions with bodies.
fn functions(alloc: Global, program: &Program) -> Result<FunctionSection, EncodeError> {
    let mut functions = FunctionSection::new(alloc);
    for function in &program.functions {
        functions.function(function.parameters)?;
    }
    if program.start.is_some() {
        functions.function(START_TYPE)?;
    }
    Ok(functions)
}

/// Returns the table.
fn tables(alloc: Global, program: &Program) -> Result<TableSection, EncodeError> {
    let mut tables = TableSection::new(alloc);
    tables.table(TableType::new(RefType::FUNCREF, program.elements.len() as u64))?;
    Ok(tables)
}

/// Returns the memory.
fn memories(alloc: Global, program: &Program) -> Result<MemorySection, EncodeError> {
    let mut memories = MemorySection::new(alloc);
    memories.memory(MemoryType::new(u64::from(program.pages.unsigned_abs())))?;
    Ok(memories)
}

/// Returns the tags, each with a number.
fn tags(alloc: Global, program: &Program) -> Result<TagSection, EncodeError> {
    let mut tags = TagSection::new(alloc);
    for _ in &program.tags {
        tags.tag(TagType {
            kind: TagKind::Exception,
            func_type_idx: TAG_TYPE,
        })?;
    }
    Ok(tags)
}

/// Returns the globals.
fn globals(alloc: Global, program: &Program) -> Result<GlobalSection, EncodeError> {
    let mut globals = GlobalSection::new(alloc);
    for global in &program.globals {
        let init = ConstExpr::i32_const(alloc, global.value)?;
        globals.global(GlobalType::new(ValType::I32, true), init)?;
    }
    Ok(globals)
}

/// Returns the exports: the memory, and the functions under their names.
fn exports<'a>(alloc: Global, program: &Program<'a>) -> Result<ExportSection<'a>, Fault> {
    let mut exports = ExportSection::new(alloc);
    exports.export("memory", ExportKind::Memory, 0)?;
    for function in &program.functions {
        let Some(called) = program.function(function.name) else {
            return Err(Fault::Unknown);
        };
        exports.export(text_of(function.name)?, ExportKind::Func, called.index)?;
    }
    Ok(exports)
}

/// Adds the start section if the program has a start: the function after all others.
fn add_start(program: &Program, module: &mut Module) -> Result<(), Fault> {
    if program.start.is_none() {
        return Ok(());
    }
    let function_index = own_functions(program)?;
    Ok(module.section(&StartSection { function_index })?)
}

/// Returns the number of functions, without the one that runs at the start.
fn own_functions(program: &Program) -> Result<u32, Fault> {
    let count = program
        .imports
        .len()
        .saturating_add(program.functions.len());
    match u32::try_from(count) {
        Ok(count) => Ok(count),
        Err(_) => Err(Fault::TooLarge),
    }
}

/// Returns the elements of the table, and declares each function, so that `place` can refer to it.
fn elements(alloc: Global, program: &Program) -> Result<ElementSection, Fault> {
    let mut indexes = Vec::new(alloc);
    for name in &program.elements {
        let Some(called) = program.function(name) else {
            return Err(Fault::Unknown);
        };
        indexes.push(called.index)?;
    }
    let mut elements = ElementSection::new(alloc);
    elements.active(
        0,
        ConstExpr::i32_const(alloc, 0)?,
        Elements::functions(alloc, &indexes)?,
    )?;
    elements.declared(declared(alloc, program)?)?;
    Ok(elements)
}

/// Returns the indexes of all functions.
fn declared(alloc: Global, program: &Program) -> Result<Elements, Fault> {
    let mut indexes = Vec::new(alloc);
    for index in 0..own_functions(program)? {
        indexes.push(index)?;
    }
    Ok(Elements::functions(alloc, &indexes)?)
}

/// Returns the number of data segments.
fn data_count(program: &Program) -> Result<DataCountSection, Fault> {
    let count = program.texts.len().saturating_add(program.packed.len());
    match u32::try_from(count) {
        Ok(count) => Ok(DataCountSection { count }),
        Err(_) => Err(Fault::TooLarge),
    }
}

/// Returns the texts in memory, and those that are packed.
fn data(alloc: Global, program: &Program) -> Result<DataSection<'static>, Fault> {
    let mut data = DataSection::new(alloc);
    for text in &program.texts {
        let bytes = stored(alloc, text)?;
        data.active(0, ConstExpr::i32_const(alloc, text.address)?, &bytes)?;
    }
    for packed in &program.packed {
        data.passive(packed.1)?;
    }
    Ok(data)
}

/// Returns the length of a text in four bytes, and its bytes.
fn stored(alloc: Global, text: &Text) -> Result<Vec<u8>, Fault> {
    let Ok(length) = u32::try_from(text.bytes.len()) else {
        return Err(Fault::TooLarge);
    };
    let mut bytes = Vec::from_slice(alloc, &length.to_le_bytes())?;
    bytes.extend_from_slice(text.bytes)?;
    Ok(bytes)
}
