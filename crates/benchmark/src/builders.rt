//! Builds modules with one heavy section.

use crate::mix::write_mix;
use std::alloc::Global;
use std::io::Write;
use wasm_encoder::{
    CodeSection, ConstExpr, CustomSection, DataSection, ElementSection, EncodeError, EntityType,
    ExportKind, ExportSection, Function, GlobalSection, GlobalType, ImportSection, Module,
    ModuleWriter, TypeSection, ValType, WriteError,
};

/// The number of times that one function has the mix: about a thousand bytes.
const ROUNDS: u32 = 20;

/// The name of each import, export and custom section.
const NAME: &str = "a_function";

/// The functions of an element segment.
const INDEXES: [u32; 16] = [
    0, 1, 2, 3, 4, 5, 6, 7, 130, 131, 132, 133, 134, 135, 136, 137,
];

/// The bytes of a data segment.
const BYTES: &[u8] = b"sixteen bytes...";

/// The content of a module.
#[derive(Clone, Copy)]
pub enum Part {
    /// Functions, whose instructions the sink writes.
    Functions,
    /// Functions of given bytes.
    RawFunctions,
    /// Function types.
    Types,
    /// Imports of functions.
    Imports,
    /// Mutable globals with a constant.
    Globals,
    /// Exports of functions.
    Exports,
    /// Active element segments.
    Elements,
    /// Active data segments.
    Data,
    /// Custom sections of a thousand bytes.
    Custom,
}

/// Builds a module of so many items.
pub fn build(alloc: Global, part: Part, number: u32) -> Result<Vec<u8>, EncodeError> {
    let mut module = Module::new(alloc)?;
    match part {
        Part::Functions => module.section(&functions(alloc, number)?)?,
        Part::RawFunctions => module.section(&raw_functions(alloc, number)?)?,
        Part::Types => module.section(&types(alloc, number)?)?,
        Part::Imports => module.section(&imports(alloc, number)?)?,
        Part::Globals => module.section(&globals(alloc, number)?)?,
        Part::Exports => module.section(&exports(alloc, number)?)?,
        Part::Elements => module.section(&elements(alloc, number)?)?,
        Part::Data => module.section(&data(alloc, number)?)?,
        Part::Custom => add_custom_sections(&mut module, number)?,
    }
    Ok(module.finish())
}

/// Builds so many functions, and writes a module of them without a copy of their section.
pub fn write_functions<W: Write + Drop>(
    alloc: Global,
    number: u32,
    writer: W,
) -> Result<(), WriteError> {
    let code = functions(alloc, number)?;
    let mut module = ModuleWriter::new(alloc, writer)?;
    module.section(&code)?;
    module.finish()?;
    Ok(())
}

fn functions(alloc: Global, number: u32) -> Result<CodeSection, EncodeError> {
    let mut code = CodeSection::new(alloc);
    let mut function = Function::new(alloc, [])?;
    for index in 0..number {
        function.restart([(1, ValType::I32)])?;
        write_rounds(function.bytes_mut(), index)?;
        function.instructions().end()?;
        code.function(&function)?;
    }
    Ok(code)
}

fn write_rounds(code: &mut Vec<u8>, index: u32) -> Result<(), EncodeError> {
    for round in 0..ROUNDS {
        write_mix(code, index % 1000 + round)?;
    }
    Ok(())
}

fn raw_functions(alloc: Global, number: u32) -> Result<CodeSection, EncodeError> {
    let mut body = Vec::new(alloc);
    write_rounds(&mut body, 0)?;
    let mut code = CodeSection::new(alloc);
    let mut function = Function::new(alloc, [])?;
    for _ in 0..number {
        function.restart([(1, ValType::I32)])?;
        function.raw(&body)?;
        function.instructions().end()?;
        code.function(&function)?;
    }
    Ok(code)
}

fn types(alloc: Global, number: u32) -> Result<TypeSection, EncodeError> {
    let params = [ValType::I32, ValType::I32, ValType::I64];
    let mut types = TypeSection::new(alloc);
    for _ in 0..number {
        types
            .ty()
            .function(params.iter().copied(), [ValType::I32].iter().copied())?;
    }
    Ok(types)
}

fn imports(alloc: Global, number: u32) -> Result<ImportSection<'static>, EncodeError> {
    let mut imports = ImportSection::new(alloc);
    for index in 0..number {
        imports.import("env", NAME, EntityType::Function(index))?;
    }
    Ok(imports)
}

fn globals(alloc: Global, number: u32) -> Result<GlobalSection, EncodeError> {
    let mut globals = GlobalSection::new(alloc);
    for index in 0..number {
        let init = ConstExpr::i32_const(alloc, (index % 1000) as i32)?;
        globals.global(GlobalType::new(ValType::I32, true), init)?;
    }
    Ok(globals)
}

fn exports(alloc: Global, number: u32) -> Result<ExportSection<'static>, EncodeError> {
    let mut exports = ExportSection::new(alloc);
    for index in 0..number {
        exports.export(NAME, ExportKind::Func, index)?;
    }
    Ok(exports)
}

fn elements(alloc: Global, number: u32) -> Result<ElementSection, EncodeError> {
    let mut elements = ElementSection::new(alloc);
    for index in 0..number {
        let offset = ConstExpr::i32_const(alloc, (index % 1000) as i32)?;
        elements.active_functions(0, offset, &INDEXES)?;
    }
    Ok(elements)
}

fn data(alloc: Global, number: u32) -> Result<DataSection<'static>, EncodeError> {
    let mut data = DataSection::new(alloc);
    for index in 0..number {
        let offset = ConstExpr::i32_const(alloc, (index % 1000) as i32)?;
        data.active(0, offset, BYTES)?;
    }
    Ok(data)
}

fn add_custom_sections(module: &mut Module, number: u32) -> Result<(), EncodeError> {
    let bytes = [7; 1000];
    for _ in 0..number {
        module.section(&CustomSection {
            name: NAME,
            bytes: &bytes,
        })?;
    }
    Ok(())
}
