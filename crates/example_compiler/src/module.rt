//! Builds a module of a function.

use std::alloc::Global;
use wasm_encoder::{
    CodeSection, EncodeError, ExportKind, ExportSection, Function, FunctionSection, Module,
    TypeSection, ValType,
};

/// Name of the exported function.
pub const EXPORT_NAME: &str = "compute";

/// Returns the bytes of a module that exports a function of two parameters and one result.
pub fn module_of(alloc: Global, function: &Function) -> Result<Vec<u8>, EncodeError> {
    let mut functions = FunctionSection::new(alloc);
    functions.function(0)?;
    let mut exports = ExportSection::new(alloc);
    exports.export(EXPORT_NAME, ExportKind::Func, 0)?;
    let mut module = Module::new(alloc)?;
    module.section(&types(alloc)?)?;
    module.section(&functions)?;
    module.section(&exports)?;
    module.section(&code_of(alloc, function)?)?;
    Ok(module.finish())
}

/// Returns the type section: the type of the function.
fn types(alloc: Global) -> Result<TypeSection, EncodeError> {
    let mut types = TypeSection::new(alloc);
    types
        .ty()
        .function([ValType::I32, ValType::I32], [ValType::I32])?;
    Ok(types)
}

/// Returns the code section: the locals and instructions of the function.
fn code_of(alloc: Global, function: &Function) -> Result<CodeSection, EncodeError> {
    let mut code = CodeSection::new(alloc);
    code.function(function)?;
    Ok(code)
}
