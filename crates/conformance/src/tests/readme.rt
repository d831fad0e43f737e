//! The example of the README, word for word.

use super::is;
use std::alloc::Global;
use std::test::Fail;
use wasm_encoder::{
    CodeSection, EncodeError, ExportKind, ExportSection, Function, FunctionSection, Module,
    TypeSection, ValType, check_order, normalise_whole_module, read_whole_module,
};

fn add_module(alloc: Global) -> Result<Vec<u8>, EncodeError> {
    let mut module = Module::new(alloc)?;
    module.section(&types(alloc)?)?; // one type: (i32, i32) -> i32
    module.section(&functions(alloc)?)?; // one function of that type
    module.section(&exports(alloc)?)?; // its name: "add"
    module.section(&code(alloc)?)?; // its body
    Ok(module.finish())
}

fn code(alloc: Global) -> Result<CodeSection, EncodeError> {
    let mut add = Function::new(alloc, [])?; // no locals
    let sink = add.instructions();
    sink.local_get(0)?.local_get(1)?.i32_add()?.end()?;
    let mut code = CodeSection::new(alloc);
    code.function(&add)?;
    Ok(code)
}

/// A section with the type of functions that take two numbers and return one.
fn types(alloc: Global) -> Result<TypeSection, EncodeError> {
    let mut types = TypeSection::new(alloc);
    types
        .ty()
        .function([ValType::I32, ValType::I32], [ValType::I32])?;
    Ok(types)
}

/// A section with one function, of type 0.
fn functions(alloc: Global) -> Result<FunctionSection, EncodeError> {
    let mut functions = FunctionSection::new(alloc);
    functions.function(0)?;
    Ok(functions)
}

/// A section that exports function 0 as `add`.
fn exports(alloc: Global) -> Result<ExportSection<'static>, EncodeError> {
    let mut exports = ExportSection::new(alloc);
    exports.export("add", ExportKind::Func, 0)?;
    Ok(exports)
}

#[test]
fn a_module_that_adds(rt: HostRuntime) -> Result<(), Fail> {
    let module = add_module(rt.alloc())?;
    let module = module.as_slice();
    let hex = "0061736D0100000001070160027F7F017F030201000707010361646400000A09010700200020016A0B";
    is(rt.alloc(), module, hex)?;
    let sections = read_whole_module(rt.alloc(), module)?;
    assert_eq!(rt; sections.len(), 4);
    assert!(rt; check_order(sections.as_slice()).is_ok());
    is(
        rt.alloc(),
        normalise_whole_module(rt.alloc(), module)?.as_slice(),
        hex,
    )
}
