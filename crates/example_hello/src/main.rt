//! Writes a WebAssembly module that prints a line through WASI.
//!
//! Standard output gets the module's bytes. Each section has a function of its own, and the function that writes
//! instructions takes `&mut Function`: these are the shapes that prove at once.
#![tactic(auto)]

use anyhow::Result;
use std::alloc::Global;
use std::io::Write;
use wasm_encoder::{
    CodeSection, ConstExpr, DataSection, EncodeError, EntityType, ExportKind, ExportSection,
    Function, FunctionSection, ImportSection, MemArg, MemorySection, MemoryType, Module,
    TypeSection, ValType,
};

/// Address of the line in memory.
const LINE: i32 = 8;

fn main(rt: HostRuntime) -> Result<()> {
    let module = hello(rt.alloc(), b"Hello, world!\n")?;
    rt.stdout().write_all(&module)?;
    Ok(())
}

/// Returns the bytes of a module that prints `line`.
fn hello(alloc: Global, line: &[u8]) -> Result<Vec<u8>, EncodeError> {
    let mut module = Module::new(alloc)?;
    module.section(&types(alloc)?)?;
    module.section(&imports(alloc)?)?;
    module.section(&functions(alloc)?)?;
    module.section(&memories(alloc)?)?;
    module.section(&exports(alloc)?)?;
    module.section(&code(alloc, line)?)?;
    module.section(&data(alloc, line)?)?;
    Ok(module.finish())
}

/// Returns the types: that of `fd_write`, and that of `_start`.
fn types(alloc: Global) -> Result<TypeSection, EncodeError> {
    let mut types = TypeSection::new(alloc);
    types.ty().function([ValType::I32; 4], [ValType::I32])?;
    types.ty().function([], [])?;
    Ok(types)
}

/// Returns the imports: function 0, which has type 0.
fn imports(alloc: Global) -> Result<ImportSection<'static>, EncodeError> {
    let mut imports = ImportSection::new(alloc);
    imports.import(
        "wasi_snapshot_preview1",
        "fd_write",
        EntityType::Function(0),
    )?;
    Ok(imports)
}

/// Returns the module's own functions: function 1, which has type 1.
fn functions(alloc: Global) -> Result<FunctionSection, EncodeError> {
    let mut functions = FunctionSection::new(alloc);
    functions.function(1)?;
    Ok(functions)
}

/// Returns a memory of one page.
fn memories(alloc: Global) -> Result<MemorySection, EncodeError> {
    let mut memories = MemorySection::new(alloc);
    memories.memory(MemoryType::new(1))?;
    Ok(memories)
}

/// Returns the names that WASI wants.
fn exports(alloc: Global) -> Result<ExportSection<'static>, EncodeError> {
    let mut exports = ExportSection::new(alloc);
    exports.export("memory", ExportKind::Memory, 0)?;
    exports.export("_start", ExportKind::Func, 1)?;
    Ok(exports)
}

/// Returns the body of `_start`.
fn code(alloc: Global, line: &[u8]) -> Result<CodeSection, EncodeError> {
    let Ok(length) = i32::try_from(line.len()) else {
        return Err(EncodeError::TooLong);
    };
    let mut start = Function::new(alloc, [])?; // no locals
    print_line(&mut start, length)?;
    let mut code = CodeSection::new(alloc);
    code.function(&start)?;
    Ok(code)
}

/// Appends the instructions of `_start`: the line's address and length go to addresses 0 and 4, and `fd_write` takes
/// them from there. It writes the number of printed bytes to address 0.
fn print_line(start: &mut Function, length: i32) -> Result<(), EncodeError> {
    let word = MemArg {
        offset: 0,
        align: 2,
        memory_index: 0,
    };
    start
        .instructions()
        .i32_const(0)?
        .i32_const(LINE)?
        .i32_store(word)?
        .i32_const(4)?
        .i32_const(length)?
        .i32_store(word)?
        .i32_const(1)? // standard output
        .i32_const(0)? // where the address and the length are
        .i32_const(1)? // one such pair
        .i32_const(0)? // where the number of bytes goes
        .call(0)?
        .drop()?
        .end()?;
    Ok(())
}

/// Returns the line, which is copied to its address when the module is instantiated.
fn data(alloc: Global, line: &[u8]) -> Result<DataSection<'static>, EncodeError> {
    let mut data = DataSection::new(alloc);
    data.active(0, ConstExpr::i32_const(alloc, LINE)?, line)?;
    Ok(data)
}
