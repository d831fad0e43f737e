//! Compiles a small language to a WebAssembly module.
//!
//! Standard input is a program, standard output gets the module. All values are 32-bit integers. A line is a declaration
//! or a statement:
//!
//! ```text
//! import NAME(NAME, ..)      a function of the host's module `env`
//! memory NUMBER              the size of the memory in pages of 64 KiB; otherwise it is 1
//! global NAME = NUMBER
//! text NAME = "TEXT"         a text in memory, after its length in four bytes; NAME is the address of the length
//! packed NAME = "TEXT"       a text that is in memory only after `unpack NAME ADDRESS`
//! tag NAME                   a kind of exception, with a number
//! table NAME, ..             functions that are called by their place in the table
//! start NAME                 a function without parameters that runs when the module is instantiated
//! fn NAME(NAME, ..)          a function, up to `end`; it is exported, and returns 0 if no statement returns
//! var NAME = VALUE           set NAME = VALUE           do VALUE           return VALUE
//! while VALUE .. end         if VALUE .. else .. end
//! unpack NAME ADDRESS        place NAME INDEX           (puts a function into the table)
//! throw TAG VALUE            try .. catch TAG NAME .. end
//! ```
//!
//! A value has numbers, names, `+ - * / % < > = & |`, parentheses and calls. `load(ADDRESS)` and
//! `store(ADDRESS, VALUE)` access the memory, and `table(VALUE, .., PLACE)` calls a function of the table. A `#` begins a
//! comment.
//!
//! `tokens` splits a line, and `program` reads the declarations. `compiler` takes one line after the other; `blocks`,
//! `statements`, `expression` and `operators` append instructions. `module` builds the sections, and `names` the name
//! section. No step can panic: the program prints a message for the first wrong line, and exits with status 1.
#![tactic(auto)]

mod blocks;
mod compiler;
mod expression;
mod faults;
mod module;
mod names;
mod operators;
mod program;
mod statements;
mod tokens;

use crate::faults::CompileError;
use crate::program::Program;
use anyhow::Result;
use std::alloc::Global;
use std::io;
use std::io::Write;

fn main(rt: HostRuntime) -> Result<()> {
    let text = io::read_to_string(rt.alloc(), rt.stdin())?;
    let module = compile(rt.alloc(), text.as_str())?;
    rt.stdout().write_all(&module)?;
    Ok(())
}

/// Compiles a program.
fn compile(alloc: Global, text: &str) -> Result<Vec<u8>, CompileError> {
    let program = Program::read(alloc, text)?;
    let compiled = compiler::compile_functions(alloc, &program, text)?;
    module::module_of(alloc, &program, &compiled).map_err(|fault| CompileError { line: 0, fault })
}
