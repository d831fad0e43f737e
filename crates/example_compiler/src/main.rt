//! Compiles an arithmetic expression to a WebAssembly module, and reads the module back.
//!
//! The modules follow the steps of a compiler: `compiler` turns tokens into instructions, `module` puts sections into a
//! module, and `report` reads the module. No step can panic: for a malformed expression the program prints a message
//! and exits with status 1.
//!
//! Standard input is an expression of numbers, the parameters `a` and `b`, `+`, `-`, `*` and parentheses. The module
//! exports a function `compute` of `a` and `b`. Without arguments the program prints the bytes of the module and its
//! contents. With the argument `module` it writes the module itself.
#![tactic(auto)]

mod compiler;
mod module;
mod report;
mod tokens;

use anyhow::{Result, bail};
use std::io::Write;
use std::{env, io};

fn main(rt: HostRuntime) -> Result<()> {
    let is_module_wanted = is_module_wanted(&rt)?;
    let text = io::read_to_string(rt.alloc(), rt.stdin())?;
    let function = compiler::compile(rt.alloc(), text.as_str())?;
    let bytes = module::module_of(rt.alloc(), &function)?;
    if is_module_wanted {
        rt.stdout().write_all(&bytes)?;
        return Ok(());
    }
    report::print(&rt, &bytes)
}

/// Returns whether the argument asks for the module itself. Fails if there is another argument.
fn is_module_wanted(rt: &HostRuntime) -> Result<bool> {
    match env::args(rt)?.nth(1) {
        None => Ok(false),
        Some(word) if word.as_str() == "module" => Ok(true),
        Some(_) => bail!("usage: example_compiler [module]"),
    }
}
