//! Copies a module from standard input to standard output without its custom sections.
//!
//! `read_module` borrows the section bodies from the bytes, and `ModuleWriter` writes them from there. The contract of
//! `strip` says what stays: the sections whose id isn't 0, in order, with minimally encoded sizes.
//!
//! Names and debug information are custom sections, so the program does what `wasm-strip` does. Linked modules run
//! without them; relocatable object files need theirs.
#![tactic(auto)]

mod strip;

use anyhow::Result;
use std::io::Read;

fn main(rt: HostRuntime) -> Result<()> {
    let mut bytes = Vec::new(rt.alloc());
    rt.stdin().read_to_end(&mut bytes)?;
    strip::strip(rt.alloc(), &bytes, rt.stdout())?;
    Ok(())
}
