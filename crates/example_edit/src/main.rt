//! Adds a trace to a module: it reads the module from standard input, edits it, and writes it to standard output.
//!
//! The edited module imports the function `enter` and the global `calls` of the module `trace`, before its other
//! imports. Each of its functions first adds 1 to `calls`, and calls `enter` with its own index.
//!
//! `edit` reads every section, and `map_all_indices` raises the indices of functions and globals in all of them, also in
//! the name section. Code gets new instructions; the other sections are written back as they are. Indices and offsets in
//! other custom sections go stale.
#![tactic(auto)]

mod edit;

use anyhow::Result;
use std::io::{Read, Write};

fn main(rt: HostRuntime) -> Result<()> {
    let mut bytes = Vec::new(rt.alloc());
    rt.stdin().read_to_end(&mut bytes)?;
    let edited = edit::edit(rt.alloc(), &bytes)?;
    rt.stdout().write_all(&edited)?;
    Ok(())
}
