//! Counts the instructions of a module from standard input by their opcodes.
//!
//! Sections, functions and instructions come one after another, and none is kept: beside the module, the program needs
//! memory for one instruction and its counts.
#![tactic(auto)]

mod count;

use crate::count::Counts;
use anyhow::Result;
use std::io::Read;

fn main(rt: HostRuntime) -> Result<()> {
    let mut bytes = Vec::new(rt.alloc());
    rt.stdin().read_to_end(&mut bytes)?;
    let mut counts = Counts::new(rt.alloc())?;
    counts.add_module(rt.alloc(), &bytes)?;
    counts.print(&rt)?;
    Ok(())
}
