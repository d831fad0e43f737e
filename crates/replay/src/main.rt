//! Replays vectors: the lines of the files in `data/`. The calls of each are made and compared. It prints a line for each
//! vector that differs, and counts them.
#![tactic(auto)]

mod answers;
mod calls;
mod columns;
mod contents;
mod cuts;
mod decoded;
mod encoded;
mod entries;
mod kinds;
mod mismatch;
mod one_by_one;
mod readers;
mod refusals;
mod sections;
mod sink;
mod strict;
mod suites;
mod type_tokens;
mod words;
mod written;

use crate::suites::Suite;
use std::rt::Files;
use std::{fs, io};

/// The files, and what their lines are.
const FILES: [(&str, Suite); 20] = [
    ("sink.tsv", Suite::Sink),
    ("types.tsv", Suite::Types),
    ("answers.tsv", Suite::Answers),
    ("strict.tsv", Suite::Strict),
    ("linked.tsv", Suite::Answers),
    ("kinds.tsv", Suite::Kinds),
    ("worked_sink.tsv", Suite::Sink),
    ("worked_types.tsv", Suite::Types),
    ("worked_answers.tsv", Suite::Answers),
    ("worked_strict.tsv", Suite::Strict),
    ("cuts.tsv", Suite::Cuts),
    ("worked_sections.tsv", Suite::Decoded),
    ("worked_modules.tsv", Suite::Decoded),
    ("worked_contents.tsv", Suite::Contents),
    ("linked_contents.tsv", Suite::Contents),
    ("worked_refusals.tsv", Suite::Refusals),
    ("linked_sections.tsv", Suite::Decoded),
    ("every_section.tsv", Suite::Decoded),
    ("passive_elements.tsv", Suite::Decoded),
    ("try_table.tsv", Suite::Decoded),
];

fn replay(rt: &(impl Files + Print + AllocGlobal), name: &str, suite: Suite) -> io::Result<()> {
    let text = fs::read_to_string(rt, name)?;
    let mut vectors: u64 = 0;
    let mut differ: u64 = 0;
    for line in text.as_str().lines() {
        vectors = vectors.saturating_add(1);
        if let Err(mismatch) = suite.check(rt.alloc(), line) {
            differ = differ.saturating_add(1);
            println!(rt; "{name}:{vectors}: {mismatch}")?;
        }
    }
    println!(rt; "{name}: {vectors} vectors, {differ} differ")
}

fn main(rt: HostRuntime) -> io::Result<()> {
    for (name, suite) in FILES {
        replay(&rt, name, suite)?;
    }
    Ok(())
}
