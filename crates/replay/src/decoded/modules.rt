//! Modules: of one section, and of several; and whether their sections come in order.

use crate::decoded::bodies::{Answers, all_answers};
use crate::decoded::built::check_built;
use crate::decoded::{check_given, cut_at};
use crate::mismatch::Mismatch;
use std::alloc::Global;
use wasm_code::section::HEADER;
use wasm_codec::reader::ReadError;
use wasm_lists::encode::encode_bytes;
use wasm_modules::modules::read_whole_module;
use wasm_modules::order::{check_order, find_order_error};

/// The id of a section.
pub fn id_of(section: &str) -> u8 {
    match section {
        "types" => 1,
        "import" => 2,
        "function" => 3,
        "table" => 4,
        "memory" => 5,
        "global" => 6,
        "export" => 7,
        "start" => 8,
        "element" => 9,
        "code" => 10,
        "data" => 11,
        "data count" => 12,
        "tag" => 13,
        _ => 0,
    }
}

/// The module of one section.
pub fn module_of(alloc: Global, section: &str, body: &[u8]) -> Result<Vec<u8>, Mismatch> {
    let mut module = match Vec::from_slice(alloc, &HEADER) {
        Ok(module) => module,
        Err(_) => return Err(Mismatch::Memory),
    };
    let Ok(()) = module.extend_from_slice(&[id_of(section)]) else {
        return Err(Mismatch::Memory);
    };
    match encode_bytes(body, &mut module) {
        Ok(()) => Ok(module),
        Err(_) => Err(Mismatch::Memory),
    }
}

/// The module holds so many sections, and has this normal form, which the builders write; and so does each part of it.
pub fn check_module(
    alloc: Global,
    module: &[u8],
    normal: &[u8],
    count: usize,
) -> Result<(), Mismatch> {
    check_given(alloc, "module", module, normal, count)?;
    check_parts(alloc, module, normal, count)?;
    check_built(alloc, module, normal)
}

/// Each part of the module from its beginning is the module of its first sections, or is refused where the last whole one
/// ends.
fn check_parts(alloc: Global, module: &[u8], normal: &[u8], count: usize) -> Result<(), Mismatch> {
    let mut whole = 0;
    let mut sections: usize = 0;
    for len in 0..module.len() {
        let part = &module[..len];
        let answers = all_answers(alloc, "module", part)?;
        if answers.read == Ok(sections) {
            check_beginning(&answers, normal)?;
            whole = len;
            sections = sections.saturating_add(1);
        } else if cut_at(&answers, len)? != whole {
            return Err(Mismatch::Cut);
        }
    }
    if sections == count {
        Ok(())
    } else {
        Err(Mismatch::Cut)
    }
}

/// The normal form of a module's first sections is the beginning of that of the module.
fn check_beginning(answers: &Answers, normal: &[u8]) -> Result<(), Mismatch> {
    match &answers.normal {
        Ok(written) if normal.starts_with(written.as_slice()) => Ok(()),
        _ => Err(Mismatch::Cut),
    }
}

/// Checks that `check_order` of the module's sections answers this text, and `find_order_error` too.
pub fn check_order_of(alloc: Global, module: &[u8], answer: &str) -> Result<(), Mismatch> {
    let sections = match read_whole_module(alloc, module) {
        Ok(sections) => sections,
        Err(ReadError::Memory) => return Err(Mismatch::Memory),
        Err(_) => return Err(Mismatch::Read),
    };
    let told = match check_order(sections.as_slice()) {
        Ok(()) => format!(in alloc; "ok"),
        Err(why) => format!(in alloc; "{why}"),
    };
    match told {
        Ok(told) if told.as_str() == answer => check_encoded_order(alloc, module, answer),
        Ok(_) => Err(Mismatch::Order),
        Err(_) => Err(Mismatch::Memory),
    }
}

/// Checks that `find_order_error` answers this text.
fn check_encoded_order(alloc: Global, module: &[u8], answer: &str) -> Result<(), Mismatch> {
    let told = match find_order_error(alloc, module)? {
        None => format!(in alloc; "ok"),
        Some(why) => format!(in alloc; "{why}"),
    };
    match told {
        Ok(told) if told.as_str() == answer => Ok(()),
        Ok(_) => Err(Mismatch::Order),
        Err(_) => Err(Mismatch::Memory),
    }
}
