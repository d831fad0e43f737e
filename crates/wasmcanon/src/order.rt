//! The order of a module's sections, and counts that must agree (Core 3.0, Modules).
ghost use Rattle.std.specs.Prelude.{false};
ghost use Rattle.wasmcanon.specs.Run.{Accepts, IfPlaced, NeverWrites, outcome_of};

use crate::run::Failure;
use std::alloc::Global;
use std::fmt;
use wasm_code::raw::{after_header, read_section};
use wasm_codec::reader::cursor::Cursor;
use wasm_listing::sections::kind_name;
use wasm_modules::order::{ModuleError, find_order_error};

/// A section that is out of order.
#[derive(Clone, Copy)]
pub struct MisplacedSection {
    /// Offset in bytes from the start of the module.
    at: usize,
    /// Id of the section.
    id: u8,
    /// Id of the section before it that isn't a custom one.
    after: u8,
}

/// Checks the order of a module's sections, and the counts that must agree. Accepts a malformed module.
///
/// Fails with `Disordered` if a rule is broken, and with `Memory` if memory runs out.
#[tactic(auto, using(crate::proofs::ResultLaws::found_in_order, crate::proofs::ResultLaws::found_out_of_order, crate::proofs::ResultLaws::failed_to_read))]
pub fn check_sections(alloc: Global, input: &[u8]) -> Result<(), Failure>
    // An input whose sections are out of order, or whose counts disagree, is refused.
    ensures accepts { Accepts false input.now (outcome_of result) }
    // The failure isn't `Refused`.
    ensures placed { IfPlaced result (λ _. ⊥) }
    // The failure isn't `Write`.
    ensures unwritten { NeverWrites result }
{
    match find_order_error(alloc, input)? {
        Some(error) => {
            let section = find_misplaced(input, &error);
            Err(Failure::Disordered { error, section })
        }
        None => Ok(()),
    }
}

/// Locates the section that the error names. Returns `None` if the error names no section.
fn find_misplaced(module: &[u8], error: &ModuleError) -> Option<MisplacedSection> {
    match error {
        ModuleError::OutOfOrder { index } => locate_misplaced(module, *index),
        _ => None,
    }
}

/// Locates the section at this index in the list of sections.
fn locate_misplaced(module: &[u8], index: usize) -> Option<MisplacedSection> {
    let mut cursor = Cursor::new(after_header(module)?);
    let mut after = 0;
    for _ in 0..index {
        let section = read_section(&mut cursor).ok()?;
        if section.id != 0 {
            after = section.id;
        }
    }
    let at = module.len().saturating_sub(cursor.len());
    let id = cursor.byte().ok()?;
    Some(MisplacedSection { at, id, after })
}

impl fmt::Display for MisplacedSection {
    fn fmt<W: fmt::Write>(&self, f: &mut fmt::Formatter<W>) -> fmt::Result {
        let MisplacedSection { at, id, after } = *self;
        let (name, before) = (kind_name(id), kind_name(after));
        if id == after {
            write!(f, "{name} section, offset {at:#x}: second {name} section")
        } else {
            write!(
                f,
                "{name} section, offset {at:#x}: out of order: expected before the {before} section"
            )
        }
    }
}

/// The message for a module that breaks a rule.
#[derive(Clone, Copy)]
pub struct DisorderMessage<'a> {
    /// The rule that the sections break.
    pub error: &'a ModuleError,
    /// The section that is out of order.
    pub section: Option<MisplacedSection>,
}

impl fmt::Display for DisorderMessage<'_> {
    fn fmt<W: fmt::Write>(&self, f: &mut fmt::Formatter<W>) -> fmt::Result {
        match self.error {
            ModuleError::OutOfOrder { index } => match self.section {
                Some(section) => section.fmt(f),
                None => write!(f, "section {index}: out of order"),
            },
            ModuleError::FunctionCount { functions, bodies } => write!(
                f,
                "code section: wrong number of functions: expected {functions} as in the function section, found {bodies}"
            ),
            ModuleError::DataCount { told, segments } => write!(
                f,
                "data section: wrong number of segments: expected {told} as in the data count section, found {segments}"
            ),
            ModuleError::MissingDataCount { body, instruction } => write!(
                f,
                "code section, function {body}, instruction {instruction}: data segment used without a data count section"
            ),
        }
    }
}
