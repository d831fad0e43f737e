//! The order of sections, and counts that must agree (Core 3.0, Modules).
ghost use Rattle.std.specs.Prelude.{◌≡◌, OnOk, IfErr, IfOk, IfSome, IfNone};
ghost use Rattle.wasm_sections.specs.formats.ModuleSectionParts.{module_section_parts, all_module_section_parts};
ghost use Rattle.wasm_modules.specs.ModuleOrder.{code_bodies, facts_of, IsModule, IsWhyNot, OfModule};

mod check;
mod data_uses;
mod encoded;
mod opcodes;

use crate::order::check::{OrderCheck, SectionFacts};
use crate::order::data_uses::{InstructionPlace, find_data_use};
pub use encoded::find_order_error;
use thiserror::Error;
use wasm_code::code::CodeBody;
use wasm_sections::module_sections::ModuleSection;

/// A rule that the sections of a module break.
#[derive(Debug, PartialEq, Eq, Drop, Error)]
pub enum ModuleError {
    /// A section other than a custom one comes after a section that it must precede, or a second time.
    #[error("section {index} is out of order")]
    OutOfOrder {
        /// Position in the list of the first such section, from 0.
        index: usize,
    },
    /// The function section and the code section have different lengths.
    #[error("function section has {functions} functions, but the code section has {bodies} bodies")]
    FunctionCount {
        /// Number of functions in the function section.
        functions: usize,
        /// Number of bodies in the code section.
        bodies: usize,
    },
    /// The data count section differs from the number of data segments.
    #[error("data count section says {told}, but the module has {segments} data segments")]
    DataCount {
        /// Number in the data count section.
        told: u32,
        /// Number of segments in the data section.
        segments: usize,
    },
    /// Code names a data segment, but the module has no data count section.
    #[error("code body {body}, instruction {instruction}: data segment used without a data count section")]
    MissingDataCount {
        /// Index in the code section of the first body that names a data segment, from 0.
        body: usize,
        /// Index in that body of the first instruction that names one, from 0.
        instruction: usize,
    },
}

/// Checks the order of sections and the counts that must agree (Core 3.0, Modules).
///
/// The standard's order is: types, imports, functions, tables, memories, tags, globals, exports, start, elements, data
/// count, code, data. Each may come once; custom sections may come anywhere. Fails with `OutOfOrder` if the sections
/// break that order. Fails with `FunctionCount` unless there are as many code bodies as functions. Fails with
/// `DataCount` if a data count section differs from the number of data segments. Fails with `MissingDataCount` if code
/// has a `memory.init`, `data.drop`, `array.new_data` or `array.init_data` without a data count section.
///
/// # Examples
///
/// ```
/// # use wasm_encoder::sections::ModuleError;
/// # use wasm_encoder::{ModuleSection, check_order};
/// let sections = [ModuleSection::DataCount(0), ModuleSection::Start(0)];
/// assert_eq!(rt; check_order(&sections), Err(ModuleError::OutOfOrder { index: 1 }));
/// ```
pub fn check_order(sections: &[ModuleSection<'_>]) -> Result<(), ModuleError>
    // If it succeeds, the sections are in order, counts agree, and code that names data segments has a data count.
    ensures ok { OnOk result (IsModule (all_module_section_parts sections.now)) }
    // The error names a rule that the sections break, and the first place or the numbers that break it.
    ensures why { IfErr result (IsWhyNot (all_module_section_parts sections.now)) }
{
    let mut check = OrderCheck::new();
    for (index, section) in sections.iter().enumerate() {
        check.section(index, facts_of(section))?;
    }
    let data_use = if check.needs_data_use() {
        find_data_use(find_code_bodies(sections))
    } else {
        None
    };
    check.finish(data_use)
}

/// Returns what the order of the section and its counts depend on.
fn facts_of(section: &ModuleSection<'_>) -> SectionFacts
    ensures { result ≡ facts_of (module_section_parts section.now) }
{
    match section {
        ModuleSection::Custom(_) => SectionFacts::Other(0),
        ModuleSection::Types(_) => SectionFacts::Other(1),
        ModuleSection::Imports(_) => SectionFacts::Other(2),
        ModuleSection::Functions(functions) => SectionFacts::Functions(functions.len()),
        ModuleSection::Tables(_) => SectionFacts::Other(4),
        ModuleSection::Memories(_) => SectionFacts::Other(5),
        ModuleSection::Globals(_) => SectionFacts::Other(6),
        ModuleSection::Exports(_) => SectionFacts::Other(7),
        ModuleSection::Start(_) => SectionFacts::Other(8),
        ModuleSection::Elements(_) => SectionFacts::Other(9),
        ModuleSection::Code(bodies) => SectionFacts::Code(bodies.len()),
        ModuleSection::Data(segments) => SectionFacts::Data(segments.len()),
        ModuleSection::DataCount(count) => SectionFacts::DataCount(*count),
        ModuleSection::Tags(_) => SectionFacts::Other(13),
    }
}

/// Returns the bodies of the first code section, or none.
fn find_code_bodies<'s>(sections: &'s [ModuleSection<'_>]) -> &'s [CodeBody]
    ensures { result.now ≡ code_bodies (all_module_section_parts sections.now) }
{
    for section in sections {
        if let ModuleSection::Code(bodies) = section {
            return bodies.as_slice();
        }
    }
    &[]
}
