//! Sections other than those of types and code: the types of their items, builders, readers and normalisers (Core 3.0,
//! Modules).
//!
//! A builder of a list is a [`ListSection`] of its items: `ExportSection` is `ListSection<Export>`, and so on. Each has
//! `new`, `len`, `is_empty`, `push`, `entries` and `try_clone`, and a method named after what it adds, such as
//! `export`.
ghost use Rattle.std.specs.Prelude.{◌≡◌, ◌∷◌, OnOk, IfOk, IfErr};
ghost use Rattle.wasm_codec.specs.Encoding.{byte_list_bytes, IsRefusal, IsMinimal, OnlyTooLong};
ghost use Rattle.wasm_lists.specs.EncodedLists.{EncodedItems};
ghost use Rattle.wasm_sections.specs.SectionBytes.{CountedCustom, IsSectionAfter};
ghost use Rattle.wasm_sections.specs.formats.EntryParts.{custom_parts};
ghost use Rattle.wasm_sections.specs.formats.ModuleSectionParts.{custom, module_section_parts, section_id};
ghost use Rattle.wasm_sections.specs.formats.Sections.{custom_body};

use crate::encoded_section::EncodedSection;
use crate::wasm_core::Section;
use std::alloc::Global as GlobalAllocator;
use wasm_codec::encode::EncodeError;
pub use wasm_codec::reader::names::{SectionNames, section_names};
pub use wasm_custom_sections::branch_hints::{BranchHint, BranchHints, FunctionHints};
pub use wasm_custom_sections::core_dumps::{
    CoreDumpInstance, CoreDumpInstancesSection, CoreDumpModule, CoreDumpModulesSection,
    CoreDumpSection,
};
pub use wasm_custom_sections::core_stacks::{
    CoreDumpStack, CoreDumpStackFrame, CoreDumpStackSection,
};
pub use wasm_custom_sections::core_values::CoreDumpValue;
pub use wasm_custom_sections::custom_list::{CustomItem, CustomList};
pub use wasm_custom_sections::known::{KnownCustomSection, known_custom_section};
pub use wasm_custom_sections::linking::{LinkingSection, LinkingSubsection};
pub use wasm_custom_sections::moved_hints::HintedCode;
pub use wasm_custom_sections::name_maps::{IndirectNameMap, IndirectNaming, NameMap, Naming};
pub use wasm_custom_sections::names::{NameError, NameSection, NameSubsection};
pub use wasm_custom_sections::producers::{Producer, Producers, ProducersField, ProducersSection};
pub use wasm_custom_sections::symbol_table::SymbolTable;
pub use wasm_custom_sections::symbols::{
    DataSymbol, DataSymbolDefinition, ItemSymbol, SectionSymbol, Symbol,
};
pub use wasm_custom_sections::target_features::{
    FeaturePrefix, TargetFeature, TargetFeaturesSection,
};
pub use wasm_externals::const_expr::ConstExpr;
pub use wasm_externals::limits::{MemoryType, TableType};
pub use wasm_externals::types::{EntityType, ExportKind, GlobalType, TagKind, TagType};
pub use wasm_modules::modules::{
    CheckedInPlace, CheckedModule, WholeModule, check_whole_module, normalise_whole_module,
    read_whole_module, read_whole_module_strict, rewrite_and_check_in_place,
    rewrite_and_check_whole_module, rewrite_whole_module,
};
pub use wasm_modules::order::{ModuleError, check_order, find_order_error};
pub use wasm_sections::contents::{Contents, read_contents, read_contents_strict};
use wasm_sections::custom::append_front;
pub use wasm_sections::custom::{CustomSection, read_custom};
pub use wasm_sections::data::{DataSection, DataSegment, DataSegmentMode};
pub use wasm_sections::elements::{Element, ElementMode, ElementSection, Elements};
pub use wasm_sections::exports::{Export, ExportSection};
pub use wasm_sections::functions::FunctionSection;
pub use wasm_sections::globals::{Global, GlobalSection};
pub use wasm_sections::imports::{Import, ImportSection};
pub use wasm_sections::list_section::{ListSection, SectionItem};
pub use wasm_sections::memories::MemorySection;
pub use wasm_sections::module_sections::ModuleSection;
pub use wasm_sections::numbers::{DataCountSection, StartSection, read_number, read_number_strict};
pub use wasm_sections::tables::{Table, TableSection};
pub use wasm_sections::tags::TagSection;

/// The id of sections whose name says what they hold.
const CUSTOM_SECTION_ID: u8 = 0;

impl<T: SectionItem> Section for ListSection<T> {
    ghost id = { λ _. T.section.id };

    fn id(&self) -> u8 {
        T::section_id()
    }

    fn encoded(&self, alloc: GlobalAllocator) -> Result<EncodedSection<'_>, EncodeError> {
        T::is_lawful();
        EncodedSection::of_list(alloc, self.id(), self.len(), self.as_slice())
    }
}

impl Section for StartSection {
    ghost id = { λ _. 8 };

    fn id(&self) -> u8 {
        8
    }
}

impl Section for DataCountSection {
    ghost id = { λ _. 12 };

    fn id(&self) -> u8 {
        12
    }
}

impl<'a> Section for ModuleSection<'a> {
    ghost id = { λ section. section_id (module_section_parts section) };

    fn id(&self) -> u8 {
        self.id()
    }
}

impl<'a> Section for CustomSection<'a> {
    ghost id = { λ _. 0 };

    fn id(&self) -> u8 {
        0
    }

    fn encoded(&self, alloc: GlobalAllocator) -> Result<EncodedSection<'_>, EncodeError> {
        encoded_custom(alloc, self)
    }
}

/// Returns a custom section, whose contents stay where they are.
///
/// Fails with `TooLong` if the body is longer than 4,294,967,295 bytes.
fn encoded_custom<'a>(
    alloc: GlobalAllocator,
    section: &CustomSection<'a>,
) -> Result<EncodedSection<'a>, EncodeError>
    ensures ok { IfOk result (λ encoded. encoded ≡ 0 ∷ byte_list_bytes (custom_body.bytes (custom_parts section.now))) }
    ensures can { OnOk result (CountedCustom section.now) }
    ensures minimal { OnOk result (IsMinimal custom_body.Encodes custom_body.bytes (custom_parts section.now)) }
    ensures whole { OnOk result (IsSectionAfter 0 (byte_list_bytes (custom_body.bytes (custom_parts section.now))) (custom (custom_parts section.now))) }
    ensures refused { IfErr result (IsRefusal CountedCustom OnlyTooLong section.now) }
{
    let mut front = Vec::new(alloc);
    front.reserve(1)?;
    front.push_reserved(CUSTOM_SECTION_ID);
    append_front(section, &mut front)?;
    Ok(EncodedSection::new(front, section.bytes))
}

impl Section for NameSection {
    ghost id = { λ _. 0 };

    fn id(&self) -> u8 {
        CUSTOM_SECTION_ID
    }

    #[tactic(auto, using(wasm_custom_sections::proofs::NameSectionLaws::holds_names))]
    fn encoded(&self, alloc: GlobalAllocator) -> Result<EncodedSection<'_>, EncodeError> {
        let section = CustomSection {
            name: "name",
            bytes: self.as_slice(),
        };
        encoded_custom(alloc, &section)
    }
}

impl Section for LinkingSection {
    ghost id = { λ _. 0 };

    fn id(&self) -> u8 {
        CUSTOM_SECTION_ID
    }
}

impl<'a> Section for CoreDumpSection<'a> {
    ghost id = { λ _. 0 };

    fn id(&self) -> u8 {
        CUSTOM_SECTION_ID
    }
}

impl<'a> Section for CoreDumpStackSection<'a> {
    ghost id = { λ _. 0 };

    fn id(&self) -> u8 {
        CUSTOM_SECTION_ID
    }
}

impl<T: CustomItem> Section for CustomList<T> {
    ghost id = { λ _. 0 };

    fn id(&self) -> u8 {
        CUSTOM_SECTION_ID
    }
}
