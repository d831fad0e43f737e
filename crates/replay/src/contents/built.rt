//! Custom sections that are built again of what is read.

use crate::mismatch::Mismatch;
use std::alloc::Global;
use wasm_encoder::{
    BranchHints, CoreDumpInstance, CoreDumpInstancesSection, CoreDumpModule,
    CoreDumpModulesSection, CoreDumpStack, CoreDumpStackSection, CustomSection, EncodeError,
    FunctionHints, IndirectNameMap, IndirectNaming, KnownCustomSection, LinkingSection,
    LinkingSubsection, NameError, NameMap, NameSection, NameSubsection, Naming, Producers,
    ProducersField, ProducersSection, ReadError, Symbol, SymbolTable, TargetFeature,
    TargetFeaturesSection, known_custom_section,
};

/// The builder writes the normal form, of what the reader gives. Subsections in another order can't be built.
pub fn check_built(
    alloc: Global,
    section: &str,
    contents: &[u8],
    normal: &[u8],
) -> Result<(), Mismatch> {
    let section = CustomSection {
        name: name_of(section),
        bytes: contents,
    };
    let known = match known_custom_section(alloc, &section) {
        Ok(known) => known,
        Err(ReadError::Memory) => return Err(Mismatch::Memory),
        Err(_) => return Err(Mismatch::Read),
    };
    match build(alloc, &known) {
        Ok(Some(built)) if built.as_slice() == normal => Ok(()),
        Ok(None) => Ok(()),
        Err(EncodeError::Memory) => Err(Mismatch::Memory),
        _ => Err(Mismatch::Built),
    }
}

/// The name of such a section.
fn name_of(section: &str) -> &'static str {
    match section {
        "names" => "name",
        "producers" => "producers",
        "target features" => "target_features",
        "branch hints" => "metadata.code.branch_hint",
        "linking" => "linking",
        "core" => "core",
        "coremodules" => "coremodules",
        "coreinstances" => "coreinstances",
        "corestack" => "corestack",
        _ => "",
    }
}

/// The contents that the builder writes, or `None` if they can't be built.
fn build(alloc: Global, known: &KnownCustomSection<'_>) -> Result<Option<Vec<u8>>, EncodeError> {
    match known {
        KnownCustomSection::Names(subsections) => build_names(alloc, subsections.as_slice()),
        KnownCustomSection::Producers(fields) => {
            Ok(Some(build_producers(alloc, fields.as_slice())?))
        }
        KnownCustomSection::TargetFeatures(features) => {
            Ok(Some(build_features(alloc, features.as_slice())?))
        }
        KnownCustomSection::BranchHints(functions) => {
            Ok(Some(build_hints(alloc, functions.as_slice())?))
        }
        KnownCustomSection::Linking(subsections) => build_linking(alloc, subsections.as_slice()),
        KnownCustomSection::CoreDump(process) => Ok(Some(process.contents(alloc)?)),
        KnownCustomSection::CoreDumpModules(modules) => {
            Ok(Some(build_modules(alloc, modules.as_slice())?))
        }
        KnownCustomSection::CoreDumpInstances(instances) => {
            Ok(Some(build_instances(alloc, instances.as_slice())?))
        }
        KnownCustomSection::CoreDumpStack(thread) => Ok(Some(build_stack(alloc, thread)?)),
        KnownCustomSection::Other(_) => Ok(None),
    }
}

/// The subsections, or `None` if they aren't in ascending order or have unknown ids.
fn build_names(
    alloc: Global,
    subsections: &[NameSubsection<'_>],
) -> Result<Option<Vec<u8>>, EncodeError> {
    let mut names = NameSection::new(alloc);
    for subsection in subsections {
        match add_subsection(alloc, &mut names, subsection) {
            Ok(true) => {}
            Ok(false) | Err(NameError::OutOfOrder) => return Ok(None),
            Err(NameError::Encode(error)) => return Err(error),
        }
    }
    Ok(Some(Vec::from_slice(alloc, names.as_slice())?))
}

/// Adds a subsection. Returns `false` if its id is unknown.
fn add_subsection(
    alloc: Global,
    names: &mut NameSection,
    subsection: &NameSubsection<'_>,
) -> Result<bool, NameError> {
    match subsection {
        NameSubsection::Module(name) => names.module(name)?,
        NameSubsection::Functions(map) => names.functions(&name_map(alloc, map.as_slice())?)?,
        NameSubsection::Locals(map) => names.locals(&indirect_map(alloc, map.as_slice())?)?,
        NameSubsection::Labels(map) => names.labels(&indirect_map(alloc, map.as_slice())?)?,
        NameSubsection::Types(map) => names.types(&name_map(alloc, map.as_slice())?)?,
        NameSubsection::Tables(map) => names.tables(&name_map(alloc, map.as_slice())?)?,
        NameSubsection::Memories(map) => names.memories(&name_map(alloc, map.as_slice())?)?,
        NameSubsection::Globals(map) => names.globals(&name_map(alloc, map.as_slice())?)?,
        NameSubsection::Elements(map) => names.elements(&name_map(alloc, map.as_slice())?)?,
        NameSubsection::Data(map) => names.data(&name_map(alloc, map.as_slice())?)?,
        NameSubsection::Fields(map) => names.fields(&indirect_map(alloc, map.as_slice())?)?,
        NameSubsection::Tags(map) => names.tags(&name_map(alloc, map.as_slice())?)?,
        NameSubsection::Unknown { .. } => return Ok(false),
    }
    Ok(true)
}

/// A map of these names.
fn name_map(alloc: Global, names: &[Naming<'_>]) -> Result<NameMap, EncodeError> {
    let mut map = NameMap::new(alloc);
    for naming in names {
        map.append(naming.index, naming.name)?;
    }
    Ok(map)
}

/// A map of these items' names.
fn indirect_map(
    alloc: Global,
    items: &[IndirectNaming<'_>],
) -> Result<IndirectNameMap, EncodeError> {
    let mut map = IndirectNameMap::new(alloc);
    for item in items {
        map.append(item.index, &name_map(alloc, item.names.as_slice())?)?;
    }
    Ok(map)
}

/// The contents of a section of these fields.
fn build_producers(alloc: Global, fields: &[Producers<'_>]) -> Result<Vec<u8>, EncodeError> {
    let mut section = ProducersSection::new(alloc);
    for field in fields {
        let values = values_of(alloc, field)?;
        section.field(field.field, &values)?;
    }
    section.contents()
}

/// The values of a field.
fn values_of(alloc: Global, field: &Producers<'_>) -> Result<ProducersField, EncodeError> {
    let mut values = ProducersField::new(alloc);
    for producer in field.values.as_slice() {
        values.value(producer.name, producer.version)?;
    }
    Ok(values)
}

/// The contents of a section of these features.
fn build_features(alloc: Global, features: &[TargetFeature<'_>]) -> Result<Vec<u8>, EncodeError> {
    let mut section = TargetFeaturesSection::new(alloc);
    for feature in features {
        section.feature(feature.prefix, feature.name)?;
    }
    section.contents()
}

/// The contents of a section of these hints.
fn build_hints(alloc: Global, functions: &[FunctionHints]) -> Result<Vec<u8>, EncodeError> {
    let mut section = BranchHints::new(alloc);
    for function in functions {
        section.function_hints(function.function_index, function.hints.as_slice())?;
    }
    section.contents()
}

/// The contents of a section of these modules.
fn build_modules(alloc: Global, modules: &[CoreDumpModule<'_>]) -> Result<Vec<u8>, EncodeError> {
    let mut section = CoreDumpModulesSection::new(alloc);
    for module in modules {
        section.module(module.name)?;
    }
    section.contents()
}

/// The contents of a section of these instances.
fn build_instances(alloc: Global, instances: &[CoreDumpInstance]) -> Result<Vec<u8>, EncodeError> {
    let mut section = CoreDumpInstancesSection::new(alloc);
    for instance in instances {
        section.instance(
            instance.module_index,
            instance.memories.as_slice(),
            instance.globals.as_slice(),
        )?;
    }
    section.contents()
}

/// The contents of a section of this thread and these frames.
fn build_stack(alloc: Global, thread: &CoreDumpStack<'_>) -> Result<Vec<u8>, EncodeError> {
    let mut section = CoreDumpStackSection::new(alloc, thread.name);
    for frame in thread.frames.as_slice() {
        section.frame(
            frame.instance_index,
            frame.function_index,
            frame.code_offset,
            frame.locals.as_slice(),
            frame.stack.as_slice(),
        )?;
    }
    section.contents()
}

/// The contents of a section of these subsections, or `None` if there are others than symbol tables.
fn build_linking(
    alloc: Global,
    subsections: &[LinkingSubsection<'_>],
) -> Result<Option<Vec<u8>>, EncodeError> {
    let mut section = LinkingSection::new(alloc);
    for subsection in subsections {
        match subsection {
            LinkingSubsection::SymbolTable(symbols) => {
                section.symbol_table(&symbol_table(alloc, symbols.as_slice())?)?;
            }
            LinkingSubsection::Other { .. } => return Ok(None),
        }
    }
    Ok(Some(section.contents()?))
}

/// A table of these symbols.
fn symbol_table(alloc: Global, symbols: &[Symbol<'_>]) -> Result<SymbolTable, EncodeError> {
    let mut table = SymbolTable::new(alloc);
    for symbol in symbols {
        match symbol {
            Symbol::Function(item) => table.function(item.flags, item.index, item.name)?,
            Symbol::Data(data) => table.data(data.flags, data.name, data.definition)?,
            Symbol::Global(item) => table.global(item.flags, item.index, item.name)?,
            Symbol::Section(section) => table.section(section.flags, section.section)?,
            Symbol::Tag(item) => table.tag(item.flags, item.index, item.name)?,
            Symbol::Table(item) => table.table(item.flags, item.index, item.name)?,
        }
    }
    Ok(table)
}
