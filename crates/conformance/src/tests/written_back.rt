//! Sections of each kind: read in long encodings, and written back.

use super::is;
use std::alloc::Global;
use std::test::Fail;
use wasm_encoder::{
    Encode, Module, ModuleSection, ModuleWriter, Section, SectionId, normalise_whole_module,
    read_whole_module,
};

/// A section of each kind: its minimal encoding, and a longer one.
pub(super) const ROWS: [(SectionId, &str, &str); 14] = [
    // the section `note` with the contents `hi`; the name's length padded
    (
        SectionId::Custom,
        "0007046E6F74656869",
        "00880084006E6F74656869",
    ),
    // a function without parameters and results; the count and that of the parameters padded
    (SectionId::Types, "010401600000", "0106810060800000"),
    // the function `f` of `m`; its type padded
    (
        SectionId::Import,
        "020701016D01660000",
        "020801016D0166008000",
    ),
    // a function; its type padded
    (SectionId::Function, "03020100", "0303018000"),
    // a table of at least 2 functions; that number padded
    (SectionId::Table, "040401700002", "04050170008200"),
    // a memory of at least 1 page; that number padded
    (SectionId::Memory, "0503010001", "050401008100"),
    // a global of 42; the constant padded
    (SectionId::Global, "0606017F00412A0B", "0607017F0041AA000B"),
    // the global 0 as `g`; its index padded
    (SectionId::Export, "07050101670300", "0706010167038000"),
    // the function 1; its index padded
    (SectionId::Start, "080101", "08028100"),
    // the function 0 in table 0; the form that names the table
    (
        SectionId::Element,
        "0907010041000B0100",
        "090901020041000B000100",
    ),
    // a function without locals; their number padded
    (SectionId::Code, "0A040102000B", "0A05010380000B"),
    // `hi` in memory 0; the form that names the memory
    (
        SectionId::Data,
        "0B08010041000B026869",
        "0B0901020041000B026869",
    ),
    // one data segment; the number padded
    (SectionId::DataCount, "0C0101", "0C028100"),
    // a tag; its type padded
    (SectionId::Tag, "0D03010000", "0D0401008000"),
];

/// A module of the sections in their minimal encodings, or in the longer ones.
pub(super) fn module_of_all(alloc: Global, padded: bool) -> Result<Vec<u8>, Fail> {
    let mut bytes = Vec::from_slice(alloc, &Module::HEADER)?;
    for (_, minimal, longer) in &ROWS {
        let section = hex::decode(alloc, if padded { longer } else { minimal })?;
        bytes.extend_from_slice(section.as_slice())?;
    }
    Ok(bytes)
}

/// Checks that the sections read from the module, and the normaliser, give the minimal module.
fn is_written_as(alloc: Global, module: &[u8], minimal: &[u8]) -> Result<(), Fail> {
    let sections = read_whole_module(alloc, module)?;
    let built = Module::from_sections(alloc, &sections)?;
    let normal = normalise_whole_module(alloc, module)?;
    if built.as_slice() == minimal && normal.as_slice() == minimal {
        Ok(())
    } else {
        Err(Fail::from("written otherwise"))
    }
}

#[test]
fn modules_are_written_back(rt: HostRuntime) -> Result<(), Fail> {
    let minimal = module_of_all(rt.alloc(), false)?;
    let padded = module_of_all(rt.alloc(), true)?;
    is_written_as(rt.alloc(), &minimal, &minimal)?;
    is_written_as(rt.alloc(), &padded, &minimal)?;
    is_written_as(rt.alloc(), &Module::HEADER, &Module::HEADER)
}

/// The module of the README, with its sections in another order, and some twice.
#[test]
fn any_order_is_written_back(rt: HostRuntime) -> Result<(), Fail> {
    let hex = "0061736D010000000A09010700200020016A0B0707010361646400000302010001070160027F7F017F";
    let module = hex::decode(rt.alloc(), hex)?;
    is_written_as(rt.alloc(), &module, &module)?;
    let mut twice = Vec::from_slice(rt.alloc(), &module)?;
    twice.extend_from_slice(module.as_slice().get(8..).unwrap_or(&[]))?;
    is_written_as(rt.alloc(), &twice, &twice)
}

/// The section is written as these bytes by each call that takes a section.
fn is_written(alloc: Global, section: &ModuleSection<'_>, hex: &str) -> Result<(), Fail> {
    let mut appended = Vec::new(alloc);
    section.append_to(&mut appended)?;
    is(alloc, &appended, hex)?;
    let mut written = Vec::new(alloc);
    section.encoded(alloc)?.write_to(&mut written)?;
    is(alloc, &written, hex)?;
    let mut encoding = Vec::from_slice(alloc, &[section.id()])?;
    section.encode(&mut encoding)?;
    is(alloc, &encoding, hex)?;
    let mut module = Module::new(alloc)?;
    module.section(section)?;
    is(alloc, &module.as_slice()[8..], hex)
}

#[test]
fn each_kind_is_written(rt: HostRuntime) -> Result<(), Fail> {
    let padded = module_of_all(rt.alloc(), true)?;
    let sections = read_whole_module(rt.alloc(), &padded)?;
    assert_eq!(rt; sections.len(), ROWS.len());
    for (section, (id, minimal, _)) in sections.iter().zip(&ROWS) {
        assert_eq!(rt; section.id(), u8::from(*id));
        is_written(rt.alloc(), section, minimal)?;
    }
    Ok(())
}

#[test]
fn sections_go_to_a_writer(rt: HostRuntime) -> Result<(), Fail> {
    let padded = module_of_all(rt.alloc(), true)?;
    let mut module = ModuleWriter::new(rt.alloc(), Vec::new(rt.alloc()))?;
    for section in &read_whole_module(rt.alloc(), &padded)? {
        module.section(section)?;
    }
    assert!(rt; module.finish()? == module_of_all(rt.alloc(), false)?);
    Ok(())
}

/// A custom section is dropped, and another section added.
#[test]
fn edited_modules_are_written(rt: HostRuntime) -> Result<(), Fail> {
    let mut module = Module::new(rt.alloc())?;
    let bytes = module_of_all(rt.alloc(), true)?;
    for section in &read_whole_module(rt.alloc(), &bytes)? {
        match section {
            ModuleSection::Custom(_) | ModuleSection::DataCount(_) => {}
            ModuleSection::Start(function) => module.section(&ModuleSection::Start(
                function.saturating_add(1),
            ))?,
            kept if kept.id() < 6 => {}
            kept => module.section(kept)?,
        }
    }
    let hex = "0061736D010000000606017F00412A0B070501016703000801020907010041000B01000A040102000B\
        0B08010041000B0268690D03010000";
    is(rt.alloc(), module.as_slice(), hex)
}
