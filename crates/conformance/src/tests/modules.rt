//! Sections and modules that are written.

use super::own::{Long, Memories, Never, Unappended};
use super::{is, is_refused};
use std::alloc::Global;
use std::test::Fail;
use wasm_encoder::{Encode, EncodeError, Module, RawSection, ReadError, Section, read_module};

/// The module is read as these sections.
fn is_read_as(alloc: Global, module: &[u8], expected: &[RawSection<'_>]) -> Result<(), Fail> {
    let sections = read_module(alloc, module)?;
    let mut are_same = sections.len() == expected.len();
    for (section, other) in sections.iter().zip(expected) {
        are_same &= section.id == other.id && section.body == other.body;
    }
    if are_same {
        Ok(())
    } else {
        Err(Fail::from(sections.len()))
    }
}

#[test]
fn one_section(rt: HostRuntime) -> Result<(), Fail> {
    let mut module = Module::new(rt.alloc())?;
    assert_eq!(rt; module.as_slice(), Module::HEADER.as_slice());
    is_read_as(rt.alloc(), module.as_slice(), &[])?;
    let section = RawSection {
        id: 0,
        body: b"\x04test\x0b\x16\x21\x2c",
    };
    module.section(&section)?;
    let hex = "0061736D01000000000904746573740B16212C";
    is(rt.alloc(), module.as_slice(), hex)?;
    is_read_as(rt.alloc(), module.as_slice(), &[section])
}

/// A module of five sections, whose bodies are empty, short and this one.
fn five_sections(alloc: Global, long: &[u8]) -> Result<Module, Fail> {
    let sections = [
        RawSection { id: 3, body: &[0] },
        RawSection { id: 1, body: &[1] },
        RawSection { id: 0, body: &[] },
        RawSection {
            id: 255,
            body: long,
        },
        RawSection { id: 3, body: &[0] },
    ];
    let mut module = Module::new(alloc)?;
    for section in &sections {
        module.section(section)?;
    }
    is_read_as(alloc, module.as_slice(), &sections)?;
    Ok(module)
}

#[test]
fn many_sections(rt: HostRuntime) -> Result<(), Fail> {
    let module = five_sections(rt.alloc(), &[0x2a; 200])?;
    let same = module.try_clone()?;
    assert!(rt; same.as_slice() == module.as_slice());
    assert_eq!(rt; same.len(), 8 + 3 + 3 + 2 + 203 + 3);
    assert!(rt; module.finish().as_slice() == same.as_slice());
    Ok(())
}

#[test]
fn raw_sections(rt: HostRuntime) -> Result<(), Fail> {
    let mut list = vec![in rt.alloc(); 0x2a]?;
    RawSection { id: 0, body: &[] }.append_to(&mut list)?;
    is(rt.alloc(), list.as_slice(), "2A0000")?;
    let section = RawSection { id: 10, body: &[7] };
    assert_eq!(rt; section.id(), 10);
    section.encode(&mut list)?;
    is(rt.alloc(), list.as_slice(), "2A00000107")
}

/// Its body has no size, so it is no section of the format.
#[test]
fn a_section_of_a_caller(rt: HostRuntime) -> Result<(), Fail> {
    let mut module = Module::new(rt.alloc())?;
    module.section(&Memories(42u32))?;
    is(rt.alloc(), module.as_slice(), "0061736D01000000052A")?;
    let refused = read_module(rt.alloc(), module.as_slice()).err();
    assert!(rt; refused == Some(ReadError::Refused { at: 8 }));
    let mut list = vec![in rt.alloc(); 0x2a]?;
    Memories(42u32).append_to(&mut list)?;
    is(rt.alloc(), list.as_slice(), "2A052A")
}

/// A module doesn't call a section's own `append_to`.
#[test]
fn a_section_that_is_not_appended(rt: HostRuntime) -> Result<(), Fail> {
    let mut list = vec![in rt.alloc(); 0x2a]?;
    let refused = Unappended.append_to(&mut list);
    assert!(rt; refused == Err(EncodeError::Memory));
    is(rt.alloc(), list.as_slice(), "2A")?;
    let mut module = Module::new(rt.alloc())?;
    module.section(&Unappended)?;
    is(rt.alloc(), module.as_slice(), "0061736D01000000052A")
}

/// A section is refused with this error, and what it was to be added to is left as it was.
fn is_section_refused<S: Section>(
    alloc: Global,
    section: &S,
    error: &EncodeError,
) -> Result<(), Fail> {
    let mut module = Module::new(alloc)?;
    let refused = module.section(section).err();
    let mut list = vec![in alloc; 0x2a]?;
    let not_appended = section.append_to(&mut list).err();
    if refused.as_ref() != Some(error) || not_appended.as_ref() != Some(error) {
        return Err(Fail::from("another answer"));
    }
    is(alloc, module.as_slice(), "0061736D01000000")?;
    is(alloc, list.as_slice(), "2A")?;
    is_refused(alloc, section, error)
}

#[test]
fn refused_sections(rt: HostRuntime) -> Result<(), Fail> {
    is_section_refused(rt.alloc(), &Memories(Long), &EncodeError::TooLong)?;
    is_section_refused(rt.alloc(), &Memories(Never), &EncodeError::Memory)
}
