//! Contents of sections, item by item.

use crate::tests::written_back::{ROWS, module_of_all};
use std::alloc::Global;
use std::test::Fail;
use wasm_encoder::{
    Contents, DecodeError, ItemReader, ModuleSection, RawSection, Readable, read_contents,
    read_contents_strict, read_sections, read_whole_module,
};

/// Returns the number of items.
fn count<'a, T: Readable<'a>>(items: ItemReader<'a, T>) -> Result<usize, DecodeError> {
    let mut count = 0_usize;
    for next in items {
        next?;
        count = count.saturating_add(1);
    }
    Ok(count)
}

/// Returns the number of items of a list, or the number that a section holds.
fn measure(contents: Contents<'_>) -> Result<usize, DecodeError> {
    match contents {
        Contents::Custom(section) => Ok(section.bytes.len()),
        Contents::Types(entries) => count(entries),
        Contents::Imports(imports) => count(imports),
        Contents::Functions(types) => count(types),
        Contents::Tables(tables) => count(tables),
        Contents::Memories(memories) => count(memories),
        Contents::Globals(globals) => count(globals),
        Contents::Exports(exports) => count(exports),
        Contents::Start(number) | Contents::DataCount(number) => Ok(number as usize),
        Contents::Elements(elements) => count(elements),
        Contents::Code(bodies) => count(bodies),
        Contents::Data(segments) => count(segments),
        Contents::Tags(tags) => count(tags),
        Contents::Unknown => Ok(0),
    }
}

/// Returns the same of a decoded section.
fn measure_decoded(section: &ModuleSection<'_>) -> usize {
    match section {
        ModuleSection::Custom(section) => section.bytes.len(),
        ModuleSection::Types(entries) => entries.len(),
        ModuleSection::Imports(imports) => imports.len(),
        ModuleSection::Functions(types) => types.len(),
        ModuleSection::Tables(tables) => tables.len(),
        ModuleSection::Memories(memories) => memories.len(),
        ModuleSection::Globals(globals) => globals.len(),
        ModuleSection::Exports(exports) => exports.len(),
        ModuleSection::Start(number) | ModuleSection::DataCount(number) => *number as usize,
        ModuleSection::Elements(elements) => elements.len(),
        ModuleSection::Code(bodies) => bodies.len(),
        ModuleSection::Data(segments) => segments.len(),
        ModuleSection::Tags(tags) => tags.len(),
    }
}

#[test]
fn each_kind_has_the_items_of_the_module(rt: HostRuntime) -> Result<(), Fail> {
    let padded = module_of_all(rt.alloc(), true)?;
    let decoded = read_whole_module(rt.alloc(), &padded)?;
    assert_eq!(rt; decoded.len(), ROWS.len());
    let mut sections = read_sections(rt.alloc(), &padded)?;
    for expected in &decoded {
        let Some(Ok((_, section))) = sections.next() else {
            return Err(Fail::from("fewer sections"));
        };
        let contents = read_contents(rt.alloc(), &section, sections.offset())?;
        assert_eq!(rt; measure(contents)?, measure_decoded(expected));
    }
    assert!(rt; sections.next().is_none());
    Ok(())
}

/// Offsets of items count from the start of the input.
#[test]
fn items_have_offsets(rt: HostRuntime) -> Result<(), Fail> {
    let section = RawSection {
        id: 3,
        body: b"\x83\x00\x05\x86\x00\x07",
    };
    let Contents::Functions(mut types) = read_contents(rt.alloc(), &section, 106)? else {
        return Err(Fail::from("other contents"));
    };
    assert_eq!(rt; types.next(), Some(Ok((102, 5))));
    assert_eq!(rt; types.next(), Some(Ok((103, 6))));
    assert_eq!(rt; types.next(), Some(Ok((105, 7))));
    assert_eq!(rt; types.next(), None);
    Ok(())
}

/// Returns the offset at which reading such a section fails.
fn refused(alloc: Global, id: u8, body: &[u8], strict: bool) -> Option<usize> {
    let section = RawSection { id, body };
    let end = 100 + body.len();
    let contents = if strict {
        read_contents_strict(alloc, &section, end)
    } else {
        read_contents(alloc, &section, end)
    };
    contents.err().and_then(|error| error.at())
}

#[test]
fn malformed_contents(rt: HostRuntime) -> Result<(), Fail> {
    let alloc = rt.alloc();
    assert_eq!(rt; refused(alloc, 7, b"\x80", false), Some(100)); // no count
    assert_eq!(rt; refused(alloc, 8, b"\x05\x00", false), Some(101)); // a byte after the index
    assert_eq!(rt; refused(alloc, 12, b"", false), Some(100));
    assert_eq!(rt; refused(alloc, 0, b"\x02a", false), Some(100)); // a name of two bytes
    assert_eq!(rt; refused(alloc, 7, b"\x81\x00", false), None); // only the count is read
    assert_eq!(rt; refused(alloc, 7, b"\x81\x00", true), Some(100));
    assert_eq!(rt; refused(alloc, 8, b"\x85\x00", true), Some(100));
    assert_eq!(rt; refused(alloc, 0, b"\x81\x00a", true), Some(100));
    assert_eq!(rt; refused(alloc, 14, b"\x80", true), None); // of an unknown kind
    Ok(())
}

#[test]
fn an_error_leaves_the_items_before(rt: HostRuntime) -> Result<(), Fail> {
    let section = RawSection {
        id: 3,
        body: b"\x03\x05\x06\x80", // the third type index is cut
    };
    let Contents::Functions(mut types) = read_contents(rt.alloc(), &section, 4)? else {
        return Err(Fail::from("other contents"));
    };
    assert_eq!(rt; types.next(), Some(Ok((1, 5))));
    assert_eq!(rt; types.next(), Some(Ok((2, 6))));
    let error = types.next().and_then(|next| next.err());
    assert_eq!(rt; error.and_then(|error| error.at()), Some(3));
    assert_eq!(rt; types.next(), None);
    Ok(())
}
