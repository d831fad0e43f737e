//! Subsections of a name section of each kind: read in long encodings, renumbered, and written back.

use super::SPACES;
use std::alloc::Global;
use std::test::Fail;
use wasm_encoder::{
    Encode, EncodeError, IndexSpace, InsertedItems, NameSection, NameSubsection, map_all_indices,
    read,
};

/// A subsection of each kind: the index space of what it names, its minimal encoding, and a longer one. The index is 2.
const ROWS: [(Option<IndexSpace>, &str, &str); 13] = [
    // the module is `m`; the name's length padded
    (None, "0002016D", "000381006D"),
    // a function is `f`; its index padded
    (
        Some(IndexSpace::Functions),
        "010401020166",
        "01050182000166",
    ),
    // the local 0 of a function is `x`; the number of names padded
    (
        Some(IndexSpace::Functions),
        "0206010201000178",
        "020701028100000178",
    ),
    // the label 0 of a function is `l`; the size padded
    (
        Some(IndexSpace::Functions),
        "030601020100016C",
        "03860001020100016C",
    ),
    // a type is `t`; the number of names padded
    (Some(IndexSpace::Types), "040401020174", "04058100020174"),
    // a table is `t`; its index padded
    (Some(IndexSpace::Tables), "050401020174", "05050182000174"),
    // a memory is `m`; its index padded
    (Some(IndexSpace::Memories), "06040102016D", "0605018200016D"),
    // a global is `g`; its index padded
    (Some(IndexSpace::Globals), "070401020167", "07050182000167"),
    // an element segment is `e`; its index padded
    (Some(IndexSpace::Elements), "080401020165", "08050182000165"),
    // a data segment is `d`; its index padded
    (Some(IndexSpace::Data), "090401020164", "09050182000164"),
    // the field 0 of a type is `f`; the field's index padded
    (
        Some(IndexSpace::Types),
        "0A06010201000166",
        "0A0701020180000166",
    ),
    // a tag is `t`; its index padded
    (Some(IndexSpace::Tags), "0B0401020174", "0B050182000174"),
    // two bytes after an unknown id; their number padded
    (None, "0C02ABCD", "0C8200ABCD"),
];

/// The only subsection is written as these bytes.
fn is_written(
    alloc: Global,
    subsections: &[NameSubsection<'_>],
    expected: &[u8],
) -> Result<(), Fail> {
    let mut bytes = Vec::new(alloc);
    for subsection in subsections {
        subsection.encode(&mut bytes)?;
    }
    if subsections.len() == 1 && bytes.as_slice() == expected {
        Ok(())
    } else {
        Err(Fail::from("written otherwise"))
    }
}

#[test]
fn names_are_written_back(rt: HostRuntime) -> Result<(), Fail> {
    for (_, minimal, longer) in &ROWS {
        let minimal = hex::decode(rt.alloc(), minimal)?;
        let longer = hex::decode(rt.alloc(), longer)?;
        let subsections = read::<NameSection>(rt.alloc(), &minimal)?;
        is_written(rt.alloc(), &subsections, &minimal)?;
        let subsections = read::<NameSection>(rt.alloc(), &longer)?;
        is_written(rt.alloc(), &subsections, &minimal)?;
    }
    Ok(())
}

/// Items are inserted at 2 into each index space, which raises the index of what is named there.
#[test]
fn names_are_renumbered(rt: HostRuntime) -> Result<(), Fail> {
    for (named, minimal, _) in &ROWS {
        let minimal = hex::decode(rt.alloc(), minimal)?;
        for space in SPACES {
            let mut expected = Vec::from_slice(rt.alloc(), &minimal)?;
            if *named == Some(space) {
                raise(&mut expected);
            }
            let inserted = InsertedItems {
                space,
                at: 2,
                count: 5,
            };
            let subsections = read::<NameSection>(rt.alloc(), &minimal)?;
            let renumbered = map_all_indices(rt.alloc(), &inserted, &subsections)?;
            is_written(rt.alloc(), &renumbered, &expected)?;
        }
    }
    Ok(())
}

/// Raises the index of a subsection, after the id, the size and a count.
fn raise(subsection: &mut [u8]) {
    if let Some(index) = subsection.get_mut(3) {
        *index = 7;
    }
}

/// The largest index can't be raised, unless it is in another index space.
#[test]
fn largest_indices_are_refused(rt: HostRuntime) -> Result<(), Fail> {
    let contents = hex::decode(rt.alloc(), "010801FFFFFFFF0F0166")?;
    let subsections = read::<NameSection>(rt.alloc(), &contents)?;
    for space in SPACES {
        let inserted = InsertedItems {
            space,
            at: 0,
            count: 1,
        };
        let refused = map_all_indices(rt.alloc(), &inserted, &subsections).err();
        let is_named = space == IndexSpace::Functions;
        assert_eq!(rt; refused, is_named.then_some(EncodeError::TooLong));
    }
    Ok(())
}
