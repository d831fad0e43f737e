//! Entries and type sections: cloned.

use super::made_again;
use std::test::Fail;
use wasm_encoder::{ContType, EncodeError, ReadError, TypeEntry, TypeSection, read_type_section};

/// The body of a type section with a function and a group of which a type has a supertype.
const BODY: [u8; 16] = [
    0x02, 0x60, 0x02, 0x7f, 0x7f, 0x01, 0x7e, 0x4e, 0x02, 0x5d, 0x00, 0x4f, 0x01, 0x03, 0x5d, 0x01,
];

/// The entries of the short body, read again where memory was refused.
fn read(rt: &(impl AllocGlobal + Print)) -> Result<Vec<TypeEntry>, Fail> {
    Ok(match read_type_section(rt.alloc(), BODY.as_slice()) {
        Err(ReadError::Memory) => {
            println!(rt; "refused")?;
            read_type_section(rt.alloc(), BODY.as_slice())?
        }
        answer => answer?,
    })
}

#[test]
fn entries_are_cloned(rt: HostRuntime) -> Result<(), Fail> {
    for entry in &read(&rt)? {
        let same = made_again(&rt, || entry.try_clone())?;
        assert_eq!(rt; same, *entry);
    }
    Ok(())
}

/// A clone of a section, made again where memory was refused.
fn clone_of(rt: &impl Print, types: &TypeSection) -> Result<TypeSection, Fail> {
    made_again(rt, || types.try_clone())
}

#[test]
fn sections_are_cloned(rt: HostRuntime) -> Result<(), Fail> {
    let mut types = TypeSection::new(rt.alloc());
    if let Err(EncodeError::Memory) = types.ty().cont(&ContType(0)) {
        println!(rt; "refused")?;
        types.ty().cont(&ContType(0))?;
    }
    assert_eq!(rt; clone_of(&rt, &types)?.len(), 1);
    Ok(())
}
