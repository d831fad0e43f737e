//! Symbols of object files that fit their flags, and those that don't.

use super::is;
use std::alloc::Global;
use std::test::Fail;
use wasm_encoder::{DataSymbolDefinition, Encode, EncodeError, SymbolTable};

/// Flags of an imported symbol without a name of its own.
const IMPORTED: u32 = SymbolTable::WASM_SYM_UNDEFINED;

/// Flags of an imported symbol with a name of its own.
const NAMED: u32 = SymbolTable::WASM_SYM_UNDEFINED | SymbolTable::WASM_SYM_EXPLICIT_NAME;

/// Place of one byte of data.
const PLACE: DataSymbolDefinition = DataSymbolDefinition {
    index: 0,
    offset: 4,
    size: 1,
};

/// Adds the symbol of an item of each kind.
fn add_items(
    table: &mut SymbolTable,
    flags: u32,
    name: Option<&str>,
) -> [Result<(), EncodeError>; 4] {
    [
        table.function(flags, 1, name),
        table.global(flags, 1, name),
        table.tag(flags, 1, name),
        table.table(flags, 1, name),
    ]
}

/// The table has these bytes after its id and its size.
fn has(alloc: Global, table: &SymbolTable, hex: &str) -> Result<(), Fail> {
    let mut bytes = Vec::new(alloc);
    table.encode(&mut bytes)?;
    is(alloc, bytes.as_slice().get(2..).unwrap_or(&[]), hex)
}

#[test]
fn symbols_fit_their_flags(rt: HostRuntime) -> Result<(), Fail> {
    let mut table = SymbolTable::new(rt.alloc());
    for added in add_items(&mut table, 0, Some("f")) {
        added?;
    }
    for added in add_items(&mut table, IMPORTED, None) {
        added?;
    }
    for added in add_items(&mut table, NAMED, Some("f")) {
        added?;
    }
    table.data(0, "d", Some(PLACE))?;
    table.data(IMPORTED, "d", None)?;
    table.section(0, 3)?;
    let defined = "0000010166020001016604000101660500010166";
    let imported = "001001021001041001051001";
    let named = "0050010166025001016604500101660550010166";
    let others = "0100016400040101100164030003";
    has(
        rt.alloc(),
        &table,
        format!(in rt.alloc(); "0F{defined}{imported}{named}{others}")?.as_str(),
    )
}

#[test]
fn other_symbols_are_refused(rt: HostRuntime) -> Result<(), Fail> {
    let mut table = SymbolTable::new(rt.alloc());
    table.function(IMPORTED, 0, None)?;
    let lacking = add_items(&mut table, 0, None);
    let lacking_too = add_items(&mut table, NAMED, None);
    let needless = add_items(&mut table, IMPORTED, Some("f"));
    for refused in [lacking, lacking_too, needless] {
        assert!(rt;
            refused
                .iter()
                .all(|added| *added == Err(EncodeError::SymbolFlags))
        );
    }
    assert!(rt; table.data(0, "d", None) == Err(EncodeError::SymbolFlags));
    assert!(rt; table.data(IMPORTED, "d", Some(PLACE)) == Err(EncodeError::SymbolFlags));
    has(rt.alloc(), &table, "01001000")
}
