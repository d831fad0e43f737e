//! Strict readers.

use std::test::Fail;
use wasm_encoder::{
    ReadError, read_instructions_strict, read_module_strict, read_type_section_strict,
};

/// A count or a size that promises too much is refused, whichever request for memory is.
#[test]
fn false_counts_ask_for_no_memory(rt: HostRuntime) -> Result<(), Fail> {
    let types = read_type_section_strict(rt.alloc(), b"\xff\xff\xff\xff\x0f");
    assert_eq!(rt; types.err(), Some(ReadError::Refused { at: 5 }));
    let labels = read_instructions_strict(rt.alloc(), b"\x0e\xff\xff\xff\xff\x0f");
    assert_eq!(rt; labels.err(), Some(ReadError::Refused { at: 0 }));
    let module = b"\x00asm\x01\x00\x00\x00\x00\xff\xff\xff\xff\x0f";
    let sections = read_module_strict(rt.alloc(), module);
    assert_eq!(rt; sections.map(|_| ()), Err(ReadError::Refused { at: 8 }));
    Ok(())
}
