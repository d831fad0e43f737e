//! Memory arguments whose alignment is out of range.

use super::{is, is_refused};
use rationed::Rationed;
use std::test::Fail;
use wasm_encoder::{Encode, EncodeError, MemArg, encode_list};

#[test]
fn alignments_out_of_range(rt: HostRuntime) -> Result<(), Fail> {
    for (align, memory_index) in [(64, 0), (64, 1), (128, 0), (4294967295, 7)] {
        let arg = MemArg {
            offset: 0,
            align,
            memory_index,
        };
        is_refused(rt.alloc(), &arg, &EncodeError::Alignment)?;
    }
    Ok(())
}

/// A memory argument of this alignment.
fn aligned(align: u32) -> MemArg {
    MemArg {
        offset: 8,
        align,
        memory_index: 0,
    }
}

/// The list is as it was, though the first item could be written.
#[test]
fn an_alignment_out_of_range_in_a_list(rt: HostRuntime) -> Result<(), Fail> {
    let mut written = vec![in rt.alloc(); 0x2a]?;
    let refused = encode_list(&[aligned(3), aligned(64)], &mut written);
    assert!(rt; refused == Err(EncodeError::Alignment));
    is(rt.alloc(), written.as_slice(), "2A")?;
    encode_list(&[aligned(3), aligned(63)], &mut written)?;
    is(rt.alloc(), written.as_slice(), "2A0203083F08")
}

#[test]
fn an_alignment_is_refused_before_memory(rt: HostRuntime) {
    let ration = Rationed::new(rt.alloc(), 0);
    let mut written = Vec::new(&ration);
    let refused = aligned(64).encode(&mut written);
    assert!(rt; refused == Err(EncodeError::Alignment));
    let refused = aligned(63).encode(&mut written);
    assert!(rt; refused == Err(EncodeError::Memory));
}
