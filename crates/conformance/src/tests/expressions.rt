//! Constant expressions from bytes, and names out of order.

use std::alloc::Global;
use std::test::Fail;
use wasm_encoder::{ConstExpr, NameError, NameMap, NameSection, ReadError};

/// The bytes, without the final `end`, are an expression of so many instructions, or are refused at this offset.
fn is_read(alloc: Global, bytes: &[u8], count: usize, refused: Option<usize>) -> Result<(), Fail> {
    let right = match (ConstExpr::raw(alloc, bytes), refused) {
        (Ok(expr), None) => expr.as_slice().len() == count,
        (Err(ReadError::Refused { at }), Some(offset)) => at == offset,
        _ => false,
    };
    if right {
        Ok(())
    } else {
        Err(Fail::from(bytes.len()))
    }
}

#[test]
fn expressions_from_their_bytes(rt: HostRuntime) -> Result<(), Fail> {
    is_read(rt.alloc(), b"", 0, None)?;
    is_read(rt.alloc(), b"\x41\x90\x00", 1, None)?; // i32.const 16, padded
    is_read(rt.alloc(), b"\x02\x40\x0b", 2, None)?; // block, end
    is_read(rt.alloc(), b"\x02\x40", 0, Some(2))?;
    is_read(rt.alloc(), b"\x0b", 0, Some(1))?;
    is_read(rt.alloc(), b"\x41\x10\xff", 0, Some(2))
}

/// A name section has each subsection once, after those of lower ids.
#[test]
fn names_out_of_order(rt: HostRuntime) -> Result<(), Fail> {
    let map = NameMap::new(rt.alloc());
    let mut names = NameSection::new(rt.alloc());
    names.types(&map)?;
    let earlier = names.functions(&map).err();
    let again = names.types(&map).err();
    assert!(rt; earlier == Some(NameError::OutOfOrder) && again == Some(NameError::OutOfOrder));
    names.tables(&map)?;
    assert_eq!(rt; names.as_slice(), b"\x04\x01\x00\x05\x01\x00".as_slice());
    Ok(())
}
