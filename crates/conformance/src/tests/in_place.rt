//! Slices that are rewritten in place.

use std::alloc::Global;
use std::test::Fail;
use wasm_encoder::sections::rewrite_and_check_in_place;
use wasm_encoder::{
    Error, FunctionSection, Instructions, Module, Reason, TypeSection, WholeModule, normalise,
    rewrite_code_section_in_place, rewrite_in_place, rewrite_instructions_in_place,
    rewrite_module_in_place, rewrite_type_section_in_place,
};

const HEADER: [u8; 8] = *b"\0asm\x01\0\0\0";

#[test]
fn bytes_around_a_slice_stay(rt: HostRuntime) -> Result<(), Fail> {
    let mut bytes = *b"\xaa\x20\xc2\x80\x00\xbb"; // local.get 66, padded
    let len = rewrite_instructions_in_place(&mut bytes[1..5])?;
    assert_eq!(rt; len, 2);
    assert_eq!(rt; &bytes[..3], b"\xaa\x20\x42".as_slice());
    assert_eq!(rt; bytes[5], 0xbb);
    Ok(())
}

#[test]
fn an_empty_slice(rt: HostRuntime) -> Result<(), Fail> {
    assert_eq!(rt; rewrite_in_place::<Instructions>(&mut [])?, 0);
    let refused = rewrite_in_place::<WholeModule>(&mut []);
    assert_eq!(rt; refused.err().map(|refusal| refusal.at), Some(0));
    assert!(rt; rewrite_in_place::<FunctionSection>(&mut []).is_err());
    Ok(())
}

#[test]
fn each_kind(rt: HostRuntime) -> Result<(), Fail> {
    let mut body = *b"\x81\x00\x4f\x00\x60\x00\x00"; // (sub final (func)), the count in two bytes
    let len = rewrite_type_section_in_place(&mut body)?;
    assert_eq!(rt; &body[..len], b"\x01\x60\x00\x00".as_slice());
    let mut body = *b"\x01\x84\x00\x80\x80\x00\x0b"; // a size, and a count of locals
    let len = rewrite_code_section_in_place(&mut body)?;
    assert_eq!(rt; &body[..len], b"\x01\x02\x00\x0b".as_slice());
    let mut module = *b"\0asm\x01\0\0\0\x08\x82\x00\x85\x00"; // a start section, its body is raw
    let len = rewrite_module_in_place(&mut module)?;
    assert_eq!(rt;
        &module[..len],
        b"\0asm\x01\0\0\0\x08\x02\x85\x00".as_slice()
    );
    let len = rewrite_in_place::<Module>(&mut module[..len])?;
    assert_eq!(rt; len, 12);
    let len = rewrite_in_place::<WholeModule>(&mut module[..len])?;
    assert_eq!(rt; &module[..len], b"\0asm\x01\0\0\0\x08\x01\x05".as_slice());
    Ok(())
}

#[test]
fn the_same_as_in_new_memory(rt: HostRuntime) -> Result<(), Fail> {
    let alloc = rt.alloc();
    let types = b"\x82\x80\x00\x60\x00\x81\x00\x7f\x4e\x01\x50\x00\x5f\x00";
    let mut bytes = Vec::from_slice(alloc, types)?;
    let len = rewrite_in_place::<TypeSection>(bytes.as_mut_slice())?;
    let expected = normalise::<TypeSection>(alloc, types)?;
    assert_eq!(rt; &bytes[..len], expected.as_slice());
    Ok(())
}

#[test]
fn a_refusal_says_why(rt: HostRuntime) -> Result<(), Fail> {
    let mut bytes = *b"\x01\xff\x0b"; // 0xff is no opcode
    match rewrite_instructions_in_place(&mut bytes) {
        Err(refusal) => {
            assert_eq!(rt; (refusal.at, refusal.offset), (1, 1));
            assert_eq!(rt; refusal.reason, Reason::UnknownOpcode { number: 0xff });
        }
        Ok(_) => assert!(rt; false),
    }
    Ok(())
}

#[test]
fn a_module_is_rewritten_and_checked(rt: HostRuntime) -> Result<(), Fail> {
    let mut bytes = *b"\0asm\x01\0\0\0\x08\x02\x85\x00"; // the index 5 in two bytes
    let checked = rewrite_and_check_in_place(&mut bytes)?;
    assert_eq!(rt; checked.len, 11);
    assert_eq!(rt;
        checked.longer.map(|refusal| (refusal.at, refusal.offset)),
        Some((8, 10))
    );
    let checked = rewrite_and_check_in_place(&mut bytes[..checked.len])?;
    assert_eq!(rt; checked.len, 11);
    assert!(rt; checked.longer.is_none());
    Ok(())
}

/// Returns the minimal encoding of a module without sections.
fn empty(alloc: Global) -> Result<Vec<u8>, Error> {
    let mut bytes = Vec::from_slice(alloc, &HEADER)?;
    let len = rewrite_in_place::<WholeModule>(bytes.as_mut_slice())?;
    bytes.truncate(len);
    Ok(bytes)
}

#[test]
fn a_refusal_becomes_an_error(rt: HostRuntime) -> Result<(), Fail> {
    assert_eq!(rt; empty(rt.alloc())?.as_slice(), HEADER.as_slice());
    Ok(())
}
