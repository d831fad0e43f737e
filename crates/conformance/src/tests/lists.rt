//! Options, references, lists, bytes, texts and the ids of sections.

use super::own::{Long, Never};
use super::{is, is_encoded, is_refused};
use std::cmp::Ordering;
use std::test::Fail;
use wasm_encoder::{
    BoxedItems, EncodeError, Items, SectionId, encode_bytes, encode_list, encode_str,
};

#[test]
fn options_and_references(rt: HostRuntime) -> Result<(), Fail> {
    let number = 624485u32;
    let reference = &number;
    is_encoded(rt.alloc(), &Some(number), "01E58E26")?;
    is_encoded(rt.alloc(), &None::<u32>, "00")?;
    is_encoded(rt.alloc(), &&reference, "E58E26")?;
    is_encoded(rt.alloc(), &Some(reference), "01E58E26")
}

/// One after the other.
#[test]
fn lists(rt: HostRuntime) -> Result<(), Fail> {
    let mut bytes = Vec::new(rt.alloc());
    encode_list(&[1u32, 128, 624485], &mut bytes)?;
    encode_list::<u32, _>(&[], &mut bytes)?;
    encode_list(&[Some(&7u32), None], &mut bytes)?;
    is(rt.alloc(), bytes.as_slice(), "03018001E58E260002010700")
}

#[test]
fn bytes_and_texts(rt: HostRuntime) -> Result<(), Fail> {
    let mut bytes = Vec::new(rt.alloc());
    encode_str("test", &mut bytes)?;
    encode_bytes(&[], &mut bytes)?;
    encode_bytes(&[0x2a, 0x80], &mut bytes)?;
    is(rt.alloc(), bytes.as_slice(), "047465737400022A80")
}

/// In the order of their numbers, which is that of the declarations too.
#[test]
fn section_ids() -> Result<(), Fail> {
    let ids = [
        SectionId::Custom,
        SectionId::Types,
        SectionId::Import,
        SectionId::Function,
        SectionId::Table,
        SectionId::Memory,
        SectionId::Global,
        SectionId::Export,
        SectionId::Start,
        SectionId::Element,
        SectionId::Code,
        SectionId::Data,
        SectionId::DataCount,
        SectionId::Tag,
    ];
    for (number, id) in (0..14).zip(ids) {
        if u8::from(id) != number {
            return Err(Fail::from(id));
        }
    }
    for (lower, higher) in ids.iter().zip(ids.iter().skip(1)) {
        let is_less = lower.partial_cmp(higher) == Some(Ordering::Less);
        let is_greater = higher.partial_cmp(lower) == Some(Ordering::Greater);
        if !is_less || !is_greater {
            return Err(Fail::from(*lower));
        }
    }
    Ok(())
}

#[test]
fn refused_options(rt: HostRuntime) -> Result<(), Fail> {
    is_refused(rt.alloc(), &Some(Long), &EncodeError::TooLong)?;
    is_refused(rt.alloc(), &Some(Never), &EncodeError::Memory)
}

#[test]
fn refused_lists_leave_nothing(rt: HostRuntime) -> Result<(), Fail> {
    let mut list = vec![in rt.alloc(); 0x2a]?;
    let refused = encode_list(&[1usize, 4294967296usize], &mut list);
    assert!(rt; refused == Err(EncodeError::TooLong));
    let refused = encode_list(&[Never, Never], &mut list);
    assert!(rt; refused == Err(EncodeError::Memory));
    is(rt.alloc(), list.as_slice(), "2A")
}

/// The sum of the squares of the items.
fn squares(items: &Items<u32>) -> u32 {
    let mut sum: u32 = 0;
    for item in items {
        sum = sum.wrapping_add(item.wrapping_mul(*item));
    }
    sum
}

#[test]
fn items_are_iterated(rt: HostRuntime) -> Result<(), Fail> {
    assert_eq!(rt; squares(&Items::new(rt.alloc())), 0);
    assert_eq!(rt; squares(&Items::from_slice(rt.alloc(), &[3, 5, 7])?), 83);
    let boxed = BoxedItems::new(Items::from_slice(rt.alloc(), &[3, 5, 7])?)?;
    let mut last = 0;
    for item in &boxed {
        assert!(rt; last < *item);
        last = *item;
    }
    assert_eq!(rt; last, 7);
    Ok(())
}
