//! Iterators that tell of more items than they give, and what is refused before an item is asked for.
ghost use Rattle.std.specs.Prelude.{◌≤◌, vec_len};
ghost use Rattle.std.specs.Iterator.{at_most};

use super::{is, is_encoded};
use std::alloc::Global;
use std::cell::Cell;
use std::test::Fail;
use wasm_encoder::{
    ArrayType, BlockType, Catch, CompositeInnerType, CompositeType, ContType, Encode, EncodeError,
    FieldType, Function, InstructionSink, Items, StorageType, SubType, TypeSection, ValType,
    encode_bytes,
};

/// Gives its items from the last on, tells how many are to come, and counts how often it was asked for one.
#[derive(Drop)]
struct Told<'a, T> {
    items: Vec<T>,
    told: usize,
    asked: &'a Cell<u32>,
    ghost told_enough: { vec_len items ≤ told },
}

impl<'a, T: Drop> Iterator for Told<'a, T> {
    type Item = T;

    ghost remaining = { λ s. at_most s.told };

    fn next(&mut self) -> Option<T> {
        self.asked.set(self.asked.get().saturating_add(1));
        let item = self.items.pop()?;
        self.told -= 1;
        Some(item)
    }
}

impl<'a, T: Drop> ExactSizeIterator for Told<'a, T> {
    fn len(&self) -> usize {
        self.told
    }
}

/// Gives these items, and tells of so many more.
fn telling<T: Drop>(items: Vec<T>, more: usize, asked: &Cell<u32>) -> Told<'_, T> {
    let told = items.len().saturating_add(more);
    Told { items, told, asked }
}

/// Counts the labels that the iterator gave, not those that it announced besides. A case has both numbers, and the
/// opcode with the count.
#[test]
fn the_labels_that_come_are_counted(rt: HostRuntime) -> Result<(), Fail> {
    for (came, more, head) in [
        (0, 0, "2A0E00"),
        (0, 1, "2A0E00"),
        (0, 16384, "2A0E00"),
        (3, 0, "2A0E03"),
        (3, 1, "2A0E03"),
        (3, 300, "2A0E03"),
        (127, 1, "2A0E7F"),
        (127, 16257, "2A0E7F"),
        (127, 2097025, "2A0E7F"),
        (128, 0, "2A0E8001"),
        (128, 1, "2A0E8001"),
        (128, 16256, "2A0E8001"),
        (300, 2000000, "2A0EAC02"),
        (16383, 1, "2A0EFF7F"),
        (16384, 1, "2A0E808001"),
    ] {
        writes_labels(rt.alloc(), came, more, head)?;
    }
    Ok(())
}

/// A branch table with these labels has this head, the labels, and the label of all other numbers.
fn writes_labels(alloc: Global, came: usize, more: usize, head: &str) -> Result<(), Fail> {
    let asked = Cell::new(0);
    let labels = telling(vec![in alloc; 5u32; came]?, more, &asked);
    let mut code = vec![in alloc; 0x2a]?;
    InstructionSink::new(&mut code).br_table(labels, 9)?.end()?;
    let expected = repeated(alloc, head, "", "05", came)?;
    let rest = code.as_slice().strip_prefix(expected.as_slice());
    is(alloc, rest.unwrap_or(&[]), "090B")
}

/// Counts the items that the iterator gave, not those that it announced besides. A case has both numbers and the count.
#[test]
fn the_types_that_come_are_counted(rt: HostRuntime) -> Result<(), Fail> {
    for (came, more, count) in [
        (0, 0, "00"),
        (0, 200, "00"),
        (3, 1, "03"),
        (3, 300, "03"),
        (127, 1, "7F"),
        (127, 16257, "7F"),
        (128, 1, "8001"),
        (128, 16256, "8001"),
    ] {
        adds_function(rt.alloc(), came, more, count)?;
        adds_struct(rt.alloc(), came, more, count)?;
        adds_group(rt.alloc(), came, more, count)?;
    }
    Ok(())
}

/// Parameters of this number, and one result.
fn adds_function(alloc: Global, came: usize, more: usize, count: &str) -> Result<(), Fail> {
    let asked = Cell::new(0);
    let params = telling(vec![in alloc; ValType::I32; came]?, more, &asked);
    let results = telling(vec![in alloc; ValType::I64; 1]?, more, &asked);
    let mut types = TypeSection::new(alloc);
    types.ty().function(params, results)?;
    let mut body = repeated(alloc, "0160", count, "7F", came)?;
    body.extend_from_slice(&[0x01, 0x7e])?;
    is_body(alloc, &types, body.as_slice())
}

/// Fields of this number.
fn adds_struct(alloc: Global, came: usize, more: usize, count: &str) -> Result<(), Fail> {
    let asked = Cell::new(0);
    let fields = telling(vec![in alloc; BYTE; came]?, more, &asked);
    let mut types = TypeSection::new(alloc);
    types.ty().struct_(fields)?;
    let body = repeated(alloc, "015F", count, "7801", came)?;
    is_body(alloc, &types, body.as_slice())
}

/// A group of this number of types.
fn adds_group(alloc: Global, came: usize, more: usize, count: &str) -> Result<(), Fail> {
    let asked = Cell::new(0);
    let mut types = TypeSection::new(alloc);
    types.ty().rec(telling(arrays(alloc, came)?, more, &asked))?;
    let body = repeated(alloc, "014E", count, "5E7801", came)?;
    is_body(alloc, &types, body.as_slice())
}

/// A field of a byte that can be changed.
const BYTE: FieldType = FieldType {
    element_type: StorageType::I8,
    mutable: true,
};

/// The type of an array of such fields.
fn array(alloc: Global) -> SubType {
    SubType {
        is_final: true,
        supertype_idxs: Items::new(alloc),
        composite_type: CompositeType {
            inner: CompositeInnerType::Array(ArrayType(BYTE)),
            shared: false,
            descriptor: None,
            describes: None,
        },
    }
}

/// So many types of arrays.
fn arrays(alloc: Global, count: usize) -> Result<Vec<SubType>, Fail> {
    let mut types = Vec::new(alloc);
    for _ in 0..count {
        types.push(array(alloc))?;
    }
    Ok(types)
}

/// A head, a count, and so often the same item.
fn repeated(
    alloc: Global,
    head: &str,
    count: &str,
    item: &str,
    times: usize,
) -> Result<Vec<u8>, Fail> {
    let mut bytes = hex::decode(alloc, head)?;
    bytes.extend_from_slice(hex::decode(alloc, count)?.as_slice())?;
    let item = hex::decode(alloc, item)?;
    for _ in 0..times {
        bytes.extend_from_slice(item.as_slice())?;
    }
    Ok(bytes)
}

/// The section has this body.
fn is_body(alloc: Global, types: &TypeSection, body: &[u8]) -> Result<(), Fail> {
    let mut expected = Vec::new(alloc);
    encode_bytes(body, &mut expected)?;
    let mut bytes = Vec::new(alloc);
    types.encode(&mut bytes)?;
    if bytes == expected {
        Ok(())
    } else {
        Err(Fail::from("another body"))
    }
}

/// A section of one entry.
fn one_entry(alloc: Global) -> Result<TypeSection, Fail> {
    let mut types = TypeSection::new(alloc);
    types.ty().cont(&ContType(0))?;
    Ok(types)
}

/// A section refuses a list that is too long before it asks for an item, and stays as it was.
#[test]
fn too_many_are_refused_before_one_is_asked_for(rt: HostRuntime) -> Result<(), Fail> {
    for more in [4294967296, 5000000000] {
        refuses_parameters(rt.alloc(), more, 0)?;
        refuses_parameters(rt.alloc(), 0, more)?;
        refuses_fields(rt.alloc(), more)?;
        refuses_members(rt.alloc(), more)?;
    }
    Ok(())
}

/// The section still has its one entry, and no item was asked for before it refused more.
fn is_unchanged(
    alloc: Global,
    types: &TypeSection,
    refused: Result<(), EncodeError>,
    asked: u32,
) -> Result<(), Fail> {
    if refused != Err(EncodeError::TooLong) || asked != 0 {
        return Err(Fail::from(asked));
    }
    is_encoded(alloc, types, "03015D00")
}

/// A function type with so many more parameters and results than three.
fn refuses_parameters(alloc: Global, more_params: usize, more_results: usize) -> Result<(), Fail> {
    let asked = Cell::new(0);
    let params = telling(vec![in alloc; ValType::I32; 3]?, more_params, &asked);
    let results = telling(vec![in alloc; ValType::I32; 3]?, more_results, &asked);
    let mut types = one_entry(alloc)?;
    let refused = types.ty().function(params, results);
    is_unchanged(alloc, &types, refused, asked.get())
}

/// A structure with so many more fields than three.
fn refuses_fields(alloc: Global, more: usize) -> Result<(), Fail> {
    let asked = Cell::new(0);
    let mut types = one_entry(alloc)?;
    let fields = telling(vec![in alloc; BYTE; 3]?, more, &asked);
    let refused = types.ty().struct_(fields);
    is_unchanged(alloc, &types, refused, asked.get())
}

/// A group of so many more types than one.
fn refuses_members(alloc: Global, more: usize) -> Result<(), Fail> {
    let asked = Cell::new(0);
    let members = telling(arrays(alloc, 1)?, more, &asked);
    let mut types = one_entry(alloc)?;
    let refused = types.ty().rec(members);
    is_unchanged(alloc, &types, refused, asked.get())
}

/// Slices, arrays, vectors and repeated items are taken without a proof.
#[test]
fn iterators_of_the_library(rt: HostRuntime) -> Result<(), Fail> {
    let mut types = TypeSection::new(rt.alloc());
    types.ty().function(
        [ValType::I32, ValType::I32].iter().copied(),
        [ValType::I32].iter().copied(),
    )?;
    let params = vec![in rt.alloc(); ValType::I64; 2]?;
    types
        .ty()
        .function(params.into_iter(), [ValType::I64].into_iter())?;
    is_encoded(rt.alloc(), &types, "0D0260027F7F017F60027E7E017E")
}

/// Arrays and vectors are taken as they are.
#[test]
fn arrays_and_vectors(rt: HostRuntime) -> Result<(), Fail> {
    let mut types = TypeSection::new(rt.alloc());
    types.ty().function([ValType::I32, ValType::I32], [])?;
    types
        .ty()
        .function(vec![in rt.alloc(); ValType::I64; 1]?, [ValType::F32])?;
    types.ty().struct_([BYTE])?;
    types.ty().rec([array(rt.alloc())])?;
    is_encoded(
        rt.alloc(),
        &types,
        "140460027F7F0060017E017D5F0178014E015E7801",
    )?;
    let mut function = Function::new(rt.alloc(), [(2, ValType::F64)])?;
    function
        .instructions()
        .try_table(BlockType::Empty, [Catch::All { label: 0 }])?
        .br_table([0, 1], 0)?
        .end()?
        .end()?;
    is_encoded(rt.alloc(), &function, "0F01027C1F400102000E020001000B0B")
}
