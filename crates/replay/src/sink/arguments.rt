//! The operands of a call of the sink, from the tokens of a vector.

use crate::mismatch::Mismatch;
use crate::type_tokens::{heap_type, ref_type, val_type};
use std::alloc::Global;
use wasm_encoder::{
    BlockType, Catch, Handle, HeapType, Ieee32, Ieee64, Lane, MemArg, Ordering, RefType, ValType,
};

/// An operand that is no list.
#[derive(Clone, Copy)]
pub enum Argument {
    U32(u32),
    I32(i32),
    I64(i64),
    I128(i128),
    F32(Ieee32),
    F64(Ieee64),
    Lane(Lane),
    Lanes([Lane; 16]),
    Memory(MemArg),
    Order(Ordering),
    Heap(HeapType),
    Reference(RefType),
    Value(ValType),
    Block(BlockType),
}

/// Reads the operands that the tokens of a column stand for. A space splits them.
pub fn arguments(alloc: Global, column: &str) -> Result<Vec<Argument>, Mismatch> {
    let mut arguments = Vec::new(alloc);
    if column.is_empty() {
        return Ok(arguments);
    }
    for token in column.split(' ') {
        arguments.push(parse_argument(token).ok_or(Mismatch::NotUnderstood)?)?;
    }
    Ok(arguments)
}

/// Reads the operand that a token stands for.
pub fn parse_argument(token: &str) -> Option<Argument> {
    let (kind, value) = token.split_once(':')?;
    Some(match kind {
        "u32" => Argument::U32(value.parse().ok()?),
        "i32" => Argument::I32(value.parse().ok()?),
        "i64" => Argument::I64(value.parse().ok()?),
        "i128" => Argument::I128(value.parse().ok()?),
        "f32" => Argument::F32(Ieee32::new(value.parse().ok()?)),
        "f64" => Argument::F64(Ieee64::new(value.parse().ok()?)),
        "lane" => Argument::Lane(value.parse().ok()?),
        "lanes" => Argument::Lanes(lanes(value)?),
        "memarg" => Argument::Memory(memarg(value)?),
        "order" => Argument::Order(ordering(value)?),
        "heap" => Argument::Heap(heap_type(value)?),
        "ref" => Argument::Reference(ref_type(value)?),
        "val" => Argument::Value(val_type(value)?),
        "block" => Argument::Block(block_type(value)?),
        _ => return None,
    })
}

/// Sixteen lanes, split by commas.
fn lanes(text: &str) -> Option<[Lane; 16]> {
    let mut lanes = [0; 16];
    let mut words = text.split(',');
    for lane in &mut lanes {
        *lane = words.next()?.parse().ok()?;
    }
    Some(lanes)
}

/// An offset, an alignment and the index of a memory, split by commas.
pub fn memarg(text: &str) -> Option<MemArg> {
    let (offset, rest) = text.split_once(',')?;
    let (align, memory_index) = rest.split_once(',')?;
    Some(MemArg {
        offset: offset.parse().ok()?,
        align: align.parse().ok()?,
        memory_index: memory_index.parse().ok()?,
    })
}

pub fn ordering(name: &str) -> Option<Ordering> {
    match name {
        "seqcst" => Some(Ordering::SeqCst),
        "acqrel" => Some(Ordering::AcqRel),
        _ => None,
    }
}

/// A block type: `empty`, `val:` and a value type, or `func:` and an index.
pub fn block_type(text: &str) -> Option<BlockType> {
    match text.split_once(':') {
        None if text == "empty" => Some(BlockType::Empty),
        Some(("val", ty)) => Some(BlockType::Result(val_type(ty)?)),
        Some(("func", index)) => Some(BlockType::FunctionType(index.parse().ok()?)),
        _ => None,
    }
}

/// A label, as `u32:7`.
pub fn index(token: &str) -> Option<u32> {
    token.strip_prefix("u32:")?.parse().ok()
}

/// A value type, as `val:i32`.
pub fn value_type(token: &str) -> Option<ValType> {
    val_type(token.strip_prefix("val:")?)
}

/// A clause of `try_table`, as `catch:one:1,2` or `catch:all:2`.
pub fn catch(token: &str) -> Option<Catch> {
    let (kind, rest) = token.strip_prefix("catch:")?.split_once(':')?;
    match kind {
        "one" => {
            let (tag, label) = pair(rest)?;
            Some(Catch::One { tag, label })
        }
        "oneref" => {
            let (tag, label) = pair(rest)?;
            Some(Catch::OneRef { tag, label })
        }
        "all" => Some(Catch::All {
            label: rest.parse().ok()?,
        }),
        "allref" => Some(Catch::AllRef {
            label: rest.parse().ok()?,
        }),
        _ => None,
    }
}

/// A handler, as `handle:label:1,2` or `handle:switch:1`.
pub fn handler(token: &str) -> Option<Handle> {
    let (kind, rest) = token.strip_prefix("handle:")?.split_once(':')?;
    match kind {
        "label" => {
            let (tag, label) = pair(rest)?;
            Some(Handle::OnLabel { tag, label })
        }
        "switch" => Some(Handle::OnSwitch {
            tag: rest.parse().ok()?,
        }),
        _ => None,
    }
}

/// Two numbers with a comma between.
fn pair(text: &str) -> Option<(u32, u32)> {
    let (first, second) = text.split_once(',')?;
    Some((first.parse().ok()?, second.parse().ok()?))
}
