//! The sink's methods: a chain of them, and what is refused.

use super::is;
use rationed::Rationed;
use std::alloc::Global;
use std::iter::repeat_n;
use std::test::Fail;
use wasm_encoder::{
    BlockType, EncodeError, HeapType, Ieee64, InstructionSink, MemArg, Ordering, RefType, ValType,
};

const ARG: MemArg = MemArg {
    offset: 8,
    align: 3,
    memory_index: 1,
};

fn append_control(code: &mut Vec<u8>) -> Result<(), EncodeError> {
    InstructionSink::new(code)
        .block(BlockType::Result(ValType::I32))?
        .ref_null(HeapType::EXTERN)?
        .br_on_cast(0, RefType::ANYREF, RefType::I31REF.nullable(false))?
        .i64_store(ARG)?
        .f64_const(Ieee64::new(1))?;
    Ok(())
}

fn append_others(code: &mut Vec<u8>) -> Result<(), EncodeError> {
    InstructionSink::new(code)
        .typed_select(ValType::I32)?
        .typed_select_multi(&[ValType::I32, ValType::FUNCREF])?
        .v128_load8_lane(ARG, 255)?
        .struct_atomic_get(Ordering::AcqRel, 1, 2)?
        .end()?;
    Ok(())
}

#[test]
fn chains_with_operands(rt: HostRuntime) -> Result<(), Fail> {
    let mut code = Vec::new(rt.alloc());
    append_control(&mut code)?;
    append_others(&mut code)?;
    let hex =
        "027FD06FFB1801006E6C374301084401000000000000001C017F1C027F70FD54430108FFFE5C0101020B";
    is(rt.alloc(), code.as_slice(), hex)
}

/// Room is used up, given up by a list, and made again: the bytes are the same.
#[test]
fn chains_with_room(rt: HostRuntime) -> Result<(), Fail> {
    let mut code = Vec::new(rt.alloc());
    InstructionSink::new(&mut code)
        .with_room(2)?
        .local_get(300)?
        .i32_load(ARG)?
        .i32_add()?
        .with_room(3)?
        .br_table([1, 2].iter().copied(), 0)?
        .i8x16_shuffle([31; 16])?
        .with_room(0)?
        .end()?;
    let hex = "20AC02284301086A0E02010200FD0D1F1F1F1F1F1F1F1F1F1F1F1F1F1F1F1F0B";
    is(rt.alloc(), code.as_slice(), hex)
}

/// Appends nine instructions of 18 bytes, and may ask for memory once.
fn append_in_room(alloc: Global) -> Result<usize, EncodeError> {
    let ration = Rationed::new(alloc, 1);
    let mut code = Vec::new(&ration);
    let mut sink = InstructionSink::new(&mut code).with_room(9)?;
    for _ in 0..9 {
        sink = sink.i8x16_shuffle([0; 16])?;
    }
    Ok(code.len())
}

#[test]
fn room_lasts(rt: HostRuntime) {
    assert!(rt; append_in_room(rt.alloc()) == Ok(162));
}

/// Room for more bytes than memory has is refused, and the list is as it was.
#[test]
fn room_is_refused(rt: HostRuntime) -> Result<(), Fail> {
    let ration = Rationed::new(rt.alloc(), 1);
    let mut code = Vec::new(&ration);
    InstructionSink::new(&mut code).nop()?;
    let refused = InstructionSink::new(&mut code).with_room(4294967295).err();
    assert!(rt; refused == Some(EncodeError::Memory));
    is(rt.alloc(), code.as_slice(), "01")
}

/// An alignment out of range is refused by methods of each kind with one.
fn refuses_alignment(code: &mut Vec<u8>, memarg: MemArg) -> bool {
    [
        InstructionSink::new(&mut *code).i32_load(memarg).err(),
        InstructionSink::new(&mut *code).v128_store(memarg).err(),
        InstructionSink::new(&mut *code)
            .v128_load8_lane(memarg, 0)
            .err(),
        InstructionSink::new(&mut *code)
            .memory_atomic_notify(memarg)
            .err(),
    ]
    .iter()
    .all(|refused| *refused == Some(EncodeError::Alignment))
}

/// The same, and the list is as it was and can be used again.
fn refuses(alloc: Global, memarg: MemArg) -> Result<(), Fail> {
    let mut code = vec![in alloc; 0x2a]?;
    let is_refused = refuses_alignment(&mut code, memarg);
    if !is_refused || code.as_slice() != [0x2a].as_slice() {
        return Err(Fail::from(memarg));
    }
    InstructionSink::new(&mut code).unreachable()?;
    is(alloc, code.as_slice(), "2A00")
}

#[test]
fn alignments_are_refused(rt: HostRuntime) -> Result<(), Fail> {
    for align in [64, 65, 127, 128, 4294967295] {
        for memory_index in [0, 1, 4294967295] {
            let memarg = MemArg {
                offset: 0,
                align,
                memory_index,
            };
            refuses(rt.alloc(), memarg)?;
        }
    }
    Ok(())
}

#[test]
fn alignments_are_refused_before_memory(rt: HostRuntime) {
    let memarg = MemArg {
        offset: 0,
        align: 64,
        memory_index: 0,
    };
    let ration = Rationed::new(rt.alloc(), 0);
    let mut code = Vec::new(&ration);
    let refused = InstructionSink::new(&mut code).i32_load(memarg).err();
    assert!(rt; refused == Some(EncodeError::Alignment));
    let refused = InstructionSink::new(&mut code).nop().err();
    assert!(rt; refused == Some(EncodeError::Memory));
}

/// More labels than a u32 counts are refused, by what they say of their number. Were they asked for, the test would run
/// out of time.
#[test]
fn too_many_labels_are_refused(rt: HostRuntime) -> Result<(), Fail> {
    let mut code = vec![in rt.alloc(); 0x2a]?;
    for count in [5_000_000_000, 4_294_967_296] {
        let labels = repeat_n(0, count);
        let refused = InstructionSink::new(&mut code).br_table(labels, 0).err();
        assert!(rt; refused == Some(EncodeError::TooLong));
    }
    is(rt.alloc(), code.as_slice(), "2A")
}
