//! Calls, and operands of other kinds than their opcodes have.

use super::{calls_of, plain};
use std::test::Fail;
use wasm_encoder::{
    AbstractHeapType, Call, HeapType, Ieee32, Ieee64, MemArg, Opcode, Operands, Prefix,
};

/// The opcode of this number after `0xFD`.
fn vector(number: u32) -> Opcode {
    Opcode {
        prefix: Prefix::Fd,
        number,
    }
}

/// An alignment out of range.
const WIDE: MemArg = MemArg {
    offset: 3,
    align: 64,
    memory_index: 1,
};

/// No call is made of the opcode and the operands, which are handed back.
fn is_handed_back(op: Opcode, operands: Operands) -> Result<(), Fail> {
    let same = operands.try_clone()?;
    match Call::new(op, operands) {
        Err(back) if back == same => Ok(()),
        Err(_back) => Err(Fail::from(op)),
        Ok(_call) => Err(Fail::from(op)),
    }
}

#[test]
fn operands_of_another_kind_are_handed_back() -> Result<(), Fail> {
    is_handed_back(plain(0x0b), Operands::Index(7))?;
    is_handed_back(plain(0x20), Operands::None)?;
    is_handed_back(plain(0x41), Operands::I64(-7))?;
    is_handed_back(plain(0x42), Operands::I32(-7))?;
    is_handed_back(plain(0x43), Operands::I32(7))
}

#[test]
fn operands_of_no_opcode_are_handed_back() -> Result<(), Fail> {
    is_handed_back(plain(0x16), Operands::None)?;
    is_handed_back(plain(0xff), Operands::Index(7))?;
    is_handed_back(vector(0x9a), Operands::None)
}

#[test]
fn operands_out_of_range_are_handed_back() -> Result<(), Fail> {
    is_handed_back(plain(0x28), Operands::Mem(WIDE))?;
    is_handed_back(vector(0x54), Operands::MemLane(WIDE, 0))
}

/// The first call is neither of the others.
#[test]
fn calls_differ(rt: HostRuntime) -> Result<(), Fail> {
    let rows = [(0x20, Some(0)), (0x21, Some(0)), (0x20, Some(1))];
    let calls = calls_of(rt.alloc(), &rows)?;
    match calls.as_slice() {
        [get, set, other] if get != set && get != other => Ok(()),
        _ => Err(Fail::from("calls that are equal")),
    }
}

#[test]
fn operands_differ(rt: HostRuntime) {
    assert!(rt; Operands::I32(1) != Operands::I64(1));
    assert!(rt; Operands::None != Operands::Index(0));
    assert!(rt; Operands::F32(Ieee32::new(1)) != Operands::F32(Ieee32::new(2)));
    let shared = HeapType::Abstract {
        shared: true,
        ty: AbstractHeapType::Any,
    };
    assert!(rt; Operands::Heap(HeapType::ANY) != Operands::Heap(shared));
}

#[test]
fn bits_come_back() -> Result<(), Fail> {
    for bits in [0, 1, 0x7fc0_0000, 0xffff_ffff] {
        let wide = u64::from(bits);
        if Ieee32::new(bits).bits() != bits || Ieee64::new(wide).bits() != wide {
            return Err(Fail::from(bits));
        }
    }
    Ok(())
}

#[test]
fn bits_of_32_bit_numbers() -> Result<(), Fail> {
    let rows: [(f32, u32); 9] = [
        (0.0, 0x0000_0000),
        (-0.0, 0x8000_0000),
        (1.0, 0x3f80_0000),
        (-1.5, 0xbfc0_0000),
        (0.1, 0x3dcc_cccd),
        (f32::MAX, 0x7f7f_ffff),
        (f32::INFINITY, 0x7f80_0000),
        (f32::NEG_INFINITY, 0xff80_0000),
        (f32::NAN, 0x7fc0_0000),
    ];
    for (value, bits) in rows {
        if Ieee32::from(value).bits() != bits || Ieee32::from(-value).bits() != negated_32(bits) {
            return Err(Fail::from(bits));
        }
    }
    Ok(())
}

#[test]
fn bits_of_64_bit_numbers() -> Result<(), Fail> {
    let rows: [(f64, u64); 9] = [
        (0.0, 0x0000_0000_0000_0000),
        (-0.0, 0x8000_0000_0000_0000),
        (1.0, 0x3ff0_0000_0000_0000),
        (-1.5, 0xbff8_0000_0000_0000),
        (0.1, 0x3fb9_9999_9999_999a),
        (f64::MAX, 0x7fef_ffff_ffff_ffff),
        (f64::INFINITY, 0x7ff0_0000_0000_0000),
        (f64::NEG_INFINITY, 0xfff0_0000_0000_0000),
        (f64::NAN, 0x7ff8_0000_0000_0000),
    ];
    for (value, bits) in rows {
        if Ieee64::from(value).bits() != bits || Ieee64::from(-value).bits() != negated_64(bits) {
            return Err(Fail::from(bits));
        }
    }
    Ok(())
}

/// The bits of the negated number. A NaN stays as it is.
fn negated_32(bits: u32) -> u32 {
    match bits {
        0x7fc0_0000 => bits,
        _ => bits ^ 0x8000_0000,
    }
}

/// The bits of the negated number. A NaN stays as it is.
fn negated_64(bits: u64) -> u64 {
    match bits {
        0x7ff8_0000_0000_0000 => bits,
        _ => bits ^ 0x8000_0000_0000_0000,
    }
}
