//! The text of instructions: one of each kind of operands, and floating-point numbers.

use std::alloc::Global;
use std::fmt::Display;
use std::test::Fail;
use wasm_encoder::{
    AbstractHeapType, BlockType, BoxedItems, Call, Catch, Handle, HeapType, Ieee32, Ieee64, Items,
    MemArg, Opcode, Operands, Ordering, RefType, V128, ValType,
};

/// The value is written as this text.
fn shows<T: Display>(alloc: Global, value: &T, text: &str) -> Result<(), Fail> {
    let written = value.to_string(alloc)?;
    if written.as_str() == text {
        Ok(())
    } else {
        Err(Fail::from(text))
    }
}

/// The instruction of this name with these operands is written as this text.
fn call_shows(alloc: Global, name: &str, operands: Operands, text: &str) -> Result<(), Fail> {
    match Call::named(name, operands) {
        Ok(call) => shows(alloc, &call, text),
        Err(_operands) => Err(Fail::from(name)),
    }
}

/// A memory argument.
fn mem(memory_index: u32, offset: u64, align: u32) -> MemArg {
    MemArg {
        offset,
        align,
        memory_index,
    }
}

/// A reference type.
fn to(nullable: bool, heap_type: HeapType) -> RefType {
    RefType {
        nullable,
        heap_type,
    }
}

#[test]
fn no_operands(rt: HostRuntime) -> Result<(), Fail> {
    call_shows(rt.alloc(), "unreachable", Operands::None, "unreachable")?;
    call_shows(rt.alloc(), "i32.add", Operands::None, "i32.add")?;
    call_shows(rt.alloc(), "i8x16.swizzle", Operands::None, "i8x16.swizzle")
}

#[test]
fn block_types(rt: HostRuntime) -> Result<(), Fail> {
    let result = BlockType::Result(ValType::I32);
    let reference = BlockType::Result(ValType::FUNCREF);
    let function = BlockType::FunctionType(3);
    call_shows(
        rt.alloc(),
        "block",
        Operands::Block(BlockType::Empty),
        "block",
    )?;
    call_shows(rt.alloc(), "loop", Operands::Block(result), "loop i32")?;
    call_shows(rt.alloc(), "if", Operands::Block(reference), "if funcref")?;
    call_shows(
        rt.alloc(),
        "block",
        Operands::Block(function),
        "block type[3]",
    )
}

#[test]
fn indexes(rt: HostRuntime) -> Result<(), Fail> {
    let two = Operands::TwoIndexes(1, 2);
    call_shows(rt.alloc(), "local.get", Operands::Index(3), "local.get 3")?;
    call_shows(
        rt.alloc(),
        "global.set",
        Operands::Index(u32::MAX),
        "global.set 4294967295",
    )?;
    call_shows(rt.alloc(), "memory.copy", two, "memory.copy 1 2")
}

/// The index of the table is first in text, and that of the type is first in bytes.
#[test]
fn indirect_calls(rt: HostRuntime) -> Result<(), Fail> {
    call_shows(
        rt.alloc(),
        "call_indirect",
        Operands::TwoIndexes(5, 0),
        "call_indirect 0 (type 5)",
    )?;
    call_shows(
        rt.alloc(),
        "return_call_indirect",
        Operands::TwoIndexes(0, 7),
        "return_call_indirect 7 (type 0)",
    )
}

#[test]
fn labels(rt: HostRuntime) -> Result<(), Fail> {
    let labels = Items::from(vec![in rt.alloc(); 0, 1]?);
    let none = Items::new(rt.alloc());
    call_shows(
        rt.alloc(),
        "br_table",
        Operands::BrTable(labels, 2),
        "br_table 0 1 2",
    )?;
    call_shows(
        rt.alloc(),
        "br_table",
        Operands::BrTable(none, 4),
        "br_table 4",
    )
}

#[test]
fn types_of_a_select(rt: HostRuntime) -> Result<(), Fail> {
    let types = Items::from(vec![in rt.alloc(); ValType::I32, ValType::EXTERNREF]?);
    let one = Items::from(vec![in rt.alloc(); ValType::V128]?);
    call_shows(
        rt.alloc(),
        "select",
        Operands::Types(types),
        "select i32, externref",
    )?;
    call_shows(rt.alloc(), "select", Operands::Types(one), "select v128")?;
    call_shows(rt.alloc(), "select", Operands::None, "select")
}

#[test]
fn clauses_of_a_try_table(rt: HostRuntime) -> Result<(), Fail> {
    let clauses = vec![in rt.alloc();
        Catch::One { tag: 1, label: 2 },
        Catch::OneRef { tag: 3, label: 4 },
        Catch::All { label: 5 },
        Catch::AllRef { label: 6 },
    ]?;
    let block = BlockType::Result(ValType::I64);
    call_shows(
        rt.alloc(),
        "try_table",
        Operands::TryTable(block, BoxedItems::new(Items::from(clauses))?),
        "try_table i64 (catch 1 2) (catch_ref 3 4) (catch_all 5) (catch_all_ref 6)",
    )
}

#[test]
fn memory_arguments(rt: HostRuntime) -> Result<(), Fail> {
    let alloc = rt.alloc();
    let load = Operands::Mem(mem(0, 4, 2));
    let store = Operands::Mem(mem(1, u64::MAX, 63));
    let lane = Operands::MemLane(mem(2, 0, 0), 15);
    call_shows(alloc, "i32.load", load, "i32.load offset=4 align=4")?;
    call_shows(
        alloc,
        "i64.store",
        store,
        "i64.store 1 offset=18446744073709551615 align=9223372036854775808",
    )?;
    call_shows(
        alloc,
        "v128.load8_lane",
        lane,
        "v128.load8_lane 2 offset=0 align=1 15",
    )
}

#[test]
fn numbers(rt: HostRuntime) -> Result<(), Fail> {
    call_shows(rt.alloc(), "i32.const", Operands::I32(-7), "i32.const -7")?;
    call_shows(
        rt.alloc(),
        "i64.const",
        Operands::I64(i64::MIN),
        "i64.const -9223372036854775808",
    )?;
    call_shows(
        rt.alloc(),
        "f32.const",
        Operands::F32(Ieee32::from(1.5)),
        "f32.const 0x1.8p+0",
    )?;
    call_shows(
        rt.alloc(),
        "f64.const",
        Operands::F64(Ieee64::from(-10.0)),
        "f64.const -0x1.4p+3",
    )
}

#[test]
fn heap_types(rt: HostRuntime) -> Result<(), Fail> {
    let shared = HeapType::Abstract {
        shared: true,
        ty: AbstractHeapType::Struct,
    };
    call_shows(
        rt.alloc(),
        "ref.null",
        Operands::Heap(HeapType::FUNC),
        "ref.null func",
    )?;
    call_shows(
        rt.alloc(),
        "ref.null",
        Operands::Heap(HeapType::Concrete(9)),
        "ref.null 9",
    )?;
    call_shows(
        rt.alloc(),
        "ref.null",
        Operands::Heap(HeapType::Exact(9)),
        "ref.null (exact 9)",
    )?;
    call_shows(
        rt.alloc(),
        "ref.null",
        Operands::Heap(shared),
        "ref.null (shared struct)",
    )
}

#[test]
fn handlers(rt: HostRuntime) -> Result<(), Fail> {
    let both = vec![in rt.alloc();
        Handle::OnLabel { tag: 1, label: 2 },
        Handle::OnSwitch { tag: 3 },
    ]?;
    let none = Items::new(rt.alloc());
    call_shows(
        rt.alloc(),
        "resume",
        Operands::Resume(4, Items::from(both)),
        "resume 4 (on 1 2) (on 3 switch)",
    )?;
    call_shows(
        rt.alloc(),
        "resume_throw",
        Operands::ResumeThrow(4, 5, none),
        "resume_throw 4 5",
    )
}

#[test]
fn branches_on_casts(rt: HostRuntime) -> Result<(), Fail> {
    let cast = Operands::Cast(1, to(true, HeapType::ANY), to(false, HeapType::Concrete(2)));
    call_shows(
        rt.alloc(),
        "br_on_cast",
        cast,
        "br_on_cast 1 anyref (ref 2)",
    )
}

#[test]
fn vectors(rt: HostRuntime) -> Result<(), Fail> {
    let vector = V128::new(0x0403_0201_0000_0000_0000_0000_0000_0002);
    let lanes = [0, 1, 2, 3, 16, 17, 18, 19, 8, 9, 10, 11, 31, 30, 29, 28];
    call_shows(
        rt.alloc(),
        "v128.const",
        Operands::V128(vector),
        "v128.const 0x00000002 0x00000000 0x00000000 0x04030201",
    )?;
    call_shows(
        rt.alloc(),
        "i8x16.shuffle",
        Operands::Shuffle(lanes),
        "i8x16.shuffle 0x03020100 0x13121110 0x0b0a0908 0x1c1d1e1f",
    )?;
    call_shows(
        rt.alloc(),
        "i8x16.replace_lane",
        Operands::Lane(5),
        "i8x16.replace_lane 5",
    )
}

#[test]
fn orderings(rt: HostRuntime) -> Result<(), Fail> {
    let alloc = rt.alloc();
    let order = Operands::Order(Ordering::AcqRel);
    let index = Operands::OrderIndex(Ordering::SeqCst, 3);
    let two = Operands::OrderTwoIndexes(Ordering::AcqRel, 3, 4);
    call_shows(alloc, "atomic.fence", order, "atomic.fence acq_rel")?;
    call_shows(
        alloc,
        "global.atomic.get",
        index,
        "global.atomic.get seq_cst 3",
    )?;
    call_shows(
        alloc,
        "struct.atomic.get",
        two,
        "struct.atomic.get acq_rel 3 4",
    )
}

/// The name, or the numbers of an opcode outside the table.
#[test]
fn opcodes(rt: HostRuntime) -> Result<(), Fail> {
    shows(rt.alloc(), &Opcode::without_prefix(0x20), "local.get")?;
    shows(rt.alloc(), &Opcode::after_fc(10), "memory.copy")?;
    shows(rt.alloc(), &Opcode::without_prefix(0xff), "0xff")?;
    shows(rt.alloc(), &Opcode::after_fb(300), "0xfb 300")?;
    shows(rt.alloc(), &Opcode::after_fc(300), "0xfc 300")?;
    shows(rt.alloc(), &Opcode::after_fd(300), "0xfd 300")?;
    shows(rt.alloc(), &Opcode::after_fe(300), "0xfe 300")
}

#[test]
fn numbers_of_32_bits(rt: HostRuntime) -> Result<(), Fail> {
    let rows = [
        (0x0000_0000, "0x0p+0"),
        (0x8000_0000, "-0x0p+0"),
        (0x3f80_0000, "0x1p+0"),
        (0x3dcc_cccd, "0x1.99999ap-4"),
        (0x7f7f_ffff, "0x1.fffffep+127"),
        (0x0080_0000, "0x1p-126"),
        (0x0000_0001, "0x1p-149"),
        (0x807f_ffff, "-0x1.fffffcp-127"),
        (0x7f80_0000, "inf"),
        (0xff80_0000, "-inf"),
        (0x7fc0_0000, "nan"),
        (0xffc0_0000, "-nan"),
        (0x7fa0_0000, "nan:0x200000"),
        (0xff80_0001, "-nan:0x1"),
        (0x7fff_ffff, "nan:0x7fffff"),
    ];
    for (bits, text) in rows {
        shows(rt.alloc(), &Ieee32::new(bits), text)?;
    }
    Ok(())
}

#[test]
fn numbers_of_64_bits(rt: HostRuntime) -> Result<(), Fail> {
    let rows = [
        (0x0000_0000_0000_0000, "0x0p+0"),
        (0x8000_0000_0000_0000, "-0x0p+0"),
        (0x3ff0_0000_0000_0000, "0x1p+0"),
        (0x3fb9_9999_9999_999a, "0x1.999999999999ap-4"),
        (0x7fef_ffff_ffff_ffff, "0x1.fffffffffffffp+1023"),
        (0x0010_0000_0000_0000, "0x1p-1022"),
        (0x0000_0000_0000_0001, "0x1p-1074"),
        (0x800f_ffff_ffff_ffff, "-0x1.ffffffffffffep-1023"),
        (0x7ff0_0000_0000_0000, "inf"),
        (0xfff0_0000_0000_0000, "-inf"),
        (0x7ff8_0000_0000_0000, "nan"),
        (0xfff8_0000_0000_0000, "-nan"),
        (0x7ff4_0000_0000_0000, "nan:0x4000000000000"),
        (0xfff0_0000_0000_0001, "-nan:0x1"),
        (0x7fff_ffff_ffff_ffff, "nan:0xfffffffffffff"),
    ];
    for (bits, text) in rows {
        shows(rt.alloc(), &Ieee64::new(bits), text)?;
    }
    Ok(())
}

/// Abstract heap types with the names of nullable references to them (Core 3.0, Text Format, Types).
#[test]
fn references(rt: HostRuntime) -> Result<(), Fail> {
    let rows = [
        (AbstractHeapType::Func, "func", "funcref"),
        (AbstractHeapType::Extern, "extern", "externref"),
        (AbstractHeapType::Any, "any", "anyref"),
        (AbstractHeapType::None, "none", "nullref"),
        (AbstractHeapType::NoExtern, "noextern", "nullexternref"),
        (AbstractHeapType::NoFunc, "nofunc", "nullfuncref"),
        (AbstractHeapType::Eq, "eq", "eqref"),
        (AbstractHeapType::Struct, "struct", "structref"),
        (AbstractHeapType::Array, "array", "arrayref"),
        (AbstractHeapType::I31, "i31", "i31ref"),
        (AbstractHeapType::Exn, "exn", "exnref"),
        (AbstractHeapType::NoExn, "noexn", "nullexnref"),
        (AbstractHeapType::Cont, "cont", "contref"),
        (AbstractHeapType::NoCont, "nocont", "nullcontref"),
    ];
    for (ty, name, short) in rows {
        let heap = HeapType::Abstract { shared: false, ty };
        shows(rt.alloc(), &ty, name)?;
        shows(rt.alloc(), &heap, name)?;
        shows(rt.alloc(), &to(true, heap), short)?;
    }
    Ok(())
}

#[test]
fn other_types(rt: HostRuntime) -> Result<(), Fail> {
    let shared = HeapType::Abstract {
        shared: true,
        ty: AbstractHeapType::Func,
    };
    shows(rt.alloc(), &ValType::I32, "i32")?;
    shows(rt.alloc(), &ValType::I64, "i64")?;
    shows(rt.alloc(), &ValType::F32, "f32")?;
    shows(rt.alloc(), &ValType::F64, "f64")?;
    shows(rt.alloc(), &ValType::V128, "v128")?;
    shows(rt.alloc(), &to(false, HeapType::FUNC), "(ref func)")?;
    shows(rt.alloc(), &to(true, shared), "(ref null (shared func))")?;
    shows(
        rt.alloc(),
        &ValType::Ref(to(true, HeapType::Exact(2))),
        "(ref null (exact 2))",
    )
}
