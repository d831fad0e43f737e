//! Branch hints that move with their instructions.

use super::is;
use std::alloc::Global;
use std::test::Fail;
use wasm_encoder::{
    BranchHint, BranchHints, CodeSection, HintedCode, Module, WholeModule, rewrite,
};

// a type, an imported function, two functions
const SECTIONS: &str = "0061736D010000000104016000000207010161016200000303020000";

const NAME: &str = "196D657461646174612E636F64652E6272616E63685F68696E74";
// padded: a local, local.get 0, `if` at 9, end, local.get 0, `br_if 0` at 15, end; then an empty function
const CODE: &str = "0A170212018180007F2080800004400B2080000D000B02000B";

const MINIMAL: &str = "0A12020D01017F200004400B20000D000B02000B";

/// How often the instructions of a long function are repeated.
const TIMES: u32 = 1_000;

/// The bytes of a long function: its locals, and instructions that are repeated.
struct Encoding {
    locals: &'static [u8],
    /// `local.get 0`, `br_if 0` and `nop`.
    instructions: &'static [u8],
    /// Offset of `br_if` in them.
    branch: u32,
}

const LONG_PADDED: Encoding = Encoding {
    locals: b"\x01\x81\x00\x7f",
    instructions: b"\x20\x80\x80\x80\x80\x00\x0d\x80\x00\x01",
    branch: 6,
};

const LONG_MINIMAL: Encoding = Encoding {
    locals: b"\x01\x01\x7f",
    instructions: b"\x20\x00\x0d\x00\x01",
    branch: 2,
};

/// A module with these contents of its section of hints, and this code section.
fn module(alloc: Global, size: &str, hints: &str, code: &str) -> Result<Vec<u8>, Fail> {
    let text = format!(in alloc; "{SECTIONS}00{size}{NAME}{hints}{code}")?;
    Ok(hex::decode(alloc, text.as_str())?)
}

/// The minimal encoding of the module with these hints, with its hints moved.
fn moved(alloc: Global, size: &str, hints: &str) -> Result<Option<Vec<u8>>, Fail> {
    let module = module(alloc, size, hints, CODE)?;
    let Some(code) = HintedCode::of_module(alloc, &module)? else {
        return Err(Fail::from("no code"));
    };
    let minimal = rewrite::<WholeModule>(module)?;
    Ok(code.move_hints(alloc, &minimal)?)
}

/// Checks that these hints can't be moved.
fn stay(alloc: Global, size: &str, hints: &str) -> Result<(), Fail> {
    match moved(alloc, size, hints)? {
        None => Ok(()),
        Some(_) => Err(Fail::from(hints)),
    }
}

#[test]
fn hints_move_with_their_instructions(rt: HostRuntime) -> Result<(), Fail> {
    let alloc = rt.alloc();
    let Some(moved) = moved(alloc, "23", "0101020901010F0100")? else {
        return Err(Fail::from("not moved"));
    };
    let expected = format!(in alloc; "{SECTIONS}0023{NAME}0101020501010A0100{MINIMAL}")?;
    is(alloc, moved.as_slice(), expected.as_str())
}

#[test]
fn hints_in_descending_order_move(rt: HostRuntime) -> Result<(), Fail> {
    let alloc = rt.alloc();
    let Some(moved) = moved(alloc, "23", "0101020F0101090100")? else {
        return Err(Fail::from("not moved"));
    };
    let expected = format!(in alloc; "{SECTIONS}0023{NAME}0101020A0101050100{MINIMAL}")?;
    is(alloc, moved.as_slice(), expected.as_str())
}

/// A hint for each `br_if` of the long function. With each, its number grows by `step`, modulo their number.
fn branch_hints(alloc: Global, encoding: &Encoding, step: u32) -> Result<Vec<BranchHint>, Fail> {
    let first = u32::try_from(encoding.locals.len())?.wrapping_add(encoding.branch);
    let len = u32::try_from(encoding.instructions.len())?;
    let mut hints = Vec::new(alloc);
    for count in 0..TIMES {
        let number = count.wrapping_mul(step) % TIMES;
        hints.push(BranchHint {
            branch_func_offset: first.wrapping_add(number.wrapping_mul(len)),
            likely: number % 3 == 0,
        })?;
    }
    Ok(hints)
}

/// A module of the long function and these hints.
fn long_module(alloc: Global, encoding: &Encoding, step: u32) -> Result<Vec<u8>, Fail> {
    let mut body = encoding.locals.to_vec(alloc)?;
    for _ in 0..TIMES {
        body.extend_from_slice(encoding.instructions)?;
    }
    body.push(0x0b)?;
    let mut hints = BranchHints::new(alloc);
    hints.function_hints(0, branch_hints(alloc, encoding, step)?.as_slice())?;
    let mut code = CodeSection::new(alloc);
    code.raw(body.as_slice())?;
    let mut module = Module::new(alloc)?;
    module.section(&hints)?;
    module.section(&code)?;
    Ok(module.finish())
}

/// Hints ascend, descend, jump, and alternate between two branches.
#[test]
fn hints_of_a_long_function_move(rt: HostRuntime) -> Result<(), Fail> {
    let alloc = rt.alloc();
    for step in [1, 999, 389, 500] {
        let module = long_module(alloc, &LONG_PADDED, step)?;
        let Some(code) = HintedCode::of_module(alloc, &module)? else {
            return Err(Fail::from("no code"));
        };
        let minimal = rewrite::<WholeModule>(module)?;
        let moved = code.move_hints(alloc, &minimal)?;
        let expected = long_module(alloc, &LONG_MINIMAL, step)?;
        assert!(rt; moved == Some(expected));
    }
    Ok(())
}

/// A function has its hints in several places, and another one between them.
#[test]
fn hints_of_functions_that_are_named_again_move(rt: HostRuntime) -> Result<(), Fail> {
    let alloc = rt.alloc();
    let hints = "0401010F01010101090100020101010101020901000F0100";
    let Some(moved) = moved(alloc, "32", hints)? else {
        return Err(Fail::from("not moved"));
    };
    let hints = "0401010A01010101050100020101010101020501000A0100";
    let expected = format!(in alloc; "{SECTIONS}0032{NAME}{hints}{MINIMAL}")?;
    is(alloc, moved.as_slice(), expected.as_str())
}

#[test]
fn hints_that_stand_nowhere_stay(rt: HostRuntime) -> Result<(), Fail> {
    let alloc = rt.alloc();
    stay(alloc, "20", "0101010A0101")?; // inside `if`
    stay(alloc, "20", "010101030101")?; // inside the locals
    stay(alloc, "20", "010101120101")?; // at the end of the body
    stay(alloc, "20", "0101017F0101")?; // behind it
    stay(alloc, "20", "010001090101")?; // of the imported function
    stay(alloc, "20", "010301090101")?; // of no function
    stay(alloc, "20", "010101090102") // with a malformed value
}

#[test]
fn a_module_without_hints(rt: HostRuntime) -> Result<(), Fail> {
    let alloc = rt.alloc();
    let text = format!(in alloc; "{SECTIONS}{CODE}")?;
    let module = hex::decode(alloc, text.as_str())?;
    if HintedCode::of_module(alloc, &module)?.is_none() {
        Ok(())
    } else {
        Err(Fail::from("code"))
    }
}
