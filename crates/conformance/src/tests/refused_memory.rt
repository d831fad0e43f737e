//! Calls that take their memory from `Global`, and that the vectors of `replay` don't make, which it also replays
//! without memory. `scripts/gate refused-growths` runs each test while the first request for memory is refused, then
//! the second, and so on. In other runs none is refused. If a call reports lack of memory, the test prints `refused`
//! and makes the call again with memory. The answer is then the right one.

mod code;
mod lists;
mod modules;
mod strict;
mod types;

use std::process::Abort;
use std::test::Fail;
use wasm_encoder::{Call, EncodeError, Opcode, Operands, Prefix};

/// Returns the result of a call, after a second call if the first was refused memory.
fn made_again<T, Make: Fn() -> Result<T, EncodeError>>(
    rt: &impl Print,
    make: Make,
) -> Result<T, Fail>
    requires { Make.IsAlwaysCallable make }
{
    match make() {
        Err(EncodeError::Memory) => {
            println!(rt; "refused")?;
            Ok(make()?)
        }
        answer => Ok(answer?),
    }
}

/// The opcode of one byte.
fn plain(number: u32) -> Opcode {
    Opcode {
        prefix: Prefix::None,
        number,
    }
}

fn call(number: u32, operands: Operands) -> Result<Call, Fail> {
    Ok(Call::new(plain(number), operands)?)
}

/// The call's clone, which is made again where memory was refused, is the call.
fn is_cloned(rt: &(impl Print + Abort), call: &Call) -> Result<(), Fail> {
    let same = made_again(rt, || call.try_clone())?;
    assert_eq!(rt; same, *call);
    Ok(())
}

#[test]
fn operands_are_cloned(rt: HostRuntime) -> Result<(), Fail> {
    for operands in [
        Operands::None,
        Operands::Index(7),
        Operands::I32(-7),
        Operands::I64(-7),
    ] {
        let same = made_again(&rt, || operands.try_clone())?;
        assert_eq!(rt; same, operands);
    }
    Ok(())
}

#[test]
fn calls_are_cloned(rt: HostRuntime) -> Result<(), Fail> {
    for (number, operands) in [
        (0x0b, Operands::None),
        (0x20, Operands::Index(7)),
        (0x41, Operands::I32(-7)),
        (0x42, Operands::I64(-7)),
    ] {
        is_cloned(&rt, &call(number, operands)?)?;
    }
    Ok(())
}
