//! The table of opcodes. `replay` holds the kind of each of them to the standard's tables.

use std::test::Fail;
use wasm_encoder::{Opcode, Prefix, opcode_name, opcode_named};

/// How many of the numbers below 512 are opcodes of the `Prefix`.
fn opcodes(prefix: Prefix) -> u32 {
    let mut opcodes: u32 = 0;
    for number in 0..512 {
        if (Opcode { prefix, number }).kind().is_some() {
            opcodes = opcodes.saturating_add(1);
        }
    }
    opcodes
}

#[test]
fn opcodes_of_each_prefix() -> Result<(), Fail> {
    for (prefix, count) in [
        (Prefix::None, 206),
        (Prefix::Fb, 38),
        (Prefix::Fc, 23),
        (Prefix::Fd, 256),
        (Prefix::Fe, 104),
    ] {
        if opcodes(prefix) != count {
            return Err(Fail::from(prefix));
        }
    }
    Ok(())
}

/// Whether the opcode that is found by the name of this opcode is it, or the one before it, of the same name.
fn is_found(opcode: Opcode) -> bool {
    let Some(name) = opcode_name(opcode) else {
        return opcode.kind().is_none();
    };
    let Some(found) = opcode_named(name) else {
        return false;
    };
    let is_near = [found.number, found.number.saturating_add(1)].contains(&opcode.number);
    found.prefix == opcode.prefix && is_near && opcode_name(found) == Some(name)
}

#[test]
fn opcodes_by_their_names() -> Result<(), Fail> {
    for prefix in [Prefix::None, Prefix::Fb, Prefix::Fc, Prefix::Fd, Prefix::Fe] {
        for number in 0..300 {
            if !is_found(Opcode { prefix, number }) {
                return Err(Fail::from(number));
            }
        }
    }
    Ok(())
}
