//! Text of instructions.
use crate::listing::Instruction;
use std::fmt;
use wasm_instructions::table::{Call, Opcode, Operands, Prefix};
use wasm_modules::indices::{IndexSpace, index_spaces};

/// The instructions of an expression, each in parentheses.
#[derive(Clone, Copy)]
pub struct ExprText<'a>(pub &'a [Call]);

impl fmt::Display for ExprText<'_> {
    fn fmt<W: fmt::Write>(&self, f: &mut fmt::Formatter<W>) -> fmt::Result {
        for (number, call) in self.0.iter().enumerate() {
            let separator = if number == 0 { "" } else { " " };
            write!(f, "{separator}({call})")?;
        }
        Ok(())
    }
}

/// The effect of an instruction on the depth of blocks, as the listing shows it.
#[derive(Clone, Copy)]
pub struct Nesting {
    /// Whether the instruction ends a block or a part of one, and so stands outside of it.
    pub closes: bool,
    /// Whether what follows is inside of a block that the instruction begins.
    pub opens: bool,
}

impl Nesting {
    /// Returns the effect of an instruction.
    pub fn of(op: Opcode) -> Nesting {
        let number = match op.prefix {
            Prefix::None => op.number,
            _ => 0,
        };
        let (closes, opens) = match number {
            0x02 | 0x03 | 0x04 | 0x06 | 0x1f => (false, true), // block, loop, if, try, try_table
            0x05 | 0x07 | 0x19 => (true, true), // else, catch, catch_all
            0x0b | 0x18 => (true, false), // end, delegate
            _ => (false, false),
        };
        Nesting { closes, opens }
    }

    /// Returns the depth of the instruction itself, where `depth` blocks are open before it.
    pub fn own_depth(self, depth: usize) -> usize {
        depth.saturating_sub(usize::from(self.closes))
    }

    /// Returns the number of blocks that are open after it.
    pub fn next_depth(self, depth: usize) -> usize {
        self.own_depth(depth)
            .saturating_add(usize::from(self.opens))
    }
}

/// Returns the index of the item that an instruction refers to, and its index space. Of two in different spaces this is
/// the first. `None` means that it refers to none, or to two in one space.
pub fn item_of(instruction: &Instruction<'_>) -> Option<(IndexSpace, u32)> {
    let Instruction::Read(call) = instruction else {
        return None;
    };
    let index = match call.operands() {
        Operands::Index(index)
        | Operands::TwoIndexes(index, _)
        | Operands::OrderIndex(_, index)
        | Operands::OrderTwoIndexes(_, index, _) => *index,
        _ => return None,
    };
    match index_spaces(call.op()) {
        (Some(first), Some(second)) if first == second => None,
        (first, _) => Some((first?, index)),
    }
}
