//! Operators and calls: what waits for its operands, and the instructions that compute it.

use crate::faults::Fault;
use crate::program::{Called, MOST_PARAMETERS};
use wasm_encoder::{EncodeError, Function, MemArg};

/// An operator with two operands.
#[derive(Clone, Copy, Debug)]
pub enum Operator {
    /// `|`, bit by bit.
    Or,
    /// `&`, bit by bit.
    And,
    /// `=`, which gives 1 or 0.
    Equal,
    /// `<`, which gives 1 or 0.
    Less,
    /// `>`, which gives 1 or 0.
    Greater,
    /// `+`.
    Add,
    /// `-`.
    Subtract,
    /// `*`.
    Multiply,
    /// `/`, rounded towards 0.
    Divide,
    /// `%`, with the sign of the first operand.
    Remainder,
}

/// What a call calls.
#[derive(Clone, Copy, Debug)]
pub enum Callee {
    /// A function.
    Function(Called),
    /// The function in the table at the index that the last argument gives.
    Table,
    /// Returns the four bytes at an address.
    Load,
    /// Writes four bytes at an address, and returns 0.
    Store,
}

/// What waits for its operands.
#[derive(Clone, Copy, Debug)]
pub enum Pending {
    /// An open parenthesis.
    Parenthesis,
    /// A call, and the number of arguments before the current one.
    Call(Callee, u32),
    /// An operator.
    Operator(Operator),
    /// A sign: subtracts the operand from a 0 that was pushed in its place.
    Negate,
}

/// A word at an address on the stack.
const WORD: MemArg = MemArg {
    offset: 0,
    align: 2,
    memory_index: 0,
};

/// Returns the operator of a symbol.
pub fn operator_of(symbol: u8) -> Option<Operator> {
    match symbol {
        b'|' => Some(Operator::Or),
        b'&' => Some(Operator::And),
        b'=' => Some(Operator::Equal),
        b'<' => Some(Operator::Less),
        b'>' => Some(Operator::Greater),
        b'+' => Some(Operator::Add),
        b'-' => Some(Operator::Subtract),
        b'*' => Some(Operator::Multiply),
        b'/' => Some(Operator::Divide),
        b'%' => Some(Operator::Remainder),
        _ => None,
    }
}

/// Returns the precedence of an operator: operators of higher precedence are computed first.
pub fn precedence(operator: Operator) -> u8 {
    match operator {
        Operator::Or => 1,
        Operator::And => 2,
        Operator::Equal | Operator::Less | Operator::Greater => 3,
        Operator::Add | Operator::Subtract => 4,
        Operator::Multiply | Operator::Divide | Operator::Remainder => 5,
    }
}

/// Returns the precedence of what waits. Parentheses have the lowest.
pub fn precedence_of(pending: Pending) -> u8 {
    match pending {
        Pending::Parenthesis | Pending::Call(_, _) => 0,
        Pending::Operator(operator) => precedence(operator),
        Pending::Negate => 6,
    }
}

/// Appends the instruction of an operator.
pub fn append_operator(pending: Pending, function: &mut Function) -> Result<(), EncodeError> {
    let sink = function.instructions();
    match pending {
        Pending::Parenthesis | Pending::Call(_, _) => return Ok(()),
        Pending::Negate | Pending::Operator(Operator::Subtract) => sink.i32_sub()?,
        Pending::Operator(Operator::Or) => sink.i32_or()?,
        Pending::Operator(Operator::And) => sink.i32_and()?,
        Pending::Operator(Operator::Equal) => sink.i32_eq()?,
        Pending::Operator(Operator::Less) => sink.i32_lt_s()?,
        Pending::Operator(Operator::Greater) => sink.i32_gt_s()?,
        Pending::Operator(Operator::Add) => sink.i32_add()?,
        Pending::Operator(Operator::Multiply) => sink.i32_mul()?,
        Pending::Operator(Operator::Divide) => sink.i32_div_s()?,
        Pending::Operator(Operator::Remainder) => sink.i32_rem_s()?,
    };
    Ok(())
}

/// Appends a call of this many arguments, which are on the stack.
pub fn append_call(callee: Callee, arguments: u32, function: &mut Function) -> Result<(), Fault> {
    let sink = function.instructions();
    match callee {
        Callee::Function(called) if called.parameters == arguments => sink.call(called.index)?,
        Callee::Load if arguments == 1 => sink.i32_load(WORD)?,
        Callee::Store if arguments == 2 => sink.i32_store(WORD)?.i32_const(0)?,
        Callee::Table if 0 < arguments && arguments <= MOST_PARAMETERS as u32 => {
            sink.call_indirect(0, arguments - 1)?
        }
        _ => return Err(Fault::Arguments),
    };
    Ok(())
}
