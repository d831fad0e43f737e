//! Compiles an expression to the instructions of a function.

use crate::tokens::{Token, Tokens, TooLarge};
use std::alloc::{AllocFailed, Global};
use thiserror::Error;
use wasm_encoder::{EncodeError, Function};

/// An error in an expression.
#[derive(Debug, Drop, Error)]
pub enum CompileError {
    /// An unexpected number.
    #[error("a number follows a number, a name or a parenthesis")]
    UnexpectedNumber,
    /// An unexpected character.
    #[error("{0:?} has no place there")]
    Unexpected(char),
    /// A number that is too large.
    #[error("{0}")]
    TooLarge(#[from] TooLarge),
    /// A missing operand at the end.
    #[error("the expression ends where an operand is wanted")]
    Unfinished,
    /// A parenthesis that isn't closed.
    #[error("a parenthesis isn't closed")]
    Unclosed,
    /// A failure to write the instructions.
    #[error("{0}")]
    Encode(#[from] EncodeError),
}

impl<T: Drop> From<AllocFailed<T>> for CompileError {
    fn from(_error: AllocFailed<T>) -> CompileError {
        CompileError::Encode(EncodeError::Memory)
    }
}

/// An operator that waits for its right operand, or an open parenthesis.
#[derive(Clone, Copy, Debug)]
enum Pending {
    Parenthesis,
    Add,
    Subtract,
    Multiply,
    /// A sign: subtracts the operand from a 0 pushed in its place.
    Negate,
}

impl Pending {
    /// Returns the precedence: operators of higher precedence are computed first. A parenthesis has the lowest.
    fn precedence(self) -> u8 {
        match self {
            Pending::Parenthesis => 0,
            Pending::Add | Pending::Subtract => 1,
            Pending::Multiply => 2,
            Pending::Negate => 3,
        }
    }
}

/// Compiles an expression to a function of two parameters, `a` and `b`.
///
/// Writes each operand when it is read and each operator after both its operands. The instructions are the expression
/// in postfix order, as a stack machine expects.
pub fn compile(alloc: Global, text: &str) -> Result<Function, CompileError> {
    let mut compiler = Compiler::new(alloc)?;
    for token in Tokens::new(text) {
        compiler.take(token?)?;
    }
    compiler.finish()
}

#[derive(Drop)]
struct Compiler {
    function: Function,
    pending: Vec<Pending>,
    wants_operand: bool,
}

impl Compiler {
    fn new(alloc: Global) -> Result<Compiler, CompileError> {
        Ok(Compiler {
            function: Function::new(alloc, [])?,
            pending: Vec::new(alloc),
            wants_operand: true,
        })
    }

    /// Consumes the next token.
    fn take(&mut self, token: Token) -> Result<(), CompileError> {
        if self.wants_operand {
            self.take_operand(token)
        } else {
            self.take_operator(token)
        }
    }

    /// Writes a number or a parameter, or pushes a sign or an open parenthesis.
    fn take_operand(&mut self, token: Token) -> Result<(), CompileError> {
        let sink = self.function.instructions();
        match token {
            Token::Symbol('(') => return Ok(self.pending.push(Pending::Parenthesis)?),
            Token::Symbol('-') => {
                sink.i32_const(0)?;
                return Ok(self.pending.push(Pending::Negate)?);
            }
            Token::Number(value) => sink.i32_const(value)?,
            Token::Symbol('a') => sink.local_get(0)?,
            Token::Symbol('b') => sink.local_get(1)?,
            Token::Symbol(other) => return Err(CompileError::Unexpected(other)),
        };
        self.wants_operand = false;
        Ok(())
    }

    /// Pushes an operator, or closes a parenthesis.
    fn take_operator(&mut self, token: Token) -> Result<(), CompileError> {
        let operator = match token {
            Token::Symbol(')') => return self.close(),
            Token::Symbol('+') => Pending::Add,
            Token::Symbol('-') => Pending::Subtract,
            Token::Symbol('*') => Pending::Multiply,
            Token::Symbol(other) => return Err(CompileError::Unexpected(other)),
            Token::Number(_) => return Err(CompileError::UnexpectedNumber),
        };
        self.write_pending(operator.precedence())?;
        self.pending.push(operator)?;
        self.wants_operand = true;
        Ok(())
    }

    /// Closes the innermost parenthesis.
    fn close(&mut self) -> Result<(), CompileError> {
        self.write_pending(1)?;
        match self.pending.pop() {
            Some(_) => Ok(()),
            None => Err(CompileError::Unexpected(')')),
        }
    }

    /// Writes the operators on top of the stack that have at least this precedence.
    fn write_pending(&mut self, least: u8) -> Result<(), CompileError> {
        for _ in 0..self.pending.len() {
            let Some(operator) = self.pending.pop_if(|top| top.precedence() >= least) else {
                break;
            };
            self.write(operator)?;
        }
        Ok(())
    }

    /// Writes the instruction of an operator.
    fn write(&mut self, operator: Pending) -> Result<(), EncodeError> {
        let sink = self.function.instructions();
        match operator {
            Pending::Parenthesis => return Ok(()),
            Pending::Add => sink.i32_add()?,
            Pending::Subtract | Pending::Negate => sink.i32_sub()?,
            Pending::Multiply => sink.i32_mul()?,
        };
        Ok(())
    }

    /// Writes the remaining operators and the `end` of the function.
    fn finish(mut self) -> Result<Function, CompileError> {
        if self.wants_operand {
            return Err(CompileError::Unfinished);
        }
        self.write_pending(1)?;
        if !self.pending.is_empty() {
            return Err(CompileError::Unclosed);
        }
        self.function.instructions().end()?;
        Ok(self.function)
    }
}
