//! Compiles an expression to instructions that leave its value on the stack.

use crate::faults::Fault;
use crate::operators::{
    Callee, Pending, append_call, append_operator, operator_of, precedence, precedence_of,
};
use crate::program::{Program, index_of};
use crate::tokens::{Token, Tokens};
use std::alloc::Global;
use wasm_encoder::{EncodeError, Function};

/// Appends the instructions of an expression, which can use what the program declares, and the function's locals.
///
/// Appends each operand when it is read and each operator after both its operands.
pub fn compile(
    alloc: Global,
    program: &Program,
    locals: &[&[u8]],
    tokens: Tokens,
    function: &mut Function,
) -> Result<(), Fault> {
    let mut expression = Expression {
        pending: Vec::new(alloc),
        wants_operand: true,
    };
    for token in tokens {
        expression.take(program, locals, token?, function)?;
    }
    expression.finish(function)
}

#[derive(Drop)]
struct Expression {
    pending: Vec<Pending>,
    wants_operand: bool,
}

impl Expression {
    /// Takes the next token.
    fn take(
        &mut self,
        program: &Program,
        locals: &[&[u8]],
        token: Token,
        function: &mut Function,
    ) -> Result<(), Fault> {
        if self.wants_operand {
            self.take_operand(program, locals, token, function)
        } else {
            self.take_operator(token, function)
        }
    }

    /// Takes a number, a name, or what stands in front of an operand.
    fn take_operand(
        &mut self,
        program: &Program,
        locals: &[&[u8]],
        token: Token,
        function: &mut Function,
    ) -> Result<(), Fault> {
        match token {
            Token::Number(value) => self.push_constant(value, function),
            Token::Name(name) => self.push_name(program, locals, name, function),
            Token::Call(name) => {
                let callee = callee_of(program, name)?;
                Ok(self.pending.push(Pending::Call(callee, 0))?)
            }
            Token::Symbol(b'(') => Ok(self.pending.push(Pending::Parenthesis)?),
            Token::Symbol(b'-') => {
                function.instructions().i32_const(0)?;
                Ok(self.pending.push(Pending::Negate)?)
            }
            Token::Symbol(b')') => self.close_empty(function),
            Token::Symbol(_) | Token::Text(_) => Err(Fault::Misplaced),
        }
    }

    /// Appends a constant.
    fn push_constant(&mut self, value: i32, function: &mut Function) -> Result<(), Fault> {
        function.instructions().i32_const(value)?;
        self.wants_operand = false;
        Ok(())
    }

    /// Appends the value of a local, of a global, or the address of a text.
    fn push_name(
        &mut self,
        program: &Program,
        locals: &[&[u8]],
        name: &[u8],
        function: &mut Function,
    ) -> Result<(), Fault> {
        if let Some(local) = index_of(locals, name) {
            function.instructions().local_get(local)?;
        } else if let Some(global) = program.global(name) {
            function.instructions().global_get(global)?;
        } else if let Some(address) = program.address(name) {
            function.instructions().i32_const(address)?;
        } else {
            return Err(Fault::Unknown);
        }
        self.wants_operand = false;
        Ok(())
    }

    /// Closes a call without arguments.
    fn close_empty(&mut self, function: &mut Function) -> Result<(), Fault> {
        match self.pending.pop() {
            Some(Pending::Call(callee, 0)) => {
                self.wants_operand = false;
                append_call(callee, 0, function)
            }
            _ => Err(Fault::Misplaced),
        }
    }

    /// Takes an operator, a comma, or a closing parenthesis.
    fn take_operator(&mut self, token: Token, function: &mut Function) -> Result<(), Fault> {
        match token {
            Token::Symbol(b')') => self.close(function),
            Token::Symbol(b',') => self.next_argument(function),
            Token::Symbol(symbol) => {
                let Some(operator) = operator_of(symbol) else {
                    return Err(Fault::Misplaced);
                };
                self.append_pending(precedence(operator), function)?;
                self.wants_operand = true;
                Ok(self.pending.push(Pending::Operator(operator))?)
            }
            _ => Err(Fault::Misplaced),
        }
    }

    /// Ends an argument of a call.
    fn next_argument(&mut self, function: &mut Function) -> Result<(), Fault> {
        self.append_pending(1, function)?;
        match self.pending.pop() {
            Some(Pending::Call(callee, arguments)) => {
                self.wants_operand = true;
                let arguments = arguments.saturating_add(1);
                Ok(self.pending.push(Pending::Call(callee, arguments))?)
            }
            _ => Err(Fault::Misplaced),
        }
    }

    /// Closes the innermost parenthesis, or the call that it belongs to.
    fn close(&mut self, function: &mut Function) -> Result<(), Fault> {
        self.append_pending(1, function)?;
        match self.pending.pop() {
            Some(Pending::Call(callee, arguments)) => {
                append_call(callee, arguments.saturating_add(1), function)
            }
            Some(_) => Ok(()),
            None => Err(Fault::Misplaced),
        }
    }

    /// Appends the operators on top of the stack that have at least this precedence.
    fn append_pending(&mut self, least: u8, function: &mut Function) -> Result<(), EncodeError> {
        for _ in 0..self.pending.len() {
            let Some(pending) = self.pending.pop_if(|top| precedence_of(*top) >= least) else {
                break;
            };
            append_operator(pending, function)?;
        }
        Ok(())
    }

    /// Appends the remaining operators.
    fn finish(mut self, function: &mut Function) -> Result<(), Fault> {
        if self.wants_operand {
            return Err(Fault::Unfinished);
        }
        self.append_pending(1, function)?;
        if !self.pending.is_empty() {
            return Err(Fault::Unclosed);
        }
        Ok(())
    }
}

/// Returns what a name calls.
fn callee_of(program: &Program, name: &[u8]) -> Result<Callee, Fault> {
    match name {
        b"table" => Ok(Callee::Table),
        b"load" => Ok(Callee::Load),
        b"store" => Ok(Callee::Store),
        _ => match program.function(name) {
            Some(called) => Ok(Callee::Function(called)),
            None => Err(Fault::Unknown),
        },
    }
}
