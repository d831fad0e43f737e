//! Compiles the functions of a program line by line.

use crate::expression::compile;
use crate::faults::{CompileError, Fault};
use crate::names::name_map;
use crate::program::{Program, Signature, parameters};
use crate::tokens::{Token, Tokens};
use std::alloc::Global;
use wasm_encoder::{CodeSection, EncodeError, Function, IndirectNameMap, ValType};

/// A block that is open.
#[derive(Clone, Copy, Debug)]
pub enum Block {
    /// A function.
    Function,
    /// A loop.
    While,
    /// A choice, before `else`.
    If,
    /// A choice, after `else`.
    Else,
    /// Statements whose exceptions are caught.
    Try,
    /// Statements that run after an exception.
    Catch,
}

/// The functions of a program, compiled.
#[derive(Drop)]
pub struct Compiled {
    /// Bodies of the functions.
    pub code: CodeSection,
    /// Names of their locals.
    pub locals: IndirectNameMap,
}

/// Compiles the functions of a program.
pub fn compile_functions(
    alloc: Global,
    program: &Program,
    text: &str,
) -> Result<Compiled, CompileError> {
    let mut compiler = match Compiler::new(alloc) {
        Ok(compiler) => compiler,
        Err(fault) => return Err(CompileError { line: 0, fault }),
    };
    for (index, line) in text.lines().enumerate() {
        if let Err(fault) = compiler.take(program, Tokens::new(line.as_bytes())) {
            let line = index.saturating_add(1);
            return Err(CompileError { line, fault });
        }
    }
    compiler
        .finish(program)
        .map_err(|fault| CompileError { line: 0, fault })
}

/// A compiler that takes one line after the other.
#[derive(Drop)]
pub struct Compiler<'a> {
    alloc: Global,
    /// The functions that are compiled.
    compiled: Compiled,
    /// The function that is being compiled.
    pub function: Function,
    /// Names of its locals.
    pub locals: Vec<&'a [u8]>,
    /// Its open blocks, from the outermost.
    pub blocks: Vec<Block>,
    /// Number of functions that were begun.
    begun: usize,
}

impl<'a> Compiler<'a> {
    fn new(alloc: Global) -> Result<Compiler<'a>, Fault> {
        Ok(Compiler {
            alloc,
            compiled: Compiled {
                code: CodeSection::new(alloc),
                locals: IndirectNameMap::new(alloc),
            },
            function: Function::new(alloc, [])?,
            locals: Vec::new(alloc),
            blocks: Vec::new(alloc),
            begun: 0,
        })
    }

    /// Takes a line.
    fn take(&mut self, program: &Program, mut tokens: Tokens<'a>) -> Result<(), Fault> {
        match tokens.next() {
            None => Ok(()),
            Some(Err(fault)) => Err(fault),
            Some(Ok(Token::Name(word))) => self.take_statement(program, word, tokens),
            Some(Ok(_)) => Err(Fault::Misplaced),
        }
    }

    /// Takes a declaration or a statement.
    fn take_statement(
        &mut self,
        program: &Program,
        word: &[u8],
        tokens: Tokens<'a>,
    ) -> Result<(), Fault> {
        match word {
            b"import"
            | b"global"
            | b"text"
            | b"packed"
            | b"table"
            | b"tag"
            | b"memory"
            | b"start" => { self.check_outside() }
            b"fn" => self.begin(program, tokens),
            b"end" => self.end(program, tokens),
            _ => {
                if self.blocks.is_empty() {
                    return Err(Fault::Outside);
                }
                self.take_inner(program, word, tokens)
            }
        }
    }

    /// Takes a statement in a function.
    fn take_inner(
        &mut self,
        program: &Program,
        word: &[u8],
        tokens: Tokens<'a>,
    ) -> Result<(), Fault> {
        match word {
            b"var" => self.declare(program, tokens),
            b"set" => self.set(program, tokens),
            b"do" => self.evaluate(program, tokens),
            b"return" => self.return_value(program, tokens),
            b"throw" => self.throw(program, tokens),
            b"unpack" => self.unpack(program, tokens),
            b"place" => self.place(program, tokens),
            b"while" => self.begin_while(program, tokens),
            b"if" => self.begin_if(program, tokens),
            b"else" => self.begin_else(tokens),
            b"try" => self.begin_try(tokens),
            b"catch" => self.begin_catch(program, tokens),
            _ => Err(Fault::Unknown),
        }
    }

    /// Fails in a function.
    fn check_outside(&self) -> Result<(), Fault> {
        if self.blocks.is_empty() {
            Ok(())
        } else {
            Err(Fault::Inside)
        }
    }

    /// Appends the value of the expression that the tokens are.
    pub fn value(&mut self, program: &Program, tokens: Tokens) -> Result<(), Fault> {
        compile(
            self.alloc,
            program,
            &self.locals,
            tokens,
            &mut self.function,
        )
    }

    /// Begins a function: `fn NAME(NAME, ..)`.
    fn begin(&mut self, program: &Program, mut tokens: Tokens<'a>) -> Result<(), Fault> {
        self.check_outside()?;
        let Some(signature) = program.functions.get(self.begun) else {
            return Err(Fault::Outside);
        };
        self.begun = self.begun.saturating_add(1);
        tokens.head()?;
        self.locals = parameters(self.alloc, tokens)?;
        self.function = function_of(self.alloc, signature)?;
        Ok(self.blocks.push(Block::Function)?)
    }

    /// Ends the innermost block.
    fn end(&mut self, program: &Program, mut tokens: Tokens<'a>) -> Result<(), Fault> {
        tokens.end()?;
        match self.blocks.pop() {
            None => Err(Fault::NoBlock),
            Some(Block::Function) => self.end_function(program),
            Some(Block::While) => Ok(end_while(&mut self.function)?),
            Some(Block::If | Block::Else | Block::Try | Block::Catch) => {
                self.function.instructions().end()?;
                Ok(())
            }
        }
    }

    /// Ends the function: it returns 0 if no statement returned.
    fn end_function(&mut self, program: &Program) -> Result<(), Fault> {
        self.function.instructions().i32_const(0)?.end()?;
        let index = program.index_of_own(self.compiled.code.len())?;
        self.compiled.code.function(&self.function)?;
        let names = name_map(self.alloc, &self.locals)?;
        Ok(self.compiled.locals.append(index, &names)?)
    }

    /// Adds the function that runs at the start, if there is one, and returns all functions.
    fn finish(mut self, program: &Program) -> Result<Compiled, Fault> {
        if !self.blocks.is_empty() {
            return Err(Fault::OpenBlock);
        }
        if let Some(name) = program.start {
            let Some(called) = program.function(name) else {
                return Err(Fault::Unknown);
            };
            let mut start = Function::new(self.alloc, [])?;
            start.instructions().call(called.index)?.drop()?.end()?;
            self.compiled.code.function(&start)?;
        }
        Ok(self.compiled)
    }
}

/// Returns a function with the locals that a signature counts, and without instructions.
fn function_of(alloc: Global, signature: &Signature) -> Result<Function, EncodeError> {
    let locals = [(signature.variables, ValType::I32)];
    Function::new(alloc, locals.iter().copied())
}

/// Appends the end of a loop.
fn end_while(function: &mut Function) -> Result<(), EncodeError> {
    function.instructions().br(0)?.end()?.end()?;
    Ok(())
}
