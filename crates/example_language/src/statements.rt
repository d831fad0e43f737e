//! Statements that aren't blocks.

use crate::compiler::Compiler;
use crate::faults::Fault;
use crate::program::{Program, index_of};
use crate::tokens::Tokens;

impl<'a> Compiler<'a> {
    /// Sets a local, which is new unless the function has one of this name: `var NAME = VALUE`.
    pub fn declare(&mut self, program: &Program, mut tokens: Tokens<'a>) -> Result<(), Fault> {
        let name = tokens.name()?;
        tokens.equals()?;
        self.value(program, tokens)?;
        self.set_local(name)
    }

    /// Appends an instruction that sets a local, which is new unless the function has one of this name.
    pub fn set_local(&mut self, name: &'a [u8]) -> Result<(), Fault> {
        let local = match index_of(&self.locals, name) {
            Some(local) => local,
            None => self.new_local(name)?,
        };
        self.function.instructions().local_set(local)?;
        Ok(())
    }

    /// Adds the name of a local, and returns its index.
    pub fn new_local(&mut self, name: &'a [u8]) -> Result<u32, Fault> {
        let Ok(local) = u32::try_from(self.locals.len()) else {
            return Err(Fault::TooLarge);
        };
        self.locals.push(name)?;
        Ok(local)
    }

    /// Sets a local or a global: `set NAME = VALUE`.
    pub fn set(&mut self, program: &Program, mut tokens: Tokens<'a>) -> Result<(), Fault> {
        let name = tokens.name()?;
        tokens.equals()?;
        self.value(program, tokens)?;
        if let Some(local) = index_of(&self.locals, name) {
            self.function.instructions().local_set(local)?;
        } else if let Some(global) = program.global(name) {
            self.function.instructions().global_set(global)?;
        } else {
            return Err(Fault::Constant);
        }
        Ok(())
    }

    /// Computes a value and drops it: `do VALUE`.
    pub fn evaluate(&mut self, program: &Program, tokens: Tokens<'a>) -> Result<(), Fault> {
        self.value(program, tokens)?;
        self.function.instructions().drop()?;
        Ok(())
    }

    /// Returns a value: `return VALUE`.
    pub fn return_value(&mut self, program: &Program, tokens: Tokens<'a>) -> Result<(), Fault> {
        self.value(program, tokens)?;
        self.function.instructions().return_()?;
        Ok(())
    }

    /// Throws an exception: `throw TAG VALUE`.
    pub fn throw(&mut self, program: &Program, mut tokens: Tokens<'a>) -> Result<(), Fault> {
        let tag = program.tag(tokens.name()?)?;
        self.value(program, tokens)?;
        self.function.instructions().throw(tag)?;
        Ok(())
    }

    /// Copies a packed text, without its length, to an address: `unpack NAME ADDRESS`.
    pub fn unpack(&mut self, program: &Program, mut tokens: Tokens<'a>) -> Result<(), Fault> {
        let Some(packed) = program.packed(tokens.name()?) else {
            return Err(Fault::Unknown);
        };
        self.value(program, tokens)?;
        self.function
            .instructions()
            .i32_const(0)?
            .i32_const(packed.length)?
            .memory_init(0, packed.segment)?;
        Ok(())
    }

    /// Puts a function into the table: `place NAME INDEX`.
    pub fn place(&mut self, program: &Program, mut tokens: Tokens<'a>) -> Result<(), Fault> {
        let Some(called) = program.function(tokens.name()?) else {
            return Err(Fault::Unknown);
        };
        self.value(program, tokens)?;
        self.function
            .instructions()
            .ref_func(called.index)?
            .table_set(0)?;
        Ok(())
    }
}
