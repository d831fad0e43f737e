//! Statements that begin a block.

use crate::compiler::{Block, Compiler};
use crate::faults::Fault;
use crate::program::Program;
use crate::tokens::Tokens;
use wasm_encoder::BlockType;

impl<'a> Compiler<'a> {
    /// Begins a loop: `while VALUE`.
    pub fn begin_while(&mut self, program: &Program, tokens: Tokens<'a>) -> Result<(), Fault> {
        self.function
            .instructions()
            .block(BlockType::Empty)?
            .loop_(BlockType::Empty)?;
        self.value(program, tokens)?;
        self.function.instructions().i32_eqz()?.br_if(1)?;
        Ok(self.blocks.push(Block::While)?)
    }

    /// Begins a choice: `if VALUE`.
    pub fn begin_if(&mut self, program: &Program, tokens: Tokens<'a>) -> Result<(), Fault> {
        self.value(program, tokens)?;
        self.function.instructions().if_(BlockType::Empty)?;
        Ok(self.blocks.push(Block::If)?)
    }

    /// Begins the other branch: `else`.
    pub fn begin_else(&mut self, mut tokens: Tokens<'a>) -> Result<(), Fault> {
        tokens.end()?;
        let Some(Block::If) = self.blocks.pop() else {
            return Err(Fault::NoBlock);
        };
        self.function.instructions().else_()?;
        Ok(self.blocks.push(Block::Else)?)
    }

    /// Begins statements whose exceptions are caught: `try`.
    pub fn begin_try(&mut self, mut tokens: Tokens<'a>) -> Result<(), Fault> {
        tokens.end()?;
        self.function.instructions().try_(BlockType::Empty)?;
        Ok(self.blocks.push(Block::Try)?)
    }

    /// Begins statements that run after an exception, with its value in a local: `catch TAG NAME`.
    pub fn begin_catch(&mut self, program: &Program, mut tokens: Tokens<'a>) -> Result<(), Fault> {
        let tag = program.tag(tokens.name()?)?;
        let name = tokens.name()?;
        tokens.end()?;
        let Some(Block::Try | Block::Catch) = self.blocks.pop() else {
            return Err(Fault::NoBlock);
        };
        self.function.instructions().catch(tag)?;
        self.set_local(name)?;
        Ok(self.blocks.push(Block::Catch)?)
    }
}
