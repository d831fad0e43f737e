//! What a program declares: a first pass over its lines, so that a function can be called before it is declared.

use crate::faults::{CompileError, Fault};
use crate::tokens::{Token, Tokens};
use std::alloc::Global;

/// The largest number of parameters of a function.
pub const MOST_PARAMETERS: usize = 8;

/// Address of the first text.
const FIRST_ADDRESS: i32 = 16;

/// A function.
#[derive(Clone, Copy, Debug)]
pub struct Signature<'a> {
    /// Name of the function, and of its export or import.
    pub name: &'a [u8],
    /// Number of parameters. It is also the index of the function's type.
    pub parameters: u32,
    /// Number of locals that aren't parameters.
    pub variables: u32,
}

/// A global.
#[derive(Clone, Copy, Debug)]
pub struct Variable<'a> {
    /// Name of the global.
    pub name: &'a [u8],
    /// Value at the start.
    pub value: i32,
}

/// A text in memory: its length in four bytes, and its bytes.
#[derive(Clone, Copy, Debug)]
pub struct Text<'a> {
    /// Name of the address.
    pub name: &'a [u8],
    /// Address of the length.
    pub address: i32,
    /// Bytes of the text.
    pub bytes: &'a [u8],
}

/// A text that is in memory only after a statement copies it.
#[derive(Clone, Copy, Debug)]
pub struct Packed {
    /// Index of the data segment.
    pub segment: u32,
    /// Length of the text.
    pub length: i32,
}

/// A function that is called by its name.
#[derive(Clone, Copy, Debug)]
pub struct Called {
    /// Function index.
    pub index: u32,
    /// Number of parameters.
    pub parameters: u32,
}

/// What a program declares.
#[derive(Drop)]
pub struct Program<'a> {
    /// Imported functions, whose indexes come first.
    pub imports: Vec<Signature<'a>>,
    /// Functions with bodies.
    pub functions: Vec<Signature<'a>>,
    /// Globals.
    pub globals: Vec<Variable<'a>>,
    /// Names of the tags.
    pub tags: Vec<&'a [u8]>,
    /// Texts in memory.
    pub texts: Vec<Text<'a>>,
    /// Names and bytes of the packed texts.
    pub packed: Vec<(&'a [u8], &'a [u8])>,
    /// Names of the functions in the table.
    pub elements: Vec<&'a [u8]>,
    /// Size of the memory in pages.
    pub pages: i32,
    /// Name of the function that runs when the module is instantiated.
    pub start: Option<&'a [u8]>,
}

impl<'a> Program<'a> {
    /// Reads the declarations of a program.
    pub fn read(alloc: Global, text: &'a str) -> Result<Program<'a>, CompileError> {
        let mut program = Program::new(alloc);
        for (index, line) in text.lines().enumerate() {
            if let Err(fault) = program.read_line(alloc, Tokens::new(line.as_bytes())) {
                let line = index.saturating_add(1);
                return Err(CompileError { line, fault });
            }
        }
        Ok(program)
    }

    fn new(alloc: Global) -> Program<'a> {
        Program {
            imports: Vec::new(alloc),
            functions: Vec::new(alloc),
            globals: Vec::new(alloc),
            tags: Vec::new(alloc),
            texts: Vec::new(alloc),
            packed: Vec::new(alloc),
            elements: Vec::new(alloc),
            pages: 1,
            start: None,
        }
    }

    /// Reads a line. Only its declaration counts.
    fn read_line(&mut self, alloc: Global, mut tokens: Tokens<'a>) -> Result<(), Fault> {
        let Ok(word) = tokens.name() else {
            return Ok(());
        };
        match word {
            b"import" => Ok(self.imports.push(signature_of(alloc, tokens)?)?),
            b"fn" => Ok(self.functions.push(signature_of(alloc, tokens)?)?),
            b"var" | b"catch" => self.count_variable(),
            b"global" => self.read_global(tokens),
            b"text" => self.read_text(tokens),
            b"packed" => self.read_packed(tokens),
            b"table" => self.read_table(tokens),
            b"tag" => Ok(self.tags.push(tokens.name()?)?),
            b"memory" => {
                self.pages = tokens.number()?;
                tokens.end()
            }
            b"start" => {
                self.start = Some(tokens.name()?);
                tokens.end()
            }
            _ => Ok(()),
        }
    }

    /// Counts a local of the last function.
    fn count_variable(&mut self) -> Result<(), Fault> {
        let Some(function) = self.functions.last_mut() else {
            return Err(Fault::Outside);
        };
        function.variables = function.variables.saturating_add(1);
        Ok(())
    }

    /// Reads `NAME = NUMBER`.
    fn read_global(&mut self, mut tokens: Tokens<'a>) -> Result<(), Fault> {
        let name = tokens.name()?;
        tokens.equals()?;
        let value = tokens.number()?;
        self.globals.push(Variable { name, value })?;
        tokens.end()
    }

    /// Reads `NAME = "TEXT"`.
    fn read_text(&mut self, mut tokens: Tokens<'a>) -> Result<(), Fault> {
        let name = tokens.name()?;
        tokens.equals()?;
        let bytes = tokens.text()?;
        let address = match self.texts.last() {
            None => FIRST_ADDRESS,
            Some(text) => address_after(text).ok_or(Fault::TooLarge)?,
        };
        self.texts.push(Text {
            name,
            address,
            bytes,
        })?;
        tokens.end()
    }

    /// Reads `NAME = "TEXT"`.
    fn read_packed(&mut self, mut tokens: Tokens<'a>) -> Result<(), Fault> {
        let name = tokens.name()?;
        tokens.equals()?;
        self.packed.push((name, tokens.text()?))?;
        tokens.end()
    }

    /// Reads the names of functions, separated by commas.
    fn read_table(&mut self, tokens: Tokens<'a>) -> Result<(), Fault> {
        for token in tokens {
            match token? {
                Token::Name(name) => self.elements.push(name)?,
                Token::Symbol(b',') => {}
                _ => return Err(Fault::Misplaced),
            }
        }
        Ok(())
    }

    /// Returns the function of this name.
    pub fn function(&self, name: &[u8]) -> Option<Called> {
        if let Some(place) = self.imports.iter().position(|import| import.name == name) {
            let parameters = self.imports.get(place)?.parameters;
            let index = u32::try_from(place).ok()?;
            return Some(Called { index, parameters });
        }
        let place = self.functions.iter().position(|own| own.name == name)?;
        let parameters = self.functions.get(place)?.parameters;
        let index = u32::try_from(place.checked_add(self.imports.len())?).ok()?;
        Some(Called { index, parameters })
    }

    /// Returns the index of the function with a body that follows `count` others.
    pub fn index_of_own(&self, count: u32) -> Result<u32, Fault> {
        let Ok(imports) = u32::try_from(self.imports.len()) else {
            return Err(Fault::TooLarge);
        };
        imports.checked_add(count).ok_or(Fault::TooLarge)
    }

    /// Returns the index of the global of this name.
    pub fn global(&self, name: &[u8]) -> Option<u32> {
        let place = self.globals.iter().position(|global| global.name == name)?;
        u32::try_from(place).ok()
    }

    /// Returns the index of the tag of this name.
    pub fn tag(&self, name: &[u8]) -> Result<u32, Fault> {
        index_of(&self.tags, name).ok_or(Fault::Unknown)
    }

    /// Returns the packed text of this name. The segments of other texts come before it.
    pub fn packed(&self, name: &[u8]) -> Option<Packed> {
        let place = self.packed.iter().position(|packed| packed.0 == name)?;
        let length = i32::try_from(self.packed.get(place)?.1.len()).ok()?;
        let segment = u32::try_from(place.checked_add(self.texts.len())?).ok()?;
        Some(Packed { segment, length })
    }

    /// Returns the address of the text of this name.
    pub fn address(&self, name: &[u8]) -> Option<i32> {
        let place = self.texts.iter().position(|text| text.name == name)?;
        Some(self.texts.get(place)?.address)
    }
}

/// Returns the index of a name among names.
pub fn index_of(names: &[&[u8]], name: &[u8]) -> Option<u32> {
    let place = names.iter().position(|other| *other == name)?;
    u32::try_from(place).ok()
}

/// Returns the next address after a text that a multiple of 4 divides.
fn address_after(text: &Text) -> Option<i32> {
    let length = i32::try_from(text.bytes.len()).ok()?;
    let words = length.checked_add(7)? / 4;
    text.address.checked_add(words.checked_mul(4)?)
}

/// Reads `NAME(NAME, ..)`.
fn signature_of<'a>(alloc: Global, mut tokens: Tokens<'a>) -> Result<Signature<'a>, Fault> {
    let name = tokens.head()?;
    let parameters = parameters(alloc, tokens)?;
    if parameters.len() > MOST_PARAMETERS {
        return Err(Fault::Parameters);
    }
    Ok(Signature {
        name,
        parameters: parameters.len() as u32,
        variables: 0,
    })
}

/// Reads names up to a closing parenthesis, separated by commas.
pub fn parameters<'a>(alloc: Global, tokens: Tokens<'a>) -> Result<Vec<&'a [u8]>, Fault> {
    let mut names = Vec::new(alloc);
    for token in tokens {
        match token? {
            Token::Name(name) => names.push(name)?,
            Token::Symbol(b',') => {}
            Token::Symbol(b')') => return Ok(names),
            _ => return Err(Fault::Misplaced),
        }
    }
    Err(Fault::Unclosed)
}
