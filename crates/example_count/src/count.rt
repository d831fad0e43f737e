//! How often each opcode comes.

use std::alloc::Global;
use std::io;
use std::io::Write;
use wasm_encoder::{
    DecodeError, FunctionBody, ItemReader, Opcode, Prefix, SectionId, read_sections,
};

/// Prefixes of opcodes, each with its own numbers.
const PREFIXES: [Prefix; 5] = [Prefix::None, Prefix::Fb, Prefix::Fc, Prefix::Fd, Prefix::Fe];

/// More than the largest number of an opcode.
const NUMBERS: usize = 512;

/// How often each opcode comes, by prefix and number.
#[derive(Drop)]
pub struct Counts {
    counts: Vec<u64>,
}

impl Counts {
    /// Returns counts of zero.
    pub fn new(alloc: Global) -> Result<Counts, DecodeError> {
        let counts = vec![in alloc; 0u64; PREFIXES.len() * NUMBERS]?;
        Ok(Counts { counts })
    }

    /// Adds the instructions of a module.
    pub fn add_module(&mut self, alloc: Global, module: &[u8]) -> Result<(), DecodeError> {
        for next in read_sections(alloc, module)? {
            let (_, section) = next?;
            if section.id == u8::from(SectionId::Code) {
                self.add_functions(alloc, section.body)?;
            }
        }
        Ok(())
    }

    /// Adds the instructions of the functions in the body of a code section.
    fn add_functions(&mut self, alloc: Global, body: &[u8]) -> Result<(), DecodeError> {
        for next in ItemReader::<FunctionBody<'_>>::list(alloc, body)? {
            let (_, function) = next?;
            self.add_instructions(alloc, &function)?;
        }
        Ok(())
    }

    /// Adds the instructions of a function.
    fn add_instructions(
        &mut self,
        alloc: Global,
        function: &FunctionBody<'_>,
    ) -> Result<(), DecodeError> {
        for next in function.instructions(alloc) {
            let (_, call) = next?;
            self.add(call.op());
        }
        Ok(())
    }

    /// Adds an opcode.
    fn add(&mut self, opcode: Opcode) {
        if let Some(count) = self.counts.get_mut(index_of(opcode)) {
            *count = count.saturating_add(1);
        }
    }

    /// Prints a line for each opcode that comes: how often, and its name.
    pub fn print(&self, rt: &HostRuntime) -> io::Result<()> {
        for prefix in PREFIXES {
            for number in 0..NUMBERS as u32 {
                let opcode = Opcode { prefix, number };
                let count = self.count_of(opcode);
                if count > 0 {
                    println!(rt; "{count:>8} {opcode}")?;
                }
            }
        }
        Ok(())
    }

    /// Returns how often an opcode comes.
    fn count_of(&self, opcode: Opcode) -> u64 {
        self.counts.get(index_of(opcode)).copied().unwrap_or(0)
    }
}

/// Returns the place of the count of an opcode.
fn index_of(opcode: Opcode) -> usize {
    let row: usize = match opcode.prefix {
        Prefix::None => 0,
        Prefix::Fb => 1,
        Prefix::Fc => 2,
        Prefix::Fd => 3,
        Prefix::Fe => 4,
    };
    row.saturating_mul(NUMBERS)
        .saturating_add(opcode.number as usize)
}
