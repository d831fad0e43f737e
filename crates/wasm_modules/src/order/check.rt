//! A check of the order of sections, which takes them one after another.
ghost use Rattle.std.specs.Prelude.{◌≡◌, None, ◌∷◌, ◌++◌, [], List, length, is_some, OnOk, IfErr, IfNone};
ghost use Rattle.wasm_sections.specs.formats.ModuleSectionParts.{ModuleSectionParts};
ghost use Rattle.wasm_modules.specs.ModuleOrder.{code_bodies, first_data_count, facts_of, rank_of, added, needs_data_use, Notes, TellsDataUse, IsModule, IsWhyNot};

use crate::order::ModuleError;
use crate::order::data_uses::InstructionPlace;

/// What the order of a section and the counts that must agree depend on.
#[derive(Clone, Copy)]
pub enum SectionFacts {
    /// A function section with this number of functions.
    Functions(usize),
    /// A code section with this number of bodies.
    Code(usize),
    /// A data section with this number of segments.
    Data(usize),
    /// A data count section with this number.
    DataCount(u32),
    /// Another section, with its id.
    Other(u8),
}

impl SectionFacts {
    /// Returns the position in the standard's order, from 1. Returns 0 for a custom section, which may come anywhere.
    fn rank(self) -> u8
        ensures { result ≡ rank_of self }
    {
        match self {
            SectionFacts::Other(1) => 1, // types
            SectionFacts::Other(2) => 2, // imports
            SectionFacts::Functions(_) => 3,
            SectionFacts::Other(4) => 4, // tables
            SectionFacts::Other(5) => 5, // memories
            SectionFacts::Other(13) => 6, // tags
            SectionFacts::Other(6) => 7, // globals
            SectionFacts::Other(7) => 8, // exports
            SectionFacts::Other(8) => 9, // start
            SectionFacts::Other(9) => 10, // elements
            SectionFacts::DataCount(_) => 11,
            SectionFacts::Code(_) => 12,
            SectionFacts::Data(_) => 13,
            SectionFacts::Other(_) => 0,
        }
    }
}

/// A check of a module's sections in their order.
#[derive(Clone, Copy)]
pub struct OrderCheck {
    /// Rank of the last section that isn't a custom one, or 0.
    last: u8,
    /// Number of functions in the function section.
    functions: Option<usize>,
    /// Number of bodies in the code section.
    bodies: Option<usize>,
    /// Number of segments in the data section.
    segments: Option<usize>,
    /// Number in the data count section.
    told: Option<u32>,
}

impl OrderCheck {
    /// Returns a check that has seen no section.
    pub fn new() -> OrderCheck
        ensures notes { Notes [] result }
        ensures bodies { result.bodies ≡ None }
    {
        OrderCheck {
            last: 0,
            functions: None,
            bodies: None,
            segments: None,
            told: None,
        }
    }

    /// Notes the section `index`. Fails with `OutOfOrder` if it must come before a section that was noted.
    pub fn section(&mut self, index: usize, facts: SectionFacts) -> Result<(), ModuleError>
        ensures ok { OnOk result ((seen : List ModuleSectionParts) (next : ModuleSectionParts) →
            facts ≡ facts_of next → Notes seen self.old → Notes (seen ++ next ∷ []) self.new) }
        ensures bodies { OnOk result (self.new.bodies ≡ (added facts self.old).bodies) }
        ensures why { IfErr result (λ error. (seen more : List ModuleSectionParts) (next : ModuleSectionParts) →
            facts ≡ facts_of next → index ≡ length seen → Notes seen self.old → IsWhyNot (seen ++ next ∷ more) error) }
    {
        let rank = facts.rank();
        if rank != 0 {
            if rank <= self.last {
                return Err(ModuleError::OutOfOrder { index });
            }
            self.last = rank;
        }
        self.add(facts);
        Ok(())
    }

    /// Notes the count of a section, unless an earlier section of its kind was noted.
    fn add(&mut self, facts: SectionFacts)
        ensures { self.new ≡ added facts self.old }
    {
        match facts {
            SectionFacts::Functions(count) => self.functions = self.functions.or(Some(count)),
            SectionFacts::Code(count) => self.bodies = self.bodies.or(Some(count)),
            SectionFacts::Data(count) => self.segments = self.segments.or(Some(count)),
            SectionFacts::DataCount(count) => self.told = self.told.or(Some(count)),
            SectionFacts::Other(_) => {}
        }
    }

    /// Checks whether a code section was noted.
    pub fn has_code(&self) -> bool
        ensures { result ≡ is_some self.now.bodies }
    {
        self.bodies.is_some()
    }

    /// Checks whether a code section was noted, but no data count section. Such code may not name a data segment.
    pub fn needs_data_use(&self) -> bool
        ensures { result ≡ needs_data_use self.now }
    {
        self.told.is_none() && self.bodies.is_some()
    }

    /// Checks the counts, with the first instruction that names a data segment, if `needs_data_use` asks for it.
    pub fn finish(&self, data_use: Option<InstructionPlace>) -> Result<(), ModuleError>
        ensures ok { OnOk result ((sections : List ModuleSectionParts) → Notes sections self.now →
            IfNone (first_data_count sections) (TellsDataUse (code_bodies sections) data_use) → IsModule sections) }
        ensures why { IfErr result (λ error. (sections : List ModuleSectionParts) → Notes sections self.now →
            IfNone (first_data_count sections) (TellsDataUse (code_bodies sections) data_use) → IsWhyNot sections error) }
    {
        let functions = self.functions.unwrap_or(0);
        let bodies = self.bodies.unwrap_or(0);
        if functions != bodies {
            return Err(ModuleError::FunctionCount { functions, bodies });
        }
        if let Some(told) = self.told {
            let segments = self.segments.unwrap_or(0);
            if told as usize != segments {
                return Err(ModuleError::DataCount { told, segments });
            }
        } else if let Some(place) = data_use {
            let InstructionPlace { body, instruction } = place;
            return Err(ModuleError::MissingDataCount { body, instruction });
        }
        Ok(())
    }
}
