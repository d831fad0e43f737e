//! Rewriting of single decoded sections.
ghost use Rattle.std.specs.Prelude.{◌≡◌, ⊤, None};
ghost use Rattle.wasm_codec.specs.formats.Grammar.{TakesBytes};
ghost use Rattle.wasm_codec.specs.Lawful.{IsLawful, IsLawfulBody};
ghost use Rattle.wasm_codec.specs.Rewriter.{Rewrites};
ghost use Rattle.wasm_codec.specs.Outcomes.{FailsMalformed, IfInItem};
ghost use Rattle.wasm_codec.specs.formats.Bodies.{sized};
ghost use Rattle.wasm_codec.specs.formats.Combinators.{items};
ghost use Rattle.wasm_sections.specs.formats.ModuleSections.{BreaksInList, BreaksInSection, module_section};
ghost use Rattle.wasm_sections.specs.formats.ModuleSectionParts.{ModuleSectionParts};

use crate::bodies::ListOf;
use crate::module_sections::kinds::{SectionKind, SectionVisitor, visit_section};
use wasm_codec::reader::cursor::Fault;
use wasm_codec::reader::malformed::{Construct, Malformed, Reason};
use wasm_codec::rewriter::{Rewriter, Scanned};
use wasm_lists::rewriting::{Joinable, Rewritable, RewritableBody, rewrite_sized};

/// A section of any kind, decoded.
pub struct AnySection;

impl Rewritable for AnySection {
    ghost Value = { ModuleSectionParts };

    ghost format = { module_section };

    ghost Breaks = { BreaksInSection };

    #[inline(always)]
    #[tactic(auto, using(crate::proofs::ModuleSectionLaws::module_section_is_lawful, crate::proofs::ModuleSectionLaws::module_section_takes))]
    fn is_lawful() {}

    fn rewrite(rewriter: &mut Rewriter) -> Result<(), Fault> {
        // A fault carries the section's id.
        let id = rewriter.peek(Construct::SectionId).unwrap_or(0);
        match rewrite_any_section(rewriter) {
            Ok(()) => Ok(()),
            Err(Fault::Malformed(malformed)) => Err(Fault::Malformed(malformed.in_section(id))),
            Err(Fault::Memory) => Err(Fault::Memory),
        }
    }
}

impl Joinable for AnySection {
    ghost NeverScans = { ⊤ };

    #[inline(always)]
    fn scan(_bytes: &[u8]) -> Option<Scanned> {
        None
    }
}

impl SectionVisitor for Rewriter<'_> {
    type Output = Result<(), Fault>;

    ghost visits_list = { λ V F C B old new result. Rewrites (sized (items F)) old new result × IfInItem result (BreaksInList F old.place.left) };

    ghost visits_body = { λ V F C old new result. Rewrites (sized F) old new result × IfInItem result (λ _. ⊥) };

    ghost visits_unknown = { λ old new result. FailsMalformed result × IfInItem result (λ _. ⊥) };

    fn visit_list<T: Rewritable + SectionKind>(&mut self) -> Result<(), Fault> {
        rewrite_sized::<ListOf<T>>(self)
    }

    fn visit_body<B: RewritableBody, K: SectionKind>(&mut self) -> Result<(), Fault> {
        match rewrite_sized::<B>(self) {
            Ok(()) => Ok(()),
            Err(Fault::Malformed(malformed)) => Err(Fault::Malformed(malformed.outside_items())),
            Err(Fault::Memory) => Err(Fault::Memory),
        }
    }

    fn visit_unknown(&mut self, id: u8) -> Result<(), Fault> {
        Err(Fault::Malformed(unknown_section(id, self.to_end())))
    }
}

/// Returns the fault that no section has the id just read, with `left` bytes up to the end after it.
pub(crate) fn unknown_section(id: u8, left: usize) -> Malformed
    ensures item { result.item ≡ None }
{
    Malformed::new(Reason::UnknownSection { id }, left.wrapping_add(1))
}

/// Rewrites a section to its minimal encoding.
#[tactic(auto, using(crate::proofs::ModuleSectionLaws::rewritten_with_names, crate::proofs::ModuleSectionLaws::broken_rewritten), unfolding(crate::specs::formats::ModuleSections::module_section))]
fn rewrite_any_section(rewriter: &mut Rewriter) -> Result<(), Fault>
    ensures rewrites { Rewrites module_section rewriter.old rewriter.new result }
    // The section is a list that breaks off at the item that a fault names.
    ensures names { IfInItem result (BreaksInSection rewriter.old.place.left) }
{
    let id = match rewriter.byte_of(Construct::SectionId) {
        Ok(id) => id,
        Err(Fault::Malformed(malformed)) => {
            return Err(Fault::Malformed(malformed.outside_items()));
        }
        Err(Fault::Memory) => return Err(Fault::Memory),
    };
    visit_section(id, rewriter)
}
