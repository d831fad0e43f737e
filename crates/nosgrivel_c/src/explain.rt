//! Why and where whole modules are refused (Core 3.0, Modules).
ghost use Rattle.std.specs.Prelude.{◌≡◌, true, false, length, IfErr, IfOk};
ghost use Rattle.wasm_codec.specs.Outcomes.{IfMalformed, LiesIn, as_read};
ghost use Rattle.wasm_code.specs.Reasons.{IsTrueOf};
ghost use Rattle.wasm_modules.specs.RefusalNumbers.{CountsParts};
ghost use Rattle.nosgrivel_c.specs.Delivery.{IsChecked};
ghost use Rattle.nosgrivel_c.specs.Explaining.{Explains};
ghost use Rattle.flat_refusals.specs.FlatRefusals.{flat_accepted, flat_refusal};
ghost use Rattle.flat_refusals.specs.declared.statuses.TheConstants.{NORMAL, REFUSED};
ghost use Rattle.wasm_codec.specs.declared.reader.DecodeError.TheVariants.{Malformed};
ghost use Rattle.wasm_codec.specs.declared.reader.refusal.Refusal.{Refusal};
ghost use Rattle.wasm_codec.specs.Decoding.{ChecksAll};
ghost use Rattle.wasm_codec.specs.formats.Combinators.{minimal_if, minimal_only};
ghost use Rattle.wasm_code.specs.Modules.{IsModulePrefixOf};
ghost use Rattle.wasm_sections.specs.formats.ModuleSections.{MinimalWholeModule, module_section, whole_module};
ghost use Rattle.nosgrivel_c.specs.Calls.{ChecksNormal};

use flat_refusals::refusal::FlatRefusal;
use flat_refusals::statuses::{NO_MEMORY, NORMAL, REFUSED};
use std::alloc::Global;
use wasm_code::decode::{check, normalise};
use wasm_codec::reader::DecodeError;
use wasm_modules::modules::WholeModule;

/// Checks whether every section of a module decodes, and says why and where one doesn't.
///
/// If `strict` is set, every section must also be minimally encoded. The call copies the input.
#[unsafe(no_mangle)]
pub extern "C" fn nosgrivel_explain_module(
    alloc: Global,
    input: &[u8],
    strict: bool,
    refusal: &mut FlatRefusal,
) -> u32
    ensures strict { strict ≡ true → ChecksNormal MinimalWholeModule (IsModulePrefixOf (minimal_only module_section)) input.now refusal.old.at refusal.new.at result }
    ensures any { strict ≡ false → ChecksNormal whole_module.Encodes (IsModulePrefixOf module_section) input.now refusal.old.at refusal.new.at result }
    ensures status { refusal.new.status ≡ result }
    // The numbers are those of a refusal by the library.
    ensures explained { result ≡ REFUSED → Explains strict (CountsParts (minimal_if strict module_section) input.now) input.now refusal.new }
    ensures accepted { result ≡ NORMAL → refusal.new ≡ flat_accepted (length input.now) }
{
    if strict {
        explain_strict(alloc, input, refusal)
    } else {
        explain_any(alloc, input, refusal)
    }
}

/// Checks whether every section of a module is minimally encoded, and says why and where one isn't.
fn explain_strict(alloc: Global, input: &[u8], refusal: &mut FlatRefusal) -> u32
    ensures checks { ChecksNormal MinimalWholeModule (IsModulePrefixOf (minimal_only module_section)) input.now refusal.old.at refusal.new.at result }
    ensures status { refusal.new.status ≡ result }
    ensures explained { result ≡ REFUSED → Explains true (CountsParts (minimal_if true module_section) input.now) input.now refusal.new }
    ensures accepted { result ≡ NORMAL → refusal.new ≡ flat_accepted (length input.now) }
{
    explain(check::<WholeModule>(alloc, input), input, refusal)
}

/// Checks whether every section of a module decodes, and says why and where one doesn't.
fn explain_any(alloc: Global, input: &[u8], refusal: &mut FlatRefusal) -> u32
    ensures checks { ChecksNormal whole_module.Encodes (IsModulePrefixOf module_section) input.now refusal.old.at refusal.new.at result }
    ensures status { refusal.new.status ≡ result }
    ensures explained { result ≡ REFUSED → Explains false (CountsParts (minimal_if false module_section) input.now) input.now refusal.new }
    ensures accepted { result ≡ NORMAL → refusal.new ≡ flat_accepted (length input.now) }
{
    explain(check_any(alloc, input), input, refusal)
}

/// Checks whether every section of a module decodes, in any encoding.
fn check_any(alloc: Global, input: &[u8]) -> Result<(), DecodeError>
    ensures checks { ChecksAll whole_module.Encodes (IsModulePrefixOf module_section) input.now (as_read result) }
    ensures place { IfErr result (LiesIn (length input.now)) }
    ensures counts { IfMalformed result (CountsParts (minimal_if false module_section) input.now) }
    ensures why { IfErr result (IsTrueOf false input.now) }
{
    match normalise::<WholeModule>(alloc, input) {
        Ok(_canonical) => Ok(()),
        Err(error) => Err(error),
    }
}

/// Writes what a check found to `told`, and returns the status. If memory ran out, only the status changes.
fn explain(checked: Result<(), DecodeError>, input: &[u8], told: &mut FlatRefusal) -> u32
    ensures checked { IsChecked (as_read checked) (length input.now) told.old.at told.new.at result }
    ensures status { told.new.status ≡ result }
    ensures accepted { IfOk checked (λ _. told.new ≡ flat_accepted (length input.now)) }
    ensures refused { IfErr checked (λ error. (refusal : Refusal) → error ≡ Malformed refusal → told.new ≡ flat_refusal refusal) }
{
    match checked {
        Ok(()) => {
            *told = FlatRefusal::accepted(input.len());
            NORMAL
        }
        Err(DecodeError::Malformed(refusal)) => {
            *told = FlatRefusal::of(&refusal);
            REFUSED
        }
        Err(DecodeError::Memory) => {
            told.status = NO_MEMORY;
            NO_MEMORY
        }
    }
}
