//! The forms of the input, and the normaliser of each.
ghost use Rattle.std.specs.Prelude.{List, ℕ, IfOk};
ghost use Rattle.wasm_codec.specs.Outcomes.{IsOrMemory, IfRefused, IsLongestPrefix};
ghost use Rattle.wasmnorm.specs.Modes.{IsEncoded, NormalForm, IsWholePrefix};

use wasm_code::normaliser::rewrite_module;
use wasm_codec::reader::ReadError;
use wasm_instructions::normaliser::rewrite_instructions;
use wasm_types::type_sections::rewrite_type_section;

/// The form of the input.
#[derive(Clone, Copy, Debug, PartialEq, Eq)]
pub enum Mode {
    /// A list of instructions.
    Calls,
    /// The body of a type section.
    Types,
    /// A module. The bodies of sections other than type and code sections are copied.
    Module,
}

/// Rewrites the input as its minimal encoding, in its own memory.
///
/// Fails with `Refused` if the input is malformed, and with `Memory` if memory runs out.
pub fn normalise(mode: Mode, input: Vec<u8>) -> Result<Vec<u8>, ReadError>
    // The result is the minimal encoding of what the input encodes.
    ensures given { IfOk result (λ encoding. NormalForm mode input.items encoding.items) }
    // If the input encodes something, the result is returned, unless memory runs out.
    ensures complete { (encoding : List ℕ) → NormalForm mode input.items encoding →
        IsOrMemory (λ given. given.items) encoding result }
    // Only a malformed input is refused.
    ensures unencoded { IfRefused result (λ _. IsEncoded mode input.items → ⊥) }
    // `at` is the length of the longest prefix that decodes.
    ensures prefix { IfRefused result (IsLongestPrefix (IsWholePrefix mode) input.items) }
{
    match mode {
        Mode::Calls => rewrite_instructions(input),
        Mode::Types => rewrite_type_section(input),
        Mode::Module => rewrite_module(input),
    }
}
