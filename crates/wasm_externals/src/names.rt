//! Names: a length in bytes, then UTF-8 text (Core 3.0, Names).
ghost use Rattle.std.specs.Prelude.{◌≡◌, List, ℕ, IfErr, true, length, Some, IfSome};
ghost use Rattle.wasm_codec.specs.Scanning.{Scans};
ghost use Rattle.wasm_codec.specs.declared.rewriter.scan.Scanned.TheVariants.{Minimal};
ghost use Rattle.wasm_codec.specs.Inputs.{Passes};
ghost use Rattle.wasm_codec.specs.Places.{Reads};
ghost use Rattle.wasm_codec.specs.Reading.{map_ok};
ghost use Rattle.wasm_codec.specs.Rewriter.{Rewrites};
ghost use Rattle.wasm_codec.specs.Outcomes.{IsMalformed};
ghost use Rattle.wasm_externals.specs.formats.Names.{utf8_to_end, name};
ghost use Rattle.std.specs.Str.{is_utf8};
ghost use Rattle.wasm_codec.specs.Appending.{AppendsMinimal};
ghost use Rattle.wasm_codec.specs.Encoding.{IsCount};
ghost use Rattle.wasm_codec.specs.formats.Grammar.{IsBytes};

use std::alloc::Allocator;
use std::str::Utf8Error;
use wasm_codec::encode::EncodeError;
use wasm_codec::input::Input;
use wasm_codec::reader::cursor::{Cursor, Fault};
use wasm_codec::reader::malformed::{Malformed, Reason};
use wasm_codec::rewriter::{Rewriter, are_bytes};
use wasm_lists::encode::encode_str;
use wasm_lists::rewriting::{RewritableBody, rewrite_sized};

/// Reads a name. Borrows its text from the bytes.
#[tactic(auto, using(crate::proofs::NameLaws::name_read, crate::proofs::NameLaws::name_refused, crate::proofs::NameLaws::no_size, crate::proofs::NameLaws::no_bytes))]
pub fn read_name<'a>(cursor: &mut Cursor<'a>) -> Result<&'a str, Fault>
    ensures reads { Reads name.at cursor.old cursor.new (map_ok (λ text. text.now) result) }
    ensures err { IfErr result IsMalformed }
{
    let start = cursor.to_end();
    let size = cursor.u32()?;
    let bytes = cursor.take_sized(size, start)?;
    let behind = cursor.to_end();
    match str::from_utf8(bytes) {
        Ok(text) => Ok(text),
        Err(error) => Err(Fault::Malformed(invalid_utf8(&error, bytes.len(), behind).in_body(Some(
            start,
        )))),
    }
}

/// Reads a name whose size has one or two bytes. Returns `None` if the size is longer or the name is malformed: then the
/// position is unspecified.
#[inline(always)]
pub fn read_short_name<'a>(cursor: &mut Cursor<'a>) -> Option<&'a str>
    ensures { IfSome result (λ text. name.at cursor.old ≡ Some (text.now, cursor.new)) }
{
    match str::from_utf8(cursor.short_sized()?) {
        Ok(text) => Some(text),
        Err(_) => None,
    }
}

/// Rewrites a name to its minimal encoding.
#[tactic(auto, unfolding(crate::specs::formats::Names::name))]
pub fn rewrite_name(rewriter: &mut Rewriter) -> Result<(), Fault>
    ensures rewrites { Rewrites name rewriter.old rewriter.new result }
{
    rewrite_sized::<Text>(rewriter)
}

/// Returns the length in bytes of the name that the bytes begin with. Returns `None` unless its size has one byte and its
/// text is ASCII.
#[inline(always)]
pub fn scan_name(bytes: &[u8]) -> Option<usize>
    ensures { IfSome result (λ count. Scans name bytes.now (Some (Minimal count))) }
{
    if bytes.len() == 0 {
        return None;
    }
    if bytes[0] >= 128 {
        return None;
    }
    let count = bytes[0] as usize;
    if bytes.len() - 1 < count {
        return None;
    }
    for index in 0..count {
        if bytes[1 + index] >= 128 {
            return None;
        }
    }
    Some(1 + count)
}

/// An input of names.
pub trait NameInput<'a>: Input {
    /// Passes a name. Returns its text if the input only reads, and else an empty text.
    fn name(&mut self) -> Result<&'a str, Fault>
        ensures passes { Passes Self.writes (λ text. text.now) name (Self.state self.old) (Self.state self.new) result }
        ensures err { IfErr result IsMalformed };
}

impl<'a> NameInput<'a> for Cursor<'a> {
    #[inline(always)]
    fn name(&mut self) -> Result<&'a str, Fault> {
        read_name(self)
    }
}

impl<'a> NameInput<'a> for Rewriter<'_> {
    #[inline(always)]
    fn name(&mut self) -> Result<&'a str, Fault> {
        rewrite_name(self)?;
        Ok("")
    }
}

/// The text of a name, up to the end.
struct Text;

impl RewritableBody for Text {
    ghost Value = { List ℕ };

    ghost format = { utf8_to_end };

    #[inline(always)]
    #[tactic(auto, using(crate::proofs::NameLaws::text_is_lawful))]
    fn is_lawful() {}

    #[tactic(auto, using(crate::proofs::NameLaws::text_stays, crate::proofs::NameLaws::text_refused))]
    fn rewrite(rewriter: &mut Rewriter) -> Result<(), Fault> {
        let (len, to_end) = (rewriter.len(), rewriter.to_end());
        match str::from_utf8(rewriter.left()) {
            Ok(_) => {
                rewriter.rest();
                Ok(())
            }
            Err(error) => Err(Fault::Malformed(invalid_utf8(
                &error,
                len,
                to_end.saturating_sub(len),
            ).in_body(rewriter.body_start()))),
        }
    }
}

/// Appends a name. Appends nothing if it fails.
pub fn append_name<A: Allocator>(text: &str, sink: &mut Vec<u8, A>) -> Result<(), EncodeError>
    ensures { AppendsMinimal name text.now (IsCount (length text.now)) sink.old.items sink.new.items result }
{
    are_utf8(text);
    encode_str(text, sink)
}

/// Proves that a text is valid UTF-8 and consists of bytes. Does nothing at run time.
#[tactic(auto, using(crate::proofs::NameLaws::utf8_test))]
fn are_utf8(text: &str)
    ensures utf8 { is_utf8 text.now ≡ true }
    ensures bytes { IsBytes text.now }
{
    are_bytes(text.as_bytes());
}

/// Returns the fault that a name of `len` bytes with `behind` more bytes up to the end isn't UTF-8.
#[cold]
fn invalid_utf8(error: &Utf8Error, len: usize, behind: usize) -> Malformed {
    let valid = error.valid_up_to();
    let reason = Reason::InvalidUtf8 {
        at: u32::try_from(valid).unwrap_or(u32::MAX),
    };
    Malformed::new(reason, len.saturating_sub(valid).saturating_add(behind))
}
