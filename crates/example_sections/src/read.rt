//! Reads the export section back, checks it and normalises it.
ghost use Rattle.std.specs.Prelude.{◌≡◌, List, ℕ, IfErr, length, refl, true, false, ◌≤◌, IfOk};
ghost use Rattle.std.proofs.lemmas.List.{map_push};
ghost use Rattle.wasm_codec.specs.Reading.{map_ok};
ghost use Rattle.wasm_codec.specs.Outcomes.{IfMalformed, IsMalformed, LiesIn, as_read};
ghost use Rattle.wasm_encoder.specs.Outcomes.{NeedsNoMemory};
ghost use Rattle.wasm_encoder.specs.Bodies.{byte_list, bytes_to_end};
ghost use Rattle.wasm_encoder.specs.Combinators.{items};
ghost use Rattle.wasm_encoder.specs.DecodedPrefixes.{ArePrefixes};
ghost use Rattle.wasm_encoder.specs.Decoding.{TakesMinimal, ChecksAll, RewritesInPlace};
ghost use Rattle.wasm_encoder.specs.Grammar.{TakesBytes};
ghost use Rattle.wasm_encoder.specs.Lawful.{IsLawful, IsLawfulBody};
ghost use Rattle.wasm_encoder.specs.Lists.{CountsItems, ListMinimalIf, IsListPrefix, IsListPrefixMinimalIf};
ghost use Rattle.wasm_encoder.specs.Places.{Reads};
ghost use Rattle.wasm_encoder.specs.Rewriter.{Rewrites};
ghost use Rattle.example_sections.specs.Exports.{export, parts_of, all_parts_of};

use crate::exports::{ExportSection, FUNCTION};
use std::alloc::Global;
use wasm_encoder::reader::{
    Construct, DecodeError, Item, RewritableBody, Rewriter, check_list_to_end, rewrite_list_to_end,
    rewrite_sized,
};
use wasm_encoder::{Cursor, Decode, Fault, Readable, read_list_to_end};

/// An exported function, as read.
#[derive(Clone, Copy, Debug)]
pub struct ReadExport<'a> {
    /// Bytes of the name, not checked to be UTF-8.
    pub name: &'a [u8],
    /// Function index.
    pub function: u32,
}

impl<'a> Readable<'a> for ReadExport<'a> {
    ghost Value = { List ℕ × ℕ };

    ghost view = { parts_of };

    ghost views = { all_parts_of };

    ghost views_each = { record { none = refl; more = λ exports export. map_push parts_of exports export } };

    ghost format = { export };

    fn is_lawful()
        ensures lawful { IsLawful export }
        ensures some { TakesBytes export.Encodes }
    {}

    fn read(_alloc: Global, cursor: &mut Cursor<'a>) -> Result<ReadExport<'a>, Fault> {
        read_export(cursor)
    }

    fn rewrite(rewriter: &mut Rewriter) -> Result<(), Fault>
        ensures rewrites { Rewrites export rewriter.old rewriter.new result }
    {
        rewrite_export(rewriter)
    }
}

/// Reads the name, the kind and the index.
fn read_export<'a>(cursor: &mut Cursor<'a>) -> Result<ReadExport<'a>, Fault>
    ensures reads { Reads export.at cursor.old cursor.new (map_ok parts_of result) }
{
    let name = read_bytes(cursor)?;
    let kind = cursor.byte_of(Construct::ExportKind)?;
    if kind != FUNCTION {
        return Err(Fault::Malformed(cursor.invalid(Construct::ExportKind, kind)));
    }
    let function = cursor.u32()?;
    Ok(ReadExport { name, function })
}

/// Reads bytes that follow their length.
fn read_bytes<'a>(cursor: &mut Cursor<'a>) -> Result<&'a [u8], Fault>
    ensures reads { Reads byte_list.at cursor.old cursor.new (map_ok (λ bytes. bytes.now) result) }
    ensures err { IfErr result IsMalformed }
{
    let start = cursor.to_end();
    let size = cursor.u32()?;
    cursor.take_sized(size, start)
}

/// Replaces the length of the name and the index by their minimal encodings. The kind has one encoding.
#[tactic(auto, using(std::proofs::Common::append_assoc))]
fn rewrite_export(rewriter: &mut Rewriter) -> Result<(), Fault>
    ensures rewrites { Rewrites export rewriter.old rewriter.new result }
{
    rewrite_sized::<Bytes>(rewriter)?;
    let byte = rewriter.byte_of(Construct::ExportKind)?;
    if byte != FUNCTION {
        return Err(Fault::Malformed(rewriter.invalid(Construct::ExportKind, byte)));
    }
    rewriter.u32()?;
    Ok(())
}

/// Bytes up to the end, which stay as they are.
struct Bytes;

impl RewritableBody for Bytes {
    ghost Value = { List ℕ };

    ghost format = { bytes_to_end };

    #[tactic(auto, using(crate::proofs::ExportLaws::bytes_are_lawful))]
    fn is_lawful() {}

    fn rewrite(rewriter: &mut Rewriter) -> Result<(), Fault> {
        rewriter.rest();
        Ok(())
    }
}

/// The body of the section: a list of exports.
impl<'a> Decode<'a> for ExportSection<'a> {
    type Output = Vec<ReadExport<'a>>;

    ghost Value = { List (List ℕ × ℕ) };

    ghost view = { λ exports. all_parts_of exports.items };

    ghost format = { items export };

    ghost Minimal = { ListMinimalIf true export };

    ghost IsPrefix = { IsListPrefix export.Encodes };

    ghost IsMinimalPrefix = { IsListPrefixMinimalIf true export };

    ghost Counts = { λ strict. CountsItems strict export };

    fn is_lawful()
        ensures lawful { IsLawfulBody (items export) }
        ensures minimal { TakesMinimal (items export) (ListMinimalIf true export) }
        ensures prefixes { ArePrefixes (items export).Encodes (IsListPrefix export.Encodes) }
        ensures minimal_prefixes { ArePrefixes (ListMinimalIf true export) (IsListPrefixMinimalIf true export) }
    {}

    fn read_all(alloc: Global, bytes: &'a [u8]) -> Result<Vec<ReadExport<'a>>, DecodeError> {
        read_list_to_end::<ReadExport<'_>, false>(alloc, bytes)
    }

    fn read_all_strict(alloc: Global, bytes: &'a [u8]) -> Result<Vec<ReadExport<'a>>, DecodeError> {
        read_list_to_end::<ReadExport<'_>, true>(alloc, bytes)
    }

    fn check_all(alloc: Global, bytes: &[u8]) -> Result<(), DecodeError>
        ensures checks { ChecksAll (ListMinimalIf true export) (IsListPrefixMinimalIf true export) bytes.now (as_read result) }
        ensures place { IfErr result (LiesIn (length bytes.now)) }
        ensures counts { IfMalformed result (CountsItems true export bytes.now) }
    {
        check_list_to_end::<Item<'_, ReadExport<'_>>>(alloc, bytes)
    }

    fn rewrite_all(bytes: &mut [u8]) -> Result<usize, DecodeError>
        ensures len { IfOk result (λ len. len ≤ length bytes.new) }
        ensures rewrites { RewritesInPlace (items export) (IsListPrefix export.Encodes) bytes.old bytes.new (as_read result) }
        ensures memory { NeedsNoMemory (as_read result) }
        ensures place { IfErr result (LiesIn (length bytes.old)) }
        ensures counts { IfMalformed result (CountsItems false export bytes.old) }
    {
        rewrite_list_to_end::<Item<'_, ReadExport<'_>>>(bytes)
    }
}
