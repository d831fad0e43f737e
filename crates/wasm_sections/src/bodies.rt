//! Bodies that are a single value without trailing bytes, for any value.
ghost use Rattle.std.specs.Prelude.{◌≡◌, ◌≤◌, IfErr, IfOk, List, length};
ghost use Rattle.wasm_codec.specs.Outcomes.{IfInItem, LiesIn, NeedsNoMemory, as_read};
ghost use Rattle.wasm_codec.specs.Places.{Reads};
ghost use Rattle.wasm_codec.specs.Reading.{map_ok};
ghost use Rattle.wasm_codec.specs.formats.Bodies.{sized};
ghost use Rattle.wasm_sections.specs.formats.ModuleSections.{BreaksInList};
ghost use Rattle.wasm_code.specs.DecodedPrefixes.{IsNothingOr};
ghost use Rattle.wasm_sections.specs.Prefixes.{AreLawfulPrefixes};
ghost use Rattle.wasm_codec.specs.Decoding.{RewritesInPlace, RewritesTo};
ghost use Rattle.wasm_codec.specs.Rewriter.{IsNew};
ghost use Rattle.wasm_codec.specs.Lists.{BreaksAtItem};
ghost use Rattle.wasm_codec.specs.formats.Combinators.{items, u32 as u32_format};

use std::alloc::Global;
use std::marker::PhantomData;
use wasm_codec::reader::DecodeError;
use wasm_codec::reader::cursor::{Cursor, Fault};
use wasm_codec::rewriter::Rewriter;
use wasm_lists::list::Items;
use wasm_lists::readable::Readable;
use wasm_lists::reading::read_list;
use wasm_lists::rewriting::{Rewritable, RewritableBody, Rewritten, rewrite_list};

/// A value that fills a section body.
pub trait WholeBody: RewritableBody {
    /// Proves that decoding a value shows the longest prefix that decodes. Does nothing at run time.
    fn prefixes_are_lawful()
        ensures { AreLawfulPrefixes Self.format };
}

/// Rewrites a body to its minimal encoding in place. Returns the length of it, which begins the slice.
///
/// Refuses at 0 if the value is malformed, or at the offset of trailing bytes; the bytes are then unspecified. Allocates
/// nothing.
pub fn rewrite_body<T: WholeBody>(body: &mut [u8]) -> Result<usize, DecodeError>
    ensures len { IfOk result (λ len. len ≤ length body.new) }
    ensures rewrites { RewritesInPlace T.RewritableBody.format (IsNothingOr T.RewritableBody.format) body.old body.new (as_read result) }
    ensures memory { NeedsNoMemory (as_read result) }
    ensures place { IfErr result (LiesIn (length body.old)) }
{
    let Rewritten { bytes: _body, len } = rewritten_body::<T>(body);
    len
}

/// Rewrites a body, and returns the same slice.
fn rewritten_body<'a, T: WholeBody>(body: &'a mut [u8]) -> Rewritten<'a>
    ensures same_reference { IfOk result.len (λ _. result.bytes.ghost_name ≡ body.entry.ghost_name) }
    ensures len { IfOk result.len (λ len. len ≤ length result.bytes.now) }
    ensures rewrites { RewritesInPlace T.RewritableBody.format (IsNothingOr T.RewritableBody.format) body.old result.bytes.now (as_read result.len) }
    ensures memory { NeedsNoMemory (as_read result.len) }
    ensures place { IfErr result.len (LiesIn (length body.old)) }
{
    let mut rewriter = Rewriter::new(body);
    match rewrite_whole_body::<T>(&mut rewriter) {
        Ok(()) => Rewritten::new(rewriter, Ok(())),
        Err(error) => Rewritten::new(rewriter, Err(error)),
    }
}

/// Rewrites the value that all bytes left encode.
fn rewrite_whole_body<T: WholeBody>(rewriter: &mut Rewriter) -> Result<(), DecodeError>
    requires { IsNew rewriter.old }
    ensures rest { IfOk result (λ _. rewriter.new.rest ≡ rewriter.old.rest) }
    ensures rewrites { RewritesTo T.RewritableBody.format (IsNothingOr T.RewritableBody.format) rewriter.old.place.left (λ _. rewriter.new.done) (as_read result) }
    ensures memory { NeedsNoMemory (as_read result) }
    ensures place { IfErr result (LiesIn (length rewriter.old.place.left)) }
{
    T::is_lawful();
    T::prefixes_are_lawful();
    rewriter.are_bytes();
    let len = rewriter.len();
    if let Err(fault) = T::rewrite(rewriter) {
        return Err(DecodeError::new(fault, 0, len));
    }
    let left = rewriter.len();
    if left > 0 {
        return Err(DecodeError::refused(&rewriter.trailing(), len - left, len));
    }
    Ok(())
}

/// Reads a size and a list that fills so many bytes.
pub fn read_sized_list<'a, T: Readable<'a>>(
    alloc: Global,
    cursor: &mut Cursor<'a>,
) -> Result<Items<T>, Fault>
    ensures reads { Reads (sized (items T.format)).at cursor.old cursor.new (map_ok T.views result) }
    ensures names { IfInItem result (BreaksInList T.format cursor.old.left) }
{
    cursor.are_bytes();
    let mut body = cursor.body()?;
    let items = read_list(alloc, &mut body)?;
    if body.len() > 0 {
        return Err(Fault::Malformed(body.trailing()));
    }
    cursor.set_minimal(body.is_minimal());
    Ok(items)
}

/// A list that fills a body.
pub struct ListOf<T: Rewritable> {
    _items: PhantomData<T>,
}

impl<T: Rewritable> RewritableBody for ListOf<T> {
    ghost Value = { List T.Value };

    ghost format = { items T.format };

    ghost Breaks = { BreaksAtItem u32_format T.format };

    #[inline(always)]
    fn is_lawful() {
        T::is_lawful();
    }

    fn rewrite(rewriter: &mut Rewriter) -> Result<(), Fault> {
        rewrite_list::<T>(rewriter)
    }
}
