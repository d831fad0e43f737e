//! `Readable`, the items that lists are read of.
ghost use Rattle.wasm_codec.specs.Outcomes.{IfInItem, IsMalformed};
ghost use Rattle.std.specs.Prelude.{⊤, IfErr, ℕ, List, refl};
ghost use Rattle.wasm_codec.specs.formats.Grammar.{TakesBytes};
ghost use Rattle.wasm_codec.specs.Reading.{ViewsEach, map_ok};
ghost use Rattle.wasm_codec.specs.Places.{Reads};
ghost use Rattle.wasm_codec.specs.Lawful.{IsLawful};
ghost use Rattle.wasm_codec.specs.formats.Combinators.{Format, u32 as u32_format};
ghost use Rattle.wasm_codec.specs.Rewriter.{Rewrites};

use crate::rewriting::Rewritable;
use std::alloc::Global;
use std::marker::PhantomData;
use wasm_codec::reader::cursor::{Cursor, Fault};
use wasm_codec::rewriter::Rewriter;

/// A type that can be read as an item of a list.
///
/// Implement it for your own type to read lists of it by `read_list_to_end`.
///
/// # Examples
///
/// ```
/// # use wasm_encoder::{Cursor, Fault, RefType, Readable, ValType};
/// let mut cursor = Cursor::new(b"\x70\x7f\x00");
/// assert_eq!(rt; ValType::read(rt.alloc(), &mut cursor), Ok(ValType::FUNCREF));
/// assert_eq!(rt; ValType::read(rt.alloc(), &mut cursor), Ok(ValType::I32));
/// assert!(rt; matches!(ValType::read(rt.alloc(), &mut cursor), Err(Fault::Malformed(_))));
/// ```
pub trait Readable<'a>: Drop {
    /// The decoded item, in contracts: the item itself, unless it borrows from the bytes.
    ghost Value: { Type 0 };

    /// The decoded form of an item.
    ghost view: { Self → Value };

    /// The decoded forms of a list of items.
    ghost views: { List Self → List Value };

    /// A proof that `views` agrees with `view` on each item.
    ghost views_each: { ViewsEach view views };

    /// The bytes that encode each item.
    ghost format: { Format Value };

    /// What the bytes are if a fault names the item with this index. By default nothing is known.
    ghost Breaks: { List ℕ → ℕ → Type 0 } = { λ bytes index. ⊤ };

    /// Tells the proof that the format is lawful, and that each encoding of an item has at least one byte. The call does
    /// nothing.
    fn is_lawful()
        ensures lawful { IsLawful format }
        ensures some { TakesBytes format.Encodes };

    /// Reads the next item. Fails with `Malformed` if none can be decoded, and with `Memory` if an allocation fails.
    fn read(alloc: Global, cursor: &mut Cursor<'a>) -> Result<Self, Fault>
        ensures reads { Reads format.at cursor.old cursor.new (map_ok view result) }
        ensures names { IfInItem result (Breaks cursor.old.left) };

    /// Replaces the next item by its minimal encoding. Fails with `Malformed` if none can be decoded.
    fn rewrite(rewriter: &mut Rewriter) -> Result<(), Fault>
        ensures rewrites { Rewrites format rewriter.old rewriter.new result };
}

/// A readable item, as one that is only rewritten.
pub struct Item<'a, T> {
    item: PhantomData<T>,
    bytes: PhantomData<&'a u8>,
}

impl<'a, T: Readable<'a>> Rewritable for Item<'a, T> {
    ghost Value = { T.Value };

    ghost format = { T.format };

    #[inline(always)]
    fn is_lawful() {
        T::is_lawful();
    }

    #[inline(always)]
    fn rewrite(rewriter: &mut Rewriter) -> Result<(), Fault> {
        T::rewrite(rewriter)
    }
}

impl<'a> Readable<'a> for u32 {
    ghost Value = { ℕ };

    ghost view = { λ x. x };

    ghost views = { λ xs. xs };

    ghost format = { u32_format };

    ghost views_each = { record { none = refl; more = λ xs x. refl } };

    fn read(_alloc: Global, cursor: &mut Cursor<'a>) -> Result<u32, Fault>
        ensures reads { Reads u32_format.at cursor.old cursor.new (map_ok (λ x. x) result) }
        ensures names { IfInItem result (λ index. ⊤) }
        ensures err { IfErr result IsMalformed }
    {
        cursor.u32()
    }

    #[inline(always)]
    fn is_lawful() {}

    fn rewrite(rewriter: &mut Rewriter) -> Result<(), Fault> {
        <u32 as Rewritable>::rewrite(rewriter)
    }
}
