//! Contents that follow their size in bytes: a name, any bytes, or what is written.
ghost use Rattle.std.specs.Prelude.{◌≡◌, ◌∷◌, ◌++◌, ◌⊎◌, ℕ, List, Any, OnOk, IfErr, length, take};
ghost use Rattle.std.specs.List.{All};
ghost use Rattle.wasm_codec.specs.Encoding.{byte_list_bytes, CanEncodeList, IsCount, IsRefusal, IsTooLong};
ghost use Rattle.wasm_codec.specs.Lists.{items_bytes};
ghost use Rattle.wasm_codec.specs.Places.{Reads};
ghost use Rattle.wasm_codec.specs.Reading.{map_ok};
ghost use Rattle.wasm_codec.specs.declared.encode.EncodeError.TheVariants.{TooLong};
ghost use Rattle.wasm_codec.specs.formats.Bodies.{sized};
ghost use Rattle.wasm_externals.specs.formats.Names.{name};

use std::alloc::Allocator;
pub(crate) use wasm_code::raw::read_sized_bytes;
use wasm_codec::encode::{EncodeError, put_size_before};
use wasm_codec::reader::cursor::{Cursor, Fault};
use wasm_codec::rewriter::Rewriter;
use wasm_externals::names::{read_name, rewrite_name};
use wasm_lists::encode::{Encode, encode_list};
use wasm_lists::rewriting::RewritableBody;

/// Reads a size and a name that fills so many bytes.
pub(crate) fn read_sized_name<'a>(cursor: &mut Cursor<'a>) -> Result<&'a str, Fault>
    ensures reads { Reads (sized name).at cursor.old cursor.new (map_ok (λ text. text.now) result) }
{
    let mut body = cursor.body()?;
    let text = read_name(&mut body)?;
    if body.len() > 0 {
        return Err(Fault::Malformed(body.trailing()));
    }
    cursor.set_minimal(body.is_minimal());
    Ok(text)
}

/// A name that fills a body.
pub(crate) struct NameBody;

impl RewritableBody for NameBody {
    ghost Value = { List ℕ };

    ghost format = { name };

    #[inline(always)]
    #[tactic(auto, using(crate::proofs::SizedContents::name_body_is_lawful))]
    fn is_lawful() {}

    fn rewrite(rewriter: &mut Rewriter) -> Result<(), Fault> {
        rewrite_name(rewriter)
    }
}

/// The items of a list that fills a body, to write.
#[derive(Drop)]
pub(crate) struct ListItems<'a, T> {
    pub items: &'a [T],
}

/// The number of items, and the items.
impl<'a, T: Encode> Encode for ListItems<'a, T> {
    ghost bytes = { λ list. items_bytes T.bytes list.items.now };

    ghost IsWritten = { λ list. All T.IsWritten list.items.now };

    ghost CanEncode = { λ list. CanEncodeList T.CanEncode list.items.now };

    ghost refuses = { λ list e. (e ≡ TooLong) ⊎ Any (λ item. T.refuses item e) list.items.now };

    fn encode<A: Allocator>(&self, sink: &mut Vec<u8, A>) -> Result<(), EncodeError> {
        encode_list(self.items, sink)
    }
}

/// Appends the size of a value's encoding in bytes, and the encoding. On error a part of it may remain.
///
/// Fails with `TooLong` if the encoding is longer than 4,294,967,295 bytes, and with any error of the value.
pub(crate) fn append_sized<T: Encode, A: Allocator>(
    value: &T,
    bytes: &mut Vec<u8, A>,
) -> Result<(), EncodeError>
    ensures ok { OnOk result (bytes.new.items ≡ bytes.old.items ++ byte_list_bytes (T.bytes value.now)) }
    ensures can { OnOk result (T.CanEncode value.now) }
    ensures counted { OnOk result (IsCount (length (T.bytes value.now))) }
    ensures written { OnOk result (T.IsWritten value.now) }
    ensures refused { IfErr result (λ e. IsRefusal T.CanEncode T.refuses value.now e ⊎ IsTooLong (length (T.bytes value.now)) e) }
    ensures kept { take (length bytes.old.items) bytes.new.items ≡ bytes.old.items }
{
    let start = bytes.len();
    value.encode(bytes)?;
    if u32::try_from(bytes.len() - start).is_err() {
        return Err(EncodeError::TooLong);
    }
    put_size_before(bytes, start)
}

/// Appends an id, the size of a content in bytes, and the content. On error a part of them may remain.
pub(crate) fn append_subsection<T: Encode, A: Allocator>(
    id: u8,
    content: &T,
    bytes: &mut Vec<u8, A>,
) -> Result<(), EncodeError>
    ensures ok { OnOk result (bytes.new.items ≡ bytes.old.items ++ id ∷ byte_list_bytes (T.bytes content.now)) }
    ensures can { OnOk result (T.CanEncode content.now) }
    ensures counted { OnOk result (IsCount (length (T.bytes content.now))) }
    ensures written { OnOk result (T.IsWritten content.now) }
    ensures refused { IfErr result (λ e. IsRefusal T.CanEncode T.refuses content.now e ⊎ IsTooLong (length (T.bytes content.now)) e) }
    ensures kept { take (length bytes.old.items) bytes.new.items ≡ bytes.old.items }
{
    bytes.reserve(1)?;
    bytes.push_reserved(id);
    append_sized(content, bytes)
}
