//! Results as JSON.
use crate::messages::FailureMessage;
use crate::run::{Failure, Verdict};
use canon_cli::request::Location;
use serde_json::{Value, json};
use std::alloc::{AllocError, Global};
use wasm_codec::reader::refusal::{Refusal, SectionPlace};
use wasm_listing::diff::Difference;
use wasm_listing::json::{Object, text_value};
use wasm_listing::sections::kind_name;

/// Returns the name of an input.
pub fn file_value(alloc: Global, input: Location<'_>) -> Result<Value, AllocError> {
    text_value(alloc, input.word())
}

/// Returns the result for a module that failed.
pub fn failure_value(
    alloc: Global,
    input: Location<'_>,
    message: &FailureMessage<'_, '_, '_>,
) -> Result<Value, AllocError> {
    let mut object = Object::new(alloc);
    object.put("file", input.word())?;
    object.put_display("error", message)?;
    if let Failure::Refused(refusal) = message.failure {
        put_refusal(&mut object, refusal)?;
    }
    Ok(object.into_value())
}

/// Returns the members of the object for a module that failed, and the end of the object.
pub fn failure_members(
    alloc: Global,
    input: Location<'_>,
    failure: &Failure,
) -> Result<String, AllocError> {
    let output = Location::Standard;
    let message = FailureMessage {
        input,
        output,
        failure,
    };
    let value = failure_value(alloc, input, &message)?;
    let text = format!(in alloc; "{value}")?;
    String::from_str(alloc, text.as_str().strip_prefix("{").unwrap_or("}"))
}

/// Adds where and why a module is refused.
fn put_refusal(object: &mut Object, refusal: &Refusal) -> Result<(), AllocError> {
    put_section(object, refusal.section, refusal.at)?;
    object.put("item", refusal.item)?;
    object.put("local_group", refusal.local_group)?;
    object.put("instruction", refusal.instruction)?;
    object.put("offset", refusal.offset)?;
    object.put_display("reason", &refusal.reason)
}

/// Adds the section that begins at `at`. Without a section, its members are `null`.
fn put_section(
    object: &mut Object,
    section: Option<SectionPlace>,
    at: usize,
) -> Result<(), AllocError> {
    object.put("section", section.map(|place| place.number))?;
    object.put("id", section.map(|place| place.id))?;
    object.put_text("kind", section.map(|place| kind_name(place.id)))?;
    object.put("section_offset", section.map(|_| at))
}

/// Returns the result of a check.
pub fn verdict_value(
    alloc: Global,
    input: Location<'_>,
    verdict: Verdict,
) -> Result<Value, AllocError> {
    let mut object = Object::new(alloc);
    object.put("file", input.word())?;
    match verdict {
        Verdict::Canonical => object.put("canonical", true)?,
        Verdict::Longer(refusal) => {
            object.put("canonical", false)?;
            put_refusal(&mut object, &refusal)?;
        }
    }
    Ok(object.into_value())
}

/// Returns the digest of a canonical form.
pub fn digest_value(alloc: Global, input: Location<'_>, digest: &str) -> Result<Value, AllocError> {
    let mut object = Object::new(alloc);
    object.put("file", input.word())?;
    object.put("sha256", digest)?;
    Ok(object.into_value())
}

/// Returns the result of a comparison of two modules. `item` is the number of the first item that differs.
pub fn difference_value(
    alloc: Global,
    [first, second]: [Location<'_>; 2],
    difference: Option<Difference<'_>>,
    item: Option<u32>,
) -> Result<Value, AllocError> {
    let mut object = Object::new(alloc);
    let (first, second) = (first.word(), second.word());
    object.put("files", json!(in alloc; [first, second])?)?;
    object.put("same", difference.is_none())?;
    if let Some(difference) = difference {
        put_difference(&mut object, alloc, difference, item)?;
    }
    Ok(object.into_value())
}

/// Adds the first difference.
fn put_difference(
    object: &mut Object,
    alloc: Global,
    difference: Difference<'_>,
    item: Option<u32>,
) -> Result<(), AllocError> {
    let place = difference.place();
    let (here, there) = (place.first, place.second);
    object.put("section", place.section)?;
    object.put("id", place.id)?;
    object.put_text("kind", place.id.map(kind_name))?;
    object.put("item", item)?;
    object.put("offsets", json!(in alloc; [here, there])?)?;
    object.put_display("difference", &difference)
}
