//! The section `target_features`: which features of WebAssembly an object file uses (tool conventions, Target Features
//! Section).
ghost use Rattle.std.specs.Prelude.{◌≡◌, ◌∷◌, [], refl, codes, IfErr, length};
ghost use Rattle.std.proofs.lemmas.List.{map_push};
ghost use Rattle.wasm_codec.specs.Appending.{AppendsMinimal};
ghost use Rattle.wasm_codec.specs.Encoding.{IsCount, IsMinimal, OnlyTooLong};
ghost use Rattle.wasm_codec.specs.Lawful.{IsLawful};
ghost use Rattle.wasm_codec.specs.Inputs.{Passes, Takes};
ghost use Rattle.wasm_codec.specs.Rewriter.{Rewrites};
ghost use Rattle.wasm_codec.specs.Outcomes.{IsMalformed};
ghost use Rattle.wasm_codec.specs.formats.Grammar.{TakesBytes};
ghost use Rattle.wasm_custom_sections.specs.Gaining.{AddsNamed};
ghost use Rattle.wasm_custom_sections.specs.formats.TargetFeatures.{FeatureParts, all_feature_parts, feature_of, feature_parts, feature_prefix, target_feature};

use crate::custom_list::{CustomItem, CustomList};
use std::alloc::{Allocator, Global};
use wasm_codec::encode::{EncodeError, keep_or_undo};
use wasm_codec::input::Input;
use wasm_codec::reader::cursor::{Cursor, Fault};
use wasm_codec::reader::malformed::Construct;
use wasm_codec::rewriter::Rewriter;
use wasm_externals::names::{NameInput, append_name};
use wasm_lists::encode::Encode;
use wasm_lists::readable::Readable;

/// How an object file relates to a feature.
#[derive(Clone, Copy, Debug, PartialEq, Eq)]
pub enum FeaturePrefix {
    /// `+`: The object uses the feature, so that linking fails if the feature isn't allowed.
    Used,
    /// `-`: The object doesn't use the feature, and linking fails if the feature is allowed.
    Disallowed,
}

/// A feature of an object file.
#[derive(Clone, Copy, Debug)]
pub struct TargetFeature<'a> {
    /// Whether the object uses the feature.
    pub prefix: FeaturePrefix,
    /// Name of the feature, such as `simd128`.
    pub name: &'a str,
}

/// Takes the prefix of a feature.
#[tactic(auto, unfolding(crate::specs::formats::TargetFeatures::feature_prefix))]
fn take_prefix<I: Input>(input: &mut I) -> Result<FeaturePrefix, Fault>
    ensures takes { Takes I.writes feature_prefix (I.state input.old) (I.state input.new) result }
{
    match input.byte_of(Construct::FeaturePrefix)? {
        0x2B => Ok(FeaturePrefix::Used),
        0x2D => Ok(FeaturePrefix::Disallowed),
        byte => Err(Fault::Malformed(input.invalid(Construct::FeaturePrefix, byte))),
    }
}

/// Returns the byte of a prefix.
#[tactic(auto, unfolding(crate::specs::formats::TargetFeatures::feature_prefix))]
fn prefix_byte(prefix: FeaturePrefix) -> u8
    ensures { feature_prefix.bytes prefix ≡ result ∷ [] }
{
    match prefix {
        FeaturePrefix::Used => 0x2B,
        FeaturePrefix::Disallowed => 0x2D,
    }
}

/// Takes a feature.
#[tactic(auto, unfolding(crate::specs::formats::TargetFeatures::target_feature))]
fn take_feature<'a, I: NameInput<'a>>(input: &mut I) -> Result<TargetFeature<'a>, Fault>
    ensures passes { Passes I.writes feature_parts target_feature (I.state input.old) (I.state input.new) result }
    ensures err { IfErr result IsMalformed }
{
    let prefix = take_prefix(input)?;
    let name = input.name()?;
    Ok(TargetFeature { prefix, name })
}

impl<'a> Readable<'a> for TargetFeature<'a> {
    ghost Value = { FeatureParts };

    ghost view = { feature_parts };

    ghost views = { all_feature_parts };

    ghost views_each = { record { none = refl; more = λ items item. map_push feature_parts items item } };

    ghost format = { target_feature };

    #[inline(always)]
    #[tactic(auto, using(crate::proofs::FeatureLaws::feature_is_lawful, crate::proofs::FeatureLaws::feature_takes))]
    fn is_lawful()
        ensures lawful { IsLawful target_feature }
        ensures some { TakesBytes target_feature.Encodes }
    {}

    fn read(_alloc: Global, cursor: &mut Cursor<'a>) -> Result<TargetFeature<'a>, Fault> {
        take_feature(cursor)
    }

    fn rewrite(rewriter: &mut Rewriter) -> Result<(), Fault>
        ensures rewrites { Rewrites target_feature rewriter.old rewriter.new result }
    {
        take_feature(rewriter)?;
        Ok(())
    }
}

impl<'a> CustomItem for TargetFeature<'a> {
    ghost Value = { FeatureParts };

    ghost format = { target_feature };

    ghost named = { codes "target_features" };

    fn section_name() -> &'static str
        ensures { result.now ≡ codes "target_features" }
    {
        "target_features"
    }

    #[inline(always)]
    #[tactic(auto, using(crate::proofs::FeatureLaws::feature_is_lawful))]
    fn is_lawful()
        ensures lawful { IsLawful target_feature }
    {}
}

/// Appends a feature. On error a part of it may remain.
fn append_feature<A: Allocator>(
    item: &TargetFeature<'_>,
    sink: &mut Vec<u8, A>,
) -> Result<(), EncodeError>
    ensures { AppendsMinimal target_feature (feature_parts item.now) (IsCount (length item.now.name.now)) sink.old.items sink.new.items result }
{
    sink.reserve(1)?;
    sink.push_reserved(prefix_byte(item.prefix));
    append_name(item.name, sink)
}

/// The byte of the prefix, and the name.
///
/// Fails with `TooLong` if the name is longer than 4,294,967,295 bytes.
impl<'a> Encode for TargetFeature<'a> {
    ghost bytes = { λ item. target_feature.bytes (feature_parts item) };

    ghost IsWritten = { λ item. IsMinimal target_feature.Encodes target_feature.bytes (feature_parts item) };

    ghost CanEncode = { λ item. IsCount (length item.name.now) };

    ghost refuses = { OnlyTooLong };

    fn encode<A: Allocator>(&self, sink: &mut Vec<u8, A>) -> Result<(), EncodeError> {
        let start = sink.len();
        let result = append_feature(self, sink);
        keep_or_undo(sink, start, result)
    }
}

/// A target features section (tool conventions, Target Features Section).
///
/// # Examples
///
/// ```
/// # use wasm_encoder::{Encode, FeaturePrefix, TargetFeaturesSection};
/// let mut features = TargetFeaturesSection::new(rt.alloc());
/// features.feature(FeaturePrefix::Used, "simd128")?;
/// let mut bytes = Vec::new(rt.alloc());
/// features.encode(&mut bytes)?; // the size, the name "target_features", one feature
/// let expected = b"\x1a\x0ftarget_features\x01+\x07simd128";
/// assert_eq!(rt; bytes.as_slice(), expected.as_slice());
/// ```
///
/// Reading the contents of such a section, after its name, returns the features:
///
/// ```
/// # use wasm_encoder::{FeaturePrefix, TargetFeaturesSection, read};
/// for feature in &read::<TargetFeaturesSection<'_>>(rt.alloc(), b"\x01-\x07atomics")? {
///     assert_eq!(rt; feature.prefix, FeaturePrefix::Disallowed);
///     assert_eq!(rt; feature.name, "atomics");
/// }
/// ```
pub type TargetFeaturesSection<'a> = CustomList<TargetFeature<'a>>;

impl<'a> CustomList<TargetFeature<'a>> {
    /// Adds a feature.
    ///
    /// Fails with `TooLong` if the section already has 4,294,967,295 features or `name` is longer than 4,294,967,295
    /// bytes.
    pub fn feature(&mut self, prefix: FeaturePrefix, name: &str) -> Result<(), EncodeError>
        ensures adds { AddsNamed target_feature (length name.now) self.old (feature_of (prefix, name.now)) self.new result }
    {
        self.items.add(&TargetFeature { prefix, name })
    }
}
