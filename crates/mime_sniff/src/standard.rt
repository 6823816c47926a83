//! The rules of the standard, asked in order.
ghost use Rattle.std.specs.Prelude.{◌≡◌, ◌∷◌, ◌++◌, [], Some, option_map};
ghost use Rattle.std.specs.Option.{option_or};
ghost use Rattle.mime_sniff.specs.Computed.{Answers};
ghost use Rattle.mime_sniff.specs.Rule.{Accepts, FindsFirst};
ghost use Rattle.mime_sniff.specs.Standard.{archives, documents, fonts, marks, media, octets, scriptable, text_or_binary_rules, text_rule, texts, unscripted};
ghost use Rattle.mime_sniff.specs.Table.{images, sounds};

use crate::markup::of_markup;
use crate::mp3::is_mp3;
use crate::mp4::is_mp4_of_any_box;
use crate::question::Question;
use crate::row::first_type;
use crate::table::{images, sounds};
use crate::webm::is_webm;
use infer_formats::text::is_binary;

pub(crate) mod table;

/// The type of what no rule identifies, where one has to be given.
const OCTETS: &str = "application/octet-stream";

/// What the rules that are asked say of the header.
pub(crate) fn answer(question: Question, header: &[u8]) -> Option<&'static str>
    ensures { Answers question header.now (option_map (λ t. t.now) result) }
{
    match question {
        Question::Anything => or_octets(of_anything(header)),
        Question::Unscripted => or_octets(of_unscripted(header)),
        Question::TextOrBinary => or_octets(of_text_or_binary(header)),
        Question::Images => of_images(header),
        Question::Media => of_media(header),
        Question::Fonts => of_fonts(header),
        Question::Nothing => None,
        Question::Octets => Some(OCTETS),
        Question::Vtt => Some("text/vtt"),
        Question::Manifest => Some("text/cache-manifest"),
    }
}

/// What is identified, or else that the bytes are unknown.
pub(crate) fn or_octets(told: Option<&'static str>) -> Option<&'static str>
    ensures { option_map (λ t. t.now) result ≡ option_or (option_map (λ t. t.now) told.entry) (Some octets) }
{
    match told {
        Some(mime_type) => Some(mime_type),
        None => Some(OCTETS),
    }
}

#[tactic(auto, using(crate::proofs::FirstLemmas::finds_left, crate::proofs::FirstLemmas::finds_right))]
fn of_anything(header: &[u8]) -> Option<&'static str>
    ensures { FindsFirst (Accepts header.now) (scriptable ++ unscripted) (option_map (λ t. t.now) result) }
{
    if let Some(found) = of_scriptable(header) {
        return Some(found);
    }
    of_unscripted(header)
}

#[tactic(auto, using(crate::proofs::FirstLemmas::finds_left, crate::proofs::FirstLemmas::finds_right))]
pub(crate) fn of_scriptable(header: &[u8]) -> Option<&'static str>
    ensures { FindsFirst (Accepts header.now) scriptable (option_map (λ t. t.now) result) }
{
    if let Some(found) = of_markup(header, "text/html", "text/xml") {
        return Some(found);
    }
    of_documents(header)
}

#[tactic(auto, using(crate::proofs::RuleLemmas::finds_direct, crate::proofs::StandardLemmas::documents_is))]
fn of_documents(header: &[u8]) -> Option<&'static str>
    ensures { FindsFirst (Accepts header.now) documents (option_map (λ t. t.now) result) }
{
    first_type(table::documents(), header)
}

#[tactic(auto, using(crate::proofs::RuleLemmas::finds_direct, crate::proofs::StandardLemmas::texts_is))]
fn of_texts(header: &[u8]) -> Option<&'static str>
    ensures { FindsFirst (Accepts header.now) texts (option_map (λ t. t.now) result) }
{
    first_type(table::texts(), header)
}

fn of_unscripted(header: &[u8]) -> Option<&'static str>
    ensures { FindsFirst (Accepts header.now) unscripted (option_map (λ t. t.now) result) }
{
    if let Some(found) = of_texts(header) {
        return Some(found);
    }
    if let Some(found) = of_images(header) {
        return Some(found);
    }
    if let Some(found) = of_media(header) {
        return Some(found);
    }
    if let Some(found) = of_archives(header) {
        return Some(found);
    }
    of_text(header)
}

#[tactic(auto, using(crate::proofs::RuleLemmas::finds_direct, crate::proofs::StandardLemmas::archives_is))]
pub(crate) fn of_archives(header: &[u8]) -> Option<&'static str>
    ensures { FindsFirst (Accepts header.now) archives (option_map (λ t. t.now) result) }
{
    first_type(table::archives(), header)
}

/// Text, if no byte is one of binary data.
#[tactic(auto, using(crate::proofs::StandardLemmas::by_binary, crate::proofs::StandardLemmas::by_text))]
fn of_text(header: &[u8]) -> Option<&'static str>
    ensures { FindsFirst (Accepts header.now) (text_rule ∷ []) (option_map (λ t. t.now) result) }
{
    if is_binary(header) {
        return None;
    }
    Some("text/plain")
}

#[tactic(auto, using(crate::proofs::RuleLemmas::finds_direct, crate::proofs::StandardLemmas::marks_is))]
fn of_marks(header: &[u8]) -> Option<&'static str>
    ensures { FindsFirst (Accepts header.now) marks (option_map (λ t. t.now) result) }
{
    first_type(table::marks(), header)
}

#[tactic(auto, using(crate::proofs::FirstLemmas::finds_left, crate::proofs::FirstLemmas::finds_right))]
fn of_text_or_binary(header: &[u8]) -> Option<&'static str>
    ensures { FindsFirst (Accepts header.now) text_or_binary_rules (option_map (λ t. t.now) result) }
{
    if let Some(found) = of_marks(header) {
        return Some(found);
    }
    of_text(header)
}

/// The type of the first rule of images, of those with the first byte.
#[tactic(auto, using(std::proofs::lemmas::Bool::Decides::nat_tests, crate::proofs::StandardLemmas::images_is, crate::proofs::RuleLemmas::finds_empty, crate::proofs::RuleLemmas::finds_led))]
pub(crate) fn of_images(header: &[u8]) -> Option<&'static str>
    ensures { FindsFirst (Accepts header.now) images (option_map (λ t. t.now) result) }
{
    if header.is_empty() {
        return None;
    }
    first_type(images(header[0]), header)
}

/// The type of the first rule of sounds, of those with the first byte.
#[tactic(auto, using(std::proofs::lemmas::Bool::Decides::nat_tests, crate::proofs::StandardLemmas::sounds_is, crate::proofs::RuleLemmas::finds_empty, crate::proofs::RuleLemmas::finds_led))]
pub(crate) fn of_sounds(header: &[u8]) -> Option<&'static str>
    ensures { FindsFirst (Accepts header.now) sounds (option_map (λ t. t.now) result) }
{
    if header.is_empty() {
        return None;
    }
    first_type(sounds(header[0]), header)
}

#[tactic(auto, using(crate::proofs::RuleLemmas::finds_direct, crate::proofs::StandardLemmas::fonts_is))]
fn of_fonts(header: &[u8]) -> Option<&'static str>
    ensures { FindsFirst (Accepts header.now) fonts (option_map (λ t. t.now) result) }
{
    first_type(table::fonts(), header)
}

fn of_media(header: &[u8]) -> Option<&'static str>
    ensures { FindsFirst (Accepts header.now) media (option_map (λ t. t.now) result) }
{
    if let Some(found) = of_sounds(header) {
        return Some(found);
    }
    if is_mp4_of_any_box(header) {
        return Some("video/mp4");
    }
    if is_webm(header) {
        return Some("video/webm");
    }
    if is_mp3(header) {
        return Some("audio/mpeg");
    }
    None
}
