//! What the rules say of bytes that may go on, whatever follows them. None means that more bytes may change it.
ghost use Rattle.std.specs.Prelude.{◌≡◌, ◌∷◌, ◌++◌, ◌↔◌, [], IfSome, IsSome, IsTrue, codes, option_map};
ghost use Rattle.mime_sniff.specs.Growth.{AnswerForGood, FitForGood, MayBeginHeader, FindForGood, found_or_else};
ghost use Rattle.mime_sniff.specs.Standard.{archives, documents, fonts, markup, marks, media, mp3_rule, mp4_rule, scriptable, text_or_binary_rules, text_rule, texts, unscripted, webm_rule};
ghost use Rattle.mime_sniff.specs.Table.{images, sounds, tag_rules};
ghost use Rattle.infer_deep.specs.Joined.{NoneBegins};
ghost use Rattle.infer_deep.specs.Text.{IsSpace};

use crate::markup::xml_rows;
use crate::mp3::is_mp3;
use crate::mp4::is_mp4_of_any_box;
use crate::question::Question;
use crate::row::settled_type;
use crate::standard::{or_octets, table};
use crate::table::{images, sounds};
use crate::webm::is_webm;
use infer_deep::places::may_stand_at;
use infer_deep::text::{after_white_space, is_html, may_become_html};
use infer_formats::text::is_binary;

/// What the question's rules say of the header.
pub(crate) fn settled(question: Question, header: &[u8]) -> Option<Option<&'static str>>
    ensures good { IfSome result (λ told. AnswerForGood question header.now (option_map (λ t. t.now) told)) }
    ensures nothing { question ≡ Question.Nothing → IsSome result }
{
    match question {
        Question::Anything => anything(header),
        Question::Unscripted => unscripted(header),
        Question::TextOrBinary => text_or_binary(header),
        Question::Images => of_images(header),
        Question::Media => of_media(header),
        Question::Fonts => of_fonts(header),
        Question::Nothing => Some(None),
        Question::Octets => Some(Some("application/octet-stream")),
        Question::Vtt => Some(Some("text/vtt")),
        Question::Manifest => Some(Some("text/cache-manifest")),
    }
}

fn anything(header: &[u8]) -> Option<Option<&'static str>>
    ensures { IfSome result (λ told. AnswerForGood Question.Anything header.now (option_map (λ t. t.now) told)) }
{
    match of_anything(header) {
        Some(told) => Some(or_octets(told)),
        None => None,
    }
}

fn unscripted(header: &[u8]) -> Option<Option<&'static str>>
    ensures { IfSome result (λ told. AnswerForGood Question.Unscripted header.now (option_map (λ t. t.now) told)) }
{
    match of_unscripted(header) {
        Some(told) => Some(or_octets(told)),
        None => None,
    }
}

fn text_or_binary(header: &[u8]) -> Option<Option<&'static str>>
    ensures { IfSome result (λ told. AnswerForGood Question.TextOrBinary header.now (option_map (λ t. t.now) told)) }
{
    match of_text_or_binary(header) {
        Some(told) => Some(or_octets(told)),
        None => None,
    }
}

fn of_anything(header: &[u8]) -> Option<Option<&'static str>>
    ensures { IfSome result (λ told. FindForGood header.now (scriptable ++ unscripted) (option_map (λ t. t.now) told)) }
{
    or_else(of_scriptable(header), of_unscripted(header))
}

fn of_scriptable(header: &[u8]) -> Option<Option<&'static str>>
    ensures { IfSome result (λ told. FindForGood header.now scriptable (option_map (λ t. t.now) told)) }
{
    or_else(of_markup(header), of_documents(header))
}

fn of_markup(header: &[u8]) -> Option<Option<&'static str>>
    ensures { IfSome result (λ told. FindForGood header.now markup (option_map (λ t. t.now) told)) }
{
    let text = after_white_space(header);
    if text.is_empty() {
        return None;
    }
    or_else(of_html(text), settled_type(&xml_rows("text/xml"), text))
}

fn of_html(text: &[u8]) -> Option<Option<&'static str>>
    requires { NoneBegins IsSpace text.now }
    ensures { IfSome result (λ told. FitForGood text.now (tag_rules (codes "text/html")) (option_map (λ t. t.now) told)) }
{
    if is_html(text) {
        return Some(Some("text/html"));
    }
    if may_become_html(text) {
        return None;
    }
    Some(None)
}

fn of_unscripted(header: &[u8]) -> Option<Option<&'static str>>
    ensures { IfSome result (λ told. FindForGood header.now unscripted (option_map (λ t. t.now) told)) }
{
    or_else(of_texts(header), of_after_texts(header))
}

fn of_after_texts(header: &[u8]) -> Option<Option<&'static str>>
    ensures { IfSome result (λ told. FindForGood header.now (images ++ (media ++ (archives ++ text_rule ∷ []))) (option_map (λ t. t.now) told)) }
{
    let after_images = or_else(
        of_media(header),
        or_else(of_archives(header), of_text(header)),
    );
    or_else(of_images(header), after_images)
}

fn of_text_or_binary(header: &[u8]) -> Option<Option<&'static str>>
    ensures { IfSome result (λ told. FindForGood header.now text_or_binary_rules (option_map (λ t. t.now) told)) }
{
    or_else(of_marks(header), of_text(header))
}

#[tactic(auto, using(crate::proofs::GrowthLemmas::settle_direct, crate::proofs::StandardLemmas::documents_is))]
fn of_documents(header: &[u8]) -> Option<Option<&'static str>>
    ensures { IfSome result (λ told. FindForGood header.now documents (option_map (λ t. t.now) told)) }
{
    settled_type(table::documents(), header)
}

#[tactic(auto, using(crate::proofs::GrowthLemmas::settle_direct, crate::proofs::StandardLemmas::texts_is))]
fn of_texts(header: &[u8]) -> Option<Option<&'static str>>
    ensures { IfSome result (λ told. FindForGood header.now texts (option_map (λ t. t.now) told)) }
{
    settled_type(table::texts(), header)
}

#[tactic(auto, using(crate::proofs::GrowthLemmas::settle_direct, crate::proofs::StandardLemmas::archives_is))]
fn of_archives(header: &[u8]) -> Option<Option<&'static str>>
    ensures { IfSome result (λ told. FindForGood header.now archives (option_map (λ t. t.now) told)) }
{
    settled_type(table::archives(), header)
}

#[tactic(auto, using(crate::proofs::GrowthLemmas::settle_direct, crate::proofs::StandardLemmas::fonts_is))]
fn of_fonts(header: &[u8]) -> Option<Option<&'static str>>
    ensures { IfSome result (λ told. FindForGood header.now fonts (option_map (λ t. t.now) told)) }
{
    settled_type(table::fonts(), header)
}

#[tactic(auto, using(crate::proofs::GrowthLemmas::settle_direct, crate::proofs::StandardLemmas::marks_is))]
fn of_marks(header: &[u8]) -> Option<Option<&'static str>>
    ensures { IfSome result (λ told. FindForGood header.now marks (option_map (λ t. t.now) told)) }
{
    settled_type(table::marks(), header)
}

/// A byte of binary data stays, and one may come as long as there is none.
#[tactic(auto, using(crate::proofs::GrowthLemmas::binary_grown, crate::proofs::StandardLemmas::by_binary))]
fn of_text(header: &[u8]) -> Option<Option<&'static str>>
    ensures { IfSome result (λ told. FindForGood header.now (text_rule ∷ []) (option_map (λ t. t.now) told)) }
{
    if is_binary(header) {
        return Some(None);
    }
    None
}

#[tactic(auto, using(std::proofs::lemmas::Bool::Decides::nat_tests, crate::proofs::GrowthLemmas::settle_led, crate::proofs::StandardLemmas::images_is))]
fn of_images(header: &[u8]) -> Option<Option<&'static str>>
    ensures { IfSome result (λ told. FindForGood header.now images (option_map (λ t. t.now) told)) }
{
    if header.is_empty() {
        return None;
    }
    settled_type(images(header[0]), header)
}

#[tactic(auto, using(std::proofs::lemmas::Bool::Decides::nat_tests, crate::proofs::GrowthLemmas::settle_led, crate::proofs::StandardLemmas::sounds_is))]
fn of_sounds(header: &[u8]) -> Option<Option<&'static str>>
    ensures { IfSome result (λ told. FindForGood header.now sounds (option_map (λ t. t.now) told)) }
{
    if header.is_empty() {
        return None;
    }
    settled_type(sounds(header[0]), header)
}

fn of_media(header: &[u8]) -> Option<Option<&'static str>>
    ensures { IfSome result (λ told. FindForGood header.now media (option_map (λ t. t.now) told)) }
{
    let after_mp4 = or_else(of_webm(header), of_mp3(header));
    or_else(of_sounds(header), or_else(of_mp4(header), after_mp4))
}

fn of_mp4(header: &[u8]) -> Option<Option<&'static str>>
    ensures { IfSome result (λ told. FindForGood header.now (mp4_rule ∷ []) (option_map (λ t. t.now) told)) }
{
    if is_mp4_of_any_box(header) {
        return Some(Some("video/mp4"));
    }
    if may_stand_at(header, b"ftyp", 4) {
        return None;
    }
    Some(None)
}

fn of_webm(header: &[u8]) -> Option<Option<&'static str>>
    ensures { IfSome result (λ told. FindForGood header.now (webm_rule ∷ []) (option_map (λ t. t.now) told)) }
{
    if is_webm(header) {
        return Some(Some("video/webm"));
    }
    if may_stand_at(header, b"\x1AE\xDF\xA3", 0) {
        return None;
    }
    Some(None)
}

fn of_mp3(header: &[u8]) -> Option<Option<&'static str>>
    ensures { IfSome result (λ told. FindForGood header.now (mp3_rule ∷ []) (option_map (λ t. t.now) told)) }
{
    if is_mp3(header) {
        return Some(Some("audio/mpeg"));
    }
    if may_begin_header(header) {
        return None;
    }
    Some(None)
}

/// What the first rules say, or those after them if the first ones say nothing.
fn or_else(
    first: Option<Option<&'static str>>,
    after: Option<Option<&'static str>>,
) -> Option<Option<&'static str>>
    ensures { result ≡ found_or_else first.entry after.entry }
{
    match first {
        Some(None) => after,
        Some(Some(mime_type)) => Some(Some(mime_type)),
        None => None,
    }
}

/// Whether the bytes that are there are those of the header of a frame.
fn may_begin_header(buf: &[u8]) -> bool
    ensures { IsTrue result ↔ MayBeginHeader buf.now }
{
    (buf.is_empty() || buf[0] == 0xFF)
        && (buf.len() < 2 || buf[1] & 0xE6 == 0xE2)
        && (buf.len() < 3 || buf[2] & 0xF0 != 0xF0 && buf[2] & 0x0C != 0x0C)
}
