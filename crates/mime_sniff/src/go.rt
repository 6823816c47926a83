//! What Go's package `net/http` takes first bytes for.
ghost use Rattle.std.specs.Prelude.{◌≡◌, ◌<◌, ◌≤◌, ◌↔◌, length, map, option_map};
ghost use Rattle.mime_sniff.specs.Go.{IsContentType, between, documents, earlier, later, rules};
ghost use Rattle.mime_sniff.specs.Rule.{Accepts, FindsFirst};

use crate::markup::of_markup;
use crate::mp4::is_mp4;
use crate::row::first_type;
use crate::standard::{of_images, of_sounds};
use infer_formats::text::is_binary;

mod table;

/// How many bytes are looked at.
pub const HEADER_LENGTH: usize = 512;

/// The MIME type of a file that begins with these bytes, as Go's `http.DetectContentType` gives it, byte for byte. What
/// no rule accepts is `application/octet-stream`. The text has 29 bytes at most.
///
/// Only the first 512 bytes count. A text has its encoding after it, as in `text/html; charset=utf-8`.
///
/// ```
/// let told = mime_sniff::go::detect_content_type(b"<p>Hello");
/// assert_eq!(rt; told, "text/html; charset=utf-8");
/// ```
pub fn detect_content_type(buf: &[u8]) -> &'static str
    ensures answer { IsContentType buf.now result.now }
    ensures some { 0 < length result.now }
    ensures short { length result.now ≤ 29 }
{
    match first_rule(&buf[..HEADER_LENGTH.min(buf.len())]) {
        Some(mime_type) => mime_type,
        None => "application/octet-stream",
    }
}

/// The type of the first rule that accepts the header.
fn first_rule(header: &[u8]) -> Option<&'static str>
    ensures { FindsFirst (Accepts header.now) rules (option_map (λ t. t.now) result) }
{
    if let Some(found) = of_markup(
        header,
        "text/html; charset=utf-8",
        "text/xml; charset=utf-8",
    ) {
        return Some(found);
    }
    if let Some(found) = of_earlier(header) {
        return Some(found);
    }
    if is_mp4(header) {
        return Some("video/mp4");
    }
    if let Some(found) = of_between(header) {
        return Some(found);
    }
    if let Some(found) = of_later(header) {
        return Some(found);
    }
    if is_binary(header) {
        return None;
    }
    Some("text/plain; charset=utf-8")
}

/// The type of the first rule before MP4.
#[tactic(auto, using(crate::proofs::GoLemmas::by_documents, crate::proofs::GoLemmas::by_images, crate::proofs::GoLemmas::by_sounds))]
fn of_earlier(header: &[u8]) -> Option<&'static str>
    ensures { FindsFirst (Accepts header.now) earlier (option_map (λ t. t.now) result) }
{
    if let Some(found) = of_documents(header) {
        return Some(found);
    }
    if let Some(found) = of_images(header) {
        return Some(found);
    }
    of_sounds(header)
}

/// The type of the first rule of documents, of those with the first byte.
#[tactic(auto, using(std::proofs::lemmas::Bool::Decides::nat_tests, crate::proofs::GoLemmas::documents_is, crate::proofs::RuleLemmas::finds_empty, crate::proofs::RuleLemmas::finds_led))]
fn of_documents(header: &[u8]) -> Option<&'static str>
    ensures { FindsFirst (Accepts header.now) documents (option_map (λ t. t.now) result) }
{
    if header.is_empty() {
        return None;
    }
    first_type(table::documents(header[0]), header)
}

#[tactic(auto, using(crate::proofs::GoLemmas::between_is, crate::proofs::RuleLemmas::finds_direct))]
fn of_between(header: &[u8]) -> Option<&'static str>
    ensures { FindsFirst (Accepts header.now) between (option_map (λ t. t.now) result) }
{
    first_type(table::between(), header)
}

/// The type of the first rule before text, of those with the first byte.
#[tactic(auto, using(std::proofs::lemmas::Bool::Decides::nat_tests, crate::proofs::GoLemmas::later_is, crate::proofs::RuleLemmas::finds_empty, crate::proofs::RuleLemmas::finds_led))]
fn of_later(header: &[u8]) -> Option<&'static str>
    ensures { FindsFirst (Accepts header.now) later (option_map (λ t. t.now) result) }
{
    if header.is_empty() {
        return None;
    }
    first_type(table::later(header[0]), header)
}
