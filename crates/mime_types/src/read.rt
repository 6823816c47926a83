//! MIME types of texts.
ghost use Rattle.std.specs.Prelude.{◌≡◌, ◌↔◌, IfSome, IsTrue, Some, option_map};
ghost use Rattle.mime_types.specs.Mime.{Mime};
ghost use Rattle.mime_types.specs.Parse.{Parsed, after_semicolon_first, after_slash_first, if_token, subtype_before, subtype_text, tail_text, type_text};
ghost use Rattle.mime_types.specs.Seen.{mime_of};
ghost use Rattle.mime_types.specs.Text.{after, is_a_token, is_semicolon};

use crate::mime_type::MimeType;
use crate::text::{split_tokens, trim, trim_start};

/// The MIME type that the text says, as the value of the header `Content-Type`. It takes no memory.
///
/// ```
/// let found = mime_types::parse(b"Text/HTML; charset=utf-8").ok_or("a MIME type")?;
/// assert!(rt; found.is_html());
/// ```
pub fn parse(text: &[u8]) -> Option<MimeType<'_>>
    ensures says { (m : Mime) → (option_map mime_of result ≡ Some m) ↔ Parsed text.now m }
    ensures names { IfSome result (λ found. (found.type_name.now ≡ type_text text.now) × (found.subtype.now ≡ subtype_text text.now)) }
    ensures tail { IfSome result (λ found. found.tail.now ≡ tail_text text.now) }
{
    let (type_name, after) = split_tokens(trim(text));
    let (subtype, tail) = split_subtype(after_slash(after));
    if type_name.is_empty() || subtype.is_empty() {
        return None;
    }
    Some(MimeType {
        type_name,
        subtype,
        tail,
    })
}

/// What stands after the slash that the text begins with. Nothing, if it begins with another byte.
fn after_slash(text: &[u8]) -> &[u8]
    ensures { result.now ≡ after_slash_first text.now }
{
    match text {
        [b'/', after @ ..] => after,
        _ => &[],
    }
}

/// The subtype that the text begins with, and what stands after its semicolon. Nothing, if what stands there is no token.
fn split_subtype(text: &[u8]) -> (&[u8], &[u8])
    ensures subtype { result.0.now ≡ if_token (subtype_before text.now) }
    ensures tail { IsTrue (is_a_token (subtype_before text.now)) → result.1.now ≡ after is_semicolon text.now }
{
    let (subtype, after) = split_tokens(text);
    match after_semicolon(trim_start(after)) {
        Some(tail) => (subtype, tail),
        None => (&[], &[]),
    }
}

/// What stands after the semicolon that the text begins with, or nothing if the text is empty. None, if it begins with
/// another byte.
fn after_semicolon(text: &[u8]) -> Option<&[u8]>
    ensures { option_map (λ t. t.now) result ≡ after_semicolon_first text.now }
{
    match text {
        [] => Some(&[]),
        [b';', tail @ ..] => Some(tail),
        _ => None,
    }
}
