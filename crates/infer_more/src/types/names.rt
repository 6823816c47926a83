//! Names, MIME types, classes and parents.
ghost use Rattle.std.specs.Prelude.{◌≡◌, ◌≤◌, IsTrue, length};
ghost use Rattle.std.specs.List.{list_all};
ghost use Rattle.infer_more.specs.Line.{class_of, is_alphanumeric, is_built_in, is_mime_type, is_name, is_name_byte, slash_place};

use infer::MatcherType;

/// Whether these are 1 to 127 bytes of a name.
pub fn is_name(text: &[u8]) -> bool
    ensures { result ≡ is_name text.now }
{
    match text {
        [] => false,
        [first, rest @ ..] => is_alphanumeric(*first) && rest.len() <= 126 && are_name_bytes(rest),
    }
}

fn are_name_bytes(text: &[u8]) -> bool
    ensures { result ≡ list_all is_name_byte text.now }
{
    for byte in text {
        if !is_name_byte(*byte) {
            return false;
        }
    }
    true
}

fn is_name_byte(byte: u8) -> bool
    ensures { result ≡ is_name_byte byte }
{
    is_alphanumeric(byte)
        || byte == b'!'
        || byte == b'#'
        || byte == b'$'
        || byte == b'&'
        || byte == b'-'
        || byte == b'^'
        || byte == b'_'
        || byte == b'.'
        || byte == b'+'
}

fn is_alphanumeric(byte: u8) -> bool
    ensures { result ≡ is_alphanumeric byte }
{
    byte >= b'0' && byte <= b'9' || byte >= b'A' && byte <= b'Z' || byte >= b'a' && byte <= b'z'
}

/// Whether these are two names with a "/" between them.
#[tactic(auto, unfolding(crate::specs::Line::is_mime_type))]
pub fn is_mime_type(text: &[u8]) -> bool
    ensures { result ≡ is_mime_type text.now }
{
    match text.split_at(slash_place(text)) {
        (first, [_, second @ ..]) => is_name(first) && is_name(second),
        _ => false,
    }
}

/// How many bytes stand before the first "/".
fn slash_place(text: &[u8]) -> usize
    ensures value { result ≡ slash_place text.now }
    ensures bound { result ≤ length text.now }
{
    for at in 0..text.len() {
        if text[at] == b'/' {
            return at;
        }
    }
    text.len()
}

/// The class of that name.
#[tactic(auto, unfolding(crate::specs::Line::class_of))]
pub fn class_of(name: &[u8]) -> Option<MatcherType>
    ensures { result ≡ class_of name.now }
{
    if name == b"app".as_slice() {
        return Some(MatcherType::App);
    }
    if name == b"archive".as_slice() {
        return Some(MatcherType::Archive);
    }
    if name == b"audio".as_slice() {
        return Some(MatcherType::Audio);
    }
    if name == b"book".as_slice() {
        return Some(MatcherType::Book);
    }
    if name == b"doc".as_slice() {
        return Some(MatcherType::Doc);
    }
    if name == b"font".as_slice() {
        return Some(MatcherType::Font);
    }
    if name == b"image".as_slice() {
        return Some(MatcherType::Image);
    }
    if name == b"text".as_slice() {
        return Some(MatcherType::Text);
    }
    if name == b"video".as_slice() {
        return Some(MatcherType::Video);
    }
    None
}

/// Whether some built-in row has this extension.
pub fn is_built_in(extension: &[u8]) -> bool
    ensures { result ≡ is_built_in extension.now }
{
    infer::texts::is_supported(extension)
}
