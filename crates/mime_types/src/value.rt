//! What a value says, byte by byte.
ghost use Rattle.std.specs.Prelude.{◌≡◌, ◌<◌, ◌∷◌, [], MatchOption, length};
ghost use Rattle.std.specs.List.{list_all};
ghost use Rattle.mime_types.specs.Bytes.{is_token};
ghost use Rattle.mime_types.specs.Seen.{value_seen};
ghost use Rattle.mime_types.specs.Text.{is_a_token};

use crate::bytes::is_token;
use crate::parameter::Value;

/// The first byte that the value says, and a value that says the others.
pub(crate) fn split_value<'a>(value: &Value<'a>) -> Option<(u8, Value<'a>)>
    ensures { MatchOption result (value_seen value.now ≡ [])
        (λ found. (value_seen value.now ≡ found.0 ∷ value_seen found.1)
        × (length found.1.text.now < length value.now.text.now)) }
{
    let is_quoted = value.is_quoted;
    match value.text {
        [] => None,
        [b'\\', byte, text @ ..] if is_quoted => Some((*byte, Value { text, is_quoted })),
        [byte, text @ ..] => Some((*byte, Value { text, is_quoted })),
    }
}

/// Whether what the value says is a token.
pub(crate) fn is_token_value(value: &Value<'_>) -> bool
    ensures { result ≡ is_a_token (value_seen value.now) }
{
    split_value(value).is_some() && all_of_tokens(value)
}

fn all_of_tokens(value: &Value<'_>) -> bool
    ensures { result ≡ list_all is_token (value_seen value.now) }
{
    let mut left = *value;
    while let Some((byte, rest)) = split_value(&left) {
        if !is_token(byte) {
            return false;
        }
        left = rest;
    }
    true
}
