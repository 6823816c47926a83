//! Parts of a text.
ghost use Rattle.std.specs.Prelude.{◌≡◌, ◌==◌, ◌≤◌, drop, length};
ghost use Rattle.std.specs.Bool.{OnFalse};
ghost use Rattle.std.specs.List.{list_all};
ghost use Rattle.mime_types.specs.Bytes.{is_token};
ghost use Rattle.mime_types.specs.Text.{before, after, after_tokens, front, is_a_token, tokens_before, trim, trim_end, trim_start};

use crate::bytes::{is_token, is_white};

/// The text without white space at its start.
pub(crate) fn trim_start(text: &[u8]) -> &[u8]
    ensures { result.now ≡ trim_start text.now }
{
    for at in 0..text.len() {
        if !is_white(text[at]) {
            return &text[at..];
        }
    }
    &[]
}

/// The text without white space at its end.
#[tactic(auto, using(crate::proofs::TextLemmas::all_white, crate::proofs::TextLemmas::ends_after))]
pub(crate) fn trim_end(text: &[u8]) -> &[u8]
    ensures { result.now ≡ trim_end text.now }
{
    for end in (0..text.len()).rev() {
        if !is_white(text[end]) {
            return &text[..end + 1];
        }
    }
    &[]
}

/// The text without white space at both ends, which few texts have.
pub(crate) fn trim(text: &[u8]) -> &[u8]
    ensures { result.now ≡ trim text.now }
{
    if is_white_at_an_end(text) {
        return trim_end(trim_start(text));
    }
    text
}

fn is_white_at_an_end(text: &[u8]) -> bool
    ensures { OnFalse result (trim text.now ≡ text.now) }
{
    if text.is_empty() {
        return false;
    }
    is_white(text[0]) || is_white(text[text.len() - 1])
}

/// What stands from a place on.
pub(crate) fn rest_at(text: &[u8], at: usize) -> &[u8]
    requires { at ≤ length text.now }
    ensures { result.now ≡ drop at text.now }
{
    &text[at..]
}

/// What stands before the first such byte, and after it.
pub(crate) fn cut(text: &[u8], byte: u8) -> (&[u8], &[u8])
    ensures front { result.0.now ≡ front (λ x. x == byte) text.now }
    ensures after { result.1.now ≡ after (λ x. x == byte) text.now }
{
    let end = find(text, byte);
    if end == text.len() {
        return (text, &[]);
    }
    (&text[..end], &text[end + 1..])
}

/// How many bytes stand before the first such byte, or how many there are.
fn find(text: &[u8], byte: u8) -> usize
    ensures value { result ≡ before (λ x. x == byte) text.now }
    ensures bound { result ≤ length text.now }
{
    for at in 0..text.len() {
        if text[at] == byte {
            return at;
        }
    }
    text.len()
}

/// The bytes of tokens that the text begins with, and what stands after them.
pub(crate) fn split_tokens(text: &[u8]) -> (&[u8], &[u8])
    ensures tokens { result.0.now ≡ tokens_before text.now }
    ensures after { result.1.now ≡ after_tokens text.now }
{
    let rest = after_tokens(text);
    (&text[..text.len() - rest.len()], rest)
}

fn after_tokens(text: &[u8]) -> &[u8]
    ensures { result.now ≡ after_tokens text.now }
{
    let mut rest = after_fours(text);
    while let [first, after @ ..] = rest {
        if !is_token(*first) {
            break;
        }
        rest = after;
    }
    rest
}

/// What stands after as many of them as are passed by fours, which takes half the time.
#[tactic(auto, using(crate::proofs::TokenLemmas::four_pass))]
fn after_fours(text: &[u8]) -> &[u8]
    ensures { after_tokens result.now ≡ after_tokens text.now }
{
    let mut rest = text;
    while let [first, second, third, fourth, after @ ..] = rest {
        if !(is_token(*first) & is_token(*second) & is_token(*third) & is_token(*fourth)) {
            break;
        }
        rest = after;
    }
    rest
}

/// Whether the text is a token.
#[tactic(auto, using(std::proofs::lemmas::Bool::Decides::nat_tests))]
pub(crate) fn is_a_token(text: &[u8]) -> bool
    ensures { result ≡ is_a_token text.now }
{
    !text.is_empty() && all_of_tokens(text)
}

fn all_of_tokens(text: &[u8]) -> bool
    ensures { result ≡ list_all is_token text.now }
{
    text.iter().all(|byte| is_token(*byte))
}
