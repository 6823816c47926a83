//! JSON objects by their first key.
ghost use Rattle.std.specs.Prelude.{◌≡◌, ◌↔◌, ◌∷◌, ◌++◌, [], ℕ, IfSome, IsTrue, List, MatchOption};
ghost use Rattle.infer_deep.specs.Signatures.{MayBecome};
ghost use Rattle.infer_formats.specs.Json.{IsBlank};
ghost use Rattle.infer_formats.specs.FirstKey.{BeginsByKey, EndsInQuote, HasFirstKey, HasFirstKeyWith, HasValue, IsFirstKey, StandsFirst, StandsNext, in_quotes};

use super::lines::past_blanks;
use super::may_become::may_reach_bracket;
use super::past_mark;
use memchr::memchr;

/// The first key of an object.
#[derive(Clone, Copy, Debug)]
pub struct Key<'a> {
    /// What stands between its quotes.
    pub text: &'a [u8],
    /// What stands after its colon in the buffer.
    pub rest: &'a [u8],
}

impl Key<'_> {
    /// Whether its value is this text.
    pub fn has_value(&self, value: &[u8]) -> bool
        ensures { IsTrue result ↔ HasValue value.now self.now.rest.now }
    {
        past_quoted(self.rest, value).is_some()
    }
}

/// The first key of the object that begins a buffer, up to the next quote: read once for all that ask for one.
pub fn first_key(buf: &[u8]) -> Option<Key<'_>>
    ensures found { MatchOption result ((k left : List ℕ) → ¬ IsFirstKey k left buf.now)
        (λ key. IsFirstKey key.text.now key.rest.now buf.now) }
    ensures only { IfSome result
        (λ key. (k left : List ℕ) → IsFirstKey k left buf.now → (k ≡ key.text.now)
        × (left ≡ key.rest.now)) }
{
    let inside = past_byte(past_mark(buf), b'{')?;
    let quoted = past_byte(inside, b'"')?;
    let key = up_to_quote(quoted)?;
    let rest = past_byte(key.rest, b':')?;
    Some(Key {
        text: key.text,
        rest,
    })
}

/// The first byte that is no white space, as "{" of an object.
#[tactic(auto, using(crate::proofs::FirstKeyLemmas::next_past, crate::proofs::KeyLemmas::dark_past))]
pub fn first_dark(buf: &[u8]) -> Option<u8>
    ensures { MatchOption result ((x : ℕ) → (¬ IsBlank x) → ¬ StandsFirst x buf.now)
        (λ dark. (¬ IsBlank dark) × StandsFirst dark buf.now) }
{
    match past_blanks(buf) {
        [dark, ..] => Some(*dark),
        [] => None,
    }
}

/// An object begins the buffer, whose first key is this.
#[inline(never)]
pub fn has_first_key(buf: &[u8], key: &[u8]) -> bool
    ensures { IsTrue result ↔ HasFirstKey key.now buf.now }
{
    past_key(past_mark(buf), key).is_some()
}

/// And its value is this text.
#[inline(never)]
pub fn has_first_key_with(buf: &[u8], key: &[u8], value: &[u8]) -> bool
    ensures { IsTrue result ↔ HasFirstKeyWith key.now value.now buf.now }
{
    match past_key(past_mark(buf), key) {
        Some(rest) => past_quoted(rest, value).is_some(),
        None => false,
    }
}

/// Whether some bytes after `buf`, or none, may make it have the key. What stands after the first bracket is not asked.
pub fn may_have_first_key(buf: &[u8], key: &[u8]) -> bool
    ensures { MayBecome (HasFirstKey key.now) buf.now → IsTrue result }
{
    may_reach_bracket(buf)
}

/// Whether some bytes after `buf`, or none, may make it have the key with the value. What stands after the first bracket is
/// not asked.
pub fn may_have_first_key_with(buf: &[u8], key: &[u8], value: &[u8]) -> bool
    ensures { MayBecome (HasFirstKeyWith key.now value.now) buf.now → IsTrue result }
{
    may_reach_bracket(buf)
}

/// What stands after the colon of the first key of an object.
fn past_key<'b>(buf: &'b [u8], key: &[u8]) -> Option<&'b [u8]>
    ensures { MatchOption result ((left : List ℕ) → ¬ BeginsByKey key.now buf.now left)
        (λ rest. (left : List ℕ) → BeginsByKey key.now buf.now left ↔ (left ≡ rest.now)) }
{
    let inside = past_byte(buf, b'{')?;
    let after = past_quoted(inside, key)?;
    past_byte(after, b':')
}

/// What stands after the byte, which white space may precede.
fn past_byte(buf: &[u8], byte: u8) -> Option<&[u8]>
    requires { ¬ IsBlank byte }
    ensures { MatchOption result ((left : List ℕ) → ¬ StandsNext (byte ∷ []) buf.now left)
        (λ rest. (left : List ℕ) → StandsNext (byte ∷ []) buf.now left ↔ (left ≡ rest.now)) }
{
    match past_blanks(buf) {
        [first, rest @ ..] => { if *first == byte { Some(rest) } else { None } }
        [] => None,
    }
}

/// What stands after the text in quotes, which white space may precede.
#[tactic(auto, using(crate::proofs::FirstKeyLemmas::none_quoted))]
fn past_quoted<'b>(buf: &'b [u8], text: &[u8]) -> Option<&'b [u8]>
    ensures { MatchOption result ((left : List ℕ) → ¬ StandsNext (in_quotes text.now) buf.now left)
        (λ rest. (left : List ℕ) → StandsNext (in_quotes text.now) buf.now left ↔ (left ≡ rest.now)) }
{
    match past_byte(buf, b'"') {
        Some(inside) => past_closing(inside, text),
        None => None,
    }
}

/// What stands after the text and a quote, which stand first.
fn past_closing<'b>(buf: &'b [u8], text: &[u8]) -> Option<&'b [u8]>
    ensures { MatchOption result ((left : List ℕ) → ¬ (buf.now ≡ text.now ++ 0x22 ∷ left))
        (λ rest. buf.now ≡ text.now ++ 0x22 ∷ rest.now) }
{
    match buf.strip_prefix(text) {
        Some(rest) => rest.strip_prefix(b"\""),
        None => None,
    }
}

/// The text up to the first quote, and what stands after that.
fn up_to_quote(buf: &[u8]) -> Option<Key<'_>>
    ensures { MatchOption result ((t left : List ℕ) → ¬ EndsInQuote t left buf.now)
        (λ key. EndsInQuote key.text.now key.rest.now buf.now) }
{
    let end = memchr(b'"', buf)?;
    Some(Key {
        text: &buf[..end],
        rest: &buf[end + 1..],
    })
}
