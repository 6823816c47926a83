//! What stands in each buffer that a signature accepts, so that no signature is read for a buffer without it.
ghost use Rattle.std.specs.Prelude.{◌≡◌, ◌+◌, ◌<◌, ◌==◌, ◌&&◌, ◌||◌, ◌∷◌, ℕ, Bool, IfSome, IsTrue, List, Some, [], drop, false, length, slice_index, true};
ghost use Rattle.infer_sig.specs.Signature as signature;
ghost use Rattle.infer_sig.specs.Signature.{allows, any_of, between, has_part};
ghost use Rattle.infer_notation.specs.Alternative.{Alternative};
ghost use Rattle.infer_notation.specs.Fixed as spec;
ghost use Rattle.infer_notation.specs.Fixed.{Asked, accepts, alternatives_of, effect_seen, piece, range_of, state, state_taken, step, word_part};
ghost use Rattle.infer_notation.specs.Leads.{IsKnown, IsLead, IsLed, IsRead, is_found, lead_part};
ghost use Rattle.infer_notation.specs.Signature.{signature_of};
ghost use Rattle.infer_notation.specs.Tokens.{token_listed};
ghost use Rattle.infer_notation.specs.Words.{bytes_after, bytes_of, is_blank};
ghost use Rattle.infer_notation.specs.declared.fixed.Effect.TheVariants.{Has};
ghost use Rattle.infer_notation.specs.declared.leads.Known.TheVariants.{Led};

use crate::described::begins_relation;
use crate::fixed::{Cursor, Effect, Wanted, range, step};
use crate::tokens::token_at;
use crate::words::{after_first, byte_with, is_blank, rest_at, skip_blanks};
use infer_formats::token::Token;

/// A place, and the bytes of which one stands there. If they are fewer than four, one is there more than once.
#[derive(Clone, Copy)]
pub struct Lead {
    pub place: u32,
    pub bytes: [u8; 4],
}

/// What is known of some buffers.
#[derive(Clone, Copy)]
pub enum Known {
    /// There are none.
    Never,
    /// Each has this.
    Led(Lead),
    /// Nothing is known of them.
    Nothing,
}

/// How far a signature was read, and what is known of the buffers that fit an alternative before the last one, and of
/// those that have what was read of the last one.
#[derive(Clone, Copy)]
pub struct Reading {
    pub cursor: Cursor,
    pub any: Known,
    pub last: Known,
}

impl Lead {
    /// Whether the buffer has it.
    pub fn stands(&self, buf: &[u8]) -> bool
        ensures { result ≡ has_part buf.now (lead_part self.now) }
    {
        match buf.get(self.place as usize) {
            Some(byte) => is_among(*byte, self.bytes),
            None => false,
        }
    }
}

/// Whether the byte is one of these.
fn is_among(byte: u8, bytes: [u8; 4]) -> bool
    ensures { result ≡ allows (any_of bytes) byte }
{
    let [a, b, c, d] = bytes;
    byte == a || byte == b || byte == c || byte == d
}

/// One of at most four bytes at a place, which each buffer has that the described signature accepts. `None` says
/// nothing.
pub fn lead_of(text: &[u8]) -> Option<Lead>
    ensures { (alternatives : List Alternative) → signature_of text.now ≡ Some alternatives
        → IsLead result alternatives }
{
    if begins_relation(skip_blanks(text)) {
        return None;
    }
    fixed_lead(text)
}

/// [`lead_of`] a text that asks for fixed bytes.
fn fixed_lead(text: &[u8]) -> Option<Lead>
    ensures { (alternatives : List Asked) → alternatives_of text.now ≡ Some alternatives
        → (b : List ℕ) → IsTrue (accepts alternatives b) → IsLed result b }
{
    let mut reading = Reading {
        cursor: Cursor {
            wanted: Wanted::Length,
            least: 0,
            place: 0,
        },
        any: Known::Never,
        last: Known::Never,
    };
    let mut rest = skip_blanks(text);
    while !rest.is_empty() {
        match next(reading, rest) {
            Some((more, count)) => {
                reading = more;
                rest = skip_blanks(rest_at(after_first(rest), count));
            }
            None => return None,
        }
    }
    match either(reading.any, reading.last) {
        Known::Led(lead) => Some(lead),
        _ => None,
    }
}

/// What is known after the token at the front, and how many bytes it takes after its first.
fn next(reading: Reading, text: &[u8]) -> Option<(Reading, usize)>
    requires some { 0 < length text.now }
    requires no_blank { is_blank (slice_index text.now 0) ≡ false }
    ensures found { IfSome result (λ n. (whole : List ℕ) → IsRead reading whole text.now
        → IsRead n.0 whole (drop (1 + n.1) text.now)) }
    ensures bound { IfSome result (λ n. n.1 < length text.now) }
{
    let Ok((token, count)) = token_at(text) else {
        return None;
    };
    // Which bytes a buffer has changes neither the cursor nor the kind of effect, so any buffer does.
    let Ok((cursor, effect)) = step(reading.cursor, token, b"") else {
        return None;
    };
    let lead = asked(reading.cursor, token);
    Some((taken(reading, cursor, effect, lead), count))
}

/// What is known after a token, if each buffer that has what the token asks for has that lead.
fn taken(reading: Reading, cursor: Cursor, effect: Effect, lead: Option<Lead>) -> Reading
    ensures cursor { result.cursor ≡ cursor }
    ensures known { (e : spec.Effect) (any last : List ℕ → Bool) → effect_seen [] e ≡ effect
        → ((b : List ℕ) → effect_seen b e ≡ Has true → IsLed lead b) → IsKnown reading.any any
        → IsKnown reading.last last
        → IsKnown result.any (λ b. (state_taken (state reading.cursor (any b) (last b)) cursor
        (effect_seen b e)).any)
        × IsKnown result.last (λ b. (state_taken (state reading.cursor (any b) (last b)) cursor
        (effect_seen b e)).last) }
{
    match effect {
        Effect::Nothing => Reading { cursor, ..reading },
        Effect::Has(_) => Reading {
            cursor,
            any: reading.any,
            last: both(reading.last, lead),
        },
        Effect::Opens(_) => Reading {
            cursor,
            any: either(reading.any, reading.last),
            last: Known::Nothing,
        },
    }
}

/// What is known of the buffers that have both.
#[tactic(auto, using(crate::proofs::LeadLemmas::known_both, crate::proofs::LeadLemmas::known_lead))]
fn both(last: Known, lead: Option<Lead>) -> Known
    ensures { (f g : List ℕ → Bool) → IsKnown last f → ((b : List ℕ) → g b ≡ true → IsLed lead b)
        → IsKnown result (λ b. f b && g b) }
{
    match last {
        Known::Nothing => match lead {
            Some(lead) => Known::Led(lead),
            None => Known::Nothing,
        },
        other => other,
    }
}

/// What is known of the buffers of either kind.
#[tactic(auto, using(crate::proofs::LeadLemmas::known_other))]
fn either(one: Known, other: Known) -> Known
    ensures { (f g : List ℕ → Bool) → IsKnown one f → IsKnown other g
        → IsKnown result (λ b. f b || g b) }
{
    match one {
        Known::Never => other,
        Known::Nothing => Known::Nothing,
        Known::Led(lead) => either_led(lead, other),
    }
}

/// What is known of the buffers that have this lead, and of others.
fn either_led(lead: Lead, other: Known) -> Known
    ensures { (f g : List ℕ → Bool) → IsKnown (Led lead) f → IsKnown other g
        → IsKnown result (λ b. f b || g b) }
{
    match other {
        Known::Never => Known::Led(lead),
        Known::Nothing => Known::Nothing,
        Known::Led(more) => match merged(lead, more) {
            Some(merged) => Known::Led(merged),
            None => Known::Nothing,
        },
    }
}

/// What each buffer has that has one of the two.
#[tactic(auto, using(crate::proofs::LeadLemmas::merged_leads))]
fn merged(one: Lead, other: Lead) -> Option<Lead>
    ensures { (b : List ℕ) → IsTrue (has_part b (lead_part one) || has_part b (lead_part other))
        → IsLed result b }
{
    if one.place != other.place {
        return None;
    }
    let Some(bytes) = all(one.bytes, other.bytes) else {
        return None;
    };
    Some(Lead {
        place: one.place,
        bytes,
    })
}

/// The bytes of both, if they are at most four.
fn all(bytes: [u8; 4], others: [u8; 4]) -> Option<[u8; 4]>
    ensures { IfSome result (λ more. (x : ℕ)
        → IsTrue (allows (any_of bytes) x || allows (any_of others) x)
        → IsTrue (allows (any_of more) x)) }
{
    let [a, b, c, d] = others;
    let one = with(bytes, a)?;
    let two = with(one, b)?;
    let three = with(two, c)?;
    with(three, d)
}

/// The bytes and this one, if they are at most four.
fn with(bytes: [u8; 4], byte: u8) -> Option<[u8; 4]>
    ensures { IfSome result (λ more. (x : ℕ) → IsTrue (allows (any_of bytes) x || x == byte)
        → IsTrue (allows (any_of more) x)) }
{
    let [a, b, c, d] = bytes;
    if byte == a || byte == b || byte == c || byte == d {
        return Some(bytes);
    }
    if b == a {
        return Some([a, byte, c, d]);
    }
    if c == a || c == b {
        return Some([a, b, byte, d]);
    }
    if d == a || d == b || d == c {
        return Some([a, b, c, byte]);
    }
    None
}

/// What each buffer has that has what the token asks for.
#[tactic(auto, unfolding(crate::specs::Fixed::step))]
fn asked(cursor: Cursor, token: Token<'_>) -> Option<Lead>
    ensures { (b : List ℕ) (d : Cursor) (e : spec.Effect)
        → step cursor (token_listed token.entry) ≡ Some (d, e)
        → effect_seen b e ≡ Has true → IsLed result b }
{
    match cursor.wanted {
        Wanted::Bytes => piece_lead(cursor.place, token),
        Wanted::More => piece_lead(cursor.place, token),
        _ => None,
    }
}

/// [`asked`] of a token that asks for bytes at this place.
fn piece_lead(place: usize, token: Token<'_>) -> Option<Lead>
    ensures { (b : List ℕ) (least : ℕ) (d : Cursor) (e : spec.Effect)
        → piece least place (token_listed token.entry) ≡ Some (d, e)
        → effect_seen b e ≡ Has true → IsLed result b }
{
    match token {
        Token::Quoted(text) => text_lead(place, text),
        Token::Set(digits) => set_lead(place, digits),
        Token::Word(word) => word_lead(place, word),
        _ => None,
    }
}

/// What each buffer has that has the text at the place.
#[tactic(auto, using(crate::proofs::LeadLemmas::first_leads, crate::proofs::LeadLemmas::led_by))]
fn text_lead(place: usize, text: &[u8]) -> Option<Lead>
    ensures { (b : List ℕ) → IsTrue (has_part b (signature.text place text.now)) → IsLed result b }
{
    match text {
        [first, ..] => lead_at(place, [*first, *first, *first, *first]),
        [] => None,
    }
}

/// What each buffer has that has a byte of the set at the place.
#[tactic(auto, using(crate::proofs::LeadLemmas::byte_leads, crate::proofs::LeadLemmas::led_by))]
fn set_lead(place: usize, digits: &[u8]) -> Option<Lead>
    ensures { (b xs : List ℕ) → bytes_of digits.now ≡ Some xs
        → IsTrue (has_part b (signature.byte place (any_of xs))) → IsLed result b }
{
    match set_bytes(digits) {
        Some(bytes) => lead_at(place, bytes),
        None => None,
    }
}

/// The bytes that the text writes, if they are at least one and at most four.
fn set_bytes(text: &[u8]) -> Option<[u8; 4]>
    ensures { IfSome result (λ bytes. (xs : List ℕ) → bytes_of text.now ≡ Some xs
        → (x : ℕ) → IsTrue (allows (any_of xs) x) → IsTrue (allows (any_of bytes) x)) }
{
    let mut found = None;
    let mut first = None;
    for digit in text {
        match digit_read(found, first, *digit) {
            Some((more, half)) => {
                found = more;
                first = half;
            }
            None => return None,
        }
    }
    found
}

/// The bytes that are found with this digit more, and the digit of half a byte, if they are at most four.
fn digit_read(
    found: Option<[u8; 4]>,
    first: Option<u8>,
    digit: u8,
) -> Option<(Option<[u8; 4]>, Option<u8>)>
    ensures { IfSome result (λ n. (xs ys : List ℕ) → bytes_after first (digit ∷ ys) ≡ Some xs
        → (zs : List ℕ) × (bytes_after n.1 ys ≡ Some zs)
        × ((x : ℕ) → IsTrue (is_found found x || allows (any_of xs) x)
        → IsTrue (is_found n.0 x || allows (any_of zs) x))) }
{
    let Some(other) = first else {
        return Some((found, half_of(digit)));
    };
    let Some(byte) = byte_with(other, digit) else {
        return None;
    };
    match added(found, byte) {
        Some(more) => Some((Some(more), None)),
        None => None,
    }
}

/// The first digit of a byte, unless it is a blank.
#[tactic(auto, using(crate::proofs::LeadLemmas::blank_found, crate::proofs::LeadLemmas::half_found))]
fn half_of(digit: u8) -> Option<u8>
    ensures { (xs ys : List ℕ) → bytes_after None (digit ∷ ys) ≡ Some xs
        → bytes_after result ys ≡ Some xs }
{
    if is_blank(digit) { None } else { Some(digit) }
}

/// The bytes that were found, and this one, if they are at most four.
fn added(found: Option<[u8; 4]>, byte: u8) -> Option<[u8; 4]>
    ensures { IfSome result (λ more. (x : ℕ) → IsTrue (is_found found x || x == byte)
        → IsTrue (allows (any_of more) x)) }
{
    match found {
        Some(bytes) => with(bytes, byte),
        None => Some([byte, byte, byte, byte]),
    }
}

/// [`piece_lead`] of a bare word.
fn word_lead(place: usize, word: &[u8]) -> Option<Lead>
    ensures { (b : List ℕ) (least : ℕ) (d : Cursor) (e : spec.Effect)
        → word_part least place word.now (range_of word.now) ≡ Some (d, e)
        → effect_seen b e ≡ Has true → IsLed result b }
{
    match range(word) {
        Some((low, high)) => range_lead(place, low, high),
        None => match first_byte(word) {
            Some(first) => lead_at(place, [first, first, first, first]),
            None => None,
        },
    }
}

/// What each buffer has that has a byte of the range at the place.
#[tactic(auto, using(crate::proofs::LeadLemmas::byte_leads, crate::proofs::LeadLemmas::led_by))]
fn range_lead(place: usize, low: u8, high: u8) -> Option<Lead>
    ensures { (b : List ℕ) → IsTrue (has_part b (signature.byte place (between low high)))
        → IsLed result b }
{
    match all_between(low, high) {
        Some(bytes) => lead_at(place, bytes),
        None => None,
    }
}

/// The first of the bytes that the word writes.
#[tactic(auto, using(crate::proofs::LeadLemmas::first_of))]
fn first_byte(word: &[u8]) -> Option<u8>
    ensures { IfSome result (λ x. (bytes : List ℕ) → bytes_of word.now ≡ Some bytes
        → (more : List ℕ) × (bytes ≡ x ∷ more)) }
{
    match word {
        [a, b, ..] if !is_blank(*a) => byte_with(*a, *b),
        _ => None,
    }
}

/// The bytes from the first to the second, if they are at most four.
fn all_between(low: u8, high: u8) -> Option<[u8; 4]>
    ensures { IfSome result (λ bytes. (x : ℕ) → IsTrue (allows (between low high) x)
        → IsTrue (allows (any_of bytes) x)) }
{
    if high < low || high - low > 3 {
        return None;
    }
    let more = high - low;
    Some([low, low + more.min(1), low + more.min(2), high])
}

/// One of the bytes at the place, if a lead can say so.
fn lead_at(place: usize, bytes: [u8; 4]) -> Option<Lead>
    ensures { IfSome result (λ lead. lead_part lead ≡ signature.byte place (any_of bytes)) }
{
    if place > 0xFFFF_FFFF {
        return None;
    }
    Some(Lead {
        place: place as u32,
        bytes,
    })
}
