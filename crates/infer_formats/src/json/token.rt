//! The tokens of JSON: strings, numbers and names, byte by byte.
ghost use Rattle.std.specs.Prelude.{◌↔◌, ◌∷◌, [], None, IsTrue, MatchOption};
ghost use Rattle.infer_formats.specs.Json.{BeginsToken, BeginsWhole, AfterBlanks, hex, IsStructural, range};
ghost use Rattle.infer_formats.specs.JsonStates.{Follows, left, NoToken, Starts};
ghost use Rattle.infer_formats.specs.declared.json.token.Token.TheVariants.{Chars, Escape, Minus, Zero, Integer, Fraction, Exponent, Power};

use super::lines::past_blanks;

/// Whether a whole token comes after white space.
#[tactic(auto, using(crate::proofs::LineLemmas::by_first, crate::proofs::TokenLemmas::no_token, crate::proofs::TokenLemmas::tokens_past))]
pub(super) fn has_token(buf: &[u8]) -> bool
    ensures { IsTrue result ↔ AfterBlanks BeginsToken buf.now }
{
    match past_blanks(buf) {
        [first, rest @ ..] => begins_token(*first, rest),
        [] => false,
    }
}

fn begins_token(first: u8, rest: &[u8]) -> bool
    ensures { IsTrue result ↔ BeginsToken (first ∷ rest.now) }
{
    if is_structural(first) {
        return true;
    }
    match value_token(first) {
        Some(token) => begins_whole(token, rest),
        None => false,
    }
}

/// Whether the token ends in these bytes.
fn begins_whole(token: Token, buf: &[u8]) -> bool
    ensures { IsTrue result ↔ BeginsWhole (left token) buf.now }
{
    let mut token = token;
    for i in 0..buf.len() {
        match token.after(buf[i]) {
            Step::Inside(next) => token = next,
            Step::Ended | Step::EndedBefore => return true,
            Step::Wrong => return false,
        }
    }
    false
}

fn is_structural(byte: u8) -> bool
    ensures { IsTrue result ↔ IsStructural byte }
{
    matches!(byte, b'[' | b']' | b'{' | b'}' | b':' | b',')
}

/// Where in a token the next byte stands.
#[derive(Clone, Copy)]
pub(super) enum Token {
    /// In a string, after a whole character or none.
    Chars,
    /// Behind a backslash.
    Escape,
    /// Behind `\u`, where four, three, two and one digits are due.
    Hex4,
    Hex3,
    Hex2,
    Hex1,
    /// In a character of which one, two or three bytes are due, the next of them any or as its first byte asks.
    Char1,
    Char2,
    Char3,
    CharE0,
    CharEd,
    CharF0,
    CharF4,
    /// In a name, by what was read of it.
    T,
    Tr,
    Tru,
    F,
    Fa,
    Fal,
    Fals,
    N,
    Nu,
    Nul,
    /// Behind the sign of a number, its zero, and the digits before its point.
    Minus,
    Zero,
    Integer,
    /// Behind the point of a number, and the digits there.
    Point,
    Fraction,
    /// Behind the E of a number, its sign, and the digits there.
    Exponent,
    Sign,
    Power,
}

/// What a byte makes of a token.
#[derive(Clone, Copy)]
pub(super) enum Step {
    /// The token goes on.
    Inside(Token),
    /// The byte is its last.
    Ended,
    /// It ended before the byte.
    EndedBefore,
    /// No token goes on so.
    Wrong,
}

impl Token {
    #[inline(always)]
    pub(super) fn after(self, byte: u8) -> Step
        ensures { Follows (left self) byte result }
    {
        match self {
            Token::Chars => after_char(byte),
            Token::Escape => after_escape(byte),
            Token::Hex4 => after_hex(byte, Token::Hex3),
            Token::Hex3 => after_hex(byte, Token::Hex2),
            Token::Hex2 => after_hex(byte, Token::Hex1),
            Token::Hex1 => after_hex(byte, Token::Chars),
            Token::Char1 => within(byte, 0x80, 0xBF, Token::Chars),
            Token::Char2 => within(byte, 0x80, 0xBF, Token::Char1),
            Token::Char3 => within(byte, 0x80, 0xBF, Token::Char2),
            Token::CharE0 => within(byte, 0xA0, 0xBF, Token::Char1),
            Token::CharEd => within(byte, 0x80, 0x9F, Token::Char1),
            Token::CharF0 => within(byte, 0x90, 0xBF, Token::Char2),
            Token::CharF4 => within(byte, 0x80, 0x8F, Token::Char2),
            Token::T => within(byte, b'r', b'r', Token::Tr),
            Token::Tr => within(byte, b'u', b'u', Token::Tru),
            Token::Tru => last(byte, b'e'),
            Token::F => within(byte, b'a', b'a', Token::Fa),
            Token::Fa => within(byte, b'l', b'l', Token::Fal),
            Token::Fal => within(byte, b's', b's', Token::Fals),
            Token::Fals => last(byte, b'e'),
            Token::N => within(byte, b'u', b'u', Token::Nu),
            Token::Nu => within(byte, b'l', b'l', Token::Nul),
            Token::Nul => last(byte, b'l'),
            Token::Minus => after_minus(byte),
            Token::Zero => after_zero(byte),
            Token::Integer => after_integer(byte),
            Token::Point => within(byte, b'0', b'9', Token::Fraction),
            Token::Fraction => after_fraction(byte),
            Token::Exponent => after_exponent(byte),
            Token::Sign => within(byte, b'0', b'9', Token::Power),
            Token::Power => after_power(byte),
        }
    }
}

#[tactic(auto, using(crate::proofs::JsonLemmas::range_begins))]
#[inline(always)]
fn within(byte: u8, least: u8, most: u8, next: Token) -> Step
    ensures { Follows (range least most ∷ left next) byte result }
{
    if byte >= least && byte <= most {
        Step::Inside(next)
    } else {
        Step::Wrong
    }
}

#[tactic(auto, using(crate::proofs::JsonLemmas::range_begins))]
#[inline(always)]
fn last(byte: u8, letter: u8) -> Step
    ensures { Follows (range letter letter ∷ []) byte result }
{
    if byte == letter {
        Step::Ended
    } else {
        Step::Wrong
    }
}

#[tactic(auto, using(crate::proofs::JsonLemmas::chars_begin))]
#[inline(always)]
pub(super) fn after_char(byte: u8) -> Step
    ensures { Follows (left Chars) byte result }
{
    // Most bytes first.
    if byte > b'\\' && byte < 0x80 {
        return Step::Inside(Token::Chars);
    }
    if byte == b'"' {
        return Step::Ended;
    }
    match byte {
        b'\\' => Step::Inside(Token::Escape),
        0x20..=0x7F => Step::Inside(Token::Chars),
        0xC2..=0xDF => Step::Inside(Token::Char1),
        0xE0 => Step::Inside(Token::CharE0),
        0xED => Step::Inside(Token::CharEd),
        0xE1..=0xEF => Step::Inside(Token::Char2),
        0xF0 => Step::Inside(Token::CharF0),
        0xF1..=0xF3 => Step::Inside(Token::Char3),
        0xF4 => Step::Inside(Token::CharF4),
        _ => Step::Wrong,
    }
}

#[tactic(auto, using(crate::proofs::JsonLemmas::escape_begins))]
fn after_escape(byte: u8) -> Step
    ensures { Follows (left Escape) byte result }
{
    match byte {
        b'"' | b'\\' | b'/' | b'b' | b'f' | b'n' | b'r' | b't' => Step::Inside(Token::Chars),
        b'u' => Step::Inside(Token::Hex4),
        _ => Step::Wrong,
    }
}

#[tactic(auto, using(crate::proofs::JsonLemmas::hex_begins))]
fn after_hex(byte: u8, next: Token) -> Step
    ensures { Follows (hex ∷ left next) byte result }
{
    match byte {
        b'0'..=b'9' | b'A'..=b'F' | b'a'..=b'f' => Step::Inside(next),
        _ => Step::Wrong,
    }
}

#[tactic(auto, using(crate::proofs::JsonLemmas::integer_begins))]
fn after_minus(byte: u8) -> Step
    ensures { Follows (left Minus) byte result }
{
    match byte {
        b'0' => Step::Inside(Token::Zero),
        b'1'..=b'9' => Step::Inside(Token::Integer),
        _ => Step::Wrong,
    }
}

#[tactic(auto, using(crate::proofs::JsonLemmas::fraction_begins, crate::proofs::JsonLemmas::exponent_begins, crate::proofs::JsonLemmas::range_begins))]
#[inline(always)]
fn after_zero(byte: u8) -> Step
    ensures { Follows (left Zero) byte result }
{
    match byte {
        b'.' => Step::Inside(Token::Point),
        b'e' | b'E' => Step::Inside(Token::Exponent),
        _ => Step::EndedBefore,
    }
}

#[tactic(auto, using(crate::proofs::JsonLemmas::digits_begin, crate::proofs::JsonLemmas::fraction_begins, crate::proofs::JsonLemmas::exponent_begins, crate::proofs::JsonLemmas::range_begins))]
#[inline(always)]
pub(super) fn after_integer(byte: u8) -> Step
    ensures { Follows (left Integer) byte result }
{
    match byte {
        b'0'..=b'9' => Step::Inside(Token::Integer),
        b'.' => Step::Inside(Token::Point),
        b'e' | b'E' => Step::Inside(Token::Exponent),
        _ => Step::EndedBefore,
    }
}

#[tactic(auto, using(crate::proofs::JsonLemmas::digits_begin, crate::proofs::JsonLemmas::exponent_begins, crate::proofs::JsonLemmas::range_begins))]
#[inline(always)]
fn after_fraction(byte: u8) -> Step
    ensures { Follows (left Fraction) byte result }
{
    match byte {
        b'0'..=b'9' => Step::Inside(Token::Fraction),
        b'e' | b'E' => Step::Inside(Token::Exponent),
        _ => Step::EndedBefore,
    }
}

#[tactic(auto, using(crate::proofs::JsonLemmas::power_begins))]
fn after_exponent(byte: u8) -> Step
    ensures { Follows (left Exponent) byte result }
{
    match byte {
        b'+' | b'-' => Step::Inside(Token::Sign),
        b'0'..=b'9' => Step::Inside(Token::Power),
        _ => Step::Wrong,
    }
}

#[tactic(auto, using(crate::proofs::JsonLemmas::digits_begin, crate::proofs::JsonLemmas::range_begins))]
fn after_power(byte: u8) -> Step
    ensures { Follows (left Power) byte result }
{
    match byte {
        b'0'..=b'9' => Step::Inside(Token::Power),
        _ => Step::EndedBefore,
    }
}

/// The token of a value that begins with this byte, if it's no bracket.
#[tactic(auto, using(crate::proofs::JsonLemmas::value_begins))]
#[inline(always)]
pub(super) fn value_token(byte: u8) -> Option<Token>
    ensures { MatchOption result (NoToken byte) (Starts byte) }
{
    match byte {
        b'"' => Some(Token::Chars),
        b'-' => Some(Token::Minus),
        b'0' => Some(Token::Zero),
        b'1'..=b'9' => Some(Token::Integer),
        b't' => Some(Token::T),
        b'f' => Some(Token::F),
        b'n' => Some(Token::N),
        _ => None,
    }
}
