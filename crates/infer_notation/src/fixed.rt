//! Fixed signatures as a text writes them, as in `14: @0 "qoif" or 8: @4 {01 02}, @6 00..1F`.
ghost use Rattle.std.specs.Prelude.{◌≡◌, [], IfErr, codes, false, option_map};
ghost use Rattle.std.specs.List.{starts_with};
ghost use Rattle.infer_sig.specs.Signature as signature;
ghost use Rattle.infer_sig.specs.Signature.{all_but, between, has_part};
ghost use Rattle.infer_notation.specs.Fixed.{asks_binary, after_separator, after_word_of, cursor, has_data, length_read, more_read, nothing, other_byte, piece, place_read, range_of, set_read, step, step_seen, within_seen, word_part};
ghost use Rattle.infer_notation.specs.Reasons.{is_of_token};
ghost use Rattle.infer_notation.specs.Tokens.{token_listed};
ghost use Rattle.infer_notation.specs.declared.fixed.Wanted.TheVariants.{Length, Or};
ghost use Rattle.infer_notation.specs.Words.{found_by};

use crate::reason::Reason;
use crate::words::{byte, byte_with, bytes, number, rest_at};
use infer_formats::text::is_binary;
use infer_formats::token::Token;

/// What has to come next.
#[derive(Clone, Copy)]
pub enum Wanted {
    /// The least length of an alternative.
    Length,
    /// The colon after it.
    Colon,
    /// "@".
    At,
    /// The place after it.
    Place,
    /// Bytes.
    Bytes,
    /// More of the signature, or its end.
    More,
    /// The byte after "not".
    Byte,
    /// "binary", after "and".
    Binary,
    /// "or", or the end of the signature.
    Or,
}

/// How far a signature was read: what has to come next, the least length of the alternative, and the place of the next
/// bytes.
#[derive(Clone, Copy)]
pub struct Cursor {
    pub wanted: Wanted,
    pub least: usize,
    pub place: usize,
}

/// What a token adds to what a buffer has: nothing, whether it has a further part, or a further alternative, and whether
/// the buffer has its least length.
#[derive(Clone, Copy)]
pub enum Effect {
    Nothing,
    Has(bool),
    Opens(bool),
}

/// Where the reading goes on after the token, and what it adds for the buffer.
#[tactic(auto, unfolding(crate::specs::Fixed::step))]
pub fn step(cursor: Cursor, token: Token<'_>, buf: &[u8]) -> Result<(Cursor, Effect), Reason>
    ensures found { found_by result ≡ option_map (step_seen buf.now)
        (step cursor (token_listed token.entry)) }
    ensures kind { IfErr result (λ reason. is_of_token reason ≡ false) }
{
    match cursor.wanted {
        Wanted::Length => length_read(token, buf),
        Wanted::Colon => after_separator(b':', Wanted::At, cursor, token, Reason::Length),
        Wanted::At => after_separator(b'@', Wanted::Place, cursor, token, Reason::Place),
        Wanted::Place => place_read(cursor, token),
        Wanted::Bytes => piece(cursor, token, buf),
        Wanted::More => more_read(cursor, token, buf),
        Wanted::Byte => other_byte(cursor, token, buf),
        Wanted::Binary => binary_read(token, buf),
        Wanted::Or => or_read(token),
    }
}

/// What follows on "binary".
fn binary_read(token: Token<'_>, buf: &[u8]) -> Result<(Cursor, Effect), Reason>
    ensures found { found_by result ≡ option_map (step_seen buf.now)
        (after_word_of (codes "binary") (cursor Or 0 0) asks_binary (token_listed token.entry)) }
    ensures kind { IfErr result (λ reason. is_of_token reason ≡ false) }
{
    match token {
        Token::Word(word) if word == b"binary".as_slice() => Ok((
            Cursor {
                wanted: Wanted::Or,
                least: 0,
                place: 0,
            },
            Effect::Has(has_data(buf)),
        )),
        _ => Err(Reason::Binary),
    }
}

/// Whether a byte of the buffer is one of binary data.
#[tactic(auto, using(std::proofs::lemmas::Bool::Decides::same_from_decides, crate::proofs::SeenLemmas::data_is))]
fn has_data(buf: &[u8]) -> bool
    ensures { result ≡ has_data buf.now }
{
    is_binary(buf)
}

/// What follows on "or".
fn or_read(token: Token<'_>) -> Result<(Cursor, Effect), Reason>
    ensures found { found_by result ≡ option_map (step_seen [])
        (after_word_of (codes "or") (cursor Length 0 0) nothing (token_listed token.entry)) }
    ensures kind { IfErr result (λ reason. is_of_token reason ≡ false) }
{
    match token {
        Token::Word(word) if word == b"or".as_slice() => Ok((
            Cursor {
                wanted: Wanted::Length,
                least: 0,
                place: 0,
            },
            Effect::Nothing,
        )),
        _ => Err(Reason::Binary),
    }
}

fn length_read(token: Token<'_>, buf: &[u8]) -> Result<(Cursor, Effect), Reason>
    ensures found { found_by result ≡ option_map (step_seen buf.now)
        (length_read (token_listed token.entry)) }
    ensures kind { IfErr result (λ reason. is_of_token reason ≡ false) }
{
    match token {
        Token::Word(word) => match number(word) {
            Ok(least) => Ok((
                Cursor {
                    wanted: Wanted::Colon,
                    least,
                    place: 0,
                },
                Effect::Opens(least <= buf.len()),
            )),
            Err(_) => Err(Reason::Length),
        },
        _ => Err(Reason::Length),
    }
}

/// What follows on a separator that is wanted.
fn after_separator(
    separator: u8,
    wanted: Wanted,
    cursor: Cursor,
    token: Token<'_>,
    reason: Reason,
) -> Result<(Cursor, Effect), Reason>
    ensures found { found_by result ≡ option_map (step_seen [])
        (after_separator separator wanted cursor.least cursor.place (token_listed token.entry)) }
    ensures kind { IfErr result (λ given. given ≡ reason) }
{
    match token {
        Token::Separator(other) if other == separator => Ok((
            Cursor { wanted, ..cursor },
            Effect::Nothing,
        )),
        _ => Err(reason),
    }
}

fn place_read(cursor: Cursor, token: Token<'_>) -> Result<(Cursor, Effect), Reason>
    ensures found { found_by result ≡ option_map (step_seen [])
        (place_read cursor.least cursor.place (token_listed token.entry)) }
    ensures kind { IfErr result (λ reason. is_of_token reason ≡ false) }
{
    let Token::Word(word) = token else {
        return Err(Reason::Place);
    };
    match number(word) {
        Ok(place) => {
            if place < cursor.place {
                return Err(Reason::Overlap);
            }
            Ok((
                Cursor {
                    wanted: Wanted::Bytes,
                    least: cursor.least,
                    place,
                },
                Effect::Nothing,
            ))
        }
        Err(_) => Err(Reason::Place),
    }
}

fn more_read(cursor: Cursor, token: Token<'_>, buf: &[u8]) -> Result<(Cursor, Effect), Reason>
    ensures found { found_by result ≡ option_map (step_seen buf.now)
        (more_read cursor.least cursor.place (token_listed token.entry)) }
    ensures kind { IfErr result (λ reason. is_of_token reason ≡ false) }
{
    match token {
        Token::Separator(_) => after_separator(b',', Wanted::At, cursor, token, Reason::Bytes),
        Token::Word(word) if word == b"or".as_slice() => or_read(token),
        Token::Word(word) if word == b"and".as_slice() => Ok((
            Cursor {
                wanted: Wanted::Binary,
                ..cursor
            },
            Effect::Nothing,
        )),
        _ => piece(cursor, token, buf),
    }
}

fn other_byte(cursor: Cursor, token: Token<'_>, buf: &[u8]) -> Result<(Cursor, Effect), Reason>
    ensures found { found_by result ≡ option_map (step_seen buf.now)
        (other_byte cursor.least cursor.place (token_listed token.entry)) }
    ensures kind { IfErr result (λ reason. is_of_token reason ≡ false) }
{
    let Token::Word(word) = token else {
        return Err(Reason::Bytes);
    };
    match byte(word) {
        Some(other) => within(cursor, 1, has_other(buf, cursor.place, other)),
        None => Err(Reason::Digits),
    }
}

/// What a token asks for at the place.
fn piece(cursor: Cursor, token: Token<'_>, buf: &[u8]) -> Result<(Cursor, Effect), Reason>
    ensures found { found_by result ≡ option_map (step_seen buf.now)
        (piece cursor.least cursor.place (token_listed token.entry)) }
    ensures kind { IfErr result (λ reason. is_of_token reason ≡ false) }
{
    match token {
        Token::Quoted(text) => within(cursor, text.len(), has_text(buf, cursor.place, text)),
        Token::Set(digits) => set_read(cursor, digits, buf),
        Token::Separator(_) => Err(Reason::Bytes),
        Token::Word(word) if word == b"not".as_slice() => Ok((
            Cursor {
                wanted: Wanted::Byte,
                ..cursor
            },
            Effect::Nothing,
        )),
        Token::Word(word) => word_part(cursor, word, buf),
    }
}

/// One of the bytes of a set.
fn set_read(cursor: Cursor, digits: &[u8], buf: &[u8]) -> Result<(Cursor, Effect), Reason>
    ensures found { found_by result ≡ option_map (step_seen buf.now)
        (set_read cursor.least cursor.place digits.now) }
    ensures kind { IfErr result (λ reason. is_of_token reason ≡ false) }
{
    let read = bytes(digits, rest_at(buf, cursor.place))?;
    if read.count == 0 {
        return Err(Reason::Bytes);
    }
    within(cursor, 1, read.has)
}

/// The bytes that a bare word writes, or one of a range.
fn word_part(cursor: Cursor, word: &[u8], buf: &[u8]) -> Result<(Cursor, Effect), Reason>
    ensures found { found_by result ≡ option_map (step_seen buf.now)
        (word_part cursor.least cursor.place word.now (range_of word.now)) }
    ensures kind { IfErr result (λ reason. is_of_token reason ≡ false) }
{
    match range(word) {
        Some((low, high)) => {
            if high < low {
                return Err(Reason::Range);
            }
            within(cursor, 1, has_between(buf, cursor.place, low, high))
        }
        None => {
            let read = bytes(word, rest_at(buf, cursor.place))?;
            within(cursor, read.count, read.stands)
        }
    }
}

/// The bytes from the first one of two up to the second one.
pub fn range(word: &[u8]) -> Option<(u8, u8)>
    ensures { result ≡ range_of word.now }
{
    match word {
        [a, b, b'.', b'.', c, d] => {
            let low = byte_with(*a, *b)?;
            let high = byte_with(*c, *d)?;
            Some((low, high))
        }
        _ => None,
    }
}

/// A part of that many bytes, all of them within the least length.
fn within(cursor: Cursor, size: usize, has: bool) -> Result<(Cursor, Effect), Reason>
    ensures found { found_by result ≡ within_seen cursor.least cursor.place size has }
    ensures kind { IfErr result (λ reason. is_of_token reason ≡ false) }
{
    if cursor.place > cursor.least || size > cursor.least - cursor.place {
        return Err(Reason::Past);
    }
    Ok((
        Cursor {
            wanted: Wanted::More,
            least: cursor.least,
            place: cursor.place + size,
        },
        Effect::Has(has),
    ))
}

/// Whether the text stands in the buffer from the place on.
#[tactic(auto, unfolding(infer_sig::specs::Signature::stands))]
fn has_text(buf: &[u8], place: usize, text: &[u8]) -> bool
    ensures { result ≡ has_part buf.now (signature.text place text.now) }
{
    rest_at(buf, place).starts_with(text)
}

/// Whether a byte from `low` up to `high` stands at the place.
fn has_between(buf: &[u8], place: usize, low: u8, high: u8) -> bool
    ensures { result ≡ has_part buf.now (signature.byte place (between low high)) }
{
    match buf.get(place) {
        Some(byte) => low <= *byte && *byte <= high,
        None => false,
    }
}

/// Whether any byte but this one stands at the place.
fn has_other(buf: &[u8], place: usize, other: u8) -> bool
    ensures { result ≡ has_part buf.now (signature.byte place (all_but other)) }
{
    match buf.get(place) {
        Some(byte) => *byte != other,
        None => false,
    }
}
