//! Texts as tokens write them: one between quotes, or pieces that are joined, as in `0A "v "`.
ghost use Rattle.std.specs.Prelude.{◌≡◌, ◌++◌, ◌∷◌, [], map, option_and_then, option_map, take};
ghost use Rattle.infer_notation.specs.Texts.{before_listed, added, in_room, joined_listed, parted_at, parted_listed, piece_of, pieces_of, text_before, text_in, text_listed};
ghost use Rattle.infer_notation.specs.Tokens.{token_listed};
ghost use Rattle.infer_notation.specs.Words.{bytes_of};

use crate::names::is_word;
use crate::words::{byte_with, is_blank};
use infer_formats::token::Token;
use infer_formats::token::Token::{Quoted, Word};

/// A text between quotes, or bytes that were joined.
#[derive(Clone, Copy)]
pub enum Text<'a> {
    Whole(&'a [u8]),
    Pieces(Joined),
}

/// How many bytes pieces have at most.
const ROOM: usize = 64;

/// Bytes that were joined: the first `count`.
#[derive(Clone, Copy)]
pub struct Joined {
    pub bytes: [u8; ROOM],
    pub count: usize,
}

impl Text<'_> {
    /// Its bytes.
    pub fn read(&self) -> &[u8]
        ensures { result.now ≡ text_listed self.now }
    {
        match self {
            Text::Whole(text) => text,
            Text::Pieces(joined) => front(&joined.bytes, joined.count),
        }
    }
}

/// The first bytes, or all if there are no more.
fn front(bytes: &[u8], count: usize) -> &[u8]
    ensures { result.now ≡ take count bytes.now }
{
    if count < bytes.len() {
        &bytes[..count]
    } else {
        bytes
    }
}

/// The text before the first of these words, and what stands after the word, if it is there.
pub fn text_before<'a, 'b>(
    word: &[u8],
    tokens: &'b [Token<'a>],
) -> Option<(Text<'a>, Option<&'b [Token<'a>]>)>
    ensures { option_map before_listed result ≡ text_before word.now (map token_listed tokens.now) }
{
    let (front, after) = parted(word, tokens);
    let text = read_text(front)?;
    Some((text, after))
}

/// The tokens before the first of these words, and those after it, if it is there.
fn parted<'a, 'b>(
    word: &[u8],
    tokens: &'b [Token<'a>],
) -> (&'b [Token<'a>], Option<&'b [Token<'a>]>)
    ensures { parted_listed result ≡ parted_at word.now (map token_listed tokens.now) }
{
    for at in 0..tokens.len() {
        if is_word(tokens[at], word) {
            return (&tokens[..at], Some(&tokens[at + 1..]));
        }
    }
    (tokens, None)
}

/// The text that the tokens write: one between quotes, or pieces of at most 64 bytes in all.
pub fn read_text<'a>(tokens: &[Token<'a>]) -> Option<Text<'a>>
    ensures { option_map text_listed result ≡ text_in (map token_listed tokens.now) }
{
    match tokens {
        [] => None,
        [Quoted(text)] => Some(Text::Whole(text)),
        _ => {
            let joined = join(tokens)?;
            Some(Text::Pieces(joined))
        }
    }
}

/// The pieces, one after the other.
fn join(tokens: &[Token<'_>]) -> Option<Joined>
    ensures { option_map joined_listed result ≡ option_and_then in_room (pieces_of (map token_listed tokens.now)) }
{
    let mut joined = Joined {
        bytes: [0; ROOM],
        count: 0,
    };
    for token in tokens {
        joined = with_piece(joined, *token)?;
    }
    Some(joined)
}

/// What was joined, and a piece after it.
fn with_piece(joined: Joined, token: Token<'_>) -> Option<Joined>
    ensures { option_map joined_listed result
        ≡ added (joined_listed joined) (piece_of (token_listed token.entry)) }
{
    match token {
        Quoted(text) => with_text(joined, text),
        Word(digits) => with_bytes(joined, digits),
        _ => None,
    }
}

/// And a text.
fn with_text(joined: Joined, text: &[u8]) -> Option<Joined>
    ensures { option_map joined_listed result ≡ in_room (joined_listed joined ++ text.now) }
{
    let mut joined = joined;
    for byte in text {
        joined = with_byte(joined, *byte)?;
    }
    Some(joined)
}

/// And the bytes that the digits write.
fn with_bytes(joined: Joined, digits: &[u8]) -> Option<Joined>
    ensures { option_map joined_listed result
        ≡ added (joined_listed joined) (bytes_of digits.now) }
{
    let mut joined = joined;
    let mut first = None;
    for digit in digits {
        match first {
            None => {
                if !is_blank(*digit) {
                    first = Some(*digit);
                }
            }
            Some(other) => {
                let byte = byte_with(other, *digit)?;
                joined = with_byte(joined, byte)?;
                first = None;
            }
        }
    }
    match first {
        None => Some(joined),
        Some(_) => None,
    }
}

/// And a byte.
fn with_byte(joined: Joined, byte: u8) -> Option<Joined>
    ensures { option_map joined_listed result ≡ in_room (joined_listed joined ++ byte ∷ []) }
{
    let mut joined = joined;
    if joined.count >= ROOM {
        return None;
    }
    joined.bytes[joined.count] = byte;
    joined.count += 1;
    Some(joined)
}
