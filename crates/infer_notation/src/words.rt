//! Blanks, numbers and bytes in hexadecimal digits.
ghost use Rattle.std.specs.Prelude.{◌≡◌, ◌<◌, ◌≤◌, ◌==◌, ◌∷◌, ◌+◌, ◌-◌, ◌^◌, ℕ, List, IfErr, IfSome, drop, false, length, option_map, slice_index};
ghost use Rattle.infer_notation.specs.Words.{after_blanks, after_word, byte_of, byte_with, bytes_of, first_passes, found_by, hex_joined, hex_seen, hex_value, is_blank, is_digit, number_after, number_of, word, word_len};

use crate::reason::Reason;

/// What a buffer makes of bytes in hexadecimal digits: how many they are, whether it begins with them, and whether its
/// first byte is among them.
#[derive(Clone, Copy)]
pub struct Hex {
    pub count: usize,
    pub stands: bool,
    pub has: bool,
}

/// Whether the byte is a space, a tab or 0D.
pub fn is_blank(byte: u8) -> bool
    ensures { result ≡ is_blank byte }
{
    // Most bytes are decided by one comparison.
    byte <= b' ' && (byte == b' ' || byte == b'\t' || byte == b'\r')
}

/// What follows the blanks at the front.
pub fn skip_blanks(text: &[u8]) -> &[u8]
    ensures value { result.now ≡ after_blanks text.now }
    ensures fits { length result.now ≤ length text.now }
    ensures ends { 0 < length result.now → is_blank (slice_index result.now 0) ≡ false }
{
    for at in 0..text.len() {
        if !is_blank(text[at]) {
            return &text[at..];
        }
    }
    &[]
}

/// The bytes up to the first blank, and what follows the blanks after them.
#[tactic(auto, unfolding(crate::specs::Words::word, crate::specs::Words::after_word))]
pub fn split_word(text: &[u8]) -> (&[u8], &[u8])
    ensures word { result.0.now ≡ word text.now }
    ensures after { result.1.now ≡ after_word text.now }
    ensures fits { length result.1.now ≤ length text.now }
{
    let (word, after) = text.split_at(word_len(text));
    (word, skip_blanks(after))
}

/// How many bytes there are up to the first blank.
fn word_len(text: &[u8]) -> usize
    ensures value { result ≡ word_len text.now }
    ensures bound { result ≤ length text.now }
{
    for at in 0..text.len() {
        if is_blank(text[at]) {
            return at;
        }
    }
    text.len()
}

/// Whether the byte is a decimal digit.
fn is_digit(byte: u8) -> bool
    ensures { result ≡ is_digit byte }
{
    byte >= b'0' && byte <= b'9'
}

/// The number with these decimal digits.
pub fn number(digits: &[u8]) -> Result<usize, Reason>
    ensures value { found_by result ≡ number_of digits.now }
    ensures bound { IfSome (found_by result) (λ n. n < 1_000_000_000) }
{
    if digits.is_empty() {
        return Err(Reason::Length);
    }
    let mut n = 0;
    for digit in digits {
        if !is_digit(*digit) || n >= 100_000_000 {
            return Err(Reason::Length);
        }
        n = 10 * n + (*digit - b'0') as usize;
    }
    Ok(n)
}

/// The value of a hexadecimal digit.
pub fn hex_value(digit: u8) -> Option<u8>
    ensures value { result ≡ hex_value digit }
    ensures bound { IfSome result (λ x. x < 16) }
{
    match digit {
        b'0'..=b'9' => Some(digit - b'0'),
        b'A'..=b'F' => Some(digit - (b'A' - 10)),
        b'a'..=b'f' => Some(digit - (b'a' - 10)),
        _ => None,
    }
}

/// The byte with these two hexadecimal digits.
pub fn byte_with(first: u8, second: u8) -> Option<u8>
    ensures { result ≡ byte_with first second }
{
    let high = hex_value(first)?;
    let low = hex_value(second)?;
    Some(16 * high + low)
}

/// The byte that the text writes in hexadecimal digits.
pub fn byte(text: &[u8]) -> Option<u8>
    ensures { result ≡ byte_of text.now }
{
    match text {
        [first, second] => byte_with(*first, *second),
        _ => None,
    }
}

/// What the buffer makes of the bytes that the text writes.
pub fn bytes(text: &[u8], buf: &[u8]) -> Result<Hex, Reason>
    ensures found { found_by result ≡ option_map (hex_seen buf.now) (bytes_of text.now) }
    ensures kind { IfErr result (λ reason. reason ≡ Reason.Digits) }
{
    let mut read = Hex {
        count: 0,
        stands: true,
        has: false,
    };
    let mut left = buf;
    let mut first = None;
    for digit in text {
        match first {
            None => {
                if !is_blank(*digit) {
                    first = Some(*digit);
                }
            }
            Some(other) => {
                let Some(byte) = byte_with(other, *digit) else {
                    return Err(Reason::Digits);
                };
                read = with_byte(read, byte, left, buf);
                left = after_first(left);
                first = None;
            }
        }
    }
    match first {
        None => Ok(read),
        Some(_) => Err(Reason::Digits),
    }
}

/// What was read, and a byte more.
#[tactic(auto, using(crate::proofs::HexLemmas::joined_next))]
fn with_byte(read: Hex, byte: u8, left: &[u8], buf: &[u8]) -> Hex
    requires { read.count < 2 ^ 64 - 1 }
    ensures count { result.count ≡ read.count + 1 }
    ensures joined { (xs : List ℕ) → hex_joined result (drop 1 left.now) buf.now xs
        ≡ hex_joined read left.now buf.now (byte ∷ xs) }
{
    Hex {
        count: read.count + 1,
        stands: read.stands && begins_with(left, byte),
        has: read.has || begins_with(buf, byte),
    }
}

/// Whether this is the first byte.
fn begins_with(buf: &[u8], byte: u8) -> bool
    ensures { result ≡ first_passes (λ x. byte == x) buf.now }
{
    match buf {
        [first, ..] => byte == *first,
        [] => false,
    }
}

/// All but the first byte.
pub(crate) fn after_first(buf: &[u8]) -> &[u8]
    ensures { result.now ≡ drop 1 buf.now }
{
    match buf {
        [_, after @ ..] => after,
        [] => buf,
    }
}

/// What stands in the buffer from the place on.
pub(crate) fn rest_at(buf: &[u8], place: usize) -> &[u8]
    ensures { result.now ≡ drop place buf.now }
{
    if place < buf.len() {
        &buf[place..]
    } else {
        &[]
    }
}
