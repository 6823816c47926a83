//! The number of bytes to look at, as a word.
ghost use Rattle.std.specs.Prelude.{◌≡◌, ◌↔◌, ℕ, IsTrue, MatchOption, slice_index};
ghost use Rattle.infer_lines.specs.Limit.{IsLimit, limit_in};

const MOST: usize = 65536;

/// The number that the word writes with decimal digits alone, if it is from 1 to 65536, and `None` for every other
/// word.
pub fn limit_of(word: &str) -> Option<usize>
    ensures { MatchOption result ((n : ℕ) → ¬ IsLimit word.now n) (λ n. IsLimit word.now n) }
{
    if has_plus(word) {
        return None;
    }
    match word.parse::<usize>() {
        Ok(n) if n >= 1 && n <= MOST => Some(n),
        _ => None,
    }
}

/// [`limit_of`] of a word that may have any bytes.
pub fn limit_in(word: &[u8]) -> Option<usize>
    ensures { result ≡ limit_in word.now }
{
    match str::from_utf8(word) {
        Ok(text) => limit_of(text),
        Err(_) => None,
    }
}

/// Whether the word begins with a plus, after which a number may be parsed too.
fn has_plus(word: &str) -> bool
    ensures { IsTrue result ↔ (slice_index word.now 0 ≡ 0x2B) }
{
    match word.as_bytes().first() {
        Some(byte) => *byte == b'+',
        None => false,
    }
}
