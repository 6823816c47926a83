//! The lines of a text.
ghost use Rattle.std.specs.Prelude.{◌≡◌, ◌∷◌, ◌<◌, [], MatchOption, length};
ghost use Rattle.infer_more.specs.Text.{lines_of};

use memchr::memchr;

/// The first line, and what follows its end, if it has one.
pub fn next_line(text: &[u8]) -> (&[u8], Option<&[u8]>)
    ensures { MatchOption result.1 (lines_of text.now ≡ result.0.now ∷ [])
        (λ rest. (lines_of text.now ≡ result.0.now ∷ lines_of rest.now)
        × (length rest.now < length text.now)) }
{
    match memchr(b'\n', text) {
        Some(end) => (&text[..end], Some(&text[end + 1..])),
        None => (text, None),
    }
}
