//! Comparisons with texts of a stated length, which compile to comparisons of words.
ghost use Rattle.std.specs.Prelude.{◌≡◌, ◌<◌, ◌≤◌, ◌+◌, length};
ghost use Rattle.std.specs.List.{list_any};
ghost use Rattle.infer_sig.specs.Signature.{stands};

use infer_deep::places::same_at;

/// Whether `text` stands in `buf` from `place` on.
#[tactic(auto, using(crate::proofs::PlaceLemmas::stands_by_place))]
pub fn matches_at<const N: usize>(buf: &[u8], text: &[u8; N], place: usize) -> bool
    requires { place + N ≤ length buf.now }
    ensures { result ≡ stands place text.now buf.now }
{
    same_at(buf, text, place)
}

/// Whether one of the texts stands in `buf` from `place` on.
pub fn any_matches_at<const N: usize>(buf: &[u8], texts: &[[u8; N]], place: usize) -> bool
    requires { place + N ≤ length buf.now }
    ensures { result ≡ list_any (λ t. stands place t buf.now) texts.now }
{
    // No early exit: of texts whose number is known the compiler makes vectors.
    let mut any = false;
    for text in texts {
        any |= matches_at(buf, text, place);
    }
    any
}
