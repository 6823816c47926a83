//! Texts by what they begin with. The byte order mark that may stand before it is that of UTF-8: RFC 3629, section 6.
ghost use Rattle.std.specs.Prelude.{◌↔◌, ℕ, IsTrue};
ghost use Rattle.memchr.specs.Find.{OccursAt};
ghost use Rattle.infer_formats.specs.Begins.{Begins, BeginsAndHas, BeginsAndHasAll};

mod may_become;

use crate::search::find_early;
use infer_deep::places::stands_at;
pub use may_become::may_begin;

/// The byte order mark of UTF-8.
const MARK: &[u8; 3] = b"\xEF\xBB\xBF";

/// The text stands first, or after a byte order mark.
pub fn begins(buf: &[u8], text: &[u8]) -> bool
    ensures { IsTrue result ↔ Begins text.now buf.now }
{
    stands_at(buf, text, 0) || stands_at(buf, MARK, 0) && stands_at(buf, text, MARK.len())
}

/// The first text stands so, and the second anywhere.
pub fn begins_and_has(buf: &[u8], text: &[u8], other: &[u8]) -> bool
    ensures { IsTrue result ↔ BeginsAndHas text.now other.now buf.now }
{
    begins(buf, text) && has(buf, other)
}

/// The first text stands so, and each of the others anywhere.
pub fn begins_and_has_all(buf: &[u8], text: &[u8], u: &[u8], v: &[u8], w: &[u8]) -> bool
    ensures { IsTrue result ↔ BeginsAndHasAll text.now u.now v.now w.now buf.now }
{
    begins(buf, text) && has(buf, u) && has(buf, v) && (w.is_empty() || has(buf, w))
}

#[tactic(auto, using(crate::proofs::BeginsLemmas::finds_somewhere))]
fn has(buf: &[u8], text: &[u8]) -> bool
    ensures { IsTrue result ↔ ((p : ℕ) × OccursAt buf.now text.now p) }
{
    find_early(buf, text).is_some()
}
