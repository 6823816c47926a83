//! The bytes of a buffer by which a text stands in its front, or stands nowhere there.
ghost use Rattle.std.specs.Prelude.{◌≡◌, ◌≢◌, ◌+◌, ◌-◌, ◌<◌, ◌≤◌, ℕ, List, IfSome, IsTrue, None, length, max, slice_index};
ghost use Rattle.infer_deep.specs.Windows.{StandsBy};
ghost use Rattle.infer_evidence.specs.Evidence.{AgreesOn, IsInside, IsOf, IsSame};
ghost use Rattle.infer_evidence.specs.Searched.{IsHit, StandsNowhereBy};
ghost use Rattle.infer_evidence.specs.declared.search.TheConstants.{MOST_OF_A_SEARCH};
ghost use Rattle.memchr.specs.Find.{OccursAt};

use crate::ranges::{Evidence, Range};
use crate::weighing::difference;
use infer_deep::places::stands_at;

/// For how many ranges a search asks at most.
pub const MOST_OF_A_SEARCH: usize = 24;

/// A text, and where it has to end at the latest.
#[derive(Clone, Copy)]
pub struct Search {
    pub text: &'static [u8],
    pub end: usize,
}

/// The place of a byte by which a text stands at none of some places. `next` is the first place after them.
#[derive(Clone, Copy)]
pub struct Hit {
    place: usize,
    next: usize,
}

/// Whether the byte at `place` is none that the text has there if it stands at `start` or after.
#[inline(always)]
fn is_foreign(text: &[u8], buf: &[u8], start: usize, place: usize) -> bool
    requires here { place < length buf.now }
    requires low { start ≤ place }
    requires high { place < start + length text.now }
    ensures { IsTrue result → IsHit text.now buf.now start (record { place = place; next = place + 1 }) }
{
    !text[..=place - start].contains(&buf[place])
}

/// The last byte which alone shows that the text stands at none of the places from `start` to it.
#[inline(always)]
fn last_foreign(text: &[u8], buf: &[u8], start: usize) -> Option<Hit>
    requires { start + length text.now ≤ length buf.now }
    ensures { IfSome result (IsHit text.now buf.now start) }
{
    for after in 0..text.len() {
        let place = start + (text.len() - 1 - after);
        if is_foreign(text, buf, start, place) {
            return Some(Hit {
                place,
                next: place + 1,
            });
        }
    }
    None
}

/// The byte by which the text stands at none of the most places from `start` on. There is one unless it stands there.
#[inline(always)]
fn hit_from(text: &[u8], buf: &[u8], start: usize) -> Option<Hit>
    requires { start + length text.now ≤ length buf.now }
    ensures some { IfSome result (IsHit text.now buf.now start) }
    ensures none { result ≡ None → OccursAt buf.now text.now start }
{
    if let Some(hit) = last_foreign(text, buf, start) {
        return Some(hit);
    }
    let place = difference(buf, text, start)?;
    Some(Hit {
        place,
        next: start + 1,
    })
}

/// Asks for bytes by which the text stands nowhere in the first `end` bytes: for as many ranges as make `most` in all, the
/// last of which may have all that is left.
#[inline(always)]
fn refuse_everywhere(
    search: &Search,
    end: usize,
    buf: &[u8],
    row: Option<usize>,
    most: usize,
    evidence: &mut Evidence,
)
    requires within { end ≤ length buf.now }
    requires nowhere { StandsNowhereBy search.now.text.now end buf.now }
    ensures proves { (c : List ℕ) → AgreesOn evidence.new buf.now c → AgreesOn evidence.old buf.now c
        × StandsNowhereBy search.now.text.now end c }
    ensures inside { IsOf evidence.old buf.now → IsOf evidence.new buf.now }
    ensures few { evidence.new.count ≤ max most (evidence.old.count + 1) }
{
    let text = search.text;
    let mut run = Range::new(0, 0, row);
    let mut start = 0;
    while start < end && text.len() <= end - start {
        let Some(hit) = hit_from(text, buf, start) else {
            return;
        };
        if !run.grow(hit.place) {
            if most.saturating_sub(evidence.wanted()) < 2 {
                let from = start.min(run.place);
                evidence.ask(Range::new(from, end - from, row));
                return;
            }
            evidence.ask(run);
            run = Range::new(hit.place, 1, row);
        }
        start = hit.next;
    }
    evidence.ask(run);
}

/// Asks for that by which the text of a search does not stand where it should: for bytes that are others, some of which it
/// would have, and for the length if the buffer ends before that place.
#[inline(always)]
pub fn refuse_search(search: &Search, buf: &[u8], row: Option<usize>, evidence: &mut Evidence)
    requires { ¬ StandsBy search.now.text.now search.now.end buf.now }
    ensures proves { (c : List ℕ) → AgreesOn evidence.new buf.now c → AgreesOn evidence.old buf.now c
        × ¬ StandsBy search.now.text.now search.now.end c }
    ensures inside { IsOf evidence.old buf.now → IsOf evidence.new buf.now }
    ensures few { evidence.new.count ≤ evidence.old.count + MOST_OF_A_SEARCH }
{
    let end = search.end.min(buf.len());
    let most = evidence.wanted().saturating_add(MOST_OF_A_SEARCH);
    refuse_everywhere(search, end, buf, row, most, evidence);
    if end < search.end {
        evidence.ask_exact();
    }
}

/// The first place at which the text stands and ends by `end`.
fn first_place(text: &[u8], buf: &[u8], end: usize) -> Option<usize>
    requires { end ≤ length buf.now }
    ensures some { IfSome result (λ p. OccursAt buf.now text.now p × (p + length text.now ≤ end)) }
    ensures none { result ≡ None → StandsNowhereBy text.now end buf.now }
{
    for place in 0..end + 1 {
        if text.len() > end - place {
            return None;
        }
        if stands_at(buf, text, place) {
            return Some(place);
        }
    }
    None
}

/// Asks for that by which it does: for the bytes of its first place.
pub fn accept_search(search: &Search, buf: &[u8], row: Option<usize>, evidence: &mut Evidence)
    requires { StandsBy search.now.text.now search.now.end buf.now }
    ensures proves { (c : List ℕ) → AgreesOn evidence.new buf.now c → AgreesOn evidence.old buf.now c
        × StandsBy search.now.text.now search.now.end c }
    ensures inside { IsOf evidence.old buf.now → IsOf evidence.new buf.now }
    ensures few { evidence.new.count ≤ evidence.old.count + 1 }
{
    let end = search.end.min(buf.len());
    if let Some(place) = first_place(search.text, buf, end) {
        evidence.ask_least(place + search.text.len());
        evidence.ask_held(Range::new(place, search.text.len(), row));
    }
}
