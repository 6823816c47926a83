//! The bytes of a buffer by which a fixed signature accepts it, or does not.
ghost use Rattle.std.specs.Prelude.{◌≡◌, ◌↔◌, ◌+◌, ◌<◌, ◌≤◌, ℕ, List, All, Any, IfSome, IsTrue, None, length, slice_index, true};
ghost use Rattle.infer_deep.specs.Open.{AgreesAt};
ghost use Rattle.infer_evidence.specs.Evidence.{AgreesOn, IsInside, IsLike, IsOf, IsSame};
ghost use Rattle.infer_evidence.specs.Listed.{signature_listed};
ghost use Rattle.infer_evidence.specs.Weighed.{Differs, HasAlternative, HasPart, HasParts, IsSameTo, StandsNone, most_ranges};
ghost use Rattle.infer_evidence.specs.declared.signature.Part.TheVariants as parts;
ghost use Rattle.infer_sig.specs.Places.{StandsByPlace};
ghost use Rattle.infer_sig.specs.Signature.{accepts};

use crate::ranges::{Evidence, Range};
use crate::signature::{Alternative, AsPart, Part, Set, allows};
use infer_deep::places::stands_at;
use infer_sig::laws;

/// Why a buffer has not what a part asks: the bytes of a range, and its length if that is needed too.
#[derive(Drop)]
struct Refusal {
    range: Range,
    exact: bool,
}

/// Whether `text` stands in `buf` from `place` on.
fn stands(buf: &[u8], text: &[u8], place: usize) -> bool
    ensures { IsTrue result ↔ StandsByPlace place text.now buf.now }
{
    text.is_empty() || stands_at(buf, text, place)
}

/// The first of the texts that stands in `buf` from `place` on.
fn standing<'a>(buf: &[u8], texts: &[&'a [u8]], place: usize) -> Option<&'a [u8]>
    ensures some { IfSome result (λ t. StandsByPlace place t.now buf.now) }
    ensures among { IfSome result (λ t. Any (λ u. u.now ≡ t.now) texts.now) }
    ensures none { result ≡ None → StandsNone place texts.now buf.now }
{
    for text in texts {
        if stands(buf, text, place) {
            return Some(text);
        }
    }
    None
}

/// The first place from `place` on at which `buf` has a byte, and not that of `text`.
pub(crate) fn difference(buf: &[u8], text: &[u8], place: usize) -> Option<usize>
    ensures some { IfSome result (λ k. Differs place text.now buf.now k) }
    ensures none { result ≡ None → AgreesAt buf.now text.now place }
{
    let end = buf.len().min(place.saturating_add(text.len()));
    for k in place..end {
        if buf[k] != text[k - place] {
            return Some(k);
        }
    }
    None
}

/// The length of the longest of the texts.
fn longest(texts: &[&[u8]]) -> usize
    ensures { All (λ t. length t.now ≤ result) texts.now }
{
    let mut longest = 0;
    for text in texts {
        longest = longest.max(text.len());
    }
    longest
}

/// Whether the buffer has what the part asks.
fn has_part(part: &Part, buf: &[u8]) -> bool
    ensures { IsTrue result ↔ HasPart buf.now part.now }
{
    match part {
        // Most texts differ in their first byte.
        Part::Text(place, text) => {
            difference(buf, text, *place).is_none() && stands(buf, text, *place)
        }
        Part::AnyText(place, texts) => standing(buf, texts, *place).is_some(),
        Part::Byte(place, set) => *place < buf.len() && allows(set, buf[*place]),
    }
}

/// The bytes of a text that stands in the buffer.
fn text_held(text: &[u8], place: usize, buf: &[u8], row: Option<usize>) -> Range
    requires { StandsByPlace place text.now buf.now }
    ensures inside { IsInside buf.now result }
    ensures proves { (c : List ℕ) → IsSame buf.now c result → StandsByPlace place text.now c }
{
    Range::new(place, text.len(), row)
}

/// The bytes by which the buffer has what the part asks.
fn held(part: &Part, buf: &[u8], row: Option<usize>) -> Range
    requires { HasPart buf.now part.now }
    ensures inside { IsInside buf.now result }
    ensures proves { (c : List ℕ) → IsSame buf.now c result → HasPart c part.now }
{
    match part {
        Part::Text(place, text) => text_held(text, *place, buf, row),
        Part::AnyText(place, texts) => match standing(buf, texts, *place) {
            Some(text) => text_held(text, *place, buf, row),
            None => text_held(&[], 0, buf, row),
        },
        Part::Byte(place, _) => Range::new(*place, 1, row),
    }
}

/// Why the buffer has not the text at that place.
fn text_refused(text: &[u8], place: usize, buf: &[u8], row: Option<usize>) -> Refusal
    requires { ¬ StandsByPlace place text.now buf.now }
    ensures inside { IsInside buf.now result.range }
    ensures proves { (c : List ℕ) → IsSameTo buf.now c result → ¬ StandsByPlace place text.now c }
{
    match difference(buf, text, place) {
        Some(place) => Refusal {
            range: Range::new(place, 1, row),
            exact: false,
        },
        None => short(row),
    }
}

/// Why the buffer has none of the texts at that place: what it has where the longest would stand.
fn texts_refused(texts: &[&[u8]], place: usize, buf: &[u8], row: Option<usize>) -> Refusal
    requires { StandsNone place texts.now buf.now }
    ensures inside { IsInside buf.now result.range }
    ensures proves { (c : List ℕ) → IsSameTo buf.now c result → StandsNone place texts.now c }
{
    let longest = longest(texts);
    let place = place.min(buf.len());
    let len = longest.min(buf.len() - place);
    Refusal {
        range: Range::new(place, len, row),
        exact: len < longest,
    }
}

/// No bytes, and the length.
fn short(row: Option<usize>) -> Refusal
    ensures none { result.range.len ≡ 0 }
    ensures exact { result.exact ≡ true }
{
    Refusal {
        range: Range::new(0, 0, row),
        exact: true,
    }
}

/// Why the buffer has not what the part asks.
fn refused(part: &Part, buf: &[u8], row: Option<usize>) -> Refusal
    requires { ¬ HasPart buf.now part.now }
    ensures inside { IsInside buf.now result.range }
    ensures proves { (c : List ℕ) → IsSameTo buf.now c result → ¬ HasPart c part.now }
{
    match part {
        Part::Text(place, text) => text_refused(text, *place, buf, row),
        Part::AnyText(place, texts) => texts_refused(texts, *place, buf, row),
        Part::Byte(place, _) => byte_refused(*place, buf, row),
    }
}

/// The byte at the place, or that there is none.
fn byte_refused(place: usize, buf: &[u8], row: Option<usize>) -> Refusal
    ensures inside { IsInside buf.now result.range }
    ensures proves { (c : List ℕ) → IsSameTo buf.now c result → place < length c
        → (place < length buf.now) × (slice_index c place ≡ slice_index buf.now place) }
{
    if place >= buf.len() {
        return short(row);
    }
    Refusal {
        range: Range::new(place, 1, row),
        exact: false,
    }
}

/// The first part that the buffer lacks.
fn lacking<P: AsPart>(parts: &[P], buf: &[u8]) -> Option<Part>
    ensures some { IfSome result (λ part. ¬ HasPart buf.now part) }
    ensures among { IfSome result (λ part. Any (λ p. (c : List ℕ) → HasPart c part ↔ P.asks p c) parts.now) }
    ensures none { result ≡ None → All (λ p. P.asks p buf.now) parts.now }
{
    for asked in parts {
        let part = asked.part();
        if !has_part(&part, buf) {
            return Some(part);
        }
    }
    None
}

/// The bytes by which the buffer has another text at that place, if it has bytes of another there.
fn text_differing(text: &[u8], place: usize, buf: &[u8], row: Option<usize>) -> Option<Range>
    ensures inside { IfSome result (IsInside buf.now) }
    ensures proves { IfSome result (λ range. (c : List ℕ) → IsSame buf.now c range
        → ¬ StandsByPlace place text.now c) }
{
    match difference(buf, text, place) {
        Some(place) => Some(Range::new(place, 1, row)),
        None => None,
    }
}

/// The byte that stands at the place and is not in the set, if there is one.
fn byte_differing(set: &Set, place: usize, buf: &[u8], row: Option<usize>) -> Option<Range>
    ensures inside { IfSome result (IsInside buf.now) }
    ensures proves { IfSome result (λ range. (c : List ℕ) → IsSame buf.now c range
        → ¬ HasPart c (parts.Byte place set.now)) }
{
    if place >= buf.len() || allows(set, buf[place]) {
        return None;
    }
    Some(Range::new(place, 1, row))
}

/// What the buffer has in the place of all of these texts, if it is long enough for each.
fn texts_differing(texts: &[&[u8]], place: usize, buf: &[u8], row: Option<usize>) -> Option<Range>
    ensures inside { IfSome result (IsInside buf.now) }
    ensures proves { IfSome result (λ range. (c : List ℕ) → IsSame buf.now c range
        → StandsNone place texts.now c) }
{
    if standing(buf, texts, place).is_some() {
        return None;
    }
    let refusal = texts_refused(texts, place, buf, row);
    if refusal.exact {
        return None;
    }
    Some(refusal.range)
}

/// The bytes by which the buffer lacks the part, whatever its length is, if it lacks it so.
fn differing(part: &Part, buf: &[u8], row: Option<usize>) -> Option<Range>
    ensures inside { IfSome result (IsInside buf.now) }
    ensures proves { IfSome result (λ range. (c : List ℕ) → IsSame buf.now c range
        → ¬ HasPart c part.now) }
{
    match part {
        Part::Text(place, text) => text_differing(text, *place, buf, row),
        Part::AnyText(place, texts) => texts_differing(texts, *place, buf, row),
        Part::Byte(place, set) => byte_differing(set, *place, buf, row),
    }
}

/// The bytes by which the buffer lacks a part, whatever its length is, if it lacks some part so.
fn refused_by_bytes<P: AsPart>(parts: &[P], buf: &[u8], row: Option<usize>) -> Option<Range>
    ensures inside { IfSome result (IsInside buf.now) }
    ensures proves { IfSome result (λ range. (c : List ℕ) → IsSame buf.now c range
        → ¬ All (λ p. P.asks p c) parts.now) }
{
    for asked in parts {
        let part = asked.part();
        if let Some(range) = differing(&part, buf, row) {
            return Some(range);
        }
    }
    None
}

/// Whether the buffer has that length at least, and what the parts ask.
pub fn fits<P: AsPart>(least: usize, parts: &[P], buf: &[u8]) -> bool
    ensures { IsTrue result ↔ HasParts P.asks buf.now least parts.now }
{
    least <= buf.len() && lacking(parts, buf).is_none()
}

/// Asks for that by which the buffer has the length and the parts.
pub fn accept<P: AsPart>(
    least: usize,
    parts: &[P],
    buf: &[u8],
    row: Option<usize>,
    evidence: &mut Evidence,
)
    requires { HasParts P.asks buf.now least parts.now }
    ensures proves { (c : List ℕ) → AgreesOn evidence.new buf.now c → AgreesOn evidence.old buf.now c
        × HasParts P.asks c least parts.now }
    ensures inside { IsOf evidence.old buf.now → IsOf evidence.new buf.now }
    ensures few { evidence.new.count ≤ evidence.old.count + length parts.now }
{
    evidence.ask_least(least);
    for asked in parts {
        evidence.ask_held(held(&asked.part(), buf, row));
    }
}

/// Asks for that by which the buffer lacks the length or a part: for bytes rather than for its length.
pub fn refuse<P: AsPart>(
    least: usize,
    parts: &[P],
    buf: &[u8],
    row: Option<usize>,
    evidence: &mut Evidence,
)
    requires { ¬ HasParts P.asks buf.now least parts.now }
    ensures proves { (c : List ℕ) → AgreesOn evidence.new buf.now c → AgreesOn evidence.old buf.now c
        × ¬ HasParts P.asks c least parts.now }
    ensures inside { IsOf evidence.old buf.now → IsOf evidence.new buf.now }
    ensures few { evidence.new.count ≤ evidence.old.count + 1 }
{
    if let Some(range) = refused_by_bytes(parts, buf, row) {
        evidence.ask(range);
        return;
    }
    evidence.ask_exact();
    if least <= buf.len()
        && let Some(part) = lacking(parts, buf)
    {
        evidence.ask(refused(&part, buf, row).range);
    }
}

/// The byte at the place, if a range that is asked for has it.
#[inline(always)]
fn asked_byte(place: usize, buf: &[u8], evidence: &Evidence) -> Option<u8>
    ensures { IfSome result (λ x. (c : List ℕ) → IsLike evidence.now buf.now c
        → (place < length c) × (slice_index c place ≡ x)) }
{
    match buf.get(place) {
        Some(byte) if evidence.is_asked(place) => Some(*byte),
        _ => None,
    }
}

/// Whether the buffer lacks the part, and bytes that are asked for already decide it: the first that it asks for.
#[inline(always)]
fn lacks_already(part: &Part, buf: &[u8], evidence: &Evidence) -> bool
    ensures { IsTrue result → (c : List ℕ) → IsLike evidence.now buf.now c
        → ¬ HasPart c part.now }
{
    match part {
        Part::Text(place, text) => {
            match (text.first(), asked_byte(*place, buf, evidence)) {
                (Some(first), Some(byte)) => byte != *first,
                _ => false,
            }
        }
        Part::Byte(place, set) => match asked_byte(*place, buf, evidence) {
            Some(byte) => !allows(set, byte),
            None => false,
        },
        Part::AnyText(..) => false,
    }
}

/// Whether the buffer is too short for the alternative or lacks what that asks first, and what is asked for already decides it.
#[inline(always)]
fn refused_already(alternative: &Alternative, buf: &[u8], evidence: &Evidence) -> bool
    ensures { IsTrue result → (c : List ℕ) → IsLike evidence.now buf.now c
        → ¬ HasAlternative c alternative.now }
{
    if evidence.is_exact() && buf.len() < alternative.least {
        return true;
    }
    match alternative.parts.first() {
        Some(part) => lacks_already(part, buf, evidence),
        None => false,
    }
}

/// Whether the buffer lacks each alternative, and what is asked for already decides it.
fn all_refused_already(signature: &[Alternative], buf: &[u8], evidence: &Evidence) -> bool
    ensures { IsTrue result → (c : List ℕ) → IsLike evidence.now buf.now c
        → All (λ a. ¬ HasAlternative c a) signature.now }
{
    for alternative in signature {
        if !refused_already(alternative, buf, evidence) {
            return false;
        }
    }
    true
}

/// The first alternative that the buffer has. What is decided already costs no more than a look.
fn fitting<'a>(
    signature: &'a [Alternative],
    buf: &[u8],
    evidence: &Evidence,
) -> Option<&'a Alternative>
    ensures some { IfSome result (λ a. HasAlternative buf.now a.now) }
    ensures among { IfSome result (λ a. Any (λ other. other ≡ a.now) signature.now) }
    ensures none { result ≡ None → All (λ a. ¬ HasAlternative buf.now a) signature.now }
{
    for alternative in signature {
        if !refused_already(alternative, buf, evidence)
            && fits(alternative.least, alternative.parts, buf)
        {
            return Some(alternative);
        }
    }
    None
}

/// The bytes by which the buffer lacks the only alternative, whatever its length is, if there is but one and it does so.
fn refused_alone(signature: &[Alternative], buf: &[u8], row: Option<usize>) -> Option<Range>
    ensures alone { IfSome result (λ range. length signature.now ≡ 1) }
    ensures inside { IfSome result (IsInside buf.now) }
    ensures proves { IfSome result (λ range. (c : List ℕ) → IsSame buf.now c range
        → All (λ a. ¬ HasAlternative c a) signature.now) }
{
    match signature {
        // A shorter one is decided by its length at once.
        [alternative] if alternative.least <= buf.len() => {
            refused_by_bytes(alternative.parts, buf, row)
        }
        _ => None,
    }
}

/// Asks for that by which the buffer lacks the alternative, unless it is decided already.
#[inline(always)]
fn refuse_one(alternative: &Alternative, buf: &[u8], row: Option<usize>, evidence: &mut Evidence)
    requires { ¬ HasAlternative buf.now alternative.now }
    ensures proves { (c : List ℕ) → AgreesOn evidence.new buf.now c → AgreesOn evidence.old buf.now c
        × ¬ HasAlternative c alternative.now }
    ensures inside { IsOf evidence.old buf.now → IsOf evidence.new buf.now }
    ensures few { evidence.new.count ≤ evidence.old.count + 1 }
{
    if !refused_already(alternative, buf, evidence) {
        refuse(alternative.least, alternative.parts, buf, row, evidence);
    }
}

/// Asks for that by which the buffer lacks each of the alternatives.
fn refuse_all(signature: &[Alternative], buf: &[u8], row: Option<usize>, evidence: &mut Evidence)
    requires { All (λ a. ¬ HasAlternative buf.now a) signature.now }
    ensures proves { (c : List ℕ) → AgreesOn evidence.new buf.now c → AgreesOn evidence.old buf.now c
        × All (λ a. ¬ HasAlternative c a) signature.now }
    ensures inside { IsOf evidence.old buf.now → IsOf evidence.new buf.now }
    ensures few { evidence.new.count ≤ evidence.old.count + length signature.now }
{
    for alternative in signature {
        refuse_one(alternative, buf, row, evidence);
    }
}

/// Whether a signature accepts the buffer, and asks for what decides that it does so, or that it does not. What is asked for
/// is said to be of that row.
pub fn weigh(
    signature: &[Alternative],
    buf: &[u8],
    row: Option<usize>,
    evidence: &mut Evidence,
) -> bool
    ensures answer { IsTrue result ↔ IsTrue (accepts (signature_listed signature.now) buf.now) }
    ensures proves { (c : List ℕ) → AgreesOn evidence.new buf.now c → AgreesOn evidence.old buf.now c
        × (IsTrue (accepts (signature_listed signature.now) c)
        ↔ IsTrue (accepts (signature_listed signature.now) buf.now)) }
    ensures inside { IsOf evidence.old buf.now → IsOf evidence.new buf.now }
    ensures few { evidence.new.count
        ≤ evidence.old.count + most_ranges (signature_listed signature.now) }
{
    laws::by_place();
    if all_refused_already(signature, buf, evidence) {
        return false;
    }
    if let Some(range) = refused_alone(signature, buf, row) {
        evidence.ask(range);
        return false;
    }
    match fitting(signature, buf, evidence) {
        Some(alternative) => {
            accept(alternative.least, alternative.parts, buf, row, evidence);
            true
        }
        None => {
            refuse_all(signature, buf, row, evidence);
            false
        }
    }
}
