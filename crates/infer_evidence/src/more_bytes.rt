//! What a buffer leaves open of a fixed signature, since more bytes may follow.
ghost use Rattle.std.specs.Prelude.{◌≡◌};
ghost use Rattle.std.specs.List.{list_any};
ghost use Rattle.infer_evidence.specs.Listed.{alternative_listed, part_listed, signature_listed};
ghost use Rattle.infer_sig.specs.Open.{agrees, may_become, may_fit, may_have};

use crate::signature::{Alternative, Part, allows};
use crate::weighing::difference;

/// Whether as much of `text` as `buf` has room for from `place` on stands there.
fn agrees(buf: &[u8], text: &[u8], place: usize) -> bool
    ensures { result ≡ agrees place text.now buf.now }
{
    difference(buf, text, place).is_none()
}

/// Whether as much of one of the texts does.
fn any_agrees(buf: &[u8], texts: &[&[u8]], place: usize) -> bool
    ensures { result ≡ list_any (λ t. agrees place t.now buf.now) texts.now }
{
    let agrees = |text: &&[u8]| -> bool
        ensures { result ≡ agrees place text.now.now buf.entry.now }
    { agrees(buf, text, place) };
    texts.iter().any(agrees)
}

/// Whether the buffer has what the part asks, as far as it goes.
#[tactic(auto, using(crate::proofs::ListedLemmas::list_any_map))]
fn may_have(part: &Part, buf: &[u8]) -> bool
    ensures { result ≡ may_have buf.now (part_listed part.now) }
{
    match part {
        Part::Text(place, text) => agrees(buf, text, *place),
        Part::AnyText(place, texts) => any_agrees(buf, texts, *place),
        Part::Byte(place, set) => buf.len() <= *place || allows(set, buf[*place]),
    }
}

/// Whether it has what each part of the alternative asks.
fn may_fit(alternative: &Alternative, buf: &[u8]) -> bool
    ensures { result ≡ may_fit buf.now (alternative_listed alternative.now) }
{
    let may_have = |part: &Part| -> bool
        ensures { result ≡ may_have buf.entry.now (part_listed part.now) }
    { may_have(part, buf) };
    alternative.parts.iter().all(may_have)
}

/// Whether the buffer has what an alternative of the signature asks, as far as it goes. `infer_sig::laws::open` says of which
/// signatures some bytes after the buffer, or none, then make it have all of that.
pub fn may_become(signature: &[Alternative], buf: &[u8]) -> bool
    ensures { result ≡ may_become (signature_listed signature.now) buf.now }
{
    let may_fit = |alternative: &Alternative| -> bool
        ensures { result ≡ may_fit buf.entry.now (alternative_listed alternative.now) }
    { may_fit(alternative, buf) };
    signature.iter().any(may_fit)
}
