//! What more bytes may make the root element.
ghost use Rattle.std.specs.Prelude.{◌≡◌, ◌↔◌, ◌<◌, ◌≤◌, ℕ, List, length, slice_index, IsTrue};
ghost use Rattle.infer_deep.specs.Signatures.{MayBecome};
ghost use Rattle.infer_formats.specs.Markup.{HasClosing, HasInTag, HasRoot, HasRootWith, IsRootElement, IsXmlSpace, MayReachTag, DecidesRoot};

use super::names::is_xml_space;
use super::prolog::{prolog_end, prolog_start};
use super::{Root, ends_in_mark, root_of};
use infer_deep::places::may_stand_at;

/// Whether some bytes after `buf`, or none, may give it a root element with this local name.
pub fn may_have_root(buf: &[u8], name: &[u8]) -> bool
    ensures { MayBecome (HasRoot name.now) buf.now → IsTrue result }
{
    match root_of(buf) {
        Some(root) => is_same(root.name, name),
        None => may_come_to_root(buf),
    }
}

/// Whether some bytes after `buf`, or none, may give it a root element with this local name, and the text in its tag
/// after the name.
pub fn may_have_root_with(buf: &[u8], name: &[u8], text: &[u8]) -> bool
    ensures { MayBecome (HasRootWith name.now text.now) buf.now → IsTrue result }
{
    match root_of(buf) {
        Some(root) => is_same(root.name, name) && may_have_in_tag(&root, text),
        None => may_come_to_root(buf),
    }
}

/// Whether the front decides the root element of every buffer that begins so: its tag has ended, or there will be none.
pub fn decides_root(front: &[u8]) -> bool
    ensures says { IsTrue result → DecidesRoot front.now }
    ensures ended { (name rest : List ℕ) → IsRootElement name rest front.now → HasClosing rest
        → IsTrue result }
{
    match root_of(front) {
        Some(root) => has_closing(root.rest),
        None => !may_come_to_root(front),
    }
}

/// Whether the text stands in the tag, or the tag goes on.
#[tactic(auto, using(std::proofs::lemmas::Bool::false_from_ne_true, crate::proofs::MarkupLemmas::in_tag_ended))]
fn may_have_in_tag(root: &Root<'_>, text: &[u8]) -> bool
    ensures { MayBecome (HasInTag text.now) root.now.rest.now → IsTrue result }
{
    if has_closing(root.rest) {
        return root.has_in_tag(text);
    }
    true
}

fn has_closing(text: &[u8]) -> bool
    ensures { IsTrue result ↔ HasClosing text.now }
{
    for at in 0..text.len() {
        if text[at] == b'>' {
            return true;
        }
    }
    false
}

/// [`may_have_root`] of a buffer that has no root yet, whatever the name: it ends in the prolog, or in the tag after it. Which
/// names a declared document type leaves is not asked.
fn may_come_to_root(buf: &[u8]) -> bool
    ensures { (name : List ℕ) → MayBecome (HasRoot name) buf.now → IsTrue result }
{
    // A byte order mark may come first.
    if ends_in_mark(buf) {
        return true;
    }
    may_reach_tag(buf, prolog_end(buf, prolog_start(buf)).place)
}

/// Whether white space stands from there to the end of the buffer, or "<" stands there.
fn may_reach_tag(buf: &[u8], place: usize) -> bool
    ensures { IsTrue result ↔ MayReachTag buf.now place }
{
    is_space_from(buf, place) || may_stand_at(buf, b"<", place)
}

fn is_space_from(buf: &[u8], from: usize) -> bool
    ensures { IsTrue result ↔ ((k : ℕ) → from ≤ k → k < length buf.now
        → IsXmlSpace (slice_index buf.now k)) }
{
    for at in from..buf.len() {
        if !is_xml_space(buf[at]) {
            return false;
        }
    }
    true
}

fn is_same(name: &[u8], other: &[u8]) -> bool
    ensures { IsTrue result ↔ (name.now ≡ other.now) }
{
    name == other
}
