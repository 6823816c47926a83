//! Markup, by its root element: Extensible Markup Language (XML) 1.0 (W3C), sections 2.8 and 3.1.
ghost use Rattle.std.specs.Prelude.{◌≡◌, ◌↔◌, ◌+◌, ◌<◌, ◌≤◌, ℕ, List, length, slice_index, IsTrue, IfSome, MatchOption};
ghost use Rattle.infer_deep.specs.Open.{AgreesAt};
ghost use Rattle.infer_formats.specs.Markup.{HasInTag, HasRoot, HasRootWith, IsRootElement, IsRootOf, MayBeRooted, MayStart, utf8_mark};

mod may_become;
mod names;
mod prolog;

use crate::search::find_early;
use infer_deep::places::{has_at, may_stand_at};
pub use may_become::{decides_root, may_have_root, may_have_root_with};
use memchr::memchr;
use names::{begins_element, is_xml_space};
use prolog::{prolog_after, tag_at};

/// The root element of markup.
#[derive(Clone, Copy, Debug)]
pub struct Root<'a> {
    /// Its local name: what follows the last ":" of its name, or all of it.
    pub name: &'a [u8],
    /// What comes after its name in the buffer.
    pub rest: &'a [u8],
}

impl Root<'_> {
    /// Whether the text stands in the tag after the name: before the first ">", or before the end of the buffer if
    /// there is none.
    pub fn has_in_tag(&self, text: &[u8]) -> bool
        ensures { IsTrue result ↔ HasInTag text.now self.now.rest.now }
    {
        let end = memchr(b'>', self.rest).unwrap_or(self.rest.len());
        find_early(&self.rest[..end], text).is_some()
    }
}

/// Whether a buffer with this root element, or with none, has one of this local name.
pub(crate) fn has_name(root: &Option<Root<'_>>, name: &[u8]) -> bool
    ensures { (b : List ℕ) → IsRootOf root.now b → (IsTrue result ↔ HasRoot name.now b) }
{
    match root {
        Some(root) => root.name == name,
        None => false,
    }
}

/// Whether it has one of this local name, and the text in its tag after the name.
pub(crate) fn has_name_and_text(root: &Option<Root<'_>>, name: &[u8], text: &[u8]) -> bool
    ensures { (b : List ℕ) → IsRootOf root.now b
        → (IsTrue result ↔ HasRootWith name.now text.now b) }
{
    match root {
        Some(root) => root.name == name && root.has_in_tag(text),
        None => false,
    }
}

/// Whether the root element has this local name.
pub fn has_root(buf: &[u8], name: &[u8]) -> bool
    ensures { IsTrue result ↔ HasRoot name.now buf.now }
{
    has_name(&root_of(buf), name)
}

/// Whether the root element has this local name, and the text in its tag after the name.
#[inline(never)]
pub fn has_root_with(buf: &[u8], name: &[u8], text: &[u8]) -> bool
    ensures { IsTrue result ↔ HasRootWith name.now text.now buf.now }
{
    has_name_and_text(&root_of(buf), name, text)
}

/// The root element of markup, as that of the name "svg" in `<?xml version="1.0"?><!-- --><s:svg>`.
///
/// A byte order mark of UTF-8 may stand first, and then a prolog: any number of white spaces (09, 0A, 0D and 20), of
/// "<?" up to "?>" and of "<!--" up to "-->", and once "<!DOCTYPE", white space and all up to ">". If a "[" stands before
/// that, all up to its "]" comes first: one in quotes, a comment or an instruction is none. The root element's tag follows:
/// "<" and its name, which goes up to white space, "/" or ">", begins with neither "!" nor "?", and ends within the buffer.
/// If a document type was declared, its name is the same.
#[inline(never)]
pub fn root_of(buf: &[u8]) -> Option<Root<'_>>
    ensures found { IsRootOf result buf.now }
    ensures only { IfSome result
        (λ r. (name rest : List ℕ) → IsRootElement name rest buf.now → (name ≡ r.name.now)
        × (rest ≡ r.rest.now)) }
{
    let tag = tag_at(buf, prolog_after(buf))?;
    Some(Root {
        name: &buf[tag.at..tag.to],
        rest: &buf[tag.to..],
    })
}

/// Whether the buffer may have a root element, by its first tag: a byte order mark stands first, or white space, perhaps none,
/// and "<", and after that the name of an element or another "<". That takes less than to look for the root, and little
/// that is no markup passes.
pub fn may_be_rooted(buf: &[u8]) -> bool
    ensures { IsTrue result ↔ MayBeRooted buf.now }
{
    if has_at(buf, b"\xEF\xBB\xBF", 0) {
        return true;
    }
    for place in 0..buf.len() {
        if !is_xml_space(buf[place]) {
            return starts_at(buf, place);
        }
    }
    false
}

/// Whether "<" stands there, and after it the name of an element or another "<".
fn starts_at(buf: &[u8], place: usize) -> bool
    requires { place < length buf.now }
    ensures { IsTrue result ↔ (slice_index buf.now place ≡ 0x3C) × MayStart buf.now (place + 1) }
{
    buf[place] == b'<' && may_start(buf, place + 1)
}

/// Whether the name of an element stands there, or "<" there or after.
fn may_start(buf: &[u8], from: usize) -> bool
    requires { from ≤ length buf.now }
    ensures { IsTrue result ↔ MayStart buf.now from }
{
    if from == buf.len() {
        return true;
    }
    if begins_element(buf[from]) {
        return true;
    }
    memchr(b'<', &buf[from..]).is_some()
}

/// Whether it ends before a byte order mark does.
pub(super) fn ends_in_mark(buf: &[u8]) -> bool
    ensures { IsTrue result ↔ (length buf.now < 3) × AgreesAt buf.now utf8_mark 0 }
{
    buf.len() < 3 && may_stand_at(buf, b"\xEF\xBB\xBF", 0)
}
