//! The type that a browser computes of a resource.
ghost use Rattle.std.specs.Prelude.{◌≡◌, ◌↔◌, ◌<◌, ◌≤◌, Any, IsTrue, length, map, option_map};
ghost use Rattle.mime_sniff.specs.Computed.{AsksNothing, IsComputed, IsComputedIn, apache_bugs, supply_of, told_by};
ghost use Rattle.std.specs.Bool.{OnFalse, OnTrue};
ghost use Rattle.mime_sniff.specs.Growth.{IsDecided, MayScript, NeverHolds, NeverScripts, Scripts};
ghost use Rattle.mime_sniff.specs.Rule.{Accepts};
ghost use Rattle.mime_sniff.specs.Standard.{header, scriptable};

use crate::context::Context;
use crate::question::{asked, asked_in};
use crate::settled::settled;
use crate::standard::{answer, of_scriptable};
use crate::supplied::Supplied;
use infer_deep::places::may_stand_at;
use infer_deep::text::{after_white_space, may_become_html};

/// How many bytes are looked at.
pub const HEADER_LENGTH: usize = 1445;

/// The computed type.
#[derive(Clone, Copy)]
pub enum Computed {
    /// That which was supplied, with its parameters, or none if none was.
    Same,
    /// This type, which has no parameters.
    Sniffed(&'static str),
}

/// The type that a browser computes of a page by what was supplied and the first bytes, of which 1445 count.
///
/// ```
/// let supplied = Supplied {
///     mime_type: mime_types::parse(b"image/png"),
///     no_sniff: false,
///     check_for_apache_bug: false,
/// };
/// let computed = mime_sniff::compute(&supplied, b"GIF89a");
/// assert!(rt; matches!(computed, Computed::Sniffed("image/gif")));
/// ```
pub fn compute(supplied: &Supplied<'_>, buf: &[u8]) -> Computed
    ensures { IsComputed (supply_of supplied.now) buf.now (told_by result) }
{
    told(answer(asked(supplied), header(buf)))
}

/// The type that a browser computes of what it loads for something.
pub fn compute_in(context: Context, supplied: &Supplied<'_>, buf: &[u8]) -> Computed
    ensures { IsComputedIn context (supply_of supplied.now) buf.now (told_by result) }
{
    told(answer(asked_in(context, supplied), header(buf)))
}

/// Whether no bytes after the first ones change the computed type. A yes is certain. It is a yes for 1445 bytes, and where no
/// bytes are asked about the supplied type. Otherwise a no may be too careful: as long as a box of MP4, the mark of WebM or a
/// frame of MP3 has begun, and where all that may still come has the same type.
pub fn is_decided(supplied: &Supplied<'_>, buf: &[u8]) -> bool
    ensures right { OnTrue result (IsDecided (supply_of supplied.now) buf.now) }
    ensures full { HEADER_LENGTH ≤ length buf.now → IsTrue result }
    ensures unasked { AsksNothing (supply_of supplied.now) → IsTrue result }
{
    if buf.len() >= HEADER_LENGTH {
        return true;
    }
    match settled(asked(supplied), header(buf)) {
        Some(_) => true,
        None => false,
    }
}

/// Whether a browser that knows no type may compute one that runs scripts, from these first bytes or with more after them. A no
/// is certain, so no script of such a file runs. Of 1445 bytes a yes is certain too. Of fewer it means that some bytes after
/// them bring it, if more than 1445 counted: it is too careful only where a tag no longer fits into these.
///
/// ```
/// assert!(rt; mime_sniff::may_be_scriptable(b" <scr") && !mime_sniff::may_be_scriptable(b"GIF"));
/// ```
pub fn may_be_scriptable(buf: &[u8]) -> bool
    ensures right { OnFalse result (NeverScripts buf.now) }
    ensures full { HEADER_LENGTH ≤ length buf.now → (IsTrue result ↔ Scripts buf.now) }
    ensures begun { length buf.now < HEADER_LENGTH → (IsTrue result ↔ MayScript buf.now) }
{
    let header = header(buf);
    if buf.len() >= HEADER_LENGTH {
        return match of_scriptable(header) {
            Some(_) => true,
            None => false,
        };
    }
    may_become_scriptable(header)
}

/// Whether some bytes after the header, however many, make it what may run scripts.
fn may_become_scriptable(header: &[u8]) -> bool
    ensures may { OnTrue result (MayScript header.now) }
    ensures never { OnFalse result (NeverHolds (λ b. Any (Accepts b) scriptable) header.now) }
{
    let text = after_white_space(header);
    may_become_html(text) || may_stand_at(text, b"<?xml", 0) || may_stand_at(header, b"%PDF-", 0)
}

fn told(answer: Option<&'static str>) -> Computed
    ensures { told_by result ≡ option_map (λ t. t.now) answer.entry }
{
    match answer {
        Some(mime_type) => Computed::Sniffed(mime_type),
        None => Computed::Same,
    }
}

#[tactic(auto, using(std::proofs::lemmas::List::take_min))]
fn header(buf: &[u8]) -> &[u8]
    ensures { result.now ≡ header buf.now }
{
    &buf[..HEADER_LENGTH.min(buf.len())]
}

/// Whether the value of the last header `Content-Type` is one that old servers send of every file that they know no type
/// of.
pub fn is_apache_bug(value: &[u8]) -> bool
    ensures { IsTrue result ↔ Any (λ bug. value.now ≡ bug) apache_bugs }
{
    const BUGS: &[&[u8]] = &[
        b"text/plain",
        b"text/plain; charset=ISO-8859-1",
        b"text/plain; charset=iso-8859-1",
        b"text/plain; charset=UTF-8",
    ];
    is_one_of(value, BUGS)
}

fn is_one_of(value: &[u8], texts: &[&[u8]]) -> bool
    ensures { IsTrue result ↔ Any (λ text. value.now ≡ text) (map (λ text. text.now) texts.now) }
{
    texts.iter().any(|text| is_text(value, *text))
}

fn is_text(value: &[u8], text: &[u8]) -> bool
    ensures { IsTrue result ↔ (value.now ≡ text.now) }
{
    value == text
}
