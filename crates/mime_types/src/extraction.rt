//! What the values of `Content-Type` say together.
ghost use Rattle.std.specs.Prelude.{◌≡◌, ◌↔◌, ◌++◌, ◌∷◌, [], ℕ, IfSome, IsTrue, List, MatchOption, None, Some, option_map, option_to_list};
ghost use Rattle.std.specs.Option.{option_or};
ghost use Rattle.mime_types.specs.Extracted.{EndsInRun, EndsInView, IsExtracted, IsLastRun, IsLastView, charset_of, said, texts, usable, usable_text};
ghost use Rattle.mime_types.specs.Mime.{Mime};
ghost use Rattle.mime_types.specs.Pieces.{pieces};
ghost use Rattle.mime_types.specs.Seen.{IsViewOf, kind_of, mime_of, value_seen};

use crate::groups::is_alike;
use crate::mime_type::MimeType;
use crate::parameter::Value;
use crate::pieces::Pieces;
use crate::read::parse;

/// What the values say together.
#[derive(Clone, Copy)]
pub struct Extracted<'a> {
    /// The last MIME type that they say, other than `*/*`.
    pub mime_type: MimeType<'a>,
    /// Its charset. If it has none, that of the first of the values in a row that have its type and subtype.
    pub charset: Option<Value<'a>>,
}

/// The last MIME type so far, and the charset of the first of its run.
#[derive(Clone, Copy)]
struct Run<'a> {
    last: MimeType<'a>,
    charset: Option<Value<'a>>,
}

/// What the values of the header `Content-Type` say together, as Fetch has it. Several are given as one, with `, ` between
/// them.
///
/// ```
/// let found = mime_types::extract(b"text/html;charset=gbk, text/html").ok_or("a MIME type")?;
/// assert!(rt; found.mime_type.is_html());
/// assert_eq!(rt; found.charset.ok_or("a charset")?.text, b"gbk".as_slice());
/// ```
pub fn extract(value: &[u8]) -> Option<Extracted<'_>>
    ensures says { IsExtracted value.now result }
    ensures view { IfSome result (λ found. EndsInView (texts (pieces value.now)) found.mime_type) }
{
    match last_run(value) {
        None => None,
        Some(run) => Some(Extracted {
            mime_type: run.last,
            charset: or_else(run.last.parameter(b"charset"), run.charset),
        }),
    }
}

fn or_else<'a>(own: Option<Value<'a>>, carried: Option<Value<'a>>) -> Option<Value<'a>>
    ensures { option_map value_seen result
        ≡ option_or (option_map value_seen own.entry) (option_map value_seen carried.entry) }
{
    match own {
        Some(value) => Some(value),
        None => carried,
    }
}

fn last_run(value: &[u8]) -> Option<Run<'_>>
    ensures says { IsLastRun (said (pieces value.now)) result }
    ensures view { IsLastView (texts (pieces value.now)) result }
{
    let mut run = None;
    let mut left = Pieces::new(value);
    while let Some(piece) = left.next() {
        run = extended(run, piece);
    }
    run
}

/// The run with what a piece says after it.
fn extended<'a>(run: Option<Run<'a>>, piece: &'a [u8]) -> Option<Run<'a>>
    ensures says { (ms : List Mime) → IsLastRun ms run.entry → IsLastRun (ms ++ option_to_list (usable piece.now)) result }
    ensures view { (ts : List (List ℕ)) → IsLastView ts run.entry → IsLastView (ts ++ option_to_list (usable_text piece.now)) result }
{
    match usable(piece) {
        None => run,
        Some(found) => Some(continued(run, &found)),
    }
}

fn continued<'a>(run: Option<Run<'a>>, found: &MimeType<'a>) -> Run<'a>
    ensures says { (ms : List Mime) → IsLastRun ms run.entry → IsLastRun (ms ++ mime_of found.now ∷ []) (Some result) }
    ensures last { result.last ≡ found.now }
{
    let last = *found;
    match run {
        None => Run {
            last,
            charset: found.parameter(b"charset"),
        },
        Some(before) => {
            if is_of_kind(&before.last, found) {
                return Run {
                    last,
                    charset: before.charset,
                };
            }
            Run {
                last,
                charset: found.parameter(b"charset"),
            }
        },
    }
}

fn is_of_kind(found: &MimeType<'_>, other: &MimeType<'_>) -> bool
    ensures { IsTrue result ↔ (kind_of found.now ≡ kind_of other.now) }
{
    is_alike(found.type_name, other.type_name) && is_alike(found.subtype, other.subtype)
}

/// The MIME type that a piece says, if it says one other than `*/*`.
fn usable(piece: &[u8]) -> Option<MimeType<'_>>
    ensures says { option_map mime_of result ≡ usable piece.now }
    ensures view { MatchOption result (usable_text piece.now ≡ None)
        (λ found. (usable_text piece.now ≡ Some piece.now) × IsViewOf piece.now found) }
{
    match parse(piece) {
        None => None,
        Some(found) => {
            if found.is(b"*", b"*") {
                return None;
            }
            Some(found)
        },
    }
}
