//! Lines, as C asks for them.
ghost use Rattle.std.specs.Prelude.{◌≡◌, ℕ, List, length, option_map};
ghost use Rattle.infer_label.specs.Line.{note_line};
ghost use Rattle.infer_label.specs.Options.{options_listed};
ghost use Rattle.infer_label.specs.Writes.{laid, saturated};
ghost use Rattle.infer_c.specs.Label.{WritesLine, form_of, given, look_of, note_of, options_of, standing_number};
ghost use Rattle.infer_c.specs.Mime.{has_bit};
ghost use Rattle.infer_c.specs.Written.{WritesText};

use crate::mime::has_bit;
use crate::named;
use infer_label::{Form, Look, Note, Options};
use infer_named::Standing;

const WHY: u32 = 1;

const UNNAMED: u32 = 2;

const SIZED: u32 = 4;

/// What a line is asked for.
#[derive(Clone, Copy)]
pub struct Asked<'a> {
    pub look: u32,
    pub form: u32,
    pub flags: u32,
    pub types: &'a [u8],
    pub content_type: &'a [u8],
    pub size: usize,
}

/// Writes the line, stores what the name did, or -1 if it was not asked, and whether a type is known, and answers its length.
pub fn write_line(
    asked: Asked<'_>,
    name: &[u8],
    buf: &[u8],
    standing: &mut i32,
    is_known: &mut bool,
    out: &mut [u8],
) -> usize
    ensures { WritesLine (options_of asked.entry) name.now buf.now result standing.new is_known.new out.old out.new }
{
    let answer = infer_label::write_line(options(asked), name, buf, out);
    end(answer.len, out);
    *standing = standing_number(answer.standing);
    *is_known = answer.is_known;
    answer.len
}

/// Writes the line of a file that is not looked at, and answers its length.
pub fn write_note(asked: Asked<'_>, note: u32, name: &[u8], text: &[u8], out: &mut [u8]) -> usize
    ensures length { result ≡ saturated (length (note_line (options_of asked.entry) (note_of note) name.now text.now)) }
    ensures written { WritesText (note_line (options_of asked.entry) (note_of note) name.now text.now) out.old out.new }
{
    let len = infer_label::write_note(options(asked), note_of(note), name, text, out);
    end(len, out);
    len
}

/// Ends a text of this length that was laid into `out` by a zero, which stands in the place of the last byte if there is no
/// room for both.
fn end(len: usize, out: &mut [u8])
    ensures { (text start : List ℕ) → len ≡ saturated (length text) → out.old ≡ laid text start → WritesText text start out.new }
{
    if !out.is_empty() {
        let last = len.min(out.len() - 1);
        out[last] = 0;
    }
}

fn options<'a>(asked: Asked<'a>) -> Options<'a>
    ensures { options_listed result ≡ options_of asked.entry }
{
    Options {
        look: look_of(asked.look),
        form: form_of(asked.form),
        own: given(asked.types),
        content_type: given(asked.content_type),
        why: has_bit(asked.flags, WHY),
        is_unnamed: has_bit(asked.flags, UNNAMED),
        size: size_of(asked),
    }
}

/// The text, unless it is empty.
fn given(text: &[u8]) -> Option<&[u8]>
    ensures { option_map (λ t. t.now) result ≡ given text.entry.now }
{
    if text.is_empty() { None } else { Some(text) }
}

fn size_of(asked: Asked<'_>) -> Option<usize>
    ensures { result ≡ (options_of asked.entry).size }
{
    if has_bit(asked.flags, SIZED) {
        Some(asked.size)
    } else {
        None
    }
}

fn look_of(code: u32) -> Look
    ensures { result ≡ look_of code }
{
    match code {
        1 => Look::Bytes,
        2 => Look::BuiltIn,
        3 => Look::Browser,
        4 => Look::BrowserForbidden,
        _ => Look::NameAndBytes,
    }
}

fn form_of(code: u32) -> Form
    ensures { result ≡ form_of code }
{
    match code {
        1 => Form::Mime,
        2 => Form::Json,
        3 => Form::Csv,
        _ => Form::Text,
    }
}

fn note_of(code: u32) -> Note
    ensures { result ≡ note_of code }
{
    if code == 1 { Note::Kind } else { Note::Fault }
}

/// The number of a standing, and -1 if there is none.
fn standing_number(standing: Option<Standing>) -> i32
    ensures { result ≡ standing_number standing }
{
    match standing {
        Some(standing) => named::code(standing),
        None => -1,
    }
}
