//! The line of an input as a row of CSV.
ghost use Rattle.std.specs.Prelude.{◌≡◌, ◌&&◌, ◌++◌, None, Some, codes, if◌then◌else◌, not, option_map};
ghost use Rattle.std.specs.List.{list_all};
ghost use Rattle.infer_label.specs.Label.{label_listed};
ghost use Rattle.infer_label.specs.Line.{begins_as_sum, begins_as_wide_sum, class_field, class_name, encoding_field, guard, is_bare, label_fields, mime_field, named_fields, note_fields, or_none, quoted, size_field, standing_field, start, type_fields, why_field};
ghost use Rattle.infer_label.specs.Why.{why_listed};
ghost use Rattle.infer_label.specs.Writes.{Writes};

use crate::json::standing_name;
use crate::label::Label;
use crate::names::write_name;
use crate::options::{Form, Note};
use crate::room::Room;
use crate::why::Why;
use crate::why_text::write_reasons;
use infer::MatcherType;
use infer_more::text::Encoding;
use infer_named::Standing;

/// Writes the name, unless it is left out.
pub fn write_quoted_name(is_unnamed: bool, name: &[u8], out: &mut Room<'_>)
    ensures { Writes out.old out.new (start Form.Csv is_unnamed name.now) }
{
    if !is_unnamed {
        write_quoted(name, out);
        out.write(b",");
    }
}

/// Writes all fields after it.
pub fn write_fields(
    size: Option<usize>,
    label: &Label<'_>,
    why: Option<&Why<'_>>,
    out: &mut Room<'_>,
)
    ensures { Writes out.old out.new
        (label_fields size (label_listed label.now) (option_map (λ w. why_listed w.now) why.entry)) }
{
    write_type_fields(label, out);
    out.write_text(encoding_field(label.encoding));
    out.write(b",");
    write_named_fields(label, out);
    write_size(size, out);
    out.write(b",,");
    write_why_field(why, out);
    out.write(b"\n");
}

/// Writes the fields of an input that is not looked at.
pub fn write_note_fields(note: Note, text: &[u8], out: &mut Room<'_>)
    ensures { Writes out.old out.new (note_fields note text.now) }
{
    match note {
        Note::Fault => write_fault_fields(text, out),
        Note::Kind => write_kind_fields(text, out),
    }
}

fn write_fault_fields(text: &[u8], out: &mut Room<'_>)
    ensures { Writes out.old out.new (note_fields Note.Fault text.now) }
{
    out.write(b",,,,,,,,");
    write_quoted(text, out);
    out.write(b",\n");
}

fn write_kind_fields(text: &[u8], out: &mut Room<'_>)
    ensures { Writes out.old out.new (note_fields Note.Kind text.now) }
{
    write_quoted(text, out);
    out.write(b",,,,,,,,,\n");
}

/// Writes a given text between quotation marks, of which no table makes a sum. A path that begins as a sum does is the same
/// path after `./`.
fn write_quoted(text: &[u8], out: &mut Room<'_>)
    ensures { Writes out.old out.new (quoted text.now) }
{
    out.write(b"\"");
    out.write(guard(text));
    write_name(text, Form::Csv, out);
    out.write(b"\"");
}

fn guard(text: &[u8]) -> &'static [u8]
    ensures { result.now ≡ guard text.now }
{
    if begins_as_sum(text) { b"./" } else { b"" }
}

fn begins_as_sum(text: &[u8]) -> bool
    ensures { result ≡ begins_as_sum text.now }
{
    match text {
        [first, ..] => {
            *first == b'='
                || *first == b'+'
                || *first == b'-'
                || *first == b'@'
                || begins_as_wide_sum(text)
        }
        [] => false,
    }
}

/// The same of these four in full width, U+FF1D, U+FF0B, U+FF0D and U+FF20, which tables take for them.
fn begins_as_wide_sum(text: &[u8]) -> bool
    ensures { result ≡ begins_as_wide_sum text.now }
{
    match text {
        [first, second, last, ..] => {
            *first == 0xEF
                && *second == 0xBC
                && (*last == 0x9D || *last == 0x8B || *last == 0x8D || *last == 0xA0)
        }
        _ => false,
    }
}

fn write_type_fields(label: &Label<'_>, out: &mut Room<'_>)
    ensures { Writes out.old out.new (type_fields (label_listed label.now)) }
{
    write_mime_field(label.mime_type, label.is_empty, out);
    out.write(b",");
    out.write_text(or_none(label.extension));
    out.write(b",");
    out.write_text(class_field(label.class));
    out.write(b",");
}

fn write_mime_field(mime_type: Option<&[u8]>, is_empty: bool, out: &mut Room<'_>)
    ensures { Writes out.old out.new (mime_field (option_map (λ m. m.now) mime_type.entry) is_empty) }
{
    match mime_type {
        Some(mime_type) => write_bare(mime_type, out),
        None => out.write(without_type(is_empty)),
    }
}

/// Writes a MIME type as it is, if it has no byte that asks for quotation marks.
fn write_bare(mime_type: &[u8], out: &mut Room<'_>)
    ensures { Writes out.old out.new (if (list_all is_bare mime_type.now && not (begins_as_sum mime_type.now)) then mime_type.now else quoted mime_type.now) }
{
    if is_bare(mime_type) && !begins_as_sum(mime_type) {
        out.write(mime_type);
    } else {
        write_quoted(mime_type, out);
    }
}

fn is_bare(mime_type: &[u8]) -> bool
    ensures { result ≡ list_all is_bare mime_type.now }
{
    mime_type.iter().all(|byte| is_bare_byte(*byte))
}

fn is_bare_byte(byte: u8) -> bool
    ensures { result ≡ is_bare byte }
{
    (b'a' <= byte && byte <= b'z')
        || (b'A' <= byte && byte <= b'Z')
        || (b'+' <= byte && byte <= b'9' && byte != b',')
}

fn without_type(is_empty: bool) -> &'static [u8]
    ensures { result.now ≡ mime_field None is_empty }
{
    if is_empty { b"empty" } else { b"" }
}

fn or_none(text: Option<&str>) -> &str
    ensures { result.now ≡ or_none (option_map (λ t. t.now) text.entry) }
{
    match text {
        Some(text) => text,
        None => "",
    }
}

fn class_field(class: Option<MatcherType>) -> &'static str
    ensures { result.now ≡ class_field class }
{
    match class {
        Some(class) => class_name(class),
        None => "",
    }
}

/// The name of a class, as in `image`.
pub fn class_name(class: MatcherType) -> &'static str
    ensures { result.now ≡ class_name class }
{
    match class {
        MatcherType::App => "app",
        MatcherType::Archive => "archive",
        MatcherType::Audio => "audio",
        MatcherType::Book => "book",
        MatcherType::Doc => "doc",
        MatcherType::Font => "font",
        MatcherType::Image => "image",
        MatcherType::Text => "text",
        MatcherType::Video => "video",
        MatcherType::Custom => "custom",
    }
}

fn encoding_field(encoding: Option<Encoding>) -> &'static str
    ensures { result.now ≡ encoding_field encoding }
{
    match encoding {
        Some(encoding) => encoding.name(),
        None => "",
    }
}

fn write_named_fields(label: &Label<'_>, out: &mut Room<'_>)
    ensures { Writes out.old out.new (named_fields (label_listed label.now)) }
{
    out.write_text(standing_field(label.standing));
    out.write(b",");
    out.write_text(or_none(label.named));
    out.write(b",");
    out.write_text(or_none(label.named_extension));
    out.write(b",");
}

fn standing_field(standing: Option<Standing>) -> &'static str
    ensures { result.now ≡ standing_field standing }
{
    match standing {
        Some(standing) => standing_name(standing),
        None => "",
    }
}

fn write_size(size: Option<usize>, out: &mut Room<'_>)
    ensures { Writes out.old out.new (size_field size) }
{
    if let Some(n) = size {
        out.write_number(n);
    }
}

fn write_why_field(why: Option<&Why<'_>>, out: &mut Room<'_>)
    ensures { Writes out.old out.new (why_field (option_map (λ w. why_listed w.now) why.entry)) }
{
    if let Some(why) = why {
        write_quoted_reasons(why, out);
    }
}

fn write_quoted_reasons(why: &Why<'_>, out: &mut Room<'_>)
    ensures { Writes out.old out.new (why_field (Some (why_listed why.now))) }
{
    out.write(b"\"");
    write_reasons(why, out);
    out.write(b"\"");
}
