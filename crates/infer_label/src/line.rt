//! The line of an input.
ghost use Rattle.std.specs.Prelude.{◌≡◌, ◌++◌, None, Some, codes, if◌then◌else◌, option_map};
ghost use Rattle.infer_label.specs.Label.{label_listed};
ghost use Rattle.infer_label.specs.Line.{alone_text, charset_text, empty_text, encoding_text, extension_text, label_text, line, mime_text, mime_type_text, named_text, note_line, noted, start, told, type_text};
ghost use Rattle.infer_label.specs.Options.{options_listed};
ghost use Rattle.infer_label.specs.Names.{name_shown};
ghost use Rattle.infer_label.specs.Why.{why_listed};
ghost use Rattle.infer_label.specs.WhyText.{why_text};
ghost use Rattle.infer_label.specs.Writes.{Writes};

use crate::csv::{write_fields, write_note_fields, write_quoted_name};
use crate::json::{write_note_member, write_object, write_object_start};
use crate::label::Label;
use crate::names::write_name;
use crate::options::{Form, Note, Options};
use crate::room::Room;
use crate::why::Why;
use crate::why_text::write_why;
use infer_more::text::Encoding;
use infer_named::Standing;

/// Writes the line of an input with this name and label, and why it is so, if that is asked for.
pub fn write_labelled(
    options: Options<'_>,
    name: &[u8],
    label: &Label<'_>,
    why: Option<&Why<'_>>,
    out: &mut Room<'_>,
)
    ensures { Writes out.old out.new
        (line (options_listed options.entry) name.now (label_listed label.now) (option_map (λ w. why_listed w.now) why.entry)) }
{
    write_start(options.form, options.is_unnamed, name, out);
    write_told(options.form, options.size, label, why, out);
}

/// Writes the line of an input with this name that is not looked at.
pub fn write_noted(options: Options<'_>, note: Note, name: &[u8], text: &[u8], out: &mut Room<'_>)
    ensures { Writes out.old out.new (note_line (options_listed options.entry) note name.now text.now) }
{
    write_start(options.form, options.is_unnamed, name, out);
    write_noted_text(options.form, note, text, out);
}

/// Writes the name, unless it is left out.
fn write_start(form: Form, is_unnamed: bool, name: &[u8], out: &mut Room<'_>)
    ensures { Writes out.old out.new (start form is_unnamed name.now) }
{
    match form {
        Form::Text => write_name_before(is_unnamed, name, out),
        Form::Mime => write_name_before_mime(is_unnamed, name, out),
        Form::Json => write_object_start(is_unnamed, name, out),
        Form::Csv => write_quoted_name(is_unnamed, name, out),
    }
}

fn write_name_before(is_unnamed: bool, name: &[u8], out: &mut Room<'_>)
    ensures { Writes out.old out.new (start Form.Text is_unnamed name.now) }
{
    if !is_unnamed {
        write_name(name, Form::Text, out);
        out.write(b": ");
    }
}

fn write_name_before_mime(is_unnamed: bool, name: &[u8], out: &mut Room<'_>)
    ensures { Writes out.old out.new (start Form.Mime is_unnamed name.now) }
{
    if !is_unnamed {
        write_name(name, Form::Mime, out);
        out.write(b": ");
    }
}

fn write_told(
    form: Form,
    size: Option<usize>,
    label: &Label<'_>,
    why: Option<&Why<'_>>,
    out: &mut Room<'_>,
)
    ensures { Writes out.old out.new
        (told form size (label_listed label.now) (option_map (λ w. why_listed w.now) why.entry)) }
{
    match form {
        Form::Text => write_text(label, why, out),
        Form::Mime => write_mime(label, out),
        Form::Json => write_object(label, why, out),
        Form::Csv => write_fields(size, label, why, out),
    }
}

fn write_noted_text(form: Form, note: Note, text: &[u8], out: &mut Room<'_>)
    ensures { Writes out.old out.new (noted form note text.now) }
{
    match form {
        Form::Text => write_end(text, Form::Text, out),
        Form::Mime => write_end(text, Form::Mime, out),
        Form::Json => write_note_member(note, text, out),
        Form::Csv => write_note_fields(note, text, out),
    }
}

/// Writes a text, which ends the line.
fn write_end(text: &[u8], form: Form, out: &mut Room<'_>)
    ensures { Writes out.old out.new (name_shown form text.now ++ codes "\n") }
{
    write_name(text, form, out);
    out.write(b"\n");
}

fn write_text(label: &Label<'_>, why: Option<&Why<'_>>, out: &mut Room<'_>)
    ensures { Writes out.old out.new
        (label_text (label_listed label.now) ++ (why_text (option_map (λ w. why_listed w.now) why.entry) ++ codes "\n")) }
{
    write_label(label, out);
    write_why(why, out);
    out.write(b"\n");
}

fn write_label(label: &Label<'_>, out: &mut Room<'_>)
    ensures { Writes out.old out.new (label_text (label_listed label.now)) }
{
    write_type(label, out);
    write_encoding(label.encoding, out);
    write_named(label.named, out);
}

fn write_type(label: &Label<'_>, out: &mut Room<'_>)
    ensures { Writes out.old out.new (type_text (label_listed label.now).mime_type (label_listed label.now)) }
{
    match label.mime_type {
        Some(mime_type) => write_known(mime_type, label, out),
        None => out.write(without_type(label.is_empty)),
    }
}

fn write_known(mime_type: &[u8], label: &Label<'_>, out: &mut Room<'_>)
    ensures { Writes out.old out.new (type_text (Some mime_type.now) (label_listed label.now)) }
{
    write_name(mime_type, Form::Text, out);
    write_extension(label.extension, out);
    write_alone(label.standing, out);
    write_empty(label.is_empty, out);
}

fn without_type(is_empty: bool) -> &'static [u8]
    ensures { result.now ≡ (if is_empty then codes "empty" else codes "unknown") }
{
    if is_empty { b"empty" } else { b"unknown" }
}

fn write_extension(extension: Option<&str>, out: &mut Room<'_>)
    ensures { Writes out.old out.new (extension_text (option_map (λ e. e.now) extension.entry)) }
{
    if let Some(extension) = extension {
        out.write(b" ");
        out.write_text(extension);
    }
}

/// Writes that only the name tells the type, where it does.
fn write_alone(standing: Option<Standing>, out: &mut Room<'_>)
    ensures { Writes out.old out.new (alone_text standing) }
{
    if let Some(Standing::NameAlone) = standing {
        out.write(b" by its name alone");
    }
}

fn write_empty(is_empty: bool, out: &mut Room<'_>)
    ensures { Writes out.old out.new (empty_text is_empty) }
{
    if is_empty {
        out.write(b", empty");
    }
}

fn write_encoding(encoding: Option<Encoding>, out: &mut Room<'_>)
    ensures { Writes out.old out.new (encoding_text encoding) }
{
    if let Some(encoding) = encoding {
        out.write(b", ");
        out.write_text(encoding.name());
    }
}

/// Writes the type that the name has, where the bytes contradict it.
fn write_named(named: Option<&str>, out: &mut Room<'_>)
    ensures { Writes out.old out.new (named_text (option_map (λ m. m.now) named.entry)) }
{
    if let Some(mime_type) = named {
        out.write(b", but named as ");
        out.write_text(mime_type);
    }
}

fn write_mime(label: &Label<'_>, out: &mut Room<'_>)
    ensures { Writes out.old out.new (mime_text (label_listed label.now) ++ codes "\n") }
{
    write_mime_type(label.mime_type, label.is_empty, out);
    out.write(b"; charset=");
    out.write_text(charset(label.encoding));
    out.write(b"\n");
}

fn write_mime_type(mime_type: Option<&[u8]>, is_empty: bool, out: &mut Room<'_>)
    ensures { Writes out.old out.new (mime_type_text (option_map (λ m. m.now) mime_type.entry) is_empty) }
{
    match mime_type {
        Some(mime_type) => write_name(mime_type, Form::Mime, out),
        None => out.write(without_mime_type(is_empty)),
    }
}

fn without_mime_type(is_empty: bool) -> &'static [u8]
    ensures { result.now ≡ mime_type_text None is_empty }
{
    if is_empty {
        b"inode/x-empty"
    } else {
        b"application/octet-stream"
    }
}

fn charset(encoding: Option<Encoding>) -> &'static str
    ensures { result.now ≡ charset_text encoding }
{
    match encoding {
        Some(encoding) => encoding.name(),
        None => "binary",
    }
}
