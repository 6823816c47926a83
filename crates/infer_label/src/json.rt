//! The line of an input as an object of JSON.
ghost use Rattle.std.specs.Prelude.{◌≡◌, ◌++◌, None, Some, codes, option_map};
ghost use Rattle.infer_label.specs.Label.{label_listed};
ghost use Rattle.infer_label.specs.Line.{empty_member, encoding_member, extension_member, hex_member, label_members, name_member, named_member, note_member, standing_member, standing_name, start, type_members, utf8_member, verdict_member, verdict_name};
ghost use Rattle.infer_label.specs.Names.{name_shown};
ghost use Rattle.infer_label.specs.Why.{why_listed};
ghost use Rattle.infer_label.specs.WhyJson.{why_member};
ghost use Rattle.infer_label.specs.Writes.{Writes};

use crate::label::Label;
use crate::names::{write_hex, write_name};
use crate::options::{Form, Note};
use crate::room::Room;
use crate::why::Why;
use crate::why_json::write_why_member;
use infer_more::text::Encoding;
use infer_named::Standing;

/// Begins an object, with the name, unless it is left out.
pub fn write_object_start(is_unnamed: bool, name: &[u8], out: &mut Room<'_>)
    ensures { Writes out.old out.new (start Form.Json is_unnamed name.now) }
{
    if is_unnamed {
        out.write(b"{");
    } else {
        write_name_member(name, out);
    }
}

/// Writes what is reported of a label, and ends the object.
pub fn write_object(label: &Label<'_>, why: Option<&Why<'_>>, out: &mut Room<'_>)
    ensures { Writes out.old out.new
        (label_members (label_listed label.now) ++ (why_member (option_map (λ w. why_listed w.now) why.entry) ++ codes "}\n")) }
{
    write_members(label, out);
    write_why_member(why, out);
    out.write(b"}\n");
}

/// Writes the member of an input that is not looked at, and ends the object.
pub fn write_note_member(note: Note, text: &[u8], out: &mut Room<'_>)
    ensures { Writes out.old out.new (note_member note ++ (name_shown Form.Json text.now ++ codes "\"}\n")) }
{
    out.write(note_member(note));
    write_name(text, Form::Json, out);
    out.write(b"\"}\n");
}

fn note_member(note: Note) -> &'static [u8]
    ensures { result.now ≡ note_member note }
{
    match note {
        Note::Fault => b"\"fault\":\"",
        Note::Kind => b"\"kind\":\"",
    }
}

/// Writes the name, or its bytes in hexadecimal if it is not UTF-8.
fn write_name_member(name: &[u8], out: &mut Room<'_>)
    ensures { Writes out.old out.new (name_member name.now) }
{
    match str::from_utf8(name) {
        Ok(_) => write_utf8_member(name, out),
        Err(_) => write_hex_member(name, out),
    }
}

fn write_utf8_member(name: &[u8], out: &mut Room<'_>)
    ensures { Writes out.old out.new (utf8_member name.now) }
{
    out.write(b"{\"name\":\"");
    write_name(name, Form::Json, out);
    out.write(b"\",");
}

fn write_hex_member(name: &[u8], out: &mut Room<'_>)
    ensures { Writes out.old out.new (hex_member name.now) }
{
    out.write(b"{\"name_hex\":\"");
    write_hex(name, out);
    out.write(b"\",");
}

fn write_members(label: &Label<'_>, out: &mut Room<'_>)
    ensures { Writes out.old out.new (label_members (label_listed label.now)) }
{
    write_type_members(label.mime_type, label.extension, out);
    write_empty_member(label.is_empty, out);
    write_encoding_member(label.encoding, out);
    write_standing_member(label.standing, out);
    write_verdict_member(label.standing, out);
    write_named_member(label.named, out);
}

fn write_type_members(mime_type: Option<&[u8]>, extension: Option<&str>, out: &mut Room<'_>)
    ensures { Writes out.old out.new
        (type_members (option_map (λ m. m.now) mime_type.entry) (option_map (λ e. e.now) extension.entry)) }
{
    match mime_type {
        Some(mime_type) => write_known_type(mime_type, extension, out),
        None => write_no_type(out),
    }
}

fn write_known_type(mime_type: &[u8], extension: Option<&str>, out: &mut Room<'_>)
    ensures { Writes out.old out.new
        (type_members (Some mime_type.entry.now) (option_map (λ e. e.now) extension.entry)) }
{
    out.write(b"\"mime_type\":\"");
    write_name(mime_type, Form::Json, out);
    out.write(b"\"");
    write_extension_member(extension, out);
}

fn write_no_type(out: &mut Room<'_>)
    ensures { Writes out.old out.new (type_members None None) }
{
    out.write(b"\"mime_type\":null");
}

fn write_extension_member(extension: Option<&str>, out: &mut Room<'_>)
    ensures { Writes out.old out.new (extension_member (option_map (λ e. e.now) extension.entry)) }
{
    if let Some(extension) = extension {
        write_member(b",\"extension\":\"", extension, out);
    }
}

fn write_empty_member(is_empty: bool, out: &mut Room<'_>)
    ensures { Writes out.old out.new (empty_member is_empty) }
{
    if is_empty {
        out.write(b",\"empty\":true");
    }
}

fn write_encoding_member(encoding: Option<Encoding>, out: &mut Room<'_>)
    ensures { Writes out.old out.new (encoding_member encoding) }
{
    if let Some(encoding) = encoding {
        write_member(b",\"encoding\":\"", encoding.name(), out);
    }
}

fn write_standing_member(standing: Option<Standing>, out: &mut Room<'_>)
    ensures { Writes out.old out.new (standing_member standing) }
{
    if let Some(standing) = standing {
        write_member(b",\"standing\":\"", standing_name(standing), out);
    }
}

fn write_verdict_member(standing: Option<Standing>, out: &mut Room<'_>)
    ensures { Writes out.old out.new (verdict_member standing) }
{
    if let Some(standing) = standing {
        write_member(b",\"verdict\":\"", verdict_name(standing), out);
    }
}

fn write_named_member(named: Option<&str>, out: &mut Room<'_>)
    ensures { Writes out.old out.new (named_member (option_map (λ m. m.now) named.entry)) }
{
    if let Some(mime_type) = named {
        write_member(b",\"named\":\"", mime_type, out);
    }
}

/// Writes a member whose name and mark are these.
fn write_member(before: &[u8], value: &str, out: &mut Room<'_>)
    ensures { Writes out.old out.new (before.now ++ (value.now ++ codes "\"")) }
{
    out.write(before);
    out.write_text(value);
    out.write(b"\"");
}

/// What a name did, in words.
pub fn standing_name(standing: Standing) -> &'static str
    ensures { result.now ≡ standing_name standing }
{
    match standing {
        Standing::Agree => "agree",
        Standing::NameRefines => "name refines",
        Standing::BytesRefine => "bytes refine",
        Standing::BytesAlone => "bytes alone",
        Standing::NameAlone => "name alone",
        Standing::Contradicts => "contradicts",
        Standing::Nothing => "nothing",
    }
}

/// The verdict on the name.
fn verdict_name(standing: Standing) -> &'static str
    ensures { result.now ≡ verdict_name standing }
{
    match standing {
        Standing::Agree | Standing::NameRefines | Standing::BytesRefine => "fits",
        Standing::BytesAlone | Standing::Nothing => "silent",
        Standing::NameAlone => "unproven",
        Standing::Contradicts => "lies",
    }
}
