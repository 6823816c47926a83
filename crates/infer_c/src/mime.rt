//! MIME types, and what a browser makes of them and of first bytes, as C has it.
ghost use Rattle.std.specs.Prelude.{◌≡◌, ◌↔◌, ◌≤◌, IfSome, IsTrue, List, Option, ℕ, is_some, length, option_map, unwrap_or};
ghost use Rattle.std.specs.Bool.{OnTrue};
ghost use Rattle.mime_types.specs.Extracted.{IsExtracted, mime_together};
ghost use Rattle.mime_types.specs.Mime.{Mime};
ghost use Rattle.mime_types.specs.Nosniff.{IsBlocked};
ghost use Rattle.mime_types.specs.Parse.{tail_text};
ghost use Rattle.mime_types.specs.Seen.{kind_of, mime_of, value_seen};
ghost use Rattle.mime_types.specs.Text.{lower};
ghost use Rattle.mime_types.specs.declared.extraction.Extracted.{Extracted};
ghost use Rattle.mime_sniff.specs.Computed.{AsksNothing, IsComputedIn};
ghost use Rattle.mime_sniff.specs.Growth.{IsDecided};
ghost use Rattle.infer_c.specs.Mime.{IsContextOf, IsDestinationOf, IsEssenceText, IsFoundText, IsGroupCode, IsGroupCodeSaid, IsKindText, IsLeastText, IsMimeText, IsMinimalText, IsTextOf, IsWithRoom, IsReportedText, IsTogetherText, IsValueText, SayTogether, Says, has_bit, kind_said, mime_extracted, supply_said, value_said};
ghost use Rattle.infer_c.specs.Written.{WritesText};

use crate::named::number_if;
use crate::written::{write_bytes, write_text};
use mime_sniff::{Computed, Context, Supplied};
use mime_types::{Destination, Extracted, MimeType, Minimal, Value};

/// How many bytes the text of a MIME type may have.
pub const MOST: usize = 4095;

/// Sniffing is forbidden.
const NO_SNIFF: u32 = 1;

/// The header is one that old servers send of every file.
const OLD_SERVER: u32 = 2;

/// The MIME type that the text says.
fn said(text: &[u8]) -> Option<MimeType<'_>>
    ensures says { Says text.now (option_map mime_of result) }
    ensures tail { IfSome result (λ found. found.tail.now ≡ tail_text text.now) }
{
    mime_types::parse(text)
}

/// The length of the text of the MIME type, which is written to `out`, and 0 if it is none or too long.
pub fn write_said(text: &[u8], out: &mut [u8]) -> usize
    ensures { (said : Option Mime) × (written : List ℕ) × Says text.now said × IsMimeText text.now said written
        × (result ≡ length written) × WritesText written out.old out.new }
{
    write_found(said(text), out)
}

fn write_found(found: Option<MimeType<'_>>, out: &mut [u8]) -> usize
    ensures { (written : List ℕ) × IsFoundText found.entry written
        × (result ≡ length written) × WritesText written out.old out.new }
{
    match found {
        Some(view) => write_view(&view, out),
        None => write_text("", out),
    }
}

fn write_view(view: &MimeType<'_>, out: &mut [u8]) -> usize
    ensures { (written : List ℕ) × IsTextOf view.now.tail.now (mime_of view.now) written
        × (result ≡ length written) × WritesText written out.old out.new }
{
    let mut room = [0; MOST];
    match view.write(&mut room) {
        Ok(end) => write_bytes(&room[..end.min(MOST)], out),
        Err(_) => write_text("", out),
    }
}

/// The length of the essence of the MIME type, which is written to `out`, and 0 if it is none or too long.
pub fn write_essence(text: &[u8], out: &mut [u8]) -> usize
    ensures { (said : Option Mime) × (written : List ℕ) × Says text.now said × IsEssenceText (kind_said said) written
        × (result ≡ length written) × WritesText written out.old out.new }
{
    match said(text) {
        Some(view) => write_kind(&view, out),
        None => write_text("", out),
    }
}

fn write_kind(view: &MimeType<'_>, out: &mut [u8]) -> usize
    ensures { (written : List ℕ) × IsKindText (kind_of view.now) written
        × (result ≡ length written) × WritesText written out.old out.new }
{
    let mut room = [0; MOST];
    match view.write_essence(&mut room) {
        Some(end) => write_bytes(&room[..end.min(MOST)], out),
        None => write_text("", out),
    }
}

/// The length of the value of the MIME type's parameter with that name, which is written to `out`, and whether there is one. It
/// is 0 if that is too long.
pub fn write_parameter(text: &[u8], name: &[u8], has: &mut bool, out: &mut [u8]) -> usize
    ensures { (said : Option Mime) × (written : List ℕ) × Says text.now said
        × (has.new ≡ is_some (value_said (lower name.now) said))
        × IsValueText (value_said (lower name.now) said) written
        × (result ≡ length written) × WritesText written out.old out.new }
{
    match value(text, name) {
        Some(value) => {
            *has = true;
            write_value(&value, out)
        },
        None => {
            *has = false;
            write_text("", out)
        },
    }
}

/// The value of the MIME type's parameter with that name.
fn value<'a>(text: &'a [u8], name: &[u8]) -> Option<Value<'a>>
    ensures { (said : Option Mime) × Says text.now said
        × (option_map value_seen result ≡ value_said (lower name.now) said) }
{
    match said(text) {
        Some(view) => view.parameter(name),
        None => None,
    }
}

fn write_value(value: &Value<'_>, out: &mut [u8]) -> usize
    ensures { (written : List ℕ) × IsWithRoom (value_seen value.now) written
        × (result ≡ length written) × WritesText written out.old out.new }
{
    let mut room = [0; MOST];
    match value.write(&mut room) {
        Some(end) => write_bytes(&room[..end.min(MOST)], out),
        None => write_text("", out),
    }
}

/// The length of what the MIME type is taken for, which is written to `out`, and 0 if that is nothing or too long.
pub fn write_minimal(text: &[u8], is_supported: bool, out: &mut [u8]) -> usize
    ensures { (said : Option Mime) × (written : List ℕ) × Says text.now said
        × IsMinimalText (kind_said said) is_supported written
        × (result ≡ length written) × WritesText written out.old out.new }
{
    match said(text) {
        Some(view) => write_minimal_of(&view, is_supported, out),
        None => write_text("", out),
    }
}

fn write_minimal_of(view: &MimeType<'_>, is_supported: bool, out: &mut [u8]) -> usize
    ensures { (written : List ℕ) × IsLeastText (kind_of view.now) is_supported written
        × (result ≡ length written) × WritesText written out.old out.new }
{
    match view.minimize(is_supported) {
        Minimal::JavaScript => write_text("text/javascript", out),
        Minimal::Json => write_text("application/json", out),
        Minimal::Svg => write_text("image/svg+xml", out),
        Minimal::Xml => write_text("application/xml", out),
        Minimal::Essence => write_kind(view, out),
        Minimal::Nothing => write_text("", out),
    }
}

/// The sum of the numbers of the MIME type's groups, and 0 if the text says none.
pub fn groups(text: &[u8]) -> u32
    ensures { (said : Option Mime) × Says text.now said × IsGroupCodeSaid (kind_said said) result }
{
    match said(text) {
        Some(view) => groups_of(&view),
        None => 0,
    }
}

fn groups_of(view: &MimeType<'_>) -> u32
    ensures { IsGroupCode (kind_of view.now) result }
{
    number_if(view.is_image(), 1)
        + number_if(view.is_audio_or_video(), 2)
        + number_if(view.is_font(), 4)
        + number_if(view.is_zip_based(), 8)
        + number_if(view.is_archive(), 16)
        + number_if(view.is_xml(), 32)
        + number_if(view.is_html(), 64)
        + number_if(view.is_scriptable(), 128)
        + number_if(view.is_javascript(), 256)
        + number_if(view.is_json(), 512)
}

/// The length of the text of what values of `Content-Type` say together, which is written to `out`, and 0 if they say nothing or
/// it is too long.
pub fn write_extracted(value: &[u8], out: &mut [u8]) -> usize
    ensures { (found : Option Extracted) × (written : List ℕ) × SayTogether value.now found × IsTogetherText found written
        × (result ≡ length written) × WritesText written out.old out.new }
{
    match mime_types::extract(value) {
        Some(found) => write_together(&found, out),
        None => write_text("", out),
    }
}

fn write_together(found: &Extracted<'_>, out: &mut [u8]) -> usize
    ensures { (written : List ℕ) × IsTextOf found.now.mime_type.tail.now (mime_together found.now) written
        × (result ≡ length written) × WritesText written out.old out.new }
{
    let mut room = [0; MOST];
    match found.write(&mut room) {
        Ok(end) => write_bytes(&room[..end.min(MOST)], out),
        Err(_) => write_text("", out),
    }
}

/// The MIME type that the values of `Content-Type` together say.
fn extracted(value: &[u8]) -> Option<MimeType<'_>>
    ensures { (found : Option Extracted) × IsExtracted value.now found × (result ≡ mime_extracted found) }
{
    match mime_types::extract(value) {
        Some(found) => Some(found.mime_type),
        None => None,
    }
}

/// Whether a response with `nosniff` is blocked, by the values of `Content-Type` and by what it is fetched for.
pub fn is_blocked(value: &[u8], code: i32) -> bool
    ensures { (found : Option Extracted) × IsExtracted value.now found
        × (wanted : Option Destination) × IsDestinationOf code wanted
        × (IsTrue result ↔ IsBlocked (mime_extracted found) (unwrap_or wanted Destination.Other)) }
{
    mime_types::is_blocked(
        extracted(value),
        destination(code).unwrap_or(Destination::Other),
    )
}

/// The destination with this number.
fn destination(code: i32) -> Option<Destination>
    ensures { IsDestinationOf code result }
{
    match code {
        0 => Some(Destination::Script),
        1 => Some(Destination::Style),
        2 => Some(Destination::Other),
        _ => None,
    }
}

/// The context with this number.
fn context(code: i32) -> Option<Context>
    ensures { IsContextOf code result }
{
    match code {
        0 => Some(Context::Browsing),
        1 => Some(Context::Image),
        2 => Some(Context::AudioOrVideo),
        3 => Some(Context::Font),
        4 => Some(Context::Plugin),
        5 => Some(Context::Style),
        6 => Some(Context::Script),
        7 => Some(Context::TextTrack),
        8 => Some(Context::CacheManifest),
        _ => None,
    }
}

/// What is known of a resource, by a text and flags.
fn supplied(content_type: &[u8], flags: u32) -> Supplied<'_>
    ensures says { Says content_type.now (option_map mime_of result.mime_type) }
    ensures tail { IfSome result.mime_type (λ found. found.tail.now ≡ tail_text content_type.now) }
    ensures no_sniff { result.no_sniff ≡ has_bit flags NO_SNIFF }
    ensures old_server { result.check_for_apache_bug ≡ has_bit flags OLD_SERVER }
{
    Supplied {
        mime_type: said(content_type),
        no_sniff: has_bit(flags, NO_SNIFF),
        check_for_apache_bug: has_bit(flags, OLD_SERVER),
    }
}

pub fn has_bit(flags: u32, bit: u32) -> bool
    ensures { result ≡ has_bit flags bit }
{
    flags & bit == bit
}

/// The length of the computed type, which is written to `out`, and 0 if there is none.
pub fn write_computed(
    content_type: &[u8],
    flags: u32,
    code: i32,
    buf: &[u8],
    out: &mut [u8],
) -> usize
    ensures { (said : Option Mime) × (told : Option (List ℕ)) × (written : List ℕ) × Says content_type.now said
        × (place : Option Context) × IsContextOf code place
        × IsComputedIn (unwrap_or place Context.Browsing) (supply_said said flags) buf.now told
        × IsReportedText content_type.now said told written
        × (result ≡ length written) × WritesText written out.old out.new }
{
    let supplied = supplied(content_type, flags);
    let context = context(code).unwrap_or(Context::Browsing);
    match mime_sniff::compute_in(context, &supplied, buf) {
        Computed::Sniffed(mime_type) => write_text(mime_type, out),
        Computed::Same => write_found(supplied.mime_type, out),
    }
}

/// Whether no bytes after `buf` change the type that a page has: a yes is certain.
pub fn is_decided(content_type: &[u8], flags: u32, buf: &[u8]) -> bool
    ensures right { (said : Option Mime) × Says content_type.now said
        × OnTrue result (IsDecided (supply_said said flags) buf.now)
        × (AsksNothing (supply_said said flags) → IsTrue result) }
    ensures full { 1445 ≤ length buf.now → IsTrue result }
{
    mime_sniff::is_decided(&supplied(content_type, flags), buf)
}
