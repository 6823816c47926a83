//! `infer` for C: each function is the call below it, with its contract. `c/infer.h` declares and explains
//! them. A text from C is bytes: one that is not UTF-8 is no row's text.
#![tactic(auto)]

ghost use Rattle.std.specs.Prelude.{◌≡◌, ◌↔◌, ◌+◌, ◌≤◌, ◌⊎◌, ℕ, List, Option, None, Some, [], Any, IsTrue, codes, is_some, length, negsuc, pos, ◌<◌, IfSome, unwrap_or};
ghost use Rattle.std.specs.Bool.{OnFalse, OnTrue};
ghost use Rattle.std.specs.Option.{option_map_or};
ghost use Rattle.infer.specs.App.{coff_i386, coff_ia64, coff_x64};
ghost use Rattle.infer.specs.Signature.{accepts};
ghost use Rattle.infer.specs.Decided.{IsDecided};
ghost use Rattle.infer.specs.Evidence.{Decides};
ghost use Rattle.infer.specs.First.{IsFirstOf, SomeHas};
ghost use Rattle.infer.specs.Questions.{HasClass, HasExtension, HasMimeType, SomeBoth};
ghost use Rattle.infer.specs.Row.{Accepts};
ghost use Rattle.infer.specs.Table.{table};
ghost use Rattle.infer.specs.Walks.{count_asked};
ghost use Rattle.infer.specs.declared.table.rows.TheConstants.{MOST_CANDIDATES, ROW_COUNT};
ghost use Rattle.infer_sniff.specs.Verdicts.{IsSettled, RowStaysFinal};
ghost use Rattle.infer_c.specs.Codes.{AcceptsAt, IsClassOf, IsSampleOf, MayBecomeAt, class_code, row_code, triple_at};
ghost use Rattle.infer_formats.specs.Text.{IsEncodingOf, encoding_name};
ghost use Rattle.infer_formats.specs.declared.text.Encoding.{Encoding};
ghost use Rattle.infer_more.specs.declared.types.Mistake.{Mistake};
ghost use Rattle.infer_more.specs.Decided as wider;
ghost use Rattle.infer_more.specs.Ended.{ended};
ghost use Rattle.infer_more.specs.Evidence as wider_evidence;
ghost use Rattle.infer_more.specs.Wider.{IsWider, shown};
ghost use Rattle.infer.specs.Triple.{Triple};
ghost use Rattle.infer_more.specs.Line.{Row};
ghost use Rattle.infer_more.specs.Text.{IsAnswerLine, IsMistake, IsTypesAnswer, reason_text, rows_of};
ghost use Rattle.mime_sniff.specs.Go.{IsContentType};
ghost use Rattle.mime_types.specs.Extracted.{IsExtracted};
ghost use Rattle.mime_types.specs.Mime.{Mime};
ghost use Rattle.mime_types.specs.Nosniff.{IsBlocked, IsNosniff};
ghost use Rattle.mime_types.specs.Text.{lower};
ghost use Rattle.mime_types.specs.declared.extraction.Extracted.{Extracted};
ghost use Rattle.mime_sniff.specs.Computed.{AsksNothing, IsComputedIn, apache_bugs};
ghost use Rattle.mime_sniff.specs.Growth as growth;
ghost use Rattle.mime_sniff.specs.Growth.{MayScript, NeverScripts, Scripts};
ghost use Rattle.infer_label.specs.Line.{class_name, note_line};
ghost use Rattle.infer_label.specs.Writes.{saturated};
ghost use Rattle.infer_c.specs.Label.{WritesLine, note_of, options_by};
ghost use Rattle.infer_c.specs.Mime.{IsContextOf, IsDestinationOf, IsEssenceText, IsGroupCodeSaid, IsMimeText, IsMinimalText, IsReportedText, IsTogetherText, IsValueText, SayTogether, Says, kind_said, mime_extracted, supply_said, value_said};
ghost use Rattle.infer_c.specs.Named.{IsOddityCode, StoresNamed};
ghost use Rattle.infer_c.specs.Evidence.{StoresEvidence};
ghost use Rattle.infer_c.specs.Written.{WritesText, WritesWhole};

mod class;
mod evidence;
mod label;
mod mime;
mod named;
mod row;
mod texts;
mod written;

use evidence::{Needs, WrittenRange};
use infer::MatcherType;
use infer_evidence::Evidence;
use infer_label::class_name;
use infer_more::laws;
use label::Asked;
use mime_sniff::Context;
use mime_types::Destination;
use named::NamedAnswer;

const VERSION: &str = "0.1.0";

/// The number of the first row that accepts `buf`, or -1.
#[unsafe(no_mangle)]
pub extern "C" fn infer_position(buf: &[u8]) -> i32
    ensures { (first : Option ℕ) × IsFirstOf (Accepts buf.now) table first
        × (result ≡ row_code first) }
{
    match infer::position(buf) {
        Some(i) => i as i32,
        None => -1,
    }
}

/// The number of the first row that accepts `buf`, or -1, and whether the verdict is final: then no bytes after `buf`
/// change it.
#[unsafe(no_mangle)]
pub extern "C" fn infer_verdict(buf: &[u8], is_final: &mut bool) -> i32
    ensures first { (first : Option ℕ) × IsFirstOf (Accepts buf.now) table first
        × (result ≡ row_code first)
        × (IsTrue is_final.new → RowStaysFinal buf.now first) }
    ensures settled { IsTrue is_final.new ↔ IsSettled buf.now }
{
    let (found, is_settled) = infer_sniff::position_settled(buf);
    *is_final = is_settled;
    match found {
        Some(i) => i as i32,
        None => -1,
    }
}

/// The number of the first row that accepts `buf`, or -1, and how many rows were asked for it.
#[unsafe(no_mangle)]
pub extern "C" fn infer_position_counted(buf: &[u8], asked: &mut u32) -> i32
    ensures first { (first : Option ℕ) × IsFirstOf (Accepts buf.now) table first
        × (result ≡ row_code first)
        × (asked.new ≡ count_asked None buf.now first) }
    ensures few { asked.new ≤ MOST_CANDIDATES }
{
    let (found, count) = infer::position_counted(buf);
    *asked = count;
    match found {
        Some(i) => i as i32,
        None => -1,
    }
}

/// Whether there is a row with this number, built-in or further, and its signature accepts `buf`.
#[unsafe(no_mangle)]
pub extern "C" fn infer_accepts(buf: &[u8], row: i32) -> bool
    ensures { IsTrue result ↔ AcceptsAt buf.now row }
{
    row >= 0 && infer_more::accepts(buf, row as usize)
}

/// Whether no bytes after `buf` change the number of the first row that accepts it.
#[unsafe(no_mangle)]
pub extern "C" fn infer_is_decided(buf: &[u8]) -> bool
    ensures { IsTrue result ↔ IsDecided buf.now }
{
    infer::is_decided(buf)
}

/// Whether there is a built-in row with this number, and some bytes after `buf` make it accept.
#[unsafe(no_mangle)]
pub extern "C" fn infer_may_become(buf: &[u8], row: i32) -> bool
    ensures { IsTrue result ↔ MayBecomeAt buf.now row }
{
    row >= 0 && infer::may_become(buf, row as usize)
}

/// The number of built-in rows.
#[unsafe(no_mangle)]
pub extern "C" fn infer_row_count() -> usize
    ensures { result ≡ length table }
{
    infer::rows::numbers();
    infer::rows::ROW_COUNT
}

/// The number of the wider answer of `buf`, or -1.
#[unsafe(no_mangle)]
pub extern "C" fn infer_more_position(buf: &[u8]) -> i32
    ensures { (wider : Option ℕ) × IsWider buf.now wider × (result ≡ row_code wider) }
{
    match infer_more::position(buf) {
        Some(i) => i as i32,
        None => -1,
    }
}

/// Whether no bytes after `buf` change the number of its wider answer: a yes is certain.
#[unsafe(no_mangle)]
pub extern "C" fn infer_more_is_decided(buf: &[u8]) -> bool
    ensures { IsTrue result → wider.IsDecided buf.now }
{
    infer_more::is_decided(buf)
}

/// Whether there is a row with this number, built-in or further, and some bytes after `buf`, or none, may make its
/// signature accept it: a no is certain, and so is a yes but of a further row that asks for a relation.
#[unsafe(no_mangle)]
pub extern "C" fn infer_more_may_become(buf: &[u8], row: i32) -> bool
    ensures may { (i : ℕ) → row ≡ pos i → wider.MayBecomeAt buf.now i → IsTrue result }
    ensures exact { IsTrue result → (i : ℕ) × (row ≡ pos i)
        × (wider.MayBecomeAt buf.now i ⊎ wider.AsksForRelation i) }
{
    row >= 0 && infer_more::may_become(buf, row as usize)
}

/// The number of the first row that accepts `buf`, or -1, and what decides it. Ranges of `buf` are written to `ranges`, as
/// many as it has room for, and `needs` says how many are wanted and what is needed of the length: every buffer with the same
/// bytes in all of these and such a length has the same answer.
#[unsafe(no_mangle)]
pub extern "C" fn infer_evidence(buf: &[u8], ranges: &mut [WrittenRange], needs: &mut Needs) -> i32
    ensures first { (first : Option ℕ) × IsFirstOf (Accepts buf.now) table first
        × (result ≡ row_code first)
        × StoresEvidence (λ e. Decides e buf.now first) buf.now ranges.old ranges.new needs.new }
    ensures few { needs.new.wanted ≤ 68 }
{
    let mut evidence = Evidence::new();
    let found = infer::evidence(buf, &mut evidence);
    evidence::store(&evidence, ranges, needs);
    match found {
        Some(i) => i as i32,
        None => -1,
    }
}

/// The number of the wider answer of `buf`, or -1, and what decides it, in the same way.
#[unsafe(no_mangle)]
pub extern "C" fn infer_more_evidence(
    buf: &[u8],
    ranges: &mut [WrittenRange],
    needs: &mut Needs,
) -> i32
    ensures wider { (wider : Option ℕ) × IsWider buf.now wider × (result ≡ row_code wider)
        × StoresEvidence (λ e. wider_evidence.Decides e buf.now wider) buf.now ranges.old ranges.new needs.new }
    ensures few { needs.new.wanted ≤ 80 }
{
    let mut evidence = Evidence::new();
    let found = infer_more::evidence(buf, &mut evidence);
    evidence::store(&evidence, ranges, needs);
    match found {
        Some(i) => i as i32,
        None => -1,
    }
}

/// The number of rows, built-in and further.
#[unsafe(no_mangle)]
pub extern "C" fn infer_more_row_count() -> usize
    ensures { result ≡ length shown }
{
    infer_more::laws::numbers();
    infer::rows::ROW_COUNT + infer_more::FURTHER_COUNT
}

/// The length of the row's MIME type, which is written to `out`, and 0 if there is no such row. It is at most 73.
#[unsafe(no_mangle)]
pub extern "C" fn infer_mime_type(row: i32, out: &mut [u8]) -> usize
    ensures length { result ≡ option_map_or (λ t. length t.mime_type) (triple_at row) 0 }
    ensures few { result ≤ 73 }
    ensures written { WritesText (option_map_or (λ t. t.mime_type)
        (triple_at row) []) out.old out.new }
{
    match row::of(row) {
        Some(found) => written::write_text(found.mime_type(), out),
        None => written::write_text("", out),
    }
}

/// The length of the row's extension, which is written to `out`, and 0 if there is no such row. It is at most 73.
#[unsafe(no_mangle)]
pub extern "C" fn infer_extension(row: i32, out: &mut [u8]) -> usize
    ensures length { result ≡ option_map_or (λ t. length t.extension) (triple_at row) 0 }
    ensures few { result ≤ 73 }
    ensures written { WritesText (option_map_or (λ t. t.extension)
        (triple_at row) []) out.old out.new }
{
    match row::of(row) {
        Some(found) => written::write_text(found.extension(), out),
        None => written::write_text("", out),
    }
}

/// Stores where the row's MIME type stands, with a zero after it, and the empty text if there is no such row.
#[unsafe(no_mangle)]
pub extern "C" fn infer_find_mime_type(row: i32, out: &mut &'static [u8])
    ensures { out.new.now ≡ ended (option_map_or (λ t. t.mime_type) (triple_at row) []) }
{
    *out = texts::of(row).mime_type.as_bytes();
}

/// Stores where the row's extension stands, with a zero after it, and the empty text if there is no such row.
#[unsafe(no_mangle)]
pub extern "C" fn infer_find_extension(row: i32, out: &mut &'static [u8])
    ensures { out.new.now ≡ ended (option_map_or (λ t. t.extension) (triple_at row) []) }
{
    *out = texts::of(row).extension.as_bytes();
}

/// The number of the row's class, and -1 if there is no such row.
#[unsafe(no_mangle)]
pub extern "C" fn infer_class(row: i32) -> i32
    ensures { result ≡ option_map_or (λ t. class_code t.class) (triple_at row) (negsuc 0) }
{
    match row::of(row) {
        Some(found) => class::code(found.matcher_type()),
        None => -1,
    }
}

/// The length of the class's name, which is written to `out`, and 0 if no class has this number. It is at most 73.
#[unsafe(no_mangle)]
pub extern "C" fn infer_class_name(class: i32, out: &mut [u8]) -> usize
    ensures text { (found : Option MatcherType) × IsClassOf class found
        × (result ≡ option_map_or (λ c. length (class_name c)) found 0)
        × WritesText (option_map_or class_name found []) out.old out.new }
    ensures few { result ≤ 73 }
{
    match class::of(class) {
        Some(found) => written::write_text(class_name(found), out),
        None => written::write_text("", out),
    }
}

/// Stores where the class's name stands, with a zero after it, and the empty text if no class has this number.
#[unsafe(no_mangle)]
pub extern "C" fn infer_find_class_name(class: i32, out: &mut &'static [u8])
    ensures { (found : Option MatcherType) × IsClassOf class found
        × (out.new.now ≡ ended (option_map_or class_name found [])) }
{
    *out = match class::of(class) {
        Some(found) => class::ended_name(found).as_bytes(),
        None => b"\0",
    };
}

/// The length of the IANA name of the encoding of the text `buf`, which is written to `out`, and 0 if `buf` is no text or
/// its encoding is not known. It is at most 73.
#[unsafe(no_mangle)]
pub extern "C" fn infer_encoding(buf: &[u8], out: &mut [u8]) -> usize
    ensures text { (found : Option Encoding) × IsEncodingOf buf.now found
        × (result ≡ option_map_or (λ e. length (encoding_name e)) found 0)
        × WritesText (option_map_or encoding_name found []) out.old out.new }
    ensures few { result ≤ 73 }
{
    match infer_more::encoding(buf) {
        Some(found) => written::write_text(found.name(), out),
        None => written::write_text("", out),
    }
}

/// The length of the content type of `buf`, as Go's function gives it, which is written to `out`. It is at most 73.
#[unsafe(no_mangle)]
pub extern "C" fn infer_detect_content_type(buf: &[u8], out: &mut [u8]) -> usize
    ensures text { (found : List ℕ) × IsContentType buf.now found × (result ≡ length found)
        × WritesText found out.old out.new }
    ensures few { result ≤ 73 }
{
    written::write_text(mime_sniff::go::detect_content_type(buf), out)
}

/// The length of the text of the MIME type that `text` says, which is written to `out`, and 0 if it says none, has more than
/// 256 parameters, those that do not count among them, or would take more than 4095 bytes.
#[unsafe(no_mangle)]
pub extern "C" fn infer_mime_parse(text: &[u8], out: &mut [u8]) -> usize
    ensures { (said : Option Mime) × (written : List ℕ) × Says text.now said × IsMimeText text.now said written
        × (result ≡ length written) × WritesText written out.old out.new }
{
    mime::write_said(text, out)
}

/// The length of that MIME type's type and subtype, as `text/html`, which is written to `out`, and 0 if there is none or it
/// would take more than 4095 bytes.
#[unsafe(no_mangle)]
pub extern "C" fn infer_mime_essence(text: &[u8], out: &mut [u8]) -> usize
    ensures { (said : Option Mime) × (written : List ℕ) × Says text.now said × IsEssenceText (kind_said said) written
        × (result ≡ length written) × WritesText written out.old out.new }
{
    mime::write_essence(text, out)
}

/// The length of what that MIME type is taken for by someone who supports it or not, which is written to `out`, and 0 if
/// that is nothing or would take more than 4095 bytes.
#[unsafe(no_mangle)]
pub extern "C" fn infer_mime_minimize(text: &[u8], is_supported: bool, out: &mut [u8]) -> usize
    ensures { (said : Option Mime) × (written : List ℕ) × Says text.now said
        × IsMinimalText (kind_said said) is_supported written
        × (result ≡ length written) × WritesText written out.old out.new }
{
    mime::write_minimal(text, is_supported, out)
}

/// The length of the value of that MIME type's parameter with the name, in any ASCII case, which is written to `out`, and
/// whether there is one. It is 0 if the value would take more than 4095 bytes.
#[unsafe(no_mangle)]
pub extern "C" fn infer_mime_parameter(
    text: &[u8],
    name: &[u8],
    has: &mut bool,
    out: &mut [u8],
) -> usize
    ensures { (said : Option Mime) × (written : List ℕ) × Says text.now said
        × (has.new ≡ is_some (value_said (lower name.now) said))
        × IsValueText (value_said (lower name.now) said) written
        × (result ≡ length written) × WritesText written out.old out.new }
{
    mime::write_parameter(text, name, has, out)
}

/// The groups that the MIME type is in, as a sum, and 0 if `text` says none.
#[unsafe(no_mangle)]
pub extern "C" fn infer_mime_groups(text: &[u8]) -> u32
    ensures { (said : Option Mime) × Says text.now said × IsGroupCodeSaid (kind_said said) result }
{
    mime::groups(text)
}

/// The length of the text of the MIME type that the values of `Content-Type` say together, as Fetch extracts it, which is written
/// to `out`: with the charset of the first of its kind after its parameters, if it has none. It is 0 if they say none, or it has
/// more than 256 parameters, those that do not count among them, or would take more than 4095 bytes.
#[unsafe(no_mangle)]
pub extern "C" fn infer_mime_extract(value: &[u8], out: &mut [u8]) -> usize
    ensures { (found : Option Extracted) × (written : List ℕ) × SayTogether value.now found × IsTogetherText found written
        × (result ≡ length written) × WritesText written out.old out.new }
{
    mime::write_extracted(value, out)
}

/// Whether the value of `X-Content-Type-Options` forbids to sniff.
#[unsafe(no_mangle)]
pub extern "C" fn infer_mime_is_nosniff(value: &[u8]) -> bool
    ensures { IsTrue result ↔ IsNosniff value.now }
{
    mime_types::is_nosniff(value)
}

/// Whether a response that forbids to sniff is blocked, by the value of `Content-Type` and what it is fetched for: 0 is a
/// script, 1 a style sheet, and all else something else.
#[unsafe(no_mangle)]
pub extern "C" fn infer_mime_is_blocked(value: &[u8], destination: i32) -> bool
    ensures { (found : Option Extracted) × IsExtracted value.now found
        × (wanted : Option Destination) × IsDestinationOf destination wanted
        × (IsTrue result ↔ IsBlocked (mime_extracted found) (unwrap_or wanted Destination.Other)) }
{
    mime::is_blocked(value, destination)
}

/// Whether the value of `Content-Type` is one that old servers send of every file.
#[unsafe(no_mangle)]
pub extern "C" fn infer_mime_is_old_server(value: &[u8]) -> bool
    ensures { IsTrue result ↔ Any (λ bug. value.now ≡ bug) apache_bugs }
{
    mime_sniff::is_apache_bug(value)
}

/// The length of the type that a browser computes, which is written to `out`, and 0 if there is none: by a MIME type, flags,
/// what it is loaded for, and the first bytes.
#[unsafe(no_mangle)]
pub extern "C" fn infer_mime_compute(
    content_type: &[u8],
    flags: u32,
    context: i32,
    buf: &[u8],
    out: &mut [u8],
) -> usize
    ensures { (said : Option Mime) × (told : Option (List ℕ)) × (written : List ℕ) × Says content_type.now said
        × (place : Option Context) × IsContextOf context place
        × IsComputedIn (unwrap_or place Context.Browsing) (supply_said said flags) buf.now told
        × IsReportedText content_type.now said told written
        × (result ≡ length written) × WritesText written out.old out.new }
{
    mime::write_computed(content_type, flags, context, buf, out)
}

/// Whether no bytes after `buf` change the type that a browser computes of a page: a yes is certain. It is a yes for 1445 bytes,
/// and where no bytes are asked.
#[unsafe(no_mangle)]
pub extern "C" fn infer_mime_is_decided(content_type: &[u8], flags: u32, buf: &[u8]) -> bool
    ensures right { (said : Option Mime) × Says content_type.now said
        × OnTrue result (growth.IsDecided (supply_said said flags) buf.now)
        × (AsksNothing (supply_said said flags) → IsTrue result) }
    ensures full { 1445 ≤ length buf.now → IsTrue result }
{
    mime::is_decided(content_type, flags, buf)
}

/// Whether a browser that knows no type may compute one that runs scripts, from these bytes or with more after them: a no is
/// certain. Of 1445 bytes a yes is certain too. Of fewer it means that some bytes after them bring it, if more than 1445 counted.
#[unsafe(no_mangle)]
pub extern "C" fn infer_mime_may_be_scriptable(buf: &[u8]) -> bool
    ensures right { OnFalse result (NeverScripts buf.now) }
    ensures full { 1445 ≤ length buf.now → (IsTrue result ↔ Scripts buf.now) }
    ensures begun { length buf.now < 1445 → (IsTrue result ↔ MayScript buf.now) }
{
    mime_sniff::may_be_scriptable(buf)
}

/// The length of the row's sample, which is written to `out` if it fits, and 0 if the row is never the answer or there is
/// no such row. It is at most 32774.
#[unsafe(no_mangle)]
pub extern "C" fn infer_sample(row: i32, out: &mut [u8]) -> usize
    ensures sample { (sample : Option (List ℕ)) × IsSampleOf row sample
        × (result ≡ option_map_or (λ s. length s) sample 0)
        × WritesWhole (option_map_or (λ s. s) sample []) out.old out.new }
    ensures few { result ≤ 32774 }
{
    if row < 0 {
        return 0;
    }
    row::write_sample(row as usize, out)
}

/// The length of the version's text, which is written to `out`.
#[unsafe(no_mangle)]
pub extern "C" fn infer_version(out: &mut [u8]) -> usize
    ensures length { result ≡ length (codes "0.1.0") }
    ensures written { WritesText (codes "0.1.0") out.old out.new }
{
    written::write_text(VERSION, out)
}

/// Whether `text` describes types, as 0, and else the length of the reason, which is written to `reason`. `line` and
/// `column`, from 1, say where, and are 0 if it does.
#[unsafe(no_mangle)]
pub extern "C" fn infer_types_check(
    text: &[u8],
    line: &mut usize,
    column: &mut usize,
    reason: &mut [u8],
) -> usize
    ensures described { IsTrue (is_some (rows_of text.now)) ↔ (result ≡ 0) }
    ensures none { result ≡ 0 → (line.new ≡ 0) × (column.new ≡ 0)
        × WritesText [] reason.old reason.new }
    ensures mistake { ¬ (result ≡ 0) → (mistake : Mistake) × IsMistake text.now mistake
        × (line.new ≡ mistake.line) × (column.new ≡ mistake.column)
        × (result ≡ length (reason_text mistake.reason))
        × WritesText (reason_text mistake.reason) reason.old reason.new }
    ensures few { result ≤ 73 }
{
    match infer_more::types::check(text) {
        Ok(()) => {
            *line = 0;
            *column = 0;
            written::write_text("", reason)
        }
        Err(mistake) => {
            *line = mistake.line;
            *column = mistake.column;
            written::write_text(mistake.reason.text(), reason)
        }
    }
}

/// The number of the class of what the first row of `text` shows that is asked below the built-in answer of `buf` and
/// accepts it, and that of the wider answer if there is none, and -1 if that is none too. The MIME type and the extension
/// are written. Nothing is said if `text` describes no types.
#[unsafe(no_mangle)]
pub extern "C" fn infer_types_get(
    text: &[u8],
    buf: &[u8],
    mime_type: &mut [u8],
    extension: &mut [u8],
) -> i32
    ensures { (rows : List Row) → rows_of text.now ≡ Some rows
        → (t : Option Triple) × IsTypesAnswer rows buf.now t
        × (result ≡ option_map_or (λ t. class_code t.class) t (negsuc 0))
        × IfSome t (λ t. (length t.mime_type < 256) × (length t.extension < 256))
        × WritesText (option_map_or (λ t. t.mime_type) t []) mime_type.old mime_type.new
        × WritesText (option_map_or (λ t. t.extension) t []) extension.old extension.new }
{
    laws::own_sizes();
    match infer_more::types::get(text, buf) {
        Some(found) => {
            written::write_text(found.mime_type(), mime_type);
            written::write_text(found.extension(), extension);
            class::code(found.matcher_type())
        }
        None => {
            written::write_text("", mime_type);
            written::write_text("", extension);
            -1
        }
    }
}

/// The number, from 1, of the line of `text` whose type is the answer, and 0 if no line's type is, so that the wider answer
/// is. Nothing is said if `text` describes no types.
#[unsafe(no_mangle)]
pub extern "C" fn infer_types_line(text: &[u8], buf: &[u8]) -> usize
    ensures { IsTrue (is_some (rows_of text.now)) → (number : Option ℕ)
        × IsAnswerLine text.now buf.now number × (result ≡ unwrap_or number 0) }
{
    infer_more::types::answer_line(text, buf).unwrap_or(0)
}

/// Stores what a name and bytes say: the standing, the row of the wider answer of `buf`, or -1, the type that is reported, and
/// the first type that the name has.
#[unsafe(no_mangle)]
pub extern "C" fn infer_named(name: &[u8], buf: &[u8], answer: &mut NamedAnswer)
    ensures { StoresNamed name.now buf.now answer.old answer.new }
{
    named::store(name, buf, answer);
}

/// What is odd about a name, as a sum: 1 for a control, 2 for a mark of direction, 4 for an odd end, 8 for two extensions.
#[unsafe(no_mangle)]
pub extern "C" fn infer_oddities(name: &[u8]) -> u32
    ensures { IsOddityCode name.now result }
{
    named::oddities(name)
}

/// The length of the line of a file with this name and these first bytes, which is written to `out`. What the name did is stored,
/// or -1 if it was not asked, and whether a type is known. Types of one's own are to be a text that describes some, or none.
#[unsafe(no_mangle)]
pub extern "C" fn infer_label_write(
    name: &[u8],
    buf: &[u8],
    look: u32,
    form: u32,
    flags: u32,
    types: &[u8],
    content_type: &[u8],
    size: usize,
    standing: &mut i32,
    is_known: &mut bool,
    out: &mut [u8],
) -> usize
    ensures { WritesLine (options_by look form flags types.now content_type.now size) name.now buf.now result standing.new is_known.new out.old out.new }
{
    let asked = Asked {
        look,
        form,
        flags,
        types,
        content_type,
        size,
    };
    label::write_line(asked, name, buf, standing, is_known, out)
}

/// The length of the line of a file with this name of which only a text is reported, which is written to `out`: the fault that it
/// had, if `note` is 0, and its kind if it is 1.
#[unsafe(no_mangle)]
pub extern "C" fn infer_label_note(
    name: &[u8],
    note: u32,
    text: &[u8],
    form: u32,
    flags: u32,
    out: &mut [u8],
) -> usize
    ensures length { result ≡ saturated (length (note_line (options_by 0 form flags [] [] 0) (note_of note) name.now text.now)) }
    ensures written { WritesText (note_line (options_by 0 form flags [] [] 0) (note_of note) name.now text.now) out.old out.new }
{
    let asked = Asked {
        look: 0,
        form,
        flags,
        types: &[],
        content_type: &[],
        size: 0,
    };
    label::write_note(asked, note, name, text, out)
}

/// Whether some row with this extension accepts `buf`.
#[unsafe(no_mangle)]
pub extern "C" fn infer_is(buf: &[u8], extension: &[u8]) -> bool
    ensures { IsTrue result ↔ SomeBoth (HasExtension extension.now) (Accepts buf.now) table }
{
    infer::texts::is(buf, extension)
}

/// Whether some row with this MIME type accepts `buf`.
#[unsafe(no_mangle)]
pub extern "C" fn infer_is_mime(buf: &[u8], mime_type: &[u8]) -> bool
    ensures { IsTrue result ↔ SomeBoth (HasMimeType mime_type.now) (Accepts buf.now) table }
{
    infer::texts::is_mime(buf, mime_type)
}

/// Whether some row has this extension.
#[unsafe(no_mangle)]
pub extern "C" fn infer_is_supported(extension: &[u8]) -> bool
    ensures { IsTrue result ↔ SomeHas (HasExtension extension.now) table }
{
    infer::texts::is_supported(extension)
}

/// Whether some row has this MIME type.
#[unsafe(no_mangle)]
pub extern "C" fn infer_is_mime_supported(mime_type: &[u8]) -> bool
    ensures { IsTrue result ↔ SomeHas (HasMimeType mime_type.now) table }
{
    infer::texts::is_mime_supported(mime_type)
}

/// Whether some row of the class `App` accepts `buf`.
#[unsafe(no_mangle)]
pub extern "C" fn infer_is_app(buf: &[u8]) -> bool
    ensures { IsTrue result ↔ SomeBoth (HasClass MatcherType.App) (Accepts buf.now) table }
{
    infer::is_app(buf)
}

/// Whether some row of the class `Archive` accepts `buf`.
#[unsafe(no_mangle)]
pub extern "C" fn infer_is_archive(buf: &[u8]) -> bool
    ensures { IsTrue result ↔ SomeBoth (HasClass MatcherType.Archive) (Accepts buf.now) table }
{
    infer::is_archive(buf)
}

/// Whether some row of the class `Audio` accepts `buf`.
#[unsafe(no_mangle)]
pub extern "C" fn infer_is_audio(buf: &[u8]) -> bool
    ensures { IsTrue result ↔ SomeBoth (HasClass MatcherType.Audio) (Accepts buf.now) table }
{
    infer::is_audio(buf)
}

/// Whether some row of the class `Book` accepts `buf`.
#[unsafe(no_mangle)]
pub extern "C" fn infer_is_book(buf: &[u8]) -> bool
    ensures { IsTrue result ↔ SomeBoth (HasClass MatcherType.Book) (Accepts buf.now) table }
{
    infer::is_book(buf)
}

/// Whether some row of the class `Doc` accepts `buf`.
#[unsafe(no_mangle)]
pub extern "C" fn infer_is_document(buf: &[u8]) -> bool
    ensures { IsTrue result ↔ SomeBoth (HasClass MatcherType.Doc) (Accepts buf.now) table }
{
    infer::is_document(buf)
}

/// Whether some row of the class `Font` accepts `buf`.
#[unsafe(no_mangle)]
pub extern "C" fn infer_is_font(buf: &[u8]) -> bool
    ensures { IsTrue result ↔ SomeBoth (HasClass MatcherType.Font) (Accepts buf.now) table }
{
    infer::is_font(buf)
}

/// Whether some row of the class `Image` accepts `buf`.
#[unsafe(no_mangle)]
pub extern "C" fn infer_is_image(buf: &[u8]) -> bool
    ensures { IsTrue result ↔ SomeBoth (HasClass MatcherType.Image) (Accepts buf.now) table }
{
    infer::is_image(buf)
}

/// Whether some row of the class `Video` accepts `buf`.
#[unsafe(no_mangle)]
pub extern "C" fn infer_is_video(buf: &[u8]) -> bool
    ensures { IsTrue result ↔ SomeBoth (HasClass MatcherType.Video) (Accepts buf.now) table }
{
    infer::is_video(buf)
}

/// Whether `buf` begins as a COFF object for i386. One row stands for this matcher and the two below.
#[unsafe(no_mangle)]
pub extern "C" fn infer_is_coff_i386(buf: &[u8]) -> bool
    ensures { result ≡ accepts coff_i386 buf.now }
{
    infer::app::is_coff_i386(buf)
}

/// Whether `buf` begins as a COFF object for x64.
#[unsafe(no_mangle)]
pub extern "C" fn infer_is_coff_x64(buf: &[u8]) -> bool
    ensures { result ≡ accepts coff_x64 buf.now }
{
    infer::app::is_coff_x64(buf)
}

/// Whether `buf` begins as a COFF object for IA-64.
#[unsafe(no_mangle)]
pub extern "C" fn infer_is_coff_ia64(buf: &[u8]) -> bool
    ensures { result ≡ accepts coff_ia64 buf.now }
{
    infer::app::is_coff_ia64(buf)
}
