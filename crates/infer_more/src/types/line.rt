//! A line of a text of types.
ghost use Rattle.std.specs.Prelude.{◌≡◌, ◌↔◌, ◌≤◌, ℕ, IfErr, IsTrue, List, Option, Some, false, is_ok, is_some, length, option_map};
ghost use Rattle.std.specs.Str.{IsAscii};
ghost use Rattle.infer_notation.specs.Reasons.{is_of_token};
ghost use Rattle.infer_notation.specs.Words.{after_blanks};
ghost use Rattle.infer_more.specs.Line.{IsFlawIn, Row, fields_listed, fields_of, is_none, is_remark, line_of, parent_of, row_of};
ghost use Rattle.infer_more.specs.Text.{Answers, IsLineAnswer, found_shows};

use crate::types::Found;
use crate::types::names::{class_of, is_built_in, is_mime_type, is_name};
use infer_notation::{Flaw, Reason, accepts, accepts_known, skip_blanks, split_word};
use std::str::from_utf8;

/// The four words of a line, and what follows them.
#[derive(Clone, Copy)]
pub struct Fields<'a> {
    pub extension: &'a [u8],
    pub mime_type: &'a [u8],
    pub class: &'a [u8],
    pub parent: &'a [u8],
    pub signature: &'a [u8],
}

/// The words of a line that begins with the first.
pub fn split(text: &[u8]) -> Fields<'_>
    ensures { fields_listed result ≡ fields_of text.now }
{
    let (extension, second) = split_word(text);
    let (mime_type, third) = split_word(second);
    let (class, fourth) = split_word(third);
    let (parent, signature) = split_word(fourth);
    Fields {
        extension,
        mime_type,
        class,
        parent,
        signature,
    }
}

/// Whether a line without blanks at its front describes no type.
pub fn is_remark(text: &[u8]) -> bool
    ensures { result ≡ is_remark text.now }
{
    match text {
        [] => true,
        [first, ..] => *first == b'#',
    }
}

/// Whether the line describes a type or none, and else what is wrong with it.
pub fn check(line: &[u8]) -> Result<(), Flaw>
    ensures described { is_ok result ≡ is_some (line_of line.now) }
    ensures flaw { IfErr result (IsFlawIn (after_blanks line.now)) }
    ensures inside { IfErr result (λ flaw. flaw.left ≤ length line.now) }
{
    let text = skip_blanks(line);
    if is_remark(text) {
        return Ok(());
    }
    check_row(text)
}

/// Whether the words describe a type, and else what is wrong with them.
#[tactic(auto, unfolding(crate::specs::Line::row_of))]
fn check_row(text: &[u8]) -> Result<(), Flaw>
    ensures described { is_ok result ≡ is_some (row_of (fields_of text.now)) }
    ensures flaw { IfErr result (IsFlawIn text.now) }
{
    let (extension, second) = split_word(text);
    if !is_name(extension) {
        return Err(flaw(extension, text, Reason::Extension));
    }
    let (mime_type, third) = split_word(second);
    if !is_mime_type(mime_type) {
        return Err(flaw(mime_type, second, Reason::MimeType));
    }
    let (class, fourth) = split_word(third);
    if class_of(class).is_none() {
        return Err(flaw(class, third, Reason::Class));
    }
    let (parent, signature) = split_word(fourth);
    if !is_none(parent) && !is_built_in(parent) {
        return Err(flaw(parent, fourth, Reason::Parent));
    }
    match accepts(signature, b"") {
        Ok(_) => Ok(()),
        Err(flaw) => Err(flaw),
    }
}

/// What is wrong with the word at the front of the text, unless there is none.
fn flaw(word: &[u8], text: &[u8], reason: Reason) -> Flaw
    ensures left { result.left ≡ length text.now }
    ensures kind { is_of_token reason ≡ false → is_of_token result.reason ≡ false }
{
    Flaw {
        reason: if word.is_empty() {
            Reason::Fields
        } else {
            reason
        },
        left: text.len(),
    }
}

/// Whether the word stands for no parent.
pub fn is_none(word: &[u8]) -> bool
    ensures { result ≡ is_none word.now }
{
    word == b"-".as_slice()
}

/// What the line's row shows, if it is asked below the built-in answer with this extension, or none, and accepts the
/// buffer.
pub fn answer_of<'a>(line: &'a [u8], extension: Option<&[u8]>, buf: &[u8]) -> Option<Found<'a>>
    ensures { (r : Option Row) → line_of line.now ≡ Some r
        → IsLineAnswer (Answers (option_map (λ e. e.now) extension.entry) buf.now) r
        (option_map found_shows result) }
{
    let text = skip_blanks(line);
    if is_remark(text) {
        return None;
    }
    let fields = split(text);
    if !answers(fields, extension, buf) {
        return None;
    }
    shown(fields)
}

/// What the line's row shows, if it has one.
pub fn row_shown(line: &[u8]) -> Option<Found<'_>>
    ensures { (r : Option Row) → line_of line.now ≡ Some r
        → option_map found_shows result ≡ option_map (λ own. own.shows) r }
{
    let text = skip_blanks(line);
    if is_remark(text) {
        return None;
    }
    shown(split(text))
}

/// Whether the row that the words describe is asked below that answer and accepts the buffer.
fn answers(fields: Fields<'_>, extension: Option<&[u8]>, buf: &[u8]) -> bool
    ensures { (own : Row) → row_of (fields_listed fields.entry) ≡ Some own
        → IsTrue result ↔ Answers (option_map (λ e. e.now) extension.entry) buf.now own }
{
    if !is_below(fields.parent, extension) {
        return false;
    }
    accepts_known(fields.signature, buf)
}

/// Whether the word names the parent with this extension, or none.
fn is_below(word: &[u8], extension: Option<&[u8]>) -> bool
    ensures { (parent : Option (List ℕ)) → parent_of word.now ≡ Some parent
        → IsTrue result ↔ (parent ≡ option_map (λ e. e.now) extension.entry) }
{
    match extension {
        None => is_none(word),
        Some(text) => !is_none(word) && word == text,
    }
}

/// What the row that the words describe shows.
fn shown<'a>(fields: Fields<'a>) -> Option<Found<'a>>
    ensures { (own : Row) → row_of (fields_listed fields.entry) ≡ Some own
        → option_map found_shows result ≡ Some own.shows }
{
    let matcher_type = class_of(fields.class)?;
    let mime_type = as_text(fields.mime_type)?;
    let extension = as_text(fields.extension)?;
    Some(Found {
        matcher_type,
        mime_type,
        extension,
    })
}

/// The bytes as text, if they are UTF-8.
fn as_text(bytes: &[u8]) -> Option<&str>
    ensures { IsAscii bytes.now → option_map (λ text. text.now) result ≡ Some bytes.now }
{
    match from_utf8(bytes) {
        Ok(text) => Some(text),
        Err(_) => None,
    }
}
