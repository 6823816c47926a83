//! Types that a text describes.
ghost use Rattle.std.specs.Prelude.{◌≡◌, ◌+◌, ◌++◌, ◌<◌, ◌≤◌, ℕ, IfErr, IfOk, IsTrue, List, MatchOption, Option, Some, length, is_ok, is_some, map, option_map, slice_get, take};
ghost use Rattle.std.specs.Iterator.{at_most};
ghost use Rattle.infer.specs.First.{IsAnswer, IsFirstOf};
ghost use Rattle.infer.specs.Row.{Accepts};
ghost use Rattle.infer.specs.Table.{table};
ghost use Rattle.infer.specs.Triple.{Triple};
ghost use Rattle.infer_more.specs.Entries.{left_lines, row_lines};
ghost use Rattle.infer_more.specs.Line.{Row};
ghost use Rattle.infer_more.specs.Text.{Answers, IsAnswerLine, IsFirstShown, IsNextRow, IsOwnAnswer, LineAnswers, IsTypesAnswer, NextShown, IsMistake, found_shows, left_size, lines_of, rows_left, rows_of};
ghost use Rattle.infer_more.specs.Wider.{IsWiderAnswer};

mod entries;
mod line;
mod lines;
mod names;

use crate::answers;
use entries::{Entries, entries_of};
use infer::MatcherType;
use infer_notation::{Flaw, Reason};
use line::{answer_of, check as check_line, row_shown};
use lines::next_line;

/// A type that was found: a class, a MIME type and an extension.
#[derive(Clone, Copy)]
pub struct Found<'a> {
    pub(crate) matcher_type: MatcherType,
    pub(crate) mime_type: &'a str,
    pub(crate) extension: &'a str,
}

/// What is wrong with a text, and where: the line and the column, both from 1. A column counts bytes.
#[derive(Clone, Copy, Debug)]
pub struct Mistake {
    pub reason: Reason,
    pub line: usize,
    pub column: usize,
}

/// Types that a text describes. A question reads only those of the first 160 that may fit, and all after them. It takes
/// some 5,200 bytes, whatever the text is.
#[derive(Clone, Copy)]
pub struct Types<'a> {
    text: &'a [u8],
    entries: Entries<'a>,
    ghost described: { IsTrue (is_some (rows_of text.now)) },
    ghost known: { row_lines (lines_of text.now)
        ≡ map (λ e. e.line.now) (take entries.count entries.items) ++ row_lines (left_lines (option_map (λ left. left.now) entries.after)) },
}

impl<'a> Found<'a> {
    /// The class.
    pub fn matcher_type(&self) -> MatcherType
        ensures { result ≡ (found_shows self.now).class }
    {
        self.matcher_type
    }

    /// The MIME type.
    pub fn mime_type(&self) -> &'a str
        ensures { result.now ≡ (found_shows self.now).mime_type }
    {
        self.mime_type
    }

    /// The extension, without a dot.
    pub fn extension(&self) -> &'a str
        ensures { result.now ≡ (found_shows self.now).extension }
    {
        self.extension
    }
}

impl<'a> Types<'a> {
    /// The types that the text describes, and the first mistake exactly if it describes none.
    pub fn new(text: &'a [u8]) -> Result<Types<'a>, Mistake>
        ensures described { is_ok result ≡ is_some (rows_of text.now) }
        ensures text { IfOk result (λ types. types.text.now ≡ text.now) }
        ensures mistake { IfErr result (IsMistake text.now) }
    {
        check(text)?;
        let entries = entries_of(text);
        Ok(Types { text, entries })
    }

    /// The rows of the text, from the first on.
    pub fn rows(&self) -> Rows<'a>
        ensures { option_map (λ text. text.now) result.rest ≡ Some self.now.text.now }
    {
        Rows {
            rest: Some(self.text),
        }
    }

    /// What the first row shows that is asked below the built-in answer of the buffer and accepts it, and the wider
    /// answer if there is none.
    pub fn get(&self, buf: &[u8]) -> Option<Found<'a>>
        ensures { (rows : List Row) → rows_of self.now.text.now ≡ Some rows
            → IsTypesAnswer rows buf.now (option_map found_shows result) }
    {
        let parent = infer::position(buf);
        let extension = built_in(parent, buf);
        match self.find(extension, buf) {
            Some(found) => Some(found),
            None => wider(parent, buf),
        }
    }

    /// What the first row shows that is asked below the built-in answer with this extension, or none, and accepts the
    /// buffer.
    fn find(&self, extension: Option<&[u8]>, buf: &[u8]) -> Option<Found<'a>>
        ensures { (rows : List Row) → rows_of self.now.text.now ≡ Some rows
            → IsFirstShown (Answers (option_map (λ e. e.now) extension.entry) buf.now) rows
            (option_map found_shows result) }
    {
        match self.entries.find(extension, buf) {
            Some(found) => Some(found),
            None => find_left(self.entries.after, extension, buf),
        }
    }
}

/// The rows that are left of a text, each as what it shows.
#[derive(Clone, Copy)]
pub struct Rows<'a> {
    rest: Option<&'a [u8]>,
}

impl<'a> Iterator for Rows<'a> {
    type Item = Found<'a>;

    // A text that describes rows has that one next which its rows begin with.
    ghost next_gives = { NextShown };

    // Each takes a byte of the text at least, and the last what ends the text.
    ghost remaining = { λ rows. at_most (left_size rows) };

    /// What the next row shows, and `None` if none is left.
    fn next(&mut self) -> Option<Found<'a>> {
        self.next_row()
    }
}

impl<'a> Rows<'a> {
    fn next_row(&mut self) -> Option<Found<'a>>
        ensures next { (rows : List Row)
            → rows_left (option_map (λ text. text.now) self.old.rest) ≡ Some rows
            → IsNextRow rows (option_map found_shows result)
            (rows_left (option_map (λ text. text.now) self.new.rest)) }
        ensures fewer { MatchOption result (left_size self.new ≤ left_size self.old)
            (λ found. left_size self.new < left_size self.old) }
    {
        while let Some(text) = self.rest {
            let (line, after) = next_line(text);
            self.rest = after;
            if let Some(found) = row_shown(line) {
                return Some(found);
            }
        }
        None
    }
}

/// What the first row of the text shows that is asked below the built-in answer of the buffer and accepts it, and the
/// wider answer if there is none. Nothing is promised of a text with a mistake: [`check`] reports it.
///
/// ```
/// let text = b"draw image/x-drawing image - 4: @0 \"DRAW\"";
/// let found = types::get(text, b"DRAW 1").ok_or("a drawing")?;
/// assert_eq!(rt; found.mime_type(), "image/x-drawing");
/// ```
pub fn get<'a>(text: &'a [u8], buf: &[u8]) -> Option<Found<'a>>
    ensures { (rows : List Row) → rows_of text.now ≡ Some rows
        → IsTypesAnswer rows buf.now (option_map found_shows result) }
{
    let parent = infer::position(buf);
    let extension = built_in(parent, buf);
    match find(text, extension, buf) {
        Some(found) => Some(found),
        None => wider(parent, buf),
    }
}

/// What the first row of the text shows that is asked below the built-in answer of the buffer and accepts it, and `None` if
/// there is none. The wider answer is not asked. Nothing is promised of a text with a mistake.
pub fn own<'a>(text: &'a [u8], buf: &[u8]) -> Option<Found<'a>>
    ensures { (rows : List Row) → rows_of text.now ≡ Some rows
        → IsOwnAnswer rows buf.now (option_map found_shows result) }
{
    own_below(infer::position(buf), text, buf)
}

/// [`own`] where the number of the built-in answer is known already.
pub fn own_below<'a>(parent: Option<usize>, text: &'a [u8], buf: &[u8]) -> Option<Found<'a>>
    requires { IsFirstOf (Accepts buf.now) table parent }
    ensures { (rows : List Row) → rows_of text.now ≡ Some rows
        → IsOwnAnswer rows buf.now (option_map found_shows result) }
{
    let extension = built_in(parent, buf);
    find(text, extension, buf)
}

/// The number, from 1, of the line whose type [`get`] answers, and `None` if no line's type is the answer, so that the
/// wider answer is. Nothing is promised of a text with a mistake.
pub fn answer_line(text: &[u8], buf: &[u8]) -> Option<usize>
    ensures { IsTrue (is_some (rows_of text.now)) → IsAnswerLine text.now buf.now result }
{
    let extension = built_in(infer::position(buf), buf);
    find_line(text, extension, buf)
}

/// The number of the first line whose row is asked below the built-in answer with this extension, or none, and accepts
/// the buffer.
fn find_line(text: &[u8], extension: Option<&[u8]>, buf: &[u8]) -> Option<usize>
    ensures { IsTrue (is_some (rows_of text.now)) → (place : Option ℕ)
        × IsFirstOf (LineAnswers (option_map (λ e. e.now) extension.entry) buf.now)
        (lines_of text.now) place
        × (result ≡ option_map (λ i. i + 1) place) }
{
    let mut rest = text;
    let mut number = 1;
    loop {
        let (line, after) = next_line(rest);
        if answer_of(line, extension, buf).is_some() {
            return Some(number);
        }
        match after {
            Some(more) => rest = more,
            None => return None,
        }
        number += 1;
    }
}

/// The extension of the built-in answer of the buffer, whose number this is.
fn built_in(parent: Option<usize>, buf: &[u8]) -> Option<&'static [u8]>
    requires { IsFirstOf (Accepts buf.now) table parent }
    ensures { (found : Option Triple) × IsAnswer (Accepts buf.now) table found
        × (option_map (λ e. e.now) result ≡ option_map (λ p. p.extension) found) }
{
    let _ = buf;
    match parent {
        Some(row) => extension_of(row),
        None => None,
    }
}

/// The extension of the built-in row of that number.
fn extension_of(row: usize) -> Option<&'static [u8]>
    ensures { option_map (λ e. e.now) result
        ≡ option_map (λ r. r.shows.extension) (slice_get table row) }
{
    match infer::row(row) {
        Some(found) => Some(found.extension().as_bytes()),
        None => None,
    }
}

/// The wider answer of a buffer whose built-in answer is this.
fn wider<'a>(parent: Option<usize>, buf: &[u8]) -> Option<Found<'a>>
    requires { IsFirstOf (Accepts buf.now) table parent }
    ensures { IsWiderAnswer buf.now (option_map found_shows result) }
{
    match answers::get_below(parent, buf) {
        Some(found) => Some(Found {
            matcher_type: found.matcher_type(),
            mime_type: found.mime_type(),
            extension: found.extension(),
        }),
        None => None,
    }
}

/// [`find`] in what is left of a text.
fn find_left<'a>(left: Option<&'a [u8]>, extension: Option<&[u8]>, buf: &[u8]) -> Option<Found<'a>>
    ensures { (rows : List Row) → rows_left (option_map (λ text. text.now) left.entry) ≡ Some rows
        → IsFirstShown (Answers (option_map (λ e. e.now) extension.entry) buf.now) rows
        (option_map found_shows result) }
{
    match left {
        Some(text) => find(text, extension, buf),
        None => None,
    }
}

/// What the first row of the text shows that is asked below the built-in answer with this extension, or none, and accepts
/// the buffer.
fn find<'a>(text: &'a [u8], extension: Option<&[u8]>, buf: &[u8]) -> Option<Found<'a>>
    ensures { (rows : List Row) → rows_of text.now ≡ Some rows
        → IsFirstShown (Answers (option_map (λ e. e.now) extension.entry) buf.now) rows
        (option_map found_shows result) }
{
    let mut rest = text;
    loop {
        let (line, after) = next_line(rest);
        if let Some(found) = answer_of(line, extension, buf) {
            return Some(found);
        }
        match after {
            Some(more) => rest = more,
            None => return None,
        }
    }
}

/// Whether each line of the text describes a type or none, and else the first mistake.
pub fn check(text: &[u8]) -> Result<(), Mistake>
    ensures described { is_ok result ≡ is_some (rows_of text.now) }
    ensures mistake { IfErr result (IsMistake text.now) }
{
    let mut rest = text;
    let mut number = 1;
    loop {
        let (line, after) = next_line(rest);
        if let Err(flaw) = check_line(line) {
            return Err(placed(line, number, flaw));
        }
        match after {
            Some(more) => rest = more,
            None => return Ok(()),
        }
        number += 1;
    }
}

/// What is wrong with the line of this number.
fn placed(line: &[u8], number: usize, flaw: Flaw) -> Mistake
    requires { flaw.left ≤ length line.now }
    ensures line { result.line ≡ number }
    ensures column { result.column + flaw.left ≡ length line.now + 1 }
    ensures reason { result.reason ≡ flaw.reason }
{
    Mistake {
        reason: flaw.reason,
        line: number,
        column: line.len() - flaw.left + 1,
    }
}
