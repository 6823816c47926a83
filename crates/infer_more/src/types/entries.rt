//! What is known of the first rows of a text, so that most lines are passed over unread.
ghost use Rattle.std.specs.Prelude.{◌≡◌, ◌<◌, ◌≤◌, ◌++◌, ℕ, IsTrue, List, MatchOption, Option, Some, get_or, map, option_map, take, true, false};
ghost use Rattle.infer.specs.Triple.{Triple};
ghost use Rattle.infer_more.specs.Entries.{is_row_line, left_lines, digest_of, row_lines};
ghost use Rattle.infer_more.specs.Line.{Row, line_of, parent_of};
ghost use Rattle.infer_more.specs.Text.{Answers, IsFirstShown, IsLineAnswer, found_shows, lines_of, rows_in};
ghost use Rattle.infer_notation.specs.Leads.{IsLead};

use crate::types::Found;
use crate::types::line::{answer_of, is_none, is_remark, split};
use crate::types::lines::next_line;
use infer_notation::{Lead, lead_of, skip_blanks};

/// A row of a text: its line, the digest of its parent, and what stands in each buffer that it accepts, if that is known.
#[derive(Clone, Copy)]
pub struct Entry<'a> {
    line: &'a [u8],
    digest: u32,
    lead: Option<Lead>,
    ghost leads: { (own : Row) → line_of line.now ≡ Some (Some own) → (digest ≡ digest_of own.parent) × IsLead lead own.signature },
}

/// The first rows of a text, and what it has after them.
#[derive(Clone, Copy)]
pub struct Entries<'a> {
    pub items: [Entry<'a>; 160],
    pub count: usize,
    pub after: Option<&'a [u8]>,
    ghost few: { count ≤ 160 },
}

impl<'a> Entry<'a> {
    /// Whether the row may be asked below the answer with that digest and accept the buffer.
    fn may_answer(&self, digest: u32, buf: &[u8]) -> bool
        ensures { (own : Row) (extension : Option (List ℕ))
            → line_of self.now.line.now ≡ Some (Some own) → digest ≡ digest_of extension
            → Answers extension buf.now own → IsTrue result }
    {
        if self.digest != digest {
            return false;
        }
        match &self.lead {
            Some(lead) => lead.stands(buf),
            None => true,
        }
    }

    /// What the row shows, if it is asked below the built-in answer with this extension, or none, which has that digest, and
    /// accepts the buffer.
    fn answer(&self, digest: u32, extension: Option<&[u8]>, buf: &[u8]) -> Option<Found<'a>>
        requires { digest ≡ digest_of (option_map (λ e. e.now) extension) }
        ensures { (r : Option Row) → line_of self.now.line.now ≡ Some r
            → IsLineAnswer (Answers (option_map (λ e. e.now) extension.entry) buf.now) r
            (option_map found_shows result) }
    {
        if !self.may_answer(digest, buf) {
            return None;
        }
        answer_of(self.line, extension, buf)
    }
}

/// What is known of the first rows of the text.
pub fn entries_of(text: &[u8]) -> Entries<'_>
    ensures { row_lines (lines_of text.now)
        ≡ map (λ e. e.line.now) (take result.count result.items)
        ++ row_lines (left_lines (option_map (λ left. left.now) result.after)) }
{
    let mut items = [nothing(); 160];
    let mut count = 0;
    let mut rest = Some(text);
    while let Some(left) = rest {
        if count == 160 {
            break;
        }
        let (line, after) = next_line(left);
        if let Some(entry) = entry_of(line) {
            items[count] = entry;
            count += 1;
        }
        rest = after;
    }
    Entries {
        items,
        count,
        after: rest,
    }
}

/// An entry of an empty line.
fn nothing<'a>() -> Entry<'a> {
    Entry {
        line: b"",
        digest: 0,
        lead: None,
    }
}

/// What is known of the line's row, unless it is blank or a remark.
fn entry_of(line: &[u8]) -> Option<Entry<'_>>
    ensures { MatchOption result (is_row_line line.now ≡ false) (λ e. (is_row_line line.now ≡ true)
        × (e.line.now ≡ line.now)) }
{
    let text = skip_blanks(line);
    if is_remark(text) {
        return None;
    }
    let fields = split(text);
    let digest = digest_of(parent_in(fields.parent));
    let lead = lead_of(fields.signature);
    Some(Entry { line, digest, lead })
}

/// The extension that the word names, or none.
fn parent_in(word: &[u8]) -> Option<&[u8]>
    ensures { (parent : Option (List ℕ)) → parent_of word.now ≡ Some parent
        → option_map (λ e. e.now) result ≡ parent }
{
    if is_none(word) { None } else { Some(word) }
}

/// A number that is the same for equal extensions, and seldom for others.
fn digest_of(extension: Option<&[u8]>) -> u32
    ensures { result ≡ digest_of (option_map (λ e. e.now) extension.entry) }
{
    match extension {
        Some(text) => {
            byte_of(text, 0)
                + 0x100 * byte_of(text, 1)
                + 0x1_0000 * byte_of(text, 2)
                + 0x100_0000 * byte_of(text, 3)
        }
        None => 0,
    }
}

fn byte_of(text: &[u8], place: usize) -> u32
    ensures value { result ≡ get_or text.now place 0 }
    ensures bound { result < 256 }
{
    match text.get(place) {
        Some(byte) => u32::from(*byte),
        None => 0,
    }
}

/// What the first of these rows shows that is asked below the built-in answer with this extension, or none, and accepts
/// the buffer.
fn first_of<'a>(entries: &[Entry<'a>], extension: Option<&[u8]>, buf: &[u8]) -> Option<Found<'a>>
    ensures { (lines : List (List ℕ)) (rows : List Row)
        → rows_in (map (λ e. e.line.now) entries.now ++ lines) ≡ Some rows → MatchOption result
        ((more : List Row) × (rows_in lines ≡ Some more) × ((t : Option Triple)
        → IsFirstShown (Answers (option_map (λ e. e.now) extension.entry) buf.now) more t
        → IsFirstShown (Answers (option_map (λ e. e.now) extension.entry) buf.now) rows t))
        (λ found. IsFirstShown (Answers (option_map (λ e. e.now) extension.entry) buf.now) rows
        (Some (found_shows found))) }
{
    let digest = digest_of(extension);
    for entry in entries {
        if let Some(found) = entry.answer(digest, extension, buf) {
            return Some(found);
        }
    }
    None
}

impl<'a> Entries<'a> {
    /// [`first_of`] all of these.
    pub fn find(&self, extension: Option<&[u8]>, buf: &[u8]) -> Option<Found<'a>>
        ensures { (lines : List (List ℕ)) (rows : List Row)
            → rows_in (map (λ e. e.line.now) (take self.now.count self.now.items) ++ lines)
            ≡ Some rows → MatchOption result
            ((more : List Row) × (rows_in lines ≡ Some more) × ((t : Option Triple)
            → IsFirstShown (Answers (option_map (λ e. e.now) extension.entry) buf.now) more t
            → IsFirstShown (Answers (option_map (λ e. e.now) extension.entry) buf.now) rows t))
            (λ found. IsFirstShown (Answers (option_map (λ e. e.now) extension.entry) buf.now) rows
            (Some (found_shows found))) }
    {
        first_of(&self.items[..self.count], extension, buf)
    }
}
