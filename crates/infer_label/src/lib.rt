//! The line of a file: what its name and its first bytes say, as a text, as JSON or as CSV, in the room of the caller. Nothing
//! is allocated.
#![tactic(auto)]

ghost use Rattle.std.specs.Prelude.{◌≡◌};
ghost use Rattle.infer_label.specs.Line.{note_line};
ghost use Rattle.infer_label.specs.Lines.{WritesLine};
ghost use Rattle.infer_label.specs.Options.{options_listed};
ghost use Rattle.infer_label.specs.Writes.{laid, saturated};
ghost use Rattle.std.specs.Prelude.{length};

mod csv;
mod json;
mod label;
pub mod laws;
mod line;
mod names;
mod options;
mod room;
mod why;
mod why_json;
mod why_text;

pub use csv::class_name;
use infer_named::Standing;
use label::label_of;
use line::{write_labelled, write_noted};
pub use options::{Form, Look, Note, Options};
use room::Room;
use why::why_of;

/// What a line reports.
#[derive(Clone, Copy)]
pub struct Answer {
    /// Its length, or the largest number if it is longer.
    pub len: usize,
    /// Whether a type is known.
    pub is_known: bool,
    /// What the name did, if it was asked.
    pub standing: Option<Standing>,
}

/// Writes the line of a file with this name and these first bytes to the front of `out`, or as much of it as there is room for.
///
/// Types of one's own are to be a text that `infer_more::types::check` passes: of another nothing is said.
pub fn write_line(options: Options<'_>, name: &[u8], buf: &[u8], out: &mut [u8]) -> Answer
    ensures { WritesLine (options_listed options.entry) name.now buf.now result out.old out.new }
{
    let why = why_of(options, buf);
    let label = label_of(options, name, buf, why.as_ref());
    let mut room = Room::new(out);
    write_labelled(options, name, &label, why.as_ref(), &mut room);
    Answer {
        len: room.len(),
        is_known: label.mime_type.is_some(),
        standing: label.standing,
    }
}

/// Writes the line of a file with this name of which only this is reported: the fault that it had, or its kind if it is no file that
/// has bytes. The answer is its length, or the largest number if it is longer.
pub fn write_note(
    options: Options<'_>,
    note: Note,
    name: &[u8],
    text: &[u8],
    out: &mut [u8],
) -> usize
    ensures length { result ≡ saturated (length (note_line (options_listed options.entry) note name.now text.now)) }
    ensures written { out.new ≡ laid (note_line (options_listed options.entry) note name.now text.now) out.old }
{
    let mut room = Room::new(out);
    write_noted(options, note, name, text, &mut room);
    room.len()
}
