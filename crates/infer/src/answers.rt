//! What the built-in rows answer.
ghost use Rattle.std.specs.Prelude.{◌≡◌, ◌↔◌, ◌<◌, ◌≤◌, IfSome, IsNone, IsTrue, option_map, slice_get};
ghost use Rattle.infer.specs.First.{IsAnswer, IsFirstOf, SomeHas};
ghost use Rattle.infer.specs.Listed.{row_listed};
ghost use Rattle.infer.specs.Questions.{IsAsked, SomeBoth};
ghost use Rattle.infer.specs.Row.{Accepts, shows};
ghost use Rattle.infer.specs.Table.{table};
ghost use Rattle.infer.specs.Triple.{triple_of};
ghost use Rattle.infer.specs.Walks.{RowHas, Takes};

use crate::ask::question::{Question, takes_row};
use crate::candidates::dispatch::{blank, candidates_of, leads};
use crate::table::built_in::{BuiltInRow, accepts, rows};
use crate::table::file_type::FileType;
use crate::table::rows::ROW_COUNT;

/// The number of the first built-in row that accepts `buf`, and `None` exactly if no row accepts it. Only the candidates
/// of its first byte are asked.
///
/// ```
/// assert_eq!(rt; infer::position(b"GIF89a"), Some(rows::GIF));
/// assert_eq!(rt; infer::position(b"plain text"), None);
/// ```
pub fn position(buf: &[u8]) -> Option<usize>
    ensures first { IsFirstOf (Accepts buf.now) table result }
    ensures bound { IfSome result (λ i. i < ROW_COUNT) }
{
    leads();
    blank();
    let accepted = |row: &&usize| -> bool
        ensures { IsTrue result ↔ RowHas (Accepts buf.entry.now) row.now.now }
    { accepts(buf, **row) };
    candidates_of(buf.first().copied())
        .iter()
        .find(accepted)
        .copied()
}

/// The type of the built-in row `i`, and `None` exactly from [`ROW_COUNT`] on.
///
/// ```
/// assert!(rt; infer::row(rows::GIF) == infer::get(b"GIF89a"));
/// ```
#[tactic(auto, using(std::proofs::lemmas::Bool::Decides::nat_tests))]
pub fn row(i: usize) -> Option<FileType>
    ensures shows { option_map triple_of result ≡ option_map shows (slice_get table i) }
    ensures none { IsNone result ↔ (ROW_COUNT ≤ i) }
{
    rows().get(i).map(|row| row.file_type)
}

/// The type of the first built-in row that accepts `buf`, and `None` exactly if no row accepts it.
///
/// ```
/// let found = infer::get(b"\xFF\xD8\xFF\xE0").ok_or("a JPEG image")?;
/// assert_eq!(rt; found.mime_type(), "image/jpeg");
/// assert_eq!(rt; found.extension(), "jpg");
/// ```
pub fn get(buf: &[u8]) -> Option<FileType>
    ensures { IsAnswer (Accepts buf.now) table (option_map triple_of result) }
{
    row(position(buf)?)
}

/// Whether some row that is asked for accepts `buf`. Only the candidates of its first byte are asked.
pub fn some<Q: Question>(question: &Q, buf: &[u8]) -> bool
    ensures { IsTrue result
        ↔ SomeBoth (IsAsked (Q.asked question.now)) (Accepts buf.now) table }
{
    leads();
    blank();
    let takes = |row: &usize| -> bool
        ensures { IsTrue result
            ↔ RowHas (Takes (Q.asked question.entry.now) buf.entry.now) row.now }
    { takes_row(*row, question, buf) };
    candidates_of(buf.first().copied()).iter().any(takes)
}

/// Whether some row is asked for.
pub fn has<Q: Question>(question: &Q) -> bool
    ensures { IsTrue result ↔ SomeHas (IsAsked (Q.asked question.now)) table }
{
    let asked = |row: &BuiltInRow| -> bool
        ensures { IsTrue result ↔ IsAsked (Q.asked question.entry.now) (row_listed row.now) }
    { question.asks_for(&row.file_type) };
    rows().iter().any(asked)
}
