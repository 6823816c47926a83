//! What the further rows answer, and rows by their numbers, built-in and further.
ghost use Rattle.std.specs.Prelude.{◌≡◌, ◌↔◌, ◌+◌, ◌<◌, ◌≤◌, IfSome, IsTrue, None, Some, length, option_map, slice_get};
ghost use Rattle.std.specs.List.{HoldsAt};
ghost use Rattle.infer.specs.First.{IsFirstOf, SomeHas};
ghost use Rattle.infer.specs.Reading.{ShowsAnswer};
ghost use Rattle.infer.specs.Row.{Accepts};
ghost use Rattle.infer.specs.Table.{table};
ghost use Rattle.infer.specs.Triple.{triple_of};
ghost use Rattle.infer.specs.declared.table.rows.TheConstants.{ROW_COUNT};
ghost use Rattle.infer_more.specs.Ended.{ended_listed, ended_shown};
ghost use Rattle.infer_more.specs.Listed.{row_listed};
ghost use Rattle.infer_more.specs.Table.{further};
ghost use Rattle.infer_more.specs.Wider.{AcceptsAt, IsWidened, IsWider, IsWiderAnswer, parent_at, shown};
ghost use Rattle.infer_more.specs.declared.index.generated.TheConstants.{FURTHER_COUNT};

use crate::index::FURTHER_COUNT;
use crate::index::search::{found, found_parentless};
use crate::row_data::{EndedTexts, FurtherRow, alternatives_of, ended_at, row_at};
use crate::{row_data, signature};
use infer::rows::{ROW_COUNT, numbers as law_numbers};
use infer::{Identify, Type};

/// The number of the wider answer of a buffer whose built-in answer is this.
#[inline(always)]
fn widened(parent: Option<usize>, buf: &[u8]) -> Option<usize>
    ensures { IsWidened parent buf.now result }
{
    match parent {
        Some(row) => Some(found(row, buf)),
        None => found_parentless(buf),
    }
}

/// The number of the wider answer of `buf`, and `None` exactly if no row accepts it.
#[tactic(auto, using(crate::proofs::BelowLemmas::is_wider))]
#[inline(always)]
pub fn position(buf: &[u8]) -> Option<usize>
    ensures wider { IsWider buf.now result }
    ensures bound { IfSome result (λ i. i < ROW_COUNT + FURTHER_COUNT) }
{
    widened(infer::position(buf), buf)
}

/// [`get`] where the number of the built-in answer is known already.
#[tactic(auto, using(crate::proofs::BelowLemmas::is_wider))]
pub fn get_below(parent: Option<usize>, buf: &[u8]) -> Option<Type>
    requires { IsFirstOf (Accepts buf.now) table parent }
    ensures { IsWiderAnswer buf.now (option_map triple_of result) }
{
    let found = widened(parent, buf)?;
    row(found)
}

/// The type of the wider answer of `buf`, and `None` exactly if no row accepts it.
///
/// ```
/// let found = infer_more::get(b"{\"name\": 1}").ok_or("JSON")?;
/// assert_eq!(rt; found.mime_type(), "application/json");
/// ```
pub fn get(buf: &[u8]) -> Option<Type>
    ensures { IsWiderAnswer buf.now (option_map triple_of result) }
{
    get_below(infer::position(buf), buf)
}

/// Asks for the type of the wider answer.
pub struct Wider;

impl Identify for Wider {
    type Answer = Option<Type>;

    ghost identifies = { λ _. ShowsAnswer IsWiderAnswer };

    fn identify(&self, bytes: &[u8]) -> Option<Type> {
        get(bytes)
    }
}

/// A type keeps no matcher, so it is given one that accepts nothing.
fn never(_buf: &[u8]) -> bool {
    false
}

/// The type of a further row.
fn type_of(row: &FurtherRow) -> Type
    ensures { triple_of result ≡ (row_listed row.now).shows }
{
    Type::new(
        row.matcher_type,
        row_data::mime_type(row),
        row_data::extension(row),
        never,
    )
}

/// The type of further row `i`, counted among these.
#[inline(never)]
fn further_type(i: usize) -> Option<Type>
    ensures { option_map triple_of result ≡ option_map (λ r. r.shows) (slice_get further i) }
{
    match row_at(i) {
        Some(row) => Some(type_of(row)),
        None => None,
    }
}

/// The type of row `i`, built-in or further, and `None` from the sum of `ROW_COUNT` and [`FURTHER_COUNT`] on.
#[tactic(auto, using(crate::proofs::ShownLemmas::shown_built_in, crate::proofs::ShownLemmas::shown_further))]
#[inline(always)]
pub fn row(i: usize) -> Option<Type>
    ensures { option_map triple_of result ≡ slice_get shown i }
{
    law_numbers();
    if i < ROW_COUNT {
        return infer::row(i);
    }
    further_type(i - ROW_COUNT)
}

/// The texts of further row `i`, each with a zero after it, and `None` of any other number.
#[tactic(auto, using(crate::proofs::ShownLemmas::shown_further))]
pub fn ended_texts(i: usize) -> Option<EndedTexts>
    ensures built_in { i < ROW_COUNT → result ≡ None }
    ensures further { ROW_COUNT ≤ i → option_map ended_listed result
        ≡ option_map ended_shown (slice_get shown i) }
{
    law_numbers();
    if i < ROW_COUNT {
        return None;
    }
    ended_at(i - ROW_COUNT)
}

/// The number of the built-in row that is the parent of further row `i`, and `None` if it has none or is no further row.
pub fn parent(i: usize) -> Option<usize>
    ensures { result ≡ parent_at i }
{
    if i < ROW_COUNT {
        return None;
    }
    match row_at(i - ROW_COUNT) {
        Some(row) => row.parent,
        None => None,
    }
}

/// Whether the signature of row `i`, built-in or further, accepts `buf`, which need not be the answer. A further row's
/// parent is not asked.
pub fn accepts(buf: &[u8], i: usize) -> bool
    ensures { IsTrue result ↔ AcceptsAt buf.now i }
{
    if i < ROW_COUNT {
        return infer::accepts(buf, i);
    }
    match row_at(i - ROW_COUNT) {
        Some(row) => signature::accepts(alternatives_of(row), buf),
        None => false,
    }
}

/// Whether the texts are the same.
fn is_same(a: &str, b: &str) -> bool
    ensures { IsTrue result ↔ (a.now ≡ b.now) }
{
    a == b
}

/// Whether further row `i` has this extension.
#[tactic(auto, using(crate::proofs::RowLemmas::has_no_row, crate::proofs::RowLemmas::has_row))]
fn shows_extension(i: usize, extension: &str) -> bool
    ensures { IsTrue result ↔ ((i < length further)
        × HoldsAt (λ r. r.shows.extension ≡ extension.now) further i) }
{
    match row_at(i) {
        Some(row) => is_same(row_data::extension(row), extension),
        None => false,
    }
}

/// Whether some further row has this extension.
pub fn has_extension(extension: &str) -> bool
    ensures { IsTrue result ↔ SomeHas (λ r. r.shows.extension ≡ extension.now) further }
{
    for i in 0..FURTHER_COUNT {
        if shows_extension(i, extension) {
            return true;
        }
    }
    false
}

/// Whether further row `i` has this MIME type.
#[tactic(auto, using(crate::proofs::RowLemmas::has_no_row, crate::proofs::RowLemmas::has_row))]
fn shows_mime_type(i: usize, mime_type: &str) -> bool
    ensures { IsTrue result ↔ ((i < length further)
        × HoldsAt (λ r. r.shows.mime_type ≡ mime_type.now) further i) }
{
    match row_at(i) {
        Some(row) => is_same(row_data::mime_type(row), mime_type),
        None => false,
    }
}

/// Whether some further row has this MIME type.
pub fn has_mime_type(mime_type: &str) -> bool
    ensures { IsTrue result ↔ SomeHas (λ r. r.shows.mime_type ≡ mime_type.now) further }
{
    for i in 0..FURTHER_COUNT {
        if shows_mime_type(i, mime_type) {
            return true;
        }
    }
    false
}
