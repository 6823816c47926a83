//! The lists of the table, which `tools/tables` makes from names.txt, each with what it lists.
ghost use Rattle.std.specs.Prelude.{◌≡◌, IsAscii, length, map};
ghost use Rattle.infer_named.specs.Listed.{key_listed, key_texts, mime_types, ranges, readings, row_spans, row_texts, set_listed};
ghost use Rattle.infer_named.specs.Slots.{starts};
ghost use Rattle.infer_named.specs.Table.{keys};
ghost use Rattle.infer_named.specs.Texts.{free, tame};

use crate::table::{Key, Reading};
use infer_evidence::Span;
use keys::{KEYS, READINGS, STARTS};
use sets::{FREE, RANGES, ROWS, TAME};
use texts::{KEY_TEXTS, MIME_TYPES, ROW_TEXTS};

pub(crate) mod keys;
pub(crate) mod sets;
pub(crate) mod texts;

/// Where the keys of each slot begin.
pub(crate) fn starts() -> &'static [u16]
    ensures value { result.now ≡ starts }
    ensures many { length result.now ≡ 513 }
{
    &STARTS
}

/// All keys, in the order of their slots.
pub(crate) fn all_keys() -> &'static [Key]
    ensures { map key_listed result.now ≡ keys }
{
    &KEYS
}

/// The texts of the keys, each behind the other.
#[tactic(auto, unfolding(crate::specs::Listed::key_texts))]
pub(crate) fn key_texts() -> &'static [u8]
    ensures { result.now ≡ key_texts }
{
    KEY_TEXTS
}

/// The readings of all keys.
#[tactic(auto, unfolding(crate::specs::Listed::readings))]
pub(crate) fn all_readings() -> &'static [Reading]
    ensures { result.now ≡ readings }
{
    &READINGS
}

/// The MIME types that names have, each behind the other.
pub(crate) fn mime_types() -> &'static str
    ensures value { result.now ≡ mime_types }
    ensures ascii { IsAscii result.now }
{
    MIME_TYPES
}

/// The ranges of rows of the sets, one set behind the other.
#[tactic(auto, unfolding(crate::specs::Listed::ranges))]
pub(crate) fn all_ranges() -> &'static [Span]
    ensures { result.now ≡ ranges }
{
    &RANGES
}

/// Where the texts of the rows stand.
#[tactic(auto, unfolding(crate::specs::Listed::row_spans))]
pub(crate) fn row_spans() -> &'static [Span]
    ensures { result.now ≡ row_spans }
{
    &ROWS
}

/// The texts of the rows, each behind the other.
pub(crate) fn row_texts() -> &'static str
    ensures value { result.now ≡ row_texts }
    ensures ascii { IsAscii result.now }
{
    ROW_TEXTS
}

/// The rows of texts that no program runs and no browser renders.
#[tactic(auto, using(crate::proofs::ListedLemmas::tame_listed))]
pub(crate) fn tame() -> Span
    ensures { set_listed result ≡ tame }
{
    TAME
}

/// The rows of files that people name as they like: texts and programs.
#[tactic(auto, using(crate::proofs::ListedLemmas::free_listed))]
pub(crate) fn free() -> Span
    ensures { set_listed result ≡ free }
{
    FREE
}
