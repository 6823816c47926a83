//! A row of a table, as the standard writes it: a pattern, a mask, and what is ignored in front.
ghost use Rattle.std.specs.Prelude.{◌≡◌, ◌↔◌, ◌≤◌, IfSome, IsTrue, length, map, option_map};
ghost use Rattle.std.specs.Bool.{OnFalse};
ghost use Rattle.mime_sniff.specs.Growth.{FitForGood, NeverHolds};
ghost use Rattle.mime_sniff.specs.Listed.{pattern_listed, rule_listed};
ghost use Rattle.mime_sniff.specs.Row.{Fits, HasBits, mask_at};
ghost use Rattle.mime_sniff.specs.Rule.{FitsRule, FindsFirst};

use infer_deep::places::same_text;

/// What a row asks of a buffer, and the type that it gives.
#[derive(Clone, Copy)]
pub(crate) struct Row {
    /// The bytes, where the mask has bits.
    pub pattern: &'static [u8],
    /// Which bits of each byte are asked: all of them past its end.
    pub mask: &'static [u8],
    /// Whether white space may stand in front.
    pub ignores_white: bool,
    /// The type.
    pub mime_type: &'static str,
}

/// The type of the first of the rows that `text` fits. What they ignore in front has been passed over.
#[inline(always)]
pub(crate) fn first_type(rows: &[Row], text: &[u8]) -> Option<&'static str>
    ensures { FindsFirst (FitsRule text.now) (map rule_listed rows.now)
        (option_map (λ t. t.now) result) }
{
    match first_row(rows, text) {
        Some(row) => Some(row.mime_type),
        None => None,
    }
}

#[inline(always)]
fn first_row<'a>(rows: &'a [Row], text: &[u8]) -> Option<&'a Row>
    ensures { FindsFirst (FitsRule text.now) (map rule_listed rows.now)
        (option_map (λ row. row.now.mime_type.now) result) }
{
    for row in rows {
        if fits(row, text) {
            return Some(row);
        }
    }
    None
}

/// Whether the pattern stands first in `text`.
#[inline(always)]
fn fits(row: &Row, text: &[u8]) -> bool
    ensures { IsTrue result ↔ Fits (pattern_listed row.now) text.now }
{
    let end = row.pattern.len();
    if text.len() < end {
        return false;
    }
    if row.mask.is_empty() {
        return same_text(text, row.pattern, 0);
    }
    has_bits(row, text)
}

/// Whether the text has the bits that the mask asks. It is no shorter than the pattern.
fn has_bits(row: &Row, text: &[u8]) -> bool
    requires { length row.now.pattern.now ≤ length text.now }
    ensures { IsTrue result ↔ HasBits (pattern_listed row.now) text.now }
{
    // From the end, since patterns that begin alike end otherwise.
    for i in (0..row.pattern.len()).rev() {
        if text[i] & mask_at(row.mask, i) != row.pattern[i] {
            return false;
        }
    }
    true
}

/// The type of the first of the rows that `text` fits whatever follows it, or none of them fits; and none if more bytes may
/// change that.
pub(crate) fn settled_type(rows: &[Row], text: &[u8]) -> Option<Option<&'static str>>
    ensures { IfSome result (λ told. FitForGood text.now (map rule_listed rows.now)
        (option_map (λ t. t.now) told)) }
{
    for row in rows {
        if fits(row, text) {
            return Some(Some(row.mime_type));
        }
        if may_fit(row, text) {
            return None;
        }
    }
    Some(None)
}

/// Whether more bytes may make a text fit that does not. It says so of all whose bytes fit that are there.
fn may_fit(row: &Row, text: &[u8]) -> bool
    ensures { OnFalse result (NeverHolds (Fits (pattern_listed row.now)) text.now) }
{
    let end = row.pattern.len();
    for i in 0..end.min(text.len()) {
        if text[i] & mask_at(row.mask, i) != row.pattern[i] {
            return false;
        }
    }
    true
}

fn mask_at(mask: &[u8], i: usize) -> u8
    ensures { result ≡ mask_at mask.now i }
{
    match mask.get(i) {
        Some(bits) => *bits,
        None => 0xFF,
    }
}

// A row a line: what it asks, and its type.
macro_rules! rows {
    ($($kind:ident $pattern:literal $($mask:literal)? => $mime_type:literal;)*) => {
        &[$(one_row!($kind $pattern $($mask)? => $mime_type)),*]
    };
}

pub(crate) use rows;

macro_rules! one_row {
    (exact $pattern:literal => $mime_type:literal) => {
        Row {
            pattern: $pattern,
            mask: b"",
            ignores_white: false,
            mime_type: $mime_type,
        }
    };
    (masked $pattern:literal $mask:literal => $mime_type:literal) => {
        Row {
            pattern: $pattern,
            mask: $mask,
            ignores_white: false,
            mime_type: $mime_type,
        }
    };
    (text $pattern:literal => $mime_type:expr) => {
        Row {
            pattern: $pattern,
            mask: b"",
            ignores_white: true,
            mime_type: $mime_type,
        }
    };
}

pub(crate) use one_row;
