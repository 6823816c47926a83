//! Whether a set has a row.
ghost use Rattle.std.specs.Prelude.{◌≡◌};
ghost use Rattle.infer.specs.Triple.{triple_of};
ghost use Rattle.infer_named.specs.Join.{has_plain_text, has_row, is_among};
ghost use Rattle.infer_named.specs.Listed.{range_listed, set_listed};

use crate::table::{ranges, row_bytes, rows};
use infer::Type;
use infer_evidence::Span;

/// Whether the set has the row of the type.
pub fn is_among(t: &Type, set: Span) -> bool
    ensures { result ≡ is_among (triple_of t.now) (set_listed set) }
{
    has_row(set, t.extension().as_bytes(), t.mime_type().as_bytes())
}

/// Whether the set has plain text.
pub fn has_plain_text(set: Span) -> bool
    ensures { result ≡ has_plain_text (set_listed set) }
{
    has_row(set, b"txt", b"text/plain")
}

/// Whether the set has the row that is named by this extension or by this MIME type.
fn has_row(set: Span, extension: &[u8], mime_type: &[u8]) -> bool
    ensures { result ≡ has_row (set_listed set) extension.now mime_type.now }
{
    for range in ranges(set) {
        if is_in(*range, extension, mime_type) {
            return true;
        }
    }
    false
}

/// Whether the range has it.
fn is_in(range: Span, extension: &[u8], mime_type: &[u8]) -> bool
    ensures { result ≡ has_row (range_listed range) extension.now mime_type.now }
{
    for span in rows(range) {
        let row = row_bytes(*span);
        if row == extension || row == mime_type {
            return true;
        }
    }
    false
}
