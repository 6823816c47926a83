//! Which bytes are no lie under a key though no reading of it has their type.
ghost use Rattle.std.specs.Prelude.{◌≡◌, map};
ghost use Rattle.std.specs.List.{list_any};
ghost use Rattle.infer.specs.Triple.{triple_of};
ghost use Rattle.infer_named.specs.Asks.{is_text};
ghost use Rattle.infer_named.specs.Join.{is_any_text, is_finer_text, is_free};
ghost use Rattle.infer_named.specs.Listed.{reading_listed};

use crate::rows::{has_plain_text, is_among};
use crate::table::{Asks, Reading, Usage, free, leads, tame};
use infer::Type;

/// Whether the type is a finer kind of any plain text, and one of the readings takes that.
pub fn is_finer_text(t: &Type, readings: &[Reading]) -> bool
    ensures { result ≡ is_finer_text (triple_of t.now) (map reading_listed readings.now) }
{
    is_among(t, tame()) && has_any_text(readings)
}

fn has_any_text(readings: &[Reading]) -> bool
    ensures { result ≡ list_any is_any_text (map reading_listed readings.now) }
{
    for reading in readings {
        if is_any_text(reading) {
            return true;
        }
    }
    false
}

/// Whether any plain text is of the reading's type.
fn is_any_text(reading: &Reading) -> bool
    ensures { result ≡ is_any_text (reading_listed reading.now) }
{
    is_text(reading.asks)
        && leads(reading.leads).is_empty()
        && (has_plain_text(reading.agrees) || has_plain_text(reading.begins))
}

/// Whether files of the type have keys of this usage.
pub fn is_free(usage: Usage, t: &Type) -> bool
    ensures { result ≡ is_free usage (triple_of t.now) }
{
    match usage {
        Usage::Strict => false,
        Usage::Plain => is_among(t, free()),
        Usage::Loose => true,
    }
}

fn is_text(asks: Asks) -> bool
    ensures { result ≡ is_text asks }
{
    match asks {
        Asks::Text => true,
        Asks::Signature | Asks::Bytes | Asks::Nothing => false,
    }
}
