//! Questions with a text that is given as bytes. A text that is not UTF-8 is no row's.
ghost use Rattle.std.specs.Prelude.{◌↔◌, IsTrue};
ghost use Rattle.infer.specs.First.{SomeHas};
ghost use Rattle.infer.specs.Questions.{HasExtension, HasMimeType, SomeBoth};
ghost use Rattle.infer.specs.Row.{Accepts};
ghost use Rattle.infer.specs.Table.{table};

use crate::answers::{has, some};
use crate::ask::question::{WithExtension, WithMimeType};

/// Whether some built-in row with this extension accepts `buf`, as [`is`](crate::is) answers.
pub fn is(buf: &[u8], extension: &[u8]) -> bool
    ensures { IsTrue result ↔ SomeBoth (HasExtension extension.now) (Accepts buf.now) table }
{
    some(&WithExtension(extension), buf)
}

/// Whether some built-in row with this MIME type accepts `buf`, as [`is_mime`](crate::is_mime) answers.
pub fn is_mime(buf: &[u8], mime_type: &[u8]) -> bool
    ensures { IsTrue result ↔ SomeBoth (HasMimeType mime_type.now) (Accepts buf.now) table }
{
    some(&WithMimeType(mime_type), buf)
}

/// Whether some built-in row has this extension.
pub fn is_supported(extension: &[u8]) -> bool
    ensures { IsTrue result ↔ SomeHas (HasExtension extension.now) table }
{
    has(&WithExtension(extension))
}

/// Whether some built-in row has this MIME type.
pub fn is_mime_supported(mime_type: &[u8]) -> bool
    ensures { IsTrue result ↔ SomeHas (HasMimeType mime_type.now) table }
{
    has(&WithMimeType(mime_type))
}
