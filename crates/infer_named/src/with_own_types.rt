//! Types of a caller's text, beside a name and bytes.
ghost use Rattle.std.specs.Prelude.{◌≡◌, List, Some};
ghost use Rattle.infer_more.specs.Line.{Row};
ghost use Rattle.infer_more.specs.Text.{rows_of};
ghost use Rattle.infer_named.specs.Own.{IsNamedBy};

use crate::join::{Named, named_with};
use infer_more::types::{self, Found};

/// What the types of a text, a name and bytes say.
#[derive(Clone, Copy)]
pub enum NamedBy<'a> {
    /// The first type of the text that accepts the bytes. It wins over the name and over the wider answer: whoever wrote
    /// the text knows the files, and the table of names does not know the type.
    Own(Found<'a>),
    /// What the name and the bytes say, since no type of the text accepts these.
    Named(Named),
}

/// What the types of the text, the name and the bytes say. Nothing is promised of a text with a mistake, which
/// [`types::check`] reports.
pub fn named_by<'a>(text: &'a [u8], name: &[u8], buf: &[u8]) -> NamedBy<'a>
    ensures { (rows : List Row) → rows_of text.now ≡ Some rows → IsNamedBy rows name.now buf.now result }
{
    let parent = infer::position(buf);
    match types::own_below(parent, text, buf) {
        Some(found) => NamedBy::Own(found),
        None => NamedBy::Named(named_with(name, buf, infer_more::get_below(parent, buf))),
    }
}
