//! A catalogue that keeps wider answers: what they say of the built-in ones, and records of one length.
ghost use Rattle.std.specs.Prelude.{◌≡◌, ◌≤◌, ℕ, List, ◌++◌, drop, length};
ghost use Rattle.infer.specs.First.{IsFirstOf};
ghost use Rattle.infer.specs.Row.{Accepts};
ghost use Rattle.infer.specs.Table.{table};
ghost use Rattle.infer_more.specs.Wider.{IsWider};
ghost use Rattle.infer_uses.specs.Fields.{filled, mime_type_at};

use infer::rows::ROW_COUNT;
use infer_more::laws::{below, sizes};

/// The number of the built-in answer of a buffer, by the number of its wider answer. The bytes are not needed again.
pub fn built_in(kept: Option<usize>) -> Option<usize>
    ensures { (b : List ℕ) → IsWider b kept → IsFirstOf (Accepts b) table result }
{
    below();
    let row = kept?;
    if row < ROW_COUNT {
        return kept;
    }
    infer_more::parent(row)
}

/// Writes the MIME type of a row into its field of a record, with zeros after it. No text of a row is too long for it.
pub fn write_mime_type(row: usize, field: &mut [u8; 73])
    ensures { field.new ≡ filled (mime_type_at row) }
{
    sizes();
    *field = [0; 73];
    if let Some(found) = infer_more::row(row) {
        put(found.mime_type(), field);
    }
}

/// Writes the text over the front of the field.
fn put(text: &str, field: &mut [u8])
    requires { length text.now ≤ length field.old }
    ensures { field.new ≡ text.now ++ drop (length text.now) field.old }
{
    field[..text.len()].copy_from_slice(text.as_bytes());
}
