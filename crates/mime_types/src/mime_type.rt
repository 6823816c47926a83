//! What was read of a MIME type.
ghost use Rattle.std.specs.Prelude.{IsTrue};
ghost use Rattle.mime_types.specs.Text.{is_a_token};

/// A MIME type, as views of the text that says it. Type and subtype are in the case in which they were written.
#[derive(Clone, Copy)]
pub struct MimeType<'a> {
    /// The type, as `text`.
    pub type_name: &'a [u8],
    /// The subtype, as `html`.
    pub subtype: &'a [u8],
    /// What stands after the subtype and its semicolon.
    pub tail: &'a [u8],
    ghost type_token: { IsTrue (is_a_token type_name.now) },
    ghost subtype_token: { IsTrue (is_a_token subtype.now) },
}
