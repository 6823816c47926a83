//! The least that says what a MIME type is for.
use crate::mime_type::MimeType;

/// What a MIME type is taken for, so that types with one use are treated alike.
#[derive(Clone, Copy)]
pub enum Minimal {
    /// `text/javascript`
    JavaScript,
    /// `application/json`
    Json,
    /// `image/svg+xml`
    Svg,
    /// `application/xml`
    Xml,
    /// The essence, of a type that is supported.
    Essence,
    /// Nothing.
    Nothing,
}

impl<'a> MimeType<'a> {
    ghost use Rattle.mime_types.specs.Minimal.{IsMinimal};
    ghost use Rattle.mime_types.specs.Seen.{kind_of};

    /// What the type is taken for by someone who supports it or not.
    pub fn minimize(&self, is_supported: bool) -> Minimal
        ensures { IsMinimal (kind_of self.now) is_supported result }
    {
        if self.is_javascript() {
            return Minimal::JavaScript;
        }
        if self.is_json() {
            return Minimal::Json;
        }
        if self.is(b"image", b"svg+xml") {
            return Minimal::Svg;
        }
        if self.is_xml() {
            return Minimal::Xml;
        }
        if is_supported {
            return Minimal::Essence;
        }
        Minimal::Nothing
    }
}
