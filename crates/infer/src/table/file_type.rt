//! What a file type is.
ghost use Rattle.std.specs.Prelude.{◌≡◌, Some};

use std::fmt;

/// The class of a type. A row that a caller added has the class `Custom`.
#[derive(Clone, Copy, Debug, Eq, PartialEq)]
pub enum MatcherType {
    App,
    Archive,
    Audio,
    Book,
    Doc,
    Font,
    Image,
    Text,
    Video,
    Custom,
}

/// A function that answers whether a buffer is of some type.
pub type Matcher = fn(&[u8]) -> bool;

/// A type of files: its class, its MIME type and its usual extension, without a dot.
#[derive(Clone, Copy, Eq, PartialEq)]
pub struct FileType {
    pub(crate) matcher_type: MatcherType,
    pub(crate) mime_type: &'static str,
    pub(crate) extension: &'static str,
}

impl FileType {
    ghost use Rattle.infer.specs.Triple.{triple, triple_of};

    /// A type of these three values. The matcher is neither kept nor called.
    pub fn new(
        matcher_type: MatcherType,
        mime_type: &'static str,
        extension: &'static str,
        _matcher: Matcher,
    ) -> FileType
        ensures { triple_of result ≡ triple matcher_type mime_type.now extension.now }
    {
        FileType {
            matcher_type,
            mime_type,
            extension,
        }
    }

    pub fn matcher_type(&self) -> MatcherType
        ensures { result ≡ (triple_of self.now).class }
    {
        self.matcher_type
    }

    pub fn mime_type(&self) -> &'static str
        ensures { result.now ≡ (triple_of self.now).mime_type }
    {
        self.mime_type
    }

    /// The extension, without a dot.
    pub fn extension(&self) -> &'static str
        ensures { result.now ≡ (triple_of self.now).extension }
    {
        self.extension
    }
}

impl fmt::Display for FileType {
    ghost output = { λ t. Some t.mime_type.now };

    fn fmt<W: fmt::Write>(&self, f: &mut fmt::Formatter<W>) -> fmt::Result {
        fmt::Display::fmt(self.mime_type, f)
    }
}

impl fmt::Debug for FileType {
    fn fmt<W: fmt::Write>(&self, f: &mut fmt::Formatter<W>) -> fmt::Result {
        f.debug_struct("Type")
            .field("matcher_type", &self.matcher_type)
            .field("mime_type", &self.mime_type)
            .field("extension", &self.extension)
            .finish_non_exhaustive()
    }
}
