//! Why a text describes no types.
ghost use Rattle.std.specs.Prelude.{◌≡◌, ◌<◌, ◌≤◌, length};
ghost use Rattle.infer_notation.specs.Reasons.{reason_text};

/// What is wrong at a place of a text.
#[derive(Clone, Copy, Debug, Eq, PartialEq)]
pub enum Reason {
    Fields,
    Extension,
    MimeType,
    Class,
    Parent,
    OpenQuote,
    Empty,
    OpenSet,
    Byte,
    Digits,
    Length,
    Place,
    Bytes,
    Overlap,
    Past,
    Range,
    Binary,
    Relation,
    Item,
    End,
}

/// What is wrong with a text, and how many bytes there are from that place to its end.
#[derive(Clone, Copy, Debug)]
pub struct Flaw {
    pub reason: Reason,
    pub left: usize,
}

impl Reason {
    /// The reason in words, of which there are at most 73 bytes.
    pub fn text(self) -> &'static str
        ensures words { result.now ≡ reason_text self }
        ensures some { 0 < length result.now }
        ensures few { length result.now ≤ 73 }
    {
        match self {
            Reason::Fields =>
                "a type has an extension, a MIME type, a class, a parent and a signature",
            Reason::Extension => "no extension",
            Reason::MimeType => "no MIME type",
            Reason::Class => "unknown class",
            Reason::Parent => "no such parent",
            Reason::OpenQuote => "quotes do not close",
            Reason::Empty => "a quoted text is empty",
            Reason::OpenSet => "a set does not close",
            Reason::Byte => "a byte that is no printable ASCII, or stands where it cannot",
            Reason::Digits => "bytes are two hexadecimal digits each",
            Reason::Length => "a length is wanted, as in 14:",
            Reason::Place => "a place is wanted, as in @0",
            Reason::Bytes => "bytes are wanted",
            Reason::Overlap => "parts overlap",
            Reason::Past => "place past the length",
            Reason::Range => "a range ends before it begins",
            Reason::Binary => "`and binary` is wanted, and `or` or the end behind it",
            Reason::Relation => "unknown relation",
            Reason::Item => "the relation does not take this",
            Reason::End => "the signature ends too early",
        }
    }
}
