//! Models: short buffers, each as texts at places.
ghost use Rattle.std.specs.Prelude.{◌≡◌, ◌+◌, ◌<◌, ◌≤◌, ℕ, [], ◌∷◌, length};
ghost use Rattle.infer_sig.specs.Signature.{at_least, text};
ghost use Rattle.infer_formats.specs.Outline.{model_entry};
ghost use Rattle.infer_formats.specs.Relation.{model_listed, placed_listed, text_listed};

/// Bytes that are borrowed, or that were made.
#[derive(Clone, Copy)]
pub enum Text<'a> {
    Slice(&'a [u8]),
    One([u8; 1]),
    Two([u8; 2]),
    Sixteen([u8; 16]),
}

impl<'a> Text<'a> {
    /// The bytes.
    pub fn bytes(&self) -> &[u8]
        ensures { result.now ≡ text_listed self.now }
    {
        match self {
            Text::Slice(bytes) => bytes,
            Text::One(bytes) => bytes,
            Text::Two(bytes) => bytes,
            Text::Sixteen(bytes) => bytes,
        }
    }
}

/// A text and its place.
#[derive(Clone, Copy)]
pub struct Placed<'a> {
    pub place: usize,
    pub text: Text<'a>,
}

/// A short buffer: its length, and the texts in it, the first `count` of these, with zeros between them.
#[derive(Clone, Copy)]
pub struct Model<'a> {
    pub least: usize,
    pub texts: [Placed<'a>; 5],
    pub count: usize,
}

/// The bytes at the place.
pub(crate) fn at<'a>(place: usize, bytes: &'a [u8]) -> Placed<'a>
    ensures { placed_listed result ≡ text place bytes.now }
{
    Placed {
        place,
        text: Text::Slice(bytes),
    }
}

/// What was made at the place.
pub(crate) fn made<'a>(place: usize, bytes: Text<'a>) -> Placed<'a>
    ensures { placed_listed result ≡ text place (text_listed bytes.entry) }
{
    Placed { place, text: bytes }
}

/// The first entry of a ZIP archive, with the text after its header, and its length at the place.
pub(crate) fn entry<'a>(place: usize, bytes: Text<'a>) -> Model<'a>
    requires { 30 + length (text_listed bytes) ≤ 65536 }
    ensures model { model_listed result ≡ model_entry place (text_listed bytes.entry) }
    ensures few { result.count ≤ 5 }
{
    let count = bytes.bytes().len();
    three(
        30 + count,
        at(0, b"PK\x03\x04"),
        made(place, Text::One([(count % 256) as u8])),
        made(30, bytes),
    )
}

/// One text in so many bytes.
pub(crate) fn one<'a>(least: usize, a: Placed<'a>) -> Model<'a>
    ensures model { model_listed result ≡ at_least least (placed_listed a.entry ∷ []) }
    ensures few { result.count ≤ 5 }
{
    Model {
        least,
        texts: [a, a, a, a, a],
        count: 1,
    }
}

/// Two.
pub(crate) fn two<'a>(least: usize, a: Placed<'a>, b: Placed<'a>) -> Model<'a>
    ensures model { model_listed result ≡ at_least least (placed_listed a.entry ∷ placed_listed b.entry ∷ []) }
    ensures few { result.count ≤ 5 }
{
    Model {
        least,
        texts: [a, b, a, a, a],
        count: 2,
    }
}

/// Three.
pub(crate) fn three<'a>(least: usize, a: Placed<'a>, b: Placed<'a>, c: Placed<'a>) -> Model<'a>
    ensures model { model_listed result ≡ at_least least (placed_listed a.entry ∷ placed_listed b.entry ∷ placed_listed c.entry ∷ []) }
    ensures few { result.count ≤ 5 }
{
    Model {
        least,
        texts: [a, b, c, a, a],
        count: 3,
    }
}

/// Four.
pub(crate) fn four<'a>(
    least: usize,
    a: Placed<'a>,
    b: Placed<'a>,
    c: Placed<'a>,
    d: Placed<'a>,
) -> Model<'a>
    ensures model { model_listed result ≡ at_least least (placed_listed a.entry ∷ placed_listed b.entry ∷ placed_listed c.entry ∷ placed_listed d.entry ∷ []) }
    ensures few { result.count ≤ 5 }
{
    Model {
        least,
        texts: [a, b, c, d, a],
        count: 4,
    }
}

/// Five.
pub(crate) fn five<'a>(
    least: usize,
    a: Placed<'a>,
    b: Placed<'a>,
    c: Placed<'a>,
    d: Placed<'a>,
    e: Placed<'a>,
) -> Model<'a>
    ensures model { model_listed result ≡ at_least least (placed_listed a.entry ∷ placed_listed b.entry ∷ placed_listed c.entry ∷ placed_listed d.entry ∷ placed_listed e.entry ∷ []) }
    ensures few { result.count ≤ 5 }
{
    Model {
        least,
        texts: [a, b, c, d, e],
        count: 5,
    }
}
