//! Bytes of headers.
ghost use Rattle.std.specs.Prelude.{◌≡◌};
ghost use Rattle.mime_types.specs.Bytes.{is_quotable, is_token, is_white};

/// Whether the byte is white space of HTTP.
#[inline(always)]
pub(crate) fn is_white(byte: u8) -> bool
    ensures { result ≡ is_white byte }
{
    byte == b'\t' || byte == b'\n' || byte == b'\r' || byte == b' '
}

macro_rules! chart {
    ($($mark:tt)*) => {
        [$(marked!($mark)),*]
    };
}

macro_rules! marked {
    (X) => {
        true
    };
    (_) => {
        false
    };
}

/// The bytes of tokens, sixteen a line: looked up, so that capital letters and digits cost no more than others.
static TOKENS: [bool; 256] = chart![
    _ _ _ _ _ _ _ _ _ _ _ _ _ _ _ _
    _ _ _ _ _ _ _ _ _ _ _ _ _ _ _ _
    _ X _ X X X X X _ _ X X _ X X _
    X X X X X X X X X X _ _ _ _ _ _
    _ X X X X X X X X X X X X X X X
    X X X X X X X X X X X _ _ _ X X
    X X X X X X X X X X X X X X X X
    X X X X X X X X X X X _ X _ X _
    _ _ _ _ _ _ _ _ _ _ _ _ _ _ _ _
    _ _ _ _ _ _ _ _ _ _ _ _ _ _ _ _
    _ _ _ _ _ _ _ _ _ _ _ _ _ _ _ _
    _ _ _ _ _ _ _ _ _ _ _ _ _ _ _ _
    _ _ _ _ _ _ _ _ _ _ _ _ _ _ _ _
    _ _ _ _ _ _ _ _ _ _ _ _ _ _ _ _
    _ _ _ _ _ _ _ _ _ _ _ _ _ _ _ _
    _ _ _ _ _ _ _ _ _ _ _ _ _ _ _ _
];

/// Whether tokens have the byte.
#[inline(always)]
pub(crate) fn is_token(byte: u8) -> bool
    ensures { result ≡ is_token byte }
{
    TOKENS[usize::from(byte)]
}

/// Whether values have the byte.
#[inline(always)]
pub(crate) fn is_quotable(byte: u8) -> bool
    ensures { result ≡ is_quotable byte }
{
    byte == b'\t' || byte >= b' ' && byte != 0x7F
}
