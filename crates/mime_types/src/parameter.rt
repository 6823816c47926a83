//! Parameters as they were written.

/// A value as it was written: what stands between quotes, with its backslashes, or a word without quotes.
#[derive(Clone, Copy)]
pub struct Value<'a> {
    /// The bytes, without the quotes.
    pub text: &'a [u8],
    /// Whether they stood in quotes.
    pub is_quoted: bool,
}

/// A parameter as it was written. Its name is in the case in which it was written.
#[derive(Clone, Copy)]
pub struct Parameter<'a> {
    /// The name.
    pub name: &'a [u8],
    /// The value.
    pub value: Value<'a>,
}
