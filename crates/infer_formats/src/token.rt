//! The tokens of which signatures are written.

/// What stands between quotes or braces, a separator, or a bare word.
#[derive(Clone, Copy)]
pub enum Token<'a> {
    Quoted(&'a [u8]),
    Set(&'a [u8]),
    Separator(u8),
    Word(&'a [u8]),
}
