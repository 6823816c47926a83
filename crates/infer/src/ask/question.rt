//! What is asked for, and of one row: the rows with one extension, MIME type or class.
ghost use Rattle.std.specs.Prelude.{◌≡◌, ◌↔◌, IsTrue};
ghost use Rattle.infer.specs.Questions.{IsAsked};
ghost use Rattle.infer.specs.Triple.{Triple, triple_of};
ghost use Rattle.infer.specs.Walks.{HasGiven, RowHas, Takes};

use crate::table::built_in::rows;
use crate::table::file_type::{FileType, MatcherType};

/// A question, which is known by its type, so that code is made for each.
pub trait Question {
    // The property that the types of the rows have that are asked for.
    ghost asked: { Self → Triple → Type 0 };

    /// Whether the type is one that is asked for.
    fn asks_for(&self, file_type: &FileType) -> bool
        ensures { IsTrue result ↔ asked self.now (triple_of file_type.now) };
}

/// Asks for the rows with this extension. A text that is not UTF-8 is no row's.
#[derive(Drop)]
pub struct WithExtension<'a>(pub &'a [u8]);

/// Asks for the rows with this MIME type. A text that is not UTF-8 is no row's.
#[derive(Drop)]
pub struct WithMimeType<'a>(pub &'a [u8]);

/// Asks for the rows of this class.
#[derive(Drop)]
pub struct OfClass(pub MatcherType);

/// Asks for the rows with this extension, and for every row if none is given.
#[derive(Drop)]
pub struct IfGiven<'a>(pub Option<&'a str>);

impl Question for WithExtension<'_> {
    ghost asked = { λ q t. t.extension ≡ q.0.now };

    #[inline(always)]
    fn asks_for(&self, file_type: &FileType) -> bool {
        file_type.extension.as_bytes() == self.0
    }
}

impl Question for WithMimeType<'_> {
    ghost asked = { λ q t. t.mime_type ≡ q.0.now };

    #[inline(always)]
    fn asks_for(&self, file_type: &FileType) -> bool {
        file_type.mime_type.as_bytes() == self.0
    }
}

impl Question for OfClass {
    ghost asked = { λ q t. t.class ≡ q.0 };

    #[inline(always)]
    fn asks_for(&self, file_type: &FileType) -> bool {
        file_type.matcher_type == self.0
    }
}

impl Question for IfGiven<'_> {
    ghost asked = { λ q t. HasGiven q.0 t };

    #[inline(always)]
    fn asks_for(&self, file_type: &FileType) -> bool {
        match self.0 {
            Some(extension) => file_type.extension == extension,
            None => true,
        }
    }
}

/// Whether row `i` is one that the question asks for.
#[inline(always)]
pub fn is_asked<Q: Question>(i: usize, question: &Q) -> bool
    ensures { IsTrue result ↔ RowHas (IsAsked (Q.asked question.now)) i }
{
    match rows().get(i) {
        Some(row) => question.asks_for(&row.file_type),
        None => false,
    }
}

/// Whether row `i` is one that the question asks for, and accepts `buf`.
#[inline(always)]
pub fn takes_row<Q: Question>(i: usize, question: &Q, buf: &[u8]) -> bool
    ensures { IsTrue result ↔ RowHas (Takes (Q.asked question.now) buf.now) i }
{
    match rows().get(i) {
        Some(row) => question.asks_for(&row.file_type) && row.accepts(buf),
        None => false,
    }
}
