//! Parts of a list or a text that many rows share. The prover reads numbers and texts at once but references one by one, so
//! tables are lists of numbers, which say where each part stands.
ghost use Rattle.std.specs.Prelude.{◌≡◌, IsAscii};
ghost use Rattle.infer_evidence.specs.Spans.{stretch};

/// Where a part begins, and how many elements it has.
#[derive(Clone, Copy, Debug)]
pub struct Span {
    pub start: u16,
    pub count: u16,
}

impl Span {
    /// What stands there in a list, as far as that goes.
    #[inline(always)]
    pub fn of<T>(self, list: &[T]) -> &[T]
        ensures { result.now ≡ stretch list.now self.start self.count }
    {
        stretch(list, usize::from(self.start), usize::from(self.count))
    }

    /// What stands there in an ASCII text, as far as that goes.
    pub fn of_text(self, text: &'static str) -> &'static str
        requires { IsAscii text.now }
        ensures { result.now ≡ stretch text.now self.start self.count }
    {
        text_at(text, usize::from(self.start), usize::from(self.count))
    }
}

/// So many elements of a list from a place on, or those that there are.
#[inline(always)]
pub fn stretch<T>(list: &[T], start: usize, count: usize) -> &[T]
    ensures { result.now ≡ stretch list.now start count }
{
    let Some(rest) = list.get(start..) else {
        return &[];
    };
    match rest.get(..count) {
        Some(stretch) => stretch,
        None => rest,
    }
}

/// So many bytes of an ASCII text from a place on, or those that there are.
pub fn text_at(text: &'static str, start: usize, count: usize) -> &'static str
    requires { IsAscii text.now }
    ensures { result.now ≡ stretch text.now start count }
{
    let start = start.min(text.len());
    let end = start.saturating_add(count).min(text.len());
    &text[start..end]
}
