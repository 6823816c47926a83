//! Why bytes have their answer.
ghost use Rattle.std.specs.Prelude.{◌≡◌, ℕ, List, drop, map, option_map, take};
ghost use Rattle.infer.specs.Triple.{triple_of};
ghost use Rattle.infer_evidence.specs.Evidence.{ranges_of};
ghost use Rattle.infer_more.specs.Laws.{built_in_by};
ghost use Rattle.infer_more.specs.Wider.{shown_at};
ghost use Rattle.infer_label.specs.Options.{options_listed, gives_why};
ghost use Rattle.infer_label.specs.Why.{IsBuiltInWhy, IsWhy, IsWhyBy, IsWiderWhy, bytes_of, is_accepting, is_that, reason_listed, reason_of, why_listed};

use crate::options::{Look, Options};
use infer::Type;
use infer::rows::ROW_COUNT;
use infer_evidence::{Evidence, MOST_RANGES, Range};

/// Why bytes have their answer.
#[derive(Drop)]
pub struct Why<'a> {
    buf: &'a [u8],
    answer: Option<usize>,
    built_in: Option<usize>,
    evidence: Evidence,
}

/// Bytes that decide.
#[derive(Clone, Copy)]
pub struct Reason<'a> {
    /// Where the first stands.
    pub place: usize,
    /// How many they are.
    pub len: usize,
    /// How far each other stands after the one before.
    pub step: u32,
    /// The bytes, if they stand side by side.
    pub bytes: &'a [u8],
    /// The row that they decide, if it is a single one.
    pub row: Option<usize>,
    /// Whether it accepts by them.
    pub accepts: bool,
}

/// Why the bytes have their answer, if that is asked for and there are bytes.
pub fn why_of<'a>(options: Options<'_>, buf: &'a [u8]) -> Option<Why<'a>>
    ensures { IsWhy (gives_why (options_listed options.entry)) (options_listed options.entry).look buf.entry.now
        (option_map why_listed result) }
{
    if options.gives_why() && !buf.is_empty() {
        by_look(options.look, buf)
    } else {
        None
    }
}

/// By what is looked at. What a browser makes of bytes has other reasons.
fn by_look<'a>(look: Look, buf: &'a [u8]) -> Option<Why<'a>>
    ensures { IsWhyBy look buf.entry.now (option_map why_listed result) }
{
    match look {
        Look::NameAndBytes | Look::Bytes => Some(by_bytes(buf)),
        Look::BuiltIn => Some(by_built_in(buf)),
        Look::Browser | Look::BrowserForbidden => None,
    }
}

/// By all types.
fn by_bytes(buf: &[u8]) -> Why<'_>
    ensures { IsWiderWhy buf.entry.now (why_listed result) }
{
    let mut evidence = Evidence::new();
    let answer = infer_more::evidence(buf, &mut evidence);
    infer_more::laws::below();
    Why {
        buf,
        answer,
        built_in: built_in_by(answer),
        evidence,
    }
}

/// The built-in answer of bytes whose wider answer is this.
fn built_in_by(answer: Option<usize>) -> Option<usize>
    ensures { result ≡ built_in_by answer }
{
    match answer {
        Some(i) if i < ROW_COUNT => Some(i),
        Some(i) => infer_more::parent(i),
        None => None,
    }
}

/// By the built-in types alone.
fn by_built_in(buf: &[u8]) -> Why<'_>
    ensures { IsBuiltInWhy buf.entry.now (why_listed result) }
{
    let mut evidence = Evidence::new();
    let answer = infer::evidence(buf, &mut evidence);
    Why {
        buf,
        answer,
        built_in: answer,
        evidence,
    }
}

impl<'a> Why<'a> {
    /// The row that is the answer.
    pub fn answer(&self) -> Option<usize>
        ensures { result ≡ (why_listed self.now).answer }
    {
        self.answer
    }

    /// The ranges that the reasons are of.
    pub fn ranges(&self) -> &[Range]
        ensures { map (reason_of self.now.buf.now self.now.answer self.now.built_in) result.now ≡ (why_listed self.now).reasons }
    {
        self.evidence.ranges()
    }

    /// The reason that a range is.
    pub fn reason(&self, range: &Range) -> Reason<'a>
        ensures { reason_listed result ≡ reason_of self.now.buf.now self.now.answer self.now.built_in range.now }
    {
        Reason {
            place: range.place,
            len: range.len,
            step: range.step,
            bytes: bytes_of(self.buf, range),
            row: range.row(),
            accepts: self.is_accepting(range.row()),
        }
    }

    /// Whether the row is the answer, or the built-in one, of which the answer may be a finer kind.
    fn is_accepting(&self, row: Option<usize>) -> bool
        ensures { result ≡ is_accepting self.now.answer self.now.built_in row }
    {
        match row {
            Some(i) => is_that(self.answer, i) || is_that(self.built_in, i),
            None => false,
        }
    }

    /// The least length that is needed, or the length that is.
    pub fn least(&self) -> usize
        ensures { result ≡ (why_listed self.now).least }
    {
        if self.evidence.is_exact() {
            self.buf.len()
        } else {
            self.evidence.least()
        }
    }

    /// Whether just that length is needed.
    pub fn is_exact(&self) -> bool
        ensures { result ≡ (why_listed self.now).is_exact }
    {
        self.evidence.is_exact()
    }

    /// Whether there was room for all ranges.
    pub fn is_whole(&self) -> bool
        ensures { result ≡ (why_listed self.now).is_whole }
    {
        self.evidence.wanted() <= MOST_RANGES
    }
}

fn is_that(row: Option<usize>, i: usize) -> bool
    ensures { result ≡ is_that row i }
{
    match row {
        Some(j) => j == i,
        None => false,
    }
}

/// The bytes of a range, if they stand side by side.
fn bytes_of<'a>(buf: &'a [u8], range: &Range) -> &'a [u8]
    ensures { result.now ≡ bytes_of buf.entry.now range.now }
{
    if range.step == 1 {
        bytes_at(buf, range.place, range.len)
    } else {
        &[]
    }
}

/// The bytes from the place on, as many as that, or as there are.
fn bytes_at(buf: &[u8], place: usize, len: usize) -> &[u8]
    ensures { result.now ≡ take len (drop place buf.now) }
{
    let rest = &buf[place.min(buf.len())..];
    &rest[..len.min(rest.len())]
}

/// The type of a row.
pub fn type_of(row: Option<usize>) -> Option<Type>
    ensures { option_map triple_of result ≡ shown_at row }
{
    match row {
        Some(i) => infer_more::row(i),
        None => None,
    }
}
