//! What is said of the bytes so far.
ghost use Rattle.std.specs.Prelude.{◌≡◌, ◌↔◌, IsTrue};
ghost use Rattle.infer.specs.First.{IsFirstOf};
ghost use Rattle.infer.specs.Row.{Accepts};
ghost use Rattle.infer.specs.Table.{table};
ghost use Rattle.infer_sniff.specs.Verdicts.{StaysFinalFromBeginning, IsFinal, IsSettled, IsTypeOf, IsVerdict, StaysFinal, found_of};

use infer::beginnings::Beginning;
use infer::{Type, laws, position, row, rows};

/// So many bytes decide every row that is not far.
const LEAST: usize = 1024;

/// What the bytes so far say: the type that [`infer::get`] answers for them, and whether that is certain to stay.
#[derive(Clone, Copy, Debug)]
pub enum Verdict {
    /// More bytes may change the type, or it is not known that none do.
    SoFar(Option<Type>),
    /// No bytes after those so far change the type, nor this verdict.
    Final(Option<Type>),
}

impl Verdict {
    /// The type, be it final or not.
    pub fn found(self) -> Option<Type>
        ensures { result ≡ found_of self }
    {
        match self {
            Verdict::SoFar(found) | Verdict::Final(found) => found,
        }
    }

    /// Whether the verdict is final. Then no bytes after those so far change the type; false does not say that some do.
    pub fn is_final(self) -> bool
        ensures { IsTrue result ↔ IsFinal self }
    {
        matches!(self, Verdict::Final(_))
    }
}

/// The verdict of `buf`.
pub fn verdict_of(buf: &[u8]) -> Verdict
    ensures verdict { IsVerdict buf.now result }
    ensures lasts { StaysFinal buf.now result }
{
    rows::numbers();
    laws::growth();
    laws::arrival();
    let (first, answer) = first_of(buf);
    if is_settled(buf, first) {
        Verdict::Final(answer)
    } else {
        Verdict::SoFar(answer)
    }
}

/// The verdict of `buf`, if `before` is that of a beginning of it. A final one is kept, and nothing is asked.
pub fn verdict_after(before: Verdict, buf: &[u8]) -> Verdict
    requires { StaysFinalFromBeginning before buf.now }
    ensures verdict { IsVerdict buf.now result }
    ensures lasts { StaysFinal buf.now result }
{
    match before {
        Verdict::SoFar(_) => verdict_of(buf),
        Verdict::Final(_) => before,
    }
}

/// The number of the first row that accepts `buf`, and its type.
fn first_of(buf: &[u8]) -> (Option<usize>, Option<Type>)
    ensures first { IsFirstOf (Accepts buf.now) table result.0 }
    ensures is_type { IsTypeOf buf.now result.1 }
{
    match position(buf) {
        Some(number) => (Some(number), row(number)),
        None => (None, None),
    }
}

/// Whether the verdict of `buf`, whose first row is `first`, is final. Then nothing after `buf` changes that row.
pub fn is_settled(buf: &[u8], first: Option<usize>) -> bool
    requires { IsFirstOf (Accepts buf.now) table first }
    ensures { IsTrue result ↔ IsSettled buf.now }
{
    if buf.len() < LEAST {
        return false;
    }
    match (Beginning::of(buf), first) {
        (None, _) => true,
        (Some(_), None) => false,
        (Some(beginning), Some(found)) => found <= beginning.last_after(),
    }
}
