//! Rows are asked through an asker, which counts them.
ghost use Rattle.std.specs.Prelude.{◌≡◌, ◌↔◌, ◌<◌, ◌≤◌, ◌++◌, ℕ, List, [], ◌∷◌, Option, None, Some, IfSome, is_some, IsTrue, length, slice_get};
ghost use Rattle.infer.specs.First.{IsFirstOf};
ghost use Rattle.infer.specs.Leads.{candidates_of};
ghost use Rattle.infer.specs.Questions.{HasExtension, SomeBoth};
ghost use Rattle.infer.specs.Row.{Accepts};
ghost use Rattle.infer.specs.Table.{table};
ghost use Rattle.infer.specs.Walks.{HasGiven, IsFirstAmong, RowHas, Takes, asked_rows, count_asked};

use crate::ask::question::{IfGiven, is_asked};
use crate::candidates::dispatch::{blank, candidates_of, leads};
use crate::table::built_in::accepts;
use crate::table::rows::{MOST_CANDIDATES, ROW_COUNT};

/// Who asks the built-in rows about one buffer. A contract sees that buffer, and which rows were asked, in order.
pub trait Ask {
    ghost buffer: { Self → List ℕ };

    // Whether these can be the rows that were asked, as far as the asker knows.
    ghost has_asked: { Self → List ℕ → Type 0 };

    /// The first byte of the buffer, and `None` exactly if it is empty.
    fn first(&self) -> Option<u8>
        ensures { result ≡ slice_get (buffer self.now) 0 };

    /// Whether the built-in row `i` accepts the buffer. It is the last that was asked.
    fn ask(&mut self, i: usize) -> bool
        requires row { i < ROW_COUNT }
        requires room { (before : List ℕ) × has_asked self.old before
            × (length before < ROW_COUNT) }
        ensures answer { IsTrue result ↔ RowHas (Accepts (buffer self.old)) i }
        ensures kept { buffer self.new ≡ buffer self.old }
        ensures asked { (before : List ℕ) → has_asked self.old before
            → has_asked self.new (before ++ i ∷ []) };
}

/// Asks the matchers, and counts. Of the rows that were asked it knows their number alone.
#[derive(Drop)]
pub struct Asker<'a> {
    buf: &'a [u8],
    count: u32,
}

impl<'a> Asker<'a> {
    /// About `buf`, with no row asked.
    pub fn new(buf: &'a [u8]) -> Asker<'a>
        ensures buffer { ⟦<Asker<'a> as Ask>⟧.buffer result ≡ buf.now }
        ensures asked { ⟦<Asker<'a> as Ask>⟧.has_asked result [] }
    {
        Asker { buf, count: 0 }
    }

    /// How many rows were asked.
    pub fn asked(&self) -> u32
        ensures { (rows : List ℕ) → ⟦<Asker<'a> as Ask>⟧.has_asked self.now rows
            → result ≡ length rows }
    {
        self.count
    }
}

impl Ask for Asker<'_> {
    ghost buffer = { λ s. s.buf.now };

    ghost has_asked = { λ s rows. s.count ≡ length rows };

    fn first(&self) -> Option<u8> {
        self.buf.first().copied()
    }

    fn ask(&mut self, i: usize) -> bool {
        self.count += 1;
        accepts(self.buf, i)
    }
}

/// The number of the first built-in row that accepts the asker's buffer, of those with the extension if one is
/// given, and `None` exactly if none does.
///
/// Of those rows it asks the candidates of the first byte, which are the rows whose signature allows it there. It
/// asks them in ascending order up to the answer, which are at most [`MOST_CANDIDATES`], and no other.
#[tactic(auto, using(crate::proofs::AskLemmas::few_asked))]
pub fn walk<A: Ask>(asker: &mut A, wanted: Option<&str>) -> Option<usize>
    requires { A.has_asked asker.old [] }
    ensures first { IsFirstAmong (RowHas (Takes (HasGiven wanted.entry) (A.buffer asker.old)))
        (candidates_of (A.buffer asker.old)) result }
    ensures asked { A.has_asked asker.new (asked_rows wanted.entry (A.buffer asker.old) result) }
    ensures few { count_asked wanted.entry (A.buffer asker.old) result ≤ MOST_CANDIDATES }
    ensures kept { A.buffer asker.new ≡ A.buffer asker.old }
{
    for row in candidates_of(asker.first()) {
        if is_asked(*row, &IfGiven(wanted)) && asker.ask(*row) {
            return Some(*row);
        }
    }
    None
}

/// What a [`walk`] about `buf` answers, and how many rows it asks.
#[tactic(auto, using(crate::proofs::CandidateLemmas::first_of_buffer))]
fn count(buf: &[u8], wanted: Option<&str>) -> (Option<usize>, u32)
    ensures first { IsFirstOf (Takes (HasGiven wanted.entry) buf.now) table result.0 }
    ensures among { IsFirstAmong (RowHas (Takes (HasGiven wanted.entry) buf.now))
        (candidates_of buf.now) result.0 }
    ensures counted { result.1 ≡ count_asked wanted.entry buf.now result.0 }
    ensures few { result.1 ≤ MOST_CANDIDATES }
{
    leads();
    blank();
    let mut asker = Asker::new(buf);
    let found = walk(&mut asker, wanted);
    (found, asker.asked())
}

/// The number of the first built-in row that accepts `buf`, as [`position`](crate::position) answers, and how many
/// rows a [`walk`] asks for it: its candidates up to that row, all of them if no row accepts it.
#[tactic(auto, using(crate::proofs::CandidateLemmas::first_of_every, crate::proofs::TableLemmas::table_rows))]
pub fn position_counted(buf: &[u8]) -> (Option<usize>, u32)
    ensures first { IsFirstOf (Accepts buf.now) table result.0 }
    ensures bound { IfSome result.0 (λ i. i < ROW_COUNT) }
    ensures counted { result.1 ≡ count_asked None buf.now result.0 }
    ensures few { result.1 ≤ MOST_CANDIDATES }
{
    count(buf, None)
}

/// Whether some built-in row with this extension accepts `buf`, as [`is`](crate::is) answers, and how many rows a
/// [`walk`] asks for it: the candidates with the extension up to the first that accepts `buf`.
#[tactic(auto, using(crate::proofs::CandidateLemmas::some_of_first))]
pub fn is_counted(buf: &[u8], extension: &str) -> (bool, u32)
    ensures found { IsTrue result.0
        ↔ SomeBoth (HasExtension extension.now) (Accepts buf.now) table }
    ensures counted { (answer : Option ℕ)
        × IsFirstAmong (RowHas (Takes (HasGiven (Some extension.entry)) buf.now))
        (candidates_of buf.now) answer × (result.0 ≡ is_some answer)
        × (result.1 ≡ count_asked (Some extension.entry) buf.now answer) }
    ensures few { result.1 ≤ MOST_CANDIDATES }
{
    let (found, count) = count(buf, Some(extension));
    (found.is_some(), count)
}
