//! A walk that notes which built-in rows it asks.
ghost use Rattle.std.specs.Prelude.{◌≡◌, ◌≤◌, ℕ, List, [], length, take};
ghost use Rattle.infer.specs.Walks.{asked_rows};

use infer::rows::ROW_COUNT;
use infer::{Ask, Asker, walk};

/// Notes the number of each row that it asks.
#[derive(Drop)]
pub struct Noting<'a> {
    inner: Asker<'a>,
    rows: [usize; ROW_COUNT],
}

impl<'a> Noting<'a> {
    pub fn new(buf: &'a [u8]) -> Noting<'a>
        ensures buffer { ⟦<Noting<'a> as Ask>⟧.buffer result ≡ buf.now }
        ensures asked { ⟦<Noting<'a> as Ask>⟧.has_asked result [] }
    {
        Noting {
            inner: Asker::new(buf),
            rows: [ROW_COUNT; ROW_COUNT],
        }
    }

    /// The rows that were asked, in order.
    fn rows(&self) -> &[usize]
        ensures { (rows : List ℕ) → length rows ≤ ROW_COUNT
            → ⟦<Noting<'a> as Ask>⟧.has_asked self.now rows → result.now ≡ rows }
    {
        let count = self.inner.asked() as usize;
        &self.rows[..count.min(ROW_COUNT)]
    }
}

impl<'a> Ask for Noting<'a> {
    ghost buffer = { λ s. ⟦<Asker<'a> as Ask>⟧.buffer s.inner };

    ghost has_asked = { λ s rows. ⟦<Asker<'a> as Ask>⟧.has_asked s.inner rows × (take (length rows) s.rows ≡ rows) };

    fn first(&self) -> Option<u8> {
        self.inner.first()
    }

    fn ask(&mut self, i: usize) -> bool {
        let place = self.inner.asked() as usize;
        self.rows[place] = i;
        self.inner.ask(i)
    }
}

/// A walk, and the rows that it asked, in order.
pub fn walk_noting<'a, 'b>(
    noting: &'a mut Noting<'b>,
    wanted: Option<&str>,
) -> (Option<usize>, &'a [usize])
    requires { ⟦<Noting<'b> as Ask>⟧.has_asked noting.old [] }
    ensures { result.1.now ≡ asked_rows wanted.entry
        (⟦<Noting<'b> as Ask>⟧.buffer noting.old) result.0 }
{
    let found = walk(noting, wanted);
    (found, noting.rows())
}
