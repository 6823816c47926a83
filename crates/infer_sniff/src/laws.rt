//! What holds of verdicts whatever the bytes are.
ghost use Rattle.std.specs.Prelude.{◌≡◌, ℕ, List, ◌++◌};
ghost use Rattle.infer.specs.Buffer.{IsBuffer, head};
ghost use Rattle.infer.specs.Decided.{IsDecided};
ghost use Rattle.infer_sniff.specs.Verdicts.{AreAlike, IsOneShort, IsSettled, IsVerdict, KeepsOpen};
ghost use Rattle.infer.specs.declared.beginnings.Beginning.{Beginning};
ghost use Rattle.infer_sniff.specs.declared.verdict.Verdict.{Verdict};

use infer::{FRONT, laws, rows};

/// Pieces may be cut in any way: what is kept after two pushes is what is kept after one of both pieces joined, and
/// one buffer has one verdict.
pub fn cuts()
    ensures joined { (kept a b : List ℕ)
        → head FRONT (head FRONT (kept ++ a) ++ b) ≡ head FRONT (kept ++ (a ++ b)) }
    ensures one_verdict { (b : List ℕ) (v w : Verdict) → IsVerdict b v → IsVerdict b w
        → AreAlike v w }
{}

/// A final verdict is of a decided buffer: no bytes after a settled one change its first row.
pub fn decided()
    ensures { (b : List ℕ) → IsSettled b → IsDecided b }
{
    rows::numbers();
    laws::growth();
    laws::arrival();
}

/// Each case is needed, and so is each of the 1024 bytes. Of every case there is a buffer that it alone keeps open, and to
/// which more bytes bring the last row that it allows; and a buffer of 1023 bytes, of which no case holds, gets another
/// row by one byte more.
pub fn needed()
    ensures cases { (how : Beginning) → (b more : List ℕ) × IsBuffer (b ++ more) × KeepsOpen how b more }
    ensures least { (b more : List ℕ) × IsBuffer (b ++ more) × IsOneShort b more }
{
    rows::numbers();
    laws::growth();
    laws::arrival();
    laws::single();
    laws::breaks();
}
