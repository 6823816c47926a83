//! The first byte of a buffer decides which rows are asked.

ghost use Rattle.std.specs.Prelude.{◌≡◌, ◌≤◌, [], ℕ, List, length, map, slice_get};
ghost use Rattle.infer.specs.BuiltIn.{BuiltIn};
ghost use Rattle.infer.specs.First.{NoneHas};
ghost use Rattle.infer.specs.Groups.{groups};
ghost use Rattle.infer.specs.Leads.{Leads, candidates, candidates_of};
ghost use Rattle.infer.specs.Row.{Accepts};
ghost use Rattle.infer.specs.Table.{table};

use crate::candidates::groups::{CANDIDATES, GROUP_COUNT, GROUP_OF};
use crate::table::rows::MOST_CANDIDATES;

/// The candidates of each group.
fn groups() -> &'static [&'static [usize]]
    ensures listed { map (λ rows. rows.now) result.now ≡ groups }
    ensures many { length result.now ≡ GROUP_COUNT }
{
    &CANDIDATES
}

/// The rows that can accept a buffer with this first byte, ascending.
pub fn candidates_at(first: u8) -> &'static [usize]
    ensures rows { result.now ≡ candidates first }
    ensures few { length result.now ≤ MOST_CANDIDATES }
{
    groups()[usize::from(GROUP_OF[usize::from(first)])]
}

/// The rows that can accept a buffer with this first byte, ascending, and none without one.
pub fn candidates_of(first: Option<u8>) -> &'static [usize]
    ensures rows { (b : List ℕ) → first ≡ slice_get b 0 → result.now ≡ candidates_of b }
    ensures few { length result.now ≤ MOST_CANDIDATES }
{
    match first {
        Some(first) => candidates_at(first),
        None => &[],
    }
}

/// A buffer that a built-in signature accepts begins with a byte that the signature allows there.
#[tactic(auto, using(crate::proofs::LeadLemmas::every_leads))]
pub fn leads()
    ensures { (signature : BuiltIn) → Leads signature }
{
    infer_sig::laws::leads();
    infer_deep::laws::leads();
}

/// No built-in row accepts the empty buffer.
pub fn blank()
    ensures { NoneHas (Accepts []) table }
{
    infer_sig::laws::by_place();
}
