//! What an upload gate lets pass.
ghost use Rattle.std.specs.Prelude.{◌≡◌, ◌↔◌, ◌<◌, ℕ, IfSome, IsTrue, None, Option};
ghost use Rattle.std.specs.Bool.{OnFalse, OnTrue};
ghost use Rattle.infer.specs.Decided.{MayBecomeRow, MayAnswer};
ghost use Rattle.infer.specs.First.{IsAnswer, IsFirst};
ghost use Rattle.infer.specs.Row.{Accepts};
ghost use Rattle.infer.specs.Table.{table};
ghost use Rattle.infer.specs.Triple.{Triple};
ghost use Rattle.infer.specs.Walks.{RowHas};
ghost use Rattle.infer_uses.specs.Answers.{IsOfClass};

use infer::{MatcherType, laws, may_become, position};

/// Whether the answer for the first bytes of an upload is an image.
///
/// That some image's row accepts them would not be enough: such bytes can be a program or a page by their answer.
pub fn admits(front: &[u8]) -> bool
    ensures { (answer : Option Triple) × IsAnswer (Accepts front.now) table answer
        × (IsTrue result ↔ IsOfClass MatcherType.Image answer) }
{
    is_of_class(front, MatcherType::Image)
}

/// Whether the answer for the bytes is of the class.
pub fn is_of_class(front: &[u8], class: MatcherType) -> bool
    ensures { (answer : Option Triple) × IsAnswer (Accepts front.now) table answer
        × (IsTrue result ↔ IsOfClass class answer) }
{
    match infer::get(front) {
        Some(found) => found.matcher_type() == class,
        None => false,
    }
}

/// Whether an upload that begins so can still get the row as its answer: by some bytes after these, or by none.
///
/// It is decided for the first row that may still accept the upload and of those before it, and of the answer so far and
/// of those after it. For the others it is decided if they can accept no more; if they can, earlier rows could be in their
/// way whatever follows, and it is `None`.
pub fn may_answer(front: &[u8], row: usize) -> Option<bool>
    ensures told { IfSome result (λ yes. IsTrue yes ↔ MayAnswer front.now row) }
    ensures before { result ≡ None → (k : ℕ) → IsFirst (Accepts front.now) table k → row < k }
    ensures after { result ≡ None → RowHas (MayBecomeRow front.now) row
        × ((i : ℕ) × (i < row) × RowHas (MayBecomeRow front.now) i) }
{
    laws::later();
    match position(front) {
        Some(found) if found == row => Some(true),
        Some(found) if found < row => Some(false),
        _ => may_answer_before(front, row),
    }
}

/// What [`may_answer`] says of a row before the answer so far, or of any row if there is none.
fn may_answer_before(front: &[u8], row: usize) -> Option<bool>
    ensures told { IfSome result (λ yes. IsTrue yes ↔ MayAnswer front.now row) }
    ensures after { result ≡ None → RowHas (MayBecomeRow front.now) row
        × ((i : ℕ) × (i < row) × RowHas (MayBecomeRow front.now) i) }
{
    laws::later();
    if !may_become(front, row) {
        return Some(false);
    }
    if none_before_may_become(front, row) {
        return Some(true);
    }
    None
}

/// Whether no row before this one may accept the upload.
fn none_before_may_become(front: &[u8], row: usize) -> bool
    ensures yes { OnTrue result ((i : ℕ) → i < row → ¬ RowHas (MayBecomeRow front.now) i) }
    ensures no { OnFalse result ((i : ℕ) × (i < row) × RowHas (MayBecomeRow front.now) i) }
{
    for i in 0..row {
        if may_become(front, i) {
            return false;
        }
    }
    true
}
