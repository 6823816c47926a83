//! What a report on directories counts.
ghost use Rattle.std.specs.Prelude.{map};
ghost use Rattle.infer_uses.specs.Counts.{Counts};

use crate::gate;
use infer::MatcherType;

/// How many of the buffers have an answer of the class.
pub fn count(class: MatcherType, fronts: &[&[u8]]) -> usize
    ensures { Counts class (map (λ front. front.now) fronts.now) result }
{
    let mut count = 0;
    for front in fronts {
        if gate::is_of_class(front, class) {
            count += 1;
        }
    }
    count
}
