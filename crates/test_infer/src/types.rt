//! That a clone is equal to its source, as the laws of equality tell.
ghost use Rattle.std.specs.Prelude.{IfOk, IsTrue};

use infer::{MatcherType, Type, laws};
use std::alloc::AllocError;

/// A clone has the values of its source, and `==` finds them equal.
pub fn equal_after_clone(t: &Type) -> Result<bool, AllocError>
    ensures { IfOk result (λ same. IsTrue same) }
{
    let copy = laws::cloned(t)?;
    Ok(laws::equal(&copy, t))
}

pub fn equal_after_class_clone(class: &MatcherType) -> Result<bool, AllocError>
    ensures { IfOk result (λ same. IsTrue same) }
{
    let copy = laws::cloned_class(class)?;
    Ok(laws::equal_classes(&copy, class))
}
