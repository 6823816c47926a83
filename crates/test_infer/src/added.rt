//! The answer where a caller has added a row, as its contract tells.
ghost use Rattle.std.specs.Prelude.{◌≡◌, ◌↔◌, [], ◌∷◌, IfOk, IsTrue, Some, codes, nat_eq, option_map};
ghost use Rattle.std.specs.List.{starts_with};
ghost use Rattle.infer.specs.Caller.{FixesAnswers};
ghost use Rattle.infer.specs.Rows.{custom_rows, given};
ghost use Rattle.infer.specs.Triple.{triple, triple_of};
ghost use Rattle.infer.specs.declared.table.file_type.MatcherType.TheVariants.{Custom};

use infer::{Infer, Matcher, Type};
use std::alloc::{AllocError, Global};

pub fn begins_10_11_12(buf: &[u8]) -> bool
    ensures { IsTrue result ↔ IsTrue (starts_with nat_eq buf.now (0x10 ∷ 0x11 ∷ 0x12 ∷ [])) }
{
    buf.starts_with(&[0x10, 0x11, 0x12])
}

/// An `Infer` with one row, whose function is the caller's.
fn with_row(alloc: Global, m: Matcher) -> Result<Infer, AllocError>
    requires callable { IsAlwaysCallable m }
    requires settled { FixesAnswers (post m) }
    ensures { IfOk result (λ infer. custom_rows infer
        ≡ record {
          shows = triple Custom (codes "custom/foo") (codes "foo");
          signature = given m;
        } ∷ []) }
{
    let mut infer = Infer::new();
    infer.add(alloc, "custom/foo", "foo", m)?;
    Ok(infer)
}

/// The answer of an `Infer` with a row for buffers that begin with 10 11 12, which it is for these.
pub fn get_with_row(alloc: Global, buf: &[u8]) -> Result<Option<Type>, AllocError>
    ensures { IsTrue (starts_with nat_eq buf.now (0x10 ∷ 0x11 ∷ 0x12 ∷ [])) → IfOk result (λ found.
        option_map triple_of found ≡ Some (triple Custom (codes "custom/foo") (codes "foo"))) }
{
    let infer = with_row(alloc, begins_10_11_12)?;
    Ok(infer.get(buf))
}
