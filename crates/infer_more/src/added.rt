//! Wider answers beside the rows that a caller added.
ghost use Rattle.std.specs.Prelude.{option_map};
ghost use Rattle.infer.specs.Rows.{custom_rows};
ghost use Rattle.infer.specs.Triple.{triple_of};
ghost use Rattle.infer_more.specs.Added.{IsAnswerWith};

use crate::answers::get;
use infer::{Infer, Type};
use std::alloc::Allocator;

/// The type of the first row that was added to `infer` and accepts `buf`, or of the wider answer of `buf` if none does.
pub fn get_with<A: Allocator>(infer: &Infer<A>, buf: &[u8]) -> Option<Type>
    ensures { IsAnswerWith (custom_rows infer.now) buf.now (option_map triple_of result) }
{
    match infer.get_added(buf) {
        Some(found) => Some(found),
        None => get(buf),
    }
}
