//! Rows by number.
ghost use Rattle.std.specs.Prelude.{◌≡◌, ◌≤◌, List, ℕ, IfSome, Option, [], length, option_map};
ghost use Rattle.std.specs.Option.{option_map_or};
ghost use Rattle.infer.specs.Triple.{triple_of};
ghost use Rattle.infer_c.specs.Codes.{IsSample, triple_at};
ghost use Rattle.infer_c.specs.Written.{WritesWhole};

use crate::written::write_whole;
use infer::Type;
use infer_more::{SAMPLE_SIZE, laws};

/// The type of the row with this number.
pub fn of(row: i32) -> Option<Type>
    ensures shows { option_map triple_of result ≡ triple_at row }
    ensures short { IfSome result (λ t. (length t.mime_type.now ≤ 73)
        × (length t.extension.now ≤ 73)) }
{
    if row < 0 {
        return None;
    }
    laws::sizes();
    infer_more::row(row as usize)
}

/// The length of the sample of row `i`, built-in or further, which is written to `out` if it fits, and 0 if it has none.
pub fn write_sample(i: usize, out: &mut [u8]) -> usize
    ensures sample { (sample : Option (List ℕ)) × IsSample i sample
        × (result ≡ option_map_or (λ s. length s) sample 0)
        × WritesWhole (option_map_or (λ s. s) sample []) out.old out.new }
    ensures few { result ≤ SAMPLE_SIZE }
{
    let mut bytes = [0; SAMPLE_SIZE];
    match infer_more::sample(i, &mut bytes) {
        Some(count) => write_whole(&bytes[..count], out),
        None => 0,
    }
}
