//! The first row of the bytes so far, by its number, and whether it is certain.
ghost use Rattle.std.specs.Prelude.{◌↔◌, ◌<◌, IfSome, IsTrue};
ghost use Rattle.infer.specs.First.{IsFirstOf};
ghost use Rattle.infer.specs.Row.{Accepts};
ghost use Rattle.infer.specs.Table.{table};
ghost use Rattle.infer.specs.declared.table.rows.TheConstants.{ROW_COUNT};
ghost use Rattle.infer_sniff.specs.Verdicts.{IsSettled, RowStaysFinal};

use crate::verdict::is_settled;
use infer::{laws, position, rows};

/// The number of the first built-in row that accepts `buf`, as [`position`] answers, and whether the verdict of `buf`
/// is final. The rows are gone through once.
pub fn position_settled(buf: &[u8]) -> (Option<usize>, bool)
    ensures first { IsFirstOf (Accepts buf.now) table result.0 }
    ensures bound { IfSome result.0 (λ i. i < ROW_COUNT) }
    ensures settled { IsTrue result.1 ↔ IsSettled buf.now }
    ensures lasts { IsTrue result.1 → RowStaysFinal buf.now result.0 }
{
    rows::numbers();
    laws::growth();
    laws::arrival();
    let first = position(buf);
    (first, is_settled(buf, first))
}
