//! The texts of the rows as C wants them, each with a zero after it.
ghost use Rattle.std.specs.Prelude.{◌≡◌, ◌<◌, Some, [], length, map, option_map, slice_get};
ghost use Rattle.std.specs.Option.{option_map_or};
ghost use Rattle.infer.specs.Table.{table};
ghost use Rattle.infer.specs.declared.table.rows.TheConstants.{ROW_COUNT};
ghost use Rattle.infer_more.specs.Ended.{ended, ended_listed, ended_shown};
ghost use Rattle.infer_more.specs.Wider.{shown};
ghost use Rattle.infer_c.specs.Codes.{triple_at};

use crate::texts::generated::PAIRS;
use infer::rows::ROW_COUNT;
use infer_more::{EndedTexts, ended_texts, laws};

macro_rules! pairs {
    ($($mime_type:literal $extension:literal;)*) => {
        [$(EndedTexts {
            mime_type: concat!($mime_type, "\0"),
            extension: concat!($extension, "\0"),
        }),*]
    };
}

mod generated;

const NONE: EndedTexts = EndedTexts {
    mime_type: "\0",
    extension: "\0",
};

fn pairs() -> &'static [EndedTexts]
    ensures listed { map ended_listed result.now ≡ map (λ r. ended_shown r.shows) table }
    ensures many { length result.now ≡ ROW_COUNT }
{
    &PAIRS
}

/// The texts of built-in row `i`.
fn at(i: usize) -> EndedTexts
    requires { i < ROW_COUNT }
    ensures { option_map ended_shown (slice_get shown i) ≡ Some (ended_listed result) }
{
    laws::numbers();
    pairs()[i]
}

/// The texts of the row with this number, which are empty if there is no such row.
pub fn of(row: i32) -> EndedTexts
    ensures mime_type { result.mime_type.now
        ≡ ended (option_map_or (λ t. t.mime_type) (triple_at row) []) }
    ensures extension { result.extension.now
        ≡ ended (option_map_or (λ t. t.extension) (triple_at row) []) }
{
    if row < 0 {
        return NONE;
    }
    let i = row as usize;
    if i < ROW_COUNT {
        return at(i);
    }
    match ended_texts(i) {
        Some(texts) => texts,
        None => NONE,
    }
}
