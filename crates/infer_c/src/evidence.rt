//! What decides an answer, as C has it.
ghost use Rattle.std.specs.Prelude.{◌≡◌};
ghost use Rattle.infer_evidence.specs.Evidence.{ranges_of};
ghost use Rattle.infer_c.specs.Codes.{row_code};
ghost use Rattle.infer_c.specs.Evidence.{WritesRanges, among_rows, needs_of, range_written};

use infer::rows::ROW_COUNT;
use infer_evidence::{Evidence, Range};
use infer_more::{FURTHER_COUNT, laws};

/// Bytes of a buffer: `len` of them, the first at `place` and each other `step` after the one before; and the number of the row
/// that they accept or rule out, or -1.
#[repr(C)]
#[derive(Clone, Copy)]
pub struct WrittenRange {
    pub place: usize,
    pub len: usize,
    pub step: usize,
    pub row: i32,
}

/// How many ranges are wanted, the least length that is needed, and whether just that of the buffer is.
#[repr(C)]
#[derive(Clone, Copy)]
pub struct Needs {
    pub wanted: usize,
    pub least: usize,
    pub is_exact: bool,
}

/// Writes the ranges, as many as there is room for, and stores what is needed.
pub fn store(evidence: &Evidence, room: &mut [WrittenRange], needs: &mut Needs)
    ensures ranges { WritesRanges (ranges_of evidence.now) room.old room.new }
    ensures needs { needs.new ≡ needs_of evidence.now }
{
    write_ranges(evidence.ranges(), room);
    *needs = Needs {
        wanted: evidence.wanted(),
        least: evidence.least(),
        is_exact: evidence.is_exact(),
    };
}

/// Writes the ranges to the front of the room, as many as it has room for.
fn write_ranges(ranges: &[Range], room: &mut [WrittenRange])
    ensures { WritesRanges ranges.now room.old room.new }
{
    for k in 0..ranges.len().min(room.len()) {
        room[k] = written(&ranges[k]);
    }
}

/// The range as C has it.
fn written(range: &Range) -> WrittenRange
    ensures { result ≡ range_written range.now }
{
    WrittenRange {
        place: range.place,
        len: range.len,
        step: range.step as usize,
        row: number(range.row()),
    }
}

/// The number, if a row has it, and else -1.
fn number(row: Option<usize>) -> i32
    ensures { result ≡ row_code (among_rows row) }
{
    laws::numbers();
    match row {
        Some(i) if i < ROW_COUNT + FURTHER_COUNT => i as i32,
        _ => -1,
    }
}
