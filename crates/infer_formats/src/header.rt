//! Programs of DOS whose header names the place of a later one: Microsoft's PE format, the MS-DOS stub, and the formats of
//! OS/2 before it.
ghost use Rattle.std.specs.Prelude.{◌↔◌, ◌≤◌, ◌+◌, IsTrue, length};
ghost use Rattle.infer_formats.specs.Header.{HasLaterHeader};
ghost use Rattle.infer_deep.specs.Numbers.{le16};

mod may_become;

use infer_deep::numbers::{le16, le32};
use infer_deep::places::stands_at;
pub use may_become::may_have_later_header;

/// The size of the header of DOS.
const DOS_SIZE: usize = 64;
/// Where it says at which place the later header stands.
const LATER: usize = 60;

/// The header of DOS stands first, the text at the place that it names, and so far from there a number between these two.
#[inline(never)]
pub fn has_later_header(buf: &[u8], text: &[u8], far: u16, low: u16, high: u16) -> bool
    ensures { IsTrue result ↔ HasLaterHeader text.now far low high buf.now }
{
    if buf.len() < DOS_SIZE || !stands_at(buf, b"MZ", 0) {
        return false;
    }
    let later = le32(buf, LATER) as usize;
    let place = later + usize::from(far);
    if place > buf.len() - 2 || !is_between(le16(buf, place), low, high) {
        return false;
    }
    stands_at(buf, text, later)
}

fn is_between(number: u16, low: u16, high: u16) -> bool
    ensures { IsTrue result ↔ (low ≤ number) × (number ≤ high) }
{
    low <= number && number <= high
}
