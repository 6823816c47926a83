//! What stands after an ID3v2 tag: ID3 tag version 2.4.0, main structure, sections 3.1 and 6.2.
ghost use Rattle.std.specs.Prelude.{◌≡◌, ◌↔◌, ◌<◌, ◌≤◌, IsTrue, length};
ghost use Rattle.infer_formats.specs.Id3.{IsAfterId3, IsSynchsafe, tag_size};

mod may_become;

use infer_deep::places::stands_at;
pub use may_become::may_be_behind_id3;

/// The size of a tag's header.
const HEADER_SIZE: usize = 10;
/// Where the header says how many bytes follow it.
const SIZE: usize = 6;
/// Each byte of a synchsafe number has seven bits, and the highest is clear.
const RADIX: usize = 0x80;

/// A tag stands first, and right after it the text.
#[inline(never)]
pub fn is_behind_id3(buf: &[u8], text: &[u8]) -> bool
    ensures { IsTrue result ↔ IsAfterId3 text.now buf.now }
{
    if buf.len() < HEADER_SIZE || !stands_at(buf, b"ID3", 0) {
        return false;
    }
    is_synchsafe(buf[SIZE])
        && is_synchsafe(buf[SIZE + 1])
        && is_synchsafe(buf[SIZE + 2])
        && is_synchsafe(buf[SIZE + 3])
        && stands_at(buf, text, HEADER_SIZE + tag_size(buf))
}

fn is_synchsafe(byte: u8) -> bool
    ensures { IsTrue result ↔ IsSynchsafe byte }
{
    usize::from(byte) < RADIX
}

/// How many bytes of the tag follow its header.
fn tag_size(buf: &[u8]) -> usize
    requires { 10 ≤ length buf.now }
    ensures size { result ≡ tag_size buf.now }
    ensures bound { result < 0x40000000 }
{
    let high = RADIX * usize::from(buf[SIZE]) + usize::from(buf[SIZE + 1]);
    RADIX * (RADIX * high + usize::from(buf[SIZE + 2])) + usize::from(buf[SIZE + 3])
}
