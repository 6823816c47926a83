//! Numbers in the bytes of a buffer, in either order.
#![tactic(auto, unfolding(crate::specs::Numbers::be16))]

ghost use Rattle.std.specs.Prelude.{◌≡◌, ◌+◌, ◌≤◌, length, slice_index_or};
ghost use Rattle.infer_formats.specs.Numbers.{be16, bytes16, number16, number32, number64};

use infer_deep::numbers::{be32, le16, le32};

/// The number in the two bytes from `place` on, the highest first.
pub fn be16(buf: &[u8], place: usize) -> u16
    requires { place + 2 ≤ length buf.now }
    ensures { result ≡ be16 buf.now place }
{
    u16::from_be_bytes([buf[place], buf[place + 1]])
}

/// The number in the two bytes from `place` on.
pub fn number16(buf: &[u8], place: usize, big: bool) -> u16
    requires { place + 2 ≤ length buf.now }
    ensures { result ≡ number16 big buf.now place }
{
    if big {
        be16(buf, place)
    } else {
        le16(buf, place)
    }
}

/// The number in the four bytes from `place` on.
pub fn number32(buf: &[u8], place: usize, big: bool) -> u32
    requires { place + 4 ≤ length buf.now }
    ensures { result ≡ number32 big buf.now place }
{
    if big {
        be32(buf, place)
    } else {
        le32(buf, place)
    }
}

/// The number in the eight bytes from `place` on.
pub fn number64(buf: &[u8], place: usize, big: bool) -> u64
    requires { place + 8 ≤ length buf.now }
    ensures { result ≡ number64 big buf.now place }
{
    if big {
        0x1_0000_0000 * u64::from(be32(buf, place)) + u64::from(be32(buf, place + 4))
    } else {
        u64::from(le32(buf, place)) + 0x1_0000_0000 * u64::from(le32(buf, place + 4))
    }
}

/// The byte at `place`, or the other one where `buf` ends before it.
pub(crate) fn byte_or(buf: &[u8], place: usize, other: u8) -> u8
    ensures { result ≡ slice_index_or buf.now place other }
{
    if place < buf.len() { buf[place] } else { other }
}

/// The two bytes of a number, the highest first if `big`, and else the lowest.
pub(crate) fn bytes16(number: u16, big: bool) -> [u8; 2]
    ensures { result ≡ bytes16 big number }
{
    let (high, low) = ((number / 256) as u8, (number % 256) as u8);
    if big { [high, low] } else { [low, high] }
}
