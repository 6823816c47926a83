//! Numbers in the bytes of a buffer.
#![tactic(auto, unfolding(crate::specs::Numbers::be32, crate::specs::Numbers::le16, crate::specs::Numbers::le32))]

ghost use Rattle.std.specs.Prelude.{◌≡◌, ◌+◌, ◌≤◌, length};
ghost use Rattle.infer_deep.specs.Numbers.{be32, le16, le32};

/// The number in the two bytes from `place` on, the lowest first.
pub fn le16(buf: &[u8], place: usize) -> u16
    requires { place + 2 ≤ length buf.now }
    ensures { result ≡ le16 buf.now place }
{
    u16::from_le_bytes([buf[place], buf[place + 1]])
}

/// The number in the four bytes from `place` on, the lowest first.
pub fn le32(buf: &[u8], place: usize) -> u32
    requires { place + 4 ≤ length buf.now }
    ensures { result ≡ le32 buf.now place }
{
    u32::from_le_bytes([buf[place], buf[place + 1], buf[place + 2], buf[place + 3]])
}

/// The number in the four bytes from `place` on, the highest first.
pub fn be32(buf: &[u8], place: usize) -> u32
    requires { place + 4 ≤ length buf.now }
    ensures { result ≡ be32 buf.now place }
{
    u32::from_be_bytes([buf[place], buf[place + 1], buf[place + 2], buf[place + 3]])
}
