//! What follows a byte in a part of a buffer.
ghost use Rattle.std.specs.Prelude.{◌≤◌, length};
ghost use Rattle.infer_formats.specs.Runs.{IsAfterLast};

/// Where what follows the last such byte between two places begins: at the first of them if there is none.
pub(crate) fn after_last(byte: u8, buf: &[u8], from: usize, to: usize) -> usize
    requires order { from ≤ to }
    requires within { to ≤ length buf.now }
    ensures { IsAfterLast byte buf.now from to result }
{
    // Byte by byte, since a name is short: a search costs more than it takes to go over most of them.
    let mut at = to;
    while at > from && buf[at - 1] != byte {
        at -= 1;
    }
    at
}
