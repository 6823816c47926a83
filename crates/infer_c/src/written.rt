//! Bytes that are written to a caller's buffer.
ghost use Rattle.std.specs.Prelude.{◌≡◌, length};
ghost use Rattle.infer_c.specs.Written.{WritesText, WritesWhole};

/// The length of the text. As much of it as there is room for is written to the front of `out`, and a zero after that.
pub fn write_text(text: &str, out: &mut [u8]) -> usize
    ensures length { result ≡ length text.now }
    ensures written { WritesText text.now out.old out.new }
{
    write_bytes(text.as_bytes(), out)
}

/// The same of bytes.
pub fn write_bytes(bytes: &[u8], out: &mut [u8]) -> usize
    ensures length { result ≡ length bytes.now }
    ensures written { WritesText bytes.now out.old out.new }
{
    if !out.is_empty() {
        let count = bytes.len().min(out.len() - 1);
        out[..count].copy_from_slice(&bytes[..count]);
        out[count] = 0;
    }
    bytes.len()
}

/// The number of the bytes, which are written to the front of `out` if they fit.
pub fn write_whole(bytes: &[u8], out: &mut [u8]) -> usize
    ensures length { result ≡ length bytes.now }
    ensures written { WritesWhole bytes.now out.old out.new }
{
    if bytes.len() <= out.len() {
        out[..bytes.len()].copy_from_slice(bytes);
    }
    bytes.len()
}
