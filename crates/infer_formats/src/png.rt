//! PNG images, by their chunks: PNG Specification, third edition (W3C), sections 5.2 and 5.3.
ghost use Rattle.std.specs.Prelude.{◌↔◌, IsTrue};
ghost use Rattle.infer_formats.specs.Open.{DecidesMayBecome};
ghost use Rattle.infer_formats.specs.Png.{IsAnimated};

mod may_become;

use infer_deep::numbers::be32;
use infer_deep::places::stands_at;
pub use may_become::may_become_animated;

/// Behind the signature the first chunk begins.
const SIGNATURE_SIZE: usize = 8;
/// The type of a chunk stands after its length.
const CHUNK_TYPE: usize = 4;
/// What a chunk has beside its data: its length, its type and a checksum.
const CHUNK_FRAME: usize = 12;

/// An animated image: from the chunk at 8 on, one has the type "acTL", and none before it has the type "IDAT".
pub fn is_animated(buf: &[u8]) -> bool
    ensures { IsTrue result ↔ IsAnimated buf.now }
{
    animation(buf) == Some(true)
}

/// Whether the chunks are those of an animated image, and none if they go on past the end of `buf`.
fn animation(buf: &[u8]) -> Option<bool>
    ensures { DecidesMayBecome IsAnimated buf.now result }
{
    let mut chunk = SIGNATURE_SIZE;
    while chunk < buf.len() && buf.len() - chunk >= CHUNK_TYPE + 4 {
        if stands_at(buf, b"acTL", chunk + CHUNK_TYPE) {
            return Some(true);
        }
        if stands_at(buf, b"IDAT", chunk + CHUNK_TYPE) {
            return Some(false);
        }
        let length = be32(buf, chunk) as usize;
        if length > buf.len() {
            return None;
        }
        chunk += CHUNK_FRAME + length;
    }
    None
}
