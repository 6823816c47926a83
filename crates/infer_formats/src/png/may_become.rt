//! What more bytes may bring to the chunks of a PNG image.
ghost use Rattle.std.specs.Prelude.{IsTrue};
ghost use Rattle.infer_deep.specs.Signatures.{MayBecome};
ghost use Rattle.infer_formats.specs.Png.{IsAnimated};

use super::animation;

/// Whether some bytes after `buf`, or none, may make it an animated image.
pub fn may_become_animated(buf: &[u8]) -> bool
    ensures { MayBecome IsAnimated buf.now → IsTrue result }
{
    animation(buf) != Some(false)
}
