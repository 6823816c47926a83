//! What more bytes may give a header its checksum.
ghost use Rattle.std.specs.Prelude.{◌↔◌, ◌≤◌, length, IsTrue};
ghost use Rattle.infer_deep.specs.Signatures.{MayBecome};
ghost use Rattle.infer_formats.specs.Tar.{HasField, HasTarChecksum};

use super::{CHECKSUM_END, HEADER_SIZE, digit_count, has_tar_checksum, is_field, spaces_end};

/// Whether some bytes after `buf`, or none, may make it begin with a header whose checksum is the sum of its bytes.
#[tactic(auto, using(crate::proofs::TarLemmas::whole_before, crate::proofs::TarLemmas::zero_never, crate::proofs::TarLemmas::field_before))]
pub fn may_have_tar_checksum(buf: &[u8]) -> bool
    ensures { MayBecome HasTarChecksum buf.now → IsTrue result }
{
    if buf.len() >= HEADER_SIZE {
        return has_tar_checksum(buf);
    }
    if !buf.is_empty() && buf[0] == 0 {
        return false;
    }
    // Which sums the bytes that the header lacks can make is not asked.
    buf.len() < CHECKSUM_END || has_field(buf)
}

/// Whether a whole checksum stands there, of any value.
#[tactic(auto, using(crate::proofs::TarLemmas::located))]
fn has_field(buf: &[u8]) -> bool
    requires { 156 ≤ length buf.now }
    ensures { IsTrue result ↔ HasField buf.now }
{
    let place = spaces_end(buf, CHECKSUM_END);
    is_field(buf, place, digit_count(buf, place, CHECKSUM_END))
}
