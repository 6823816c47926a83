//! What more bytes may make the header of a dBASE table.
ghost use Rattle.std.specs.Prelude.{◌↔◌, IsTrue};
ghost use Rattle.infer_formats.specs.Dbase.{IsDbase, MayBeDated, MayBeDbase, MayHaveField};
ghost use Rattle.infer_deep.specs.Signatures.{MayBecome};

use super::{
    DAY, DBASE_3, FIELD, FIELD_TYPE, LAST_DAY, LAST_MONTH, MONTH, RECORD_LENGTH, RESERVED, VERSION,
    begins_name, is_kind, is_version, is_within,
};
use crate::numbers::byte_or;
use infer_deep::numbers::le16;

/// Whether some bytes after `buf`, or none, may make it the header of a dBASE table.
#[tactic(auto, using(crate::proofs::DbaseLemmas::dbase_known))]
pub fn may_become_dbase(buf: &[u8]) -> bool
    ensures { MayBecome IsDbase buf.now → IsTrue result }
{
    may_be_dbase(buf)
}

/// Whether what `buf` has of the header is one of a dBASE table. Where the fields end is not asked.
fn may_be_dbase(buf: &[u8]) -> bool
    ensures { IsTrue result ↔ MayBeDbase buf.now }
{
    if buf.len() >= RECORD_LENGTH + 2 && le16(buf, RECORD_LENGTH) < 2 {
        return false;
    }
    may_be_dated(buf) && may_have_field(buf)
}

fn may_be_dated(buf: &[u8]) -> bool
    ensures { IsTrue result ↔ MayBeDated buf.now }
{
    is_version(byte_or(buf, VERSION, DBASE_3))
        && is_within(byte_or(buf, MONTH, 1), LAST_MONTH)
        && is_within(byte_or(buf, DAY, 1), LAST_DAY)
        && byte_or(buf, RESERVED, 0) == 0
        && byte_or(buf, RESERVED + 1, 0) == 0
}

fn may_have_field(buf: &[u8]) -> bool
    ensures { IsTrue result ↔ MayHaveField buf.now }
{
    begins_name(byte_or(buf, FIELD, b'A')) && is_kind(byte_or(buf, FIELD_TYPE, b'C'))
}
