//! What more bytes may make the program of a script.
ghost use Rattle.std.specs.Prelude.{◌≡◌, ◌↔◌, IsTrue};
ghost use Rattle.infer_deep.specs.Signatures.{MayBecome};
ghost use Rattle.infer_formats.specs.Script.{IsProgram};

use super::{bare_name, program_word};
use infer_deep::places::may_stand_at;

/// Whether some bytes after `buf`, or none, may make it a script of the program with this name: it begins as a script, as far
/// as it goes, and names that program or none.
#[tactic(auto, using(crate::proofs::ScriptLemmas::begun_so))]
pub fn may_become_program(buf: &[u8], name: &[u8]) -> bool
    ensures { MayBecome (IsProgram name.now) buf.now → IsTrue result }
{
    if !may_stand_at(buf, b"#!", 0) {
        return false;
    }
    if buf.len() < 2 {
        return true;
    }
    match program_word(buf) {
        Some(word) => is_same(bare_name(buf, word), name),
        None => true,
    }
}

pub(super) fn is_same(name: &[u8], other: &[u8]) -> bool
    ensures { IsTrue result ↔ (name.now ≡ other.now) }
{
    name == other
}
