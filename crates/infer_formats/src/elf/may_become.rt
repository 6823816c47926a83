//! What more bytes may make a shared object.
ghost use Rattle.std.specs.Prelude.{◌≡◌, ◌↔◌, ◌≤◌, IsTrue};
ghost use Rattle.infer_formats.specs.Elf.{IsSharedObject, MayBeSharedObject, MayHaveOwnTable, NoneKnownAsks, size_at};
ghost use Rattle.infer_deep.specs.Signatures.{MayBecome};

use super::{
    E_PHENTSIZE_32, E_PHENTSIZE_64, E_TYPE, EI_CLASS, EI_DATA, ELFCLASS32, ELFCLASS64, ELFDATA2LSB,
    ELFDATA2MSB, ET_DYN, PT_INTERP, counted_length, entry_count, known_size, table_place,
};
use crate::numbers::{bytes16, number32};
use infer_deep::places::may_stand_at;

/// Whether some bytes after `buf`, or none, may make it a shared object.
pub fn may_become_shared_object(buf: &[u8]) -> bool
    ensures { MayBecome IsSharedObject buf.now → IsTrue result }
{
    may_be_shared_object(buf)
}

fn may_be_shared_object(buf: &[u8]) -> bool
    ensures { IsTrue result ↔ MayBeSharedObject buf.now }
{
    if buf.len() <= EI_DATA {
        return true;
    }
    match (buf[EI_CLASS], buf[EI_DATA]) {
        (ELFCLASS32, ELFDATA2LSB) => may_have_own_table(buf, false, false),
        (ELFCLASS32, ELFDATA2MSB) => may_have_own_table(buf, false, true),
        (ELFCLASS64, ELFDATA2LSB) => may_have_own_table(buf, true, false),
        (ELFCLASS64, ELFDATA2MSB) => may_have_own_table(buf, true, true),
        _ => false,
    }
}

fn may_have_own_table(buf: &[u8], wide: bool, big: bool) -> bool
    ensures { IsTrue result ↔ MayHaveOwnTable wide big buf.now }
{
    let size = known_size(wide);
    if !may_stand_at(buf, &bytes16(ET_DYN, big), E_TYPE)
        || !may_stand_at(buf, &bytes16(size as u16, big), size_at(wide))
    {
        return false;
    }
    if buf.len() < counted_length(wide) {
        return true;
    }
    let count = entry_count(buf, wide, big);
    count >= 1 && none_known_asks(buf, table_place(buf, wide, big), count, size, big)
}

/// Whether none of the entries whose kind `buf` has asks for an interpreter.
fn none_known_asks(buf: &[u8], start: usize, count: usize, size: usize, big: bool) -> bool
    requires large { 32 ≤ size }
    requires small { size ≤ 56 }
    ensures { IsTrue result ↔ NoneKnownAsks big buf.now start count size }
{
    if buf.len() < 4 || buf.len() - 4 < start {
        return true;
    }
    let known = count.min((buf.len() - 4 - start) / size + 1);
    for i in 0..known {
        if number32(buf, start + i * size, big) == PT_INTERP {
            return false;
        }
    }
    true
}

fn size_at(wide: bool) -> usize
    ensures is { result ≡ size_at wide }
    ensures small { result ≤ 54 }
{
    if wide { E_PHENTSIZE_64 } else { E_PHENTSIZE_32 }
}
