//! ELF files, by their program headers: System V Application Binary Interface, Object Files, the ELF header and the
//! program header.
ghost use Rattle.std.specs.Prelude.{◌≡◌, ◌↔◌, ◌+◌, ◌*◌, ◌<◌, ◌≤◌, ℕ, length, IsTrue};
ghost use Rattle.infer_formats.specs.Elf.{AsksAt, HasOwnTable, IsSharedObject, counted_length, entry_count, entry_size, known_size, table_place};

mod may_become;

use crate::numbers::{number16, number32, number64};
pub use may_become::may_become_shared_object;

/// Of e_ident, the class: of 32 bits or of 64.
const EI_CLASS: usize = 4;
/// Of e_ident, the order of bytes.
const EI_DATA: usize = 5;
/// The class of 32 bits.
const ELFCLASS32: u8 = 1;
/// The class of 64 bits.
const ELFCLASS64: u8 = 2;
/// The lowest byte comes first.
const ELFDATA2LSB: u8 = 1;
/// The highest does.
const ELFDATA2MSB: u8 = 2;
/// e_type: what the file is.
const E_TYPE: usize = 16;
/// A shared object.
const ET_DYN: u16 = 3;
/// e_phoff: where the table of program headers begins, of 32 bits.
const E_PHOFF_32: usize = 28;
/// The same of 64 bits.
const E_PHOFF_64: usize = 32;
/// e_phentsize: the size of a program header.
const E_PHENTSIZE_32: usize = 42;
/// The same of 64 bits.
const E_PHENTSIZE_64: usize = 54;
/// e_phnum: how many program headers there are.
const E_PHNUM_32: usize = 44;
/// The same of 64 bits.
const E_PHNUM_64: usize = 56;
/// The size of Elf32_Phdr.
const PHDR_SIZE_32: usize = 32;
/// The size of Elf64_Phdr.
const PHDR_SIZE_64: usize = 56;
/// p_type, the first field of a program header, where it asks for an interpreter.
const PT_INTERP: u32 = 3;

/// A shared object: of its program headers, which lie in the buffer, none asks for an interpreter.
#[inline(never)]
pub fn is_shared_object(buf: &[u8]) -> bool
    ensures { IsTrue result ↔ IsSharedObject buf.now }
{
    if buf.len() < E_PHNUM_32 + 2 {
        return false;
    }
    match (buf[EI_CLASS], buf[EI_DATA]) {
        (ELFCLASS32, ELFDATA2LSB) => has_own_table(buf, false, false),
        (ELFCLASS32, ELFDATA2MSB) => has_own_table(buf, false, true),
        (ELFCLASS64, ELFDATA2LSB) => has_own_table(buf, true, false),
        (ELFCLASS64, ELFDATA2MSB) => has_own_table(buf, true, true),
        _ => false,
    }
}

fn has_own_table(buf: &[u8], wide: bool, big: bool) -> bool
    ensures { IsTrue result ↔ HasOwnTable wide big buf.now }
{
    if buf.len() < counted_length(wide) {
        return false;
    }
    let size = known_size(wide);
    let count = entry_count(buf, wide, big);
    if number16(buf, E_TYPE, big) != ET_DYN || entry_size(buf, wide, big) != size || count == 0 {
        return false;
    }
    let start = table_place(buf, wide, big);
    if start > buf.len() || count * size > buf.len() - start {
        return false;
    }
    none_asks(buf, start, count, size, big)
}

/// Whether none of the entries asks for an interpreter.
fn none_asks(buf: &[u8], start: usize, count: usize, size: usize, big: bool) -> bool
    requires large { 32 ≤ size }
    requires fits { start + count * size ≤ length buf.now }
    ensures { IsTrue result ↔ ((i : ℕ) → i < count → ¬ AsksAt big buf.now (start + i * size)) }
{
    for i in 0..count {
        if number32(buf, start + i * size, big) == PT_INTERP {
            return false;
        }
    }
    true
}

fn counted_length(wide: bool) -> usize
    ensures { result ≡ counted_length wide }
{
    if wide { E_PHNUM_64 + 2 } else { E_PHNUM_32 + 2 }
}

fn known_size(wide: bool) -> usize
    ensures is { result ≡ known_size wide }
    ensures large { 32 ≤ result }
    ensures small { result ≤ 56 }
{
    if wide { PHDR_SIZE_64 } else { PHDR_SIZE_32 }
}

fn table_place(buf: &[u8], wide: bool, big: bool) -> usize
    requires { counted_length wide ≤ length buf.now }
    ensures { result ≡ table_place wide big buf.now }
{
    if wide {
        number64(buf, E_PHOFF_64, big) as usize
    } else {
        number32(buf, E_PHOFF_32, big) as usize
    }
}

fn entry_size(buf: &[u8], wide: bool, big: bool) -> usize
    requires { counted_length wide ≤ length buf.now }
    ensures { result ≡ entry_size wide big buf.now }
{
    number16(buf, if wide { E_PHENTSIZE_64 } else { E_PHENTSIZE_32 }, big) as usize
}

fn entry_count(buf: &[u8], wide: bool, big: bool) -> usize
    requires { counted_length wide ≤ length buf.now }
    ensures is { result ≡ entry_count wide big buf.now }
    ensures small { result ≤ 65535 }
{
    number16(buf, if wide { E_PHNUM_64 } else { E_PHNUM_32 }, big) as usize
}
