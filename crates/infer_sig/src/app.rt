//! Programs and their parts.
ghost use Rattle.std.specs.Prelude.{◌≡◌};
ghost use Rattle.infer_sig.specs.Signature.{accepts};
ghost use Rattle.infer_sig.specs.App.{coff, coff_i386, coff_ia64, coff_x64, der, dex, dey, elf, exe, java, llvm, mach, pem, qcow2, wasm};

// Nothing at a fixed place distinguishes a library from a program.
pub use self::is_exe as is_dll;
use crate::places::matches_at;

/// WebAssembly: at least 8 bytes, 00 "asm" and version 1 as 01 00 00 00 first.
pub fn is_wasm(buf: &[u8]) -> bool
    ensures { result ≡ accepts wasm buf.now }
{
    buf.len() >= 8 && matches_at(buf, b"\x00asm\x01\x00\x00\x00", 0)
}

/// ELF program or library: at least 53 bytes, 7F "ELF" first.
pub fn is_elf(buf: &[u8]) -> bool
    ensures { result ≡ accepts elf buf.now }
{
    buf.len() >= 53 && matches_at(buf, b"\x7FELF", 0)
}

/// Windows program or library: at least 2 bytes, "MZ" first.
pub fn is_exe(buf: &[u8]) -> bool
    ensures { result ≡ accepts exe buf.now }
{
    buf.len() >= 2 && matches_at(buf, b"MZ", 0)
}

/// Java class: at least 8 bytes, CA FE BA BE first, then a version whose lower half, at 6 and 7 with the higher
/// byte first, is at least 45.
///
/// A Mach-O file of several programs has the same first bytes, and a number below 45 after them.
pub fn is_java(buf: &[u8]) -> bool
    ensures { result ≡ accepts java buf.now }
{
    buf.len() >= 8 && matches_at(buf, b"\xCA\xFE\xBA\xBE", 0) && (buf[7] >= 45 || buf[6] >= 1)
}

/// LLVM bitcode: at least 2 bytes, "BC" first.
pub fn is_llvm(buf: &[u8]) -> bool
    ensures { result ≡ accepts llvm buf.now }
{
    buf.len() >= 2 && matches_at(buf, b"BC", 0)
}

/// Mach-O: one program of at least 4 bytes, CF FA ED FE or CE FA ED FE first, or these in the other byte order,
/// or several programs in at least 8 bytes, CA FE BA BE and their number below 45 first.
pub fn is_mach(buf: &[u8]) -> bool
    ensures { result ≡ accepts mach buf.now }
{
    buf.len() >= 4 && matches!(buf[0], 0xCF | 0xCE) && matches_at(buf, b"\xFA\xED\xFE", 1)
        || buf.len() >= 4 && matches_at(buf, b"\xFE\xED\xFA", 0) && matches!(buf[3], 0xCF | 0xCE)
        || buf.len() >= 8 && matches_at(buf, b"\xCA\xFE\xBA\xBE\x00\x00\x00", 0) && buf[7] < 45
}

/// Dalvik program: at least 37 bytes, "dex" 0A first, 70 at 36.
pub fn is_dex(buf: &[u8]) -> bool
    ensures { result ≡ accepts dex buf.now }
{
    buf.len() >= 37 && matches_at(buf, b"dex\n", 0) && buf[36] == 0x70
}

/// Optimized Dalvik program: at least 101 bytes, "dey" 0A first, "dex" 0A at 40, 70 at 76.
pub fn is_dey(buf: &[u8]) -> bool
    ensures { result ≡ accepts dey buf.now }
{
    buf.len() >= 101
        && matches_at(buf, b"dey\n", 0)
        && matches_at(buf, b"dex\n", 40)
        && buf[76] == 0x70
}

/// Certificate in DER: at least 3 bytes, 30 82 first.
pub fn is_der(buf: &[u8]) -> bool
    ensures { result ≡ accepts der buf.now }
{
    buf.len() >= 3 && matches_at(buf, b"\x30\x82", 0)
}

/// COFF object of any of the three machines below: at least 3 bytes, the machine's two bytes first.
pub fn is_coff(buf: &[u8]) -> bool
    ensures { result ≡ accepts coff buf.now }
{
    is_coff_x64(buf) || is_coff_i386(buf) || is_coff_ia64(buf)
}

/// COFF object for x64: at least 3 bytes, 64 86 first.
pub fn is_coff_x64(buf: &[u8]) -> bool
    ensures { result ≡ accepts coff_x64 buf.now }
{
    buf.len() >= 3 && matches_at(buf, b"\x64\x86", 0)
}

/// COFF object for i386: at least 3 bytes, 4C 01 first.
pub fn is_coff_i386(buf: &[u8]) -> bool
    ensures { result ≡ accepts coff_i386 buf.now }
{
    buf.len() >= 3 && matches_at(buf, b"\x4C\x01", 0)
}

/// COFF object for IA-64: at least 3 bytes, 00 02 first.
pub fn is_coff_ia64(buf: &[u8]) -> bool
    ensures { result ≡ accepts coff_ia64 buf.now }
{
    buf.len() >= 3 && matches_at(buf, b"\x00\x02", 0)
}

/// PEM text, such as a certificate or a key: at least 12 bytes, "-----BEGIN " first.
pub fn is_pem(buf: &[u8]) -> bool
    ensures { result ≡ accepts pem buf.now }
{
    buf.len() >= 12 && matches_at(buf, b"-----BEGIN ", 0)
}

/// QEMU's disk image qcow2: at least 5 bytes, "QFI" FB first.
pub fn is_qcow2(buf: &[u8]) -> bool
    ensures { result ≡ accepts qcow2 buf.now }
{
    buf.len() >= 5 && matches_at(buf, b"QFI\xFB", 0)
}
