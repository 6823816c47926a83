//! TIFF files, by the tags of their first directory: TIFF 6.0, sections 2 and 8.
ghost use Rattle.std.specs.Prelude.{◌≡◌, ◌↔◌, ◌⊎◌, ◌+◌, ◌-◌, ◌/◌, ◌≤◌, ℕ, IsTrue, MatchOption, length, min};
ghost use Rattle.memchr.specs.Find.{OccursAt};
ghost use Rattle.infer_formats.specs.Numbers.{number16, number32};
ghost use Rattle.infer_formats.specs.Tiff.{HasTag, HasTagAndMake, IsEntry, IsMakeEntry, IsTagEntry, make_tag};

mod may_become;

use crate::numbers::{number16, number32};
use infer_deep::places::stands_at;
pub use may_become::{first_directory_may_have_tag, first_directory_may_have_tag_and_make};

/// Where the header says at what place the first directory begins.
const DIRECTORY: usize = 4;
/// The size of the count of its entries.
const COUNT_SIZE: usize = 2;
/// The size of an entry, which begins with its tag.
const ENTRY_SIZE: usize = 12;

/// The tag of the text that says who made the camera, and where its entry says at what place that stands.
const MAKE: u16 = 0x010F;

const VALUE: usize = 8;

/// Where a directory begins, and how many entries of it a buffer has.
#[derive(Clone, Copy)]
struct Directory {
    start: usize,
    count: usize,
}

/// The first directory of a TIFF file has an entry with this tag.
#[inline(never)]
pub fn first_directory_has_tag(buf: &[u8], tag: u16) -> bool
    ensures { IsTrue result ↔ HasTag tag buf.now }
{
    if stands_at(buf, b"II\x2A\x00", 0) {
        return directory_has_tag(buf, tag, false);
    }
    stands_at(buf, b"MM\x00\x2A", 0) && directory_has_tag(buf, tag, true)
}

/// It has one with either of two tags, which takes one look at each entry. The compiler knows the tags where it is called.
#[inline(always)]
pub fn first_directory_has_either(buf: &[u8], tag: u16, other: u16) -> bool
    ensures { IsTrue result ↔ (HasTag tag buf.now ⊎ HasTag other buf.now) }
{
    if stands_at(buf, b"II\x2A\x00", 0) {
        return directory_has_either(buf, tag, other, false);
    }
    stands_at(buf, b"MM\x00\x2A", 0) && directory_has_either(buf, tag, other, true)
}

/// And the make of the camera begins so.
#[inline(never)]
pub fn first_directory_has_tag_and_make(buf: &[u8], tag: u16, make: &[u8]) -> bool
    ensures { IsTrue result ↔ HasTagAndMake tag make.now buf.now }
{
    if stands_at(buf, b"II\x2A\x00", 0) {
        return directory_has_tag(buf, tag, false) && directory_has_make(buf, make, false);
    }
    stands_at(buf, b"MM\x00\x2A", 0)
        && directory_has_tag(buf, tag, true)
        && directory_has_make(buf, make, true)
}

fn directory_has_tag(buf: &[u8], tag: u16, big: bool) -> bool
    ensures { IsTrue result ↔ ((i : ℕ) × IsTagEntry big tag buf.now (number32 big buf.now 4) i) }
{
    let Some(directory) = first_directory(buf, big) else {
        return false;
    };
    for i in 0..directory.count {
        if number16(buf, directory.start + COUNT_SIZE + ENTRY_SIZE * i, big) == tag {
            return true;
        }
    }
    false
}

#[inline(always)]
fn directory_has_either(buf: &[u8], tag: u16, other: u16, big: bool) -> bool
    ensures { IsTrue result
        ↔ (((i : ℕ) × IsTagEntry big tag buf.now (number32 big buf.now 4) i)
        ⊎ ((i : ℕ) × IsTagEntry big other buf.now (number32 big buf.now 4) i)) }
{
    let Some(directory) = first_directory(buf, big) else {
        return false;
    };
    // The bits that both tags have alike rule out most entries by one test.
    let alike = !(tag ^ other);
    if tag & alike != other & alike {
        return directory_has_tag(buf, tag, big) || directory_has_tag(buf, other, big);
    }
    for i in 0..directory.count {
        let own = number16(buf, directory.start + COUNT_SIZE + ENTRY_SIZE * i, big);
        if own & alike == tag & alike && (own == tag || own == other) {
            return true;
        }
    }
    false
}

fn directory_has_make(buf: &[u8], make: &[u8], big: bool) -> bool
    ensures { IsTrue result
        ↔ ((i : ℕ) × IsMakeEntry big make.now buf.now (number32 big buf.now 4) i) }
{
    let Some(directory) = first_directory(buf, big) else {
        return false;
    };
    for i in 0..directory.count {
        if says_make(
            buf,
            make,
            directory.start + COUNT_SIZE + ENTRY_SIZE * i,
            big,
        ) {
            return true;
        }
    }
    false
}

/// Whether the entry there says who made the camera, and that begins so.
fn says_make(buf: &[u8], make: &[u8], entry: usize, big: bool) -> bool
    requires { entry + 12 ≤ length buf.now }
    ensures { IsTrue result ↔ (number16 big buf.now entry ≡ make_tag)
        × OccursAt buf.now make.now (number32 big buf.now (entry + 8)) }
{
    number16(buf, entry, big) == MAKE
        && stands_at(buf, make, number32(buf, entry + VALUE, big) as usize)
}

/// Where the first directory begins, and how many of its entries the buffer has, if any.
fn first_directory(buf: &[u8], big: bool) -> Option<Directory>
    ensures { MatchOption result ((i : ℕ) → ¬ IsEntry big buf.now (number32 big buf.now 4) i)
        (λ d. (d.start ≡ number32 big buf.now 4) × (d.start + 14 ≤ length buf.now)
        × (d.count ≡ min (number16 big buf.now d.start) ((length buf.now - d.start - 2) / 12))) }
{
    if buf.len() < COUNT_SIZE + ENTRY_SIZE {
        return None;
    }
    let start = number32(buf, DIRECTORY, big) as usize;
    if start > buf.len() - COUNT_SIZE - ENTRY_SIZE {
        return None;
    }
    let count = (number16(buf, start, big) as usize).min(
        (buf.len() - start - COUNT_SIZE) / ENTRY_SIZE,
    );
    Some(Directory { start, count })
}
