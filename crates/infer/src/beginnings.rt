//! The ways in which a buffer can begin to which more bytes can bring a row, as the law `arrival` of [`crate::laws`] says.
ghost use Rattle.std.specs.Prelude.{◌≡◌, ◌↔◌, ◌≤◌, IsTrue, MatchOption};
ghost use Rattle.infer.specs.Arrivals.{Begins, last_after};

use crate::table::rows::{AVIF, LZ4, PPT, PPTX, XML};
use infer_deep::doc::has_office_name;
use infer_deep::numbers::be32;
use infer_deep::places::stands_at;

/// A way in which a buffer can begin to which more bytes can bring a row that comes before its own.
#[derive(Clone, Copy)]
pub enum Beginning {
    /// The first box, "ftyp", states a length greater than the buffer's, and its end decides about HEIF and AVIF.
    OpenBox,
    /// A compound file, whose root entry distinguishes Word, Excel and PowerPoint.
    Compound,
    /// A ZIP archive whose first entry has a name of Office, and whose later ones show the kind of document.
    Archive,
    /// A skippable frame, after which Zstandard or LZ4 data can begin.
    Frame,
    /// White space, after which HTML or XML can begin.
    White,
    /// A byte order mark, after which XML can begin.
    Mark,
}

impl Beginning {
    /// The number of the last row that can come after it.
    pub fn last_after(self) -> usize
        ensures { result ≡ last_after self }
    {
        match self {
            Beginning::OpenBox => AVIF,
            Beginning::Compound => PPT,
            Beginning::Archive => PPTX,
            Beginning::Frame => LZ4,
            Beginning::White | Beginning::Mark => XML,
        }
    }

    /// Of the ways in which `buf` begins one after which the fewest rows can come, and `None` if it begins in no such way.
    pub fn of(buf: &[u8]) -> Option<Beginning>
        ensures { MatchOption result ((how : Beginning) → ¬ Begins how buf.now)
            (λ how. Begins how buf.now × ((other : Beginning) → Begins other buf.now
            → last_after how ≤ last_after other)) }
    {
        if is_open_box(buf) {
            Some(Beginning::OpenBox)
        } else if begins_compound(buf) {
            Some(Beginning::Compound)
        } else if begins_office(buf) {
            Some(Beginning::Archive)
        } else if begins_frame(buf) {
            Some(Beginning::Frame)
        } else if begins_white(buf) {
            Some(Beginning::White)
        } else if begins_mark(buf) {
            Some(Beginning::Mark)
        } else {
            None
        }
    }
}

/// Whether the first box, "ftyp", states a length greater than that of `buf`. HEIF and AVIF are decided by its end.
pub fn is_open_box(buf: &[u8]) -> bool
    ensures { IsTrue result ↔ Begins Beginning.OpenBox buf.now }
{
    stands_at(buf, b"ftyp", 4) && be32(buf, 0) as usize > buf.len()
}

/// Whether `buf` begins as a compound file, whose root entry distinguishes Word, Excel and PowerPoint.
pub fn begins_compound(buf: &[u8]) -> bool
    ensures { IsTrue result ↔ Begins Beginning.Compound buf.now }
{
    stands_at(buf, b"\xD0\xCF\x11\xE0\xA1\xB1\x1A\xE1", 0)
}

/// Whether `buf` begins as a ZIP archive whose first entry has a name of Office. Later entries show the kind of document.
pub fn begins_office(buf: &[u8]) -> bool
    ensures { IsTrue result ↔ Begins Beginning.Archive buf.now }
{
    stands_at(buf, b"PK\x03\x04", 0) && has_office_name(buf)
}

/// Whether `buf` begins with the head of a skippable frame, after which Zstandard or LZ4 data can begin.
pub fn begins_frame(buf: &[u8]) -> bool
    ensures { IsTrue result ↔ Begins Beginning.Frame buf.now }
{
    stands_at(buf, b"\x2A\x4D\x18", 1) && (0x50..=0x5F).contains(&buf[0])
}

/// Whether `buf` begins with white space, after which HTML or XML can begin.
pub fn begins_white(buf: &[u8]) -> bool
    ensures { IsTrue result ↔ Begins Beginning.White buf.now }
{
    matches!(buf.first(), Some(b'\t' | b'\n' | 0x0C | b'\r' | b' '))
}

/// Whether `buf` begins with a byte order mark, after which XML can begin.
pub fn begins_mark(buf: &[u8]) -> bool
    ensures { IsTrue result ↔ Begins Beginning.Mark buf.now }
{
    stands_at(buf, b"\xEF\xBB\xBF", 0)
        || stands_at(buf, b"\xFE\xFF", 0)
        || stands_at(buf, b"\xFF\xFE", 0)
}
