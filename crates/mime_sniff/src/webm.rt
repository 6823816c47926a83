//! WebM files, by the name of their kind.
ghost use Rattle.std.specs.Prelude.{◌≡◌, ◌↔◌, ◌+◌, ◌≤◌, ◌<◌, IsTrue, codes, length};
ghost use Rattle.memchr.specs.Find.{OccursAt};
ghost use Rattle.mime_sniff.specs.Webm.{HoldsFrom, Holds, IsWebm, NamesWebm, begins_name, content, next_place, size_width};

use infer_deep::places::stands_at;

/// The place before which the name has to begin.
const NAME_BEFORE: usize = 38;

/// WebM: the mark of EBML, and near it the name of the kind.
pub(crate) fn is_webm(buf: &[u8]) -> bool
    ensures { IsTrue result ↔ IsWebm buf.now }
{
    stands_at(buf, b"\x1AE\xDF\xA3", 0) && holds_from(buf, 4)
}

/// Whether a place that is looked at from there on names WebM.
fn holds_from(buf: &[u8], first: usize) -> bool
    requires { first ≤ 4 }
    ensures { IsTrue result ↔ HoldsFrom buf.now first }
{
    let mut place = first;
    while place < NAME_BEFORE {
        if holds(buf, place) {
            return true;
        }
        place = next_place(buf, place);
    }
    false
}

/// Whether the element at the place names WebM.
fn holds(buf: &[u8], place: usize) -> bool
    requires { place < 38 }
    ensures { IsTrue result ↔ Holds buf.now place }
{
    begins_name(buf, place) && names_webm(buf, content(buf, place))
}

fn begins_name(buf: &[u8], place: usize) -> bool
    requires { place < 38 }
    ensures { result ≡ begins_name buf.now place }
{
    place + 2 < buf.len() && buf[place] == 0x42 && buf[place + 1] == 0x82
}

/// Where the content of the element begins.
fn content(buf: &[u8], place: usize) -> usize
    requires { place + 2 < length buf.now }
    ensures value { result ≡ content buf.now place }
    ensures near { result ≤ place + 10 }
{
    place + 2 + size_width(buf[place + 2])
}

/// How many bytes state a size.
fn size_width(byte: u8) -> usize
    ensures value { result ≡ size_width byte }
    ensures few { result ≤ 8 }
{
    (byte.leading_zeros() as usize + 1).min(8)
}

fn next_place(buf: &[u8], place: usize) -> usize
    requires { place < 38 }
    ensures value { result ≡ next_place buf.now place }
    ensures later { place < result }
{
    if begins_name(buf, place) {
        return content(buf, place) + 1;
    }
    place + 1
}

/// Whether bytes 00, perhaps none, and then "webm" stand there, and something after them.
fn names_webm(buf: &[u8], place: usize) -> bool
    ensures { IsTrue result ↔ NamesWebm buf.now place }
{
    for at in place..buf.len() {
        if buf[at] != 0 {
            return is_named_at(buf, at);
        }
    }
    false
}

fn is_named_at(buf: &[u8], place: usize) -> bool
    ensures { IsTrue result ↔ (OccursAt buf.now (codes "webm") place × (place + 4 < length buf.now)) }
{
    stands_at(buf, b"webm", place) && buf.len() - place > 4
}
