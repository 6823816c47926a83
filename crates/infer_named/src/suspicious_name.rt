//! What is odd about a name.
ghost use Rattle.std.specs.Prelude.{◌≡◌, ◌↔◌, ◌<◌, IsTrue, is_some, length, map};
ghost use Rattle.std.specs.Char.{encode_utf8};
ghost use Rattle.std.specs.List.{list_any};
ghost use Rattle.memchr.specs.Find.{IsLastByte, Passes, is_byte};
ghost use Rattle.infer_named.specs.Listed.{texts};
ghost use Rattle.infer_named.specs.Names.{entry};
ghost use Rattle.infer_named.specs.Odd.{AreOddities, HasEarlier, HasMark, HasTwoExtensions, begins_with_mark, direction_marks, ends_oddly, is_control};
ghost use Rattle.infer_named.specs.Table.{keys};
ghost use Rattle.infer_named.specs.declared.table.Part.TheVariants.{Extension};

use crate::join::begins_with;
use crate::names::{base, entry, extension_at, last_dot};
use crate::table::Part;
use memchr::memchr2;

/// What is odd about a name. None of it changes what the name and the bytes say.
#[derive(Clone, Copy, Debug, PartialEq, Eq)]
pub struct Oddities {
    /// It has a control character of ASCII: a byte below 20, or 7F.
    pub has_control: bool,
    /// It has a mark of the direction of writing in UTF-8, by which `\u{202E}gnp.exe` is shown as `exe.png`.
    pub has_direction_mark: bool,
    /// Its base ends in a dot or a blank, which Windows leaves out.
    pub ends_oddly: bool,
    /// The last part of its base and an earlier one are extensions, and the last two are not one together, as in
    /// `shell.php.jpg`. Honest names have that too, as `initial.json.gz`.
    pub has_two_extensions: bool,
}

/// What is odd about the name. None of it changes what the name and the bytes say: it is for those who keep a file under
/// its name, or show it.
pub fn oddities_of(name: &[u8]) -> Oddities
    ensures { AreOddities keys name.now result }
{
    let base = base(name);
    Oddities {
        has_control: has_control(name),
        has_direction_mark: has_direction_mark(name),
        ends_oddly: ends_oddly(base),
        has_two_extensions: has_two_extensions(base),
    }
}

fn has_control(name: &[u8]) -> bool
    ensures { result ≡ list_any is_control name.now }
{
    for byte in name {
        if is_control(*byte) {
            return true;
        }
    }
    false
}

fn is_control(byte: u8) -> bool
    ensures { result ≡ is_control byte }
{
    byte < 0x20 || byte == 0x7F
}

fn has_direction_mark(name: &[u8]) -> bool
    ensures { IsTrue result ↔ HasMark name.now }
{
    let mut from = 0;
    while let Some(step) = memchr2(0xD8, 0xE2, &name[from..]) {
        if begins_with_mark(&name[from + step..]) {
            return true;
        }
        from += step + 1;
    }
    false
}

/// Whether a mark of the direction of writing stands at the front.
#[tactic(auto, unfolding(crate::specs::Odd::begins_with_mark))]
fn begins_with_mark(text: &[u8]) -> bool
    ensures { result ≡ begins_with_mark text.now }
{
    begins_with(text, direction_marks())
}

/// The marks of the direction of writing in UTF-8.
fn direction_marks() -> &'static [&'static [u8]]
    ensures { texts result.now ≡ map encode_utf8 direction_marks }
{
    DIRECTION_MARKS
}

static DIRECTION_MARKS: &[&[u8]] = &[
    b"\xD8\x9C",
    b"\xE2\x80\x8E",
    b"\xE2\x80\x8F",
    b"\xE2\x80\xAA",
    b"\xE2\x80\xAB",
    b"\xE2\x80\xAC",
    b"\xE2\x80\xAD",
    b"\xE2\x80\xAE",
    b"\xE2\x81\xA6",
    b"\xE2\x81\xA7",
    b"\xE2\x81\xA8",
    b"\xE2\x81\xA9",
];

/// Whether the base ends in a dot or a blank.
fn ends_oddly(base: &[u8]) -> bool
    ensures { result ≡ ends_oddly base.now }
{
    if base.is_empty() {
        return false;
    }
    let last = base[base.len() - 1];
    last == b'.' || last == b' '
}

/// Whether the last part of the base and an earlier one are extensions, and the last two are not one together.
fn has_two_extensions(base: &[u8]) -> bool
    ensures { IsTrue result ↔ HasTwoExtensions keys base.now }
{
    let Some(last) = last_dot(base, base.len()) else {
        return false;
    };
    extension_at(base, Some(last)).is_some()
        && extension_at(base, last_dot(base, last)).is_none()
        && has_earlier(base, last)
}

/// Whether a part before the dot at `last` is an extension.
fn has_earlier(base: &[u8], last: usize) -> bool
    requires inside { last < length base.now }
    requires dot { Passes (is_byte 0x2E) base.now last }
    ensures { IsTrue result ↔ HasEarlier keys base.now last }
{
    let mut end = last;
    while let Some(start) = last_dot(base, end) {
        if is_extension(&base[start + 1..end]) {
            return true;
        }
        end = start;
    }
    false
}

fn is_extension(text: &[u8]) -> bool
    ensures { result ≡ is_some (entry keys Extension text.now) }
{
    entry(Part::Extension, text).is_some()
}
