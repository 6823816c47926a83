//! The key of a name.
ghost use Rattle.std.specs.Prelude.{◌≡◌, ◌<◌, ◌≤◌, IfSome, IsTrue, None, codes, false, if◌then◌else◌, length, map, option_map};
ghost use Rattle.std.specs.Char.{to_ascii_lowercase};
ghost use Rattle.std.specs.List.{find, list_any};
ghost use Rattle.std.specs.Str.{bytes_eq};
ghost use Rattle.infer_named.specs.Listed.{key_listed};
ghost use Rattle.infer_named.specs.Parts.{are_parts_from};
ghost use Rattle.infer_named.specs.Names.{IsBase, IsDottedKey, IsExtensionKey, IsKey, IsLastDot, IsMakerKey, IsStemKey, IsVersioned, copy_length, ends_in, entry, extension_at, is_digit, is_key, is_version, makers, same_part, slot_of, small, stem_of};
ghost use Rattle.infer_named.specs.Table.{keys};
ghost use Rattle.infer_named.specs.declared.table.Part.TheVariants.{Extension, Whole};

use crate::table::{Key, Part, key_text, slot};
use memchr::{memchr, memrchr, memrchr2};

/// The key of the name, and `None` exactly if it has none.
pub fn key(name: &[u8]) -> Option<&'static Key>
    ensures { IsKey keys name.now (option_map (λ k. key_listed k.now) result) }
{
    match memchr(0, name) {
        Some(_) => None,
        None => key_of_stem(stem(base(name))),
    }
}

/// What stands after the last "/" or "\".
pub fn base(name: &[u8]) -> &[u8]
    ensures { IsBase name.now result.now }
{
    match memrchr2(b'/', b'\\', name) {
        Some(slash) => &name[slash + 1..],
        None => name,
    }
}

/// What stands before the ending of a copy, if it has one.
fn stem(base: &[u8]) -> &[u8]
    ensures { result.now ≡ stem_of base.now }
{
    &base[..base.len() - copy_length(base)]
}

/// How many bytes are the ending of a copy.
fn copy_length(base: &[u8]) -> usize
    ensures value { result ≡ copy_length base.now }
    ensures bound { result ≤ length base.now }
{
    if ends_in(base, b"~") {
        return 1;
    }
    if ends_in(base, b".bak") {
        return 4;
    }
    if ends_in(base, b".orig") {
        return 5;
    }
    if ends_in(base, b".old") {
        return 4;
    }
    0
}

/// Whether the text ends in this ending, whose letters are small, and something stands before it.
fn ends_in(text: &[u8], ending: &[u8]) -> bool
    ensures value { result ≡ ends_in text.now ending.now }
    ensures bound { IsTrue result → length ending.now ≤ length text.now }
{
    ending.len() < text.len() && is_small(&text[text.len() - ending.len()..], ending)
}

/// Whether the text in small letters is the other.
#[tactic(auto, using(crate::proofs::SmallLemmas::alike, crate::proofs::SmallLemmas::not_as_long, crate::proofs::SmallLemmas::unlike))]
fn is_small(text: &[u8], other: &[u8]) -> bool
    ensures { result ≡ bytes_eq (small text.now) other.now }
{
    if text.len() != other.len() {
        return false;
    }
    for i in 0..text.len() {
        if text[i].to_ascii_lowercase() != other[i] {
            return false;
        }
    }
    true
}

/// The key of a stem: the whole, or else its extension, or else what stands before its first dot.
fn key_of_stem(stem: &[u8]) -> Option<&'static Key>
    ensures { IsStemKey keys stem.now (option_map (λ k. key_listed k.now) result) }
{
    match entry(Part::Whole, stem) {
        Some(found) => Some(found),
        None => dotted_key(stem),
    }
}

fn dotted_key(stem: &[u8]) -> Option<&'static Key>
    ensures { IsDottedKey keys stem.now (option_map (λ k. key_listed k.now) result) }
{
    match extension_key(stem) {
        Some(found) => Some(found),
        None => maker_key(stem),
    }
}

/// The extension of a stem.
fn extension_key(stem: &[u8]) -> Option<&'static Key>
    ensures { IsExtensionKey keys stem.now (option_map (λ k. key_listed k.now) result) }
{
    let last = last_dot(stem, stem.len());
    let second = last_dot(stem, last.unwrap_or(0));
    if is_versioned(stem) {
        return entry(Part::Extension, b"so");
    }
    match extension_at(stem, second) {
        Some(found) => Some(found),
        None => extension_at(stem, last),
    }
}

/// The last dot before the place, but for one that is the first byte.
pub fn last_dot(stem: &[u8], before: usize) -> Option<usize>
    requires { before ≤ length stem.now }
    ensures dot { IsLastDot stem.now before result }
    ensures inside { IfSome result (λ dot. dot < length stem.now) }
{
    match memrchr(b'.', &stem[..before]) {
        Some(0) => None,
        found => found,
    }
}

/// The extension after a dot, if there is one.
pub fn extension_at(stem: &[u8], dot: Option<usize>) -> Option<&'static Key>
    requires { IfSome dot (λ place. place < length stem.now) }
    ensures { option_map (λ k. key_listed k.now) result ≡ extension_at keys stem.now dot }
{
    match dot {
        Some(place) => entry(Part::Extension, &stem[place + 1..]),
        None => None,
    }
}

/// Whether digits and dots at the end are a version after ".so". Its "o" is the last one.
fn is_versioned(stem: &[u8]) -> bool
    ensures { IsVersioned stem.now result }
{
    match memrchr2(b'o', b'O', stem) {
        Some(end) => ends_in(&stem[..end + 1], b".so") && is_version(&stem[end + 1..]),
        None => false,
    }
}

fn is_digit(byte: u8) -> bool
    ensures { result ≡ is_digit byte }
{
    b'0' <= byte && byte <= b'9'
}

/// Whether the text is parts of digits only, each after a dot.
#[tactic(auto, using(crate::proofs::VersionLemmas::version_by_parts))]
fn is_version(text: &[u8]) -> bool
    ensures { result ≡ is_version text.now }
{
    match text {
        [b'.', ..] => are_parts(text),
        _ => false,
    }
}

/// Whether these are such parts after the first byte, in which a digit is due if it is none.
#[tactic(auto, using(crate::proofs::VersionLemmas::passed_by, crate::proofs::VersionLemmas::parts_ended))]
fn are_parts(text: &[u8]) -> bool
    requires { 0 < length text.now }
    ensures { result ≡ are_parts_from text.now 1 }
{
    // No early exit: of such a loop the compiler makes vectors.
    let mut all = true;
    for i in 1..text.len() {
        all &= is_digit(text[i]) | ((text[i] == b'.') & is_digit(text[i - 1]));
    }
    all & is_digit(text[text.len() - 1])
}

/// The whole name before the first dot, if it is one of the four that may have anything after them.
fn maker_key(stem: &[u8]) -> Option<&'static Key>
    ensures { IsMakerKey keys stem.now (option_map (λ k. key_listed k.now) result) }
{
    match memchr(b'.', stem) {
        Some(place) => maker(&stem[..place]),
        None => None,
    }
}

fn maker(text: &[u8]) -> Option<&'static Key>
    ensures { option_map (λ k. key_listed k.now) result
        ≡ (if list_any (bytes_eq (small text.now)) makers then entry keys Whole text.now else None) }
{
    if is_maker(text) {
        entry(Part::Whole, text)
    } else {
        None
    }
}

fn is_maker(text: &[u8]) -> bool
    ensures { result ≡ list_any (bytes_eq (small text.now)) makers }
{
    is_small(text, b"makefile")
        || is_small(text, b"gnumakefile")
        || is_small(text, b"dockerfile")
        || is_small(text, b"containerfile")
}

/// The key of the table that is this part of a name, with this text in small letters.
#[tactic(auto, using(crate::proofs::TableLemmas::found_in_slot))]
pub fn entry(part: Part, text: &[u8]) -> Option<&'static Key>
    ensures { option_map (λ k. key_listed k.now) result ≡ entry keys part text.now }
{
    find_in(slot(slot_of(text)), part, text)
}

/// The first of these keys that is this part of a name, with this text in small letters.
#[inline(always)]
fn find_in(names: &'static [Key], part: Part, text: &[u8]) -> Option<&'static Key>
    ensures { option_map (λ k. key_listed k.now) result ≡ find (is_key part (small text.now)) (map key_listed names.now) }
{
    for key in names {
        if is_key(key, part, text) {
            return Some(key);
        }
    }
    None
}

fn is_key(key: &Key, part: Part, text: &[u8]) -> bool
    ensures { result ≡ is_key part (small text.now) (key_listed key.now) }
{
    is_same_part(part, key.part) && is_small(text, key_text(key))
}

fn is_same_part(a: Part, b: Part) -> bool
    ensures { result ≡ same_part a b }
{
    match (a, b) {
        (Part::Whole, Part::Whole) | (Part::Extension, Part::Extension) => true,
        _ => false,
    }
}

/// The slot of a text in small letters.
#[tactic(auto, using(crate::proofs::SmallLemmas::slot_small))]
fn slot_of(text: &[u8]) -> usize
    ensures value { result ≡ slot_of (small text.now) }
    ensures bound { result < 512 }
{
    if text.is_empty() {
        return 0;
    }
    let first = small_number(text[0]);
    let middle = small_number(text[text.len() / 2]);
    let last = small_number(text[text.len() - 1]);
    (text.len() + 118 * first + 203 * middle + 36 * last) % 512
}

/// The number of a byte in small letters.
fn small_number(byte: u8) -> usize
    ensures value { result ≡ to_ascii_lowercase byte }
    ensures bound { result < 256 }
{
    usize::from(byte.to_ascii_lowercase())
}
