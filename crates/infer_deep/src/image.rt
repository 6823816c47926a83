//! Images in ISO media files.
ghost use Rattle.std.specs.Prelude.{◌↔◌, ◌+◌, ◌*◌, ◌≤◌, ◌⊎◌, length, IsTrue, ◌≡◌, ◌-◌, ◌/◌, ◌<◌, codes};
ghost use Rattle.memchr.specs.Find.{OccursAt};
ghost use Rattle.infer_deep.specs.Brands.{HasCompatible, IsAvif, IsBoxed, IsHeif, MayHaveCompatible, box_length};
ghost use Rattle.infer_deep.specs.Open.{AgreesAt};
ghost use Rattle.infer_deep.specs.Signatures.{MayBecome};

use crate::numbers::be32;
use crate::places::{agrees_at, same_at};

/// HEIF: at least 16 bytes, and first a whole box "ftyp" that has the major brand heic or heix, or the major brand
/// mif1 or msf1 and the compatible brand heic.
///
/// The first four bytes state the length of the box, the highest first. Brands after the box do not count, and
/// neither does a box that states a length greater than that of `buf`.
#[inline(always)]
pub fn is_heif(buf: &[u8]) -> bool
    ensures { IsTrue result ↔ IsHeif buf.now }
{
    is_boxed(buf) && is_heif_box(buf)
}

fn is_heif_box(buf: &[u8]) -> bool
    requires { IsBoxed buf.now }
    ensures { IsTrue result ↔ IsHeif buf.now }
{
    if same_at(buf, b"heic", 8) || same_at(buf, b"heix", 8) {
        return true;
    }
    (same_at(buf, b"mif1", 8) || same_at(buf, b"msf1", 8)) && has_compatible(buf, b"heic", b"heic")
}

/// AVIF: at least 16 bytes, and first a whole box "ftyp" as for HEIF, in which avif or avis is the major brand or a
/// compatible one.
#[inline(always)]
pub fn is_avif(buf: &[u8]) -> bool
    ensures { IsTrue result ↔ IsAvif buf.now }
{
    is_boxed(buf) && is_avif_box(buf)
}

fn is_avif_box(buf: &[u8]) -> bool
    requires { IsBoxed buf.now }
    ensures { IsTrue result ↔ IsAvif buf.now }
{
    same_at(buf, b"avif", 8) || same_at(buf, b"avis", 8) || has_compatible(buf, b"avif", b"avis")
}

/// Whether some bytes after `buf` make it HEIF.
#[inline(always)]
pub fn may_become_heif(buf: &[u8]) -> bool
    ensures { IsTrue result ↔ MayBecome IsHeif buf.now }
{
    agrees_at(buf, b"ftyp", 4) && may_become_heif_box(buf)
}

#[tactic(auto, using(crate::proofs::BrandLemmas::heif_reached, crate::proofs::BrandLemmas::heif_known))]
fn may_become_heif_box(buf: &[u8]) -> bool
    requires { AgreesAt buf.now (codes "ftyp") 4 }
    ensures { IsTrue result ↔ MayBecome IsHeif buf.now }
{
    if agrees_at(buf, b"heic", 8) || agrees_at(buf, b"heix", 8) {
        return true;
    }
    (agrees_at(buf, b"mif1", 8) || agrees_at(buf, b"msf1", 8)) && may_have_compatible(buf, b"heic")
}

/// Whether some bytes after `buf` make it AVIF.
#[inline(always)]
pub fn may_become_avif(buf: &[u8]) -> bool
    ensures { IsTrue result ↔ MayBecome IsAvif buf.now }
{
    agrees_at(buf, b"ftyp", 4) && may_become_avif_box(buf)
}

#[tactic(auto, using(crate::proofs::BrandLemmas::avif_reached, crate::proofs::BrandLemmas::avif_known))]
fn may_become_avif_box(buf: &[u8]) -> bool
    requires { AgreesAt buf.now (codes "ftyp") 4 }
    ensures { IsTrue result ↔ MayBecome IsAvif buf.now }
{
    if agrees_at(buf, b"avif", 8) || agrees_at(buf, b"avis", 8) {
        return true;
    }
    may_have_compatible(buf, b"avif") || may_have_compatible(buf, b"avis")
}

/// Whether `brand` may be a compatible brand, as far as `buf` goes. If some brand of the box is cut by the end of `buf`
/// or comes after it, the last one is.
#[tactic(auto, using(crate::proofs::BrandLemmas::may_have_compatible_last, crate::proofs::BrandLemmas::has_compatible_may, crate::proofs::BrandLemmas::last_or_whole))]
fn may_have_compatible(buf: &[u8], brand: &[u8; 4]) -> bool
    requires { 4 ≤ length buf.now }
    ensures { IsTrue result ↔ MayHaveCompatible brand.now buf.now }
{
    let count = brand_count(buf);
    count > 0 && (agrees_at(buf, brand, 12 + 4 * count) || has_compatible(buf, brand, brand))
}

#[inline(always)]
fn is_boxed(buf: &[u8]) -> bool
    ensures { IsTrue result ↔ IsBoxed buf.now }
{
    buf.len() >= 16 && same_at(buf, b"ftyp", 4) && be32(buf, 0) as usize <= buf.len()
}

/// Whether one of the two is a compatible brand.
#[inline(always)]
fn has_compatible(buf: &[u8], one: &[u8; 4], other: &[u8; 4]) -> bool
    requires { 16 ≤ length buf.now }
    ensures { IsTrue result ↔ (HasCompatible one.now buf.now ⊎ HasCompatible other.now buf.now) }
{
    if be32(buf, 0) > 512 {
        return has_compatible_in_long(buf, one, other);
    }
    is_listed(buf, one, other)
}

/// Whether one of the two is a compatible brand in a long box. No brand ends the loop early, so that it compares many
/// at a time.
#[tactic(auto, using(crate::proofs::BrandLemmas::none_below, crate::proofs::BrandLemmas::one_more_below, crate::proofs::BrandLemmas::compatible_below))]
#[inline(never)]
fn has_compatible_in_long(buf: &[u8], one: &[u8; 4], other: &[u8; 4]) -> bool
    requires { 16 ≤ length buf.now }
    ensures { IsTrue result ↔ (HasCompatible one.now buf.now ⊎ HasCompatible other.now buf.now) }
{
    let count = brand_count(buf).min((buf.len() - 16) / 4);
    let mut has_one = false;
    let mut has_other = false;
    for k in 0..count {
        has_one |= same_at(buf, one, 16 + 4 * k);
        has_other |= same_at(buf, other, 16 + 4 * k);
    }
    has_one || has_other
}

#[inline(always)]
fn is_listed(buf: &[u8], one: &[u8; 4], other: &[u8; 4]) -> bool
    requires { 16 ≤ length buf.now }
    ensures { IsTrue result ↔ (HasCompatible one.now buf.now ⊎ HasCompatible other.now buf.now) }
{
    let count = brand_count(buf).min((buf.len() - 16) / 4);
    let is_brand = |k: usize| -> bool
        requires { 20 + 4 * k ≤ length buf.now }
        ensures { IsTrue result
            ↔ (OccursAt buf.entry.now one.entry.now (16 + 4 * k)
            ⊎ OccursAt buf.entry.now other.entry.now (16 + 4 * k)) }
    { same_at(buf, one, 16 + 4 * k) || same_at(buf, other, 16 + 4 * k) };
    (0..count).any(is_brand)
}

/// How many compatible brands the box has.
#[inline(always)]
fn brand_count(buf: &[u8]) -> usize
    requires { 4 ≤ length buf.now }
    ensures is { result ≡ box_length buf.now / 4 - 4 }
    ensures small { result < 1073741824 }
{
    (be32(buf, 0) as usize / 4).saturating_sub(4)
}
