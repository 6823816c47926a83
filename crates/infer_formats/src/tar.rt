//! Tar archives without a magic text, by the checksum of their first header: tar(5), the old-style archive format.
ghost use Rattle.std.specs.Prelude.{◌≡◌, ◌↔◌, ◌+◌, ◌*◌, ◌<◌, ◌≤◌, ℕ, length, slice_index, IsTrue, ◌⊎◌};
ghost use Rattle.infer_formats.specs.Tar.{HasTarChecksum, IsField, IsOctal, header_sum, octal, sum_from};

mod may_become;

pub use may_become::may_have_tar_checksum;

/// The size of a header.
const HEADER_SIZE: usize = 512;
/// Where the field for the checksum begins.
const CHECKSUM: usize = 148;
/// And where it ends.
const CHECKSUM_END: usize = 156;
/// What its eight bytes add to the sum: as many spaces.
const CHECKSUM_SUM: u32 = 256;

/// A first header whose checksum, in octal digits, is the sum of its bytes.
pub fn has_tar_checksum(buf: &[u8]) -> bool
    ensures { IsTrue result ↔ HasTarChecksum buf.now }
{
    if buf.len() < HEADER_SIZE || buf[0] == 0 {
        return false;
    }
    let place = spaces_end(buf, CHECKSUM_END);
    let count = digit_count(buf, place, CHECKSUM_END);
    is_field(buf, place, count) && octal(buf, place, count) == header_sum(buf)
}

/// Whether the digits that stand there are a whole checksum.
fn is_field(buf: &[u8], place: usize, count: usize) -> bool
    requires few { count ≤ 8 }
    requires low { 148 ≤ place }
    requires high { place + count ≤ 156 }
    requires inside { place + count < 156 → place + count < length buf.now }
    requires spaces { (k : ℕ) → 148 ≤ k → k < place → slice_index buf.now k ≡ 0x20 }
    requires digits { (k : ℕ) → k < count → IsOctal (slice_index buf.now (place + k)) }
    ensures { IsTrue result ↔ IsField buf.now place count }
{
    if count == 0 {
        return false;
    }
    place + count == CHECKSUM_END || ends_field(buf[place + count])
}

/// Where the spaces of the checksum end, or that place.
fn spaces_end(buf: &[u8], end: usize) -> usize
    requires low { 148 ≤ end }
    requires high { end ≤ 156 }
    requires inside { end ≤ length buf.now }
    ensures low { 148 ≤ result }
    ensures high { result ≤ end }
    ensures spaces { (k : ℕ) → 148 ≤ k → k < result → slice_index buf.now k ≡ 0x20 }
    ensures ends { result < end → ¬ (slice_index buf.now result ≡ 0x20) }
{
    for place in CHECKSUM..end {
        if buf[place] != b' ' {
            return place;
        }
    }
    end
}

/// How many octal digits stand there, up to that place.
fn digit_count(buf: &[u8], place: usize, end: usize) -> usize
    requires low { 148 ≤ place }
    requires order { place ≤ end }
    requires high { end ≤ 156 }
    requires inside { end ≤ length buf.now }
    ensures few { result ≤ 8 }
    ensures high { place + result ≤ end }
    ensures digits { (k : ℕ) → k < result → IsOctal (slice_index buf.now (place + k)) }
    ensures ends { place + result < end → ¬ IsOctal (slice_index buf.now (place + result)) }
{
    for n in 0..end - place {
        if !is_octal(buf[place + n]) {
            return n;
        }
    }
    end - place
}

fn is_octal(byte: u8) -> bool
    ensures { IsTrue result ↔ IsOctal byte }
{
    byte >= b'0' && byte <= b'7'
}

fn ends_field(byte: u8) -> bool
    ensures { IsTrue result ↔ ((byte ≡ 0x00) ⊎ (byte ≡ 0x20)) }
{
    byte == 0 || byte == b' '
}

/// The number that the digits write.
fn octal(buf: &[u8], place: usize, count: usize) -> u32
    requires few { count ≤ 8 }
    requires fits { place + count ≤ length buf.now }
    requires digits { (k : ℕ) → k < count → IsOctal (slice_index buf.now (place + k)) }
    ensures { result ≡ octal buf.now place count }
{
    let mut number: u32 = 0;
    for n in 0..count {
        number = 8 * number + u32::from(buf[place + n] - b'0');
    }
    number
}

#[tactic(auto, unfolding(crate::specs::Tar::header_sum))]
fn header_sum(buf: &[u8]) -> u32
    requires { 512 ≤ length buf.now }
    ensures { result ≡ header_sum buf.now }
{
    sum_from(buf, 0, CHECKSUM)
        + CHECKSUM_SUM
        + sum_from(buf, CHECKSUM_END, HEADER_SIZE - CHECKSUM_END)
}

fn sum_from(buf: &[u8], place: usize, count: usize) -> u32
    requires few { count ≤ 512 }
    requires fits { place + count ≤ length buf.now }
    ensures is { result ≡ sum_from buf.now place count }
    ensures small { result ≤ 255 * count }
{
    let mut total: u32 = 0;
    for n in 0..count {
        total += u32::from(buf[place + n]);
    }
    total
}
