//! MP3 without a tag, by two frames.
ghost use Rattle.std.specs.Prelude.{◌≡◌, ◌↔◌, ◌*◌, ◌+◌, ◌≤◌, IsTrue, length, slice_index};
ghost use Rattle.mime_sniff.specs.Mp3.{IsHeader, IsMp3, bit_rate, divisor, frame_length, is_version_1, padding, rates_of_1, rates_of_2, sample_rate, samples_of_1, scale};

/// MP3: a frame, and the header of the next one after it.
pub(crate) fn is_mp3(buf: &[u8]) -> bool
    ensures { IsTrue result ↔ IsMp3 buf.now }
{
    if !is_header(buf, 0) {
        return false;
    }
    let length = frame_length(buf[1], buf[2]);
    4 <= length && is_header(buf, length)
}

/// Whether the header of a frame stands there.
fn is_header(buf: &[u8], place: usize) -> bool
    ensures { IsTrue result ↔ IsHeader buf.now place }
{
    place <= buf.len()
        && buf.len() - place >= 4
        && buf[place] == 0xFF
        && buf[place + 1] & 0xE6 == 0xE2
        && buf[place + 2] & 0xF0 != 0xF0
        && buf[place + 2] & 0x0C != 0x0C
}

/// How many bytes the frame has, by the second and the third byte of its header.
fn frame_length(second: u8, third: u8) -> usize
    ensures { result ≡ frame_length second third }
{
    let length = bit_rate(second, third) * scale(second) / sample_rate(second, third);
    length as usize + padding(third)
}

fn is_version_1(second: u8) -> bool
    ensures { result ≡ is_version_1 second }
{
    second & 0x08 == 0x08
}

/// Bits a second.
fn bit_rate(second: u8, third: u8) -> u32
    ensures value { result ≡ bit_rate second third }
    ensures bound { result ≤ 320000 }
{
    let place = (third / 16) as usize;
    if is_version_1(second) {
        return 1000 * rate_of_1(place);
    }
    1000 * rate_of_2(place)
}

fn rate_of_1(place: usize) -> u32
    ensures value { result ≡ slice_index rates_of_1 place }
    ensures bound { result ≤ 320 }
{
    match place {
        1 => 32,
        2 => 40,
        3 => 48,
        4 => 56,
        5 => 64,
        6 => 80,
        7 => 96,
        8 => 112,
        9 => 128,
        10 => 160,
        11 => 192,
        12 => 224,
        13 => 256,
        14 => 320,
        _ => 0,
    }
}

fn rate_of_2(place: usize) -> u32
    ensures value { result ≡ slice_index rates_of_2 place }
    ensures bound { result ≤ 160 }
{
    match place {
        1 => 8,
        2 => 16,
        3 => 24,
        4 => 32,
        5 => 40,
        6 => 48,
        7 => 56,
        8 => 64,
        9 => 80,
        10 => 96,
        11 => 112,
        12 => 128,
        13 => 144,
        14 => 160,
        _ => 0,
    }
}

/// Samples a second.
fn sample_rate(second: u8, third: u8) -> u32
    ensures value { result ≡ sample_rate second third }
    ensures bound { 8000 ≤ result }
{
    samples_of_1(third) / divisor(second)
}

fn samples_of_1(third: u8) -> u32
    ensures value { result ≡ samples_of_1 third }
    ensures bound { 32000 ≤ result }
{
    match third & 0x0C {
        0x00 => 44100,
        0x04 => 48000,
        _ => 32000,
    }
}

fn divisor(second: u8) -> u32
    ensures value { result ≡ divisor second }
    ensures some { 1 ≤ result }
    ensures bound { result ≤ 4 }
{
    match second & 0x18 {
        0x10 => 2,
        0x00 => 4,
        _ => 1,
    }
}

fn scale(second: u8) -> u32
    ensures value { result ≡ scale second }
    ensures bound { result ≤ 144 }
{
    if is_version_1(second) {
        return 144;
    }
    72
}

fn padding(third: u8) -> usize
    ensures value { result ≡ padding third }
    ensures bound { result ≤ 1 }
{
    if third & 0x02 == 0x02 {
        return 1;
    }
    0
}
