//! Sound.
ghost use Rattle.std.specs.Prelude.{◌≡◌};
ghost use Rattle.infer_sig.specs.Signature.{accepts};
ghost use Rattle.infer_sig.specs.Audio.{aac, aiff, amr, ape, dsf, flac, m4a, midi, mp3, ogg, ogg_opus, wav};

use crate::places::matches_at;

/// MIDI: at least 4 bytes, "MThd" first.
pub fn is_midi(buf: &[u8]) -> bool
    ensures { result ≡ accepts midi buf.now }
{
    buf.len() >= 4 && matches_at(buf, b"MThd", 0)
}

/// MP3: at least 3 bytes, "ID3" first, or a frame's FF and one of FB, F3 and F2.
pub fn is_mp3(buf: &[u8]) -> bool
    ensures { result ≡ accepts mp3 buf.now }
{
    buf.len() >= 3
        && (matches_at(buf, b"ID3", 0) || buf[0] == 0xFF && matches!(buf[1], 0xFB | 0xF3 | 0xF2))
}

/// Apple's sound M4A: at least 11 bytes, "ftypM4A" at 4, or "M4A " first.
pub fn is_m4a(buf: &[u8]) -> bool
    ensures { result ≡ accepts m4a buf.now }
{
    buf.len() >= 11 && (matches_at(buf, b"ftypM4A", 4) || matches_at(buf, b"M4A ", 0))
}

/// Opus in Ogg: at least 36 bytes, "OggS" first, "OpusHead" at 28.
pub fn is_ogg_opus(buf: &[u8]) -> bool
    ensures { result ≡ accepts ogg_opus buf.now }
{
    buf.len() >= 36 && matches_at(buf, b"OggS", 0) && matches_at(buf, b"OpusHead", 28)
}

/// Ogg: at least 4 bytes, "OggS" first.
pub fn is_ogg(buf: &[u8]) -> bool
    ensures { result ≡ accepts ogg buf.now }
{
    buf.len() >= 4 && matches_at(buf, b"OggS", 0)
}

/// FLAC: at least 4 bytes, "fLaC" first.
pub fn is_flac(buf: &[u8]) -> bool
    ensures { result ≡ accepts flac buf.now }
{
    buf.len() >= 4 && matches_at(buf, b"fLaC", 0)
}

/// WAV: at least 12 bytes, "RIFF" first, "WAVE" at 8.
pub fn is_wav(buf: &[u8]) -> bool
    ensures { result ≡ accepts wav buf.now }
{
    buf.len() >= 12 && matches_at(buf, b"RIFF", 0) && matches_at(buf, b"WAVE", 8)
}

/// AMR: at least 12 bytes, "#!AMR" 0A first.
pub fn is_amr(buf: &[u8]) -> bool
    ensures { result ≡ accepts amr buf.now }
{
    buf.len() >= 12 && matches_at(buf, b"#!AMR\n", 0)
}

/// AAC: at least 2 bytes, a frame's FF and F1 or F9 first.
pub fn is_aac(buf: &[u8]) -> bool
    ensures { result ≡ accepts aac buf.now }
{
    buf.len() >= 2 && buf[0] == 0xFF && matches!(buf[1], 0xF1 | 0xF9)
}

/// AIFF: at least 12 bytes, "FORM" first, "AIFF" at 8.
pub fn is_aiff(buf: &[u8]) -> bool
    ensures { result ≡ accepts aiff buf.now }
{
    buf.len() >= 12 && matches_at(buf, b"FORM", 0) && matches_at(buf, b"AIFF", 8)
}

/// DSD stream: at least 5 bytes, "DSD " first.
pub fn is_dsf(buf: &[u8]) -> bool
    ensures { result ≡ accepts dsf buf.now }
{
    buf.len() >= 5 && matches_at(buf, b"DSD ", 0)
}

/// Monkey's Audio: at least 5 bytes, "MAC " first.
pub fn is_ape(buf: &[u8]) -> bool
    ensures { result ≡ accepts ape buf.now }
{
    buf.len() >= 5 && matches_at(buf, b"MAC ", 0)
}
