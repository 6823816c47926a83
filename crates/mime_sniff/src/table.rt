//! The rows that browsers and Go have alike. Those that begin with a byte of their own stand by it, in the order in which they
//! are asked.
//!
//! BMP, JPEG, AIFF and WAVE are signatures of `infer_sig` too, as is gzip: `laws::shares_rows`. They are data here, and no calls,
//! since one function asks all rows, and another says what more bytes may bring to them.
ghost use Rattle.std.specs.Prelude.{◌≡◌, map};
ghost use Rattle.mime_sniff.specs.Listed.{rule_listed};
ghost use Rattle.mime_sniff.specs.Table.{images, led_by, sounds};

use crate::row::{Row, one_row, rows};

#[tactic(auto, unfolding(crate::specs::Table::images))]
pub(crate) fn images(first: u8) -> &'static [Row]
    ensures { map rule_listed result.now ≡ led_by first images }
{
    match first {
        0x00 => rows![
            exact b"\0\0\x01\0" => "image/x-icon";
            exact b"\0\0\x02\0" => "image/x-icon";
        ],
        b'B' => rows![
            exact b"BM" => "image/bmp";
        ],
        b'G' => rows![
            exact b"GIF87a" => "image/gif";
            exact b"GIF89a" => "image/gif";
        ],
        b'R' => rows![
            masked b"RIFF\0\0\0\0WEBPVP" b"\xFF\xFF\xFF\xFF\0\0\0\0\xFF\xFF\xFF\xFF\xFF\xFF" => "image/webp";
        ],
        0x89 => rows![
            exact b"\x89PNG\r\n\x1A\n" => "image/png";
        ],
        0xFF => rows![
            exact b"\xFF\xD8\xFF" => "image/jpeg";
        ],
        _ => &[],
    }
}

#[tactic(auto, unfolding(crate::specs::Table::sounds))]
pub(crate) fn sounds(first: u8) -> &'static [Row]
    ensures { map rule_listed result.now ≡ led_by first sounds }
{
    match first {
        b'F' => rows![
            masked b"FORM\0\0\0\0AIFF" b"\xFF\xFF\xFF\xFF\0\0\0\0\xFF\xFF\xFF\xFF" => "audio/aiff";
        ],
        b'I' => rows![
            exact b"ID3" => "audio/mpeg";
        ],
        b'M' => rows![
            exact b"MThd\0\0\0\x06" => "audio/midi";
        ],
        b'O' => rows![
            exact b"OggS\0" => "application/ogg";
        ],
        b'R' => rows![
            masked b"RIFF\0\0\0\0AVI " b"\xFF\xFF\xFF\xFF\0\0\0\0\xFF\xFF\xFF\xFF" => "video/avi";
            masked b"RIFF\0\0\0\0WAVE" b"\xFF\xFF\xFF\xFF\0\0\0\0\xFF\xFF\xFF\xFF" => "audio/wave";
        ],
        _ => &[],
    }
}
