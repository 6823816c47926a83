//! The rows of Go alone. Those that begin with a byte of their own stand by it, in the order in which they are asked.
ghost use Rattle.std.specs.Prelude.{◌≡◌, map};
ghost use Rattle.mime_sniff.specs.Go.{between, documents, later};
ghost use Rattle.mime_sniff.specs.Listed.{rule_listed};
ghost use Rattle.mime_sniff.specs.Table.{led_by};

use crate::row::{Row, one_row, rows};

#[tactic(auto, unfolding(crate::specs::Go::documents))]
pub(super) fn documents(first: u8) -> &'static [Row]
    ensures { map rule_listed result.now ≡ led_by first documents }
{
    match first {
        b'%' => rows![
            exact b"%PDF-" => "application/pdf";
            exact b"%!PS-Adobe-" => "application/postscript";
        ],
        0xEF => rows![
            masked b"\xEF\xBB\xBF\0" b"\xFF\xFF\xFF\0" => "text/plain; charset=utf-8";
        ],
        0xFE => rows![
            masked b"\xFE\xFF\0\0" b"\xFF\xFF\0\0" => "text/plain; charset=utf-16be";
        ],
        0xFF => rows![
            masked b"\xFF\xFE\0\0" b"\xFF\xFF\0\0" => "text/plain; charset=utf-16le";
        ],
        _ => &[],
    }
}

#[tactic(auto, unfolding(crate::specs::Go::between))]
pub(super) fn between() -> &'static [Row]
    ensures { map rule_listed result.now ≡ between }
{
    rows![
        exact b"\x1AE\xDF\xA3" => "video/webm";
        masked b"\0\0\0\0\0\0\0\0\0\0\0\0\0\0\0\0\0\0\0\0\0\0\0\0\0\0\0\0\0\0\0\0\0\0LP" b"\0\0\0\0\0\0\0\0\0\0\0\0\0\0\0\0\0\0\0\0\0\0\0\0\0\0\0\0\0\0\0\0\0\0\xFF\xFF" => "application/vnd.ms-fontobject";
    ]
}

#[tactic(auto, unfolding(crate::specs::Go::later))]
pub(super) fn later(first: u8) -> &'static [Row]
    ensures { map rule_listed result.now ≡ led_by first later }
{
    match first {
        0x00 => rows![
            exact b"\0\x01\0\0" => "font/ttf";
            exact b"\0asm" => "application/wasm";
        ],
        0x1F => rows![
            exact b"\x1F\x8B\x08" => "application/x-gzip";
        ],
        b'O' => rows![
            exact b"OTTO" => "font/otf";
        ],
        b'P' => rows![
            exact b"PK\x03\x04" => "application/zip";
        ],
        b'R' => rows![
            exact b"Rar!\x1A\x07\0" => "application/x-rar-compressed";
            exact b"Rar!\x1A\x07\x01\0" => "application/x-rar-compressed";
        ],
        b't' => rows![
            exact b"ttcf" => "font/collection";
        ],
        b'w' => rows![
            exact b"wOFF" => "font/woff";
            exact b"wOF2" => "font/woff2";
        ],
        _ => &[],
    }
}
