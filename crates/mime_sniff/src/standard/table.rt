//! The rows of the standard alone.
ghost use Rattle.std.specs.Prelude.{◌≡◌, map};
ghost use Rattle.mime_sniff.specs.Listed.{rule_listed};
ghost use Rattle.mime_sniff.specs.Standard.{archives, documents, fonts, marks, texts};

use crate::row::{Row, one_row, rows};

#[tactic(auto, unfolding(crate::specs::Standard::documents))]
pub(crate) fn documents() -> &'static [Row]
    ensures { map rule_listed result.now ≡ documents }
{
    rows![
        exact b"%PDF-" => "application/pdf";
    ]
}

#[tactic(auto, unfolding(crate::specs::Standard::texts))]
pub(crate) fn texts() -> &'static [Row]
    ensures { map rule_listed result.now ≡ texts }
{
    rows![
        exact b"%!PS-Adobe-" => "application/postscript";
        masked b"\xFE\xFF\0\0" b"\xFF\xFF\0\0" => "text/plain";
        masked b"\xFF\xFE\0\0" b"\xFF\xFF\0\0" => "text/plain";
        masked b"\xEF\xBB\xBF\0" b"\xFF\xFF\xFF\0" => "text/plain";
    ]
}

#[tactic(auto, unfolding(crate::specs::Standard::archives))]
pub(crate) fn archives() -> &'static [Row]
    ensures { map rule_listed result.now ≡ archives }
{
    rows![
        exact b"\x1F\x8B\x08" => "application/x-gzip";
        exact b"PK\x03\x04" => "application/zip";
        exact b"Rar \x1A\x07\0" => "application/x-rar-compressed";
    ]
}

#[tactic(auto, unfolding(crate::specs::Standard::fonts))]
pub(crate) fn fonts() -> &'static [Row]
    ensures { map rule_listed result.now ≡ fonts }
{
    rows![
        masked b"\0\0\0\0\0\0\0\0\0\0\0\0\0\0\0\0\0\0\0\0\0\0\0\0\0\0\0\0\0\0\0\0\0\0LP" b"\0\0\0\0\0\0\0\0\0\0\0\0\0\0\0\0\0\0\0\0\0\0\0\0\0\0\0\0\0\0\0\0\0\0\xFF\xFF" => "application/vnd.ms-fontobject";
        exact b"\0\x01\0\0" => "font/ttf";
        exact b"OTTO" => "font/otf";
        exact b"ttcf" => "font/collection";
        exact b"wOFF" => "font/woff";
        exact b"wOF2" => "font/woff2";
    ]
}

#[tactic(auto, unfolding(crate::specs::Standard::marks))]
pub(crate) fn marks() -> &'static [Row]
    ensures { map rule_listed result.now ≡ marks }
{
    rows![
        exact b"\xFE\xFF" => "text/plain";
        exact b"\xFF\xFE" => "text/plain";
        exact b"\xEF\xBB\xBF" => "text/plain";
    ]
}
