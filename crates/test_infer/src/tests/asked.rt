//! Which built-in rows are asked about a buffer, and how many.

use crate::asked::{Noting, walk_noting};
use infer::{is, is_counted, position_counted, rows};

const WEBP: &[u8] = b"P\0\0\0\0\0\0\0WEBP";

/// A ZIP file whose first name begins with "word", and ends there.
const WORD: &[u8] = b"PK\x03\x04\0\0\0\0\0\0\0\0\0\0\0\0\0\0\0\0\0\0\0\0\0\0\0\0\0\0word";

const EPUB: &[u8] =
    b"PK\x03\x04\0\0\0\0\0\0\0\0\0\0\0\0\0\0\0\0\0\0\0\0\0\0\0\0\0\0mimetypeapplication/epub+zip";

#[test]
fn positions_and_counts(rt: HostRuntime) {
    let cases: [(&[u8], Option<usize>, u32); 7] = [
        (b"", None, 0),
        (b"\x01", None, 12),
        (b"MZ", Some(rows::EXE), 1),
        (b"\xFF\xD8\xFF\xAA", Some(rows::JPEG), 2),
        (WEBP, Some(rows::WEBP), 3),
        (
            b"\x50\x2A\x4D\x18\x01\0\0\0\0\x28\xB5\x2F\xFD",
            Some(rows::ZST),
            24,
        ),
        (b"\x50\x2A\x4D\x18\xFF\xFF\xFF\xFF", None, 25),
    ];
    for (i, (buf, expected, count)) in cases.iter().enumerate() {
        assert_eq!(rt; position_counted(*buf), (*expected, *count), "case {i}");
    }
}

#[test]
fn rows_in_order(rt: HostRuntime) {
    let cases: [(&[u8], Option<&str>, Option<usize>, &[usize]); 2] = [
        (
            WEBP,
            None,
            Some(rows::WEBP),
            &[rows::EPUB, rows::MOBI, rows::WEBP],
        ),
        (WORD, Some("epub"), None, &[rows::EPUB, rows::EPUB_ARCHIVE]),
    ];
    for (i, (buf, wanted, expected, rows)) in cases.iter().enumerate() {
        let mut noting = Noting::new(*buf);
        assert_eq!(rt;
            walk_noting(&mut noting, *wanted),
            (*expected, *rows),
            "case {i}"
        );
    }
}

#[test]
fn extensions_and_counts(rt: HostRuntime) {
    let cases: [(&[u8], &str, bool, u32); 3] = [
        (b"MZ", "zip", false, 0),
        (WORD, "epub", false, 2),
        (EPUB, "epub", true, 1),
    ];
    for (i, (buf, extension, expected, count)) in cases.iter().enumerate() {
        assert_eq!(rt;
            is_counted(*buf, *extension),
            (*expected, *count),
            "case {i}"
        );
        assert_eq!(rt; is(*buf, *extension), *expected, "case {i}");
    }
    assert!(rt; !is(b"", "jpg"));
}
