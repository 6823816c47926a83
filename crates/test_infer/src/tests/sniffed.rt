//! What other programs say of buffers, Go's own function and those that follow the standard: a row of each kind of
//! vectors/content_types.tsv and vectors/sniffed.tsv, which c/vectors asks whole.
use mime_sniff::go::detect_content_type;
use mime_sniff::{
    Computed, Context, Supplied, compute, compute_in, is_apache_bug, is_decided, may_be_scriptable,
};
use mime_types::{MimeType, parse};
use std::test::Fail;

/// A buffer, and what Go's own function says of it.
const BY_GO: &[(&[u8], &str)] = &[
    (b"", "text/plain; charset=utf-8"),
    (b"\x01\x02\x03", "application/octet-stream"),
    (b"   <!DOCTYPE HTML>...", "text/html; charset=utf-8"),
    (b" \n<?xml", "text/xml; charset=utf-8"),
    (b"\xFF\xFE\x19\xFB", "text/plain; charset=utf-16le"),
    (b"%PDF-", "application/pdf"),
    (b"BM...", "image/bmp"),
    (b"RIFF\xC0\x95\xDA\xC7AVI ", "video/avi"),
    (
        b"\0\0\0\x18ftypmp42\0\0\0\0mp42isom<\x06t\xBFmdat",
        "video/mp4",
    ),
    (
        b"\x1AE\xDF\xA3\0B\x82@webm\x87\x87BBB\x87\0\x87",
        "video/webm",
    ),
    (b"wOF2\0\x01\0\0\0", "font/woff2"),
    (b"Rar!\x1A\x07\0", "application/x-rar-compressed"),
    (b"\0asm\x01\0", "application/wasm"),
];

#[test]
fn as_go_says(rt: HostRuntime) -> Result<(), Fail> {
    for (i, (buf, mime_type)) in BY_GO.iter().enumerate() {
        assert_eq!(rt; detect_content_type(*buf), *mime_type, "case {i}");
    }
    Ok(())
}

/// The text of the supplied type, which is empty if there is none, whether sniffing is forbidden, whether the header is one of
/// old servers, a buffer, and its type.
const COMPUTED: &[(&[u8], bool, bool, &[u8], &str)] = &[
    (b"", false, false, b"", "text/plain"),
    (b"", false, false, b"\0\x01", "application/octet-stream"),
    (b"", true, false, b"<script>alert(1)</script>", "text/plain"),
    (
        b"unknown/unknown",
        false,
        false,
        b"<script>alert(1)</script>",
        "text/html",
    ),
    (
        b"*/*",
        false,
        false,
        b" \n<?xml version=\"1.0\"?>",
        "text/xml",
    ),
    (
        b"application/unknown",
        false,
        false,
        b"%PDF-1.7",
        "application/pdf",
    ),
    (b"", true, false, b"GIF89a", "image/gif"),
    (b"", false, false, b"PK\x03\x04", "application/zip"),
    (
        b"text/plain",
        false,
        true,
        b"ID3\x04",
        "application/octet-stream",
    ),
    (
        b"text/plain; charset=iso-8859-1",
        false,
        true,
        b"%PDF-1.7",
        "text/plain",
    ),
    (
        b"text/plain; charset=UTF-8",
        true,
        true,
        b"%PDF-1.7",
        "text/plain;charset=UTF-8",
    ),
    (b"TEXT/PLAIN", true, false, b"\0\x01", "text/plain"),
    (b"image/x", false, false, b"\x89PNG\r\n\x1A\n", "image/png"),
    (
        b"image/svg+xml",
        false,
        false,
        b"<script>alert(1)</script>",
        "image/svg+xml",
    ),
    (b"audio/x;a=b", false, false, b"", "audio/x;a=b"),
    (
        b"application/ogg",
        false,
        false,
        b"\0\0\0\x14ftypmp42\0\0\0\0mp41",
        "video/mp4",
    ),
];

#[test]
fn as_others_compute(rt: HostRuntime) -> Result<(), Fail> {
    for (i, (text, no_sniff, is_old, buf, wanted)) in COMPUTED.iter().enumerate() {
        let supplied = Supplied {
            mime_type: parse(*text),
            no_sniff: *no_sniff,
            check_for_apache_bug: *is_old,
        };
        assert!(rt;
            is_told(&supplied, compute(&supplied, *buf), wanted.as_bytes()),
            "case {i}"
        );
    }
    Ok(())
}

/// What a buffer is loaded for, the text of the supplied type, which is empty if there is none, the buffer, and its type.
const IN_CONTEXT: &[(Context, &[u8], &[u8], &[u8])] = &[
    (Context::Image, b"", b"<svg>", b""),
    (Context::Image, b"text/html", b"\xFF\xD8\xFF", b"image/jpeg"),
    (
        Context::Image,
        b"image/svg+xml",
        b"\xFF\xD8\xFF",
        b"image/svg+xml",
    ),
    (Context::AudioOrVideo, b"", b"OggS\0", b"application/ogg"),
    (
        Context::AudioOrVideo,
        b"",
        b"FORM\x0F\0\x02nAIFF",
        b"audio/aiff",
    ),
    (Context::Font, b"", b"wOF2", b"font/woff2"),
    (Context::Font, b"text/xml", b"wOF2", b"text/xml"),
    (Context::Plugin, b"", b"", b"application/octet-stream"),
    (Context::Plugin, b"x/y", b"", b"x/y"),
    (Context::Style, b"", b"", b""),
    (Context::Script, b"", b"", b""),
    (Context::CacheManifest, b"", b"", b"text/cache-manifest"),
];

#[test]
fn as_others_compute_in_contexts(rt: HostRuntime) -> Result<(), Fail> {
    for (i, (context, text, buf, wanted)) in IN_CONTEXT.iter().enumerate() {
        let supplied = supplied(*text);
        let found = compute_in(*context, &supplied, *buf);
        assert!(rt; is_told(&supplied, found, *wanted), "case {i}");
    }
    Ok(())
}

/// The text of the supplied type, which is empty if there is none, a buffer, and whether no bytes after it change its type.
const DECIDED: &[(&[u8], &[u8], bool)] = &[
    (b"", b"bM some text\n", false),
    (b"", b"GIF89a\x7F\x8D\xC1", true),
    (b"image/png;a=b", b"\x89P", false),
    (b"image/png;a=b", b"x", true),
    (b"image/png", b"", false),
    (b"image/gif", b"RIFF", false),
    (b"image/gif", b"x", true),
];

#[test]
fn as_others_decide(rt: HostRuntime) -> Result<(), Fail> {
    for (i, (text, buf, wanted)) in DECIDED.iter().enumerate() {
        assert_eq!(rt; is_decided(&supplied(*text), *buf), *wanted, "case {i}");
    }
    Ok(())
}

/// A buffer, and whether its type may run scripts, or that with more bytes.
const SCRIPTABLE: &[(&[u8], bool)] = &[
    (b"", true),
    (b" <", true),
    (b"<?", true),
    (b"<!d", true),
    (b"%PDF-", true),
    (b" x", false),
    (b"<!DOCTYPE x", false),
    (b"<?X", false),
    (b"<h2", false),
];

#[test]
fn as_others_fear_scripts(rt: HostRuntime) -> Result<(), Fail> {
    for (i, (buf, wanted)) in SCRIPTABLE.iter().enumerate() {
        assert_eq!(rt; may_be_scriptable(*buf), *wanted, "case {i}");
    }
    Ok(())
}

/// A header, and whether it is one of old servers.
const OLD_SERVERS: &[(&[u8], bool)] = &[
    (b"text/plain; charset=ISO-8859-1", true),
    (b"text/plain; charset=UTF-8", true),
    (b"text/plain; charset=utf-8", false),
    (b"text/plain; charset=iSo-8859-1", false),
    (b"text/plain; charset=UTF-8; param", false),
];

#[test]
fn as_others_know_old_servers(rt: HostRuntime) -> Result<(), Fail> {
    for (i, (value, wanted)) in OLD_SERVERS.iter().enumerate() {
        assert_eq!(rt; is_apache_bug(*value), *wanted, "case {i}");
    }
    Ok(())
}

fn supplied(text: &[u8]) -> Supplied<'_> {
    Supplied {
        mime_type: parse(text),
        no_sniff: false,
        check_for_apache_bug: false,
    }
}

fn is_told(supplied: &Supplied<'_>, computed: Computed, wanted: &[u8]) -> bool {
    match computed {
        Computed::Sniffed(mime_type) => mime_type.as_bytes() == wanted,
        Computed::Same => match supplied.mime_type {
            Some(found) => is_written(&found, wanted),
            None => wanted.is_empty(),
        },
    }
}

fn is_written(found: &MimeType<'_>, wanted: &[u8]) -> bool {
    let mut out = [0; 64];
    match found.write(&mut out) {
        Ok(end) => end <= out.len() && &out[..end] == wanted,
        Err(_) => false,
    }
}

/// Boxes that end in their own head or far after the buffer, and other lengths that no file has, with what is told of sounds and
/// films. A box counts if its length is one of whole words that are there; no rule looks at the other lengths.
const HOSTILE: &[(&[u8], &[u8])] = &[
    (b"\0\0\0\0ftypmp42\0\0\0\0", b"video/mp4"),
    (b"\0\0\0\x01ftypmp42\0\0\0\0", b""),
    (b"\0\0\0\x02ftypmp42\0\0\0\0", b""),
    (b"\0\0\0\x03ftypmp42\0\0\0\0", b""),
    (b"\0\0\0\x04ftypmp42\0\0\0\0", b"video/mp4"),
    (b"\0\0\0\x05ftypmp42\0\0\0\0", b""),
    (b"\0\0\0\x06ftypmp42\0\0\0\0", b""),
    (b"\0\0\0\x07ftypmp42\0\0\0\0", b""),
    (b"\0\0\0\x08ftypmp42\0\0\0\0", b"video/mp4"),
    (b"\0\0\0\x08ftypisom\0\0\0\0mp42", b""),
    (b"\xFF\xFF\xFF\xFFftypmp42\0\0\0\0", b""),
    (b"\xFF\xFF\xFF\xFCftypmp42\0\0\0\0", b""),
    (b"RIFF\xFF\xFF\xFF\xFFWAVE", b"audio/wave"),
    (b"FORM\xFF\xFF\xFF\xFFAIFF", b"audio/aiff"),
    (b"\x1AE\xDF\xA3\xFF\xFF\xFF\xFF", b""),
    (b"\x1AE\xDF\xA3\x42\x82\xFFwebm\0", b"video/webm"),
    (b"\xFF\xFF\xFF\xFF\xFF\xFF\xFF\xFF", b""),
];

#[test]
fn hostile_lengths(rt: HostRuntime) -> Result<(), Fail> {
    let supplied = supplied(b"");
    for (i, (buf, wanted)) in HOSTILE.iter().enumerate() {
        let computed = compute_in(Context::AudioOrVideo, &supplied, *buf);
        assert!(rt; is_told(&supplied, computed, *wanted), "case {i}");
    }
    Ok(())
}
