//! What is decided by names and bytes, on the rows that tell standings apart.
use infer_uses::sending::type_sent;
use infer_uses::upload::passes;
use std::test::Fail;

const PNG: &[u8] = b"\x89PNG\r\n\x1A\n\0\0\0\rIHDR";

const PAGE: &[u8] = b"<!DOCTYPE html>\n<p>\n";

const JSON: &[u8] = b"{\"a\": 1}\n";

const SVG: &[u8] = b"<svg xmlns=\"http://www.w3.org/2000/svg\"/>\n";

const UNSAID: &str = "application/octet-stream";

#[test]
fn what_passes(rt: HostRuntime) -> Result<(), Fail> {
    let list = [
        "image/png",
        "text/plain",
        "application/json",
        "text/x-python",
    ];
    let cases: [(&[u8], &[u8], bool); 19] = [
        (b"photo.png", PNG, true),
        (b"PHOTO.PNG~", PNG, true),
        (b"data.json", JSON, true),
        (b"main.py", b"import os\n", true),
        (b"notes.txt", JSON, true),
        (b"notes.txt", PAGE, false),
        (b"index.html", b"{% extends \"base\" %}\n", false),
        (b"index.php", PAGE, false),
        (b"shell.php.jpg", b"<?php echo 1;\n", false),
        (b"photo.jpg", PNG, false),
        (b"photo", PNG, false),
        (b"photo.png\0.txt", PNG, false),
        (b"photo\n.png", PNG, false),
        (b"\xE2\x80\xAEphoto.png", PNG, false),
        (b"photo.py.png", PNG, true),
        (b"__init__.py", b"", false),
        (b"x.unknown", b"hello\n", false),
        (b"x.unknown", b"\0\x01", false),
        (b"", b"", false),
    ];
    for (name, front, expected) in cases.iter() {
        assert_eq!(rt; passes(&list, name, front), *expected);
    }
    Ok(())
}

#[test]
fn what_refines_needs_both_types(rt: HostRuntime) {
    assert_eq!(rt; passes(&["application/json"], b"notes.txt", JSON), false);
    assert_eq!(rt; passes(&["text/plain"], b"notes.txt", JSON), false);
    assert_eq!(rt;
        passes(&["text/plain", "application/json"], b"notes.txt", JSON),
        true
    );
    assert_eq!(rt; passes(&[], b"photo.png", PNG), false);
}

#[test]
fn what_is_sent(rt: HostRuntime) {
    let cases: [(&[u8], &[u8], &str); 16] = [
        (b"photo.png", PNG, "image/png"),
        (b"a.svg", SVG, "image/svg+xml"),
        (b"main.py", b"import os\n", "text/x-python"),
        (b"index.html", b"{% extends \"base\" %}\n", "text/html"),
        (b"notes.txt", JSON, "text/plain"),
        (b"notes.txt", PAGE, "text/plain"),
        (b"photo", PNG, "image/png"),
        (b"photo", SVG, UNSAID),
        (b"photo", PAGE, UNSAID),
        (b"x.unknown", b"hello\n", UNSAID),
        (b"photo.jpg", PNG, UNSAID),
        (b"photo.png", PAGE, UNSAID),
        (b"__init__.py", b"", UNSAID),
        (b"a.chpl", b"writeln(1);\n", UNSAID),
        (b"x.unknown", b"\0\x01", UNSAID),
        (b"", b"", UNSAID),
    ];
    for (name, front, expected) in cases.iter() {
        assert_eq!(rt; type_sent(name, front), *expected);
    }
}
