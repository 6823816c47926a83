//! What browsers' tests and other programs say of texts: a row of each kind of vectors/mime_types.tsv, which c/vectors/mime.c asks whole.
use mime_types::{
    Destination, MimeType, Minimal, Pieces, WriteError, extract, is_blocked, is_nosniff, parse,
};
use std::test::Fail;

/// A text, and that of the MIME type that it says, which is empty if it says none.
const PARSED: &[(&[u8], &[u8])] = &[
    (b"text/html;charset=gbk", b"text/html;charset=gbk"),
    (b" A/B ; =+xml \xE9\t,", b"a/b"),
    (b"text/html;charset=\"gbk \"", b"text/html;charset=\"gbk \""),
    (b"x/x;x=\x85;bonus=x", b"x/x;x=\"\x85\";bonus=x"),
    (b"x/x;x=\x02;bonus=x", b"x/x;bonus=x"),
    (b"x/x;\xA1=x;bonus=x", b"x/x;bonus=x"),
    (b"a/b;; charset=\"g\\\"btext{;\x0B\xE9", b"a/b"),
    (
        b"image/svg+xml;\0; charset=\"g\\\"b+xml=\\B\\/\"x\" y utf-8; charset=\"g\\\"b",
        b"image/svg+xml;charset=\"g\\\"b+xml=B/\"",
    ),
    (b"*/*", b"*/*"),
    (b"\x0Bx/x", b""),
    (b"text/ html", b""),
    (b"a", b""),
];

#[test]
fn as_others_parse(rt: HostRuntime) -> Result<(), Fail> {
    for (i, (text, wanted)) in PARSED.iter().enumerate() {
        match parse(*text) {
            Some(found) => assert!(rt; is_written(&found, *wanted), "text {i}"),
            None => assert!(rt; wanted.is_empty(), "text {i}"),
        }
    }
    Ok(())
}

fn is_written(found: &MimeType<'_>, wanted: &[u8]) -> bool {
    let mut out = [0; 64];
    match found.write(&mut out) {
        Ok(end) => end <= out.len() && &out[..end] == wanted,
        Err(_) => false,
    }
}

/// A text, and a bit for each of its groups.
const GROUPED: &[(&[u8], u16)] = &[
    (b"imagex/x", 0b00_0000_0000),
    (b"x/x;x=\"application/json\"", 0b00_0000_0000),
    (b"image/svg+xml", 0b00_1010_0001),
    (b"video/x", 0b00_0000_0010),
    (b"application/font-ttf;x=x", 0b00_0000_0100),
    (b"x/+zip;x=x", 0b00_0000_1000),
    (b"application/x-rar-compressed;x=x", 0b00_0001_0000),
    (b"x/x+xml", 0b00_1010_0000),
    (b"TEXT/HTML", 0b00_1100_0000),
    (b"APPLICATION/pdf;a=b", 0b00_1000_0000),
    (b"text/javascript1.4", 0b01_0000_0000),
    (b"application/json;x=x", 0b10_0000_0000),
];

#[test]
fn as_others_group(rt: HostRuntime) -> Result<(), Fail> {
    for (i, (text, wanted)) in GROUPED.iter().enumerate() {
        let found = parse(*text).ok_or("no MIME type")?;
        assert_eq!(rt; groups(&found), *wanted, "text {i}");
    }
    Ok(())
}

/// A bit for each group, the lowest for images.
fn groups(found: &MimeType<'_>) -> u16 {
    let mut bits = 0;
    for is_in in [
        found.is_json(),
        found.is_javascript(),
        found.is_scriptable(),
        found.is_html(),
        found.is_xml(),
        found.is_archive(),
        found.is_zip_based(),
        found.is_font(),
        found.is_audio_or_video(),
        found.is_image(),
    ] {
        bits = (bits & 0x7FFF) << 1 | u16::from(is_in);
    }
    bits
}

/// A text, whether its essence is supported, and what it is taken for.
const MINIMIZED: &[(&[u8], bool, &str)] = &[
    (b"text/javascript1.2", false, "text/javascript"),
    (b"application/ld+json", false, "application/json"),
    (b"image/svg+xml;charset=utf-8", false, "image/svg+xml"),
    (b"application/xhtml+xml", false, "application/xml"),
    (b"image/png", true, "its essence"),
    (b"random/png", false, ""),
];

#[test]
fn as_others_minimize(rt: HostRuntime) -> Result<(), Fail> {
    for (i, (text, is_supported, wanted)) in MINIMIZED.iter().enumerate() {
        let found = parse(*text).ok_or("no MIME type")?;
        assert_eq!(rt; text_of(found.minimize(*is_supported)), *wanted, "text {i}");
    }
    Ok(())
}

fn text_of(minimal: Minimal) -> &'static str {
    match minimal {
        Minimal::JavaScript => "text/javascript",
        Minimal::Json => "application/json",
        Minimal::Svg => "image/svg+xml",
        Minimal::Xml => "application/xml",
        Minimal::Essence => "its essence",
        Minimal::Nothing => "",
    }
}

/// The value of `X-Content-Type-Options`, and whether it forbids to sniff.
const FORBIDDEN: &[(&[u8], bool)] = &[
    (b"NOSNIFF", true),
    (b" nosniff", true),
    (b", nosniff", false),
    (b"nosniff\x0B,nosniff", false),
    (b"sniff, nosniff", false),
];

#[test]
fn as_others_forbid(rt: HostRuntime) -> Result<(), Fail> {
    for (i, (value, wanted)) in FORBIDDEN.iter().enumerate() {
        assert_eq!(rt; is_nosniff(*value), *wanted, "value {i}");
    }
    Ok(())
}

/// The values of `Content-Type`, as one, and whether `nosniff` blocks it as a script, as a style and as something else.
const BLOCKED: &[(&[u8], [bool; 3])] = &[
    (
        b"text/javascript;charset=windows-1252;\", \\\", x/x",
        [false, true, false],
    ),
    (b"text/css;charset=utf-8", [true, false, false]),
    (b"text/html", [true, true, false]),
    (b"x", [true, true, false]),
];

#[test]
fn as_others_block(rt: HostRuntime) -> Result<(), Fail> {
    for (i, (text, wanted)) in BLOCKED.iter().enumerate() {
        let found = extract(*text).map(|found| found.mime_type);
        let told = [
            is_blocked(found, Destination::Script),
            is_blocked(found, Destination::Style),
            is_blocked(found, Destination::Other),
        ];
        assert_eq!(rt; told, *wanted, "text {i}");
    }
    Ok(())
}

/// The value of a header, and its pieces.
const SPLIT: &[(&[u8], &[&[u8]])] = &[
    (b"", &[b""]),
    (b"nosniff,", &[b"nosniff", b""]),
    (b" a\t,\tb ", &[b"a", b"b"]),
    (b"\x0Ba,b\x0C", &[b"\x0Ba", b"b\x0C"]),
    (b" ,\t,", &[b"", b"", b""]),
    (b"a,\"b,c\",d", &[b"a", b"\"b,c\"", b"d"]),
    (b"\"a\"b\"c,d\"", &[b"\"a\"b\"c,d\""]),
    (b"\"a\\\",b\",c", &[b"\"a\\\",b\"", b"c"]),
    (b"a\\\",b,c", &[b"a\\\",b,c"]),
    (b"\"b\t,", &[b"\"b\t,"]),
    (b"\"a\\", &[b"\"a\\"]),
    (b"x/x;test=\"hi\",y/y", &[b"x/x;test=\"hi\"", b"y/y"]),
];

#[test]
fn as_others_split(rt: HostRuntime) -> Result<(), Fail> {
    for (i, (value, wanted)) in SPLIT.iter().enumerate() {
        let mut pieces = Pieces::new(*value);
        for piece in *wanted {
            assert!(rt; pieces.next() == Some(*piece), "value {i}");
        }
        assert!(rt; pieces.next().is_none(), "value {i}");
    }
    Ok(())
}

/// The values of `Content-Type`, as one, and the text of the MIME type that they say, which is empty if they say none.
const EXTRACTED: &[(&[u8], &[u8])] = &[
    (
        b"text/plain;charset=gbk, text/plain;charset=windows-1252",
        b"text/plain;charset=windows-1252",
    ),
    (
        b"text/html;x=\", text/plain",
        b"text/html;x=\", text/plain\"",
    ),
    (
        b"text/html;charset=gbk, x, */*, text/html",
        b"text/html;charset=gbk",
    ),
    (b"a/b, a/b;charset=v, a/b", b"a/b"),
    (
        b"image/svg+xml;charset=u, image/svg+xml, image/svg+xml;charset=v;x=y, image/svg+xml",
        b"image/svg+xml;charset=u",
    ),
    (
        b"text/html;charset=, text/plain;charset=x",
        b"text/plain;charset=x",
    ),
    (b"*/*, text/html", b"text/html"),
    (b"y\", x, text/plain;charset=x", b""),
];

#[test]
fn as_others_extract(rt: HostRuntime) -> Result<(), Fail> {
    for (i, (value, wanted)) in EXTRACTED.iter().enumerate() {
        let mut out = [0; 64];
        let end = match extract(*value) {
            Some(found) => found.write(&mut out).map_err(|_| "no text")?,
            None => 0,
        };
        assert!(rt; end <= out.len() && &out[..end] == *wanted, "value {i}");
    }
    Ok(())
}

#[test]
fn a_parameter_by_its_name(rt: HostRuntime) -> Result<(), Fail> {
    let found = parse(b"Text/HTML; a=\x01; A=b; charset=\"x\\y\"; charset=z").ok_or(
        "no MIME type",
    )?;
    let value = found.parameter(b"a").ok_or("no value")?;
    assert!(rt; value.text == b"b".as_slice() && !value.is_quoted);
    let value = found.parameter(b"CHARSET").ok_or("no value")?;
    assert!(rt; value.text == b"x\\y".as_slice() && value.is_quoted);
    let mut said = [0; 2];
    assert!(rt; value.write(&mut said) == Some(2) && said == *b"xy");
    assert!(rt; value.write(&mut said[..1]).is_none());
    assert!(rt; found.parameter(b"b").is_none());
    let mut out = [0; 16];
    assert!(rt; found.write_essence(&mut out) == Some(9) && &out[..9] == b"text/html".as_slice());
    assert!(rt; found.write_essence(&mut out[..8]).is_none());
    Ok(())
}

#[test]
fn as_they_were_written(rt: HostRuntime) -> Result<(), Fail> {
    let found = parse(b" Text/X-Y ;A=\"\";b=C\t; a=d;\xA1=e;F=\"\\G\"").ok_or("no MIME type")?;
    assert!(rt; found.type_name == b"Text".as_slice() && found.subtype == b"X-Y".as_slice());
    let mut parameters = found.parameters().ok_or("too many")?;
    let wanted: &[(&[u8], &[u8], bool)] = &[
        (b"A", b"", true),
        (b"b", b"C", false),
        (b"F", b"\\G", true),
    ];
    for (i, (name, text, is_quoted)) in wanted.iter().enumerate() {
        let parameter = parameters.next().ok_or("too few")?;
        assert!(rt;
            parameter.name == *name && parameter.value.text == *text,
            "parameter {i}"
        );
        assert_eq!(rt; parameter.value.is_quoted, *is_quoted, "parameter {i}");
    }
    assert!(rt; parameters.next().is_none() && parameters.next().is_none());
    let found = extract(b"text/x;charset=\"\", Text/X").ok_or("no MIME type")?;
    assert!(rt; found.mime_type.type_name == b"Text".as_slice());
    let charset = found.charset.ok_or("no charset")?;
    assert!(rt; charset.text.is_empty() && charset.is_quoted);
    Ok(())
}

/// A header of a megabyte, with 100,000 parameters of ten bytes.
#[test]
fn a_long_header(rt: HostRuntime) -> Result<(), Fail> {
    let mut text = Vec::new(rt.alloc());
    text.extend_from_slice(b"text/html")?;
    for _ in 0..100_000 {
        text.extend_from_slice(b";name=text")?;
    }
    text.extend_from_slice(b";last=1")?;
    let found = parse(&text).ok_or("no MIME type")?;
    assert!(rt; found.is_html() && found.parameters().is_none());
    assert!(rt; found.parameter(b"last").is_some() && found.parameter(b"none").is_none());
    assert!(rt;
        matches!(
            found.write(&mut [0; 64]),
            Err(WriteError::TooManyParameters)
        )
    );
    let found = extract(&text).ok_or("no MIME type")?;
    assert!(rt; found.mime_type.is_html() && found.charset.is_none());
    assert!(rt;
        matches!(
            found.write(&mut [0; 64]),
            Err(WriteError::TooManyParameters)
        )
    );
    Ok(())
}

/// What is written so often after `text/html`, and whether the text of the MIME type is `text/html` alone.
const REPEATED: &[(&[u8], usize, bool)] = &[
    (b";", 100_000, true),
    (b" ; \t;a;=;a=", 1_000, true),
    (b";=b", 256, true),
    (b";=b", 257, false),
    (b";;=b; ;c", 256, true),
    (b";;=b; ;c", 257, false),
];

#[test]
fn empty_segments_count_for_nothing(rt: HostRuntime) -> Result<(), Fail> {
    for (i, (segments, times, is_told)) in REPEATED.iter().enumerate() {
        let mut text = Vec::new(rt.alloc());
        text.extend_from_slice(b"text/html")?;
        for _ in 0..*times {
            text.extend_from_slice(*segments)?;
        }
        let found = parse(&text).ok_or("no MIME type")?;
        assert_eq!(rt; is_written(&found, b"text/html"), *is_told, "segments {i}");
    }
    Ok(())
}

#[test]
fn a_long_list(rt: HostRuntime) -> Result<(), Fail> {
    let mut text = Vec::new(rt.alloc());
    text.extend_from_slice(b"a/b;charset=x")?;
    for _ in 0..200_000 {
        text.extend_from_slice(b", a/b")?;
    }
    let found = extract(&text).ok_or("no MIME type")?;
    assert!(rt; found.charset.ok_or("no charset")?.text == b"x".as_slice());
    let mut out = [0; 13];
    assert!(rt; matches!(found.write(&mut out), Ok(13)) && out == *b"a/b;charset=x");
    assert!(rt; matches!(found.write(&mut out[..12]), Err(WriteError::NoRoom)));
    Ok(())
}
