use infer_more::Reason;
use infer_more::types::Types;
use std::test::*;

const TEXT: &[u8] = b"# extension MIME type class parent signature\r
qoi   image/qoi          image - 14: @0 \"qoif\"\r
\t
myapp application/x-my   app zip 42: @30 \"manifest.my\" or 4: @2 03 04
both  image/x-both       image - 8: @0 {01 02} 10..1F, @4 not 00";

fn mime<'a>(types: &Types<'a>, buf: &[u8]) -> &'a str {
    match types.get(buf) {
        Some(found) => found.mime_type(),
        None => "-",
    }
}

#[test]
fn answers(rt: HostRuntime) -> Result<(), Fail> {
    let types = Types::new(TEXT).ok().ok_or("it describes types")?;
    for (buf, wanted) in [
        (b"qoif\0\0\0\0\0\0\0\0\0\0".as_slice(), "image/qoi"),
        (b"qoif\0\0\0\0\0\0\0\0\0".as_slice(), "-"),
        (b"PK\x03\x04".as_slice(), "application/x-my"),
        (b"\x01\x10\0\0\x01\0\0\0".as_slice(), "image/x-both"),
        (b"\x03\x10\0\0\x01\0\0\0".as_slice(), "-"),
        (b"\x02\x20\0\0\x01\0\0\0".as_slice(), "-"),
        (b"\x02\x1F\0\0\0\0\0\0".as_slice(), "-"),
        (b"{\"a\": 1}".as_slice(), "application/json"),
    ] {
        assert_eq!(rt; mime(&types, buf), wanted);
    }
    Ok(())
}

const RELATIONS: &[u8] = b"flow text/x-flow text xml root: flow or flows
note text/x-note text xml root : note with \"urn:notes\"
wdl  text/x-wdl  text sh  program: wdl miniwdl
book app/x-book  book zip first entry: is \"book.toml\" or ends in \".book\" or has extra FE CB
job  app/x-job   text -   JSON lines";

#[test]
fn relations(rt: HostRuntime) -> Result<(), Fail> {
    let types = Types::new(RELATIONS).ok().ok_or("it describes types")?;
    for (buf, wanted) in [
        (b"<?xml version='1.0'?><flow>".as_slice(), "text/x-flow"),
        (b"<?xml version='1.0'?><x:flows >".as_slice(), "text/x-flow"),
        (
            b"<?xml version='1.0'?><note xmlns='urn:notes'>".as_slice(),
            "text/x-note",
        ),
        (b"<?xml version='1.0'?><note>".as_slice(), "text/xml"),
        (b"#!/usr/bin/env miniwdl\n".as_slice(), "text/x-wdl"),
        (b"#!/bin/python\n".as_slice(), "text/x-python"),
        (
            b"PK\x03\x04\0\0\0\0\0\0\0\0\0\0\0\0\0\0\0\0\0\0\0\0\0\0\x06\0\0\0a.book".as_slice(),
            "app/x-book",
        ),
        (b"[1]\n[2]\n".as_slice(), "app/x-job"),
    ] {
        assert_eq!(rt; mime(&types, buf), wanted);
    }
    Ok(())
}

const PIECES: &[u8] =
    b"mesh image/x-mesh image - begins: \"#\" has 0A \"v \" has 0a76 6e20 has 0A\"f \"
ask  text/x-ask   text  - begins: \"ask \" 220D0A or 0909 \"ask\" 22
uefi app/x-uefi   app exe later header: \"PE\" 0000 with 10 to 13 at 92";

#[test]
fn pieces(rt: HostRuntime) -> Result<(), Fail> {
    let types = Types::new(PIECES).ok().ok_or("it describes types")?;
    for (buf, wanted) in [
        (
            b"# a\nv 0 0 0\nvn 0 0 1\nf 1 1 1\n".as_slice(),
            "image/x-mesh",
        ),
        (b"# a\nv 0 0 0\nvn 0 0 1\nf1\n".as_slice(), "text/plain"),
        (b"# a\nvn 0 0 1\nf 1 1 1\n".as_slice(), "text/plain"),
        (b"ask \"\r\n".as_slice(), "text/x-ask"),
        (b"\xEF\xBB\xBF\t\task\"".as_slice(), "text/x-ask"),
        (b"ask \"\n".as_slice(), "text/plain"),
    ] {
        assert_eq!(rt; mime(&types, buf), wanted);
    }
    Ok(())
}

// By the format's specification the subsystem stands 92 bytes after the signature, and 10 is an EFI application.
#[test]
fn later_header(rt: HostRuntime) -> Result<(), Fail> {
    let types = Types::new(PIECES).ok().ok_or("it describes types")?;
    let mut image = [0; 158];
    image[..2].copy_from_slice(b"MZ");
    image[60] = 0x40;
    image[64..68].copy_from_slice(b"PE\0\0");
    for (subsystem, wanted) in [
        (10, "app/x-uefi"),
        (13, "app/x-uefi"),
        (3, "application/vnd.microsoft.portable-executable"),
    ] {
        image[156] = subsystem;
        assert_eq!(rt; mime(&types, &image), wanted);
    }
    Ok(())
}

#[test]
fn mistakes(rt: HostRuntime) {
    for (text, reason, line, column) in [
        (b"a b".as_slice(), Reason::MimeType, 1, 3),
        (b"\na".as_slice(), Reason::Fields, 2, 2),
        (
            b"a b/c image - 1: @0 \"x".as_slice(),
            Reason::OpenQuote,
            1,
            21,
        ),
        (b"a b/c imago - 1: @0 00".as_slice(), Reason::Class, 1, 7),
        (
            b"a b/c image nope 1: @0 00".as_slice(),
            Reason::Parent,
            1,
            13,
        ),
        (b"a b/c image - 1: @1 00".as_slice(), Reason::Past, 1, 21),
        (
            b"a b/c image - 9: @1 00 00, @2 00".as_slice(),
            Reason::Overlap,
            1,
            29,
        ),
        (
            b"a b/c image - 99999999999999999999: @0 00".as_slice(),
            Reason::Length,
            1,
            15,
        ),
        (b"a b/c image - 9: @0".as_slice(), Reason::End, 1, 20),
        (
            b"\xEF\xBB\xBFa b/c image - 1: @0 00".as_slice(),
            Reason::Extension,
            1,
            1,
        ),
        (b"a b/c image - 1: @0 00\0".as_slice(), Reason::Byte, 1, 23),
        (
            b"a b/c image - 1: @0 {00".as_slice(),
            Reason::OpenSet,
            1,
            21,
        ),
        (
            b"a b/c image - 1: @0 1F..10".as_slice(),
            Reason::Range,
            1,
            21,
        ),
        (
            b"a b/c image - 1: @0 not 0".as_slice(),
            Reason::Digits,
            1,
            25,
        ),
        (
            b"a b/c image - roots: x".as_slice(),
            Reason::Relation,
            1,
            15,
        ),
        (
            b"a b/c image - root: x or  y z".as_slice(),
            Reason::Item,
            1,
            27,
        ),
        (
            b"a b/c image - begins: \"a\" or 0A has".as_slice(),
            Reason::Item,
            1,
            30,
        ),
        (
            b"a b/c image - begins: \"123456789012345678901234567890123456789012345678901234567890abcd\" 0A".as_slice(),
            Reason::Item,
            1,
            15,
        ),
        (
            b"a b/c image - later header: \"NE\" with 1 to 65536 at 0".as_slice(),
            Reason::Item,
            1,
            15,
        ),
        (b"a b/c image - root: x or".as_slice(), Reason::End, 1, 25),
        (
            b"a b/c image - root: \"x\" or \"".as_slice(),
            Reason::Item,
            1,
            15,
        ),
    ] {
        match Types::new(text) {
            Ok(_) => assert!(rt; false),
            Err(mistake) => {
                assert_eq!(rt; mistake.reason, reason);
                assert_eq!(rt; (mistake.line, mistake.column), (line, column));
            }
        }
    }
}

#[test]
fn rows(rt: HostRuntime) -> Result<(), Fail> {
    let types = Types::new(TEXT).ok().ok_or("it describes types")?;
    assert_eq!(rt; types.rows().count(), 3);
    let mut rows = types.rows();
    for wanted in ["qoi", "myapp", "both"] {
        let found = rows.next().ok_or("there is a row")?;
        assert_eq!(rt; found.extension(), wanted);
    }
    assert!(rt; rows.next().is_none());
    Ok(())
}
