//! The numbers of first rows, on worked buffers that the outside data of `vectors/` lacks.
use crate::tests::buffers::filled_but;
use infer::archive::{is_lz4, is_zst};
use infer::text::{is_html, is_xml};
use infer::{position, rows};
use std::alloc::{AllocError, Global};
use std::test::Fail;

type Case<'a> = (usize, &'a [(usize, &'a [u8])], usize);

#[test]
fn long_buffers(rt: HostRuntime) -> Result<(), Fail> {
    let cases: [Case; 3] = [
        (604, &[(600, b"%PDF")], rows::PDF),
        (262, &[(0, b"<P>"), (257, b"ustar")], rows::TAR),
        (
            4224,
            &[
                (0, b"\xD0\xCF\x11\xE0\xA1\xB1\x1A\xE1"),
                (26, b"\x04\0\xFE\xFF\x0C"),
                (48, b"\xFF\xFF\xFF\xFF"),
                (4162, b"\x05"),
                (4176, b"\x10\x08\x02\0\0\0\0\0\xC0\0\0\0\0\0\0\x46"),
            ],
            rows::MSI,
        ),
    ];
    for (i, (len, texts, expected)) in cases.iter().enumerate() {
        let buf = filled_but(rt.alloc(), 0, *len, *texts)?;
        assert_eq!(rt; position(buf.as_slice()), Some(*expected), "case {i}");
    }
    Ok(())
}

/// The bytes `count` times, and then the end.
fn repeated(alloc: Global, bytes: &[u8], count: usize, end: &[u8]) -> Result<Vec<u8>, AllocError> {
    let mut buf = bytes.repeat(alloc, count)?;
    buf.extend_from_slice(end)?;
    Ok(buf)
}

/// What is passed over before a mark is passed over a million bytes long, without recursion.
#[test]
fn a_million_bytes(rt: HostRuntime) -> Result<(), Fail> {
    let frame: &[u8] = b"\x50\x2A\x4D\x18\0\0\0\0";
    let cases: [(&[u8], usize, &[u8], [bool; 4]); 5] = [
        (frame, 125_000, b"", [false, false, false, false]),
        (
            frame,
            125_000,
            b"\x28\xB5\x2F\xFD",
            [true, false, false, false],
        ),
        (
            frame,
            125_000,
            b"\x04\x22\x4D\x18",
            [false, true, false, false],
        ),
        (b" ", 1_000_000, b"<P>", [false, false, true, false]),
        (b"\xFE\xFF", 500_000, b"<?xml", [false, false, false, true]),
    ];
    for (i, (bytes, count, end, expected)) in cases.iter().enumerate() {
        let buf = repeated(rt.alloc(), *bytes, *count, *end)?;
        let buf = buf.as_slice();
        assert_eq!(rt;
            [is_zst(buf), is_lz4(buf), is_html(buf), is_xml(buf)],
            *expected,
            "case {i}"
        );
    }
    Ok(())
}
