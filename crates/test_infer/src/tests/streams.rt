//! Verdicts on worked streams.

use crate::streams::{AtLeast, final_and_decided, open_by_a_mark, push_both};
use crate::tests::buffers::filled_but;
use infer::{Watched, read_until};
use infer_sniff::{Sniffer, Verdict, label};
use infer_uses::relay::{pass, pass_by_turns};
use linked_list_allocator::LocalHeap;
use std::alloc::{AllocError, Allocator, Global};
use std::test::Fail;
use test_streams::PieceReader;

/// Whether the verdict is final, and the extension of its type, empty if it has none.
fn told(verdict: Verdict) -> (bool, &'static str) {
    let extension = verdict.found().map_or("", |found| found.extension());
    (verdict.is_final(), extension)
}

/// The verdict of the pieces, one after the other, on a new sniffer.
fn judged<A: Allocator>(alloc: A, pieces: &[&[u8]]) -> Result<(bool, &'static str), AllocError> {
    let mut sniffer = Sniffer::new(alloc)?;
    Ok(told(sniffer.push_all(pieces)))
}

/// "<P>" and spaces up to 261 bytes, of which the last four are "usta".
fn page(alloc: Global) -> Result<Vec<u8>, AllocError> {
    filled_but(alloc, b' ', 261, &[(0, b"<P>"), (257, b"usta")])
}

#[test]
fn a_page_becomes_an_archive(rt: HostRuntime) -> Result<(), Fail> {
    let page = page(rt.alloc())?;
    let zeros = [0; 761];
    let pieces: [(&[u8], bool, &str); 6] = [
        (b"", false, ""),
        (page.as_slice(), false, "html"),
        (b"r", false, "tar"),
        (&zeros, false, "tar"),
        (b"\0", true, "tar"),
        (b"%PDF", true, "tar"),
    ];
    let mut sniffer = Sniffer::new(rt.alloc())?;
    for (piece, is_final, extension) in pieces {
        assert_eq!(rt; told(sniffer.push(piece)), (is_final, extension));
        assert_eq!(rt; told(sniffer.push_all(&[])), (is_final, extension));
    }
    assert!(rt; sniffer.kept().ends_with(b"\0\0\0%PDF"));
    Ok(())
}

#[test]
fn white_space_stays_open(rt: HostRuntime) -> Result<(), Fail> {
    let spaces = [b' '; 8192];
    assert_eq!(rt; judged(rt.alloc(), &[&spaces[..1024]])?, (false, ""));
    assert_eq!(rt;
        judged(rt.alloc(), &[&spaces[..1024], b"<P>"])?,
        (true, "html")
    );
    let mut sniffer = Sniffer::new(rt.alloc())?;
    assert_eq!(rt; told(sniffer.push(&spaces)), (false, ""));
    assert_eq!(rt; told(sniffer.push(b"<P>")), (false, ""));
    assert!(rt; sniffer.kept() == spaces.as_slice());
    Ok(())
}

#[test]
fn a_label_is_read_no_further(rt: HostRuntime) -> Result<(), Fail> {
    let zeros = [0; 5000];
    let mut reader = Watched::new(PieceReader::new(&zeros, 5000));
    assert!(rt; matches!(label(rt.alloc(), &mut reader), Ok(None)));
    let reader = reader.into_inner();
    assert_eq!(rt; (reader.rest.len(), reader.reads), (5000 - 1024, 1));
    Ok(())
}

#[test]
fn a_relay_stops_once_the_type_is_certain(rt: HostRuntime) -> Result<(), Fail> {
    let zeros = [0; 5000];
    let (mut from, mut to) = (zeros.as_slice(), Vec::new(rt.alloc()));
    assert!(rt; pass(rt.alloc(), &mut from, &mut to)?.is_none());
    assert_eq!(rt; (from.len(), to.len()), (5000 - 1024, 1024));
    let (mut image, mut copy) = (b"\xFF\xD8\xFF".as_slice(), Vec::new(rt.alloc()));
    let found = pass_by_turns(rt.alloc(), &mut image, &mut copy)?;
    assert_eq!(rt; found.map_or("", |found| found.extension()), "jpg");
    assert_eq!(rt; copy.as_slice(), b"\xFF\xD8\xFF".as_slice());
    Ok(())
}

#[test]
fn two_pushes_are_one(rt: HostRuntime) -> Result<(), Fail> {
    let mut sniffer = Sniffer::new(rt.alloc())?;
    assert_eq!(rt;
        told(push_both(&mut sniffer, b"\xFF\xD8", b"\xFF")),
        (false, "jpg")
    );
    Ok(())
}

const COMPOUND: &[u8] = b"\xD0\xCF\x11\xE0\xA1\xB1\x1A\xE1";

const ZIP: &[u8] = b"PK\x03\x04";

const FRAME: &[u8] = b"\x50\x2A\x4D\x18\xF8\x03\0\0";

const WORD_ID: &[u8] = b"\x06\x09\x02\0\0\0\0\0\xC0\0\0\0\0\0\0\x46";

const EXCEL_ID: &[u8] = b"\x10\x08\x02\0\0\0\0\0\xC0\0\0\0\0\0\0\x46";

const POWERPOINT_ID: &[u8] = b"\x10\x8D\x81\x64\x9B\x4F\xCF\x11\x86\xEA\0\xAA\0\xB9\x29\xE8";

/// A buffer that stays open up to its 1024th byte: what fills it, its texts, the extension of its first 1024 bytes
/// and its own.
type Late<'a> = (u8, &'a [(usize, &'a [u8])], &'static str, &'static str);

// A compound file whose root entry begins at 1024.
macro_rules! compound {
    ($id:expr) => {
        &[
            (0, COMPOUND),
            (26, b"\x03\0\xFE\xFF\x09"),
            (48, b"\x01"),
            (1090, b"\x05"),
            (1104, $id),
            (1151, b"\0"),
        ]
    };
}

// A document of Office whose third header stands after the 1024th byte.
macro_rules! office {
    ($folder:literal) => {
        &[
            (0, ZIP),
            (30, b"[Content_Types].xml"),
            (1049, ZIP),
            (1079, ZIP),
            (1109, $folder),
            (1135, ZIP),
            (1165, $folder),
        ]
    };
}

#[test]
fn far_rows_come_late(rt: HostRuntime) -> Result<(), Fail> {
    let cases: [Late; 12] = [
        (
            0,
            &[(0, b"\0\0\x04\x04ftypheic"), (1027, b"\0")],
            "",
            "heif",
        ),
        (
            0,
            &[(0, b"\0\0\x04\x04ftypavif"), (1027, b"\0")],
            "",
            "avif",
        ),
        (0, compound!(WORD_ID), "msi", "doc"),
        (0, compound!(EXCEL_ID), "msi", "xls"),
        (0, compound!(POWERPOINT_ID), "msi", "ppt"),
        (0, office!(b"word/"), "zip", "docx"),
        (0, office!(b"xl/"), "zip", "xlsx"),
        (0, office!(b"ppt/"), "zip", "pptx"),
        (0, &[(0, FRAME), (1024, b"\x28\xB5\x2F\xFD")], "", "zst"),
        (0, &[(0, FRAME), (1024, b"\x04\x22\x4D\x18")], "", "lz4"),
        (b' ', &[(1024, b"<P>")], "", "html"),
        (b' ', &[(1024, b"<?xml")], "", "xml"),
    ];
    for (fill, texts, early, own) in &cases {
        let buf = filled_but(rt.alloc(), *fill, 0, *texts)?;
        let (front, rest) = buf.as_slice().split_at(buf.len().min(1024));
        assert_eq!(rt; judged(rt.alloc(), &[front])?, (false, *early), "{own}");
        assert_eq!(rt; judged(rt.alloc(), &[front, rest])?, (true, *own));
    }
    Ok(())
}

#[test]
fn marks_stay_open(rt: HostRuntime) -> Result<(), Fail> {
    let marks = b"\xFE\xFF".repeat(rt.alloc(), 512)?;
    let marks = marks.as_slice();
    assert_eq!(rt; judged(rt.alloc(), &[marks])?, (false, ""));
    assert_eq!(rt; judged(rt.alloc(), &[marks, b"<?xml"])?, (true, "xml"));
    Ok(())
}

#[test]
fn an_earlier_row_is_final_in_an_open_case(rt: HostRuntime) -> Result<(), Fail> {
    let jpeg = filled_but(rt.alloc(), 0, 1024, &[(0, b"\xFF\xD8\xFF\0ftyp")])?;
    assert_eq!(rt; judged(rt.alloc(), &[jpeg.as_slice()])?, (true, "jpg"));
    Ok(())
}

#[test]
fn a_cut_changes_nothing(rt: HostRuntime) -> Result<(), Fail> {
    let heif = filled_but(rt.alloc(), 0, 1028, &[(0, b"\0\0\x04\x04ftypheic")])?;
    let tar = filled_but(
        rt.alloc(),
        0,
        1024,
        &[(0, page(rt.alloc())?.as_slice()), (261, b"r")],
    )?;
    let texts: [(usize, &[u8]); 4] = [
        (0, COMPOUND),
        (26, b"\x03\0\xFE\xFF\x09"),
        (578, b"\x05"),
        (592, WORD_ID),
    ];
    let doc = filled_but(rt.alloc(), 0, 640, &texts)?;
    let cases = [
        (heif.as_slice(), (true, "heif")),
        (tar.as_slice(), (true, "tar")),
        (doc.as_slice(), (false, "doc")),
    ];
    for (buf, expected) in cases {
        for cut in 0..=buf.len() {
            let (front, rest) = buf.split_at(cut);
            assert_eq!(rt;
                judged(rt.alloc(), &[front, rest])?,
                expected,
                "cut at {cut}"
            );
        }
    }
    Ok(())
}

#[test]
fn marks_are_needed() {
    open_by_a_mark();
}

#[test]
fn memory_is_taken_once(rt: HostRuntime) -> Result<(), Fail> {
    assert!(rt; Sniffer::new(&LocalHeap::new(rt.alloc(), 4096)?).is_err());
    // Nothing is left beside what the sniffer reserved.
    let heap = LocalHeap::new(rt.alloc(), 8192)?;
    let mut sniffer = Sniffer::new(&heap)?;
    assert!(rt; Vec::<u8, _>::with_capacity(&heap, 1).is_err());
    assert_eq!(rt; told(sniffer.push(&[0; 9000])), (true, ""));
    assert_eq!(rt; sniffer.kept().len(), 8192);
    Ok(())
}

#[test]
fn certainty_comes_before_the_verdict(rt: HostRuntime) -> Result<(), Fail> {
    let mut sniffer = Sniffer::new(rt.alloc())?;
    sniffer.push(b"\xFF\xD8\xFF");
    sniffer.push(&[0; 57]);
    assert!(rt; !sniffer.is_decided());
    assert!(rt; !sniffer.push(&[0]).is_final());
    assert!(rt; sniffer.is_decided());
    assert_eq!(rt; final_and_decided(&mut sniffer, &[0; 1024]), (true, true));
    Ok(())
}

#[test]
fn verdicts_print(rt: HostRuntime) -> Result<(), Fail> {
    let mut sniffer = Sniffer::new(rt.alloc())?;
    assert_eq!(rt;
        format!(in rt.alloc(); "{:?}", sniffer.verdict())?.as_str(),
        "SoFar(None)"
    );
    let verdict = sniffer.push(&[0; 1024]);
    assert_eq!(rt;
        format!(in rt.alloc(); "{verdict:?}")?.as_str(),
        "Final(None)"
    );
    Ok(())
}

#[test]
fn reading_ends_after_as_many_bytes_as_are_enough(rt: HostRuntime) -> Result<(), Fail> {
    let zeros = [0; 100];
    for (enough, piece, count) in [(0, 7, 0), (10, 7, 14), (10, 100, 50), (60, 7, 50)] {
        let mut reader = Watched::new(PieceReader::new(&zeros, 100));
        let bytes = read_until(rt.alloc(), &mut reader, 50, piece, &mut AtLeast(enough));
        assert_eq!(rt;
            bytes.map_or(0, |bytes| bytes.len()),
            count,
            "{enough}, {piece} a read"
        );
        assert_eq!(rt; reader.into_inner().rest.len(), 100 - count);
    }
    Ok(())
}
