//! Which bytes decide, on buffers worked by hand from the signatures: what has to be named, and what may not.
use crate::tests::buffers::filled_but;
use infer::rows;
use infer_evidence::{Evidence, Range};
use std::test::Fail;

/// Bytes of a buffer, from the first place to before the second.
type Bytes = (usize, usize);

/// A buffer of zeros but for the texts, and what decides it: each byte of `held`, of each of `some` a byte, of `free` none,
/// the length without which another answer fits, and whether just the length that it has is needed.
#[derive(Clone, Copy)]
struct Case<'a> {
    texts: &'a [(usize, &'a [u8])],
    len: usize,
    answer: Option<usize>,
    held: &'a [Bytes],
    some: &'a [Bytes],
    free: &'a [Bytes],
    least: usize,
    exact: bool,
}

/// A byte of each stands before the archive "tar" or the document "pdf" is the answer: where a book has "BOOKMOBI", a WebP
/// image "WEBP", and a video "ftyp", or "mdat" as its second box.
const NONE_BEFORE_TAR: [Bytes; 4] = [(4, 8), (8, 12), (12, 16), (60, 68)];

const NONE_BEFORE_PDF: [Bytes; 5] = [(4, 8), (8, 12), (12, 16), (60, 68), (257, 262)];

/// Whether a byte of the range stands there.
fn has(range: &Range, place: usize) -> bool {
    for k in 0..range.len {
        if place_in(range, k) == place {
            return true;
        }
    }
    false
}

/// Where a byte of the range stands.
fn place_in(range: &Range, k: usize) -> usize {
    let after = k.saturating_mul(range.step as usize);
    range.place.saturating_add(after)
}

fn is_named(evidence: &Evidence, place: usize) -> bool {
    for range in evidence.ranges() {
        if has(range, place) {
            return true;
        }
    }
    false
}

/// How many of the bytes are named.
fn named(evidence: &Evidence, bytes: &Bytes) -> usize {
    let mut count = 0;
    for place in bytes.0..bytes.1 {
        if is_named(evidence, place) && count < bytes.1 - bytes.0 {
            count += 1;
        }
    }
    count
}

/// The length of the shortest buffer that has all that is asked for.
fn needed(evidence: &Evidence) -> usize {
    let mut needed = evidence.least();
    for range in evidence.ranges() {
        if range.len > 0 {
            needed = needed.max(place_in(range, range.len - 1).saturating_add(1));
        }
    }
    needed
}

/// What is wrong with the evidence, if something is.
fn fault(evidence: &Evidence, case: &Case) -> &'static str {
    for bytes in case.held {
        if named(evidence, bytes) < bytes.1 - bytes.0 {
            return "a byte is not named";
        }
    }
    for bytes in case.some {
        if named(evidence, bytes) == 0 {
            return "none of some bytes is named";
        }
    }
    for bytes in case.free {
        if named(evidence, bytes) > 0 {
            return "a byte that decides nothing is named";
        }
    }
    if needed(evidence) < case.least || evidence.least() > case.len {
        return "another least length";
    }
    if evidence.is_exact() != case.exact {
        return "the length is needed, or is not";
    }
    ""
}

const NONE: Case = Case {
    texts: &[],
    len: 300,
    answer: None,
    held: &[],
    some: &[],
    free: &[],
    least: 0,
    exact: false,
};

/// Buffers whose first row asks for bytes at fixed places, and no row before it for more. A book of Mobipocket comes before
/// most: it may begin with anything, and has "BOOKMOBI" at 60.
#[test]
fn few_rows_before(rt: HostRuntime) -> Result<(), Fail> {
    let cases: [Case; 6] = [
        Case {
            texts: &[(0, b"\x89PNG")],
            answer: Some(rows::PNG),
            held: &[(0, 4)],
            some: &[(60, 68)],
            free: &[(4, 60), (68, 300)],
            least: 61,
            ..NONE
        },
        // So short it is no book.
        Case {
            texts: &[(0, b"\x89PNG")],
            len: 60,
            answer: Some(rows::PNG),
            held: &[(0, 4)],
            free: &[(4, 60)],
            exact: true,
            ..NONE
        },
        Case {
            texts: &[(0, b"\xFF\xD8\xFF\xE0")],
            answer: Some(rows::JPEG),
            held: &[(0, 3)],
            some: &[(60, 68)],
            free: &[(3, 60), (68, 300)],
            least: 61,
            ..NONE
        },
        Case {
            texts: &[(0, b"GIF89a")],
            answer: Some(rows::GIF),
            held: &[(0, 3)],
            some: &[(60, 68)],
            free: &[(3, 60), (68, 300)],
            least: 61,
            ..NONE
        },
        // It is the second row, and the first begins otherwise.
        Case {
            texts: &[(0, b"\x7FELF")],
            len: 64,
            answer: Some(rows::ELF),
            held: &[(0, 4)],
            free: &[(4, 64)],
            least: 53,
            ..NONE
        },
        // WebAssembly has 61 at 1, and an object file that begins with 00 has 02 there.
        Case {
            texts: &[(60, b"BOOKMOBI")],
            len: 200,
            answer: Some(rows::MOBI),
            held: &[(1, 2), (60, 68)],
            free: &[(4, 60), (68, 200)],
            least: 68,
            ..NONE
        },
    ];
    for (i, case) in cases.iter().enumerate() {
        let buf = filled_but(rt.alloc(), 0, case.len, case.texts)?;
        let mut evidence = Evidence::new();
        assert!(rt;
            infer::evidence(buf.as_slice(), &mut evidence) == case.answer,
            "case {i}"
        );
        assert_eq!(rt; fault(&evidence, case), "", "case {i}");
    }
    Ok(())
}

/// Archives and documents, before which rows are ruled out at many places.
#[test]
fn many_rows_before(rt: HostRuntime) -> Result<(), Fail> {
    let cases: [Case; 4] = [
        // An empty archive, 22 bytes: too short for a book or a tar archive.
        Case {
            texts: &[(0, b"PK\x05\x06")],
            len: 22,
            answer: Some(rows::ZIP),
            held: &[(0, 4)],
            some: &[(4, 8), (8, 12), (12, 16)],
            free: &[(16, 22)],
            exact: true,
            ..NONE
        },
        Case {
            texts: &[(0, b"%PDF-1.7\n")],
            len: 2000,
            answer: Some(rows::PDF),
            held: &[(0, 4)],
            some: &NONE_BEFORE_PDF,
            free: &[(16, 60), (68, 257), (262, 2000)],
            least: 258,
            ..NONE
        },
        Case {
            texts: &[(0, b"a.txt"), (257, b"ustar")],
            len: 1536,
            answer: Some(rows::TAR),
            held: &[(257, 262)],
            some: &NONE_BEFORE_TAR,
            free: &[(16, 60), (68, 257), (262, 1536)],
            least: 262,
            ..NONE
        },
        Case {
            texts: &[(0, b"\x1F\x8B\x08")],
            answer: Some(rows::GZ),
            held: &[(0, 3)],
            some: &NONE_BEFORE_PDF,
            free: &[(16, 60), (68, 257), (262, 300)],
            least: 258,
            ..NONE
        },
    ];
    for (i, case) in cases.iter().enumerate() {
        let buf = filled_but(rt.alloc(), 0, case.len, case.texts)?;
        let mut evidence = Evidence::new();
        assert!(rt;
            infer::evidence(buf.as_slice(), &mut evidence) == case.answer,
            "case {i}"
        );
        assert_eq!(rt; fault(&evidence, case), "", "case {i}");
    }
    Ok(())
}

/// Buffers of no type: they may have "%PDF" nowhere in the first 1024 bytes, so a short one decides by its length too.
#[test]
fn no_row(rt: HostRuntime) -> Result<(), Fail> {
    let cases: [Case; 4] = [
        Case {
            len: 0,
            exact: true,
            ..NONE
        },
        Case {
            texts: &[(0, b"x")],
            len: 1,
            exact: true,
            ..NONE
        },
        Case {
            exact: true,
            some: &NONE_BEFORE_PDF,
            held: &[(2, 3)],
            ..NONE
        },
        Case {
            len: 3000,
            some: &NONE_BEFORE_PDF,
            held: &[(2, 3)],
            free: &[(1024, 3000)],
            least: 1021,
            ..NONE
        },
    ];
    for (i, case) in cases.iter().enumerate() {
        let buf = filled_but(rt.alloc(), 0, case.len, case.texts)?;
        let mut evidence = Evidence::new();
        assert!(rt;
            infer::evidence(buf.as_slice(), &mut evidence).is_none(),
            "case {i}"
        );
        assert_eq!(rt; fault(&evidence, case), "", "case {i}");
        for place in 0..case.len.min(1024) {
            let text = (place, place + 4);
            assert!(rt;
                text.1 > case.len.min(1024) || named(&evidence, &text) > 0,
                "case {i}, {place}"
            );
        }
    }
    Ok(())
}

/// The place of the first byte, how many they are, and how far each other stands after the one before.
type Places = (usize, usize, u32);

fn is_of(range: &Range, places: Places) -> bool {
    (range.place, range.len, range.step) == places
}

/// Zeros but for the texts, and the ranges by which "%PDF" stands nowhere in the first 1024 bytes. The byte at 3 tells it of
/// the places 0 to 3 if it is none of "%PDF". Otherwise the one before tells it of fewer places, and so on, from each place of
/// which it is not told yet.
#[derive(Clone, Copy)]
struct Searched<'a> {
    texts: &'a [(usize, &'a [u8])],
    len: usize,
    ranges: &'a [Places],
}

const SEARCHES: [Searched; 9] = [
    Searched {
        texts: &[],
        len: 3,
        ranges: &[],
    },
    Searched {
        texts: &[],
        len: 10,
        ranges: &[(3, 2, 4)],
    },
    Searched {
        texts: &[],
        len: 300,
        ranges: &[(3, 75, 4)],
    },
    Searched {
        texts: &[],
        len: 3000,
        ranges: &[(3, 256, 4)],
    },
    // The byte at 103 may be that of a text at 100. The one before tells it of 100 to 102.
    Searched {
        texts: &[(103, b"F")],
        len: 300,
        ranges: &[(3, 25, 4), (102, 50, 4)],
    },
    // Of place 100 the byte at 101 tells it alone.
    Searched {
        texts: &[(100, b"%%%%")],
        len: 300,
        ranges: &[(3, 25, 4), (101, 2, 3), (108, 48, 4)],
    },
    // It would end after the first 1024 bytes.
    Searched {
        texts: &[(1022, b"%PDF")],
        len: 3000,
        ranges: &[(3, 255, 4), (1021, 1, 1)],
    },
    Searched {
        texts: &[(0, b"%%%%%%%%%%%%")],
        len: 12,
        ranges: &[(1, 9, 1)],
    },
    // D at 1, F at 4, D at 5, F at 8.
    Searched {
        texts: &[(0, b"FDP%FDP%FDP%")],
        len: 12,
        ranges: &[(1, 2, 3), (5, 2, 3)],
    },
];

/// How many ranges the row has, or none if they are others than these.
fn are_of(evidence: &Evidence, row: usize, wanted: &[Places]) -> Option<usize> {
    let mut count = 0;
    for range in evidence.ranges() {
        if range.row() == Some(row) {
            if count >= wanted.len() || !is_of(range, wanted[count]) {
                return None;
            }
            count += 1;
        }
    }
    Some(count)
}

/// The ranges of a search that finds nothing.
#[test]
fn searches(rt: HostRuntime) -> Result<(), Fail> {
    for (i, case) in SEARCHES.iter().enumerate() {
        let buf = filled_but(rt.alloc(), 0, case.len, case.texts)?;
        let mut evidence = Evidence::new();
        assert!(rt;
            infer::evidence(buf.as_slice(), &mut evidence).is_none(),
            "case {i}"
        );
        assert!(rt;
            are_of(&evidence, rows::PDF, case.ranges) == Some(case.ranges.len()),
            "case {i}"
        );
        assert!(rt; evidence.is_exact() == (case.len < 1024), "case {i}");
    }
    Ok(())
}

/// A text that is found is told by its first place, and the length by its end.
#[test]
fn found(rt: HostRuntime) -> Result<(), Fail> {
    let buf = filled_but(rt.alloc(), 0, 2000, &[(700, b"%PDF"), (800, b"%PDF")])?;
    let mut evidence = Evidence::new();
    assert!(rt; infer::evidence(buf.as_slice(), &mut evidence) == Some(rows::PDF));
    assert!(rt; are_of(&evidence, rows::PDF, &[(700, 4, 1)]) == Some(1));
    assert!(rt; evidence.least() == 704 && !evidence.is_exact());
    Ok(())
}

/// Ranges that are asked for in this order, by place and length; how many bytes at the front are found to be asked for; and
/// places that are found to be, and that are not.
type Asked<'a> = (&'a [(usize, usize)], usize, &'a [usize], &'a [usize]);

const ASKED: [Asked<'static>; 5] = [
    (&[], 0, &[], &[0, 63, 64]),
    (&[(0, 1)], 1, &[0], &[1]),
    (&[(0, 1), (0, 6)], 6, &[0, 5], &[6]),
    (&[(2, 3)], 0, &[2, 4], &[1, 5]),
    (&[(100, 2)], 0, &[100], &[99, 102]),
];

fn asking_for(ranges: &[(usize, usize)]) -> Evidence {
    let mut evidence = Evidence::new();
    for (place, len) in ranges {
        evidence.ask(Range::new(*place, *len, None));
    }
    evidence
}

/// How many of the places are found to be asked for.
fn found_again(evidence: &Evidence, places: &[usize]) -> usize {
    let mut count = 0;
    for place in places {
        if evidence.is_asked(*place) && count < places.len() {
            count += 1;
        }
    }
    count
}

/// An evidence finds what it asks for already. No clause says so: one that finds nothing is right, and asks again.
#[test]
fn asked_already(rt: HostRuntime) -> Result<(), Fail> {
    for (i, (ranges, front, asked, free)) in ASKED.iter().enumerate() {
        let evidence = asking_for(ranges);
        assert_eq!(rt; evidence.front(), *front, "case {i}");
        assert_eq!(rt; found_again(&evidence, asked), asked.len(), "case {i}");
        assert_eq!(rt; found_again(&evidence, free), 0, "case {i}");
    }
    Ok(())
}

/// The ranges of a PNG image, each with its row: its own, that of the book, and the first byte.
#[test]
fn rows_of_ranges(rt: HostRuntime) -> Result<(), Fail> {
    let buf = filled_but(rt.alloc(), 0, 300, &[(0, b"\x89PNG")])?;
    let mut evidence = Evidence::new();
    infer::evidence(buf.as_slice(), &mut evidence);
    let mut own = false;
    let mut book = false;
    for range in evidence.ranges() {
        match range.row() {
            None => assert!(rt; is_of(range, (0, 1, 1))),
            Some(rows::PNG) => own = is_of(range, (0, 4, 1)),
            Some(rows::MOBI) => book = is_of(range, (60, 1, 1)),
            _ => assert!(rt; false, "another row"),
        }
    }
    assert!(rt; own && book);
    assert_eq!(rt; evidence.wanted(), evidence.ranges().len());
    Ok(())
}

/// The number of the further row with this extension.
fn further(extension: &str) -> Option<usize> {
    for i in rows::ROW_COUNT..rows::ROW_COUNT + infer_more::FURTHER_COUNT {
        if infer_more::row(i).map(|it| it.extension()) == Some(extension) {
            return Some(i);
        }
    }
    None
}

/// Wider answers: a message of PGP, a public key, of which the place where a message has another word rules it out, and a
/// PNG image with no animation, whose second chunk is of the image.
#[test]
fn wider_answers(rt: HostRuntime) -> Result<(), Fail> {
    let cases: [Case; 3] = [
        Case {
            texts: &[(0, b"-----BEGIN PGP MESSAGE-----\n")],
            answer: further("pgp"),
            held: &[(0, 27)],
            free: &[(27, 300)],
            least: 27,
            ..NONE
        },
        Case {
            texts: &[(0, b"-----BEGIN PGP PUBLIC KEY BLOCK-----\n")],
            answer: further("asc"),
            held: &[(0, 36)],
            free: &[(36, 300)],
            least: 36,
            ..NONE
        },
        Case {
            texts: &[
                (0, b"\x89PNG\r\n\x1A\n\0\0\0\x0DIHDR"),
                (33, b"\0\0\0\x04IDAT"),
            ],
            answer: Some(rows::PNG),
            held: &[(0, 4), (8, 12)],
            some: &[(12, 16), (37, 41), (60, 68)],
            free: &[(41, 60), (68, 300)],
            least: 61,
            ..NONE
        },
    ];
    for (i, case) in cases.iter().enumerate() {
        let buf = filled_but(rt.alloc(), 0, case.len, case.texts)?;
        let mut evidence = Evidence::new();
        assert!(rt;
            infer_more::evidence(buf.as_slice(), &mut evidence) == case.answer,
            "case {i}"
        );
        assert_eq!(rt; fault(&evidence, case), "", "case {i}");
    }
    Ok(())
}

/// The row of a further row's range is its number among all.
#[test]
fn further_rows_of_ranges(rt: HostRuntime) -> Result<(), Fail> {
    let text = b"-----BEGIN PGP PUBLIC KEY BLOCK-----\n";
    let mut evidence = Evidence::new();
    let found = infer_more::evidence(text, &mut evidence);
    let mut own = false;
    // Its own bytes rule out that it is another message.
    let mut others = false;
    for range in evidence.ranges() {
        own = own || range.row() == found && is_of(range, (0, 36, 1));
        others = others || range.row() == further("pgp");
    }
    assert!(rt; found.is_some() && own && !others);
    Ok(())
}
