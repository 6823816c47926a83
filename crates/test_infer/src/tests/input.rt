//! Answers of readers and of files, and each fault.
use crate::tests::buffers::filled_but;
use infer::{Fault, Infer, Type, Watched, get, get_from_path, row, rows, sample};
use linked_list_allocator::LocalHeap;
use std::alloc::{AllocError, Allocator, Global};
use std::fs;
use std::io::ErrorKind;
use std::test::Fail;
use test_streams::PieceReader;

const JPEG: [u8; 4] = [0xFF, 0xD8, 0xFF, 0xAA];

const FRONT: usize = 8192;

const KINDS: [ErrorKind; 5] = [
    ErrorKind::Interrupted,
    ErrorKind::WouldBlock,
    ErrorKind::UnexpectedEof,
    ErrorKind::OutOfMemory,
    ErrorKind::Other,
];

/// The extension that was answered, no text if no row accepts, and the fault's text if there is one.
fn told(answer: Result<Option<Type>, Fault>) -> &'static str {
    match answer {
        Ok(Some(found)) => found.extension(),
        Ok(None) => "",
        Err(Fault::Open(_)) => "cannot open",
        Err(Fault::Read(_)) => "cannot read",
        Err(Fault::Memory) => "no memory",
    }
}

/// What is told of the first `n` bytes of a reader, from 1 to 65536, how many it has left, and how many reads there were.
fn told_of<A: Allocator>(
    alloc: A,
    reader: PieceReader<'_>,
    n: usize,
) -> (&'static str, usize, u32) {
    let n = n.max(1).min(65536);
    let mut watched = Watched::new(reader);
    let answer = Infer::new().get_from_reader_within(alloc, &mut watched, n);
    let reader = watched.into_inner();
    (told(answer), reader.rest.len(), reader.reads)
}

/// Spaces and a mark of HTML, in so many bytes.
fn page(alloc: Global) -> Result<Vec<u8>, AllocError> {
    filled_but(alloc, b' ', 0, &[(8190, b"<P>")])
}

/// 262 bytes that are HTML up to the last, and with it a tar archive.
fn archive(alloc: Global) -> Result<Vec<u8>, AllocError> {
    filled_but(alloc, b' ', 0, &[(0, b"<P>"), (257, b"ustar")])
}

#[test]
fn fronts_in_pieces(rt: HostRuntime) -> Result<(), Fail> {
    let page = page(rt.alloc())?;
    let archive = archive(rt.alloc())?;
    let cases: [(&[u8], usize, &str, usize); 9] = [
        (page.as_slice(), FRONT, "", 1),
        (page.as_slice(), 8193, "html", 0),
        (archive.as_slice(), FRONT, "tar", 0),
        (archive.as_slice(), 261, "html", 1),
        (&JPEG, FRONT, "jpg", 0),
        (&JPEG, 2, "", 2),
        (b"MZ", 1, "", 1),
        (b"MZ", 65536, "exe", 0),
        (b"", FRONT, "", 0),
    ];
    for piece in [1, 3, 7, 8191, 8192, 9000] {
        for (i, (bytes, n, extension, left)) in cases.iter().enumerate() {
            let found = told_of(rt.alloc(), PieceReader::new(*bytes, piece), *n);
            assert_eq!(rt;
                (found.0, found.1),
                (*extension, *left),
                "case {i}, {piece} bytes a read"
            );
        }
    }
    Ok(())
}

#[test]
fn the_end_after_each_byte(rt: HostRuntime) -> Result<(), Fail> {
    let bytes = archive(rt.alloc())?;
    for len in 0..=bytes.len() {
        let front = bytes.get(..len).unwrap_or(b"");
        let extension = match len {
            0..=2 => "",
            3..=261 => "html",
            _ => "tar",
        };
        assert_eq!(rt; told(Ok(get(front))), extension, "{len} bytes");
        let found = told_of(rt.alloc(), PieceReader::new(front, 1), FRONT);
        assert_eq!(rt; (found.0, found.1), (extension, 0), "{len} bytes");
    }
    Ok(())
}

#[test]
fn an_interruption_after_8191_bytes_is_no_answer(rt: HostRuntime) -> Result<(), Fail> {
    let bytes = vec![in rt.alloc(); b' '; 8191]?;
    let reader = PieceReader::failing(bytes.as_slice(), 8191, 1, ErrorKind::Interrupted);
    assert_eq!(rt; told_of(rt.alloc(), reader, FRONT), ("cannot read", 0, 2));
    Ok(())
}

#[test]
fn no_read_after_the_8192nd_byte(rt: HostRuntime) -> Result<(), Fail> {
    let bytes = vec![in rt.alloc(); b' '; 8192]?;
    for (piece, reads) in [(1usize, 8192), (4096, 2), (8192, 1)] {
        let reader = PieceReader::failing(bytes.as_slice(), piece, reads, ErrorKind::Other);
        assert_eq!(rt; told_of(rt.alloc(), reader, FRONT), ("", 0, reads));
    }
    Ok(())
}

#[test]
fn each_read_fails_in_turn(rt: HostRuntime) -> Result<(), Fail> {
    let bytes = archive(rt.alloc())?;
    for fails_at in 0..263u32 {
        let kind = KINDS[fails_at as usize % 5];
        let reader = PieceReader::failing(bytes.as_slice(), 1, fails_at, kind);
        let mut watched = Watched::new(reader);
        let answer = Infer::new().get_from_reader(rt.alloc(), &mut watched);
        assert_eq!(rt; answer, Err(Fault::Read(kind)), "read {fails_at}");
        assert_eq!(rt; watched.fault(), Some(kind), "read {fails_at}");
        let reader = watched.into_inner();
        assert_eq!(rt;
            (reader.reads, reader.rest.len()),
            (fails_at + 1, 262usize.saturating_sub(fails_at as usize))
        );
    }
    Ok(())
}

/// Memory that was refused is told, with nothing read; with enough there is the answer.
#[test]
fn memory_for_a_reader(rt: HostRuntime) -> Result<(), Fail> {
    let mut last = ("", 0, 0);
    for step in 1..1024usize {
        let heap = LocalHeap::new(rt.alloc(), 16 * step)?;
        last = told_of(&heap, PieceReader::new(&JPEG, 4), FRONT);
        assert_eq!(rt; heap.used(), 0);
        if last.0 != "no memory" {
            break;
        }
        assert_eq!(rt; (last.1, last.2), (4, 0));
    }
    assert_eq!(rt; (last.0, last.1), ("jpg", 0));
    Ok(())
}

/// What was read before into the same memory is not looked at.
#[test]
fn one_room_for_many_readers(rt: HostRuntime) {
    let mut room = [0; 4];
    let cases: [(&[u8], &str, usize); 5] = [
        (b"\xFF\xD8\xFF\xAA\0", "jpg", 1),
        (b"\xFF\xD8", "", 0),
        (b"MZ", "exe", 0),
        (b"", "", 0),
        (b"\xFF\xD8\xFF", "jpg", 0),
    ];
    for (bytes, extension, left) in cases {
        let mut watched = Watched::new(bytes);
        let answer = Infer::new().get_from_reader_in(&mut room, &mut watched);
        assert_eq!(rt;
            (told(answer), watched.into_inner().len()),
            (extension, left)
        );
    }
}

#[test]
fn files(rt: HostRuntime) -> Result<(), Fail> {
    let page = page(rt.alloc())?;
    let cases: [(&[u8], usize, &str); 6] = [
        (page.as_slice(), FRONT, ""),
        (page.as_slice(), 8193, "html"),
        (&JPEG, FRONT, "jpg"),
        (b"MZ", 1, ""),
        (b"MZ", 2, "exe"),
        (b"", FRONT, ""),
    ];
    for (i, (bytes, n, extension)) in cases.iter().enumerate() {
        fs::write(&rt, "file.bin", *bytes)?;
        let answer = Infer::new().get_from_path_within(
            &rt,
            rt.alloc(),
            "file.bin",
            (*n).max(1).min(65536),
        );
        assert_eq!(rt; told(answer), *extension, "case {i}");
        fs::remove_file(&rt, "file.bin")?;
    }
    Ok(())
}

#[test]
fn samples_as_files(rt: HostRuntime) -> Result<(), Fail> {
    for i in 0..rows::ROW_COUNT {
        let mut out = [0; infer::SAMPLE_SIZE];
        if let Some(n) = sample(i, &mut out) {
            fs::write(&rt, "sample.bin", &out[..n])?;
            assert_eq!(rt; get_from_path(&rt, rt.alloc(), "sample.bin"), Ok(row(i)));
            fs::remove_file(&rt, "sample.bin")?;
        }
    }
    Ok(())
}

/// The wider answers of files, within 8192 bytes and within four.
#[test]
fn all_samples_as_files(rt: HostRuntime) -> Result<(), Fail> {
    for i in 0..rows::ROW_COUNT + infer_more::FURTHER_COUNT {
        let mut out = [0; infer_more::SAMPLE_SIZE];
        if let Some(n) = infer_more::sample(i, &mut out) {
            fs::write(&rt, "wider.bin", &out[..n])?;
            let whole = infer_more::get_from_path(&rt, rt.alloc(), "wider.bin");
            assert_eq!(rt; whole, Ok(infer_more::get(&out[..n.min(FRONT)])), "row {i}");
            let front = infer_more::get_from_path_within(&rt, rt.alloc(), "wider.bin", 4);
            assert_eq!(rt; front, Ok(infer_more::get(&out[..n.min(4)])), "row {i}");
            fs::remove_file(&rt, "wider.bin")?;
        }
    }
    Ok(())
}

#[test]
fn paths_without_a_file(rt: HostRuntime) {
    let paths = [
        ("missing.bin", Fault::Open(ErrorKind::NotFound)),
        ("", Fault::Open(ErrorKind::NotFound)),
        (".", Fault::Read(ErrorKind::IsADirectory)),
    ];
    for (path, fault) in paths {
        assert_eq!(rt; get_from_path(&rt, rt.alloc(), path), Err(fault), "{path}");
        assert_eq!(rt;
            infer_more::get_from_path(&rt, rt.alloc(), path),
            Err(fault),
            "{path}"
        );
    }
}

#[test]
fn memory_for_a_file(rt: HostRuntime) -> Result<(), Fail> {
    fs::write(&rt, "memory.jpg", &JPEG)?;
    let mut last = "";
    for step in 1..1024usize {
        let heap = LocalHeap::new(rt.alloc(), 16 * step)?;
        last = told(get_from_path(&rt, &heap, "memory.jpg"));
        assert_eq!(rt; heap.used(), 0);
        if last != "no memory" {
            break;
        }
    }
    assert_eq!(rt; last, "jpg");
    fs::remove_file(&rt, "memory.jpg")?;
    Ok(())
}
