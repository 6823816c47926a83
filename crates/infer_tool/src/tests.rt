//! What no clause says: that calls succeed, what a failed write leaves, how many writes there are, and what is
//! asked of memory. Lines, statuses and words are asked of the program as a process, by `process-tests`.
use crate::lines::run_lines;
use crate::report::{report, run_path, run_path_within, run_reader};
use crate::run::run;
use infer::{FRONT, Fault, Watched, get};
use infer_lines::{Outcome, Output, WatchedWriter};
use linked_list_allocator::LocalHeap;
use std::alloc::AllocError;
use std::fs;
use std::io::ErrorKind;
use std::process::Abort;
use std::rt::Files;
use std::test::Fail;
use test_streams::{PieceReader, PieceWriter};

mod definitions;

const JPEG: [u8; 4] = [0xFF, 0xD8, 0xFF, 0xAA];

/// Writers of a run, each with what it took.
type Written = (PieceWriter, PieceWriter);

fn words_of<R: AllocGlobal>(rt: &R, names: &[&str]) -> Result<Vec<String>, AllocError> {
    let mut words = Vec::new(rt.alloc());
    for name in names {
        words.push(String::from_str(rt.alloc(), *name)?)?;
    }
    Ok(words)
}

/// Where a run writes that has these writers.
fn output_over<'a>(
    out: &'a mut PieceWriter,
    err: &'a mut PieceWriter,
) -> Output<'a, PieceWriter, PieceWriter> {
    Output {
        out: WatchedWriter::new(out),
        err: WatchedWriter::new(err),
    }
}

/// A run without buffers, whose writes fail at one.
fn over<R: Files + AllocGlobal>(
    rt: &R,
    words: &[String],
    piece: usize,
    fails_at: u32,
) -> (u8, Written) {
    let (mut out, mut err) = (PieceWriter::failing(piece, fails_at), PieceWriter::new(512));
    let outcome = run(rt, rt.alloc(), words, b"".as_slice(), &mut out, &mut err);
    (outcome.status(), (out, err))
}

/// A run through buffers from a heap of that size, whose writes fail at one, and whether both writers are given back.
fn through<R: Files + AllocGlobal + Abort>(
    rt: &R,
    words: &[String],
    block: usize,
    fails_at: u32,
) -> Result<(u8, (bool, bool), Written), Fail> {
    let (mut out, mut err) = (PieceWriter::failing(512, fails_at), PieceWriter::new(512));
    let input = &mut Watched::new(b"".as_slice());
    let (outcome, given) = run_lines(rt, rt.alloc(), words, input, block, &mut out, &mut err)?;
    let given = (given.0.is_some(), given.1.is_some());
    Ok((outcome.status(), given, (out, err)))
}

/// Faults are reported and later files are asked, whichever write fails.
#[test]
fn each_write_fails_in_turn(rt: HostRuntime) -> Result<(), Fail> {
    fs::write(&rt, "e.jpg", &JPEG)?;
    fs::write(&rt, "f.bin", b"")?;
    let words = words_of(&rt, &["e.jpg", "f.bin", "missing.bin"])?;
    let found = words_of(&rt, &["e.jpg", "f.bin"])?;
    let whole = b"e.jpg: image/jpeg jpg\nf.bin: unknown\n".as_slice();
    for fails_at in 0..60u32 {
        let (status, (out, err)) = over(&rt, found.as_slice(), 1, fails_at);
        assert_eq!(rt;
            status,
            if out.has_failed() { 2 } else { 1 },
            "write {fails_at}"
        );
        assert_eq!(rt; out.taken() == whole, !out.has_failed(), "write {fails_at}");
        assert!(rt; err.taken().is_empty());
        let (status, (_, err)) = over(&rt, words.as_slice(), 5, fails_at);
        assert_eq!(rt; status, 2);
        assert_eq!(rt; err.taken(), b"missing.bin: cannot open\n".as_slice());
        let (_, given, (out, err)) = through(&rt, words.as_slice(), 0, fails_at)?;
        assert_eq!(rt; given, (!out.has_failed(), true), "write {fails_at}");
        assert!(rt; whole.starts_with(out.taken()), "write {fails_at}");
        assert_eq!(rt; err.taken(), b"missing.bin: cannot open\n".as_slice());
    }
    fs::remove_file(&rt, "e.jpg")?;
    fs::remove_file(&rt, "f.bin")?;
    Ok(())
}

/// Nothing is written after a write that failed, though the buffers still hold what it did not take.
#[test]
fn nothing_follows_a_failed_write(rt: HostRuntime) -> Result<(), Fail> {
    fs::write(&rt, "i.jpg", &JPEG)?;
    let words = words_of(&rt, &["i.jpg", "i.jpg", "missing.bin"])?;
    for block in [0, 16, 4096] {
        for fails_at in 0..3u32 {
            let (status, given, (out, err)) = through(&rt, words.as_slice(), block, fails_at)?;
            assert_eq!(rt; (status, given), (2, (!out.has_failed(), true)));
            if out.has_failed() {
                assert_eq!(rt; out.writes, fails_at + 1, "{block}");
            }
            assert_eq!(rt; err.taken(), b"missing.bin: cannot open\n".as_slice());
        }
    }
    fs::remove_file(&rt, "i.jpg")?;
    Ok(())
}

/// A block holds lines of several files, and is written out before a fault is reported and at the end.
#[test]
fn lines_in_blocks(rt: HostRuntime) -> Result<(), Fail> {
    fs::write(&rt, "h.jpg", &JPEG)?;
    let words = words_of(&rt, &["h.jpg", "h.jpg", "missing.bin", "h.jpg"])?;
    let lines = b"h.jpg: image/jpeg jpg\n".repeat(rt.alloc(), 3)?;
    for (block, writes) in [(0, 3), (60, 2), (30, 3), (4096, 2)] {
        let (status, given, (out, err)) = through(&rt, words.as_slice(), block, 9)?;
        assert_eq!(rt; status, 2);
        assert_eq!(rt; given, (true, true));
        assert_eq!(rt; out.taken(), lines.as_slice(), "{block}");
        assert_eq!(rt; (out.writes, err.writes), (writes, 1), "{block}");
        assert_eq!(rt; err.taken(), b"missing.bin: cannot open\n".as_slice());
    }
    fs::remove_file(&rt, "h.jpg")?;
    Ok(())
}

/// A run over a reader and one over a path, with memory that grows until it is enough. Refused memory is reported, and then
/// nothing was read.
#[test]
fn each_request_is_refused_in_turn(rt: HostRuntime) -> Result<(), Fail> {
    fs::write(&rt, "refused.jpg", &JPEG)?;
    for step in 1..1024usize {
        let heap = LocalHeap::new(rt.alloc(), 16 * step)?;
        let (mut out, mut err) = (PieceWriter::new(512), PieceWriter::new(512));
        let mut reader = PieceReader::new(&JPEG, 4);
        let read = run_reader(&heap, "-", &mut reader, &mut out, &mut err).status();
        let opened = run_path(&rt, &heap, "refused.jpg", &mut out, &mut err).status();
        assert_eq!(rt; (heap.used(), opened), (0, read));
        if read == 0 {
            let lines = b"-: image/jpeg jpg\nrefused.jpg: image/jpeg jpg\n".as_slice();
            assert_eq!(rt; out.taken(), lines);
            assert!(rt; err.taken().is_empty());
            fs::remove_file(&rt, "refused.jpg")?;
            return Ok(());
        }
        assert_eq!(rt; (read, reader.reads), (2, 0));
        assert!(rt; out.taken().is_empty());
        assert_eq!(rt;
            err.taken(),
            b"-: no memory\nrefused.jpg: no memory\n".as_slice()
        );
    }
    Err(Fail::from("no memory was enough"))
}

/// Memory that was refused is asked for again at the next file, and kept from then on.
#[test]
fn one_room_for_all_files(rt: HostRuntime) -> Result<(), Fail> {
    fs::write(&rt, "g.jpg", &JPEG)?;
    let heap = LocalHeap::new(rt.alloc(), 16384)?;
    let (mut out, mut err) = (PieceWriter::new(512), PieceWriter::new(512));
    let mut room = Vec::new(&heap);
    let steps = [
        (12288, "missing.bin"),
        (12288, "g.jpg"),
        (0, "g.jpg"),
        (7168, "g.jpg"),
    ];
    for (taken, path) in steps {
        let others = vec![in &heap; 0u8; taken]?;
        let output = &mut output_over(&mut out, &mut err);
        let outcome = run_path_within(&rt, &mut room, path, FRONT, output);
        assert_eq!(rt; outcome.status(), if taken == 12288 { 2 } else { 0 });
        drop(others);
    }
    let lines = b"g.jpg: image/jpeg jpg\ng.jpg: image/jpeg jpg\n".as_slice();
    assert_eq!(rt; out.taken(), lines);
    assert_eq!(rt;
        err.taken(),
        b"missing.bin: cannot open\ng.jpg: no memory\n".as_slice()
    );
    fs::remove_file(&rt, "g.jpg")?;
    Ok(())
}

/// Over writers that are not watched, no clause says which fault is reported.
#[test]
fn faults_over_plain_writers(rt: HostRuntime) -> Result<(), Fail> {
    let (mut out, mut err) = (PieceWriter::new(512), PieceWriter::new(512));
    let (one, other) = (failing(), failing());
    let outcomes = [
        report("a", Err(Fault::Memory), &mut out, &mut err),
        run_reader(rt.alloc(), "b", one, &mut out, &mut err),
        run_path(&rt, rt.alloc(), "missing.bin", &mut out, &mut err),
        run(&rt, rt.alloc(), &[], other, &mut out, &mut err),
    ];
    for outcome in outcomes {
        assert_eq!(rt; outcome.status(), 2);
    }
    let lines =
        b"a: no memory\nb: cannot read\nmissing.bin: cannot open\n-: cannot read\n".as_slice();
    assert_eq!(rt; err.taken(), lines);
    assert!(rt; out.taken().is_empty());
    Ok(())
}

/// Over a reader that is not watched, no clause says how often it is read: the read after a final verdict would fail.
#[test]
fn a_plain_reader_is_read_no_further(rt: HostRuntime) {
    let (mut out, mut err) = (PieceWriter::new(512), PieceWriter::new(512));
    let reader = PieceReader::failing(&[0; 2048], 1024, 1, ErrorKind::Other);
    let outcome = run_reader(rt.alloc(), "-", reader, &mut out, &mut err);
    assert_eq!(rt; outcome.status(), 1);
    assert_eq!(rt; out.taken(), b"-: unknown\n".as_slice());
}

/// A reader of which the first read fails.
fn failing() -> PieceReader<'static> {
    PieceReader::failing(&JPEG, 4, 0, ErrorKind::Other)
}

/// The last flush counts, the texts of `Debug` are the names, and `report` succeeds.
#[test]
fn flush_and_texts(rt: HostRuntime) -> Result<(), Fail> {
    let (mut out, mut err) = (PieceWriter::without_flush(), PieceWriter::new(512));
    let input = &mut Watched::new(JPEG.as_slice());
    let (outcome, given) = run_lines(&rt, rt.alloc(), &[], input, 4096, &mut out, &mut err)?;
    assert_eq!(rt; (outcome.status(), given.0.is_none()), (2, true));
    assert_eq!(rt; report("-", Ok(get(&JPEG)), &mut out, &mut err).status(), 0);
    assert_eq!(rt;
        out.taken(),
        b"-: image/jpeg jpg\n-: image/jpeg jpg\n".as_slice()
    );
    let all = [Outcome::Known, Outcome::Unknown, Outcome::Failed];
    assert_eq!(rt;
        format!(in rt.alloc(); "{all:?}")?.as_str(),
        "[Known, Unknown, Failed]"
    );
    Ok(())
}
