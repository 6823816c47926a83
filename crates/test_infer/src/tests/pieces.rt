//! Each reader and writer of `test_streams` once.
use std::io::{ErrorKind, Read, Write};
use std::test::Fail;
use test_streams::{NEVER, PieceReader, PieceWriter, ROOM};

#[test]
fn a_reader_cuts_and_fails_once(rt: HostRuntime) -> Result<(), Fail> {
    let mut reader = PieceReader::failing(b"abcde", 2, 1, ErrorKind::WouldBlock);
    let (mut out, mut rest) = ([0; 8], Vec::new(rt.alloc()));
    assert_eq!(rt; reader.read(&mut out)?, 2);
    assert_eq!(rt; out, *b"ab\0\0\0\0\0\0");
    let error = reader.read(&mut out).err().ok_or("an error")?;
    assert_eq!(rt; error.kind(), ErrorKind::WouldBlock);
    assert_eq!(rt; reader.rest, b"cde".as_slice());
    assert_eq!(rt; reader.read_to_end(&mut rest)?, 3);
    assert_eq!(rt; rest.as_slice(), b"cde".as_slice());
    assert_eq!(rt; reader.read(&mut out)?, 0);
    assert_eq!(rt; PieceReader::new(b"abc", 9).read(&mut out[1..])?, 3);
    Ok(())
}

#[test]
fn a_writer_cuts_and_fails_once(rt: HostRuntime) -> Result<(), Fail> {
    let mut writer = PieceWriter::failing(2, 1);
    assert_eq!(rt; writer.write(b"abc")?, 2);
    assert!(rt; !writer.has_failed());
    assert!(rt; writer.write(b"c").is_err());
    assert!(rt; writer.has_failed());
    writer.write_all(b"cde")?;
    writer.flush()?;
    assert_eq!(rt; writer.taken(), b"abcde".as_slice());
    assert_eq!(rt; writer.writes, 4);
    Ok(())
}

#[test]
fn a_full_writer_takes_nothing(rt: HostRuntime) -> Result<(), Fail> {
    let mut writer = PieceWriter::new(ROOM);
    writer.write_all(&[7; ROOM])?;
    assert_eq!(rt; writer.write(b"a")?, 0);
    assert_eq!(rt; writer.taken(), [7; ROOM].as_slice());
    Ok(())
}

#[test]
fn a_writer_without_flush(rt: HostRuntime) -> Result<(), Fail> {
    let mut writer = PieceWriter::without_flush();
    writer.write_all(b"abc")?;
    assert!(rt; writer.flush().is_err());
    assert_eq!(rt; writer.taken(), b"abc".as_slice());
    assert!(rt; writer.writes < NEVER);
    Ok(())
}
