//! Readers and files by their names.
use infer::{Fault, Watched};
use infer_named::{
    Standing, named_from_opened, named_from_path, named_from_path_within, named_from_reader,
    named_from_reader_within,
};
use std::io::ErrorKind;
use std::test::Fail;
use std::{fs, io};

const SCRIPT: &[u8] = b"#!/usr/bin/perl\n";

#[test]
fn a_reader_has_a_name(rt: HostRuntime) -> Result<(), Fail> {
    let mut reader = Watched::new(SCRIPT);
    let all = named_from_reader(rt.alloc(), b"main.py", &mut reader);
    assert_eq!(rt; all.map(|it| it.standing).ok(), Some(Standing::Contradicts));
    let mut reader = Watched::new(SCRIPT);
    let front = named_from_reader_within(rt.alloc(), b"main.py", &mut reader, 1);
    assert_eq!(rt;
        front.map(|it| it.standing).ok(),
        Some(Standing::NameRefines)
    );
    Ok(())
}

#[test]
fn what_is_opened_has_a_name(rt: HostRuntime) -> Result<(), Fail> {
    let mut room = Vec::new(rt.alloc());
    let mut opened = Ok(Watched::new(SCRIPT));
    let found = named_from_opened(&mut room, b"main.pl", &mut opened, 8192);
    assert_eq!(rt; found.map(|it| it.standing).ok(), Some(Standing::Agree));
    let mut failed: io::Result<Watched<&[u8]>> = Err(io::Error::from(ErrorKind::NotFound));
    let found = named_from_opened(&mut room, b"main.pl", &mut failed, 8192);
    assert!(rt; matches!(found, Err(Fault::Open(ErrorKind::NotFound))));
    Ok(())
}

#[test]
fn a_path_is_a_name(rt: HostRuntime) -> Result<(), Fail> {
    let found = named_from_path(&rt, rt.alloc(), "/no/such/main.py");
    assert!(rt; matches!(found, Err(Fault::Open(_))));
    fs::write(&rt, "main.py", SCRIPT)?;
    let whole = named_from_path(&rt, rt.alloc(), "main.py");
    assert_eq!(rt;
        whole.map(|it| it.standing).ok(),
        Some(Standing::Contradicts)
    );
    let front = named_from_path_within(&rt, rt.alloc(), "main.py", 1);
    assert_eq!(rt;
        front.map(|it| it.standing).ok(),
        Some(Standing::NameRefines)
    );
    fs::remove_file(&rt, "main.py")?;
    Ok(())
}
