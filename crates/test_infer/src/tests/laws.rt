//! What the functions over the laws answer.

use crate::laws::*;
use infer::{Infer, rows};
use std::test::Fail;

#[test]
fn leads() {
    no_matroska();
}

#[test]
fn blank(rt: HostRuntime) {
    assert_eq!(rt; position_of_nothing(), None);
}

#[test]
fn never(rt: HostRuntime) {
    assert_eq!(rt; position_but_two(b"MZ"), Some(2));
}

#[test]
fn apart(rt: HostRuntime) {
    assert!(rt; !is_java_and_mach(b"\xCA\xFE\xBA\xBE\0\0\0\x2C"));
    assert!(rt; !is_java_and_mach(b"\xCA\xFE\xBA\xBE\0\0\0\x2D"));
}

#[test]
fn built_in_rows_alone(rt: HostRuntime) {
    let infer = Infer::new();
    assert!(rt; has_own_extension(&infer, b"MZ"));
    let (short, long) = get_both(&infer, b"MZ", b"MZ\0");
    assert!(rt; short.is_some() && long.is_some());
}

#[test]
fn after_an_addition(rt: HostRuntime) -> Result<(), Fail> {
    let (short, long) = get_both_after_addition(rt.alloc())?;
    assert!(rt; short.is_some() && long.is_some());
    Ok(())
}

#[test]
fn front(rt: HostRuntime) {
    assert_eq!(rt; position_and_front(b"MZ", b"MZ"), (Some(2), Some(2)));
}

#[test]
fn breaks() {
    document_breaks();
}

#[test]
fn reach() {
    script_is_reached();
}

#[test]
fn later(rt: HostRuntime) {
    no_pdf_after_gif();
    assert_eq!(rt; both_decided(b"MZ", b"MZ\0"), (true, true));
    assert!(rt; may_answer_first(b"\0as"));
    assert!(rt; !may_answer_first(b"\0as\0"));
}

#[test]
fn open(rt: HostRuntime) {
    assert!(rt; may_become_x64(b"\x64"));
    assert!(rt; !may_become_x64(b"\x4C"));
}

#[test]
fn walked(rt: HostRuntime) {
    assert_eq!(rt; position_and_walk(b"MZ"), (Some(2), Some(2)));
}

#[test]
fn locality(rt: HostRuntime) {
    assert_eq!(rt; positions_of_both(b"MZ", b"MZ"), (Some(2), Some(2)));
}

#[test]
fn readers(rt: HostRuntime) {
    let both = answers_of_both(&Infer::new(), b"MZ", b"MZ");
    assert!(rt; matches!(both, Ok((Some(one), Some(other))) if one == other));
}
