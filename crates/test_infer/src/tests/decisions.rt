//! Each decision on a few buffers.
use infer::{MatcherType, rows};
use infer_sniff::Sniffer;
use infer_uses::count::count;
use infer_uses::gate::{admits, may_answer};
use infer_uses::label::label;
use infer_uses::name::{Choice, choose};
use std::test::Fail;

const JPEG: &[u8] = b"\xFF\xD8\xFF\xAA";

#[test]
fn images_alone_pass(rt: HostRuntime) -> Result<(), Fail> {
    assert!(rt; admits(JPEG));
    assert!(rt; admits(b"GIF89a"));
    assert!(rt; !admits(b"MZ"));
    assert!(rt; !admits(b""));
    Ok(())
}

#[test]
fn what_an_upload_can_still_be(rt: HostRuntime) {
    assert_eq!(rt; may_answer(b"", rows::WASM), Some(true));
    assert_eq!(rt; may_answer(b"GIF", rows::GIF), Some(true));
    assert_eq!(rt; may_answer(b"GIF", rows::WASM), Some(false));
    assert_eq!(rt; may_answer(b"GIF", rows::PDF), Some(false));
    assert_eq!(rt; may_answer(b"\xCA\xFE\xBA\xBE\0\0\0", rows::PDF), None);
}

#[test]
fn the_name_is_preferred(rt: HostRuntime) -> Result<(), Fail> {
    assert!(rt; matches!(choose("jpg", JPEG), Choice::Name));
    assert!(rt; matches!(choose("dll", b"MZ"), Choice::Name));
    assert!(rt; matches!(choose("png", JPEG), Choice::Bytes(found) if found.extension() == "jpg"));
    assert!(rt; matches!(choose("css", b"a {}"), Choice::NameAlone));
    Ok(())
}

#[test]
fn buffers_are_counted_by_class(rt: HostRuntime) -> Result<(), Fail> {
    let fronts: [&[u8]; 4] = [JPEG, b"MZ", b"", b"GIF89a"];
    assert_eq!(rt; count(MatcherType::Image, &fronts), 2);
    assert_eq!(rt; count(MatcherType::App, &fronts), 1);
    assert_eq!(rt; count(MatcherType::Font, &fronts), 0);
    assert_eq!(rt; count(MatcherType::Image, &[]), 0);
    Ok(())
}

#[test]
fn a_label_comes_once_it_is_certain(rt: HostRuntime) -> Result<(), Fail> {
    let zeros = [0; 1020];
    let mut sniffer = Sniffer::new(rt.alloc())?;
    assert!(rt; label(&mut sniffer, JPEG, false).is_none());
    assert!(rt; label(&mut sniffer, &zeros, false) == Some("image/jpeg"));
    let mut sniffer = Sniffer::new(rt.alloc())?;
    assert!(rt; label(&mut sniffer, JPEG, true) == Some("image/jpeg"));
    let mut sniffer = Sniffer::new(rt.alloc())?;
    assert!(rt; label(&mut sniffer, b"", true) == Some("unknown"));
    Ok(())
}
