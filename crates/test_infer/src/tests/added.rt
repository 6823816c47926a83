//! Rows that a caller adds, and the questions over all rows.

use crate::added::get_with_row;
use infer::{Infer, MatcherType};
use linked_list_allocator::LocalHeap;
use std::alloc::Allocator;
use std::test::Fail;

fn begins_jpeg(buf: &[u8]) -> bool {
    buf.starts_with(&[0xFF, 0xD8, 0xFF])
}

fn begins_png(buf: &[u8]) -> bool {
    buf.starts_with(&[0x89, 0x50, 0x4E, 0x47])
}

fn begins_00(buf: &[u8]) -> bool {
    buf.starts_with(&[0x00])
}

const JPEG: [u8; 3] = [0xFF, 0xD8, 0xFF];

const PNG: [u8; 4] = [0x89, 0x50, 0x4E, 0x47];

#[test]
fn a_function_from_the_caller(rt: HostRuntime) -> Result<(), Fail> {
    let found = get_with_row(rt.alloc(), &[0x10, 0x11, 0x12, 0x13])?;
    assert_eq!(rt; found.ok_or("known")?.extension(), "foo");
    let found = get_with_row(rt.alloc(), &JPEG)?;
    assert_eq!(rt; found.ok_or("known")?.extension(), "jpg");
    Ok(())
}

/// The MIME type of the first row that accepts `buf`, and no text if none does.
fn mime_of<A: Allocator>(infer: &Infer<A>, buf: &[u8]) -> &'static str {
    match infer.get(buf) {
        Some(found) => found.mime_type(),
        None => "",
    }
}

#[test]
fn added_rows_come_first(rt: HostRuntime) -> Result<(), Fail> {
    let mut infer = Infer::new();
    assert!(rt; !infer.is_supported("foo"));
    infer.add(rt.alloc(), "custom/foo", "foo", begins_jpeg)?;
    assert!(rt; infer.is_supported("foo"));
    assert!(rt; infer.is_mime_supported("custom/foo"));
    assert!(rt; !infer::is_supported("foo"));
    infer.add(rt.alloc(), "custom/bar", "bar", begins_png)?;
    assert_eq!(rt; mime_of(&infer, &JPEG), "custom/foo");
    assert_eq!(rt; mime_of(&infer, &PNG), "custom/bar");
    assert!(rt; infer.is_image(&JPEG));
    assert!(rt; infer.is_custom(&JPEG));
    Ok(())
}

#[test]
fn an_added_row_is_not_the_built_in_one(rt: HostRuntime) -> Result<(), Fail> {
    let mut infer = Infer::new();
    infer.add(rt.alloc(), "image/jpeg", "jpg", begins_00)?;
    let found = infer.get(&[0x00]).ok_or("known")?;
    assert_eq!(rt; found.matcher_type(), MatcherType::Custom);
    assert_eq!(rt; found.mime_type(), "image/jpeg");
    assert_eq!(rt; found.extension(), "jpg");
    assert!(rt; found != infer::get(&JPEG).ok_or("known")?);
    assert!(rt; infer.is(&[0x00], "jpg"));
    assert!(rt; infer.is_mime(&[0x00], "image/jpeg"));
    assert!(rt; infer.is_custom(&[0x00]));
    assert!(rt; !infer.is_image(&[0x00]));
    Ok(())
}

const NAMES: [&str; 10] = ["foo", "bar", "r2", "r3", "r4", "r5", "r6", "r7", "r8", "r9"];

/// Whether the added rows are the first `count` of the ten.
fn are_the_first(infer: &Infer<&LocalHeap>, count: usize) -> bool {
    let mut right = infer.is_image(&JPEG) && infer.is_custom(&JPEG) == (count > 0);
    for (i, name) in NAMES.iter().enumerate() {
        right = right && infer.is_supported(name) == (i < count);
    }
    right
}

/// What the two images are by the first `count` of the ten rows.
fn by_the_first(count: usize) -> (&'static str, &'static str) {
    match count {
        0 => ("image/jpeg", "image/png"),
        1 => ("foo", "image/png"),
        _ => ("foo", "bar"),
    }
}

/// Adds ten rows in a heap. Tells how many were added, and whether the rows were those after each addition.
fn ten_added(heap: &LocalHeap) -> (usize, bool) {
    let mut infer: Infer<&LocalHeap> = Infer::new_in();
    let (mut count, mut right) = (0usize, are_the_first(&infer, 0));
    for (i, name) in NAMES.iter().enumerate() {
        let added = match i {
            0 => infer.add(heap, name, name, begins_jpeg),
            1 => infer.add(heap, name, name, begins_png),
            _ => infer.add(heap, name, name, begins_00),
        };
        if added.is_ok() {
            count = count.saturating_add(1);
        }
        let images = (mime_of(&infer, &JPEG), mime_of(&infer, &PNG));
        right = right && are_the_first(&infer, count) && images == by_the_first(count);
    }
    (count, right)
}

#[test]
fn each_addition_is_refused_in_turn(rt: HostRuntime) -> Result<(), Fail> {
    let (mut most, mut least) = (0usize, NAMES.len());
    for step in 1..256usize {
        let heap = LocalHeap::new(rt.alloc(), 16 * step)?;
        let (count, right) = ten_added(&heap);
        assert!(rt; right, "{count} rows");
        assert!(rt; count >= most, "{count} rows");
        assert_eq!(rt; heap.used(), 0);
        (most, least) = (count, least.min(count));
    }
    assert_eq!(rt; (least, most), (0, 10));
    Ok(())
}
