//! Equality and printed texts.

use crate::types::{equal_after_class_clone, equal_after_clone};
use infer::{Fault, MatcherType, Type, get, image, laws};
use std::io::ErrorKind;
use std::test::Fail;

const JPEG: [u8; 4] = [0xFF, 0xD8, 0xFF, 0xAA];

/// Each class, and what it prints.
const CLASSES: [(MatcherType, &str); 10] = [
    (MatcherType::App, "App"),
    (MatcherType::Archive, "Archive"),
    (MatcherType::Audio, "Audio"),
    (MatcherType::Book, "Book"),
    (MatcherType::Doc, "Doc"),
    (MatcherType::Font, "Font"),
    (MatcherType::Image, "Image"),
    (MatcherType::Text, "Text"),
    (MatcherType::Video, "Video"),
    (MatcherType::Custom, "Custom"),
];

#[test]
fn equality(rt: HostRuntime) -> Result<(), Fail> {
    let found = get(&JPEG).ok_or("known")?;
    let made = Type::new(MatcherType::Image, "image/jpeg", "jpg", image::is_png);
    assert!(rt; made == found);
    assert!(rt; equal_after_clone(&found)?);
    assert!(rt; laws::cloned(&made)? == found);
    let others = [
        Type::new(MatcherType::Custom, "image/jpeg", "jpg", image::is_jpeg),
        Type::new(MatcherType::Image, "image/jpg", "jpg", image::is_jpeg),
        Type::new(MatcherType::Image, "image/jpeg", "jpeg", image::is_jpeg),
    ];
    for other in others {
        assert!(rt; other != found, "{other:?}");
    }
    Ok(())
}

#[test]
fn equality_of_classes(rt: HostRuntime) -> Result<(), Fail> {
    for (i, (a, _)) in CLASSES.iter().enumerate() {
        assert!(rt; equal_after_class_clone(a)?, "{a:?}");
        for (j, (b, _)) in CLASSES.iter().enumerate() {
            assert_eq!(rt; *a == *b, i == j, "{a:?} and {b:?}");
            assert_eq!(rt; laws::equal_classes(a, b), i == j, "{a:?} and {b:?}");
        }
    }
    Ok(())
}

#[test]
fn texts_of_a_type(rt: HostRuntime) -> Result<(), Fail> {
    let t = get(&JPEG).ok_or("known")?;
    assert_eq!(rt; format!(in rt.alloc(); "{t}")?.as_str(), "image/jpeg");
    assert_eq!(rt;
        format!(in rt.alloc(); "[{t:>12}]")?.as_str(),
        "[  image/jpeg]"
    );
    assert_eq!(rt;
        format!(in rt.alloc(); "[{t:12}]")?.as_str(),
        "[image/jpeg  ]"
    );
    assert_eq!(rt;
        format!(in rt.alloc(); "[{t:<12}]")?.as_str(),
        "[image/jpeg  ]"
    );
    assert_eq!(rt;
        format!(in rt.alloc(); "[{t:*^13}]")?.as_str(),
        "[*image/jpeg**]"
    );
    assert_eq!(rt;
        format!(in rt.alloc(); "[{t:é>11}]")?.as_str(),
        "[éimage/jpeg]"
    );
    assert_eq!(rt; format!(in rt.alloc(); "[{t:4}]")?.as_str(), "[image/jpeg]");
    assert_eq!(rt;
        format!(in rt.alloc(); "{t:?}")?.as_str(),
        "Type { matcher_type: Image, mime_type: \"image/jpeg\", extension: \"jpg\", .. }"
    );
    Ok(())
}

#[test]
fn texts_of_classes(rt: HostRuntime) -> Result<(), Fail> {
    for (class, text) in &CLASSES {
        assert_eq!(rt; format!(in rt.alloc(); "{class:?}")?.as_str(), *text);
    }
    Ok(())
}

#[test]
fn texts_of_faults(rt: HostRuntime) -> Result<(), Fail> {
    let faults = [
        (
            Fault::Open(ErrorKind::NotFound),
            "cannot open",
            "Open(NotFound)",
        ),
        (
            Fault::Read(ErrorKind::Interrupted),
            "cannot read",
            "Read(Interrupted)",
        ),
        (Fault::Memory, "no memory", "Memory"),
    ];
    for (fault, text, debug) in faults {
        assert_eq!(rt; format!(in rt.alloc(); "{fault}")?.as_str(), text);
        assert_eq!(rt; format!(in rt.alloc(); "{fault:?}")?.as_str(), debug);
    }
    Ok(())
}
