use infer_formats::begins::{begins, begins_and_has, begins_and_has_all, may_begin};

// By hand. A mark that is cut may go on.
#[test]
fn beginnings(rt: HostRuntime) {
    let cases: [(&[u8], bool, bool); 9] = [
        (b"#VRML V", true, true),
        (b"#VRML V2.0 utf8\n", true, true),
        (b"\xEF\xBB\xBF#VRML V2.0", true, true),
        (b"\xEF\xBB\xBF\xEF\xBB\xBF#VRML V2.0", false, false),
        (b"\n#VRML V2.0", false, false),
        (b"#VRML ", false, true),
        (b"\xEF\xBB", false, true),
        (b"\xEF\xBB#VRML V2.0", false, false),
        (b"", false, true),
    ];
    for (buf, is, may) in cases {
        assert_eq!(rt; begins(buf, b"#VRML V"), is);
        assert_eq!(rt; may_begin(buf, b"#VRML V"), may);
    }
}

#[test]
fn what_follows(rt: HostRuntime) {
    let cases: [(&[u8], bool); 7] = [
        (b"solid a\nfacet normal 0 0 1", true),
        (b"\xEF\xBB\xBFsolid a\nfacet normal 0 0 1", true),
        (b"solid facet normal ", true),
        (b"solid facet normal", false),
        (b"solid a\nFacet normal 0 0 1", false),
        (b"facet normal solid", false),
        (b"solid", false),
    ];
    for (buf, expected) in cases {
        assert_eq!(rt; begins_and_has(buf, b"solid", b"facet normal "), expected);
    }
}

#[test]
fn all_that_follows(rt: HostRuntime) {
    let cases: [(&[u8], bool); 7] = [
        (b"#\nv 1\nvn 2\nf 3", true),
        (b"\xEF\xBB\xBF#\nv \nvn \nf ", true),
        (b"#\nf 3\nvn 2\nv 1", true),
        (b"#\nv 1\nvn 2\n", false),
        (b"#\nvn 2\nf 3", false),
        (b"#\nv 1\nf 3", false),
        (b"\nv 1\nvn 2\nf 3", false),
    ];
    for (buf, expected) in cases {
        assert_eq!(rt;
            begins_and_has_all(buf, b"#", b"\nv ", b"\nvn ", b"\nf "),
            expected
        );
    }
    assert!(rt; begins_and_has_all(b"#\nv \nvn ", b"#", b"\nv ", b"\nvn ", b""));
}
