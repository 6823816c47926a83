use infer_formats::markup::{has_root, has_root_with, root_of};
use infer_formats::script::program;

#[test]
fn roots(rt: HostRuntime) {
    let cases: [(&[u8], &[u8], bool); 27] = [
        (b"<?xml?><svg>", b"svg", true),
        (b"<?xml?><svg", b"svg", false),
        (b"<?xml?><_vg>", b"svg", false),
        (b"<?xml?><svg/>", b"svg", true),
        (b"<?xml?><!DOCTYPE svg SYSTEM \"x\">\n<svg>", b"svg", true),
        (b"<?xml?><!DOCTYPE x>\n<svg>", b"svg", false),
        (
            b"<?xml?><!DOCTYPE svg [<!ENTITY a \"b\">]><svg>",
            b"svg",
            true,
        ),
        (b"<?xml?><!-- <x> --><svg>", b"svg", true),
        (b"<?xml?><!-- <svg>", b"svg", false),
        (b"<?xml?><svgx>", b"svg", false),
        (b"<?xml?><SVG>", b"svg", false),
        (b"<?xml?><x><svg>", b"svg", false),
        (b"\xEF\xBB\xBF<?xml?><svg>", b"svg", true),
        (b" \xEF\xBB\xBF<?xml?><svg>", b"svg", false),
        (b"<?xml?></svg>", b"svg", false),
        (b"<?xml?>\x0C<svg>", b"svg", false),
        (b"<?xml?><svg>\0", b"svg", true),
        (b"<!-- --><svg>", b"svg", true),
        (b"<!-- --><svg", b"svg", false),
        (b"<svg>", b"svg", true),
        (b"<_vg>", b"svg", false),
        (b"\xEF\xBB\xBF<svg>", b"svg", true),
        (b"\x0C<svg>", b"svg", false),
        (b"<?xml?><rss>", b"rss", true),
        (b"<?xml?><kml/>", b"kml", true),
        (b"<?xml?><gpx>", b"gpx", true),
        (
            b"<?xml?><!DOCTYPE plist SYSTEM \"x\">\n<plist>",
            b"plist",
            true,
        ),
    ];
    for (buf, name, expected) in cases {
        assert_eq!(rt; has_root(buf, name), expected);
    }
}

#[test]
fn roots_with_a_text(rt: HostRuntime) {
    let cases: [(&[u8], bool); 19] = [
        (b"<?xml?><feed http://www.w3.org/2005/Atom", true),
        (b"<?xml?><feed http://www.w3.org/2005/Ato", false),
        (b"<?xml?><feed>\"http://www.w3.org/2005/Atom\"", false),
        (b"<?xml?><feed>", false),
        (b"<?xml?><_eed x=\"http://www.w3.org/2005/Atom\">", false),
        (b"<?xml?><a:feed x=\"http://www.w3.org/2005/Atom\">", true),
        (b"<?xml?><feed x=\"http://www.w3.org/2005/Atom\"/>", true),
        (
            b"<?xml?><!DOCTYPE x>\n<feed x=\"http://www.w3.org/2005/Atom\">",
            false,
        ),
        (
            b"<?xml?><!DOCTYPE feed><!DOCTYPE feed><feed x=\"http://www.w3.org/2005/Atom\">",
            false,
        ),
        (
            b"<?xml?><!DOCTYPE feed [<!ENTITY a \"b\">]><feed x=\"http://www.w3.org/2005/Atom\">",
            true,
        ),
        (
            b"<?xml?><!-- <feed x=\"http://www.w3.org/2005/Atom\">",
            false,
        ),
        (
            b"<?xml?><?a <x>?>\r\n\t <feed x=\"http://www.w3.org/2005/Atom\">",
            true,
        ),
        (b"<?xml?><feedx x=\"http://www.w3.org/2005/Atom\">", false),
        (b"<?xml?><x><feed x=\"http://www.w3.org/2005/Atom\">", false),
        (b"<?xml?>x<feed x=\"http://www.w3.org/2005/Atom\">", false),
        (
            b"\xEF\xBB\xBF<?xml?><feed x=\"http://www.w3.org/2005/Atom\">",
            true,
        ),
        (b"<?xml?></feed x=\"http://www.w3.org/2005/Atom\">", false),
        (
            b"<?xml?><!--><feed x=\"http://www.w3.org/2005/Atom\">",
            false,
        ),
        (
            b"<?xml?>\x0C<feed x=\"http://www.w3.org/2005/Atom\">",
            false,
        ),
    ];
    for (buf, expected) in cases {
        assert_eq!(rt;
            has_root_with(buf, b"feed", b"http://www.w3.org/2005/Atom"),
            expected
        );
    }
}

/// Of what no program of another hand answered, by the rule alone.

#[test]
fn first_elements(rt: HostRuntime) {
    let cases: [(&[u8], Option<&[u8]>); 22] = [
        (b"", None),
        (b"<", None),
        (b"<>", None),
        (b"< a>", None),
        (b"<:>", None),
        (b"<a:>", None),
        (b"<:a>", Some(b"a")),
        (b"<a:b:c >", Some(b"c")),
        (b"<a\x0C\0>", Some(b"a\x0C\0")),
        (b"<?a?>", None),
        (b"<?><?><a>", Some(b"a")),
        (b"<?<?<??><a>", Some(b"a")),
        (b"<!---><a>", None),
        (b"<!----><a>", Some(b"a")),
        (b"<!a>", None),
        (b"<!DOCTYPE a", None),
        (b"<!DOCTYPEa><a>", None),
        (b"<!doctype a><a>", None),
        (b"<!DOCTYPE\n\ta><!-- --><a>", Some(b"a")),
        (b"<!DOCTYPE a:b><a:b>", Some(b"b")),
        (b"<!DOCTYPE b><a:b>", None),
        (b"<!DOCTYPE ab><a>", None),
    ];
    for (buf, expected) in cases {
        assert_eq!(rt; root_of(buf).map(|root| root.name), expected);
    }
}

// What an XML parser passes over, and what it refuses.
#[test]
fn internal_subsets(rt: HostRuntime) {
    let cases: [(&[u8], Option<&[u8]>); 18] = [
        (b"<!DOCTYPE a[]><a>", Some(b"a")),
        (b"<!DOCTYPE a []><a>", Some(b"a")),
        (
            b"<!DOCTYPE a PUBLIC 'b' \"c\" [\n<!ELEMENT a ANY>\n] \t\r\n><a>",
            Some(b"a"),
        ),
        (b"<!DOCTYPE a [<!ENTITY b \"]>\">]><a>", Some(b"a")),
        (b"<!DOCTYPE a [<!ENTITY b ']>'>]><a>", Some(b"a")),
        (b"<!DOCTYPE a [<!ENTITY b '\"'>]><a>", Some(b"a")),
        (b"<!DOCTYPE a [<!-- ]> \" ' -->]><a>", Some(b"a")),
        (b"<!DOCTYPE a [<?b ]> \" ' ?>]><a>", Some(b"a")),
        (b"<!DOCTYPE a [<!ENTITY b \"<!--\">]><a>", Some(b"a")),
        (b"<!DOCTYPE a [%b;]><!-- --><a>", Some(b"a")),
        (b"<!DOCTYPE a []><b>", None),
        (b"<!DOCTYPE a [\"]><a>", None),
        (b"<!DOCTYPE a [']><a>", None),
        (b"<!DOCTYPE a [<?]><a>", None),
        (b"<!DOCTYPE a [<!--]><a>", None),
        (b"<!DOCTYPE a []", None),
        (b"<!DOCTYPE a [] x><a>", None),
        (b"<!DOCTYPE a [>]<a>", None),
    ];
    for (buf, expected) in cases {
        assert_eq!(rt; root_of(buf).map(|root| root.name), expected);
    }
}

/// What whoever writes a hostile buffer repeats.

#[test]
fn long_prologs(rt: HostRuntime) {
    let cases: [&[u8]; 8] = [
        b"<?",
        b"<!--",
        b"--",
        b"?>",
        b" ",
        b"<!DOCTYPE [",
        b"<!DOCTYPE a [\"",
        b"<!DOCTYPE a ['\"",
    ];
    for case in cases {
        let mut buf = [0; 8192];
        for at in 0..8192 {
            buf[at] = case[at % case.len()];
        }
        assert!(rt; root_of(&buf).is_none());
    }
}
