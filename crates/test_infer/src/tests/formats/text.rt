use infer_formats::text::{Encoding, encoding_of, is_text};

#[test]
fn texts(rt: HostRuntime) {
    let cases: [(&[u8], bool); 78] = [
        (b"ORC", true),
        (b"NRC\x00", false),
        (b"ORC\x0A", true),
        (b"ORC\x1B", true),
        (b"1\x0A00:00:00,000 --> 00:00:01,00", true),
        (b"a\x0A00:00:00,000 --> 00:00:01,000", true),
        (b"\x0A1\x0A00:00:00,000 --> 00:00:01,000", true),
        (b"1\x0A00:00:00,000--> 00:00:01,000", true),
        (b"1\x0A0:00:00,000 --> 00:00:01,000", true),
        (b"{", true),
        (b"[}", true),
        (b"[1", true),
        (b"[\x22", true),
        (b"{\x22", true),
        (b"{\x22a\x22}", true),
        (b"{1", true),
        (b"[tru", true),
        (b"[truex", true),
        (b"[tx", true),
        (b"[01", true),
        (b"[-,", true),
        (b"[1.]", true),
        (b"[+1]", true),
        (b"[\x22\x5Cu12", true),
        (b"[\x22\x5Cu12G0\x22]", true),
        (b"[\x22\xC3", true),
        (b"[\x22\xED\xA0\x80\x22]", true),
        (b"[\x22\xFF\x22]", true),
        (b"[\x22\xC0\x80\x22]", true),
        (b"[1,]", true),
        (b"{\x22a\x22:1,}", true),
        (b"\x0C[]", true),
        (b"\x22a\x22", true),
        (b"12", true),
        (b"[][]", true),
        (b"[]\x00", false),
        (b"[section]\x0A", true),
        (b"// c\x0A{}", true),
        (b"{'a':1}", true),
        (b"{a:1}", true),
        (
            b"[[[[[[[[[[[[[[[[[[[[[[[[[[[[[[[[[[[[[[[[[[[[[[[[[[[[[[[[[[[[[[[[[[[[[[[[[[[[[[[[[[[[[[[[[[[[[[[[[[[[[[[[[[[[[[[[[[[[[[[[[[[[[[[[[",
            true,
        ),
        (b"[NaN]", true),
        (b"{\x22a\x22 1}", true),
        (b"{\x22a\x22:1 \x22b\x22", true),
        (b"[]]", true),
        (b"{]", true),
        (b"[}\x0A[", true),
        (b"{} {}", true),
        (b"1\x0A{}\x0A", true),
        (b"{}\x0A{]", true),
        (b"{}{}\x0A", true),
        (b"{}\x0A{}{}", true),
        (b"a", true),
        (b"", false),
        (b"\x00", false),
        (b"\xFF\xFE", true),
        (b"\xFF\xFEa\x00", true),
        (b"\xFE", true),
        (b"\xEF\xBB\xBF\x00", true),
        (b"\xEF\xBB\x00", false),
        (b"\xE4\xF6\x0A", true),
        (b"\xC3", true),
        (b"\xFF", true),
        (b"\xED\xA0\x80", true),
        (b"\x07", false),
        (b"\x08", false),
        (b"\x09", true),
        (b"\x0B", false),
        (b"\x0C", true),
        (b"\x0D", true),
        (b"\x1A", false),
        (b"\x1B", true),
        (b"\x1C", false),
        (b" ", true),
        (b"\x7F", true),
        (b"\x80", true),
        (b"<a", true),
        (b"ustar", true),
    ];
    for (buf, expected) in cases {
        assert_eq!(rt; is_text(buf), expected);
    }
}

#[test]
fn encodings(rt: HostRuntime) {
    assert_eq!(rt; encoding_of(b"plain\n"), Some(Encoding::UsAscii));
    assert_eq!(rt; encoding_of(b"caf\xC3\xA9"), Some(Encoding::Utf8));
    assert_eq!(rt; encoding_of(b"caf\xC3"), Some(Encoding::Utf8));
    assert_eq!(rt; encoding_of(b"\xF0\x9F\x98"), Some(Encoding::Utf8));
    assert_eq!(rt; encoding_of(b"\xEF\xBB\xBFab"), Some(Encoding::Utf8));
    assert_eq!(rt; encoding_of(b"\xFF\xFEa\0"), Some(Encoding::Utf16Le));
    assert_eq!(rt; encoding_of(b"\xFE\xFF\0a"), Some(Encoding::Utf16Be));
    assert_eq!(rt; encoding_of(b"caf\xE9 au"), None);
    assert_eq!(rt; encoding_of(b"caf\xC0"), None);
    assert_eq!(rt; encoding_of(b"\xED\xA0"), None);
    assert_eq!(rt; encoding_of(b"a\0"), None);
    assert_eq!(rt; encoding_of(b""), None);
}
