use infer_formats::json::{is_json, is_json_lines};

#[test]
fn json_texts(rt: HostRuntime) {
    let cases: [(&[u8], bool, bool); 58] = [
        (b"{}", true, false),
        (b"{", false, false),
        (b"[}", false, false),
        (b"[[", true, false),
        (b"[1", false, false),
        (b"[1,", true, false),
        (b"[\"", false, false),
        (b"[\"a\"", true, false),
        (b"{\"", false, false),
        (b"{\"a\"}", false, false),
        (b"{1", false, false),
        (b"[tru", false, false),
        (b"[truex", false, false),
        (b"[tx", false, false),
        (b"[01", false, false),
        (b"[-,", false, false),
        (b"[-0.5e+3]", true, false),
        (b"[1.]", false, false),
        (b"[+1]", false, false),
        (b"[\"\\u12", false, false),
        (b"[\"\\u12G0\"]", false, false),
        (b"[\"\\ud800\"]", true, false),
        (b"[\"\xC3", false, false),
        (b"[\"\xC3\xA4\"]", true, false),
        (b"[\"\xED\xA0\x80\"]", false, false),
        (b"[\"\xFF\"]", false, false),
        (b"[\"\xC0\x80\"]", false, false),
        (b"[\"a\x7F\"]", true, false),
        (b"[1,]", false, false),
        (b"{\"a\":1,}", false, false),
        (b" \n\r\t[]", true, false),
        (b"\x0C[]", false, false),
        (b"\xEF\xBB\xBF[]", true, false),
        (b"\"a\"", false, false),
        (b"12", false, false),
        (b"[] ", true, false),
        (b"[][]", false, false),
        (b"[]\0", false, false),
        (b"[section]\n", false, false),
        (b"// c\n{}", false, false),
        (b"{'a':1}", false, false),
        (b"{a:1}", false, false),
        (b"[NaN]", false, false),
        (b"{\"a\" 1}", false, false),
        (b"{\"a\":1 \"b\"", false, false),
        (b"[]]", false, false),
        (b"{]", false, false),
        (b"[]\n[", false, true),
        (b"[]\n", true, false),
        (b"[}\n[", false, false),
        (b"{}\r\n{}\r\n", false, true),
        (b"{} {}", false, false),
        (b"{}\n\n{}", false, true),
        (b"1\n{}\n", false, false),
        (b"{}\n{]", false, false),
        (b"{\n}\n{", false, true),
        (b"{}{}\n", false, false),
        (b"{}\n{}{}", false, false),
    ];
    for (buf, text, lines) in cases {
        assert_eq!(rt; is_json(buf), text);
        assert_eq!(rt; is_json_lines(buf), lines);
    }
}

/// Of what Python's reader takes once some bytes follow, which a search tries.

#[test]
fn json_cut(rt: HostRuntime) {
    let cases: [(&[u8], bool, bool); 47] = [
        (b"[\"a\",\"\xF0\x9F\x98", true, false),
        (b"[\"a\",\"\xED\xA0", false, false),
        (b"[\"a\",\"\xE0\x80", false, false),
        (b"[\"a\",\"\xF4\x90", false, false),
        (b"[\"a\",\"\xF5", false, false),
        (b"[\"a\",\"\\", true, false),
        (b"[\"a\",\"\\u", true, false),
        (b"[\"a\",\"\\uD83", true, false),
        (b"[\"a\",\"\\x", false, false),
        (b"[\"a\",\"\x1F", false, false),
        (b"[\"a\",-", true, false),
        (b"[\"a\",1.", true, false),
        (b"[\"a\",1.e", false, false),
        (b"[\"a\",1e-", true, false),
        (b"[\"a\",01", false, false),
        (b"[\"a\",.5", false, false),
        (b"[\"a\",tru", true, false),
        (b"[\"a\",tra", false, false),
        (b"[\"a\",nul", true, false),
        (b"{\"a\"", true, false),
        (b"{\"a\":", true, false),
        (b"{\"a\":1,", true, false),
        (b"{\"a\":1,2", false, false),
        (b"{,", false, false),
        (b"[,", false, false),
        (b"[:", false, false),
        (b"[]\n[]\n", false, true),
        (b"\xEF\xBB\xBF[]\n[1,", false, true),
        (b"\xEF\xBB\xBF\xEF\xBB\xBF[]", false, false),
        (b"[]\n1", false, false),
        (b"[]\n[]x", false, false),
        (b"{\"a\":1}\n{\"a\"", false, true),
        (b" \n[] \t\r\n [2", false, true),
        (b"[]\n[]\n]", false, false),
        (b"", false, false),
        (b" ", false, false),
        (b"[ ", false, false),
        (b"[\"a", false, false),
        (b"[1 ", true, false),
        (b"[1.", false, false),
        (b"[-1 ", true, false),
        (b"[true", true, false),
        (b"[truth", false, false),
        (b"[false", true, false),
        (b"[null ", true, false),
        (b"[1e", false, false),
        (b"[[", true, false),
    ];
    for (buf, text, lines) in cases {
        assert_eq!(rt; is_json(buf), text);
        assert_eq!(rt; is_json_lines(buf), lines);
    }
}

#[test]
fn json_nesting(rt: HostRuntime) {
    let open = [b'['; 129];
    let mut closed = [b']'; 256];
    closed[..128].copy_from_slice(&open[..128]);
    assert!(rt; is_json(&open[..128]));
    assert!(rt; !is_json(&open));
    assert!(rt; is_json(&closed));
    assert!(rt; !is_json(&closed[1..]));
}
