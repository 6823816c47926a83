use infer_formats::json::{
    first_dark, first_key, has_first_key, has_first_key_with, may_have_first_key,
    may_have_first_key_with,
};

// By hand. What stands after the colon may be anything.
#[test]
fn first_keys(rt: HostRuntime) {
    let cases: [(&[u8], bool, bool); 17] = [
        (b"{\"cells\":", true, true),
        (b"{\"cells\": [", true, true),
        (b" \t\n\r{ \t\n\r\"cells\" \t\n\r:", true, true),
        (b"\xEF\xBB\xBF{\"cells\":", true, true),
        (b"\xEF\xBB\xBF\n{\n\"cells\"\n:\n", true, true),
        (b"\xEF\xBB\xBF\xEF\xBB\xBF{\"cells\":", false, true),
        (b"{\"cells\"", false, true),
        (b"{\"cell\":", false, true),
        (b"{\"cells \":", false, true),
        (b"{\"Cells\":", false, true),
        (b"{\"a\":1,\"cells\":", false, true),
        (b"{\x0B\"cells\":", false, true),
        (b"[\"cells\":", false, true),
        (b"\"cells\":", false, false),
        (b"\x0B{\"cells\":", false, false),
        (b" \n", false, true),
        (b"", false, true),
    ];
    for (buf, is, may) in cases {
        assert_eq!(rt; has_first_key(buf, b"cells"), is);
        assert_eq!(rt; may_have_first_key(buf, b"cells"), may);
    }
}

#[test]
fn first_keys_with_values(rt: HostRuntime) {
    let cases: [(&[u8], bool); 9] = [
        (b"{\"type\":\"Point\"", true),
        (b"\xEF\xBB\xBF {\n\"type\" : \r\n\"Point\",", true),
        (b"{\"type\":\"Point", false),
        (b"{\"type\":\"Points\"", false),
        (b"{\"type\":\"point\"", false),
        (b"{\"type\":[\"Point\"", false),
        (b"{\"types\":\"Point\"", false),
        (b"{\"type\" \"Point\"", false),
        (b"{\"type\":", false),
    ];
    for (buf, expected) in cases {
        assert_eq!(rt; has_first_key_with(buf, b"type", b"Point"), expected);
        assert!(rt; may_have_first_key_with(buf, b"type", b"Point"));
    }
    let never: [&[u8]; 2] = [b"\"type\":\"Point\"", b"\x0B{\"type\":\"Point\""];
    for buf in never {
        assert!(rt; !may_have_first_key_with(buf, b"type", b"Point"));
    }
}

// Long white space, and a key without an end.
#[test]
fn first_keys_far(rt: HostRuntime) {
    let mut buf = [b' '; 4096];
    assert!(rt; !has_first_key(&buf, b"cells"));
    assert!(rt; may_have_first_key(&buf, b"cells"));
    let key = b"{\"cells\":";
    for at in 0..9 {
        buf[4096 - 9 + at] = key[at];
    }
    assert!(rt; has_first_key(&buf, b"cells"));
    let mut open = [b'c'; 4096];
    open[0] = b'{';
    open[1] = b'"';
    assert!(rt; !has_first_key(&open, b"cells"));
    assert!(rt; !has_first_key_with(&open, b"c", b"c"));
}

// A key that is read for all rows ends at the next quote.
#[test]
fn first_keys_for_all(rt: HostRuntime) {
    let cases: [(&[u8], &[u8], &[u8]); 4] = [
        (b"{\"type\":\"Point\"", b"type", b"\"Point\""),
        (b"\xEF\xBB\xBF {\n\"\" : 1", b"", b" 1"),
        (b"{\"a\\\":", b"a\\", b""),
        (b" { \"cells\" :", b"cells", b""),
    ];
    for (buf, text, rest) in cases {
        match first_key(buf) {
            Some(key) => {
                assert!(rt; key.text == text);
                assert!(rt; key.rest == rest);
                assert_eq!(rt; key.has_value(b"Point"), text.len() == 4);
            }
            None => assert!(rt; false),
        }
    }
    assert!(rt; first_key(b"{\"cells\"").is_none());
    assert_eq!(rt; first_dark(b" \t\r\n<"), Some(b'<'));
    assert_eq!(rt; first_dark(b" \n"), None);
}
