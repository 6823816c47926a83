use infer_formats::id3::{is_behind_id3, may_be_behind_id3};

// Written by hand from sections 3.1 and 6.2 of the tag's main structure.
#[test]
fn after_tags(rt: HostRuntime) {
    let cases: [(&[u8], bool, bool); 8] = [
        (b"ID3\x04\0\0\0\0\0\0fLaC", true, true),
        (b"ID3\x04\0\0\0\0\0\x02..fLaC", true, true),
        (b"ID3\x04\0\0\0\0\0\x02.fLaC", false, false),
        (b"ID3\x04\0\0\0\0\0\x02..fLa", false, true),
        (b"ID3\x04\0\0\0\0\0", false, true),
        (b"ID3\x04\0\0\0\0\0\x80fLaC", false, true),
        (b"ID3\x04\0\0\x7F\x7F\x7F\x7FfLaC", false, true),
        (b"ID2\x04\0\0\0\0\0\0fLaC", false, false),
    ];
    for (buf, is, may) in cases {
        assert_eq!(rt; is_behind_id3(buf, b"fLaC"), is);
        assert_eq!(rt; may_be_behind_id3(buf, b"fLaC"), may);
    }
}
