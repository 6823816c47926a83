use infer_formats::tiff::{
    first_directory_has_either, first_directory_has_tag, first_directory_has_tag_and_make,
    first_directory_may_have_tag, first_directory_may_have_tag_and_make,
};

#[test]
fn negatives(rt: HostRuntime) {
    let cases: [(&[u8], bool); 10] = [
        (
            b"II*\x00\x0A\x00\x00\x00\x00\x00\x01\x00\x12\xC6\x01\x00\x04\x00\x00\x00\x00\x00\x00\x00",
            true,
        ),
        (
            b"II*\x00\x0A\x00\x00\x00\x00\x00\x01\x00\x12\xC6\x01\x00\x04\x00\x00\x00\x00\x00\x00",
            false,
        ),
        (
            b"MM\x00*\x00\x00\x00\x0A\x00\x00\x00\x01\xC6\x12\x00\x01\x00\x00\x00\x04\x00\x00\x00\x00",
            true,
        ),
        (
            b"II*\x00\x08\x00\x00\x00\x01\x00\x12\xC6\x01\x00\x04\x00\x00\x00\x00\x00\x00\x00",
            true,
        ),
        (
            b"II*\x00\x08\x00\x00\x00\x01\x00\x13\xC6\x01\x00\x04\x00\x00\x00\x00\x00\x00\x00",
            false,
        ),
        (
            b"II*\x00\x08\x00\x00\x00\x02\x00\xFE\x00\x01\x00\x04\x00\x00\x00\x00\x00\x00\x00\x12\xC6\x01\x00\x04\x00\x00\x00\x00\x00\x00\x00",
            true,
        ),
        (
            b"II*\x00\x08\x00\x00\x00\xFF\xFF\xFE\x00\x01\x00\x04\x00\x00\x00\x00\x00\x00\x00\x12\xC6\x01\x00\x04\x00\x00\x00\x00\x00\x00\x00",
            true,
        ),
        (
            b"II*\x00\x08\x00\x00\x00\x00\x00\x12\xC6\x01\x00\x04\x00\x00\x00\x00\x00\x00\x00",
            false,
        ),
        (
            b"II*\x00\xFF\xFF\xFF\xFF\x00\x00\x00\x00\x00\x00\x00\x00\x00\x00\x00\x00\x00\x00\x00\x00\x00\x00\x00\x00",
            false,
        ),
        (
            b"II*\x00\x08\x00\x00\x00\x01\x00\xC6\x12\x01\x00\x04\x00\x00\x00\x00\x00\x00\x00",
            false,
        ),
    ];
    for (buf, expected) in cases {
        assert_eq!(rt; first_directory_has_tag(buf, 0xC612), expected);
        assert_eq!(rt; first_directory_has_either(buf, 0xC612, 0x014A), expected);
        assert_eq!(rt; first_directory_has_either(buf, 0x014A, 0xC612), expected);
    }
}

// By hand: a directory at 8 with two entries, the first of the make, whose text stands at 34, the second of the tag 014A.
#[test]
fn makes(rt: HostRuntime) {
    let little: &[u8] =
        b"II*\0\x08\0\0\0\x02\0\x0F\x01\x02\0\x06\0\0\0\x22\0\0\0\x4A\x01\x04\0\x01\0\0\0\x22\0\0\0NIKON\0";
    let big: &[u8] =
        b"MM\0*\0\0\0\x08\0\x02\x01\x0F\0\x02\0\0\0\x06\0\0\0\x22\x01\x4A\0\x04\0\0\0\x01\0\0\0\x22NIKON\0";
    for buf in [little, big] {
        assert!(rt; first_directory_has_tag_and_make(buf, 0x014A, b"NIKON"));
        assert!(rt; first_directory_has_tag_and_make(buf, 0x014A, b"NIKON\0"));
        assert!(rt; first_directory_has_tag_and_make(buf, 0x010F, b"N"));
        assert!(rt; !first_directory_has_tag_and_make(buf, 0x014A, b"SONY"));
        assert!(rt; !first_directory_has_tag_and_make(buf, 0x014A, b"NIKON\0\0"));
        assert!(rt; !first_directory_has_tag_and_make(buf, 0xC612, b"NIKON"));
        assert!(rt; !first_directory_has_tag_and_make(&buf[..38], 0x014A, b"NIKON"));
        assert!(rt; !first_directory_may_have_tag(buf, 0xC612));
        assert!(rt; first_directory_may_have_tag(buf, 0x014A));
        assert!(rt; !first_directory_may_have_tag_and_make(buf, 0xC612, b"NIKON"));
        for length in 0..buf.len() {
            assert!(rt; first_directory_may_have_tag_and_make(&buf[..length], 0x014A, b"NIKON"));
        }
    }
}
