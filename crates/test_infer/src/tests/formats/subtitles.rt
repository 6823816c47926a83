use infer_formats::subtitles::is_subrip;

#[test]
fn subtitles(rt: HostRuntime) {
    let cases: [(&[u8], bool); 10] = [
        (b"1\x0A00:00:00,000 --> 00:00:01,000", true),
        (b"1\x0A00:00:00,000 --> 00:00:01,00", false),
        (b"a\x0A00:00:00,000 --> 00:00:01,000", false),
        (b"\xEF\xBB\xBF1\x0A00:00:00,000 --> 00:00:01,000", true),
        (b"1\x0A00:00:00.000 --> 00:00:01.000", true),
        (b"000000001\x0A00:00:00,000 --> 00:00:01,000", true),
        (b"\x0A1\x0A00:00:00,000 --> 00:00:01,000", false),
        (b"1\x0A00:00:00,000--> 00:00:01,000", false),
        (b"1\x0A0:00:00,000 --> 00:00:01,000", false),
        (b"1\x0A00:00:00,000 --> 00:00:01,000\x00", true),
    ];
    for (buf, expected) in cases {
        assert_eq!(rt; is_subrip(buf), expected);
    }
}
