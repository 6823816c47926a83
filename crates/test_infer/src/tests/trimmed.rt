//! Which bytes may stand before markup.
use infer_deep::text::is_html;

#[test]
fn white_space_before_a_tag(rt: HostRuntime) {
    for byte in *b"\x09\x0A\x0C\x0D\x20" {
        assert!(rt; is_html(&[byte, b'<', b'P', b'>']));
    }
    assert!(rt; is_html(b"\x09\x0A\x0C\x0D\x20<p>"));
    assert!(rt; !is_html(b"\x0B<p>"));
}
