//! The examples of the documentation. Each block there stands here, where it is compiled and run.
use infer::{Infer, Watched, rows};
use infer_more::types;
use infer_sniff::{Sniffer, Verdict};
use mime_sniff::{Computed, Supplied};
use std::test::Fail;

#[test]
fn answers(rt: HostRuntime) -> Result<(), Fail> {
    // infer::get
    let found = infer::get(b"\xFF\xD8\xFF\xE0").ok_or("a JPEG image")?;
    assert_eq!(rt; found.mime_type(), "image/jpeg");
    assert_eq!(rt; found.extension(), "jpg");
    // infer::position
    assert_eq!(rt; infer::position(b"GIF89a"), Some(rows::GIF));
    assert_eq!(rt; infer::position(b"plain text"), None);
    // infer::row
    assert!(rt; infer::row(rows::GIF) == infer::get(b"GIF89a"));
    // infer::is
    let gif = b"GIF89a%PDF";
    assert!(rt; infer::is(gif, "gif") && infer::is(gif, "pdf"));
    assert!(rt; infer::get(gif).map(|it| it.extension()) == Some("gif"));
    // infer::is_mime
    assert!(rt; infer::is_mime(b"GIF89a", "image/gif"));
    // infer::is_image
    assert!(rt; infer::is_image(b"GIF89a") && !infer::is_image(b"%PDF-1.7"));
    // infer::is_supported
    assert!(rt; infer::is_supported("png") && !infer::is_supported("PNG"));
    // infer::is_mime_supported
    assert!(rt; infer::is_mime_supported("image/png"));
    // infer_sig::image::is_jpeg
    assert!(rt; infer::image::is_jpeg(b"\xFF\xD8\xFF\xE0"));
    Ok(())
}

#[test]
fn growing(rt: HostRuntime) -> Result<(), Fail> {
    // infer::is_decided
    assert!(rt; infer::is_decided(b"MZ") && !infer::is_decided(b"M"));
    // infer::position_for_good
    assert_eq!(rt; infer::position_for_good(b"MZ"), Some(Some(rows::EXE)));
    assert_eq!(rt; infer::position_for_good(b"M"), None);
    // infer::may_become
    assert!(rt; infer::may_become(b"\x89P", rows::PNG) && !infer::may_become(b"\x89X", rows::PNG));
    // infer_sniff::Sniffer::push
    let mut sniffer = Sniffer::new(rt.alloc())?;
    let verdict = sniffer.push(b"\x89PNG");
    assert!(rt; matches!(verdict, Verdict::SoFar(Some(_))));
    Ok(())
}

#[test]
fn inputs(rt: HostRuntime) -> Result<(), Fail> {
    // infer::get_from_path
    let answer = infer::get_from_path(&rt, rt.alloc(), "/no/such/photo.jpg");
    assert!(rt; matches!(answer, Err(infer::Fault::Open(_))));
    // infer::Infer::get_from_reader
    let photo: &[u8] = b"\xFF\xD8\xFF\xE0";
    let mut watched = Watched::new(photo);
    let found = Infer::new().get_from_reader(rt.alloc(), &mut watched)?;
    assert!(rt; found.map(|it| it.extension()) == Some("jpg"));
    Ok(())
}

#[test]
fn wider(rt: HostRuntime) -> Result<(), Fail> {
    // infer_more::get
    let found = infer_more::get(b"{\"name\": 1}").ok_or("JSON")?;
    assert_eq!(rt; found.mime_type(), "application/json");
    // infer_more::is_text
    assert!(rt; infer_more::is_text(b"plain text") && !infer_more::is_text(b"\0"));
    // infer_more::encoding
    let encoding = infer_more::encoding("für".as_bytes());
    assert!(rt; encoding.map(|it| it.name()) == Some("utf-8"));
    // infer_more::is_decided
    assert!(rt; infer_more::is_decided(b"\0asm\x01\0\0\0") && !infer_more::is_decided(b"\0asm"));
    // infer_more::types::get
    let text = b"draw image/x-drawing image - 4: @0 \"DRAW\"";
    let found = types::get(text, b"DRAW 1").ok_or("a drawing")?;
    assert_eq!(rt; found.mime_type(), "image/x-drawing");
    Ok(())
}

#[test]
fn content_types(rt: HostRuntime) -> Result<(), Fail> {
    // mime_sniff::go::detect_content_type
    let told = mime_sniff::go::detect_content_type(b"<p>Hello");
    assert_eq!(rt; told, "text/html; charset=utf-8");
    // mime_sniff::compute
    let supplied = Supplied {
        mime_type: mime_types::parse(b"image/png"),
        no_sniff: false,
        check_for_apache_bug: false,
    };
    let computed = mime_sniff::compute(&supplied, b"GIF89a");
    assert!(rt; matches!(computed, Computed::Sniffed("image/gif")));
    // mime_sniff::may_be_scriptable
    assert!(rt; mime_sniff::may_be_scriptable(b" <scr") && !mime_sniff::may_be_scriptable(b"GIF"));
    // mime_sniff::Sniffer
    let mut sniffer = mime_sniff::Sniffer::new();
    sniffer.push(b"GIF");
    sniffer.push(b"89a");
    assert_eq!(rt; sniffer.kept(), b"GIF89a".as_slice());
    Ok(())
}

#[test]
fn mime_types_of_headers(rt: HostRuntime) -> Result<(), Fail> {
    // mime_types::parse
    let found = mime_types::parse(b"Text/HTML; charset=utf-8").ok_or("a MIME type")?;
    assert!(rt; found.is_html());
    // mime_types::MimeType::parameter
    let found = mime_types::parse(b"text/html; charset=\"utf-8\"").ok_or("a MIME type")?;
    let value = found.parameter(b"charset").ok_or("a charset")?;
    assert_eq!(rt; value.text, b"utf-8".as_slice());
    // mime_types::extract
    let found = mime_types::extract(b"text/html;charset=gbk, text/html").ok_or("a MIME type")?;
    assert!(rt; found.mime_type.is_html());
    assert_eq!(rt; found.charset.ok_or("a charset")?.text, b"gbk".as_slice());
    // mime_types::Extracted::write
    let found = mime_types::extract(b"text/html;charset=gbk, text/html").ok_or("a MIME type")?;
    let mut out = [0; 21];
    assert!(rt; matches!(found.write(&mut out), Ok(21)) && out == *b"text/html;charset=gbk");
    // mime_types::Pieces
    let mut pieces = mime_types::Pieces::new(b"a, \"b,c\"");
    assert_eq!(rt; pieces.next(), Some(b"a".as_slice()));
    assert_eq!(rt; pieces.next(), Some(b"\"b,c\"".as_slice()));
    assert_eq!(rt; pieces.next(), None);
    // mime_types::is_nosniff
    assert!(rt; mime_types::is_nosniff(b"NoSniff, x"));
    Ok(())
}
