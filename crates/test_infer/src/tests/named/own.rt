//! Types of a text beside names.
use infer_named::{NamedBy, Standing, named_by};
use std::test::Fail;

/// Neither has a further row: a drawing, and a picture inside TIFF.
const TYPES: &[u8] =
    b"# mine\ndraw image/x-drawing image - 4: @0 \"DRAW\"\nshot image/x-shot image tif 10: @8 \"SH\"\n";

/// Each name and bytes, the type of the text that they tell, and else what the name did.
const ASKED: [(&[u8], &[u8], &str, Option<Standing>); 6] = [
    (b"main.py", b"DRAW 1", "image/x-drawing", None),
    (b"a.draw", b"DRAW 1", "image/x-drawing", None),
    (b"a.tif", b"II*\0\x08\0\0\0SH", "image/x-shot", None),
    (b"a.tif", b"II*\0\x08\0\0\0HS", "", Some(Standing::Agree)),
    (
        b"a.png",
        b"\0\0\0\0\0\0\0\0SH",
        "",
        Some(Standing::Contradicts),
    ),
    (b"main.py", b"import os\n", "", Some(Standing::NameRefines)),
];

#[test]
fn own_types_come_before_names(rt: HostRuntime) -> Result<(), Fail> {
    for (name, bytes, mime_type, standing) in ASKED {
        let told = match named_by(TYPES, name, bytes) {
            NamedBy::Own(found) => (found.mime_type(), None),
            NamedBy::Named(found) => ("", Some(found.standing)),
        };
        assert_eq!(rt; told, (mime_type, standing));
    }
    // A text with a mistake describes no types.
    let told = match named_by(b"draw\n", b"main.py", b"import os\n") {
        NamedBy::Own(_) => None,
        NamedBy::Named(found) => Some(found.standing),
    };
    assert_eq!(rt; told, Some(Standing::NameRefines));
    Ok(())
}
