//! What no clause says: that a line is as others write it, and that a room that is short holds the front of it.
use infer_label::{Form, Look, Note, Options, write_line, write_note};

/// A line, in a room with marks after it.
fn told(options: Options<'_>, name: &[u8], buf: &[u8], room: &mut [u8]) -> usize {
    for byte in room.iter_mut() {
        *byte = b'~';
    }
    write_line(options, name, buf, room).len
}

/// Lines by the forms, of a name that its bytes contradict.
#[test]
fn each_form_has_its_line(rt: HostRuntime) {
    let cases: [(Form, &[u8]); 4] = [
        (
            Form::Text,
            b"a.pdf: image/png png, but named as application/pdf\n",
        ),
        (Form::Mime, b"a.pdf: image/png; charset=binary\n"),
        (
            Form::Json,
            b"{\"name\":\"a.pdf\",\"mime_type\":\"image/png\",\"extension\":\"png\",\"standing\":\"contradicts\",\"verdict\":\"lies\",\"named\":\"application/pdf\"}\n",
        ),
        (
            Form::Csv,
            b"\"a.pdf\",image/png,png,image,,contradicts,application/pdf,pdf,9,,\n",
        ),
    ];
    for (form, text) in cases {
        let mut room = [0; 256];
        let options = Options {
            form,
            size: Some(9),
            ..Options::new()
        };
        let len = told(
            options,
            b"a.pdf",
            b"\x89PNG\r\n\x1A\n\0",
            room.as_mut_slice(),
        );
        assert_eq!(rt; &room[..len], text);
    }
}

/// A room of each size holds the front of the line, and nothing is written after it.
#[test]
fn a_short_room_holds_the_front(rt: HostRuntime) {
    let mut whole = [0; 128];
    let len = told(
        Options::new(),
        b"main.py",
        b"import os\n",
        whole.as_mut_slice(),
    );
    assert_eq!(rt;
        &whole[..len],
        b"main.py: text/x-python py, us-ascii\n".as_slice()
    );
    for size in 0..128 {
        let mut room = [0; 128];
        let short = &mut room[..size];
        assert_eq!(rt;
            told(Options::new(), b"main.py", b"import os\n", short),
            len
        );
        assert_eq!(rt; &room[..size], &whole[..size]);
        assert_eq!(rt; &room[size..], &[0; 128][..128 - size]);
    }
}

/// Nothing of a name is obeyed or hidden, and no table makes a sum of it.
#[test]
fn names_are_escaped(rt: HostRuntime) {
    let cases: [(Form, &[u8], &[u8]); 13] = [
        (Form::Text, b"a\nb", b"a\\u000ab"),
        (
            Form::Text,
            "a\u{200B}\u{FEFF}b".as_bytes(),
            b"a\\u200b\\ufeffb",
        ),
        (Form::Json, "\u{E0041}".as_bytes(), b"\\udb40\\udc41"),
        (Form::Text, b"\xFF\\", b"\\xff\\\\"),
        (Form::Json, b"\"", b"\\\""),
        (Form::Csv, b"say \"no\"", b"say \"\"no\"\""),
        (Form::Csv, b"=1+1", b"./=1+1"),
        (Form::Csv, b"\xEF\xBC\x9D1+1", b"./\xEF\xBC\x9D1+1"),
        (Form::Csv, b"\xEF\xBC\x8B1", b"./\xEF\xBC\x8B1"),
        (Form::Csv, b"\xEF\xBC\x8D1", b"./\xEF\xBC\x8D1"),
        (Form::Csv, b"\xEF\xBC\xA01", b"./\xEF\xBC\xA01"),
        (Form::Csv, b"\xEF\xBC\xA11", b"\xEF\xBC\xA11"),
        (Form::Mime, "\u{202E}".as_bytes(), b"\\u202e"),
    ];
    for (form, name, shown) in cases {
        let mut room = [0; 128];
        let options = Options {
            form,
            ..Options::new()
        };
        let len = write_note(options, Note::Kind, name, b"fifo", room.as_mut_slice());
        let start = match form {
            Form::Text | Form::Mime => 0,
            Form::Json => 9,
            Form::Csv => 1,
        };
        assert!(rt; len > start);
        assert!(rt; room[start..len].starts_with(shown));
    }
}

/// What is left out is left out.
#[test]
fn a_name_can_be_left_out(rt: HostRuntime) {
    let cases: [(Form, &[u8]); 4] = [
        (Form::Text, b"empty\n"),
        (Form::Mime, b"inode/x-empty; charset=binary\n"),
        (Form::Json, b"{\"mime_type\":null,\"empty\":true}\n"),
        (Form::Csv, b"empty,,,,,,,,,\n"),
    ];
    for (form, text) in cases {
        let mut room = [0; 64];
        let options = Options {
            form,
            look: Look::Bytes,
            is_unnamed: true,
            ..Options::new()
        };
        let len = write_line(options, b"a", b"", room.as_mut_slice()).len;
        assert_eq!(rt; &room[..len], text);
    }
}
