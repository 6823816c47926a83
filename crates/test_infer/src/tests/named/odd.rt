//! Names whose oddities come from outside.
use infer_named::{Oddities, oddities};
use std::test::Fail;

const NONE: Oddities = Oddities {
    has_control: false,
    has_direction_mark: false,
    ends_oddly: false,
    has_two_extensions: false,
};

const CONTROL: Oddities = Oddities {
    has_control: true,
    ..NONE
};

const DIRECTION: Oddities = Oddities {
    has_direction_mark: true,
    ..NONE
};

const END: Oddities = Oddities {
    ends_oddly: true,
    ..NONE
};

const TWO: Oddities = Oddities {
    has_two_extensions: true,
    ..NONE
};

const NAMES: [(&[u8], Oddities); 52] = [
    (b"a\0.png", CONTROL),
    (b"a.png\n", CONTROL),
    (b"a\x1B[2J.png", CONTROL),
    (b"a\x7F.png", CONTROL),
    (b"a\xC2\x80.png", NONE),
    (b"\xE2\x80\xAEgnp.exe", DIRECTION),
    (b"a.exe\xE2\x80\xAEgnp.png", DIRECTION),
    (b"\xD8\x9C", DIRECTION),
    (b"a\xE2\x80\x8E", DIRECTION),
    (b"\xE2\x80\xE2\x80\x8F.png", DIRECTION),
    (b"x\xE2\x81\xA6/a.png", DIRECTION),
    (b"a\xE2\x81\xA9b", DIRECTION),
    (b"a\xE2\x80\x8D", NONE),
    (b"a\xE2\x80\x90", NONE),
    (b"a\xE2\x80\xA9", NONE),
    (b"a\xE2\x80\xAF", NONE),
    (b"a\xE2\x81\xA5", NONE),
    (b"a\xE2\x81\xAA", NONE),
    (b"a\xE2\x80", NONE),
    (b"a\xD8\x9D", NONE),
    (b"a.png.", END),
    (b"a.png ", END),
    (b".", END),
    (b"..", END),
    (b"libc.so.", END),
    (b"libc.so.6.", END),
    (b"Makefile.", END),
    (b"a./b", NONE),
    (b"a\\b ", END),
    (b"a.jpg.png", TWO),
    (b"a.png.jpg", TWO),
    (b"shell.php.png", TWO),
    (b"SHELL.PHP.a.b.PNG", TWO),
    (b"a.tar.png", TWO),
    (b"a.svg.gz", TWO),
    (b"a.tar..gz", TWO),
    (b"a.so.6.gz", TWO),
    (b"x.go.mod", TWO),
    (b"x.pom.xml", TWO),
    (b"index.html.erb", TWO),
    (b"a.d.ts", TWO),
    (b".x.png.jpg", TWO),
    (b"png.jpg", NONE),
    (b".png.jpg", NONE),
    (b"x.png/a.jpg", NONE),
    (b"a.tar.gz", NONE),
    (b"a.tar.tar.gz", NONE),
    (b"org.x.gschema.xml", NONE),
    (b"index.blade.php", NONE),
    (b"a.png.unknown", NONE),
    (b"a.png.bak", NONE),
    (b"", NONE),
];

#[test]
fn a_name_is_as_odd_as_it_is(rt: HostRuntime) -> Result<(), Fail> {
    for (name, odd) in NAMES {
        assert_eq!(rt; (name, oddities(name)), (name, odd));
    }
    Ok(())
}
