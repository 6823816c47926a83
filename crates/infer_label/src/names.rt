//! Names and other given texts as they are printed, so that none of them moves a cursor, and none hides.
ghost use Rattle.std.specs.Prelude.{◌≡◌, ◌<◌, IsTrue, encode_utf8};
ghost use Rattle.std.specs.Int.{is_in_range};
ghost use Rattle.std.specs.List.{flat_map, list_all};
ghost use Rattle.std.specs.Str.{chars};
ghost use Rattle.infer_label.specs.Names.{before_mark, byte_hex, byte_shown, char_shown, code_shown, hex_digit, high_shown, is_escaped, is_mark, is_obeyed, is_plain, is_tag, is_unseen, name_shown, unseen_shown};
ghost use Rattle.infer_label.specs.Writes.{Writes};

use crate::options::Form;
use crate::room::Room;

/// Writes a name so that nothing of it is obeyed or hidden. A control, an end of a line, a mark of direction or a character of
/// which nothing is seen is `\u` and its four digits, and a tag two of these; a backslash stands before a backslash, in JSON
/// before a quotation mark too, and in CSV each of both is doubled. Of a name that is not UTF-8 each byte that is not ASCII is
/// `\x` and its two digits, and in JSON `\u` and four.
pub fn write_name(name: &[u8], form: Form, out: &mut Room<'_>)
    ensures { Writes out.old out.new (name_shown form name.now) }
{
    if is_plain(name) {
        return out.write(name);
    }
    match str::from_utf8(name) {
        Ok(text) => write_chars(text, form, out),
        Err(_) => write_bytes(name, form, out),
    }
}

/// Whether each byte is of ASCII and stands for itself.
fn is_plain(name: &[u8]) -> bool
    ensures { result ≡ list_all is_plain name.now }
{
    name.iter().all(|byte| is_plain_byte(*byte))
}

fn is_plain_byte(byte: u8) -> bool
    ensures { result ≡ is_plain byte }
{
    b' ' <= byte && byte < 0x7F && byte != b'"' && byte != b'\\'
}

fn write_chars(text: &str, form: Form, out: &mut Room<'_>)
    ensures { Writes out.old out.new (flat_map (char_shown form) (chars text.now)) }
{
    for c in text.chars() {
        write_char(c, form, out);
    }
}

fn write_bytes(name: &[u8], form: Form, out: &mut Room<'_>)
    ensures { Writes out.old out.new (flat_map (byte_shown form) name.now) }
{
    for byte in name {
        write_byte(*byte, form, out);
    }
}

fn write_char(c: char, form: Form, out: &mut Room<'_>)
    ensures { Writes out.old out.new (char_shown form c) }
{
    if is_escaped(c as u32) {
        return write_unseen(c as u32, out);
    }
    if is_mark(form, c as u32) {
        out.write(&[before_mark(form, c as u32)]);
        return write_itself(c, out);
    }
    write_itself(c, out);
}

fn write_itself(c: char, out: &mut Room<'_>)
    ensures { Writes out.old out.new (encode_utf8 c) }
{
    out.write_text(c.encode_utf8(&mut [0; 4]));
}

fn write_byte(byte: u8, form: Form, out: &mut Room<'_>)
    ensures { Writes out.old out.new (byte_shown form byte) }
{
    if byte >= 0x80 {
        write_high(byte, form, out);
    } else {
        write_char(char::from(byte), form, out);
    }
}

/// A byte that is not of ASCII.
fn write_high(byte: u8, form: Form, out: &mut Room<'_>)
    ensures { Writes out.old out.new (high_shown form byte) }
{
    match form {
        Form::Text | Form::Mime | Form::Csv => {
            out.write(&[b'\\', b'x', hex_digit(byte / 16 % 16), hex_digit(byte % 16)]);
        }
        Form::Json => write_code(u32::from(byte), out),
    }
}

/// A character that is escaped. A tag takes two escapes, since four digits are no room for its number.
fn write_unseen(code: u32, out: &mut Room<'_>)
    ensures { Writes out.old out.new (unseen_shown code) }
{
    if is_tag(code) {
        write_code(0xDB40, out);
        return write_code(0xDC00 + code % 1024, out);
    }
    write_code(code, out);
}

/// `\u` and four digits.
fn write_code(code: u32, out: &mut Room<'_>)
    ensures { Writes out.old out.new (code_shown code) }
{
    out.write(&[
        b'\\',
        b'u',
        hex_digit((code / 4096 % 16) as u8),
        hex_digit((code / 256 % 16) as u8),
        hex_digit((code / 16 % 16) as u8),
        hex_digit((code % 16) as u8),
    ]);
}

/// Writes bytes in hexadecimal.
pub fn write_hex(bytes: &[u8], out: &mut Room<'_>)
    ensures { Writes out.old out.new (flat_map byte_hex bytes.now) }
{
    for byte in bytes {
        out.write(&[hex_digit(*byte / 16 % 16), hex_digit(*byte % 16)]);
    }
}

/// The digit of a number below 16.
fn hex_digit(n: u8) -> u8
    requires { n < 16 }
    ensures { result ≡ hex_digit n }
{
    if n < 10 { b'0' + n } else { b'a' - 10 + n }
}

fn is_escaped(c: u32) -> bool
    ensures { result ≡ is_escaped c }
{
    is_obeyed(c) || is_unseen(c)
}

/// Whether a terminal or a reader of lines obeys the character: a control, an end of a line or a mark of direction.
fn is_obeyed(c: u32) -> bool
    ensures { result ≡ is_obeyed c }
{
    c < 0x20
        || is_between(c, 0x7F, 0x9F)
        || c == 0x061C
        || is_between(c, 0x200E, 0x200F)
        || is_between(c, 0x2028, 0x202E)
        || is_between(c, 0x2066, 0x2069)
}

/// Whether nothing is seen of the character, or a blank that is none: a soft hyphen, a joiner, a filler, a mark of byte order
/// or of notes, or a tag.
fn is_unseen(c: u32) -> bool
    ensures { result ≡ is_unseen c }
{
    c == 0x00AD
        || c == 0x034F
        || c == 0x180E
        || c == 0x200B
        || c == 0x2060
        || c == 0x2800
        || c == 0x3164
        || c == 0xFEFF
        || is_between(c, 0xFFF9, 0xFFFB)
        || is_tag(c)
}

fn is_tag(c: u32) -> bool
    ensures { result ≡ is_tag c }
{
    is_between(c, 0xE0000, 0xE007F)
}

fn is_between(c: u32, least: u32, most: u32) -> bool
    ensures { result ≡ is_in_range least most c }
{
    least <= c && c <= most
}

/// Whether something stands before the character.
fn is_mark(form: Form, c: u32) -> bool
    ensures { result ≡ is_mark form c }
{
    match form {
        Form::Text | Form::Mime => c == 0x5C,
        Form::Json | Form::Csv => c == 0x5C || c == 0x22,
    }
}

/// What stands before it: itself in CSV, and else a backslash.
fn before_mark(form: Form, c: u32) -> u8
    requires { IsTrue (is_mark form c) }
    ensures { result ≡ before_mark form c }
{
    match form {
        Form::Text | Form::Mime | Form::Json => 0x5C,
        Form::Csv => c as u8,
    }
}
