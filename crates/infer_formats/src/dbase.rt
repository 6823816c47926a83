//! dBASE tables, by their header: dBASE table file format (dBase knowledge base), the table file header and the field
//! descriptors.
ghost use Rattle.std.specs.Prelude.{◌≡◌, ◌↔◌, ◌≤◌, ℕ, length, slice_index, codes, IsTrue};
ghost use Rattle.infer_formats.specs.Dbase.{BeginsName, EndsFields, HasField, IsDated, IsDbase, IsOneOf, after, versions};

mod may_become;

use infer_deep::numbers::le16;
pub use may_become::may_become_dbase;

/// The version of the file.
const VERSION: usize = 0;
/// The month of the last update.
const MONTH: usize = 2;
/// And its day.
const DAY: usize = 3;
/// How long the header is, in two bytes.
const HEADER_LENGTH: usize = 8;
/// How long a record is.
const RECORD_LENGTH: usize = 10;
/// Two bytes that are zero.
const RESERVED: usize = 12;
/// The first field descriptor, which begins with its name.
const FIELD: usize = 32;
/// The type of that field.
const FIELD_TYPE: usize = 43;
/// The size of a field descriptor.
const FIELD_SIZE: usize = 32;
/// The least header: itself, one field, and the byte that ends the fields.
const LEAST: usize = 65;
/// The byte after the last field descriptor.
const FIELDS_END: u8 = 0x0D;
/// The versions: FoxBASE.
const FOXBASE: u8 = 0x02;
/// dBASE III PLUS, and with a memo file.
const DBASE_3: u8 = 0x03;

const DBASE_3_MEMO: u8 = 0x83;
/// dBASE IV with a memo file, its SQL tables, with a memo file too, and its SQL system files.
const DBASE_4_MEMO: u8 = 0x8B;

const DBASE_4_SQL: u8 = 0x43;

const DBASE_4_SQL_MEMO: u8 = 0xCB;

const DBASE_4_SYSTEM: u8 = 0x63;
/// FoxPro 2 with a memo file.
const FOXPRO_2_MEMO: u8 = 0xF5;
/// Visual FoxPro, whose header has a backlink after the fields, with fields that count up, and with those of any length.
const VISUAL_FOXPRO: u8 = 0x30;

const VISUAL_FOXPRO_COUNTS: u8 = 0x31;

const VISUAL_FOXPRO_VARCHAR: u8 = 0x32;
/// The size of that backlink.
const BACKLINK_SIZE: usize = 263;
/// The last month of a year, and the last day of a month.
const LAST_MONTH: u8 = 12;

const LAST_DAY: u8 = 31;

/// The header of a dBASE table.
#[inline(never)]
pub fn is_dbase(buf: &[u8]) -> bool
    ensures { IsTrue result ↔ IsDbase buf.now }
{
    if buf.len() < LEAST || !is_dated(buf) || !has_field(buf) || le16(buf, RECORD_LENGTH) < 2 {
        return false;
    }
    ends_fields(buf)
}

fn is_dated(buf: &[u8]) -> bool
    requires { 65 ≤ length buf.now }
    ensures { IsTrue result ↔ IsDated buf.now }
{
    is_version(buf[VERSION])
        && is_within(buf[MONTH], LAST_MONTH)
        && is_within(buf[DAY], LAST_DAY)
        && has_zeros(buf)
}

fn has_zeros(buf: &[u8]) -> bool
    requires { 65 ≤ length buf.now }
    ensures { IsTrue result ↔ ((slice_index buf.now 12 ≡ 0) × (slice_index buf.now 13 ≡ 0)) }
{
    buf[RESERVED] == 0 && buf[RESERVED + 1] == 0
}

fn has_field(buf: &[u8]) -> bool
    requires { 65 ≤ length buf.now }
    ensures { IsTrue result ↔ HasField buf.now }
{
    begins_name(buf[FIELD]) && is_kind(buf[FIELD_TYPE])
}

fn is_version(byte: u8) -> bool
    ensures { IsTrue result ↔ IsOneOf versions byte }
{
    matches!(
        byte,
        FOXBASE
            | DBASE_3
            | VISUAL_FOXPRO
            | VISUAL_FOXPRO_COUNTS
            | VISUAL_FOXPRO_VARCHAR
            | DBASE_4_SQL
            | DBASE_4_SYSTEM
            | DBASE_3_MEMO
            | DBASE_4_MEMO
            | DBASE_4_SQL_MEMO
            | FOXPRO_2_MEMO
    )
}

/// Whether a month or a day, which begin at 1, is in its range.
fn is_within(byte: u8, last: u8) -> bool
    ensures { IsTrue result ↔ ((1 ≤ byte) × (byte ≤ last)) }
{
    byte >= 1 && byte <= last
}

fn begins_name(byte: u8) -> bool
    ensures { IsTrue result ↔ BeginsName byte }
{
    matches!(byte, b'A'..=b'Z' | b'a'..=b'z' | b'_')
}

fn is_kind(byte: u8) -> bool
    ensures { IsTrue result ↔ IsOneOf (codes "+@BCDFGILMNOPTVXY") byte }
{
    b"+@BCDFGILMNOPTVXY".contains(&byte)
}

/// How many bytes of the header stand from the end of the fields on.
fn after(version: u8) -> usize
    ensures is { result ≡ after version }
    ensures some { 1 ≤ result }
    ensures few { result ≤ 264 }
{
    if version >= VISUAL_FOXPRO && version <= VISUAL_FOXPRO_VARCHAR {
        BACKLINK_SIZE + 1
    } else {
        1
    }
}

/// Whether whole fields of 32 bytes end where the header says.
fn ends_fields(buf: &[u8]) -> bool
    requires { 65 ≤ length buf.now }
    ensures { IsTrue result ↔ ((e : ℕ) × EndsFields buf.now e) }
{
    let length = le16(buf, HEADER_LENGTH) as usize;
    let after = after(buf[VERSION]);
    if length < after + FIELD + FIELD_SIZE || length - after >= buf.len() {
        return false;
    }
    let end = length - after;
    end % FIELD_SIZE == 0 && buf[end] == FIELDS_END
}
