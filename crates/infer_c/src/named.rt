//! What a name and bytes say, as C has it.
ghost use Rattle.std.specs.Prelude.{◌≡◌, ◌+◌, ◌<◌, ◌≤◌, IfSome, option_map};
ghost use Rattle.infer.specs.Triple.{triple_of};
ghost use Rattle.infer.specs.declared.table.rows.TheConstants.{ROW_COUNT};
ghost use Rattle.infer_more.specs.Wider.{shown_at};
ghost use Rattle.infer_more.specs.declared.index.generated.TheConstants.{FURTHER_COUNT};
ghost use Rattle.infer_named.specs.Named.{told_listed};
ghost use Rattle.infer_c.specs.Named.{IsOddityCode, StoresNamed, WritesType, number_if, oddity_code, standing_code};
ghost use Rattle.infer_c.specs.Codes.{row_code};

use crate::written::write_text;
use infer::Type;
use infer_named::{Oddities, Standing, Told};

/// How many bytes are room for each text.
const ROOM: usize = 74;

/// A type by its texts, with a zero after each.
#[repr(C)]
pub struct TypeTexts {
    pub mime_type: [u8; ROOM],
    pub extension: [u8; ROOM],
    pub is_own_name: bool,
}

/// What a name and bytes say.
#[repr(C)]
pub struct NamedAnswer {
    pub standing: i32,
    pub row: i32,
    pub told: TypeTexts,
    pub name: TypeTexts,
}

/// Stores what the name and the bytes say.
pub fn store(name: &[u8], buf: &[u8], answer: &mut NamedAnswer)
    ensures { StoresNamed name.now buf.now answer.old answer.new }
{
    let wider = infer_more::position(buf);
    let named = infer_named::named_with(name, buf, type_of(wider));
    answer.standing = code(named.standing);
    answer.row = number(wider);
    write_type(named.told, &mut answer.told);
    write_type(named.type_of_name(), &mut answer.name);
}

/// The type of the row with this number.
fn type_of(row: Option<usize>) -> Option<Type>
    ensures { option_map triple_of result ≡ shown_at row }
{
    match row {
        Some(i) => infer_more::row(i),
        None => None,
    }
}

/// The number of the row, and -1 for none.
fn number(row: Option<usize>) -> i32
    requires { IfSome row (λ i. i < ROW_COUNT + FURTHER_COUNT) }
    ensures { result ≡ row_code row }
{
    match row {
        Some(i) => i as i32,
        None => -1,
    }
}

/// Writes the texts of a type, and stores whether it has an own name.
fn write_type(found: Option<Told>, texts: &mut TypeTexts)
    ensures { WritesType (option_map told_listed found) texts.old texts.new }
{
    match found {
        Some(told) => {
            write_text(told.mime_type(), &mut texts.mime_type);
            write_text(told.extension().unwrap_or(""), &mut texts.extension);
            texts.is_own_name = told.is_own_name();
        }
        None => {
            write_text("", &mut texts.mime_type);
            write_text("", &mut texts.extension);
            texts.is_own_name = false;
        }
    }
}

/// The number of a standing.
pub fn code(standing: Standing) -> i32
    ensures { result ≡ standing_code standing }
{
    match standing {
        Standing::Agree => 0,
        Standing::NameRefines => 1,
        Standing::BytesRefine => 2,
        Standing::BytesAlone => 3,
        Standing::NameAlone => 4,
        Standing::Contradicts => 5,
        Standing::Nothing => 6,
    }
}

/// The number of what is odd about the name.
pub fn oddities(name: &[u8]) -> u32
    ensures { IsOddityCode name.now result }
{
    oddity_code(infer_named::oddities(name))
}

/// The sum of the numbers of what is so.
fn oddity_code(odd: Oddities) -> u32
    ensures { result ≡ oddity_code odd }
{
    number_if(odd.has_control, 1)
        + number_if(odd.has_direction_mark, 2)
        + number_if(odd.ends_oddly, 4)
        + number_if(odd.has_two_extensions, 8)
}

/// The number if this is so, and else 0.
pub fn number_if(is_so: bool, number: u32) -> u32
    ensures value { result ≡ number_if is_so number }
    ensures most { result ≤ number }
{
    if is_so { number } else { 0 }
}
