//! Why bytes have their answer, as a member of an object of JSON.
ghost use Rattle.std.specs.Prelude.{◌≡◌, ◌∷◌, [], false, map, option_map};
ghost use Rattle.infer.specs.Triple.{triple_of};
ghost use Rattle.infer_more.specs.Wider.{shown_at};
ghost use Rattle.infer_label.specs.Why.{reason_listed, why_listed};
ghost use Rattle.infer_label.specs.WhyJson.{accepts_member, answer_member, bool_value, bytes_members, bytes_value, extension_value, length_members, range_object, ranges_member, row_members, why_member, why_object};
ghost use Rattle.infer_label.specs.WhyText.{in_row, mark_if};
ghost use Rattle.infer_label.specs.Writes.{Writes};

use crate::names::write_hex;
use crate::room::Room;
use crate::why::{Reason, Why, type_of};
use infer::Type;

/// What stands between two ranges.
const COMMA: &[u8] = b",";

/// Writes why bytes have their answer, if that is asked for.
pub fn write_why_member(why: Option<&Why<'_>>, out: &mut Room<'_>)
    ensures { Writes out.old out.new (why_member (option_map (λ w. why_listed w.now) why.entry)) }
{
    if let Some(why) = why {
        write_why_object(why, out);
    }
}

fn write_why_object(why: &Why<'_>, out: &mut Room<'_>)
    ensures { Writes out.old out.new (why_object (why_listed why.now)) }
{
    write_answer_member(why.answer(), out);
    write_ranges_member(why, out);
    write_length_members(why, out);
}

fn write_answer_member(row: Option<usize>, out: &mut Room<'_>)
    ensures { Writes out.old out.new (answer_member row) }
{
    out.write(b",\"why\":{\"answer\":");
    write_extension_of(row, out);
}

fn write_ranges_member(why: &Why<'_>, out: &mut Room<'_>)
    ensures { Writes out.old out.new (ranges_member (why_listed why.now).reasons) }
{
    out.write(b",\"ranges\":[");
    write_ranges(why, out);
}

fn write_ranges(why: &Why<'_>, out: &mut Room<'_>)
    ensures { Writes out.old out.new (in_row COMMA.now false (map range_object (why_listed why.now).reasons)) }
{
    let mut before = false;
    for range in why.ranges() {
        write_range(&why.reason(range), before, out);
        before = true;
    }
}

/// Writes a range, after a comma if one stands before it.
fn write_range(reason: &Reason<'_>, before: bool, out: &mut Room<'_>)
    ensures { Writes out.old out.new (in_row COMMA.now before (range_object (reason_listed reason.now) ∷ [])) }
{
    write_comma(before, out);
    write_object(reason, out);
}

fn write_comma(before: bool, out: &mut Room<'_>)
    ensures { Writes out.old out.new (mark_if before COMMA.now) }
{
    if before {
        out.write(COMMA);
    }
}

fn write_object(reason: &Reason<'_>, out: &mut Room<'_>)
    ensures { Writes out.old out.new (range_object (reason_listed reason.now)) }
{
    write_bytes_members(reason, out);
    write_row_members(reason, out);
}

fn write_bytes_members(reason: &Reason<'_>, out: &mut Room<'_>)
    ensures { Writes out.old out.new (bytes_members (reason_listed reason.now)) }
{
    out.write(b"{\"place\":");
    out.write_number(reason.place);
    out.write(b",\"length\":");
    out.write_number(reason.len);
    out.write(b",\"step\":");
    out.write_number(reason.step as usize);
    out.write(b",\"bytes\":");
    write_bytes_value(reason, out);
}

/// Writes the bytes if they stand side by side, and else null.
fn write_bytes_value(reason: &Reason<'_>, out: &mut Room<'_>)
    ensures { Writes out.old out.new (bytes_value (reason_listed reason.now)) }
{
    if reason.step != 1 {
        return out.write(b"null");
    }
    out.write(b"\"");
    write_hex(reason.bytes, out);
    out.write(b"\"");
}

fn write_row_members(reason: &Reason<'_>, out: &mut Room<'_>)
    ensures { Writes out.old out.new (row_members (reason_listed reason.now)) }
{
    out.write(b",\"extension\":");
    write_extension_of(reason.row, out);
    write_accepts_member(reason.accepts, out);
}

fn write_accepts_member(accepts: bool, out: &mut Room<'_>)
    ensures { Writes out.old out.new (accepts_member accepts) }
{
    out.write(b",\"accepts\":");
    out.write_text(bool_value(accepts));
    out.write(b"}");
}

/// Writes what is needed of the length.
fn write_length_members(why: &Why<'_>, out: &mut Room<'_>)
    ensures { Writes out.old out.new (length_members (why_listed why.now)) }
{
    out.write(b"],\"least\":");
    out.write_number(why.least());
    out.write(b",\"exact\":");
    out.write_text(bool_value(why.is_exact()));
    out.write(b",\"whole\":");
    out.write_text(bool_value(why.is_whole()));
    out.write(b"}");
}

/// Writes the extension of a row, and null of none.
fn write_extension_of(row: Option<usize>, out: &mut Room<'_>)
    ensures { Writes out.old out.new (extension_value (shown_at row)) }
{
    write_extension_value(type_of(row), out);
}

fn write_extension_value(found: Option<Type>, out: &mut Room<'_>)
    ensures { Writes out.old out.new (extension_value (option_map triple_of found)) }
{
    match found {
        Some(found) => {
            out.write(b"\"");
            out.write_text(found.extension());
            out.write(b"\"");
        }
        None => out.write(b"null"),
    }
}

fn bool_value(is: bool) -> &'static str
    ensures { result.now ≡ bool_value is }
{
    if is { "true" } else { "false" }
}
