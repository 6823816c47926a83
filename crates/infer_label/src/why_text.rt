//! Why bytes have their answer, in words.
ghost use Rattle.std.specs.Prelude.{◌≡◌, ◌<◌, ◌==◌, ◌∷◌, ◌++◌, [], codes, false, if◌then◌else◌, option_map};
ghost use Rattle.std.specs.Fmt.{decimal};
ghost use Rattle.std.specs.List.{flat_map, list_any};
ghost use Rattle.infer.specs.Triple.{triple_of};
ghost use Rattle.infer_label.specs.Why.{reason_listed, why_listed};
ghost use Rattle.infer_label.specs.WhyText.{are_shown, byte_shown, bytes_text, class_word, counted, has_first, in_row, is_other, large_digit, length_texts, mark_if, other_texts, own_texts, place_text, reaches, reason_text, reasons_text, room_texts, row_words, ruled_out, stands_before, step_text, text_if, why_text};
ghost use Rattle.infer_label.specs.Writes.{Writes};

use crate::room::Room;
use crate::why::{Reason, Why, type_of};
use infer::{MatcherType, Type};

/// The most bytes of a reason that are written one by one.
const MOST_SHOWN: usize = 16;

/// What stands between two reasons.
const MARK: &[u8] = b"; ";

/// Writes why bytes have their answer, if that is asked for.
pub fn write_why(why: Option<&Why<'_>>, out: &mut Room<'_>)
    ensures { Writes out.old out.new (why_text (option_map (λ w. why_listed w.now) why.entry)) }
{
    if let Some(why) = why {
        out.write(b": ");
        write_reasons(why, out);
    }
}

/// Writes the reasons.
pub fn write_reasons(why: &Why<'_>, out: &mut Room<'_>)
    ensures { Writes out.old out.new (reasons_text (why_listed why.now)) }
{
    let before = write_own(why, out);
    let before = write_others(why, before, out);
    let before = write_length(why, before, out);
    write_room(why.is_whole(), before, out);
}

/// Writes the bytes by which a row accepts. This and each function below that writes reasons answers whether some stand before
/// what follows.
fn write_own(why: &Why<'_>, out: &mut Room<'_>) -> bool
    ensures texts { Writes out.old out.new (in_row MARK.now false (own_texts (why_listed why.now).reasons)) }
    ensures before { result ≡ stands_before false (own_texts (why_listed why.now).reasons) }
{
    let mut before = false;
    for range in why.ranges() {
        let reason = why.reason(range);
        before = write_if(reason.accepts, &reason, before, out);
    }
    before
}

/// Writes what bytes rule out.
fn write_others(why: &Why<'_>, before: bool, out: &mut Room<'_>) -> bool
    ensures texts { Writes out.old out.new (in_row MARK.now before (other_texts (why_listed why.now).reasons)) }
    ensures before { result ≡ stands_before before (other_texts (why_listed why.now).reasons) }
{
    let first_is_told = tells_first(why);
    let mut some = before;
    for range in why.ranges() {
        let reason = why.reason(range);
        some = write_if(is_other(first_is_told, &reason), &reason, some, out);
    }
    some
}

/// Writes what is needed of the length.
fn write_length(why: &Why<'_>, before: bool, out: &mut Room<'_>) -> bool
    ensures texts { Writes out.old out.new (in_row MARK.now before (length_texts (why_listed why.now))) }
    ensures before { result ≡ stands_before before (length_texts (why_listed why.now)) }
{
    if why.is_exact() {
        write_counted("just", why.least(), before, out);
        return true;
    }
    if reaches_least(why) {
        return before;
    }
    write_counted("at least", why.least(), before, out);
    true
}

/// Writes a number of bytes that is needed.
fn write_counted(word: &str, n: usize, before: bool, out: &mut Room<'_>)
    ensures { Writes out.old out.new (in_row MARK.now before ((word.now ++ (codes " " ++ counted n)) ∷ [])) }
{
    write_mark(before, out);
    out.write_text(word);
    out.write(b" ");
    write_count(n, out);
}

/// Writes that there are more reasons, if there was no room for all.
fn write_room(is_whole: bool, before: bool, out: &mut Room<'_>)
    ensures { Writes out.old out.new (in_row MARK.now before (room_texts is_whole)) }
{
    if !is_whole {
        write_mark(before, out);
        out.write(b"and more than there is room for");
    }
}

/// Whether a row's bytes begin with the first.
fn tells_first(why: &Why<'_>) -> bool
    ensures { result ≡ list_any has_first (why_listed why.now).reasons }
{
    for range in why.ranges() {
        if has_first(&why.reason(range)) {
            return true;
        }
    }
    false
}

fn has_first(reason: &Reason<'_>) -> bool
    ensures { result ≡ has_first (reason_listed reason.now) }
{
    reason.row.is_some() && reason.place == 0 && reason.len > 0
}

/// Whether some bytes end there, or after, where the least length does.
fn reaches_least(why: &Why<'_>) -> bool
    ensures { result ≡ list_any (reaches (why_listed why.now).least) (why_listed why.now).reasons }
{
    let least = why.least();
    for range in why.ranges() {
        if reaches(least, &why.reason(range)) {
            return true;
        }
    }
    false
}

fn reaches(n: usize, reason: &Reason<'_>) -> bool
    ensures { result ≡ reaches n (reason_listed reason.now) }
{
    if reason.len == 0 {
        return n <= reason.place;
    }
    let extent = (reason.len - 1).saturating_mul(reason.step as usize);
    n <= reason.place.saturating_add(extent).saturating_add(1)
}

/// Whether the reason rules out, and that is to be reported.
fn is_other(first_is_told: bool, reason: &Reason<'_>) -> bool
    ensures { result ≡ is_other first_is_told (reason_listed reason.now) }
{
    !reason.accepts && (reason.row.is_some() || !first_is_told)
}

/// Writes a reason, if it is to be reported.
fn write_if(is_told: bool, reason: &Reason<'_>, before: bool, out: &mut Room<'_>) -> bool
    ensures texts { Writes out.old out.new (in_row MARK.now before (text_if is_told (reason_listed reason.now))) }
    ensures before { result ≡ stands_before before (text_if is_told (reason_listed reason.now)) }
{
    if !is_told {
        return before;
    }
    write_mark(before, out);
    write_reason(reason, out);
    true
}

fn write_mark(before: bool, out: &mut Room<'_>)
    ensures { Writes out.old out.new (mark_if before MARK.now) }
{
    if before {
        out.write(MARK);
    }
}

fn write_reason(reason: &Reason<'_>, out: &mut Room<'_>)
    ensures { Writes out.old out.new (reason_text (reason_listed reason.now)) }
{
    write_ruled_out(reason.accepts, reason.row, out);
    write_bytes(reason, out);
    write_place(reason, out);
}

/// Writes what is ruled out.
fn write_ruled_out(accepts: bool, row: Option<usize>, out: &mut Room<'_>)
    ensures { Writes out.old out.new (ruled_out accepts row) }
{
    if accepts {
        return;
    }
    if row.is_none() {
        return out.write(b"nothing that begins otherwise: ");
    }
    out.write(b"no ");
    write_row(type_of(row), out);
    out.write(b": ");
}

/// Writes a row: its extension, and what its class is called.
fn write_row(found: Option<Type>, out: &mut Room<'_>)
    ensures { Writes out.old out.new (row_words (option_map triple_of found)) }
{
    match found {
        Some(found) => {
            out.write_text(found.extension());
            out.write(b" ");
            out.write_text(class_word(found.matcher_type()));
        }
        None => out.write(b"other type"),
    }
}

/// What a class is called.
fn class_word(class: MatcherType) -> &'static str
    ensures { result.now ≡ class_word class }
{
    match class {
        MatcherType::App | MatcherType::Custom => "file",
        MatcherType::Archive => "archive",
        MatcherType::Audio => "audio file",
        MatcherType::Book => "book",
        MatcherType::Doc => "document",
        MatcherType::Font => "font",
        MatcherType::Image => "image",
        MatcherType::Text => "text",
        MatcherType::Video => "video",
    }
}

/// Writes bytes one by one if they are few and stand side by side, and else how many they are.
fn write_bytes(reason: &Reason<'_>, out: &mut Room<'_>)
    ensures { Writes out.old out.new (bytes_text (reason_listed reason.now)) }
{
    if are_shown(reason) {
        return write_each(reason.bytes, out);
    }
    write_count(reason.len, out);
    out.write(b" ");
}

fn are_shown(reason: &Reason<'_>) -> bool
    ensures { result ≡ are_shown (reason_listed reason.now) }
{
    reason.step == 1 && reason.len <= MOST_SHOWN
}

/// Writes where they stand.
fn write_place(reason: &Reason<'_>, out: &mut Room<'_>)
    ensures { Writes out.old out.new (place_text (reason_listed reason.now)) }
{
    out.write(b"at ");
    out.write_number(reason.place);
    write_step(reason.step, out);
}

/// Writes one in how many bytes they are, if they stand apart.
fn write_step(step: u32, out: &mut Room<'_>)
    ensures { Writes out.old out.new (step_text step) }
{
    if step != 1 {
        out.write(b", one in ");
        out.write_number(step as usize);
    }
}

fn write_each(bytes: &[u8], out: &mut Room<'_>)
    ensures { Writes out.old out.new (flat_map byte_shown bytes.now) }
{
    for byte in bytes {
        out.write(&[large_digit(*byte / 16 % 16), large_digit(*byte % 16), b' ']);
    }
}

/// The digit of a number below 16.
fn large_digit(n: u8) -> u8
    requires { n < 16 }
    ensures { result ≡ large_digit n }
{
    if n < 10 { b'0' + n } else { b'A' - 10 + n }
}

/// Writes a number of bytes.
fn write_count(n: usize, out: &mut Room<'_>)
    ensures { Writes out.old out.new (counted n) }
{
    out.write_number(n);
    out.write(count_word(n));
}

fn count_word(n: usize) -> &'static [u8]
    ensures { result.now ≡ (if n == 1 then codes " byte" else codes " bytes") }
{
    if n == 1 { b" byte" } else { b" bytes" }
}
