//! Properties of a buffer that grows, which the page of definitions shows and no call tells by itself, as functions that
//! tell them.
ghost use Rattle.std.specs.Prelude.{◌≡◌, ◌≢◌, ◌↔◌, ◌+◌, ◌++◌, IsTrue, None, codes, length};
ghost use Rattle.infer.specs.Arrivals.{Begins, BeginsAlone};
ghost use Rattle.infer.specs.Laws.{Breaks};
ghost use Rattle.infer.specs.Samples.{zeros};
ghost use Rattle.infer.specs.declared.table.rows.TheConstants.{EXE};
ghost use Rattle.infer_sniff.specs.Verdicts.{IsOneShort, KeepsOpen, RowStaysFinal, StaysFinal};
ghost use Rattle.infer.specs.declared.beginnings.Beginning.{Beginning};
ghost use Rattle.infer.specs.declared.beginnings.Beginning.TheVariants.{White};
ghost use Rattle.infer_sniff.specs.declared.verdict.Verdict.TheVariants.{Final};

use crate::definitions::{is_first, is_settled};
use infer::beginnings::{
    begins_compound, begins_frame, begins_mark, begins_office, begins_white, is_open_box,
};
use infer::position;
use infer::rows::{EXE, XML};
use infer_sniff::position_settled;

/// Whether it begins in one of the other ways than with white space.
fn begins_otherwise(buf: &[u8]) -> bool
    ensures { IsTrue result ↔ ((how : Beginning) × (how ≢ White) × Begins how buf.now) }
{
    is_open_box(buf)
        || begins_compound(buf)
        || begins_office(buf)
        || begins_frame(buf)
        || begins_mark(buf)
}

fn begins_in_none(buf: &[u8]) -> bool
    ensures { IsTrue result ↔ ((how : Beginning) → ¬ Begins how buf.now) }
{
    !begins_white(buf) && !begins_otherwise(buf)
}

pub fn begins_white_alone(buf: &[u8]) -> bool
    ensures { IsTrue result ↔ BeginsAlone White buf.now }
{
    begins_white(buf) && !begins_otherwise(buf)
}

pub fn stays_unknown(buf: &[u8]) -> bool
    ensures row { IsTrue result ↔ RowStaysFinal buf.now None }
    ensures verdict { IsTrue result ↔ StaysFinal buf.now (Final None) }
{
    match position_settled(buf) {
        (None, is_settled) => is_settled,
        (Some(_), _) => false,
    }
}

fn are_same(one: Option<usize>, other: Option<usize>) -> bool
    ensures { IsTrue result ↔ (one ≡ other) }
{
    one == other
}

/// Whether it is first a program of Windows, and its first byte is not.
pub fn breaks_at_1(buf: &[u8]) -> bool
    ensures { IsTrue result ↔ Breaks 1 EXE buf.now }
{
    if buf.len() < 2 {
        return false;
    }
    if !is_first(buf, EXE) {
        return false;
    }
    !are_same(position(&buf[..1]), Some(EXE))
}

/// Writes the one text and the other after it.
fn join(front: &[u8], back: &[u8], out: &mut [u8])
    requires { length out.old ≡ length front.now + length back.now }
    ensures { out.new ≡ front.now ++ back.now }
{
    let (first, second) = out.split_at_mut(front.len());
    first.copy_from_slice(front);
    second.copy_from_slice(back);
}

pub fn is_kept_open_by_white(buf: &[u8; 1024]) -> bool
    ensures { IsTrue result ↔ KeepsOpen White buf.now (codes "<?xml") }
{
    if !begins_white_alone(buf) {
        return false;
    }
    if is_settled(buf) {
        return false;
    }
    let mut whole = [0; 1029];
    join(buf, b"<?xml", &mut whole);
    !is_first(buf, XML) && is_first(&whole, XML)
}

pub fn is_one_short(end: &[u8; 3]) -> bool
    ensures { IsTrue result ↔ IsOneShort (zeros 1020 ++ end.now) (codes "F") }
{
    let (mut short, mut whole) = ([0; 1023], [0; 1024]);
    join(&[0; 1020], end, &mut short);
    join(&short, b"F", &mut whole);
    begins_in_none(&short) && !are_same(position(&short), position(&whole))
}
