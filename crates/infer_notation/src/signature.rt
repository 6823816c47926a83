//! Fixed signatures as a text writes them, asked of a buffer while they are read.
ghost use Rattle.std.specs.Prelude.{◌≡◌, ◌↔◌, ◌+◌, ◌<◌, ◌==◌, IfErr, IfOk, IsTrue, List, None, Some, drop, false, length, option_map, slice_index, true};
ghost use Rattle.std.specs.List.{list_any};
ghost use Rattle.infer_notation.specs.Fixed.{Asked, accepts, alternatives_of, given, start, state, state_taken};
ghost use Rattle.infer_notation.specs.Flaws.{IsFlawOf};
ghost use Rattle.infer_notation.specs.Grammar.{unread};
ghost use Rattle.infer_notation.specs.Reasons.{is_of_token};
ghost use Rattle.infer_notation.specs.Words.{found_by, is_blank};
ghost use Rattle.infer_notation.specs.declared.fixed.Wanted.TheVariants.{Length};

use crate::fixed::{Cursor, Effect, Wanted, step};
use crate::reason::{Flaw, Reason};
use crate::tokens::token_at;
use crate::words::{after_first, rest_at, skip_blanks};
use memchr::memchr;

/// How far a signature was read, whether the buffer fits an alternative before the last one, and whether it has what was
/// read of the last one.
#[derive(Clone, Copy)]
struct State {
    cursor: Cursor,
    any: bool,
    last: bool,
}

/// Whether the buffer fits an alternative of the fixed signature that the text describes.
pub fn accepts_fixed(text: &[u8], buf: &[u8]) -> Result<bool, Flaw>
    ensures found { found_by result ≡ option_map (λ alternatives. accepts alternatives buf.now)
        (alternatives_of text.now) }
    ensures flaw { IfErr result (IsFlawOf text.now) }
{
    let mut state = start();
    let mut rest = skip_blanks(text);
    while !rest.is_empty() {
        match next(state, rest, buf) {
            Ok((more, count)) => {
                state = more;
                rest = skip_blanks(rest_at(after_first(rest), count));
            }
            Err(reason) => {
                return Err(Flaw {
                    reason,
                    left: rest.len(),
                });
            }
        }
    }
    match state.cursor.wanted {
        Wanted::More | Wanted::Or => Ok(state.any || state.last),
        _ => Err(Flaw {
            reason: Reason::End,
            left: 0,
        }),
    }
}

/// Whether the buffer fits an alternative of the fixed signature that the text describes. It stops at a part that the
/// buffer lacks, if no "o" stands after it: then no "or" does.
pub fn fits_fixed(text: &[u8], buf: &[u8]) -> bool
    ensures { (alternatives : List Asked) → alternatives_of text.now ≡ Some alternatives
        → result ≡ accepts alternatives buf.now }
{
    let mut state = start();
    let mut rest = skip_blanks(text);
    while !rest.is_empty() {
        match next(state, rest, buf) {
            Ok((more, count)) => {
                let after = rest_at(after_first(rest), count);
                if is_refused(state, more, after) {
                    return false;
                }
                state = more;
                rest = skip_blanks(after);
            }
            Err(_) => return false,
        }
    }
    state.any || state.last
}

/// The state in which a signature begins.
fn start() -> State
    ensures { result ≡ state start false false }
{
    State {
        cursor: Cursor {
            wanted: Wanted::Length,
            least: 0,
            place: 0,
        },
        any: false,
        last: false,
    }
}

/// Whether the buffer lacks what was read last, and no "or" follows, since no "o" does. The text is looked through once an
/// alternative.
#[tactic(auto, using(crate::proofs::RefusedLemmas::no_or))]
fn is_refused(before: State, after: State, text: &[u8]) -> bool
    ensures any { IsTrue result → after.any ≡ false }
    ensures last { IsTrue result → after.last ≡ false }
    ensures wanted { IsTrue result → (after.cursor.wanted ≡ Length → ⊥) }
    ensures none { IsTrue result → list_any (λ x. x == 0x6F) text.now ≡ false }
{
    if after.any || after.last || is_length(after.cursor.wanted) {
        return false;
    }
    if !before.last && !is_length(before.cursor.wanted) {
        return false;
    }
    match memchr(b'o', text) {
        Some(_) => false,
        None => true,
    }
}

/// Whether an alternative is to begin.
fn is_length(wanted: Wanted) -> bool
    ensures { IsTrue result ↔ (wanted ≡ Length) }
{
    match wanted {
        Wanted::Length => true,
        _ => false,
    }
}

/// The state after the token at the front, and how many bytes it takes after its first.
fn next(state: State, text: &[u8], buf: &[u8]) -> Result<(State, usize), Reason>
    requires some { 0 < length text.now }
    requires no_blank { is_blank (slice_index text.now 0) ≡ false }
    ensures found { IfOk result (λ n. given buf.now state 0 text.now
        ≡ given buf.now n.0 0 (drop (1 + n.1) text.now)) }
    ensures bound { IfOk result (λ n. n.1 < length text.now) }
    ensures none { IfErr result (λ e. given buf.now state 0 text.now ≡ None) }
    ensures read { IfOk result (λ n. unread text.now ≡ unread (drop (1 + n.1) text.now)) }
    ensures unread { IfErr result (λ reason. is_of_token reason ≡ true → unread text.now ≡ text.now) }
{
    let (token, count) = token_at(text)?;
    let (cursor, effect) = step(state.cursor, token, buf)?;
    Ok((taken(state, cursor, effect), count))
}

/// The state with what a token adds.
fn taken(state: State, cursor: Cursor, effect: Effect) -> State
    ensures { result ≡ state_taken state cursor effect }
{
    match effect {
        Effect::Nothing => State { cursor, ..state },
        Effect::Has(has) => State {
            cursor,
            any: state.any,
            last: state.last && has,
        },
        Effect::Opens(opens) => State {
            cursor,
            any: state.any || state.last,
            last: opens,
        },
    }
}
