//! The tokens of a signature's text.
ghost use Rattle.std.specs.Prelude.{◌≡◌, ◌<◌, ◌≤◌, ◌+◌, ◌-◌, ◌∷◌, [], IfErr, IfOk, IfSome, MatchOption, None, Some, drop, length, option_map};
ghost use Rattle.std.specs.List.{prefix_len};
ghost use Rattle.infer_notation.specs.Flaws.{IsFlawOf};
ghost use Rattle.infer_notation.specs.Grammar.{tokens_of, unread};
ghost use Rattle.infer_notation.specs.Tokens.{bare_at, is_separator, is_of, pair_listed, quoted_at, set_at, token_at, token_listed};
ghost use Rattle.infer_notation.specs.Words.{found_by};

use crate::reason::{Flaw, Reason};
use crate::words::{after_first, rest_at, skip_blanks};
use infer_formats::token::Token;

/// What a run of bytes is of.
#[derive(Clone, Copy)]
enum Run {
    Bare,
    Quoted,
    Set,
}

/// The token at the front of a text, and how many bytes it takes after its first.
#[tactic(auto, unfolding(crate::specs::Tokens::token_at))]
pub fn token_at(text: &[u8]) -> Result<(Token<'_>, usize), Reason>
    ensures value { option_map pair_listed (found_by result) ≡ token_at text.now }
    ensures bound { IfOk result (λ t. t.1 < length text.now) }
{
    match text {
        [] => Err(Reason::End),
        [b'"', after @ ..] => quoted_at(after),
        [b'{', after @ ..] => set_at(after),
        [separator, ..] if is_separator(*separator) => Ok((Token::Separator(*separator), 0)),
        _ => bare_at(text),
    }
}

/// The next token, if there is one, and what follows it.
pub fn next_token(text: &[u8]) -> Result<Option<(Token<'_>, &[u8])>, Flaw>
    ensures found { IfOk result (λ found. MatchOption found (tokens_of text.now ≡ Some [])
        (λ t. (tokens_of text.now ≡ option_map (λ ts. token_listed t.0 ∷ ts) (tokens_of t.1.now))
        × (length t.1.now < length text.now))) }
    ensures none { IfErr result (λ flaw. tokens_of text.now ≡ None) }
    ensures read { IfOk result (λ found. IfSome found (λ t. unread text.now ≡ unread t.1.now)) }
    ensures flaw { IfErr result (IsFlawOf text.now) }
{
    let front = skip_blanks(text);
    if front.is_empty() {
        return Ok(None);
    }
    match token_at(front) {
        Ok((token, count)) => Ok(Some((token, rest_at(after_first(front), count)))),
        Err(reason) => Err(Flaw {
            reason,
            left: front.len(),
        }),
    }
}

/// A quoted text after its first quote, and how many bytes it takes there.
fn quoted_at(text: &[u8]) -> Result<(Token<'_>, usize), Reason>
    ensures value { option_map pair_listed (found_by result) ≡ quoted_at text.now }
    ensures bound { IfOk result (λ t. t.1 ≤ length text.now) }
{
    let n = run_len(Run::Quoted, text);
    if n == text.len() {
        return Err(Reason::OpenQuote);
    }
    if text[n] != b'"' {
        return Err(Reason::Byte);
    }
    if n == 0 {
        return Err(Reason::Empty);
    }
    Ok((Token::Quoted(&text[..n]), n + 1))
}

/// A set after its brace, and how many bytes it takes there.
fn set_at(text: &[u8]) -> Result<(Token<'_>, usize), Reason>
    ensures value { option_map pair_listed (found_by result) ≡ set_at text.now }
    ensures bound { IfOk result (λ t. t.1 ≤ length text.now) }
{
    let n = run_len(Run::Set, text);
    if n == text.len() || text[n] != b'}' {
        return Err(Reason::OpenSet);
    }
    Ok((Token::Set(&text[..n]), n + 1))
}

/// A bare word, and how many bytes it takes after its first.
fn bare_at(text: &[u8]) -> Result<(Token<'_>, usize), Reason>
    ensures value { option_map pair_listed (found_by result) ≡ bare_at text.now }
    ensures bound { IfOk result (λ t. t.1 < length text.now) }
{
    let n = run_len(Run::Bare, text);
    if n == 0 {
        return Err(Reason::Byte);
    }
    Ok((Token::Word(&text[..n]), n - 1))
}

/// How many bytes at the front of the text are of the run.
fn run_len(run: Run, text: &[u8]) -> usize
    ensures value { result ≡ prefix_len (is_of run) text.now }
    ensures bound { result ≤ length text.now }
{
    for at in 0..text.len() {
        if !is_of(run, text[at]) {
            return at;
        }
    }
    text.len()
}

fn is_of(run: Run, byte: u8) -> bool
    ensures { result ≡ is_of run byte }
{
    match run {
        Run::Bare => {
            byte > b' '
                && byte < 0x7F
                && !(byte == b'"' || byte == b'{' || byte == b'}' || is_separator(byte))
        }
        Run::Quoted => byte >= b' ' && byte < 0x7F && byte != b'"',
        Run::Set => byte != b'}',
    }
}

fn is_separator(byte: u8) -> bool
    ensures { result ≡ is_separator byte }
{
    byte == b',' || byte == b':' || byte == b'@'
}
