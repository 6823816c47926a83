//! What relations are called.
ghost use Rattle.std.specs.Prelude.{◌≡◌, ◌≤◌, IsTrue, length, map, option_map};
ghost use Rattle.infer_formats.specs.Relation.{names};
ghost use Rattle.infer_notation.specs.Relations.{begins_by, named_in, rest_listed, same_token};
ghost use Rattle.infer_notation.specs.Tokens.{is_word, token_listed};

use infer_formats::relation::{Takes, names};
use infer_formats::token::Token;
use infer_formats::token::Token::{Quoted, Separator, Set, Word};

/// What stands after the name by which the tokens begin, and the tokens there.
pub fn named<'a, 'b>(tokens: &'b [Token<'a>]) -> Option<(Takes, &'b [Token<'a>])>
    ensures { option_map rest_listed result ≡ named_in names (map token_listed tokens.now) }
{
    for (name, takes) in names() {
        if begins_with(tokens, name) {
            return Some((*takes, &tokens[name.len()..]));
        }
    }
    None
}

/// Whether the tokens begin by these.
fn begins_with(tokens: &[Token<'_>], name: &[Token<'_>]) -> bool
    ensures value { result ≡ begins_by (map token_listed tokens.now) (map token_listed name.now) }
    ensures long { IsTrue result → length name.now ≤ length tokens.now }
{
    if name.len() > tokens.len() {
        return false;
    }
    for at in 0..name.len() {
        if !same_token(tokens[at], name[at]) {
            return false;
        }
    }
    true
}

fn same_token(token: Token<'_>, other: Token<'_>) -> bool
    ensures { result ≡ same_token (token_listed token.entry) (token_listed other.entry) }
{
    match (token, other) {
        (Quoted(text), Quoted(same)) => text == same,
        (Set(digits), Set(same)) => digits == same,
        (Separator(separator), Separator(same)) => separator == same,
        (Word(word), Word(same)) => word == same,
        _ => false,
    }
}

/// Whether the token is this word.
pub fn is_word(token: Token<'_>, word: &[u8]) -> bool
    ensures { result ≡ is_word word.now (token_listed token.entry) }
{
    match token {
        Word(other) => other == word,
        _ => false,
    }
}
