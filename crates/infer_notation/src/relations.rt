//! Relations as a text writes them, as in `root: rss or RDF with "http://purl.org/rss/1.0/"`.
ghost use Rattle.std.specs.Prelude.{◌≡◌, [], ◌∷◌, ◌≤◌, ◌<◌, IfErr, IfOk, IfSome, None, length, map, option_map};
ghost use Rattle.infer_notation.specs.Alternative.{related};
ghost use Rattle.infer_notation.specs.Flaws.{IsFlawOf};
ghost use Rattle.infer_notation.specs.Grammar.{unread};
ghost use Rattle.infer_notation.specs.Relations.{IsSeen, group_listed, groups_of, item_of, items_of, left_groups, left_length, programs_of, relations_of};
ghost use Rattle.infer_notation.specs.Tokens.{token_listed};
ghost use Rattle.infer_notation.specs.Words.{found_by};

use crate::items::has_relation;
use crate::names::{is_word, named};
use crate::reason::{Flaw, Reason};
use crate::tokens::next_token;
use crate::words::skip_blanks;
use infer_formats::relation::Takes;
use infer_formats::token::Token;
use infer_formats::token::Token::Separator;

/// Tokens of one alternative: the first `count`.
#[derive(Clone, Copy)]
pub struct Group<'a> {
    pub tokens: [Token<'a>; 24],
    pub count: usize,
}

impl<'a> Group<'a> {
    /// The tokens that were read.
    pub fn read(&self) -> &[Token<'a>]
        requires { self.now.count ≤ 24 }
        ensures { map token_listed result.now ≡ group_listed self.now }
    {
        &self.tokens[..self.count]
    }
}

/// The tokens up to the first "or", and what follows it, if there is one.
pub fn read_group(text: &[u8]) -> Result<(Group<'_>, Option<&[u8]>), Flaw>
    ensures found { IfOk result (λ r. groups_of text.now
        ≡ option_map (λ gs. group_listed r.0 ∷ gs) (left_groups (option_map (λ t. t.now) r.1))) }
    ensures bound { IfOk result (λ r. r.0.count ≤ 24) }
    ensures left { IfOk result (λ r. left_length (option_map (λ t. t.now) r.1) ≤ length text.now) }
    ensures none { IfErr result (λ flaw. groups_of text.now ≡ None) }
    ensures read { IfOk result (λ r. IfSome r.1 (λ more. unread text.now ≡ unread more.now)) }
    ensures flaw { IfErr result (IsFlawOf text.now) }
{
    let mut group = Group {
        tokens: [Separator(b':'); 24],
        count: 0,
    };
    let mut rest = text;
    while let Some((token, after)) = next_token(rest)? {
        if is_word(token, b"or") {
            return ended(group, text, Some(after));
        }
        if group.count == 24 {
            return Err(Flaw {
                reason: Reason::Item,
                left: skip_blanks(rest).len(),
            });
        }
        group.tokens[group.count] = token;
        group.count += 1;
        rest = after;
    }
    ended(group, text, None)
}

/// The group, unless it is empty.
fn ended<'a>(
    group: Group<'a>,
    text: &'a [u8],
    rest: Option<&'a [u8]>,
) -> Result<(Group<'a>, Option<&'a [u8]>), Flaw>
    ensures found { IfOk result (λ r. (r.0 ≡ group.entry) × (r.1 ≡ rest.entry)
        × (0 < group.entry.count)) }
    ensures none { IfErr result (λ flaw. group.entry.count ≡ 0) }
    ensures flaw { IfErr result (IsFlawOf text.entry.now) }
{
    if group.count == 0 {
        return Err(Flaw {
            reason: if rest.is_none() {
                Reason::End
            } else {
                Reason::Item
            },
            left: skip_blanks(text).len(),
        });
    }
    Ok((group, rest))
}

/// Whether the buffer fits an alternative of the relation that the text describes.
pub fn is_related(text: &[u8], buf: &[u8]) -> Result<bool, Flaw>
    ensures seen { IsSeen (relations_of text.now) buf.now (found_by result) }
    ensures flaw { IfErr result (IsFlawOf text.now) }
{
    let (first, mut rest) = read_group(text)?;
    let Some((takes, tokens)) = named(first.read()) else {
        return Err(Flaw {
            reason: Reason::Relation,
            left: skip_blanks(text).len(),
        });
    };
    let mut any = asked(takes, tokens, text, buf)?;
    while let Some(more) = rest {
        let (group, after) = read_group(more)?;
        let fits = asked(takes, group.read(), more, buf)?;
        any = any || fits;
        rest = after;
    }
    Ok(any)
}

/// Whether the buffer has what the tokens ask after a name that takes this. The text is that of the tokens.
fn asked(takes: Takes, tokens: &[Token<'_>], text: &[u8], buf: &[u8]) -> Result<bool, Flaw>
    ensures seen { IsSeen (items_of takes (map token_listed tokens.now)) buf.now (found_by result) }
    ensures flaw { IfErr result (IsFlawOf text.now) }
{
    match fits(takes, tokens, buf) {
        Some(fits) => Ok(fits),
        None => Err(Flaw {
            reason: Reason::Item,
            left: skip_blanks(text).len(),
        }),
    }
}

/// Whether it has what they ask, if they ask anything.
fn fits(takes: Takes, tokens: &[Token<'_>], buf: &[u8]) -> Option<bool>
    ensures { IsSeen (items_of takes (map token_listed tokens.now)) buf.now result }
{
    match takes {
        Takes::Program => has_program(tokens, buf),
        other => has_relation(other, tokens, buf),
    }
}

/// Whether it is a script of one of the programs, which the tokens name, each by itself.
fn has_program(tokens: &[Token<'_>], buf: &[u8]) -> Option<bool>
    ensures { IsSeen (programs_of (map token_listed tokens.now)) buf.now result }
{
    if tokens.is_empty() {
        return None;
    }
    let mut any = false;
    for token in tokens {
        let is_named = has_relation(Takes::Program, &[*token], buf)?;
        any = any || is_named;
    }
    Some(any)
}
