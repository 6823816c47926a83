//! Relations that tokens ask for, after a name.
ghost use Rattle.std.specs.Prelude.{◌≡◌, ◌∷◌, [], map, option_map};
ghost use Rattle.infer_formats.specs.Relation.{relation_listed};
ghost use Rattle.infer_notation.specs.Alternative.{related};
ghost use Rattle.infer_notation.specs.Relations.{IsSeen, alone, beginning_of, after_tag, directory_of, ending_entry, entry_of, extra_field, header_of, id_of, item_of, key_of, extra_entry, named_entry, number_at, program_of, root_of, short_number, tag_of, text_of, token_byte};
ghost use Rattle.infer_notation.specs.Tokens.{token_listed};

use crate::names::is_word;
use crate::texts::{read_text, text_before};
use crate::words::{byte, byte_with, number};
use infer_formats::relation::{OfText, Relation, Takes};
use infer_formats::token::Token;
use infer_formats::token::Token::{Quoted, Word};

/// Whether the buffer has the relation that the tokens ask for after a name that takes this, if they ask for one.
pub fn has_relation(takes: Takes, tokens: &[Token<'_>], buf: &[u8]) -> Option<bool>
    ensures { IsSeen (option_map (λ r. related r ∷ []) (item_of takes
        (map token_listed tokens.now))) buf.now result }
{
    match takes {
        Takes::Nothing(relation) => seen(alone(relation, tokens), buf),
        Takes::OneText(which) => seen(one_text(which, tokens), buf),
        Takes::Tag => has_directory(tokens, buf),
        Takes::Program => seen(program(tokens), buf),
        Takes::Entry => seen(entry(tokens), buf),
        Takes::FirstKey => seen(key(tokens), buf),
        Takes::ClassId => seen(compound(tokens), buf),
        Takes::Root => seen(markup(tokens), buf),
        Takes::Begins => has_beginning(tokens, buf),
        Takes::Header => has_header(tokens, buf),
    }
}

/// Whether the buffer has the relation, if there is one.
fn seen(relation: Option<Relation<'_>>, buf: &[u8]) -> Option<bool>
    ensures { IsSeen (option_map (λ r. related r ∷ []) (option_map relation_listed relation.entry))
        buf.now result }
{
    match relation {
        Some(relation) => Some(relation.fits(buf)),
        None => None,
    }
}

/// This relation, which takes nothing.
fn alone<'a>(relation: Relation<'a>, tokens: &[Token<'_>]) -> Option<Relation<'a>>
    ensures { option_map relation_listed result
        ≡ alone (relation_listed relation.entry) (map token_listed tokens.now) }
{
    if tokens.is_empty() {
        Some(relation)
    } else {
        None
    }
}

/// A tag, as in `C612`, and perhaps `and make "MAKE"`.
fn has_directory(tokens: &[Token<'_>], buf: &[u8]) -> Option<bool>
    ensures { IsSeen (option_map (λ r. related r ∷ []) (directory_of
        (map token_listed tokens.now))) buf.now result }
{
    match tokens {
        [Word(digits), after @ ..] => has_tag(tag(digits)?, after, buf),
        _ => None,
    }
}

/// What stands after the tag: nothing, or `and make "MAKE"`.
fn has_tag(tag: u16, tokens: &[Token<'_>], buf: &[u8]) -> Option<bool>
    ensures { IsSeen (option_map (λ r. related r ∷ []) (after_tag tag
        (map token_listed tokens.now))) buf.now result }
{
    match tokens {
        [] => Some(Relation::DirectoryTag(tag).fits(buf)),
        [and, make, text @ ..] if is_word(*and, b"and") && is_word(*make, b"make") => {
            let make = read_text(text)?;
            Some(Relation::DirectoryTagAndMake(tag, make.read()).fits(buf))
        }
        _ => None,
    }
}

/// The number that four hexadecimal digits write.
fn tag(digits: &[u8]) -> Option<u16>
    ensures { result ≡ tag_of digits.now }
{
    match digits {
        [a, b, c, d] => {
            let high = byte_with(*a, *b)?;
            let low = byte_with(*c, *d)?;
            Some(256 * high as u16 + low as u16)
        }
        _ => None,
    }
}

/// A text, as in `"word/"`.
fn one_text<'a>(which: OfText, tokens: &[Token<'a>]) -> Option<Relation<'a>>
    ensures { option_map relation_listed result ≡ text_of which (map token_listed tokens.now) }
{
    match tokens {
        [Quoted(text)] => Some(which.with(text)),
        _ => None,
    }
}

/// A word.
fn program<'a>(tokens: &[Token<'a>]) -> Option<Relation<'a>>
    ensures { option_map relation_listed result ≡ program_of (map token_listed tokens.now) }
{
    match tokens {
        [Word(name)] => Some(Relation::Program(name)),
        _ => None,
    }
}

/// What the first entry of a ZIP archive has.
fn entry<'a>(tokens: &[Token<'a>]) -> Option<Relation<'a>>
    ensures { option_map relation_listed result ≡ entry_of (map token_listed tokens.now) }
{
    match named_entry(tokens) {
        Some(relation) => Some(relation),
        None => match ending_entry(tokens) {
            Some(relation) => Some(relation),
            None => extra_entry(tokens),
        },
    }
}

/// `is "NAME"`.
fn named_entry<'a>(tokens: &[Token<'a>]) -> Option<Relation<'a>>
    ensures { option_map relation_listed result ≡ named_entry (map token_listed tokens.now) }
{
    match tokens {
        [is, Quoted(name)] if is_word(*is, b"is") => Some(Relation::FirstEntryIs(name)),
        _ => None,
    }
}

/// `ends in "END"`.
fn ending_entry<'a>(tokens: &[Token<'a>]) -> Option<Relation<'a>>
    ensures { option_map relation_listed result ≡ ending_entry (map token_listed tokens.now) }
{
    match tokens {
        [ends, within, Quoted(end)] if is_word(*ends, b"ends") && is_word(*within, b"in") => {
            Some(Relation::FirstEntryEndsIn(end))
        }
        _ => None,
    }
}

/// `has extra FE CA`.
fn extra_entry<'a>(tokens: &[Token<'a>]) -> Option<Relation<'a>>
    ensures { option_map relation_listed result ≡ extra_entry (map token_listed tokens.now) }
{
    let [has, extra, id @ ..] = tokens else {
        return None;
    };
    if !is_word(*has, b"has") || !is_word(*extra, b"extra") {
        return None;
    }
    extra_field(id)
}

/// An extra field with this id, of two bytes.
fn extra_field<'a>(id: &[Token<'a>]) -> Option<Relation<'a>>
    ensures { option_map relation_listed result ≡ extra_field (map token_listed id.now) }
{
    match id {
        [Word(first), Word(second)] => {
            let x = byte(first)?;
            let y = byte(second)?;
            Some(Relation::FirstEntryHasExtra([x, y]))
        }
        _ => None,
    }
}

/// `NAME` or `NAME with "TEXT"`.
fn markup<'a>(tokens: &[Token<'a>]) -> Option<Relation<'a>>
    ensures { option_map relation_listed result ≡ root_of (map token_listed tokens.now) }
{
    match tokens {
        [Word(name)] => Some(Relation::Root(name)),
        [Word(name), with, Quoted(text)] => {
            if is_word(*with, b"with") {
                Some(Relation::RootWith(name, text))
            } else {
                None
            }
        }
        _ => None,
    }
}

/// `"KEY"` or `"KEY" is "VALUE"`.
fn key<'a>(tokens: &[Token<'a>]) -> Option<Relation<'a>>
    ensures { option_map relation_listed result ≡ key_of (map token_listed tokens.now) }
{
    match tokens {
        [Quoted(key)] => Some(Relation::FirstKey(key)),
        [Quoted(key), is, Quoted(value)] => {
            if is_word(*is, b"is") {
                Some(Relation::FirstKeyWith(key, value))
            } else {
                None
            }
        }
        _ => None,
    }
}

/// `TEXT`, or `TEXT has OTHER` with one to three others. The texts are asked of the buffer here, where those of pieces stand.
fn has_beginning(tokens: &[Token<'_>], buf: &[u8]) -> Option<bool>
    ensures { IsSeen (option_map (λ r. related r ∷ []) (beginning_of
        (map token_listed tokens.now))) buf.now result }
{
    let (first, after) = text_before(b"has", tokens)?;
    let Some(after) = after else {
        return Some(Relation::TextFirst(first.read()).fits(buf));
    };
    let (one, after) = text_before(b"has", after)?;
    let Some(after) = after else {
        return Some(Relation::TextFirstWith(first.read(), one.read()).fits(buf));
    };
    let (two, after) = text_before(b"has", after)?;
    let Some(after) = after else {
        let all = Relation::TextFirstWithAll(first.read(), one.read(), two.read(), b"");
        return Some(all.fits(buf));
    };
    let three = read_text(after)?;
    let all = Relation::TextFirstWithAll(first.read(), one.read(), two.read(), three.read());
    Some(all.fits(buf))
}

/// `TEXT with LOW to HIGH at FAR`.
fn has_header(tokens: &[Token<'_>], buf: &[u8]) -> Option<bool>
    ensures { IsSeen (option_map (λ r. related r ∷ []) (header_of
        (map token_listed tokens.now))) buf.now result }
{
    let (text, after) = text_before(b"with", tokens)?;
    seen(number_at(text.read(), after?), buf)
}

/// `LOW to HIGH at FAR`, in a header that begins with the text.
fn number_at<'a>(text: &'a [u8], tokens: &[Token<'_>]) -> Option<Relation<'a>>
    ensures { option_map relation_listed result
        ≡ number_at text.now (map token_listed tokens.now) }
{
    match tokens {
        [Word(low), to, Word(high), at, Word(far)] if is_word(*to, b"to") && is_word(*at, b"at") =>
            {
                let low = short_number(low)?;
                let high = short_number(high)?;
                let far = short_number(far)?;
                Some(Relation::Header(text, far, low, high))
            }
        _ => None,
    }
}

/// A number below 65536.
fn short_number(digits: &[u8]) -> Option<u16>
    ensures { result ≡ short_number digits.now }
{
    match number(digits) {
        Ok(n) if n < 65536 => Some(n as u16),
        _ => None,
    }
}

/// 16 bytes.
fn compound<'a>(tokens: &[Token<'a>]) -> Option<Relation<'a>>
    ensures { option_map relation_listed result ≡ id_of (map token_listed tokens.now) }
{
    if tokens.len() != 16 {
        return None;
    }
    let mut id = [0; 16];
    for at in 0..16 {
        id[at] = token_byte(tokens[at])?;
    }
    Some(Relation::ClassId(id))
}

/// The byte that a word writes.
fn token_byte(token: Token<'_>) -> Option<u8>
    ensures { result ≡ token_byte (token_listed token.entry) }
{
    match token {
        Word(digits) => byte(digits),
        _ => None,
    }
}
