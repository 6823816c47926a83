//! A reader of one text: an array or an object.
ghost use Rattle.std.specs.Prelude.{◌≡◌, ◌↔◌, ◌≤◌, ◌%◌, ◌∷◌, ℕ, None, length, IsTrue};
ghost use Rattle.infer_formats.specs.Json.{blanks, IsBlank, text};
ghost use Rattle.infer_formats.specs.JsonStates.{Begun, closing, due_left, EndSays, IsBracket, IsClosedTo, IsNested, left, beginning, PlaceSays, Reads, SaysAsMuch, Says};
ghost use Rattle.infer_formats.specs.declared.json.token.Token.TheVariants.{Chars, Integer};
ghost use Rattle.infer_formats.specs.declared.json.reader.Due.TheVariants.{After, Colon, First, Key, Value};
ghost use Rattle.infer_formats.specs.declared.json.reader.Next.TheVariants.{Closed};
ghost use Rattle.infer_formats.specs.declared.json.reader.Place.TheVariants.{At};

use super::lines::{blanks_end, is_blank};
use super::token::{Step, Token, after_char, after_integer, value_token};

/// How deep brackets may be nested.
const MOST_DEPTH: u32 = 128;

/// What may come after white space.
#[derive(Clone, Copy)]
enum Due {
    /// What stands first after a bracket.
    First,
    Value,
    Key,
    Colon,
    /// What stands after a value.
    After,
}

/// Where the next byte stands.
#[derive(Clone, Copy)]
enum Next {
    /// Behind a bracket that closes.
    Closed,
    Between(Due),
    InKey(Token),
    InValue(Token),
}

/// Where a reader of a text stands.
#[derive(Drop)]
struct Reader {
    next: Next,
    /// How many brackets have begun and not ended.
    depth: u32,
    /// A bit for each of them, the innermost lowest: 1 for an object, 0 for an array.
    kinds: u128,
}

impl Reader {
    /// Behind the first bracket of a text.
    fn begin(bracket: u8) -> Reader
        requires { IsBracket bracket }
        ensures { Begun bracket result }
    {
        let next = Next::Between(Due::First);
        match bracket {
            b'{' => Reader {
                next,
                depth: 1,
                kinds: 1,
            },
            _ => Reader {
                next,
                depth: 1,
                kinds: 0,
            },
        }
    }

    /// Whether the text is whole.
    #[inline(always)]
    fn is_done(&self) -> bool
        requires { self.now.depth ≡ 0 → self.now.next ≡ Closed }
        ensures { IsTrue result ↔ (self.now.depth ≡ 0) }
    {
        matches!(self.next, Next::Closed) && self.depth == 0
    }

    /// Reads a byte after white space, and answers whether a text may go on so.
    #[inline(always)]
    fn read(&mut self, due: Due, byte: u8) -> bool
        requires nested { IsNested self.old }
        requires black { ¬ IsBlank byte }
        ensures { Reads (λ ss. blanks ∷ due_left due self.old.depth self.old.kinds ss) byte self.new
            result }
    {
        match due {
            Due::First => self.read_first(byte),
            Due::Value => self.read_value(byte),
            Due::Key => self.read_key(byte),
            Due::Colon => self.read_colon(byte),
            Due::After => self.read_after(byte),
        }
    }

    fn read_first(&mut self, byte: u8) -> bool
        requires { IsNested self.old }
        ensures { Reads (due_left First self.old.depth self.old.kinds) byte self.new result }
    {
        if byte == self.closing() {
            self.close();
            return true;
        }
        if self.is_in_object() {
            self.read_key(byte)
        } else {
            self.read_value(byte)
        }
    }

    fn read_value(&mut self, byte: u8) -> bool
        requires { IsNested self.old }
        ensures { Reads (due_left Value self.old.depth self.old.kinds) byte self.new result }
    {
        match value_token(byte) {
            Some(token) => {
                self.next = Next::InValue(token);
                true
            }
            None if byte == b'[' => self.enter(0),
            None if byte == b'{' => self.enter(1),
            None => false,
        }
    }

    #[tactic(auto, using(crate::proofs::ReaderLemmas::key_read))]
    fn read_key(&mut self, byte: u8) -> bool
        requires { IsNested self.old }
        ensures { Reads (due_left Key self.old.depth self.old.kinds) byte self.new result }
    {
        if byte != b'"' {
            return false;
        }
        self.next = Next::InKey(Token::Chars);
        true
    }

    #[tactic(auto, using(crate::proofs::ReaderLemmas::colon_read))]
    fn read_colon(&mut self, byte: u8) -> bool
        requires { IsNested self.old }
        ensures { Reads (due_left Colon self.old.depth self.old.kinds) byte self.new result }
    {
        if byte != b':' {
            return false;
        }
        self.next = Next::Between(Due::Value);
        true
    }

    fn read_after(&mut self, byte: u8) -> bool
        requires { IsNested self.old }
        ensures { Reads (due_left After self.old.depth self.old.kinds) byte self.new result }
    {
        if byte == b',' {
            if self.is_in_object() {
                self.next = Next::Between(Due::Key);
            } else {
                self.next = Next::Between(Due::Value);
            }
            return true;
        }
        if byte == self.closing() {
            self.close();
            return true;
        }
        false
    }

    /// Whether the innermost bracket is that of an object.
    fn is_in_object(&self) -> bool
        ensures { IsTrue result ↔ (self.now.kinds % 2 ≡ 1) }
    {
        self.kinds % 2 == 1
    }

    /// The bracket that closes the innermost.
    fn closing(&self) -> u8
        ensures { result ≡ closing (self.now.kinds % 2) }
    {
        if self.is_in_object() { b'}' } else { b']' }
    }

    /// Closes the innermost bracket.
    fn close(&mut self)
        requires { IsNested self.old }
        ensures { IsClosedTo self.old self.new }
    {
        self.next = Next::Closed;
        self.depth -= 1;
        self.kinds /= 2;
    }

    /// Reads a bracket that begins: 0 for that of an array, 1 for that of an object.
    fn enter(&mut self, kind: u128) -> bool
        requires nested { IsNested self.old }
        requires kind { kind ≤ 1 }
        ensures { Reads (due_left Value self.old.depth self.old.kinds)
            (beginning kind) self.new result }
    {
        if self.depth == MOST_DEPTH {
            return false;
        }
        self.next = Next::Between(Due::First);
        self.depth += 1;
        self.kinds = 2 * self.kinds + kind;
        true
    }
}

/// What a buffer has of a text.
pub(super) enum Reading {
    /// All of it, in the first so many bytes.
    Whole(usize),
    /// Its beginning: some bytes can follow.
    Cut,
    /// None goes on so.
    Wrong,
}

/// Where the next byte after white space stands, and what is due there.
enum Place {
    At(usize, Due),
    /// In a token that is cut: some bytes can follow.
    Cut,
    /// Nowhere: no token goes on so.
    Wrong,
}

/// Reads what is left of a token at that place, after which this is due.
#[inline(always)]
fn token_end(token: Token, buf: &[u8], at: usize, due: Due) -> Place
    requires { at ≤ length buf.now }
    ensures { EndSays token buf.now at due result }
{
    match token {
        Token::Chars => string_end(buf, at, due),
        Token::Integer => number_end(buf, at, due),
        _ => end_of(token, buf, at, due),
    }
}

/// [`token_end`] of a string, in a loop that most are read by.
#[inline(always)]
fn string_end(buf: &[u8], at: usize, due: Due) -> Place
    requires { at ≤ length buf.now }
    ensures { EndSays Chars buf.now at due result }
{
    for i in at..buf.len() {
        match after_char(buf[i]) {
            Step::Inside(Token::Chars) => {}
            Step::Ended => return Place::At(i + 1, due),
            _ => return end_of(Token::Chars, buf, i, due),
        }
    }
    Place::Cut
}

/// [`token_end`] of a number, in a loop that most are read by.
#[inline(always)]
fn number_end(buf: &[u8], at: usize, due: Due) -> Place
    requires { at ≤ length buf.now }
    ensures { EndSays Integer buf.now at due result }
{
    for i in at..buf.len() {
        match after_integer(buf[i]) {
            Step::Inside(Token::Integer) => {}
            Step::EndedBefore => return Place::At(i, due),
            _ => return end_of(Token::Integer, buf, i, due),
        }
    }
    Place::Cut
}

/// [`token_end`] of any token.
#[inline(always)]
fn end_of(token: Token, buf: &[u8], at: usize, due: Due) -> Place
    requires { at ≤ length buf.now }
    ensures { EndSays token buf.now at due result }
{
    let mut token = token;
    for i in at..buf.len() {
        match token.after(buf[i]) {
            Step::Inside(next) => token = next,
            Step::Ended => return Place::At(i + 1, due),
            Step::EndedBefore => return Place::At(i, due),
            Step::Wrong => return Place::Wrong,
        }
    }
    Place::Cut
}

/// Reads the colon that is due after a key, if it stands right there, as it mostly does.
#[inline(always)]
fn past_colon(buf: &[u8], at: usize) -> Place
    requires { at ≤ length buf.now }
    ensures { SaysAsMuch buf.now (At at Colon) result }
{
    if at < buf.len() && buf[at] == b':' {
        Place::At(at + 1, Due::Value)
    } else {
        Place::At(at, Due::Colon)
    }
}

/// Reads to the end of a token, if one has begun before that place.
#[inline(always)]
fn read_on(next: Next, buf: &[u8], at: usize) -> Place
    requires { at ≤ length buf.now }
    ensures { (d k : ℕ) → 1 ≤ d → PlaceSays next d k buf.now at result }
{
    match next {
        Next::Closed => Place::At(at, Due::After),
        Next::Between(due) => Place::At(at, due),
        Next::InKey(token) => match token_end(token, buf, at, Due::Colon) {
            Place::At(end, _) => past_colon(buf, end),
            Place::Cut => Place::Cut,
            Place::Wrong => Place::Wrong,
        },
        Next::InValue(token) => token_end(token, buf, at, Due::After),
    }
}

/// Reads an array or an object that begins with `first`.
pub(super) fn read_text(first: u8, rest: &[u8]) -> Reading
    requires { IsBracket first }
    ensures { Says first rest.now result }
{
    let mut reader = Reader::begin(first);
    let mut due = Due::First;
    let mut at = 0;
    while at < rest.len() {
        if is_blank(rest[at]) {
            at = blanks_end(rest, at + 1);
            continue;
        }
        if !reader.read(due, rest[at]) {
            return Reading::Wrong;
        }
        if reader.is_done() {
            return Reading::Whole(at + 1);
        }
        match read_on(reader.next, rest, at + 1) {
            Place::At(place, next) => {
                at = place;
                due = next;
            }
            Place::Cut => return Reading::Cut,
            Place::Wrong => return Reading::Wrong,
        }
    }
    Reading::Cut
}
