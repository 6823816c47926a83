//! What a name and the bytes say together.
ghost use Rattle.std.specs.Prelude.{◌≡◌, None, Some, map, nat_eq, option_map};
ghost use Rattle.std.specs.List.{list_any, starts_with};
ghost use Rattle.infer.specs.Triple.{triple_of};
ghost use Rattle.infer_more.specs.Wider.{IsWiderAnswer};
ghost use Rattle.infer_named.specs.Asks.{admits};
ghost use Rattle.infer_named.specs.Bytes.{IsKind, has_no_zero, is_empty, lead_of};
ghost use Rattle.infer_named.specs.Join.{answer, extension_of, first_type, fits, is_own, is_own_name, joined_with, keyed, mime_type_of, reading_of, reading_without, row_extension, standing_in, told_by, type_of_name, unnamed};
ghost use Rattle.infer_named.specs.Key.{is_loose};
ghost use Rattle.infer_named.specs.Listed.{key_listed, origin_listed, reading_listed, texts};
ghost use Rattle.infer_named.specs.Named.{IsNamed, answer_of, key_of, told_listed};

use crate::bytes::{Kind, kind_of, lead_of};
use crate::lies::{is_finer_text, is_free};
use crate::names::key;
use crate::rows::is_among;
use crate::table::{
    Asks, Key, NamedType, Origin, Reading, Usage, leads, mime_type, readings_of, row_text,
};
use infer::{Identify, Type};

/// What the name did.
#[derive(Clone, Copy, Debug, PartialEq, Eq)]
pub enum Standing {
    /// The bytes are of the type that the name has.
    Agree,
    /// The bytes may begin a file of the type that the name has, which is reported.
    NameRefines,
    /// The bytes are of a finer kind of the type that the name has. Theirs is reported.
    BytesRefine,
    /// The name says nothing, and the bytes have a type.
    BytesAlone,
    /// No row accepts the bytes, and they may be of the type that the name has.
    NameAlone,
    /// The bytes are not of a type that the name has.
    Contradicts,
    /// Neither says anything.
    Nothing,
}

/// A type that is reported.
#[derive(Clone, Copy, Debug)]
pub enum Told {
    /// That of the row that accepts the bytes.
    Bytes(Type),
    /// One that the name has.
    Name(NamedType),
}

impl Told {
    /// The MIME type.
    pub fn mime_type(&self) -> &'static str
        ensures { result.now ≡ mime_type_of (told_listed self.now) }
    {
        match self {
            Told::Bytes(t) => t.mime_type(),
            Told::Name(t) => mime_type(t.mime_type),
        }
    }

    /// The extension of the row that has the type, and `None` if none does.
    pub fn extension(&self) -> Option<&'static str>
        ensures { option_map (λ e. e.now) result ≡ extension_of (told_listed self.now) }
    {
        match self {
            Told::Bytes(t) => Some(t.extension()),
            Told::Name(t) => row_extension(t.origin),
        }
    }

    /// Whether nobody else names the type, so that it is not to be sent.
    pub fn is_own_name(&self) -> bool
        ensures { result ≡ is_own_name (told_listed self.now) }
    {
        match self {
            Told::Bytes(_) => false,
            Told::Name(t) => is_own(t.origin),
        }
    }
}

/// The extension of the row that has the type, if there is one.
fn row_extension(origin: Origin) -> Option<&'static str>
    ensures { option_map (λ e. e.now) result ≡ row_extension (origin_listed origin) }
{
    match origin {
        Origin::Row(extension) => Some(row_text(extension)),
        Origin::Known | Origin::Own => None,
    }
}

fn is_own(origin: Origin) -> bool
    ensures { result ≡ is_own (origin_listed origin) }
{
    match origin {
        Origin::Own => true,
        Origin::Known | Origin::Row(_) => false,
    }
}

/// What a name and bytes say.
#[derive(Clone, Copy)]
pub struct Named {
    /// What the name did.
    pub standing: Standing,
    /// The type, if one is reported.
    pub told: Option<Told>,
    /// The key of the name, if it has one.
    pub key: Option<&'static Key>,
}

impl Named {
    /// The type that the name has first, whatever the bytes are, if it has a key.
    pub fn type_of_name(&self) -> Option<Told>
        ensures { option_map told_listed result ≡ type_of_name (key_of self.now) }
    {
        match self.key {
            Some(key) => first_type(readings_of(key)),
            None => None,
        }
    }
}

/// The type of the first reading.
fn first_type(readings: &[Reading]) -> Option<Told>
    ensures { option_map told_listed result ≡ first_type (map reading_listed readings.now) }
{
    match readings {
        [first, ..] => Some(Told::Name(first.named)),
        [] => None,
    }
}

/// What the name and the bytes say.
pub fn named_of(name: &[u8], buf: &[u8]) -> Named
    ensures { IsNamed name.now buf.now result }
{
    named_with(name, buf, infer_more::get(buf))
}

/// Asks what this name and the bytes say.
#[derive(Drop)]
pub struct WithName<'a> {
    pub name: &'a [u8],
}

impl Identify for WithName<'_> {
    type Answer = Named;

    ghost identifies = { λ s. IsNamed s.name.now };

    fn identify(&self, bytes: &[u8]) -> Named {
        named_of(self.name, bytes)
    }
}

/// What the name and the bytes say where the type of the wider answer of the bytes is known already.
// Not inlined, so that bench/run can count its instructions by its name.
#[inline(never)]
pub fn named_with(name: &[u8], buf: &[u8], found: Option<Type>) -> Named
    requires { IsWiderAnswer buf.now (option_map triple_of found) }
    ensures { IsNamed name.now buf.now result }
{
    match key(name) {
        Some(key) => keyed(key, found, buf),
        None => unnamed(found),
    }
}

/// A name without a key: the bytes alone, or nothing.
fn unnamed(found: Option<Type>) -> Named
    ensures answer { answer_of result ≡ unnamed (option_map triple_of found) }
    ensures key { key_of result ≡ None }
{
    match found {
        Some(t) => telling(Standing::BytesAlone, Told::Bytes(t), None),
        None => silent(Standing::Nothing, None),
    }
}

fn telling(standing: Standing, told: Told, key: Option<&'static Key>) -> Named
    ensures answer { answer_of result ≡ answer standing (Some (told_listed told)) }
    ensures key { key_of result ≡ option_map (λ k. key_listed k.now) key.entry }
{
    Named {
        standing,
        told: Some(told),
        key,
    }
}

fn silent(standing: Standing, key: Option<&'static Key>) -> Named
    ensures answer { answer_of result ≡ answer standing None }
    ensures key { key_of result ≡ option_map (λ k. key_listed k.now) key.entry }
{
    Named {
        standing,
        told: None,
        key,
    }
}

/// What a key says of bytes with this type, or without one.
fn keyed(key: &'static Key, found: Option<Type>, buf: &[u8]) -> Named
    ensures answer { (kind : Kind) → IsKind buf.now kind
        → answer_of result ≡ keyed (key_listed key.now) (option_map triple_of found) kind (lead_of buf.now) }
    ensures key { key_of result ≡ Some (key_listed key.now) }
{
    match found {
        Some(t) => joined(key, t, buf),
        None => keyed_alone(key, buf),
    }
}

/// What it says of bytes without one.
#[tactic(auto, using(crate::proofs::KindLemmas::one_kind))]
fn keyed_alone(key: &'static Key, buf: &[u8]) -> Named
    ensures answer { (kind : Kind) → IsKind buf.now kind
        → answer_of result ≡ keyed (key_listed key.now) None kind (lead_of buf.now) }
    ensures key { key_of result ≡ Some (key_listed key.now) }
{
    if is_loose(key.usage) {
        return silent(Standing::Nothing, Some(key));
    }
    let kind = kind_of(buf);
    if let Some(reading) = reading_without(readings_of(key), kind, buf) {
        return telling(Standing::NameAlone, Told::Name(reading.named), Some(key));
    }
    if is_empty(kind) {
        silent(Standing::Nothing, Some(key))
    } else {
        silent(Standing::Contradicts, Some(key))
    }
}

/// What it says of bytes with this type: what the first reading says that the bytes fit and that has it in a set.
#[tactic(auto, using(crate::proofs::SetLemmas::takes_is))]
fn joined(key: &'static Key, t: Type, buf: &[u8]) -> Named
    ensures answer { answer_of result ≡ joined_with (key_listed key.now) (triple_of t)
        (reading_of (key_listed key.now).readings (triple_of t) (lead_of buf.now)) }
    ensures key { key_of result ≡ Some (key_listed key.now) }
{
    let readings = readings_of(key);
    for reading in readings {
        let standing = standing_in(reading, t);
        if standing.is_some() && fits(reading, buf) {
            return told_by(key, reading, standing, t);
        }
    }
    untaken(key, t)
}

/// What it says of bytes with this type, which no reading has.
fn untaken(key: &'static Key, t: Type) -> Named
    ensures answer { answer_of result ≡ joined_with (key_listed key.now) (triple_of t) None }
    ensures key { key_of result ≡ Some (key_listed key.now) }
{
    if is_finer_text(&t, readings_of(key)) {
        telling(Standing::BytesRefine, Told::Bytes(t), Some(key))
    } else if is_free(key.usage, &t) {
        telling(Standing::BytesAlone, Told::Bytes(t), Some(key))
    } else {
        telling(Standing::Contradicts, Told::Bytes(t), Some(key))
    }
}

fn is_loose(usage: Usage) -> bool
    ensures { result ≡ is_loose usage }
{
    match usage {
        Usage::Strict | Usage::Plain => false,
        Usage::Loose => true,
    }
}

/// What a reading says of a type, by what the set that has it makes of the name.
#[tactic(auto, using(crate::proofs::SetLemmas::told_refined, crate::proofs::SetLemmas::told_agreed, crate::proofs::SetLemmas::told_others))]
fn told_by(key: &'static Key, reading: &Reading, standing: Option<Standing>, t: Type) -> Named
    requires { standing_in (triple_of t) (reading_listed reading.now) ≡ standing }
    ensures answer { answer_of result ≡ told_by (reading_listed reading.now) (triple_of t) }
    ensures key { key_of result ≡ Some (key_listed key.now) }
{
    match standing {
        Some(Standing::NameRefines) => telling(
            Standing::NameRefines,
            Told::Name(reading.named),
            Some(key),
        ),
        Some(Standing::Agree) => telling(Standing::Agree, Told::Bytes(t), Some(key)),
        _ => telling(Standing::BytesRefine, Told::Bytes(t), Some(key)),
    }
}

/// What the first of the reading's sets that has the type makes of the name, if one has it.
fn standing_in(reading: &Reading, t: Type) -> Option<Standing>
    ensures { result ≡ standing_in (triple_of t) (reading_listed reading.now) }
{
    if is_among(&t, reading.agrees) {
        return Some(Standing::Agree);
    }
    if is_among(&t, reading.begins) {
        return Some(Standing::NameRefines);
    }
    if is_among(&t, reading.finer) {
        return Some(Standing::BytesRefine);
    }
    None
}

/// The first reading that the bytes fit and that admits bytes of the kind.
fn reading_without(readings: &'static [Reading], kind: Kind, buf: &[u8]) -> Option<&'static Reading>
    ensures { option_map (λ r. reading_listed r.now) result
        ≡ reading_without (map reading_listed readings.now) kind (lead_of buf.now) }
{
    for reading in readings {
        if admits(reading.asks, kind) && fits(reading, buf) {
            return Some(reading);
        }
    }
    None
}

/// Whether the bytes begin as a file of the reading's type does.
fn fits(reading: &Reading, buf: &[u8]) -> bool
    ensures { result ≡ fits (lead_of buf.now) (reading_listed reading.now) }
{
    let leads = leads(reading.leads);
    if leads.is_empty() {
        return true;
    }
    begins_with(lead_of(buf).bytes(), leads)
}

/// Whether the lead begins with one of the texts.
pub fn begins_with(lead: &[u8], leads: &[&[u8]]) -> bool
    ensures { result ≡ list_any (λ text. starts_with nat_eq lead.now text) (texts leads.now) }
{
    for text in leads {
        if begins(lead, text) {
            return true;
        }
    }
    false
}

/// Whether the lead begins with the text. Of most leads the first byte shows that they do not.
#[tactic(auto, using(crate::proofs::ListLemmas::other_first))]
fn begins(lead: &[u8], text: &[u8]) -> bool
    ensures { result ≡ starts_with nat_eq lead.now text.now }
{
    if !lead.is_empty() && !text.is_empty() && lead[0] != text[0] {
        return false;
    }
    lead.starts_with(text)
}

/// Whether bytes of this kind, which no row accepts, are as the type asks.
fn admits(asks: Asks, kind: Kind) -> bool
    ensures { result ≡ admits asks kind }
{
    match asks {
        Asks::Signature => false,
        Asks::Text => has_no_zero(kind),
        Asks::Bytes => !is_empty(kind),
        Asks::Nothing => true,
    }
}

fn has_no_zero(kind: Kind) -> bool
    ensures { result ≡ has_no_zero kind }
{
    match kind {
        Kind::Empty | Kind::Marked => true,
        Kind::Text | Kind::Binary => false,
    }
}

fn is_empty(kind: Kind) -> bool
    ensures { result ≡ is_empty kind }
{
    match kind {
        Kind::Empty => true,
        Kind::Text | Kind::Binary | Kind::Marked => false,
    }
}
