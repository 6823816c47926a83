//! What an input is.
ghost use Rattle.std.specs.Prelude.{◌≡◌, ℕ, List, Option, Some, option_map};
ghost use Rattle.std.specs.Option.{option_and_then, option_or};
ghost use Rattle.infer.specs.Triple.{triple_of};
ghost use Rattle.infer_named.specs.Join.{extension_of, mime_type_of, type_of_name};
ghost use Rattle.infer_named.specs.Named.{key_of, told_listed};
ghost use Rattle.infer_more.specs.Line.{Row};
ghost use Rattle.infer_more.specs.Text.{found_shows, rows_of};
ghost use Rattle.infer_more.specs.Wider.{IsWiderAnswer};
ghost use Rattle.infer_label.specs.Options.{options_listed};
ghost use Rattle.infer_label.specs.Label.{IsLabel, IsLabelBy, IsLabelOf, IsLabelOfBrowser, IsLabelOfType, IsOwnLabel, IsSupply, class_in, contradicted, extension_in, label_listed, mime_type_in};
ghost use Rattle.infer_label.specs.Why.{IsReported, why_listed};
ghost use Rattle.mime_sniff.specs.Computed.{IsComputed, supply_of};

use crate::options::{Look, Options};
use crate::why::{Why, type_of};
use infer::{MatcherType, Type};
use infer_more::text::Encoding;
use infer_more::types::{self, Found};
use infer_named::{Named, Standing, Told};
use mime_sniff::{Computed, Supplied};

/// What is reported of an input.
#[derive(Clone, Copy)]
pub struct Label<'a> {
    /// The MIME type, if one is known.
    pub mime_type: Option<&'a [u8]>,
    /// The extension, if the type has one.
    pub extension: Option<&'a str>,
    /// The class of the type that the bytes have, if they have one.
    pub class: Option<MatcherType>,
    /// How the text is encoded, if it is one.
    pub encoding: Option<Encoding>,
    /// Whether there are no bytes.
    pub is_empty: bool,
    /// What the name did, if it was asked.
    pub standing: Option<Standing>,
    /// The MIME type that the name has, if the bytes contradict it.
    pub named: Option<&'a str>,
    /// The extension of that type, if it has one.
    pub named_extension: Option<&'a str>,
}

/// What is reported of an input with this name and these first bytes. The wider answer is that of the reasons, if they are reported.
pub fn label_of<'a>(
    options: Options<'a>,
    name: &[u8],
    buf: &[u8],
    why: Option<&Why<'_>>,
) -> Label<'a>
    requires { IsReported (options_listed options).look buf.now (option_map (λ w. why_listed w.now) why) }
    ensures { IsLabel (options_listed options.entry) name.now buf.now (label_listed result) }
{
    match options.own {
        Some(text) => by_text(text, options, name, buf),
        None => by_look(options, name, buf, why),
    }
}

/// By the types of a text, and by what is looked at if none of them accepts the bytes.
fn by_text<'a>(text: &'a [u8], options: Options<'a>, name: &[u8], buf: &[u8]) -> Label<'a>
    ensures { (rows : List Row) → rows_of text.entry.now ≡ Some rows
        → IsOwnLabel rows (options_listed options.entry).look (options_listed options.entry).content_type name.now buf.now (label_listed result) }
{
    match types::own(text, buf) {
        Some(found) => of_own(found, buf),
        None => by_look(options, name, buf, None),
    }
}

/// By a type of a text, which accepts the bytes.
fn of_own<'a>(found: Found<'a>, buf: &[u8]) -> Label<'a>
    ensures { IsLabelOfType (found_shows found.entry) buf.now (label_listed result) }
{
    Label {
        mime_type: Some(found.mime_type().as_bytes()),
        extension: Some(found.extension()),
        class: Some(found.matcher_type()),
        encoding: infer_more::encoding(buf),
        is_empty: buf.is_empty(),
        standing: None,
        named: None,
        named_extension: None,
    }
}

/// By what is looked at.
fn by_look<'a>(options: Options<'a>, name: &[u8], buf: &[u8], why: Option<&Why<'_>>) -> Label<'a>
    requires { IsReported (options_listed options).look buf.now (option_map (λ w. why_listed w.now) why) }
    ensures { IsLabelBy (options_listed options.entry).look (options_listed options.entry).content_type name.now buf.now (label_listed result) }
{
    match options.look {
        Look::NameAndBytes => by_both(name, buf, why),
        Look::Bytes => by_bytes(buf, why),
        Look::BuiltIn => by_built_in(buf),
        Look::Browser => by_browser(false, options.content_type, buf),
        Look::BrowserForbidden => by_browser(true, options.content_type, buf),
    }
}

/// By the name and the bytes.
fn by_both(name: &[u8], buf: &[u8], why: Option<&Why<'_>>) -> Label<'static>
    requires { IsReported Look.NameAndBytes buf.now (option_map (λ w. why_listed w.now) why) }
    ensures { (told : Option (List ℕ)) → IsLabelBy Look.NameAndBytes told name.now buf.now (label_listed result) }
{
    let found = wider(buf, why);
    of_named(infer_named::named_with(name, buf, found), found, buf)
}

/// The type of the wider answer, which reasons have if they are reported.
fn wider(buf: &[u8], why: Option<&Why<'_>>) -> Option<Type>
    requires { IsReported Look.Bytes buf.now (option_map (λ w. why_listed w.now) why) }
    ensures { IsWiderAnswer buf.now (option_map triple_of result) }
{
    match why {
        Some(why) => type_of(why.answer()),
        None => infer_more::get(buf),
    }
}

/// By what the name and the bytes say, which have this type.
fn of_named(told: Named, found: Option<Type>, buf: &[u8]) -> Label<'static>
    ensures { IsLabelOf told (option_map triple_of found) buf.now (label_listed result) }
{
    let contradicted = contradicted(told);
    Label {
        mime_type: bytes_of(mime_type_told(told.told)),
        extension: extension_told(told.told),
        class: class_of(found),
        encoding: infer_more::encoding(buf),
        is_empty: buf.is_empty(),
        standing: Some(told.standing),
        named: mime_type_told(contradicted),
        named_extension: extension_told(contradicted),
    }
}

/// The type that the name has, if the bytes contradict it.
fn contradicted(found: Named) -> Option<Told>
    ensures { option_map told_listed result ≡ contradicted found.standing (type_of_name (key_of found)) }
{
    match found.standing {
        Standing::Contradicts => found.type_of_name(),
        Standing::Agree
        | Standing::NameRefines
        | Standing::BytesRefine
        | Standing::BytesAlone
        | Standing::NameAlone
        | Standing::Nothing => None,
    }
}

fn mime_type_told(told: Option<Told>) -> Option<&'static str>
    ensures { option_map (λ m. m.now) result ≡ option_map mime_type_of (option_map told_listed told) }
{
    match told {
        Some(told) => Some(told.mime_type()),
        None => None,
    }
}

fn extension_told(told: Option<Told>) -> Option<&'static str>
    ensures { option_map (λ e. e.now) result ≡ option_and_then extension_of (option_map told_listed told) }
{
    match told {
        Some(told) => told.extension(),
        None => None,
    }
}

/// By the bytes alone.
fn by_bytes(buf: &[u8], why: Option<&Why<'_>>) -> Label<'static>
    requires { IsReported Look.Bytes buf.now (option_map (λ w. why_listed w.now) why) }
    ensures { (told : Option (List ℕ)) (name : List ℕ) → IsLabelBy Look.Bytes told name buf.now (label_listed result) }
{
    let found = wider(buf, why);
    Label {
        mime_type: bytes_of(mime_type_of(found)),
        extension: extension_of(found),
        class: class_of(found),
        encoding: infer_more::encoding(buf),
        is_empty: buf.is_empty(),
        standing: None,
        named: None,
        named_extension: None,
    }
}

/// By the built-in types alone.
fn by_built_in(buf: &[u8]) -> Label<'static>
    ensures { (told : Option (List ℕ)) (name : List ℕ) → IsLabelBy Look.BuiltIn told name buf.now (label_listed result) }
{
    let found = infer::get(buf);
    Label {
        mime_type: bytes_of(mime_type_of(found)),
        extension: extension_of(found),
        class: class_of(found),
        encoding: None,
        is_empty: false,
        standing: None,
        named: None,
        named_extension: None,
    }
}

/// By what a browser makes of the bytes that was told a content type, or none.
fn by_browser<'a>(no_sniff: bool, content_type: Option<&'a [u8]>, buf: &[u8]) -> Label<'a>
    ensures { IsLabelOfBrowser no_sniff (option_map (λ t. t.now) content_type.entry) buf.now (label_listed result) }
{
    Label {
        mime_type: computed(&supplied(no_sniff, content_type), content_type, buf),
        extension: None,
        class: None,
        encoding: None,
        is_empty: false,
        standing: None,
        named: None,
        named_extension: None,
    }
}

/// The computed type, which is the content type as it was given where it stays.
fn computed<'a>(
    supplied: &Supplied<'_>,
    content_type: Option<&'a [u8]>,
    buf: &[u8],
) -> Option<&'a [u8]>
    ensures { (told : Option (List ℕ)) × IsComputed (supply_of supplied.now) buf.now told
        × (option_map (λ m. m.now) result ≡ option_or told (option_map (λ t. t.now) content_type.entry)) }
{
    match mime_sniff::compute(supplied, buf) {
        Computed::Sniffed(mime_type) => Some(mime_type.as_bytes()),
        Computed::Same => content_type,
    }
}

/// What a browser knows that was told a content type, or none.
fn supplied(no_sniff: bool, content_type: Option<&[u8]>) -> Supplied<'_>
    ensures { IsSupply no_sniff (option_map (λ t. t.now) content_type.entry) (supply_of result) }
{
    match content_type {
        Some(text) => supplied_by(no_sniff, text),
        None => Supplied {
            mime_type: None,
            no_sniff,
            check_for_apache_bug: false,
        },
    }
}

fn supplied_by(no_sniff: bool, content_type: &[u8]) -> Supplied<'_>
    ensures { IsSupply no_sniff (Some content_type.now) (supply_of result) }
{
    Supplied {
        mime_type: mime_types::parse(content_type),
        no_sniff,
        check_for_apache_bug: mime_sniff::is_apache_bug(content_type),
    }
}

fn bytes_of(text: Option<&'static str>) -> Option<&'static [u8]>
    ensures { option_map (λ m. m.now) result ≡ option_map (λ m. m.now) text.entry }
{
    match text {
        Some(text) => Some(text.as_bytes()),
        None => None,
    }
}

fn mime_type_of(found: Option<Type>) -> Option<&'static str>
    ensures { option_map (λ m. m.now) result ≡ mime_type_in (option_map triple_of found) }
{
    match found {
        Some(t) => Some(t.mime_type()),
        None => None,
    }
}

fn extension_of(found: Option<Type>) -> Option<&'static str>
    ensures { option_map (λ e. e.now) result ≡ extension_in (option_map triple_of found) }
{
    match found {
        Some(t) => Some(t.extension()),
        None => None,
    }
}

fn class_of(found: Option<Type>) -> Option<MatcherType>
    ensures { result ≡ class_in (option_map triple_of found) }
{
    match found {
        Some(t) => Some(t.matcher_type()),
        None => None,
    }
}
