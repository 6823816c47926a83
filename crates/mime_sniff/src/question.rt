//! What is asked of the bytes of a resource, and what they answer.
ghost use Rattle.std.specs.Prelude.{◌≡◌, ◌↔◌, IsTrue, MatchOption, Some};
ghost use Rattle.mime_types.specs.Groups.{IsImage};
ghost use Rattle.mime_types.specs.Seen.{kind_of};
ghost use Rattle.mime_sniff.specs.Computed.{IsAsked, IsAskedIn, IsAskedOf, IsSuppliedXml, IsUnknown, UnlessXml, asked_of_unknown, supply_of};

use crate::context::Context;
use crate::supplied::Supplied;
use mime_types::MimeType;

/// Which rules are asked.
#[derive(Clone, Copy)]
pub(crate) enum Question {
    /// All but fonts: nothing is known.
    Anything,
    /// The same without what may run scripts.
    Unscripted,
    /// Text, or binary data.
    TextOrBinary,
    /// Those of images.
    Images,
    /// Those of audio and video.
    Media,
    /// Those of fonts.
    Fonts,
    /// None: the supplied type stays.
    Nothing,
    /// None: it is `application/octet-stream`.
    Octets,
    /// None: it is `text/vtt`.
    Vtt,
    /// None: it is `text/cache-manifest`.
    Manifest,
}

/// What is asked in a page, by what is supplied.
pub(crate) fn asked(supplied: &Supplied<'_>) -> Question
    ensures { IsAsked (supply_of supplied.now) result }
{
    match &supplied.mime_type {
        None => asked_of_unknown(supplied.no_sniff),
        Some(found) => {
            // An image is no other kind, so most is not asked of it.
            if found.is_image() {
                return asked_of_image(found, supplied);
            }
            asked_of_other(found, supplied)
        },
    }
}

/// What is asked of a type that is no image: a function of its own, so that an image saves no registers for it.
#[inline(never)]
fn asked_of_other(found: &MimeType<'_>, supplied: &Supplied<'_>) -> Question
    requires told { supplied.now.mime_type ≡ Some found.now }
    requires other { ¬ IsImage (kind_of found.now) }
    ensures { IsAsked (supply_of supplied.now) result }
{
    if is_unknown(found) {
        return asked_of_unknown(supplied.no_sniff);
    }
    asked_of_known(found, supplied)
}

fn asked_of_unknown(no_sniff: bool) -> Question
    ensures { result ≡ asked_of_unknown no_sniff }
{
    if no_sniff {
        return Question::Unscripted;
    }
    Question::Anything
}

/// Whether a supplied type says nothing.
fn is_unknown(found: &MimeType<'_>) -> bool
    ensures { IsTrue result ↔ IsUnknown (Some (kind_of found.now)) }
{
    found.is(b"unknown", b"unknown") || found.is(b"application", b"unknown") || found.is(b"*", b"*")
}

/// What is asked of an image.
fn asked_of_image(found: &MimeType<'_>, supplied: &Supplied<'_>) -> Question
    requires { IsImage (kind_of found.now) }
    ensures { IsAskedOf (supply_of supplied.now) (kind_of found.now) result }
{
    if supplied.no_sniff || found.is_xml() {
        return Question::Nothing;
    }
    Question::Images
}

/// What is asked where a type that says something, and is no image, is supplied.
fn asked_of_known(found: &MimeType<'_>, supplied: &Supplied<'_>) -> Question
    requires { ¬ IsImage (kind_of found.now) }
    ensures { IsAskedOf (supply_of supplied.now) (kind_of found.now) result }
{
    if found.is_xml() || found.is_html() || supplied.no_sniff {
        return Question::Nothing;
    }
    if supplied.check_for_apache_bug && found.is(b"text", b"plain") {
        return Question::TextOrBinary;
    }
    if found.is_audio_or_video() {
        return Question::Media;
    }
    Question::Nothing
}

/// What is asked in a context, by what is supplied.
pub(crate) fn asked_in(context: Context, supplied: &Supplied<'_>) -> Question
    ensures { IsAskedIn context (supply_of supplied.now) result }
{
    match context {
        Context::Browsing => asked(supplied),
        Context::Image => unless_xml(supplied, Question::Images),
        Context::AudioOrVideo => unless_xml(supplied, Question::Media),
        Context::Font => unless_xml(supplied, Question::Fonts),
        Context::Plugin => asked_of_plugin(supplied),
        Context::Style | Context::Script => Question::Nothing,
        Context::TextTrack => Question::Vtt,
        Context::CacheManifest => Question::Manifest,
    }
}

fn unless_xml(supplied: &Supplied<'_>, asked: Question) -> Question
    ensures { UnlessXml (supply_of supplied.now) asked result }
{
    if is_xml(supplied) {
        return Question::Nothing;
    }
    asked
}

fn is_xml(supplied: &Supplied<'_>) -> bool
    ensures { IsTrue result ↔ IsSuppliedXml (supply_of supplied.now) }
{
    match supplied.mime_type {
        Some(found) => found.is_xml(),
        None => false,
    }
}

fn asked_of_plugin(supplied: &Supplied<'_>) -> Question
    ensures { IsAskedIn Context.Plugin (supply_of supplied.now) result }
{
    match supplied.mime_type {
        Some(_) => Question::Nothing,
        None => Question::Octets,
    }
}
