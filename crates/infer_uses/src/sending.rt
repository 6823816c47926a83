//! Which type a static server sends, by a name and the first bytes.
ghost use Rattle.std.specs.Prelude.{◌≡◌, option_map};
ghost use Rattle.infer.specs.Triple.{triple_of};
ghost use Rattle.infer_named.specs.Named.{told_listed};
ghost use Rattle.infer_uses.specs.Sendings.{IsSent, is_harmless, is_shown, sent, sent_alone};

use infer::{MatcherType, Type};
use infer_named::{Standing, Told, named};

/// What is sent of a file of which nothing may be said.
const UNSAID: &str = "application/octet-stream";

/// What is sent as the type of a file, with `nosniff`.
///
/// The bytes may refuse what the name says, and never add to it: a page that is called a text is sent as a text. Without a
/// word of the name nothing is sent that a browser runs.
pub fn type_sent(name: &[u8], front: &[u8]) -> &'static str
    ensures { IsSent name.now front.now result.now }
{
    let found = named(name, front);
    match found.standing {
        Standing::Agree | Standing::NameRefines => sent(found.told),
        Standing::BytesRefine => sent(found.type_of_name()),
        Standing::BytesAlone => sent_alone(found.told),
        Standing::NameAlone | Standing::Contradicts | Standing::Nothing => UNSAID,
    }
}

/// A type as it is sent: not under a MIME type that nobody else knows.
fn sent(told: Option<Told>) -> &'static str
    ensures { result.now ≡ sent (option_map told_listed told) }
{
    match told {
        Some(told) => {
            if told.is_own_name() {
                UNSAID
            } else {
                told.mime_type()
            }
        }
        None => UNSAID,
    }
}

/// A type that no name says: only what no browser runs.
fn sent_alone(told: Option<Told>) -> &'static str
    ensures { result.now ≡ sent_alone (option_map told_listed told) }
{
    match told {
        Some(Told::Bytes(t)) => {
            if is_harmless(t) {
                t.mime_type()
            } else {
                UNSAID
            }
        }
        Some(Told::Name(_)) | None => UNSAID,
    }
}

/// Whether a browser shows the type, and does not run it.
fn is_harmless(t: Type) -> bool
    ensures { result ≡ is_harmless (triple_of t) }
{
    is_shown(t.matcher_type()) && t.mime_type() != "image/svg+xml"
}

fn is_shown(class: MatcherType) -> bool
    ensures { result ≡ is_shown class }
{
    match class {
        MatcherType::Image | MatcherType::Audio | MatcherType::Video | MatcherType::Font => true,
        MatcherType::App
        | MatcherType::Archive
        | MatcherType::Book
        | MatcherType::Doc
        | MatcherType::Text
        | MatcherType::Custom => false,
    }
}
