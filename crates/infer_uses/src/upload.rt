//! What an upload gate lets pass, by a name and the first bytes.
ghost use Rattle.std.specs.Prelude.{◌≡◌, option_map};
ghost use Rattle.infer_named.specs.Listed.{texts};
ghost use Rattle.infer_named.specs.Named.{told_listed};
ghost use Rattle.infer_uses.specs.Uploads.{IsPassing, has, is_listed, misleads};

use infer_named::{Oddities, Standing, Told, named, oddities};

/// Whether an upload passes a list of MIME types.
///
/// Where the name chooses among what the bytes leave open, that is the uploader's word: a text may be called a page. So the
/// list is of types and not of standings. Where the name and the bytes do not say one thing, nothing passes; nor does it
/// where the name says nothing, as it may say something to another program; nor under a name that a terminal obeys, or that
/// is shown as another.
pub fn passes(list: &[&str], name: &[u8], front: &[u8]) -> bool
    ensures { IsPassing (texts list.now) name.now front.now result }
{
    if misleads(oddities(name)) {
        return false;
    }
    let found = named(name, front);
    match found.standing {
        Standing::Agree | Standing::NameRefines => is_listed(list, found.told),
        Standing::BytesRefine => {
            is_listed(list, found.told) && is_listed(list, found.type_of_name())
        }
        Standing::BytesAlone | Standing::NameAlone | Standing::Contradicts | Standing::Nothing => {
            false
        }
    }
}

/// Whether such a name is shown as it is not, or moves a cursor.
fn misleads(odd: Oddities) -> bool
    ensures { result ≡ misleads odd }
{
    odd.has_control || odd.has_direction_mark
}

/// Whether there is a type, and it is on the list.
fn is_listed(list: &[&str], told: Option<Told>) -> bool
    ensures { result ≡ is_listed (texts list.now) (option_map told_listed told) }
{
    match told {
        Some(told) => has(list, told.mime_type()),
        None => false,
    }
}

fn has(list: &[&str], mime_type: &str) -> bool
    ensures { result ≡ has (texts list.now) mime_type.now }
{
    for it in list {
        if *it == mime_type {
            return true;
        }
    }
    false
}
