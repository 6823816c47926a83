//! Identifies the type of a file by its name and its first bytes.
//!
//! The bytes win. A name only chooses among what they leave open, and the answer says what it did: a text named `main.py`
//! is Python, a picture is none. The table of names is data, and so are the readings of each: what a name may mean, and
//! which rows may accept the bytes of such a file.
//!
//! Each module uses only those before it: `table`, the keys with their readings; `names`, the key of a name; `bytes`, what
//! is asked of the bytes beside their wider answer; `rows`, whether a set of rows has a type; `lies`, which types are no lie
//! though a key does not have them; `join`, all together; `with_own_types`, types of a text beside these;
//! `suspicious_name`, what is odd about a name.
#![tactic(auto)]

ghost use Rattle.std.specs.Prelude.{◌≡◌, ◌≤◌, IfOk, None};
ghost use Rattle.infer.specs.Reading.{IdentifiesOpened, IdentifiesReader, IdentifiesSome};
ghost use Rattle.infer.specs.Watched.{fault_of};
ghost use Rattle.infer_named.specs.Named.{IsNamed};

mod bytes;
mod join;
pub mod laws;
mod lies;
mod names;
mod rows;
mod suspicious_name;
mod table;
mod with_own_types;

pub use bytes::{Kind, Lead, kind_of as kind, lead_of as lead};
use infer::{FRONT, Fault, Watched, identify_opened, identify_path, identify_reader};
use join::WithName;
pub use join::{Named, Standing, Told, named_of as named, named_with};
pub use names::key;
use std::alloc::Allocator;
use std::io;
use std::io::Read;
use std::rt::Files;
pub use suspicious_name::{Oddities, oddities_of as oddities};
pub use table::{Asks, Key, NamedType, Origin, Part, Reading, Usage};
pub use with_own_types::{NamedBy, named_by};

/// What the name and the first 8192 bytes of a reader say, or all if it has fewer. It reads and refuses as
/// `infer_more::get_from_reader` does.
pub fn named_from_reader<A: Allocator, R: Read>(
    alloc: A,
    name: &[u8],
    r: &mut Watched<R>,
) -> Result<Named, Fault>
    requires { fault_of r.old ≡ None }
    ensures { IdentifiesReader R.remaining FRONT (IsNamed name.now) r.old r.new result }
{
    identify_reader(&WithName { name }, alloc, r, FRONT)
}

/// [`named_from_reader`] with `n` bytes in place of 8192, of which there are from 1 to 65536.
pub fn named_from_reader_within<A: Allocator, R: Read>(
    alloc: A,
    name: &[u8],
    r: &mut Watched<R>,
    n: usize,
) -> Result<Named, Fault>
    requires no_fault { fault_of r.old ≡ None }
    requires least { 1 ≤ n }
    requires most { n ≤ 65536 }
    ensures { IdentifiesReader R.remaining n (IsNamed name.now) r.old r.new result }
{
    identify_reader(&WithName { name }, alloc, r, n)
}

/// What a path, as a name, and the first 8192 bytes of its file say, or all if it has fewer. It opens the file, reserves
/// 8192 bytes and reads, in this order.
pub fn named_from_path<R: Files, A: Allocator>(rt: &R, alloc: A, path: &str) -> Result<Named, Fault>
    ensures { IdentifiesSome FRONT (IsNamed path.now) result }
{
    identify_path(
        &WithName {
            name: path.as_bytes(),
        },
        rt,
        alloc,
        path,
        FRONT,
    )
}

/// [`named_from_path`] with `n` bytes in place of 8192, of which there are from 1 to 65536.
pub fn named_from_path_within<R: Files, A: Allocator>(
    rt: &R,
    alloc: A,
    path: &str,
    n: usize,
) -> Result<Named, Fault>
    requires least { 1 ≤ n }
    requires most { n ≤ 65536 }
    ensures { IdentifiesSome n (IsNamed path.now) result }
{
    identify_path(
        &WithName {
            name: path.as_bytes(),
        },
        rt,
        alloc,
        path,
        n,
    )
}

/// [`named_from_path_within`] under any name, for what is opened already, or for the error that opening gave, which is `Open`
/// then. It reads into `room`, which is made `n` bytes long if it is shorter, so that one room serves many files.
pub fn named_from_opened<A: Allocator, R: Read>(
    room: &mut Vec<u8, A>,
    name: &[u8],
    opened: &mut io::Result<Watched<R>>,
    n: usize,
) -> Result<Named, Fault>
    requires { IfOk opened.old (λ r. fault_of r ≡ None) }
    ensures { IdentifiesOpened R.remaining n (IsNamed name.now) opened.old opened.new result }
{
    identify_opened(&WithName { name }, room, opened, n)
}
