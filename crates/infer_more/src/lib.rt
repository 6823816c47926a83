//! Identifies more types of files than the built-in rows of `infer`, as a further step after their answer.
//!
//! A further row has a class, a MIME type, an extension, a signature and often a parent, which is a built-in row. Let p be
//! what [`infer::position`] answers. The wider answer is the first further row whose parent is p and whose signature
//! accepts the buffer, and p if there is none. So an answer becomes more exact, as an ELF file an object file, or there is
//! one where there was none. It never contradicts the built-in one.
//!
//! The numbers of the further rows go on from the built-in ones: the first has the number `ROW_COUNT`.
//!
//! Each module uses only those before it: `row_data`, the rows; `signature`, one function that decides any
//! signature, and whether a row widens an answer; `index`, which rows are asked; `answers`, what they answer, and each row
//! by its number; `types`, those that a text describes; `added`, the rows of a caller; `laws`, facts about all of these;
//! `samples`; `more_bytes`, what the bytes after a buffer can bring a signature; `decided`, what they can change of the
//! answer; `deciding_bytes`, which bytes decide it.
#![tactic(auto)]

ghost use Rattle.std.specs.Prelude.{◌≡◌, ◌≤◌, ◌↔◌, IfOk, IsTrue, None};
ghost use Rattle.infer.specs.Reading.{AnswersOpened, AnswersReader, AnswersSome};
ghost use Rattle.infer.specs.Watched.{fault_of};
ghost use Rattle.infer_formats.specs.Text.{IsEncodingOf, IsText};
ghost use Rattle.infer_more.specs.Wider.{IsWiderAnswer, ShowsExtension, ShowsMimeType};

mod added;
mod answers;
mod decided;
mod deciding_bytes;
mod index;
pub mod laws;
mod more_bytes;
mod row_data;
mod samples;
mod signature;
pub mod types;

pub use added::get_with;
use answers::Wider;
pub use answers::{accepts, ended_texts, get, get_below, parent, position, row};
pub use decided::{is_decided, may_become};
pub use deciding_bytes::evidence;
pub use index::FURTHER_COUNT;
use infer::{FRONT, Fault, Type, Watched, identify_opened, identify_path, identify_reader};
pub use infer_formats::text;
pub use infer_notation::Reason;
pub use row_data::EndedTexts;
pub use samples::{SAMPLE_SIZE, sample};
use std::alloc::Allocator;
use std::io;
use std::io::Read;
use std::rt::Files;
pub use types::{Mistake, Rows, Types};

/// Whether some row, built-in or further, has this extension.
pub fn is_supported(extension: &str) -> bool
    ensures { IsTrue result ↔ ShowsExtension extension.now }
{
    infer::is_supported(extension) || answers::has_extension(extension)
}

/// Whether some row, built-in or further, has this MIME type.
pub fn is_mime_supported(mime_type: &str) -> bool
    ensures { IsTrue result ↔ ShowsMimeType mime_type.now }
{
    infer::is_mime_supported(mime_type) || answers::has_mime_type(mime_type)
}

/// Whether `buf` is text: a byte order mark first, or at least one byte and none of 00 to 08, 0B, 0E to 1A and 1C to 1F.
///
/// ```
/// assert!(rt; infer_more::is_text(b"plain text") && !infer_more::is_text(b"\0"));
/// ```
pub fn is_text(buf: &[u8]) -> bool
    ensures { IsTrue result ↔ IsText buf.now }
{
    text::is_text(buf)
}

/// How the text `buf` is encoded, and `None` if it is no text or its encoding is not known. A byte order mark means UTF-16,
/// bytes below 80 alone are US-ASCII, and it is UTF-8 if some bytes can follow so that the whole is: a character that is
/// cut at the end makes no difference.
///
/// ```
/// let encoding = infer_more::encoding("für".as_bytes());
/// assert!(rt; encoding.map(|it| it.name()) == Some("utf-8"));
/// ```
pub fn encoding(buf: &[u8]) -> Option<text::Encoding>
    ensures { IsEncodingOf buf.now result }
{
    text::encoding_of(buf)
}

/// The type of the wider answer of the first 8192 bytes of a reader, or all if it has fewer. It reads and refuses as
/// `Infer::get_from_reader` of `infer` does.
pub fn get_from_reader<A: Allocator, R: Read>(
    alloc: A,
    r: &mut Watched<R>,
) -> Result<Option<Type>, Fault>
    requires { fault_of r.old ≡ None }
    ensures { AnswersReader R.remaining FRONT IsWiderAnswer r.old r.new result }
{
    identify_reader(&Wider, alloc, r, FRONT)
}

/// [`get_from_reader`] with `n` bytes in place of 8192, of which there are from 1 to 65536.
pub fn get_from_reader_within<A: Allocator, R: Read>(
    alloc: A,
    r: &mut Watched<R>,
    n: usize,
) -> Result<Option<Type>, Fault>
    requires no_fault { fault_of r.old ≡ None }
    requires least { 1 ≤ n }
    requires most { n ≤ 65536 }
    ensures { AnswersReader R.remaining n IsWiderAnswer r.old r.new result }
{
    identify_reader(&Wider, alloc, r, n)
}

/// The type of the wider answer of the first 8192 bytes of a file, or all if it has fewer. It opens the file, reserves
/// 8192 bytes and reads, in this order.
pub fn get_from_path<R: Files, A: Allocator>(
    rt: &R,
    alloc: A,
    path: &str,
) -> Result<Option<Type>, Fault>
    ensures { AnswersSome FRONT IsWiderAnswer result }
{
    identify_path(&Wider, rt, alloc, path, FRONT)
}

/// [`get_from_path`] with `n` bytes in place of 8192, of which there are from 1 to 65536.
pub fn get_from_path_within<R: Files, A: Allocator>(
    rt: &R,
    alloc: A,
    path: &str,
    n: usize,
) -> Result<Option<Type>, Fault>
    requires least { 1 ≤ n }
    requires most { n ≤ 65536 }
    ensures { AnswersSome n IsWiderAnswer result }
{
    identify_path(&Wider, rt, alloc, path, n)
}

/// [`get_from_path_within`] for what is opened already, or for the error that opening gave, which is `Open` then. It reads
/// into `room`, which is made `n` bytes long if it is shorter, so that one room serves many files.
pub fn get_from_opened<A: Allocator, R: Read>(
    room: &mut Vec<u8, A>,
    opened: &mut io::Result<Watched<R>>,
    n: usize,
) -> Result<Option<Type>, Fault>
    requires { IfOk opened.old (λ r. fault_of r ≡ None) }
    ensures { AnswersOpened R.remaining n IsWiderAnswer opened.old opened.new result }
{
    identify_opened(&Wider, room, opened, n)
}
