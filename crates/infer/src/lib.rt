//! Identifies the type of a file by its first bytes.
//!
//! [`get`] answers the type of the first built-in row whose signature accepts a buffer. An [`Infer`] asks rows
//! that its caller added before the built-in ones. No question about a buffer takes memory or can refuse.
//!
//! Allow a file by [`get`]. [`is`], [`is_mime`] and the class tests ask whether some row accepts, which need not be the
//! answer: `is(buf, "pdf")` is true of every buffer that has `%PDF` in its first 1024 bytes, such as the GIF image
//! `GIF89a%PDF`. A signature of two bytes is worth little: `BM<html>` is a BMP image, by [`is_image`] and by [`get`].
//!
//! [`get_from_path`] and [`Infer::get_from_reader`] look at the first 8192 bytes of a file or of a reader. A
//! [`Fault`] says why they have no answer.
//!
//! Each module uses only those before it: `table`, the rows and their types; `ask`, a question and one row;
//! `candidates`, the rows that a first byte allows, asked in order; `answers`, what the built-in rows answer; `texts`,
//! questions with a text; `decided`, what more bytes can change; `beginnings`, after which they can change it from 1024
//! bytes on; `deciding_bytes`, which bytes decide it; `read`, the front of a reader; `caller`, an [`Infer`] and its rows; `laws`,
//! facts about all of these; `samples`.
#![tactic(auto)]

ghost use Rattle.std.specs.Prelude.{◌≡◌, ◌↔◌, ◌<◌, ◌≤◌, IfOk, IfSome, IsNone, IsTrue, None, option_map, slice_get};
ghost use Rattle.infer.specs.First.{IsAnswer, IsFirstOf, SomeHas};
ghost use Rattle.infer.specs.Questions.{HasClass, HasExtension, HasMimeType, SomeBoth};
ghost use Rattle.infer.specs.Reading.{AnswersOpened, AnswersSome};
ghost use Rattle.infer.specs.Row.{Accepts, shows};
ghost use Rattle.infer.specs.Table.{table};
ghost use Rattle.infer.specs.Triple.{triple_of};
ghost use Rattle.infer.specs.Watched.{fault_of};

mod answers;
mod ask;
pub mod beginnings;
mod caller;
mod candidates;
mod decided;
mod deciding_bytes;
pub mod laws;
mod read;
mod samples;
mod table;
pub mod texts;

pub use answers::{get, position, row};
use ask::question::OfClass;
pub use caller::infer::Infer;
pub use candidates::asker::{Ask, Asker, is_counted, position_counted, walk};
pub use decided::{is_decided, may_become, position_for_good};
pub use deciding_bytes::evidence;
pub use infer_sig::{
    app as app, archive as archive, audio as audio, book as book, doc as doc, font as font,
    image as image, odf as odf, text as text, video as video,
};
pub use read::fault::Fault;
pub use read::head::{Enough, FRONT, read_until};
pub use read::identify::{Identify, identify_opened, identify_path, identify_reader};
pub use read::watched::Watched;
pub use samples::{SAMPLE_SIZE, sample};
use std::alloc::Allocator;
use std::io;
use std::io::Read;
use std::rt::Files;
pub use table::built_in::accepts;
pub use table::file_type::{FileType as Type, Matcher, MatcherType};
pub use table::rows as rows;
use table::rows::ROW_COUNT;

/// The type of the first built-in row that accepts the first 8192 bytes of a file, or all if it has fewer, and
/// `None` exactly if no row accepts them.
///
/// It opens the file, reserves 8192 bytes and reads, in this order, as [`Infer::get_from_path`] does.
///
/// ```
/// let answer = infer::get_from_path(&rt, rt.alloc(), "/no/such/photo.jpg");
/// assert!(rt; matches!(answer, Err(infer::Fault::Open(_))));
/// ```
pub fn get_from_path<R: Files, A: Allocator>(
    rt: &R,
    alloc: A,
    path: &str,
) -> Result<Option<Type>, Fault>
    ensures { AnswersSome FRONT (λ b. IsAnswer (Accepts b) table) result }
{
    Infer::new().get_from_path(rt, alloc, path)
}

/// [`get_from_path`] for what is opened already, or for the error that opening gave: the first `n` bytes are looked at,
/// which are read into `room`, as [`Infer::get_from_opened`] does.
pub fn get_from_opened<A: Allocator, R: Read>(
    room: &mut Vec<u8, A>,
    opened: &mut io::Result<Watched<R>>,
    n: usize,
) -> Result<Option<Type>, Fault>
    requires { IfOk opened.old (λ r. fault_of r ≡ None) }
    ensures { AnswersOpened R.remaining n (λ b. IsAnswer (Accepts b) table)
        opened.old opened.new result }
{
    Infer::new().get_from_opened(room, opened, n)
}

/// Whether some built-in row with this extension accepts `buf`, which need not be the answer: allow by [`get`]. Upper
/// and lower case are apart.
///
/// ```
/// let gif = b"GIF89a%PDF";
/// assert!(rt; infer::is(gif, "gif") && infer::is(gif, "pdf"));
/// assert!(rt; infer::get(gif).map(|it| it.extension()) == Some("gif"));
/// ```
pub fn is(buf: &[u8], extension: &str) -> bool
    ensures { IsTrue result ↔ SomeBoth (HasExtension extension.now) (Accepts buf.now) table }
{
    texts::is(buf, extension.as_bytes())
}

/// Whether some built-in row with this MIME type accepts `buf`, which need not be the answer: allow by [`get`]. Upper
/// and lower case are apart.
///
/// ```
/// assert!(rt; infer::is_mime(b"GIF89a", "image/gif"));
/// ```
pub fn is_mime(buf: &[u8], mime_type: &str) -> bool
    ensures { IsTrue result ↔ SomeBoth (HasMimeType mime_type.now) (Accepts buf.now) table }
{
    texts::is_mime(buf, mime_type.as_bytes())
}

/// Whether some built-in row has this extension.
///
/// ```
/// assert!(rt; infer::is_supported("png") && !infer::is_supported("PNG"));
/// ```
pub fn is_supported(extension: &str) -> bool
    ensures { IsTrue result ↔ SomeHas (HasExtension extension.now) table }
{
    texts::is_supported(extension.as_bytes())
}

/// Whether some built-in row has this MIME type.
///
/// ```
/// assert!(rt; infer::is_mime_supported("image/png"));
/// ```
pub fn is_mime_supported(mime_type: &str) -> bool
    ensures { IsTrue result ↔ SomeHas (HasMimeType mime_type.now) table }
{
    texts::is_mime_supported(mime_type.as_bytes())
}

/// Whether some built-in row of the class `App` accepts `buf`, which need not be the answer: allow by [`get`].
pub fn is_app(buf: &[u8]) -> bool
    ensures { IsTrue result ↔ SomeBoth (HasClass MatcherType.App) (Accepts buf.now) table }
{
    answers::some(&OfClass(MatcherType::App), buf)
}

/// Whether some built-in row of the class `Archive` accepts `buf`, which need not be the answer: allow by [`get`].
pub fn is_archive(buf: &[u8]) -> bool
    ensures { IsTrue result ↔ SomeBoth (HasClass MatcherType.Archive) (Accepts buf.now) table }
{
    answers::some(&OfClass(MatcherType::Archive), buf)
}

/// Whether some built-in row of the class `Audio` accepts `buf`, which need not be the answer: allow by [`get`].
pub fn is_audio(buf: &[u8]) -> bool
    ensures { IsTrue result ↔ SomeBoth (HasClass MatcherType.Audio) (Accepts buf.now) table }
{
    answers::some(&OfClass(MatcherType::Audio), buf)
}

/// Whether some built-in row of the class `Book` accepts `buf`, which need not be the answer: allow by [`get`].
pub fn is_book(buf: &[u8]) -> bool
    ensures { IsTrue result ↔ SomeBoth (HasClass MatcherType.Book) (Accepts buf.now) table }
{
    answers::some(&OfClass(MatcherType::Book), buf)
}

/// Whether some built-in row of the class `Doc` accepts `buf`, which need not be the answer: allow by [`get`].
pub fn is_document(buf: &[u8]) -> bool
    ensures { IsTrue result ↔ SomeBoth (HasClass MatcherType.Doc) (Accepts buf.now) table }
{
    answers::some(&OfClass(MatcherType::Doc), buf)
}

/// Whether some built-in row of the class `Font` accepts `buf`, which need not be the answer: allow by [`get`].
pub fn is_font(buf: &[u8]) -> bool
    ensures { IsTrue result ↔ SomeBoth (HasClass MatcherType.Font) (Accepts buf.now) table }
{
    answers::some(&OfClass(MatcherType::Font), buf)
}

/// Whether some built-in row of the class `Image` accepts `buf`, which need not be the answer: allow by [`get`].
///
/// ```
/// assert!(rt; infer::is_image(b"GIF89a") && !infer::is_image(b"%PDF-1.7"));
/// ```
pub fn is_image(buf: &[u8]) -> bool
    ensures { IsTrue result ↔ SomeBoth (HasClass MatcherType.Image) (Accepts buf.now) table }
{
    answers::some(&OfClass(MatcherType::Image), buf)
}

/// Whether some built-in row of the class `Video` accepts `buf`, which need not be the answer: allow by [`get`].
pub fn is_video(buf: &[u8]) -> bool
    ensures { IsTrue result ↔ SomeBoth (HasClass MatcherType.Video) (Accepts buf.now) table }
{
    answers::some(&OfClass(MatcherType::Video), buf)
}
