//! The list of rows that is asked, about a buffer, a reader or a file.
ghost use Rattle.std.specs.Prelude.{◌≡◌, ◌↔◌, None, Some, [], ◌∷◌, ◌++◌, IfOk, IsTrue, OnErr, OnOk, map, option_map, ◌≤◌, IsErrOf, length};
ghost use Rattle.infer.specs.Caller.{FixesAnswers};
ghost use Rattle.infer.specs.First.{IsAnswer, SomeHas};
ghost use Rattle.infer.specs.Questions.{HasClass, HasExtension, HasMimeType, IsAsked, SomeBoth};
ghost use Rattle.infer.specs.Reading.{AnswersOpened, AnswersReader, AnswersSome, ShowsAnswer};
ghost use Rattle.infer.specs.Rows.{AnyAccepts, custom_row, custom_rows, given, rows};
ghost use Rattle.infer.specs.Triple.{triple, triple_of};
ghost use Rattle.infer.specs.Watched.{fault_of};
ghost use Rattle.infer.specs.declared.table.file_type.MatcherType.{MatcherType};

use crate::ask::question::{OfClass, Question, WithExtension, WithMimeType};
use crate::caller::custom::CustomRow;
use crate::read::fault::Fault;
use crate::read::head::FRONT;
use crate::read::identify::{
    Identify, identify_opened, identify_path, identify_reader, identify_reader_in,
};
use crate::read::watched::Watched;
use crate::table::file_type::{FileType, Matcher, MatcherType};
use crate::{answers, texts};
use std::alloc::{AllocError, Allocator, Global};
use std::io;
use std::io::Read;
use std::rt::Files;

/// Rows to ask: those that were added, in that order, and then the built-in ones.
///
/// A contract sees it as the list of the rows that were added. Asking takes no memory and cannot be refused.
#[derive(Drop)]
pub struct Infer<A: Allocator = Global> {
    /// The rows that were added. The list is made by the first `add`, so that a new `Infer` takes no memory.
    list: Option<Vec<CustomRow, A>>,
}

impl Infer {
    /// An `Infer` without rows of a caller.
    pub fn new() -> Infer
        ensures { custom_rows result ≡ [] }
    {
        Infer::new_in()
    }
}

impl Default for Infer {
    fn default() -> Infer
        ensures { custom_rows result ≡ [] }
    {
        Infer::new()
    }
}

impl<A: Allocator> Identify for Infer<A> {
    type Answer = Option<FileType>;

    ghost identifies = { λ s b. ShowsAnswer (λ b. IsAnswer (AnyAccepts b) (rows s)) b };

    fn identify(&self, bytes: &[u8]) -> Option<FileType> {
        self.get(bytes)
    }
}

impl<A: Allocator> Infer<A> {
    /// An `Infer` without rows of a caller, whose list is made in another allocator than the default.
    pub fn new_in() -> Infer<A>
        ensures { custom_rows result ≡ [] }
    {
        Infer { list: None }
    }

    /// Adds a row of the class `Custom` after those that were added before. None is dropped or replaced.
    ///
    /// The function may be called on every buffer, and its contract fixes one answer for each. The first call
    /// makes the list in `alloc`, which the list keeps. An error means that memory was refused.
    ///
    /// A function that hands the `Infer` out takes `m` from its own caller, with these two conditions, as `with_row` in
    /// docs/LIBRARY.md. One that adds a function by its name may use the `Infer` and hand out answers, but not the
    /// `Infer`, nor add to its caller's: the gate refuses it (`hides NAME`).
    pub fn add(
        &mut self,
        alloc: A,
        mime_type: &'static str,
        extension: &'static str,
        m: Matcher,
    ) -> Result<(), AllocError>
        requires callable { IsAlwaysCallable m }
        requires settled { FixesAnswers (post m) }
        ensures added { OnOk result (custom_rows self.new ≡ custom_rows self.old
            ++ record {
              shows = triple MatcherType.Custom mime_type.now extension.now;
              signature = given m;
            } ∷ []) }
        ensures refused { OnErr result (custom_rows self.new ≡ custom_rows self.old) }
    {
        let row = CustomRow {
            mime_type,
            extension,
            matcher: m,
        };
        match &mut self.list {
            Some(list) => list.push(row)?,
            None => {
                let mut list = Vec::new(alloc);
                list.push(row)?;
                self.list = Some(list);
            }
        }
        Ok(())
    }

    /// The type of the first row that accepts `buf`, and `None` exactly if no row accepts it.
    #[tactic(auto, using(crate::proofs::RowLemmas::answer_right, crate::proofs::RowLemmas::answer_map))]
    pub fn get(&self, buf: &[u8]) -> Option<FileType>
        ensures { IsAnswer (AnyAccepts buf.now) (rows self.now) (option_map triple_of result) }
    {
        match self.get_added(buf) {
            Some(found) => Some(found),
            None => answers::get(buf),
        }
    }

    /// The type of the first added row that accepts `buf`, and `None` exactly if none does.
    pub fn get_added(&self, buf: &[u8]) -> Option<FileType>
        ensures { IsAnswer (AnyAccepts buf.now) (custom_rows self.now)
            (option_map triple_of result) }
    {
        let accepts = |row: &&CustomRow| -> bool
            ensures { IsTrue result ↔ AnyAccepts buf.entry.now (custom_row row.now.now) }
        { row.accepts(buf) };
        let row = self.custom().iter().find(accepts)?;
        Some(row.file_type())
    }

    /// The type of the first row that accepts the first 8192 bytes of a reader, or all if it has fewer, and `None`
    /// exactly if no row accepts them.
    ///
    /// It reserves 8192 bytes first, then reads until it has them or a read gives none. The rest stays in the
    /// reader. `Memory` means that the bytes were refused and nothing was read, `Read` that a read failed, whatever
    /// its kind; bytes that were read before are lost then. It is never `Open`.
    ///
    /// ```
    /// let photo: &[u8] = b"\xFF\xD8\xFF\xE0";
    /// let mut watched = Watched::new(photo);
    /// let found = Infer::new().get_from_reader(rt.alloc(), &mut watched)?;
    /// assert!(rt; found.map(|it| it.extension()) == Some("jpg"));
    /// ```
    pub fn get_from_reader<B: Allocator, R: Read>(
        &self,
        alloc: B,
        r: &mut Watched<R>,
    ) -> Result<Option<FileType>, Fault>
        requires { fault_of r.old ≡ None }
        ensures { AnswersReader R.remaining FRONT (λ b. IsAnswer (AnyAccepts b) (rows self.now))
            r.old r.new result }
    {
        self.get_from_reader_within(alloc, r, FRONT)
    }

    /// The type of the first row that accepts the first 8192 bytes of a file, or all if it has fewer, and `None`
    /// exactly if no row accepts them.
    ///
    /// It opens the file, reserves 8192 bytes and reads, in this order. Any error in opening is `Open`. The file's
    /// length is not asked for.
    pub fn get_from_path<R: Files, B: Allocator>(
        &self,
        rt: &R,
        alloc: B,
        path: &str,
    ) -> Result<Option<FileType>, Fault>
        ensures { AnswersSome FRONT (λ b. IsAnswer (AnyAccepts b) (rows self.now)) result }
    {
        self.get_from_path_within(rt, alloc, path, FRONT)
    }

    /// [`Infer::get_from_reader`] with `n` bytes in place of 8192, of which there are from 1 to 65536.
    pub fn get_from_reader_within<B: Allocator, R: Read>(
        &self,
        alloc: B,
        r: &mut Watched<R>,
        n: usize,
    ) -> Result<Option<FileType>, Fault>
        requires no_fault { fault_of r.old ≡ None }
        requires least { 1 ≤ n }
        requires most { n ≤ 65536 }
        ensures { AnswersReader R.remaining n (λ b. IsAnswer (AnyAccepts b) (rows self.now))
            r.old r.new result }
    {
        identify_reader(self, alloc, r, n)
    }

    /// [`Infer::get_from_reader`] with as many bytes as there are in `room`, into which it reads. It reserves nothing.
    ///
    /// Memory that is kept serves one reader after the other: what it had before is not looked at.
    pub fn get_from_reader_in<R: Read>(
        &self,
        room: &mut [u8],
        r: &mut Watched<R>,
    ) -> Result<Option<FileType>, Fault>
        requires { fault_of r.old ≡ None }
        ensures answer { AnswersReader R.remaining (length room.new)
            (λ b. IsAnswer (AnyAccepts b) (rows self.now)) r.old r.new result }
        ensures no_memory { ¬ IsErrOf result Fault.Memory }
    {
        identify_reader_in(self, room, r)
    }

    /// [`Infer::get_from_path`] with `n` bytes in place of 8192, of which there are from 1 to 65536.
    pub fn get_from_path_within<R: Files, B: Allocator>(
        &self,
        rt: &R,
        alloc: B,
        path: &str,
        n: usize,
    ) -> Result<Option<FileType>, Fault>
        requires least { 1 ≤ n }
        requires most { n ≤ 65536 }
        ensures { AnswersSome n (λ b. IsAnswer (AnyAccepts b) (rows self.now)) result }
    {
        identify_path(self, rt, alloc, path, n)
    }

    /// [`Infer::get_from_path_within`] for what is opened already, or for the error that opening gave, which is `Open`
    /// then: all that is left of a path is to open it.
    ///
    /// It reads into `room`, which is made `n` bytes long if it is shorter, after the file was opened. So one room serves
    /// many files. What it had before is not looked at.
    pub fn get_from_opened<B: Allocator, R: Read>(
        &self,
        room: &mut Vec<u8, B>,
        opened: &mut io::Result<Watched<R>>,
        n: usize,
    ) -> Result<Option<FileType>, Fault>
        requires { IfOk opened.old (λ r. fault_of r ≡ None) }
        ensures { AnswersOpened R.remaining n (λ b. IsAnswer (AnyAccepts b) (rows self.now))
            opened.old opened.new result }
    {
        identify_opened(self, room, opened, n)
    }

    /// Whether some row with this extension accepts `buf`, which need not be the answer: allow by [`Infer::get`].
    /// Upper and lower case are apart.
    pub fn is(&self, buf: &[u8], extension: &str) -> bool
        ensures { IsTrue result
            ↔ SomeBoth (HasExtension extension.now) (AnyAccepts buf.now) (rows self.now) }
    {
        let text = extension.as_bytes();
        self.custom_some(&WithExtension(text), buf) || texts::is(buf, text)
    }

    /// Whether some row with this MIME type accepts `buf`, which need not be the answer: allow by [`Infer::get`].
    /// Upper and lower case are apart.
    pub fn is_mime(&self, buf: &[u8], mime_type: &str) -> bool
        ensures { IsTrue result
            ↔ SomeBoth (HasMimeType mime_type.now) (AnyAccepts buf.now) (rows self.now) }
    {
        let text = mime_type.as_bytes();
        self.custom_some(&WithMimeType(text), buf) || texts::is_mime(buf, text)
    }

    /// Whether some row has this extension.
    pub fn is_supported(&self, extension: &str) -> bool
        ensures { IsTrue result ↔ SomeHas (HasExtension extension.now) (rows self.now) }
    {
        let text = extension.as_bytes();
        self.custom_has(&WithExtension(text)) || texts::is_supported(text)
    }

    /// Whether some row has this MIME type.
    pub fn is_mime_supported(&self, mime_type: &str) -> bool
        ensures { IsTrue result ↔ SomeHas (HasMimeType mime_type.now) (rows self.now) }
    {
        let text = mime_type.as_bytes();
        self.custom_has(&WithMimeType(text)) || texts::is_mime_supported(text)
    }

    /// Whether some row of the class `App` accepts `buf`, which need not be the answer: allow by [`Infer::get`].
    pub fn is_app(&self, buf: &[u8]) -> bool
        ensures { IsTrue result
            ↔ SomeBoth (HasClass MatcherType.App) (AnyAccepts buf.now) (rows self.now) }
    {
        self.is_of(MatcherType::App, buf)
    }

    /// Whether some row of the class `Archive` accepts `buf`, which need not be the answer: allow by [`Infer::get`].
    pub fn is_archive(&self, buf: &[u8]) -> bool
        ensures { IsTrue result
            ↔ SomeBoth (HasClass MatcherType.Archive) (AnyAccepts buf.now) (rows self.now) }
    {
        self.is_of(MatcherType::Archive, buf)
    }

    /// Whether some row of the class `Audio` accepts `buf`, which need not be the answer: allow by [`Infer::get`].
    pub fn is_audio(&self, buf: &[u8]) -> bool
        ensures { IsTrue result
            ↔ SomeBoth (HasClass MatcherType.Audio) (AnyAccepts buf.now) (rows self.now) }
    {
        self.is_of(MatcherType::Audio, buf)
    }

    /// Whether some row of the class `Book` accepts `buf`, which need not be the answer: allow by [`Infer::get`].
    pub fn is_book(&self, buf: &[u8]) -> bool
        ensures { IsTrue result
            ↔ SomeBoth (HasClass MatcherType.Book) (AnyAccepts buf.now) (rows self.now) }
    {
        self.is_of(MatcherType::Book, buf)
    }

    /// Whether some row of the class `Doc` accepts `buf`, which need not be the answer: allow by [`Infer::get`].
    pub fn is_document(&self, buf: &[u8]) -> bool
        ensures { IsTrue result
            ↔ SomeBoth (HasClass MatcherType.Doc) (AnyAccepts buf.now) (rows self.now) }
    {
        self.is_of(MatcherType::Doc, buf)
    }

    /// Whether some row of the class `Font` accepts `buf`, which need not be the answer: allow by [`Infer::get`].
    pub fn is_font(&self, buf: &[u8]) -> bool
        ensures { IsTrue result
            ↔ SomeBoth (HasClass MatcherType.Font) (AnyAccepts buf.now) (rows self.now) }
    {
        self.is_of(MatcherType::Font, buf)
    }

    /// Whether some row of the class `Image` accepts `buf`, which need not be the answer: allow by [`Infer::get`].
    pub fn is_image(&self, buf: &[u8]) -> bool
        ensures { IsTrue result
            ↔ SomeBoth (HasClass MatcherType.Image) (AnyAccepts buf.now) (rows self.now) }
    {
        self.is_of(MatcherType::Image, buf)
    }

    /// Whether some row of the class `Video` accepts `buf`, which need not be the answer: allow by [`Infer::get`].
    pub fn is_video(&self, buf: &[u8]) -> bool
        ensures { IsTrue result
            ↔ SomeBoth (HasClass MatcherType.Video) (AnyAccepts buf.now) (rows self.now) }
    {
        self.is_of(MatcherType::Video, buf)
    }

    /// Whether some row of the class `Custom` accepts `buf`, which need not be the answer: allow by [`Infer::get`].
    pub fn is_custom(&self, buf: &[u8]) -> bool
        ensures { IsTrue result
            ↔ SomeBoth (HasClass MatcherType.Custom) (AnyAccepts buf.now) (rows self.now) }
    {
        self.is_of(MatcherType::Custom, buf)
    }

    /// Whether some row of the class accepts the buffer.
    fn is_of(&self, class: MatcherType, buf: &[u8]) -> bool
        ensures { IsTrue result ↔ SomeBoth (HasClass class) (AnyAccepts buf.now) (rows self.now) }
    {
        self.custom_some(&OfClass(class), buf) || answers::some(&OfClass(class), buf)
    }

    /// Whether some added row that is asked for accepts the buffer.
    fn custom_some<Q: Question>(&self, question: &Q, buf: &[u8]) -> bool
        ensures { IsTrue result
            ↔ SomeBoth (IsAsked (Q.asked question.now)) (AnyAccepts buf.now)
            (custom_rows self.now) }
    {
        let takes = |row: &CustomRow| -> bool
            ensures { IsTrue result ↔ (IsAsked (Q.asked question.entry.now) (custom_row row.now)
                × AnyAccepts buf.entry.now (custom_row row.now)) }
        { question.asks_for(&row.file_type()) && row.accepts(buf) };
        self.custom().iter().any(takes)
    }

    /// Whether some added row is asked for.
    fn custom_has<Q: Question>(&self, question: &Q) -> bool
        ensures { IsTrue result ↔ SomeHas (IsAsked (Q.asked question.now)) (custom_rows self.now) }
    {
        let asked = |row: &CustomRow| -> bool
            ensures { IsTrue result ↔ IsAsked (Q.asked question.entry.now) (custom_row row.now) }
        { question.asks_for(&row.file_type()) };
        self.custom().iter().any(asked)
    }

    /// The added rows.
    fn custom(&self) -> &[CustomRow]
        ensures { map custom_row result.now ≡ custom_rows self.now }
    {
        match &self.list {
            Some(list) => list.as_slice(),
            None => &[],
        }
    }
}
