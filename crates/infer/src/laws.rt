//! Facts about the definitions, each the contract of a function that does nothing beside, but for calls of other
//! laws. To use a law, call it.
ghost use Rattle.std.specs.Prelude.{◌≡◌, ◌≢◌, ◌↔◌, ◌<◌, ℕ, List, Option, [], ◌∷◌, All, IfOk, IsTrue, length, map, take};
ghost use Rattle.std.specs.List.{AllPairs, HoldsAt, filter, range_with_len};
ghost use Rattle.infer_deep.specs.Laws.{Apart, Beginnings};
ghost use Rattle.infer_deep.specs.Signatures.{Lasts};
ghost use Rattle.infer_sig.specs.App.{java, mach};
ghost use Rattle.infer_sig.specs.Signature.{accepts};
ghost use Rattle.infer.specs.Arrivals.{Begins, BeginsAlone, NewcomersAreAwaited, last_after};
ghost use Rattle.infer.specs.BuiltIn.{BuiltIn, IsAccepted};
ghost use Rattle.infer.specs.Decided.{AllowsExactly, AnswersAreOpen, DecidedByRows, DecidedLasts, FirstOpenComes, IsDecidedExactly, ReachNarrows};
ghost use Rattle.infer.specs.First.{IsFirst, IsFirstOf};
ghost use Rattle.infer.specs.Laws.{AnswersAreLocal, AnswersAreNamed, AnswersAsBuiltIn, AnyLasts, Breaks, FrontDecides, IsSteady, OnlyFarRowsFollow, ReadersAreAlike};
ghost use Rattle.infer.specs.Matchers.{OthersAreNear, is_far_row, signatures};
ghost use Rattle.infer.specs.Row.{Accepts, shows};
ghost use Rattle.infer.specs.Rows.{custom_rows, rows};
ghost use Rattle.infer.specs.Samples.{sample_of};
ghost use Rattle.infer.specs.Table.{table};
ghost use Rattle.infer.specs.Triple.{triple_of};
ghost use Rattle.infer.specs.Walks.{WalksFindFirst};
ghost use Rattle.infer.specs.declared.beginnings.Beginning.{Beginning};

use crate::caller::infer::Infer;
pub use crate::candidates::dispatch::{blank, leads};
use crate::table::file_type::{FileType, MatcherType};
use crate::table::rows::{DLL, EPUB_ARCHIVE, MATCHER_COUNT, ROW_COUNT};
use std::alloc::{AllocError, Allocator};

/// `a == b`, which compares the class, the MIME type and the extension of two types.
pub fn equal(a: &FileType, b: &FileType) -> bool
    ensures { IsTrue result ↔ (triple_of a.now ≡ triple_of b.now) }
{
    a == b
}

/// `class == other`.
pub fn equal_classes(class: &MatcherType, other: &MatcherType) -> bool
    ensures { IsTrue result ↔ (class.now ≡ other.now) }
{
    class == other
}

/// `t.clone()`, which has the three values of the type.
pub fn cloned(t: &FileType) -> Result<FileType, AllocError>
    ensures { IfOk result (λ copy. triple_of copy ≡ triple_of t.now) }
{
    t.clone()
}

/// `class.clone()`, which is the same class.
pub fn cloned_class(class: &MatcherType) -> Result<MatcherType, AllocError>
    ensures { IfOk result (λ copy. copy ≡ class.now) }
{
    class.clone()
}

/// No two rows of the table have the same class, MIME type and extension.
pub fn distinct()
    ensures { AllPairs (λ a b. a ≢ b) (map shows table) }
{}

/// A yes on the beginning of a buffer stays a yes: what one of the matchers accepts, it accepts however the
/// buffer goes on.
#[tactic(auto, using(crate::proofs::LawLemmas::every_lasts, crate::proofs::LawLemmas::length_signatures))]
pub fn growth()
    ensures many { length signatures ≡ MATCHER_COUNT }
    ensures last { All (λ s. Lasts (IsAccepted s)) signatures }
    ensures every { (signature : BuiltIn) → Lasts (IsAccepted signature) }
{
    infer_sig::laws::growth();
    infer_deep::laws::growth();
}

/// The first 1024 bytes decide: every matcher but those of the far rows answers on a buffer of at least 1024 bytes
/// as on its first 1024. Far rows are those that have neither a list of bytes at fixed places nor a window, and these
/// are their numbers.
#[tactic(auto, using(crate::proofs::LawLemmas::others_near), unfolding(crate::specs::Matchers::is_far_row, crate::specs::Table::signature_of, crate::specs::Table::table))]
pub fn near()
    ensures others { OthersAreNear signatures }
    ensures twelve { filter is_far_row (range_with_len 0 ROW_COUNT)
        ≡ 26 ∷ 27 ∷ 57 ∷ 58 ∷ 59 ∷ 60 ∷ 61 ∷ 62 ∷ 91 ∷ 92 ∷ 95 ∷ 96 ∷ [] }
{
    infer_sig::laws::near();
    infer_deep::laws::near();
}

/// The row of dynamic libraries, [`DLL`], and the second row of EPUB, [`EPUB_ARCHIVE`], are first for no buffer: an
/// earlier row has the same signature.
pub fn never()
    ensures { (buf : List ℕ) (i : ℕ) → IsFirst (Accepts buf) table i → (i ≢ DLL)
        × (i ≢ EPUB_ARCHIVE) }
{}

/// What no buffer is at once: a Java class and a Mach-O program, and the types that exclude each other by their
/// relations.
pub fn apart()
    ensures programs { (buf : List ℕ) → ¬ (IsTrue (accepts java buf) × IsTrue (accepts mach buf)) }
    ensures deep { Apart }
{
    infer_sig::laws::by_place();
    infer_deep::laws::apart();
}

/// What more bytes can bring to a buffer of at least 1024 bytes: only a row that is awaited after the buffer's
/// beginning, and none of the later rows that are awaited so is the answer before and after. More bytes do not bring
/// such a beginning.
pub fn arrival()
    ensures awaited { NewcomersAreAwaited }
    ensures early { Beginnings }
{
    infer_sig::laws::near();
    infer_deep::laws::near();
    infer_deep::laws::apart();
    infer_deep::laws::arrival();
}

/// A buffer has one answer: two numbers that are its first row are the same.
#[tactic(auto, using(crate::proofs::FirstLemmas::one_first))]
pub fn single()
    ensures { (buf : List ℕ) (o p : Option ℕ) → IsFirstOf (Accepts buf) table o
        → IsFirstOf (Accepts buf) table p → o ≡ p }
{}

/// No bytes after a buffer change its answer exactly if none of the rows before the answer, of all rows if there is
/// none, accepts it with some bytes after it.
pub fn decided()
    ensures { DecidedByRows }
{
    growth();
}

/// What is decided stays decided, whatever bytes follow. A row that may accept a buffer that has grown may accept it
/// before. The first row that may accept a buffer may be its answer, by some bytes after it. And a row that may be its
/// answer may accept it, and no row before it accepts it yet.
#[tactic(auto, using(crate::proofs::DecidedLemmas::told_later))]
pub fn later()
    ensures lasts { DecidedLasts }
    ensures narrows { ReachNarrows }
    ensures comes { FirstOpenComes }
    ensures needs { AnswersAreOpen }
{
    growth();
}

/// Whether some bytes after a buffer make a matcher accept it is decided exactly: by `may_become_html` and the like, and by
/// [`may_become`](infer_evidence::may_become) for a fixed signature, since the parts of each ascend, lie apart and are
/// possible.
#[tactic(auto, using(crate::proofs::DecidedLemmas::open_signatures))]
pub fn open()
    ensures { All IsDecidedExactly signatures }
{
    infer_sig::laws::open();
}

/// Going through the candidates of a buffer finds the first row of the table that accepts it: so the rows that
/// `position_counted` counts are all that `position` needs to ask.
#[tactic(auto, using(crate::proofs::CandidateLemmas::walks_find_first))]
pub fn walked()
    ensures { WalksFindFirst }
{
    leads();
    blank();
}

/// A row is a candidate of a first byte exactly if some buffer that begins with the byte is one that the row accepts.
#[tactic(auto, using(crate::proofs::FirstByteLemmas::allows_exactly))]
pub fn candidates()
    ensures { AllowsExactly }
{
    leads();
    infer_sig::laws::by_place();
    infer_sig::laws::begins();
}

/// An `Infer` without rows of a caller answers as the built-in rows do.
#[tactic(auto, using(crate::proofs::BuiltInLemmas::answers_as_built_in))]
pub fn built_in<A: Allocator>(infer: &Infer<A>)
    requires { custom_rows infer.now ≡ [] }
    ensures { AnswersAsBuiltIn (rows infer.now) }
{
    let _ = infer;
}

/// If `get` answers a type, `is` is true of its extension, and `is_mime` of its MIME type.
pub fn named<A: Allocator>(infer: &Infer<A>)
    ensures { AnswersAreNamed (rows infer.now) }
{
    let _ = infer;
}

/// Bytes after a buffer never make its first row a later one, if each function that was added keeps its yes
/// as a buffer goes on. The built-in rows do.
#[tactic(auto, using(crate::proofs::IndexLemmas::rows_keep, crate::proofs::IndexLemmas::steady))]
pub fn index<A: Allocator>(infer: &Infer<A>)
    requires { All (λ r. AnyLasts r.signature) (custom_rows infer.now) }
    ensures { IsSteady (rows infer.now) }
{
    let _ = infer;
    growth();
}

/// The first 1024 bytes decide, but for the far rows: if the answer of the built-in rows is none or another row,
/// it is that of the first 1024 bytes. And after these an answer stays, or gives way to a far row.
#[tactic(auto, using(crate::proofs::IndexLemmas::front_decides, crate::proofs::IndexLemmas::only_far_rows_follow))]
pub fn front()
    ensures decides { FrontDecides }
    ensures follow { OnlyFarRowsFollow }
{
    growth();
    near();
}

/// Two buffers with the same first 1024 bytes have the same answer, unless the answer of one of them is a far row.
#[tactic(auto, using(crate::proofs::IndexLemmas::answers_local))]
pub fn locality()
    ensures { AnswersAreLocal }
{
    front();
    single();
}

/// Two readers that have the same n bytes to give have the same answer within n bytes.
#[tactic(auto, using(crate::proofs::FirstLemmas::readers_alike))]
pub fn readers<A: Allocator>(infer: &Infer<A>)
    ensures { ReadersAreAlike (rows infer.now) }
{
    let _ = infer;
}

/// Every built-in row but [`DLL`] and [`EPUB_ARCHIVE`] is first for some buffer: for its sample.
pub fn reach()
    ensures { (i : ℕ) → i < ROW_COUNT → i ≢ DLL → i ≢ EPUB_ARCHIVE
        → HoldsAt (λ r. IsFirst (Accepts (sample_of r.signature)) table i) table i }
{
    infer_sig::laws::by_place();
    infer_deep::laws::apart();
}

/// Each far row is the first of some buffer whose first 1024 bytes have another answer. So is, for each
/// beginning, the last row that is awaited after it, of a buffer whose first 1024 bytes begin so alone. And 1023 bytes
/// that begin in none of these ways can get another answer by one byte more.
#[tactic(auto, using(crate::proofs::BreakLemmas::broken, crate::proofs::BreakLemmas::by_one_byte))]
pub fn breaks()
    ensures rows { (i : ℕ) → IsTrue (is_far_row i) → (buf : List ℕ) × Breaks 1024 i buf }
    ensures beginnings { (how : Beginning) → (buf : List ℕ) × Breaks 1024 (last_after how) buf
        × BeginsAlone how (take 1024 buf) }
    ensures least { (i : ℕ) × (buf : List ℕ) × (length buf ≡ 1024) × Breaks 1023 i buf
        × ((how : Beginning) → ¬ Begins how (take 1023 buf)) }
{
    infer_sig::laws::by_place();
    infer_deep::laws::apart();
}
