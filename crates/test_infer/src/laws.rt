//! What the laws tell a caller, each as the contract of a function that calls one.
ghost use Rattle.std.specs.Prelude.{◌≡◌, ◌≢◌, ◌↔◌, ◌<◌, [], ◌∷◌, ◌++◌, ℕ, List, false, true, All, IfOk, IfSome, IsNone, IsTrue, None, Some, length, not, option_map, take, nat_eq};
ghost use Rattle.std.specs.List.{HoldsAt, starts_with};
ghost use Rattle.infer_deep.specs.Windows.{mkv_type};
ghost use Rattle.infer.specs.App.{coff_x64};
ghost use Rattle.infer.specs.Buffer.{IsBuffer, head};
ghost use Rattle.infer.specs.Decided.{IsDecided, MayAnswer};
ghost use Rattle.infer.specs.BuiltIn.{IsAccepted, matroska};
ghost use Rattle.infer.specs.First.{IsFirst};
ghost use Rattle.infer.specs.Laws.{AnyLasts, answers_far};
ghost use Rattle.infer.specs.Row.{Accepts};
ghost use Rattle.infer.specs.Rows.{custom_rows};
ghost use Rattle.infer.specs.Signature.{accepts};
ghost use Rattle.infer.specs.Signatures.{MayBecome};
ghost use Rattle.infer.specs.Table.{table};
ghost use Rattle.infer.specs.Triple.{triple_of};

use infer::app::{is_java, is_mach};
use infer::rows::{DLL, DOC, EPUB_ARCHIVE, GIF, PDF, ROW_COUNT, SHELLSCRIPT, WASM};
use infer::{
    Asker, Fault, Infer, SAMPLE_SIZE, Type, Watched, is_decided, laws, may_become, position,
    sample, walk,
};
use infer_evidence::{Alternative, Part};
use std::alloc::{AllocError, Allocator, Global};

fn begins_00(buf: &[u8]) -> bool
    ensures { IsTrue result ↔ IsTrue (starts_with nat_eq buf.now (0x00 ∷ [])) }
{
    buf.starts_with(&[0x00])
}

/// No Matroska file begins with 00.
pub fn no_matroska()
    ensures { (rest : List ℕ) → ¬ IsAccepted (matroska mkv_type) (0x00 ∷ rest) }
{
    laws::leads();
}

pub fn position_of_nothing() -> Option<usize>
    ensures { result ≡ None }
{
    laws::blank();
    position(&[])
}

pub fn position_but_two(buf: &[u8]) -> Option<usize>
    ensures { IfSome result (λ i. (i ≢ DLL) × (i ≢ EPUB_ARCHIVE)) }
{
    laws::never();
    position(buf)
}

pub fn is_java_and_mach(buf: &[u8]) -> bool
    ensures { result ≡ false }
{
    laws::apart();
    is_java(buf) && is_mach(buf)
}

/// Whether some row with the extension of the answer accepts the buffer.
pub fn has_own_extension<A: Allocator>(infer: &Infer<A>, buf: &[u8]) -> bool
    ensures { result ≡ true }
{
    laws::named(infer);
    match infer.get(buf) {
        Some(found) => infer.is(buf, found.extension()),
        None => true,
    }
}

/// The answers on a buffer and on one that it begins. If the longer has none, the shorter has none.
pub fn get_both<A: Allocator>(
    infer: &Infer<A>,
    short: &[u8],
    long: &[u8],
) -> (Option<Type>, Option<Type>)
    requires keeps { All (λ r. AnyLasts r.signature) (custom_rows infer.now) }
    requires begins { (more : List ℕ) × (long.now ≡ short.now ++ more) }
    ensures { IsNone result.1 → IsNone result.0 }
{
    laws::index(infer);
    (infer.get(short), infer.get(long))
}

/// What `get` answers of 00 and of 00 00 once a row was added whose function keeps its yes with more bytes.
pub fn get_both_after_addition(alloc: Global) -> Result<(Option<Type>, Option<Type>), AllocError>
    ensures { IfOk result (λ both. IsNone both.1 → IsNone both.0) }
{
    let mut infer = Infer::new();
    infer.add(alloc, "custom/zero", "zero", begins_00)?;
    Ok(get_both(&infer, b"\0", b"\0\0"))
}

/// The positions of a buffer and of its first 1024 bytes.
pub fn position_and_front(buf: &[u8], front: &[u8]) -> (Option<usize>, Option<usize>)
    requires { front.now ≡ take 1024 buf.now }
    ensures { IsTrue (not (answers_far result.0)) → result.1 ≡ result.0 }
{
    laws::front();
    laws::single();
    (position(buf), position(front))
}

/// A first row of some buffer is not that of its first 1024 bytes.
pub fn document_breaks()
    ensures { (buf : List ℕ) × IsFirst (Accepts buf) table DOC
        × ¬ IsFirst (Accepts (take 1024 buf)) table DOC }
{
    laws::breaks();
    laws::single();
}

/// Some buffer has the last row as its first.
pub fn script_is_reached()
    ensures { (buf : List ℕ) × IsFirst (Accepts buf) table SHELLSCRIPT }
{
    laws::reach();
}

/// The sample of a row, for which `out` has room, and no bytes if it has none.
pub fn sample_within(row: usize, out: &mut [u8; SAMPLE_SIZE]) -> &[u8]
    ensures { row < ROW_COUNT → row ≢ DLL → row ≢ EPUB_ARCHIVE
        → IsFirst (Accepts result.now) table row }
{
    match sample(row, out) {
        Some(count) => &out[..count],
        None => &out[..0],
    }
}

/// Whether a buffer and a longer one are decided.
pub fn both_decided(short: &[u8], long: &[u8]) -> (bool, bool)
    requires { (more : List ℕ) × (long.now ≡ short.now ++ more) }
    ensures { IsTrue result.0 → IsTrue result.1 }
{
    laws::later();
    (is_decided(short), is_decided(long))
}

/// Whether a row may become one of a buffer and of a longer one.
pub fn both_may_become(short: &[u8], long: &[u8], row: usize) -> (bool, bool)
    requires { (more : List ℕ) × (long.now ≡ short.now ++ more) }
    ensures { IsTrue result.1 → IsTrue result.0 }
{
    laws::later();
    (may_become(short, row), may_become(long, row))
}

/// Some bytes after a buffer that is not empty decide it, whatever follows these.
pub fn can_stay_decided(buf: &[u8]) -> bool
    requires { 0 < length buf.now }
    ensures { (more : List ℕ)
        × ((rest : List ℕ) → IsBuffer rest → IsDecided ((buf.now ++ more) ++ rest)) }
{
    laws::later();
    is_decided(buf)
}

/// Whether some bytes after the buffer make the first row of the table its answer.
pub fn may_answer_first(buf: &[u8]) -> bool
    ensures { IsTrue result ↔ MayAnswer buf.now WASM }
{
    laws::later();
    may_become(buf, WASM)
}

/// The answer of a buffer may be its answer, since no bytes may follow.
pub fn answer_may_stay(buf: &[u8]) -> Option<usize>
    ensures { IfSome result (MayAnswer buf.now) }
{
    position(buf)
}

/// What the row of GIF accepts can never be a PDF document by its answer, though that row may accept it too.
pub fn no_pdf_after_gif()
    ensures { (b : List ℕ) → HoldsAt (Accepts b) table GIF → ¬ MayAnswer b PDF }
{
    laws::later();
}

static COFF_X64_LISTED: [Alternative; 1] = [Alternative {
    least: 3,
    parts: &[Part::Text(0, b"\x64\x86")],
}];

/// Whether some bytes after the buffer make it a COFF object for x64, for which no row stands.
pub fn may_become_x64(buf: &[u8]) -> bool
    ensures { IsTrue result ↔ MayBecome (λ b. IsTrue (accepts coff_x64 b)) buf.now }
{
    laws::open();
    infer_evidence::may_become(&COFF_X64_LISTED, buf)
}

/// The position of a buffer, and that which a walk finds.
pub fn position_and_walk(buf: &[u8]) -> (Option<usize>, Option<usize>)
    ensures { result.0 ≡ result.1 }
{
    laws::walked();
    laws::single();
    (position(buf), walk(&mut Asker::new(buf), None))
}

/// The positions of two buffers with the same first 1024 bytes.
pub fn positions_of_both(a: &[u8], b: &[u8]) -> (Option<usize>, Option<usize>)
    requires { take 1024 a.now ≡ take 1024 b.now }
    ensures { IsTrue (not (answers_far result.0)) → IsTrue (not (answers_far result.1))
        → result.0 ≡ result.1 }
{
    laws::locality();
    (position(a), position(b))
}

/// The answers for two readers whose first 64 bytes are the same, of which no more are looked at.
pub fn answers_of_both<A: Allocator>(
    infer: &Infer<A>,
    a: &[u8],
    b: &[u8],
) -> Result<(Option<Type>, Option<Type>), Fault>
    requires { head 64 a.now ≡ head 64 b.now }
    ensures { IfOk result (λ both. option_map triple_of both.0 ≡ option_map triple_of both.1) }
{
    laws::readers(infer);
    let mut room = [0; 64];
    let one = infer.get_from_reader_in(&mut room, &mut Watched::new(a))?;
    let other = infer.get_from_reader_in(&mut room, &mut Watched::new(b))?;
    Ok((one, other))
}
