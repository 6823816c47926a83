//! Properties of a buffer that the page of definitions shows and no call tells by itself, as functions that tell them.
ghost use Rattle.std.specs.Prelude.{◌≡◌, ◌↔◌, [], ◌≤◌, ◌-◌, ◌++◌, ℕ, List, IsTrue, None, Some, codes, length};
ghost use Rattle.std.specs.List.{HoldsAt};
ghost use Rattle.infer.specs.Brands.{HasMajor, IsBoxed};
ghost use Rattle.infer.specs.Buffer.{head};
ghost use Rattle.infer.specs.BuiltIn.{IsAccepted, fixed};
ghost use Rattle.infer.specs.ClassId.{HasClassId, word_id};
ghost use Rattle.infer.specs.Decided.{IsChangeable, MayBecomeRow};
ghost use Rattle.infer.specs.Find.{OccursAt};
ghost use Rattle.infer.specs.First.{IsAnswer, IsFirst, IsFirstOf};
ghost use Rattle.infer.specs.FixedOpen.{may_become};
ghost use Rattle.infer.specs.Frames.{IsFrame};
ghost use Rattle.infer.specs.Image.{png};
ghost use Rattle.infer.specs.MarkupText.{IsMark, IsSpace};
ghost use Rattle.infer.specs.Numbers.{be32, le16, le32};
ghost use Rattle.infer.specs.Office.{HasFolder};
ghost use Rattle.infer.specs.Questions.{HasExtension, SomeBoth};
ghost use Rattle.infer.specs.Row.{Accepts};
ghost use Rattle.infer.specs.Rows.{custom_rows};
ghost use Rattle.infer.specs.Samples.{HoldsSample, zeros};
ghost use Rattle.infer.specs.Table.{table};
ghost use Rattle.infer.specs.Walks.{RowHas};
ghost use Rattle.infer.specs.declared.samples.TheConstants.{SAMPLE_SIZE};
ghost use Rattle.infer.specs.declared.table.rows.TheConstants.{PNG, ROW_COUNT};
ghost use Rattle.infer_formats.specs.Markup.{IsRootElement};
ghost use Rattle.infer_formats.specs.Script.{IsProgram};
ghost use Rattle.infer_formats.specs.Text.{IsEncodingOf};
ghost use Rattle.infer_more.specs.Added.{IsAnswerWith};
ghost use Rattle.infer_more.specs.Decided as wider;
ghost use Rattle.infer_more.specs.Decided.{MayBecomeAt};
ghost use Rattle.infer_more.specs.Samples.{HasAnswer};
ghost use Rattle.infer_more.specs.Wider.{AcceptsAt, IsWider, IsWiderAnswer, ShowsExtension, ShowsMimeType};
ghost use Rattle.infer.specs.Arrivals.{Begins};
ghost use Rattle.infer_sniff.specs.Verdicts.{IsSettled, IsTypeOf, IsVerdict};
ghost use Rattle.infer.specs.declared.beginnings.Beginning.TheVariants.{White};
ghost use Rattle.infer_sniff.specs.declared.verdict.Verdict.TheVariants.{SoFar};
ghost use Rattle.infer_more.specs.Text.{IsTypesAnswer};
ghost use Rattle.infer_uses.specs.Choices.{IsAgreed, IsChoice};
ghost use Rattle.infer_uses.specs.Labels.{IsLabel};
ghost use Rattle.infer_uses.specs.declared.name.Choice.TheVariants.{NameAlone};

use infer::beginnings::{begins_frame, begins_white};
use infer::image::is_png;
use infer::rows::{EXE, PNG, ROW_COUNT, WASM};
use infer::{Ask, Asker, Infer, SAMPLE_SIZE, get, is, is_decided, may_become, position, sample};
use infer_deep::doc::has_class_id;
use infer_deep::numbers::{be32, le16, le32};
use infer_deep::places::stands_at;
use infer_evidence::{Alternative, Part};
use infer_formats::markup::root_of;
use infer_formats::script::program;
use infer_sniff::position_settled;
use std::alloc::Allocator;

pub fn has_ftyp_at_4(buf: &[u8]) -> bool
    ensures { IsTrue result ↔ OccursAt buf.now (codes "ftyp") 4 }
{
    stands_at(buf, b"ftyp", 4)
}

pub fn has_head_mz(buf: &[u8]) -> bool
    ensures { IsTrue result ↔ (head 2 buf.now ≡ codes "MZ") }
{
    are_equal(&buf[..buf.len().min(2)], b"MZ")
}

pub fn is_one_by_be32(buf: &[u8]) -> bool
    ensures { IsTrue result ↔ ((4 ≤ length buf.now) × (be32 buf.now 0 ≡ 1)) }
{
    buf.len() >= 4 && be32(buf, 0) == 1
}

pub fn is_one_by_le32(buf: &[u8]) -> bool
    ensures { IsTrue result ↔ ((4 ≤ length buf.now) × (le32 buf.now 0 ≡ 1)) }
{
    buf.len() >= 4 && le32(buf, 0) == 1
}

pub fn is_one_by_le16(buf: &[u8]) -> bool
    ensures { IsTrue result ↔ ((2 ≤ length buf.now) × (le16 buf.now 0 ≡ 1)) }
{
    buf.len() >= 2 && le16(buf, 0) == 1
}

static PNG_LISTED: [Alternative; 1] = [Alternative {
    least: 4,
    parts: &[Part::Text(0, b"\x89PNG")],
}];

pub fn may_become_png(buf: &[u8]) -> bool
    ensures { result ≡ may_become png buf.now }
{
    infer_evidence::may_become(&PNG_LISTED, buf)
}

pub fn is_accepted_by_png(buf: &[u8]) -> bool
    ensures { IsTrue result ↔ IsAccepted (fixed png) buf.now }
{
    is_png(buf)
}

pub fn begins_with_white(buf: &[u8]) -> bool
    ensures { IsTrue result ↔ Begins White buf.now }
{
    begins_white(buf)
}

pub fn is_accepted_by_exe(buf: &[u8]) -> bool
    ensures { IsTrue result ↔ RowHas (Accepts buf.now) EXE }
{
    Asker::new(buf).ask(EXE)
}

pub fn is_exe_by_extension(buf: &[u8]) -> bool
    ensures accepted { IsTrue result
        ↔ SomeBoth (HasExtension (codes "exe")) (Accepts buf.now) table }
    ensures agreed { IsTrue result ↔ IsAgreed (codes "exe") buf.now }
{
    is(buf, "exe")
}

pub fn may_become_wasm(buf: &[u8]) -> bool
    ensures { IsTrue result ↔ RowHas (MayBecomeRow buf.now) WASM }
{
    may_become(buf, WASM)
}

pub fn is_changeable(buf: &[u8]) -> bool
    ensures { IsTrue result ↔ IsChangeable buf.now }
{
    let _answer = position(buf);
    !is_decided(buf)
}

pub fn is_wider_decided(buf: &[u8]) -> bool
    ensures { IsTrue result → wider.IsDecided buf.now }
{
    infer_more::is_decided(buf)
}

pub fn may_become_object(buf: &[u8]) -> bool
    ensures { IsTrue result ↔ MayBecomeAt buf.now ROW_COUNT }
{
    infer_more::may_become(buf, ROW_COUNT)
}

pub fn is_settled(buf: &[u8]) -> bool
    ensures { IsTrue result ↔ IsSettled buf.now }
{
    position_settled(buf).1
}

pub fn is_unknown_so_far(buf: &[u8]) -> bool
    ensures { IsTrue result ↔ IsVerdict buf.now (SoFar None) }
{
    let (row, is_settled) = position_settled(buf);
    row.is_none() && !is_settled
}

pub fn is_boxed(buf: &[u8]) -> bool
    ensures { IsTrue result ↔ IsBoxed buf.now }
{
    buf.len() >= 16 && stands_at(buf, b"ftyp", 4) && be32(buf, 0) as usize <= buf.len()
}

pub fn has_major_heic(buf: &[u8]) -> bool
    ensures { IsTrue result ↔ HasMajor (codes "heic") buf.now }
{
    stands_at(buf, b"heic", 8)
}

pub fn has_folder_at_30(buf: &[u8]) -> bool
    ensures { IsTrue result ↔ HasFolder buf.now 30 }
{
    stands_at(buf, b"word/", 30) || stands_at(buf, b"ppt/", 30) || stands_at(buf, b"xl/", 30)
}

pub fn has_word_id(buf: &[u8]) -> bool
    ensures { IsTrue result ↔ HasClassId word_id buf.now }
{
    has_class_id(
        buf,
        &[
            0x06, 0x09, 0x02, 0x00, 0x00, 0x00, 0x00, 0x00, 0xC0, 0x00, 0x00, 0x00, 0x00, 0x00,
            0x00, 0x46,
        ],
    )
}

pub fn is_frame(buf: &[u8]) -> bool
    ensures { IsTrue result ↔ IsFrame buf.now }
{
    buf.len() >= 8 && begins_frame(buf) && buf.len() - 8 == le32(buf, 4) as usize
}

pub fn is_space(buf: &[u8]) -> bool
    ensures { IsTrue result ↔ IsSpace buf.now }
{
    buf.len() == 1 && begins_white(buf)
}

pub fn is_mark(buf: &[u8]) -> bool
    ensures { IsTrue result ↔ IsMark buf.now }
{
    matches!(buf, [0xEF, 0xBB, 0xBF] | [0xFE, 0xFF] | [0xFF, 0xFE])
}

pub fn is_first(buf: &[u8], i: usize) -> bool
    ensures { IsTrue result ↔ IsFirst (Accepts buf.now) table i }
{
    match position(buf) {
        Some(row) => row == i,
        None => false,
    }
}

pub fn is_first_exe(buf: &[u8]) -> bool
    ensures { IsTrue result ↔ IsFirst (Accepts buf.now) table EXE }
{
    is_first(buf, EXE)
}

pub fn has_no_row(buf: &[u8]) -> bool
    ensures first { IsTrue result ↔ IsFirstOf (Accepts buf.now) table None }
    ensures answer { IsTrue result ↔ IsAnswer (Accepts buf.now) table None }
    ensures kind { IsTrue result ↔ IsTypeOf buf.now None }
    ensures choice { IsTrue result ↔ IsChoice (codes "exe") buf.now NameAlone }
{
    position(buf).is_none()
}

pub fn is_accepted_by_object(buf: &[u8]) -> bool
    ensures { IsTrue result ↔ AcceptsAt buf.now ROW_COUNT }
{
    infer_more::accepts(buf, ROW_COUNT)
}

pub fn is_object(buf: &[u8]) -> bool
    ensures wider { IsTrue result ↔ IsWider buf.now (Some ROW_COUNT) }
    ensures answer { IsTrue result ↔ HasAnswer ROW_COUNT buf.now }
{
    match infer_more::position(buf) {
        Some(row) => row == ROW_COUNT,
        None => false,
    }
}

pub fn has_no_wider_answer(buf: &[u8]) -> bool
    ensures { IsTrue result ↔ IsWiderAnswer buf.now None }
{
    infer_more::get(buf).is_none()
}

pub fn has_no_answer_of_types(buf: &[u8]) -> bool
    ensures { IsTrue result ↔ IsTypesAnswer [] buf.now None }
{
    infer_more::types::get(b"", buf).is_none()
}

pub fn has_no_encoding(buf: &[u8]) -> bool
    ensures { IsTrue result ↔ IsEncodingOf buf.now None }
{
    match infer_more::encoding(buf) {
        Some(_) => false,
        None => true,
    }
}

pub fn is_program_sh(buf: &[u8]) -> bool
    ensures { IsTrue result ↔ IsProgram (codes "sh") buf.now }
{
    match program(buf) {
        Some(name) => are_equal(name, b"sh"),
        None => false,
    }
}

pub fn is_root_svg(buf: &[u8]) -> bool
    ensures { IsTrue result ↔ ((rest : List ℕ) × IsRootElement (codes "svg") rest buf.now) }
{
    match root_of(buf) {
        Some(root) => are_equal(root.name, b"svg"),
        None => false,
    }
}

pub fn shows_extension(extension: &str) -> bool
    ensures { IsTrue result ↔ ShowsExtension extension.now }
{
    infer_more::is_supported(extension)
}

pub fn shows_mime_type(mime_type: &str) -> bool
    ensures { IsTrue result ↔ ShowsMimeType mime_type.now }
{
    infer_more::is_mime_supported(mime_type)
}

/// Whether neither an added row nor one of the library is its answer.
pub fn has_no_answer_with<A: Allocator>(infer: &Infer<A>, buf: &[u8]) -> bool
    ensures { IsTrue result ↔ IsAnswerWith (custom_rows infer.now) buf.now None }
{
    infer_more::get_with(infer, buf).is_none()
}

fn are_equal(one: &[u8], other: &[u8]) -> bool
    ensures { IsTrue result ↔ (one.now ≡ other.now) }
{
    one == other
}

pub fn is_labelled_png(buf: &[u8]) -> bool
    ensures { IsTrue result ↔ IsLabel buf.now (codes "image/png") }
{
    match get(buf) {
        Some(found) => are_equal(found.mime_type().as_bytes(), b"image/png"),
        None => false,
    }
}

/// Whether it is the sample of PNG, as `SAMPLE_SIZE` bytes that begin with it and then have zeros hold it.
pub fn is_sample_of_png(front: &[u8]) -> bool
    ensures { IsTrue result
        ↔ HoldsAt (HoldsSample (length front.now)
        (front.now ++ zeros (SAMPLE_SIZE - length front.now))) table PNG }
{
    let mut out = [0; SAMPLE_SIZE];
    match sample(PNG, &mut out) {
        Some(count) => are_equal(&out[..count], front),
        None => false,
    }
}
