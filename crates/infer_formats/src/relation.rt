//! Relations: what each takes, whether a buffer has it, what bytes after the buffer can bring or take, and a short buffer that
//! has it.
ghost use Rattle.std.specs.Prelude.{◌≡◌, ◌≤◌, ◌↔◌, [], IfSome, IsTrue, is_some, length, map};
ghost use Rattle.infer_deep.specs.Signatures.{MayBecome};
ghost use Rattle.infer_formats.specs.Open.{Stays};
ghost use Rattle.infer_formats.specs.Markup.{DecidesByRoot};
ghost use Rattle.infer_formats.specs.Relation.{Fits, IsSound, class_id, dbase, directory_tag, directory_tag_and_make, first_key, first_key_with, has_entry, header, is_of_root, least_of, model, model_listed, name_listed, names, of_text, package_with, program, relation_listed, root, root_with, shared_object, text_first_with_all};

use crate::begins::{begins, begins_and_has, begins_and_has_all, may_begin};
use crate::dbase::{is_dbase, may_become_dbase};
use crate::elf::{is_shared_object, may_become_shared_object};
use crate::header::{has_later_header, may_have_later_header};
use crate::id3::{is_behind_id3, may_be_behind_id3};
use crate::json::{
    has_first_key, has_first_key_with, is_json, is_json_lines, may_become_json,
    may_become_json_lines, may_have_first_key, may_have_first_key_with,
};
use crate::markup::{
    Root, has_name, has_name_and_text, has_root, has_root_with, may_have_root, may_have_root_with,
};
use crate::model::{Model, Text, at, entry, five, four, made, one, three, two};
use crate::numbers::bytes16;
use crate::png::{is_animated, may_become_animated};
use crate::script::{is_program, may_become_program};
use crate::subtitles::{is_subrip, may_become_subrip};
use crate::tar::{has_tar_checksum, may_have_tar_checksum};
use crate::text::{is_text, may_become_text, stays_text};
use crate::tiff::{
    first_directory_has_tag, first_directory_has_tag_and_make, first_directory_may_have_tag,
    first_directory_may_have_tag_and_make,
};
use crate::token::Token;
use crate::token::Token::{Quoted, Separator, Word};
use crate::zip::{
    first_entry_ends_in, first_entry_has_extra, first_entry_is, has_entry, is_java_archive,
    is_package_with, may_become_java_archive, may_become_package_with, may_have_first_entry,
    may_have_first_entry_ending, may_have_first_extra,
};
use infer_deep::doc::{has_class_id, may_have_class_id};
use infer_deep::places::{may_stand_at, stands_at};

/// What a signature may ask of a buffer beside bytes at fixed places, with what it takes.
#[derive(Clone, Copy)]
pub enum Relation<'a> {
    SharedObject,
    FirstEntryIs(&'a [u8]),
    FirstEntryEndsIn(&'a [u8]),
    FirstEntryHasExtra([u8; 2]),
    JavaArchive,
    HasEntry(&'a [u8]),
    PackageWith(&'a [u8]),
    ClassId([u8; 16]),
    DirectoryTag(u16),
    /// And what the make of the camera begins with.
    DirectoryTagAndMake(u16, &'a [u8]),
    BehindId3(&'a [u8]),
    TextFirst(&'a [u8]),
    TextFirstWith(&'a [u8], &'a [u8]),
    /// The last text may be empty.
    TextFirstWithAll(&'a [u8], &'a [u8], &'a [u8], &'a [u8]),
    Header(&'a [u8], u16, u16, u16),
    FirstKey(&'a [u8]),
    FirstKeyWith(&'a [u8], &'a [u8]),
    Animated,
    SubRip,
    Dbase,
    TarChecksum,
    Program(&'a [u8]),
    Root(&'a [u8]),
    RootWith(&'a [u8], &'a [u8]),
    JsonLines,
    JsonText,
    PlainText,
}

/// What stands after the name of a relation.
#[derive(Clone, Copy)]
pub enum Takes {
    Nothing(Relation<'static>),
    OneText(OfText),
    Tag,
    Program,
    Entry,
    FirstKey,
    ClassId,
    Root,
    Begins,
    Header,
}

/// The relations that take a text between quotes, and nothing else.
#[derive(Clone, Copy)]
pub enum OfText {
    Package,
    AnyEntry,
    BehindId3,
}

impl OfText {
    /// The relation that takes this text.
    pub fn with<'a>(self, text: &'a [u8]) -> Relation<'a>
        ensures { relation_listed result ≡ of_text self text.now }
    {
        match self {
            OfText::Package => Relation::PackageWith(text),
            OfText::AnyEntry => Relation::HasEntry(text),
            OfText::BehindId3 => Relation::BehindId3(text),
        }
    }
}

static NAMES: &[(&[Token<'static>], Takes)] = &[
    (
        &[Word(b"shared"), Word(b"object")],
        Takes::Nothing(Relation::SharedObject),
    ),
    (
        &[
            Word(b"chunk"),
            Quoted(b"acTL"),
            Word(b"before"),
            Quoted(b"IDAT"),
        ],
        Takes::Nothing(Relation::Animated),
    ),
    (
        &[Word(b"first"), Word(b"cue"), Word(b"of"), Word(b"SubRip")],
        Takes::Nothing(Relation::SubRip),
    ),
    (
        &[Word(b"dBASE"), Word(b"header")],
        Takes::Nothing(Relation::Dbase),
    ),
    (
        &[Word(b"Java"), Word(b"archive")],
        Takes::Nothing(Relation::JavaArchive),
    ),
    (
        &[Word(b"tar"), Word(b"checksum")],
        Takes::Nothing(Relation::TarChecksum),
    ),
    (
        &[Word(b"JSON"), Word(b"lines")],
        Takes::Nothing(Relation::JsonLines),
    ),
    (&[Word(b"JSON")], Takes::Nothing(Relation::JsonText)),
    (&[Word(b"text")], Takes::Nothing(Relation::PlainText)),
    (
        &[
            Word(b"first"),
            Word(b"directory"),
            Word(b"has"),
            Word(b"tag"),
        ],
        Takes::Tag,
    ),
    (
        &[Word(b"package"), Word(b"with"), Separator(b':')],
        Takes::OneText(OfText::Package),
    ),
    (
        &[
            Word(b"behind"),
            Word(b"an"),
            Word(b"ID3"),
            Word(b"tag"),
            Separator(b':'),
        ],
        Takes::OneText(OfText::BehindId3),
    ),
    (
        &[Word(b"entry"), Separator(b':')],
        Takes::OneText(OfText::AnyEntry),
    ),
    (&[Word(b"begins"), Separator(b':')], Takes::Begins),
    (
        &[Word(b"later"), Word(b"header"), Separator(b':')],
        Takes::Header,
    ),
    (&[Word(b"program"), Separator(b':')], Takes::Program),
    (
        &[Word(b"first"), Word(b"entry"), Separator(b':')],
        Takes::Entry,
    ),
    (
        &[Word(b"first"), Word(b"key"), Separator(b':')],
        Takes::FirstKey,
    ),
    (
        &[Word(b"class"), Word(b"id"), Separator(b':')],
        Takes::ClassId,
    ),
    (&[Word(b"root"), Separator(b':')], Takes::Root),
];

/// What each relation is called, and what it takes. The first name by which a text begins counts.
pub fn names() -> &'static [(&'static [Token<'static>], Takes)]
    ensures { map name_listed result.now ≡ names }
{
    NAMES
}

impl<'a> Relation<'a> {
    /// Whether the buffer has it. No copy of this function stands in its callers.
    // Nor has it copies of the longer ones that it calls, so that it saves few registers.
    #[inline(never)]
    pub fn fits(&self, buf: &[u8]) -> bool
        ensures { IsTrue result ↔ Fits (relation_listed self.now) buf.now }
    {
        match self {
            Relation::SharedObject => is_shared_object(buf),
            Relation::FirstEntryIs(name) => first_entry_is(buf, name),
            Relation::FirstEntryEndsIn(end) => first_entry_ends_in(buf, end),
            Relation::FirstEntryHasExtra(extra) => first_entry_has_extra(buf, extra),
            Relation::JavaArchive => is_java_archive(buf),
            Relation::HasEntry(name) => has_entry(buf, name),
            Relation::PackageWith(folder) => is_package_with(buf, folder),
            Relation::ClassId(id) => has_class_id(buf, id),
            Relation::DirectoryTag(tag) => first_directory_has_tag(buf, *tag),
            Relation::DirectoryTagAndMake(tag, make) => first_directory_has_tag_and_make(
                buf, *tag, make,
            ),
            Relation::BehindId3(text) => is_behind_id3(buf, text),
            Relation::TextFirst(text) => begins(buf, text),
            Relation::TextFirstWith(text, other) => begins_and_has(buf, text, other),
            Relation::TextFirstWithAll(text, u, v, w) => begins_and_has_all(buf, text, u, v, w),
            Relation::Header(text, far, low, high) => has_later_header(
                buf, text, *far, *low, *high,
            ),
            Relation::FirstKey(key) => has_first_key(buf, key),
            Relation::FirstKeyWith(key, value) => has_first_key_with(buf, key, value),
            Relation::Animated => stands_at(buf, b"\x89PNG", 0) && is_animated(buf),
            Relation::SubRip => is_subrip(buf),
            Relation::Dbase => is_dbase(buf),
            Relation::TarChecksum => has_tar_checksum(buf),
            Relation::Program(name) => is_program(buf, name),
            Relation::Root(name) => has_root(buf, name),
            Relation::RootWith(name, text) => has_root_with(buf, name, text),
            Relation::JsonLines => is_json_lines(buf),
            Relation::JsonText => is_json(buf),
            Relation::PlainText => is_text(buf),
        }
    }

    /// Whether a buffer with this root element, or with none, has it. `None` if it asks for something else.
    pub fn of_root(&self, root: &Option<Root<'_>>) -> Option<bool>
        ensures asks { is_some result ≡ is_of_root (relation_listed self.now) }
        ensures says { IfSome result (DecidesByRoot root.now (Fits (relation_listed self.now))) }
    {
        match self {
            Relation::Root(name) => Some(has_name(root, name)),
            Relation::RootWith(name, text) => Some(has_name_and_text(root, name, text)),
            _ => None,
        }
    }

    /// Whether some bytes after the buffer, or none, may make it have it: a no is certain.
    pub fn may_fit(&self, buf: &[u8]) -> bool
        requires { IsSound (relation_listed self.now) }
        ensures { MayBecome (Fits (relation_listed self.now)) buf.now → IsTrue result }
    {
        match self {
            Relation::SharedObject => may_become_shared_object(buf),
            Relation::FirstEntryIs(name) => may_have_first_entry(buf, name),
            Relation::FirstEntryEndsIn(end) => may_have_first_entry_ending(buf, end),
            Relation::FirstEntryHasExtra(extra) => may_have_first_extra(buf, extra),
            Relation::JavaArchive => may_become_java_archive(buf),
            // An entry may always follow.
            Relation::HasEntry(_) => may_stand_at(buf, b"PK\x03\x04", 0),
            Relation::PackageWith(folder) => may_become_package_with(buf, folder),
            Relation::ClassId(id) => may_have_class_id(buf, id),
            Relation::DirectoryTag(tag) => first_directory_may_have_tag(buf, *tag),
            Relation::DirectoryTagAndMake(tag, make) => {
                first_directory_may_have_tag_and_make(buf, *tag, make)
            }
            Relation::BehindId3(text) => may_be_behind_id3(buf, text),
            Relation::TextFirst(text) => may_begin(buf, text),
            // So may the other text.
            Relation::TextFirstWith(text, _) => may_begin(buf, text),
            Relation::TextFirstWithAll(text, _, _, _) => may_begin(buf, text),
            Relation::Header(text, far, low, high) => {
                may_have_later_header(buf, text, *far, *low, *high)
            }
            Relation::FirstKey(key) => may_have_first_key(buf, key),
            Relation::FirstKeyWith(key, value) => may_have_first_key_with(buf, key, value),
            Relation::Animated => may_stand_at(buf, b"\x89PNG", 0) && may_become_animated(buf),
            Relation::SubRip => may_become_subrip(buf),
            Relation::Dbase => may_become_dbase(buf),
            Relation::TarChecksum => may_have_tar_checksum(buf),
            Relation::Program(name) => may_become_program(buf, name),
            Relation::Root(name) => may_have_root(buf, name),
            Relation::RootWith(name, text) => may_have_root_with(buf, name, text),
            Relation::JsonLines => may_become_json_lines(buf),
            Relation::JsonText => may_become_json(buf),
            Relation::PlainText => may_become_text(buf),
        }
    }

    /// Whether the buffer, which has it, has it whatever bytes follow, as far as this can say: a yes is certain.
    #[tactic(auto, using(crate::proofs::RelationLemmas::fit_stays))]
    pub fn stays(&self, buf: &[u8]) -> bool
        requires { Fits (relation_listed self.now) buf.now }
        ensures { IsTrue result → Stays (Fits (relation_listed self.now)) buf.now }
    {
        match self {
            Relation::JsonLines => false,
            Relation::JsonText => false,
            Relation::PlainText => stays_text(buf),
            _ => true,
        }
    }

    /// A short buffer that has it. A root element stands after this text.
    pub fn model<'b>(&'b self, before: &'b [u8]) -> Model<'b>
        requires { least_of (model before.now (relation_listed self.now)) ≤ 65536 }
        ensures model { model_listed result ≡ model before.now (relation_listed self.now) }
        ensures few { result.count ≤ 5 }
    {
        match self {
            Relation::SharedObject => object(),
            Relation::FirstEntryIs(name) => entry(26, Text::Slice(name)),
            Relation::FirstEntryEndsIn(end) => entry(26, Text::Slice(end)),
            Relation::FirstEntryHasExtra(extra) => entry(28, Text::Two(*extra)),
            Relation::JavaArchive => entry(26, Text::Slice(b"META-INF/MANIFEST.MF")),
            Relation::HasEntry(name) => entry_after(name),
            Relation::PackageWith(folder) => package(folder),
            Relation::ClassId(id) => compound(*id),
            Relation::DirectoryTag(tag) => directory(*tag),
            Relation::DirectoryTagAndMake(tag, make) => directory_with_make(*tag, make),
            Relation::BehindId3(text) => two(10 + text.len(), at(0, b"ID3"), at(10, text)),
            Relation::TextFirst(text) => one(text.len(), at(0, text)),
            Relation::TextFirstWith(text, other) => two(
                text.len() + other.len(),
                at(0, text),
                at(text.len(), other),
            ),
            Relation::TextFirstWithAll(text, u, v, w) => texts(text, u, v, w),
            Relation::Header(text, far, low, _) => program_with_header(text, *far, *low),
            Relation::FirstKey(key) => object_with_key(key),
            Relation::FirstKeyWith(key, value) => object_with_value(key, value),
            Relation::Animated => two(16, at(0, b"\x89PNG"), at(12, b"acTL")),
            Relation::SubRip => one(31, at(0, b"0\n00:00:00,000 --> 00:00:00,000")),
            Relation::Dbase => table(),
            Relation::TarChecksum => two(512, at(0, b"\x01"), at(148, b"401")),
            Relation::Program(name) => script(name),
            Relation::Root(name) => element(before, name),
            Relation::RootWith(name, text) => element_with(before, name, text),
            Relation::JsonLines => one(4, at(0, b"[]\n[")),
            Relation::JsonText => one(2, at(0, b"[]")),
            Relation::PlainText => one(1, at(0, b" ")),
        }
    }
}

/// That of a shared object: a narrow file whose lowest byte comes first, with one entry.
fn object() -> Model<'static>
    ensures model { model_listed result ≡ model [] shared_object }
    ensures few { result.count ≤ 5 }
{
    three(
        46,
        at(4, b"\x01\x01"),
        at(16, b"\x03"),
        at(42, b"\x20\0\x01"),
    )
}

/// That of texts, one after the other.
fn texts<'b>(text: &'b [u8], u: &'b [u8], v: &'b [u8], w: &'b [u8]) -> Model<'b>
    requires { least_of (model [] (text_first_with_all text.now u.now v.now w.now)) ≤ 65536 }
    ensures model { model_listed result ≡ model [] (text_first_with_all text.now u.now v.now w.now) }
    ensures few { result.count ≤ 5 }
{
    four(
        text.len() + u.len() + v.len() + w.len(),
        at(0, text),
        at(text.len(), u),
        at(text.len() + u.len(), v),
        at(text.len() + u.len() + v.len(), w),
    )
}

/// That of an object: its first key.
fn object_with_key<'b>(key: &'b [u8]) -> Model<'b>
    requires { length key.now ≤ 65536 }
    ensures model { model_listed result ≡ model [] (first_key key.now) }
    ensures few { result.count ≤ 5 }
{
    three(
        4 + key.len(),
        at(0, b"{\""),
        at(2, key),
        at(2 + key.len(), b"\":"),
    )
}

/// And the value after the key.
fn object_with_value<'b>(key: &'b [u8], value: &'b [u8]) -> Model<'b>
    requires { least_of (model [] (first_key_with key.now value.now)) ≤ 65536 }
    ensures model { model_listed result ≡ model [] (first_key_with key.now value.now) }
    ensures few { result.count ≤ 5 }
{
    five(
        6 + key.len() + value.len(),
        at(0, b"{\""),
        at(2, key),
        at(2 + key.len(), b"\":\""),
        at(5 + key.len(), value),
        at(5 + key.len() + value.len(), b"\""),
    )
}

/// That of an archive with an entry of this name, after what its parent has.
fn entry_after<'b>(name: &'b [u8]) -> Model<'b>
    requires { length name.now ≤ 65536 }
    ensures model { model_listed result ≡ model [] (has_entry name.now) }
    ensures few { result.count ≤ 5 }
{
    four(
        78 + name.len(),
        at(0, b"PK\x03\x04"),
        at(48, b"PK\x03\x04"),
        made(74, Text::One([(name.len() % 256) as u8])),
        at(78, name),
    )
}

/// That of a package: the header of an entry "_rels/", and inside it, at 6, that of an entry in the folder.
fn package<'b>(folder: &'b [u8]) -> Model<'b>
    requires { length folder.now ≤ 65536 }
    ensures model { model_listed result ≡ model [] (package_with folder.now) }
    ensures few { result.count ≤ 5 }
{
    four(
        36 + folder.len(),
        at(0, b"PK\x03\x04"),
        at(6, b"PK\x03\x04"),
        at(30, b"_rels/"),
        at(36, folder),
    )
}

/// That of a compound file: a root entry after the header.
fn compound(id: [u8; 16]) -> Model<'static>
    ensures model { model_listed result ≡ model [] (class_id id) }
    ensures few { result.count ≤ 5 }
{
    four(
        640,
        at(0, b"\xD0\xCF\x11\xE0\xA1\xB1\x1A\xE1"),
        at(26, b"\x03\0\xFE\xFF\x09"),
        at(578, b"\x05"),
        made(592, Text::Sixteen(id)),
    )
}

/// That of a TIFF file: a directory with this tag.
fn directory(tag: u16) -> Model<'static>
    ensures model { model_listed result ≡ model [] (directory_tag tag) }
    ensures few { result.count ≤ 5 }
{
    two(
        20,
        at(0, b"MM\0*\0\0\0\x06"),
        made(8, Text::Two(tag.to_be_bytes())),
    )
}

/// That of a TIFF file: a directory with this tag, and the make after it.
fn directory_with_make<'b>(tag: u16, make: &'b [u8]) -> Model<'b>
    requires { length make.now ≤ 65536 }
    ensures model { model_listed result ≡ model [] (directory_tag_and_make tag make.now) }
    ensures few { result.count ≤ 5 }
{
    five(
        32 + make.len(),
        at(0, b"MM\0*\0\0\0\x06"),
        made(8, Text::Two(tag.to_be_bytes())),
        at(20, b"\x01\x0F"),
        at(31, b"\x20"),
        at(32, make),
    )
}

/// That of a dBASE table: a header with one field.
fn table() -> Model<'static>
    ensures model { model_listed result ≡ model [] dbase }
    ensures few { result.count ≤ 5 }
{
    five(
        65,
        at(0, b"\x02\0\x01\x01"),
        at(8, b"\x41\0\x02"),
        at(32, b"A"),
        at(43, b"+"),
        at(64, b"\r"),
    )
}

/// That of a program whose later header stands right after the first, with this number in it.
fn program_with_header<'b>(text: &'b [u8], far: u16, low: u16) -> Model<'b>
    requires { length text.now ≤ 65536 }
    ensures model { model_listed result ≡ model [] (header text.now far low low) }
    ensures few { result.count ≤ 5 }
{
    four(
        (64 + text.len()).max(66 + usize::from(far)),
        at(0, b"MZ"),
        at(60, b"\x40"),
        at(64, text),
        made(64 + usize::from(far), Text::Two(bytes16(low, false))),
    )
}

/// That of a script: a line that names its program.
fn script<'b>(name: &'b [u8]) -> Model<'b>
    requires { length name.now ≤ 65536 }
    ensures model { model_listed result ≡ model [] (program name.now) }
    ensures few { result.count ≤ 5 }
{
    three(
        3 + name.len(),
        at(0, b"#!"),
        at(2, name),
        at(2 + name.len(), b"\n"),
    )
}

/// That of markup: an element after this text.
fn element<'b>(before: &'b [u8], name: &'b [u8]) -> Model<'b>
    requires { least_of (model before.now (root name.now)) ≤ 65536 }
    ensures model { model_listed result ≡ model before.now (root name.now) }
    ensures few { result.count ≤ 5 }
{
    four(
        before.len() + 2 + name.len(),
        at(0, before),
        at(before.len(), b"<"),
        at(before.len() + 1, name),
        at(before.len() + 1 + name.len(), b">"),
    )
}

/// That of markup with the text in its tag.
fn element_with<'b>(before: &'b [u8], name: &'b [u8], text: &'b [u8]) -> Model<'b>
    requires { least_of (model before.now (root_with name.now text.now)) ≤ 65536 }
    ensures model { model_listed result ≡ model before.now (root_with name.now text.now) }
    ensures few { result.count ≤ 5 }
{
    five(
        before.len() + 2 + name.len() + text.len(),
        at(0, before),
        at(before.len(), b"<"),
        at(before.len() + 1, name),
        at(before.len() + 1 + name.len(), b" "),
        at(before.len() + 2 + name.len(), text),
    )
}
