//! Groups of MIME types, by the standard's names. No parameter counts.
ghost use Rattle.std.specs.Prelude.{◌≡◌, ◌↔◌, ◌++◌, ◌==◌, ℕ, List, Any, IsTrue, map};
ghost use Rattle.std.specs.Char.{to_ascii_lowercase};
ghost use Rattle.std.specs.List.{list_all};
ghost use Rattle.mime_types.specs.Bytes.{is_small};
ghost use Rattle.mime_types.specs.Text.{lower};

use crate::mime_type::MimeType;
use crate::text::rest_at;

/// The bit that small letters of ASCII have, and capital ones lack.
const SMALL: u8 = b'a' ^ b'A';

impl<'a> MimeType<'a> {
    ghost use Rattle.std.specs.Prelude.{codes};
    ghost use Rattle.mime_types.specs.Groups.{IsArchive, IsAudioOrVideo, IsFont, IsHtml, IsImage, IsJavaScript, IsJson, IsScriptable, IsXml, IsZipBased, Is};
    ghost use Rattle.mime_types.specs.Seen.{kind_of};

    /// Whether it is an image.
    #[inline]
    pub fn is_image(&self) -> bool
        ensures { IsTrue result ↔ IsImage (kind_of self.now) }
    {
        is_word(self.type_name, b"image")
    }

    /// Whether it is audio or video.
    pub fn is_audio_or_video(&self) -> bool
        ensures { IsTrue result ↔ IsAudioOrVideo (kind_of self.now) }
    {
        is_word(self.type_name, b"audio")
            || is_word(self.type_name, b"video")
            || self.is(b"application", b"ogg")
    }

    /// Whether it is a font.
    pub fn is_font(&self) -> bool
        ensures { IsTrue result ↔ IsFont (kind_of self.now) }
    {
        const FONTS: &[&[u8]] = &[
            b"font-cff",
            b"font-off",
            b"font-sfnt",
            b"font-ttf",
            b"font-woff",
            b"vnd.ms-fontobject",
            b"vnd.ms-opentype",
        ];
        is_word(self.type_name, b"font")
            || is_word(self.type_name, b"application") && is_one_of(self.subtype, FONTS)
    }

    /// Whether it is an archive of ZIP, or by its ending based on one.
    pub fn is_zip_based(&self) -> bool
        ensures { IsTrue result ↔ IsZipBased (kind_of self.now) }
    {
        ends_in(self.subtype, b"+zip") || self.is(b"application", b"zip")
    }

    /// Whether it is an archive.
    pub fn is_archive(&self) -> bool
        ensures { IsTrue result ↔ IsArchive (kind_of self.now) }
    {
        const ARCHIVES: &[&[u8]] = &[b"x-rar-compressed", b"zip", b"x-gzip"];
        is_word(self.type_name, b"application") && is_one_of(self.subtype, ARCHIVES)
    }

    /// Whether it is XML, also by its ending.
    pub fn is_xml(&self) -> bool
        ensures { IsTrue result ↔ IsXml (kind_of self.now) }
    {
        ends_in(self.subtype, b"+xml")
            || is_word(self.subtype, b"xml")
                && (is_word(self.type_name, b"text") || is_word(self.type_name, b"application"))
    }

    /// Whether it is HTML.
    pub fn is_html(&self) -> bool
        ensures { IsTrue result ↔ IsHtml (kind_of self.now) }
    {
        self.is(b"text", b"html")
    }

    /// Whether a document of it may run scripts. JavaScript by itself is no such document.
    pub fn is_scriptable(&self) -> bool
        ensures { IsTrue result ↔ IsScriptable (kind_of self.now) }
    {
        self.is_xml() || self.is_html() || self.is(b"application", b"pdf")
    }

    /// Whether it is JavaScript.
    pub fn is_javascript(&self) -> bool
        ensures { IsTrue result ↔ IsJavaScript (kind_of self.now) }
    {
        const OF_APPLICATION: &[&[u8]] = &[
            b"ecmascript",
            b"javascript",
            b"x-ecmascript",
            b"x-javascript",
        ];
        const OF_TEXT: &[&[u8]] = &[
            b"ecmascript",
            b"javascript",
            b"javascript1.0",
            b"javascript1.1",
            b"javascript1.2",
            b"javascript1.3",
            b"javascript1.4",
            b"javascript1.5",
            b"jscript",
            b"livescript",
            b"x-ecmascript",
            b"x-javascript",
        ];
        is_word(self.type_name, b"application") && is_one_of(self.subtype, OF_APPLICATION)
            || is_word(self.type_name, b"text") && is_one_of(self.subtype, OF_TEXT)
    }

    /// Whether it is JSON, also by its ending.
    pub fn is_json(&self) -> bool
        ensures { IsTrue result ↔ IsJson (kind_of self.now) }
    {
        ends_in(self.subtype, b"+json")
            || self.is(b"application", b"json")
            || self.is(b"text", b"json")
    }

    /// Whether it is this type and subtype, which are in lower case.
    pub fn is(&self, type_name: &[u8], subtype: &[u8]) -> bool
        requires type_lower { lower type_name.now ≡ type_name.now }
        requires subtype_lower { lower subtype.now ≡ subtype.now }
        ensures { IsTrue result ↔ Is type_name.now subtype.now (kind_of self.now) }
    {
        is_same(self.type_name, type_name) && is_same(self.subtype, subtype)
    }
}

/// Whether the text is the word of small letters, in any ASCII case. The loop does not end early: of one whose length
/// is known the compiler makes a comparison of words.
#[tactic(auto, using(crate::proofs::LetterLemmas::lower_is))]
#[inline(always)]
fn is_word<const N: usize>(text: &[u8], word: &[u8; N]) -> bool
    requires { IsTrue (list_all is_small word.now) }
    ensures { IsTrue result ↔ (lower text.now ≡ word.now) }
{
    if text.len() != N {
        return false;
    }
    let mut all = true;
    for i in 0..N {
        all &= is_letter(text[i], word[i]);
    }
    all
}

/// Whether the byte is the small letter, or the capital one.
#[tactic(auto, using(crate::proofs::LetterLemmas::letter_alike))]
#[inline(always)]
fn is_letter(byte: u8, letter: u8) -> bool
    requires { IsTrue (is_small letter) }
    ensures { result ≡ (to_ascii_lowercase byte == letter) }
{
    byte | SMALL == letter
}

/// Whether the text is the word, in any ASCII case. The word is in lower case.
pub(crate) fn is_same(text: &[u8], word: &[u8]) -> bool
    requires { lower word.now ≡ word.now }
    ensures { IsTrue result ↔ (lower text.now ≡ word.now) }
{
    text.eq_ignore_ascii_case(word)
}

/// Whether the text is one of the words, in any ASCII case.
fn is_one_of(text: &[u8], words: &[&[u8]]) -> bool
    ensures { IsTrue result ↔ Any (λ word. lower text.now ≡ lower word) (map (λ word. word.now) words.now) }
{
    words.iter().any(|word| is_alike(text, word))
}

/// Whether the texts are the same, in any ASCII case.
pub(crate) fn is_alike(text: &[u8], word: &[u8]) -> bool
    ensures { IsTrue result ↔ (lower text.now ≡ lower word.now) }
{
    text.eq_ignore_ascii_case(word)
}

/// Whether the text ends so, in any ASCII case. The ending is in lower case.
#[tactic(auto, using(crate::proofs::TextLemmas::ending))]
fn ends_in(text: &[u8], ending: &[u8]) -> bool
    requires { lower ending.now ≡ ending.now }
    ensures { IsTrue result ↔ ((start : List ℕ) × (lower text.now ≡ start ++ ending.now)) }
{
    text.len() >= ending.len() && is_same(rest_at(text, text.len() - ending.len()), ending)
}
