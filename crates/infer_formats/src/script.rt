//! Scripts, by the program that their first line names: execve(2), "Interpreter scripts".
ghost use Rattle.std.specs.Prelude.{◌≡◌, ◌↔◌, ◌<◌, ◌≤◌, ◌⊎◌, ℕ, List, length, codes, slice_index, IsTrue, IfSome, MatchOption};
ghost use Rattle.memchr.specs.Find.{OccursAt};
ghost use Rattle.infer_formats.specs.Runs.{IsRun};
ghost use Rattle.infer_formats.specs.Script.{EndsBare, IsBlank, IsEnv, IsFolder, IsLineEnd, IsNextWord, IsProgram, IsRead, IsSetting, IsVersionByte, IsWord, IsWordByte, NamesProgram};

mod may_become;

use infer_deep::places::{has_at, same_at};
use may_become::is_same;
pub use may_become::may_become_program;

/// A word of the first line: where it begins and ends, where its name begins, and whether it has "=".
#[derive(Clone, Copy)]
struct Word {
    from: usize,
    to: usize,
    name: usize,
    has_equals: bool,
}

/// The name of the program that runs a script, as "python" of `#!/usr/bin/env -S A=1 python3.11`.
///
/// The line after "#!" ends by 0A or 0D, and spaces and tabs part its words. A word that the buffer ends in does not
/// count, since it may go on. A word's name is what follows its last "/". Where the name of the first word is "env", the
/// next word without "=" that does not begin with "-" names the program. Digits and dots at the end of a name are its
/// version, and left out, so that nothing may be left of it.
#[inline(never)]
pub fn program(buf: &[u8]) -> Option<&[u8]>
    ensures found { MatchOption result ((n : List ℕ) → ¬ IsProgram n buf.now)
        (λ name. IsProgram name.now buf.now) }
    ensures only { IfSome result (λ name. (n : List ℕ) → IsProgram n buf.now → n ≡ name.now) }
{
    if !has_at(buf, b"#!", 0) {
        return None;
    }
    Some(bare_name(buf, program_word(buf)?))
}

/// Whether a script names this program.
pub fn is_program(buf: &[u8], name: &[u8]) -> bool
    ensures { IsTrue result ↔ IsProgram name.now buf.now }
{
    match program(buf) {
        Some(named) => is_same(named, name),
        None => false,
    }
}

/// The name of the program, which the word names.
fn bare_name(buf: &[u8], word: Word) -> &[u8]
    requires begins { OccursAt buf.now (codes "#!") 0 }
    requires names { NamesProgram buf.now word.from word.to }
    requires read { IsRead buf.now word }
    ensures { IsProgram result.now buf.now }
{
    &buf[word.name..bare_end(buf, word.name, word.to)]
}

/// The word whose name is that of the program.
#[inline(always)]
fn program_word(buf: &[u8]) -> Option<Word>
    requires { 2 ≤ length buf.now }
    ensures names { MatchOption result ((p q : ℕ) → ¬ NamesProgram buf.now p q)
        (λ w. NamesProgram buf.now w.from w.to) }
    ensures read { IfSome result (λ w. IsRead buf.now w) }
{
    // Scripts that name `env` mostly begin so, and one comparison decides it.
    if has_at(buf, b"/usr/bin/env ", 2) {
        return next_program(buf, 14);
    }
    let first = first_word(buf)?;
    if is_env(buf, first) {
        return next_program(buf, first.to);
    }
    Some(first)
}

/// The first word from that place on, a place where the line or another word's bytes end, that `env` does not take for
/// itself.
fn next_program(buf: &[u8], place: usize) -> Option<Word>
    requires low { 2 ≤ place }
    requires line { (k : ℕ) → 2 ≤ k → k < place → ¬ IsLineEnd (slice_index buf.now k) }
    requires whole { place < length buf.now }
    requires ends { ¬ IsWordByte (slice_index buf.now place) }
    ensures next { MatchOption result ((p q : ℕ) → place ≤ p → IsWord buf.now p q
        → IsSetting buf.now p q)
        (λ w. IsNextWord buf.now (λ p q. ¬ IsSetting buf.now p q) place w.from w.to) }
    ensures read { IfSome result (λ w. IsRead buf.now w) }
{
    let mut from = place;
    while let Some(word) = next_word(buf, from) {
        if !is_setting(buf, word) {
            return Some(word);
        }
        from = word.to;
    }
    None
}

/// The first word from that place on, where the line or a word begins or a word has ended.
fn next_word(buf: &[u8], place: usize) -> Option<Word>
    requires low { 2 ≤ place }
    requires line { (k : ℕ) → 2 ≤ k → k < place → ¬ IsLineEnd (slice_index buf.now k) }
    requires within { place ≤ length buf.now }
    requires ends { (place ≡ 2) ⊎ (¬ IsWordByte (slice_index buf.now place)) }
    ensures next { MatchOption result ((p q : ℕ) → place ≤ p → ¬ IsWord buf.now p q)
        (λ w. IsNextWord buf.now (λ p q. Unit {0}) place w.from w.to) }
    ensures read { IfSome result (λ w. IsRead buf.now w) }
{
    let from = blanks_end(buf, place);
    if from == buf.len() || !is_word_byte(buf[from]) {
        return None;
    }
    read_word(buf, from, from)
}

/// [`next_word`] where the line begins. Its folder is mostly one that is known.
#[inline(always)]
fn first_word(buf: &[u8]) -> Option<Word>
    requires { 2 ≤ length buf.now }
    ensures next { MatchOption result ((p q : ℕ) → 2 ≤ p → ¬ IsWord buf.now p q)
        (λ w. IsNextWord buf.now (λ p q. Unit {0}) 2 w.from w.to) }
    ensures read { IfSome result (λ w. IsRead buf.now w) }
{
    let from = blanks_end(buf, 2);
    if from == buf.len() || !is_word_byte(buf[from]) {
        return None;
    }
    read_word(buf, from, folder_end(buf, from))
}

/// Where the folder that stands there ends, if it is one of those in which most programs are: one comparison decides it.
#[inline(always)]
fn folder_end(buf: &[u8], from: usize) -> usize
    requires { from ≤ length buf.now }
    ensures { IsFolder buf.now from result }
{
    // Whether there is room is asked once for both: even a short script has so many bytes.
    if buf.len() - from < 15 {
        return from;
    }
    if same_at(buf, b"/usr/bin/", from) {
        return from + 9;
    }
    if same_at(buf, b"/usr/local/bin/", from) {
        return from + 15;
    }
    from
}

/// Where the spaces and tabs from that place on end.
fn blanks_end(buf: &[u8], place: usize) -> usize
    requires { place ≤ length buf.now }
    ensures low { place ≤ result }
    ensures high { result ≤ length buf.now }
    ensures blanks { (k : ℕ) → place ≤ k → k < result → IsBlank (slice_index buf.now k) }
    ensures ends { result < length buf.now → ¬ IsBlank (slice_index buf.now result) }
{
    for at in place..buf.len() {
        if !is_blank(buf[at]) {
            return at;
        }
    }
    buf.len()
}

/// The bytes of a word that stand there, perhaps none, if the buffer goes on after them. Its folder, which was read
/// before, ends at `folder`.
#[inline(always)]
fn read_word(buf: &[u8], from: usize, folder: usize) -> Option<Word>
    requires { IsFolder buf.now from folder }
    ensures { MatchOption result ((k : ℕ) → from ≤ k → k < length buf.now
        → IsWordByte (slice_index buf.now k))
        (λ w. (w.from ≡ from) × IsRun IsWordByte buf.now from w.to × IsRead buf.now w) }
{
    let mut name = folder;
    let mut has_equals = false;
    for to in folder..buf.len() {
        let byte = buf[to];
        // Most bytes are decided by this test.
        if byte > b'=' {
            continue;
        }
        // And most of those of binary data by this one.
        if byte < b'\t' {
            continue;
        }
        if byte == b'/' {
            name = to + 1;
        } else if byte == b'=' {
            has_equals = true;
        } else if !is_word_byte(byte) {
            return Some(Word {
                from,
                to,
                name,
                has_equals,
            });
        }
    }
    None
}

fn is_blank(byte: u8) -> bool
    ensures { IsTrue result ↔ IsBlank byte }
{
    byte == b' ' || byte == b'\t'
}

fn is_word_byte(byte: u8) -> bool
    ensures { IsTrue result ↔ IsWordByte byte }
{
    // Most bytes are decided by the first test.
    byte > b' ' || !matches!(byte, b' ' | b'\t' | b'\n' | b'\r')
}

#[inline(always)]
fn is_env(buf: &[u8], word: Word) -> bool
    requires whole { word.to < length buf.now }
    requires read { IsRead buf.now word }
    ensures { IsTrue result ↔ IsEnv buf.now word.from word.to }
{
    word.to - word.name == 3 && same_at(buf, b"env", word.name)
}

/// Whether `env` takes the word for itself, as an option or the value of a variable.
fn is_setting(buf: &[u8], word: Word) -> bool
    requires some { word.from < length buf.now }
    requires read { IsRead buf.now word }
    ensures { IsTrue result ↔ IsSetting buf.now word.from word.to }
{
    buf[word.from] == b'-' || word.has_equals
}

/// Where the name ends without the digits and dots at its end.
fn bare_end(buf: &[u8], at: usize, to: usize) -> usize
    requires order { at ≤ to }
    requires within { to ≤ length buf.now }
    ensures { EndsBare buf.now at to result }
{
    let mut end = to;
    while end > at && is_version_byte(buf[end - 1]) {
        end -= 1;
    }
    end
}

fn is_version_byte(byte: u8) -> bool
    ensures { IsTrue result ↔ IsVersionByte byte }
{
    // Most bytes are decided by the first test.
    byte <= b'9' && (byte >= b'0' || byte == b'.')
}
