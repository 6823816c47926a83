//! Laws of names and bytes, each the contract of a function that does nothing beside. They hold for every key, so for every
//! table. To use a law, call it.
ghost use Rattle.infer_named.specs.Laws.{AnswersLast, AnswersLastByKind, CaseChangesNoKey, ChangesOnce, CopiesChangeNoKey, DecidedAnswersLast, EachKeyIsReached, EachReadingIsFound, EachRowIsNamed, FoldersChangeNoKey, KeysAreRight, KindsLast, LeadsLast, LiesStayVisible, NothingIsInvented, OnlyTheKeyCounts, OnlyThreeCount, SilenceIsExact, TheBytesWin};

/// The bytes win: no type is reported that they contradict, and theirs is reported but where a name refines it.
#[tactic(auto, using(crate::proofs::LawLemmas::bytes_win))]
pub fn bytes_win()
    ensures { TheBytesWin }
{}

/// Nothing is invented: a name alone gives a type only to bytes that no row accepts, and that may be of it.
#[tactic(auto, using(crate::proofs::LawLemmas::nothing_invented))]
pub fn nothing_is_invented()
    ensures { NothingIsInvented }
{}

/// Nothing is said exactly if the bytes have no type, and the name has no key but a loose one, or there are no bytes and no reading
/// of the key allows that.
#[tactic(auto, using(crate::proofs::LawLemmas::silence_exact))]
pub fn silence_is_exact()
    ensures { SilenceIsExact }
{}

/// Two names with one key, or without one, say the same of the same bytes.
pub fn only_the_key_counts()
    ensures { OnlyTheKeyCounts }
{}

/// No key is another by the case of letters, by a folder before the name, or by the ending of a copy after a name that is none
/// itself.
pub fn keys_stay()
    ensures case { CaseChangesNoKey }
    ensures folders { FoldersChangeNoKey }
    ensures copies { CopiesChangeNoKey }
{}

/// Of the bytes count their type, their kind where they have none, and their lead where a reading has leads.
#[tactic(auto, using(crate::proofs::LawLemmas::only_three))]
pub fn only_three_count()
    ensures { OnlyThreeCount }
{}

/// What follows the bytes changes neither a lead of two bytes, but that of EF BB alone, nor that they are no text, nor a byte
/// 00 among them. So where the lead stays, or no reading of the key has one, it changes no answer about bytes that have a type,
/// as long as the type stays, as it does if it is decided; and none about bytes without one, but with their kind, so at most
/// once, as the first 00 comes. The name may be changed meanwhile for another with its key.
pub fn growth()
    ensures leads { LeadsLast }
    ensures kinds { KindsLast }
    ensures answers { AnswersLast }
    ensures kept { AnswersLastByKind }
    ensures once { ChangesOnce }
    ensures decided { DecidedAnswersLast }
{}

/// A lie stays visible: bytes of a type that no reading of a strict key takes contradict it, whatever else they hold, and so those
/// of a type that a plain key does not leave open. But a finer kind of plain text is no lie where any plain text is none.
pub fn lies_stay_visible()
    ensures { LiesStayVisible }
{}

/// Each key is that of some name.
pub fn each_key_is_reached()
    ensures { EachKeyIsReached }
{}

/// No reading is hidden by those before it: of some row's type, or of some bytes without one, it is what is reported. But the only
/// reading of a loose key may say no more than what type the name has.
pub fn each_reading_is_found()
    ensures { EachReadingIsFound }
{}

/// Each row, built-in or further, has a name: some reading has it in a set. But a few are nameless, since their files have no
/// name of their own.
pub fn each_row_is_named()
    ensures { EachRowIsNamed }
{}

/// The table is right: each key has from 1 to 27 bytes of small letters, digits and marks, stands once, and has readings, of
/// which each MIME type has at most 73 bytes and none is hidden.
pub fn keys_are_right()
    ensures { KeysAreRight }
{}
