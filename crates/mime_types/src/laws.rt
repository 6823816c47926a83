//! Facts about the definitions, each the contract of a function that does nothing beside. To use a law, call it.
ghost use Rattle.std.specs.Prelude.{◌≡◌};
ghost use Rattle.mime_types.specs.Laws.{CombinesOnce, EndsSayNothing, HasPieces, IsTrimmed, LeavesLastOut, SaysItself, SaysNoStars, SaysOne};
ghost use Rattle.mime_types.specs.declared.write.TheConstants.{MOST_PARAMETERS};

/// No text says two MIME types.
#[tactic(auto, using(crate::proofs::ReadLemmas::equal_mime))]
pub fn one_mime()
    ensures { SaysOne }
{}

/// What is written of a MIME type says that MIME type again.
pub fn says_itself()
    ensures { SaysItself }
{}

/// It has no white space at its ends.
#[tactic(auto, using(crate::proofs::AgainLemmas::serialize_trimmed))]
pub fn is_trimmed()
    ensures { IsTrimmed }
{}

/// A value has one piece more than commas outside of quotes.
#[tactic(auto, using(crate::proofs::PiecesLemmas::counted))]
pub fn pieces_of_commas()
    ensures { HasPieces }
{}

/// An empty last piece may be left out, as some readers do: the others say the same MIME types, and forbid the same.
#[tactic(auto, using(crate::proofs::ExtractedLemmas::said_without_last, crate::proofs::PiecesLemmas::forbids))]
pub fn last_left_out()
    ensures { LeavesLastOut }
{}

/// No value says `*/*`.
#[tactic(auto, using(crate::proofs::ExtractedLemmas::says_no_stars))]
pub fn says_no_stars()
    ensures { SaysNoStars }
{}

/// White space at the ends of a value says nothing.
#[tactic(auto, using(crate::proofs::TrimLemmas::ends_say_nothing))]
pub fn ends_say_nothing()
    ensures { EndsSayNothing }
{}

/// What several values say, the one that is made of them says alone. So whoever hands on several headers as one, with `, `
/// between them, changes nothing.
#[tactic(auto, using(crate::proofs::TrimLemmas::ends_say_nothing))]
pub fn combines_once()
    ensures { CombinesOnce }
{}

/// How many parameters may be written.
pub fn numbers()
    ensures { MOST_PARAMETERS ≡ 256 }
{}
