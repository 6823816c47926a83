//! Facts about the definitions, each the contract of a function that does nothing beside. To use a law, call it.
ghost use Rattle.mime_sniff.specs.Laws.{ComputesOne, DecidedStays, DecidesWhenFull, Escalates, EscalatesForGood, EscalatesSo, HasOneType, HeaderComputes, HeaderDecides, KeepsHeader, OctetsStay, RowsStay, SharesRows, StaysIfForbidden, StaysOfItsKind, GivesNoScript};

/// No buffer has two content types.
#[tactic(auto, using(crate::proofs::FirstLemmas::one_first))]
pub fn one_type()
    ensures { HasOneType }
{}

/// What stands after the header makes no difference.
pub fn header_decides()
    ensures { HeaderDecides }
{}

/// What is supplied and a buffer have no two computed types.
pub fn one_computed()
    ensures { ComputesOne }
{}

/// What stands after the first 1445 bytes makes no difference to a computed type.
pub fn header_computes()
    ensures { HeaderComputes }
{}

/// However a resource is cut into pieces, a [`Sniffer`](crate::Sniffer) keeps the first 1445 bytes of the whole.
#[tactic(auto, using(crate::proofs::SnifferLemmas::keeps_header))]
pub fn keeps_header()
    ensures { KeepsHeader }
{}

/// Behind the first 1445 bytes none change a computed type.
pub fn decides_when_full()
    ensures { DecidesWhenFull }
{}

/// And what no bytes change stays so as bytes come.
pub fn decided_stays()
    ensures { DecidedStays }
{}

/// Of a resource of which nothing is known, what a row says is said whatever follows: only what is said where none accepts may
/// change.
pub fn rows_stay()
    ensures { RowsStay }
{}

/// And what is binary data, since no row accepts it, stays so as long as none does. So the type of a resource of which nothing is
/// known changes twice at most as bytes come: from text to binary data, and from either to what a row says.
pub fn octets_stay()
    ensures { OctetsStay }
{}

/// A computed type may run scripts only if the supplied type may; or if none that says anything was supplied, sniffing was
/// not forbidden, and a rule of what may run scripts accepts the first bytes.
pub fn escalation()
    ensures { Escalates }
{}

/// And if it is so, the computed type does run scripts.
pub fn escalates_so()
    ensures { EscalatesSo }
{}

/// And whatever follows those bytes, it goes on to run scripts.
pub fn escalates_for_good()
    ensures { EscalatesForGood }
{}

/// A supplied type that says something stays, or becomes another of its kind: an image another image, audio or video another
/// of these, and a text of an old server a text or binary data. No other type becomes another.
pub fn of_its_kind()
    ensures { StaysOfItsKind }
{}

/// Where sniffing is forbidden, a supplied type that says something stays, whatever the bytes are.
#[tactic(auto, using(crate::proofs::ComputedLemmas::stays_of_kind))]
pub fn stays_if_forbidden()
    ensures { StaysIfForbidden }
{}

/// No type that is given in place of the supplied one is JavaScript, so what is computed is JavaScript only if that was supplied.
pub fn gives_no_script()
    ensures { GivesNoScript }
{}

/// HTML is what the library takes for it, and so are BMP, JPEG, AIFF, WAVE and gzip: the standard's rows accept the same buffers.
/// HTML is asked of the library. The others are a few bytes each, and stay rows of their tables.
#[tactic(auto, using(crate::proofs::SharedLemmas::shares_aiff, crate::proofs::SharedLemmas::shares_bmp, crate::proofs::SharedLemmas::shares_gz, crate::proofs::SharedLemmas::shares_html, crate::proofs::SharedLemmas::shares_jpeg, crate::proofs::SharedLemmas::shares_wav))]
pub fn shares_rows()
    ensures { SharesRows }
{}
