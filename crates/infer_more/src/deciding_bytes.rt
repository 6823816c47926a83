//! The bytes of a buffer that decide its wider answer.
ghost use Rattle.std.specs.Prelude.{[], ◌∷◌, ◌≡◌, ◌↔◌, ◌+◌, ◌<◌, ◌≤◌, ℕ, List, All, Any, IfSome, IsTrue, Some, false, length, slice_get, take};
ghost use Rattle.infer.specs.Buffer.{IsBuffer};
ghost use Rattle.infer.specs.First.{IsFirstOf};
ghost use Rattle.infer.specs.declared.table.rows.TheConstants.{ROW_COUNT};
ghost use Rattle.infer_evidence.specs.Evidence.{AgreesOn, IsOf};
ghost use Rattle.infer_formats.specs.Markup.{DecidesByRoot, DecidesRoot};
ghost use Rattle.infer_notation.specs.Alternative.{Accepted, Fits};
ghost use Rattle.infer_more.specs.Index.{IsLeast, all_of, candidate, led_rows, rows_of, tried_at, tried_parentless};
ghost use Rattle.infer_more.specs.Listed.{alternative_listed, row_listed, signature_listed};
ghost use Rattle.infer_more.specs.Open.{is_row_sound};
ghost use Rattle.infer_more.specs.Row.{is_row_closed};
ghost use Rattle.infer_more.specs.Table.{further};
ghost use Rattle.infer_more.specs.Evidence.{Decides, HasBytes, HasPiece, IsAlikeAt, IsQuestion, IsRootRead, IsRuledOut, IsSameAt, IsSignatureDecided, IsRowDecided, LacksBytes, Proves};
ghost use Rattle.infer_more.specs.Wider.{IsWider, IsWidest, Widens, WidensAt};
ghost use Rattle.infer_more.specs.declared.index.generated.TheConstants.{FURTHER_COUNT};
ghost use Rattle.infer_more.specs.declared.row_data.Alternative.TheVariants as listed;

use crate::decided::is_stable;
use crate::index::search::{has_byte, least_widening, may_have_name, span_picked};
use crate::index::{
    Below, ByLead, Entry, FURTHER_COUNT, Named, Parentless, Spot, all_by_lead, way_below,
};
use crate::more_bytes::may_become_accepted;
use crate::row_data::{
    Alternative, Bytes, FurtherRow, Piece, alternatives_of, asked, pieces_of, relation_at, row_at,
};
use crate::signature;
use infer::rows::{ROW_COUNT, numbers as law_numbers};
use infer_evidence::{
    AsPart, Claim, Evidence, MOST_RANGES, Part, Range, Set, accept, fits, refuse, shortest_front,
};
use infer_formats::markup::{Root, decides_root, root_of};

impl AsPart for Piece {
    ghost asks = { HasPiece };

    fn part(&self) -> Part {
        infer_sig::laws::by_place();
        match self {
            Piece::OneOf(place, bytes) => Part::Byte(*place, Set::AnyOf(asked(*bytes))),
            Piece::At(place, text) => Part::Text(*place, asked(*text)),
            Piece::Between(place, low, high) => Part::Byte(*place, Set::Between(*low, *high)),
        }
    }
}

/// Whether the front decides that the row accepts, or that it does not.
fn front_decides(row: &FurtherRow, accepts: bool, front: &[u8]) -> bool
    requires closed { IsTrue (is_row_closed (row_listed row.now)) }
    requires sound { IsTrue (is_row_sound (row_listed row.now)) }
    ensures { IsTrue result → IsSignatureDecided (row_listed row.now).signature front.now }
{
    if accepts {
        return is_stable(row, front);
    }
    !may_become_accepted(alternatives_of(row), front)
}

/// A claim about the further row with this number: of one that accepts the buffer that it does whatever follows, and of
/// another that no more bytes make it.
#[derive(Drop)]
struct Acceptance {
    i: usize,
    accepts: bool,
}

impl Claim for Acceptance {
    ghost decides = { λ s front. IsRowDecided s.i front };

    #[tactic(auto, using(crate::proofs::NamedLemmas::row_passes, crate::proofs::TableLemmas::all_sound))]
    fn is_decided_by(&self, front: &[u8]) -> bool {
        match row_at(self.i) {
            Some(row) => front_decides(row, self.accepts, front),
            None => true,
        }
    }
}

/// The claim what the root element of markup is, whatever follows.
struct RootClaim;

impl Claim for RootClaim {
    ghost decides = { λ s front. DecidesRoot front };

    fn is_decided_by(&self, front: &[u8]) -> bool {
        decides_root(front)
    }
}

/// The root element of a buffer, and the length of the shortest front that decides it. It is read once for all rows that ask
/// for one.
#[derive(Drop)]
struct RootRead<'a> {
    root: Option<Root<'a>>,
    front: Option<usize>,
}

fn read_root<'a>(parent: Option<usize>, buf: &'a [u8]) -> RootRead<'a>
    ensures { IsRootRead result buf.now }
{
    RootRead {
        root: root_of(buf),
        front: root_front(parent, buf),
    }
}

/// The length of that front. Without a parent no row asks for a root element of a buffer that begins otherwise.
fn root_front(parent: Option<usize>, buf: &[u8]) -> Option<usize>
    ensures { IfSome result (λ n. (n ≤ length buf.now) × DecidesRoot (take n buf.now)) }
{
    if parent.is_none() && !may_have_name(buf) {
        return None;
    }
    shortest_front(&RootClaim, buf)
}

/// Whether a buffer with this root element, or with none, has what the alternative asks. `None` if that does not decide it.
fn fits_root(alternative: &Alternative, root: &Option<Root<'_>>) -> Option<bool>
    ensures { IfSome result (DecidesByRoot root.now (Fits (alternative_listed alternative.now))) }
{
    match alternative {
        Alternative::Related(number) => relation_at(*number).of_root(root),
        _ => None,
    }
}

/// Whether it has what one of the alternatives asks.
fn accepts_root(signature: &[Alternative], root: &Option<Root<'_>>) -> Option<bool>
    ensures { IfSome result (DecidesByRoot root.now (Accepted (signature_listed signature.now))) }
{
    let mut accepts = false;
    for alternative in signature {
        accepts |= fits_root(alternative, root)?;
    }
    Some(accepts)
}

/// Asks for the front, of that length, which decides whether the row accepts, and for the whole buffer if there is none.
fn ask_front(front: Option<usize>, told: &Acceptance, buf: &[u8], evidence: &mut Evidence)
    requires { IfSome front (λ n. (n ≤ length buf.now) × IsRowDecided told.now.i (take n buf.now)) }
    ensures proves { Proves evidence.old evidence.new buf.now (IsAlikeAt told.now.i buf.now) }
    ensures inside { IsOf evidence.old buf.now → IsOf evidence.new buf.now }
{
    match front {
        Some(len) => evidence.ask_front(Range::new(0, len, number(told.i)), told.accepts),
        None => {
            evidence.ask_front(Range::new(0, buf.len(), number(told.i)), told.accepts);
            evidence.ask_exact();
        }
    }
}

/// Whether the whole buffer is asked for, with its length.
fn is_whole(buf: &[u8], evidence: &Evidence) -> bool
    ensures { IsTrue result → (c : List ℕ) → AgreesOn evidence.now buf.now c → c ≡ buf.now }
{
    if evidence.front() < buf.len() {
        return false;
    }
    evidence.is_exact()
}

/// Whether the bytes at the front that are asked for already decide that the row does not accept the buffer.
fn refused_already(told: &Acceptance, buf: &[u8], evidence: &Evidence) -> bool
    ensures { IsTrue result → (c : List ℕ) → IsBuffer c → AgreesOn evidence.now buf.now c
        → IsAlikeAt told.now.i buf.now c }
{
    if told.accepts {
        return false;
    }
    if is_whole(buf, evidence) {
        return true;
    }
    told.is_decided_by(&buf[..evidence.front().min(buf.len())])
}

/// The number of a further row among all.
fn number(i: usize) -> Option<usize>
    ensures { i < FURTHER_COUNT → result ≡ Some (ROW_COUNT + i) }
{
    if i < FURTHER_COUNT {
        Some(ROW_COUNT + i)
    } else {
        None
    }
}

/// The first alternative of bytes at fixed places that the buffer has.
fn bytes_held<'a>(signature: &'a [Alternative], buf: &[u8]) -> Option<&'a Bytes>
    ensures { IfSome result (λ held. HasBytes buf.now held.now
        × Any (λ a. a ≡ listed.Bytes held.now) signature.now) }
{
    for alternative in signature {
        if let Alternative::Bytes(bytes) = alternative
            && fits(bytes.least, pieces_of(bytes), buf)
        {
            return Some(bytes);
        }
    }
    None
}

/// Whether each alternative asks for bytes at fixed places alone, none of which the buffer has.
fn lacks_bytes(signature: &[Alternative], buf: &[u8]) -> bool
    ensures { IsTrue result → All (LacksBytes buf.now) signature.now }
{
    for alternative in signature {
        match alternative {
            Alternative::Bytes(bytes) if !fits(bytes.least, pieces_of(bytes), buf) => {}
            _ => return false,
        }
    }
    true
}

/// Asks for that by which the buffer lacks the bytes of an alternative.
fn refuse_bytes(alternative: &Alternative, i: usize, buf: &[u8], evidence: &mut Evidence)
    requires { LacksBytes buf.now alternative.now }
    ensures proves { Proves evidence.old evidence.new buf.now (λ c. LacksBytes c alternative.now) }
    ensures inside { IsOf evidence.old buf.now → IsOf evidence.new buf.now }
{
    if let Alternative::Bytes(bytes) = alternative {
        refuse(bytes.least, pieces_of(bytes), buf, number(i), evidence);
    }
}

/// Asks for that by which it lacks the bytes of each.
fn refuse_all(signature: &[Alternative], i: usize, buf: &[u8], evidence: &mut Evidence)
    requires { All (LacksBytes buf.now) signature.now }
    ensures proves { Proves evidence.old evidence.new buf.now
        (λ c. All (LacksBytes c) signature.now) }
    ensures inside { IsOf evidence.old buf.now → IsOf evidence.new buf.now }
{
    for alternative in signature {
        refuse_bytes(alternative, i, buf, evidence);
    }
}

/// Whether the row, which has this number among the further ones, accepts the buffer, and asks for what decides it.
#[inline(never)]
fn weigh_row(
    row: &FurtherRow,
    i: usize,
    buf: &[u8],
    read: &RootRead<'_>,
    evidence: &mut Evidence,
) -> bool
    requires rooted { IsRootRead read.now buf.now }
    requires closed { IsTrue (is_row_closed (row_listed row.now)) }
    requires listed { slice_get further i ≡ Some (row_listed row.now) }
    ensures answer { IsTrue result ↔ Accepted (row_listed row.now).signature buf.now }
    ensures proves { Proves evidence.old evidence.new buf.now (IsAlikeAt i buf.now) }
    ensures inside { IsOf evidence.old buf.now → IsOf evidence.new buf.now }
{
    infer_sig::laws::by_place();
    let signature = alternatives_of(row);
    if let Some(bytes) = bytes_held(signature, buf) {
        accept(bytes.least, pieces_of(bytes), buf, number(i), evidence);
        return true;
    }
    if lacks_bytes(signature, buf) {
        refuse_all(signature, i, buf, evidence);
        return false;
    }
    if let Some(accepts) = accepts_root(signature, &read.root) {
        ask_front(read.front, &Acceptance { i, accepts }, buf, evidence);
        return accepts;
    }
    let accepts = signature::accepts(signature, buf);
    let told = Acceptance { i, accepts };
    if !refused_already(&told, buf, evidence) {
        ask_front(shortest_front(&told, buf), &told, buf, evidence);
    }
    accepts
}

/// Whether the row has this parent.
#[inline(always)]
fn has_parent(row: &FurtherRow, parent: Option<usize>) -> bool
    ensures { IsTrue result ↔ ((row_listed row.now).parent ≡ parent) }
{
    row.parent == parent
}

/// Whether further row `i` widens this answer, and asks for what decides it. A row of another parent costs no call.
#[inline(always)]
fn weigh_at(
    i: usize,
    parent: Option<usize>,
    buf: &[u8],
    read: &RootRead<'_>,
    evidence: &mut Evidence,
) -> bool
    requires { IsRootRead read.now buf.now }
    ensures answer { IsTrue result ↔ WidensAt parent buf.now i }
    ensures proves { Proves evidence.old evidence.new buf.now
        (λ c. WidensAt parent c i ↔ WidensAt parent buf.now i) }
    ensures inside { IsOf evidence.old buf.now → IsOf evidence.new buf.now }
{
    match row_at(i) {
        Some(row) => has_parent(row, parent) && weigh_row(row, i, buf, read, evidence),
        None => false,
    }
}

/// Asks for the byte at the place, which decides this row, and for the length if there is none.
fn ask_byte(place: usize, row: Option<usize>, buf: &[u8], evidence: &mut Evidence)
    ensures proves { Proves evidence.old evidence.new buf.now (IsSameAt place buf.now) }
    ensures inside { IsOf evidence.old buf.now → IsOf evidence.new buf.now }
{
    if place >= buf.len() {
        evidence.ask_exact();
        return;
    }
    if evidence.is_asked(place) {
        return;
    }
    evidence.ask(Range::new(place, 1, row));
}

/// Which rows are ruled out: those that could widen this answer of a buffer, and stand before the one that does.
#[derive(Drop)]
struct Question<'a> {
    parent: Option<usize>,
    /// The least row that widens it, or their count.
    least: usize,
    buf: &'a [u8],
    read: RootRead<'a>,
}

/// Asks for what decides that further row `i` does not widen the answer, if it stands before the one that does.
fn rule_out(i: usize, asked: &Question<'_>, evidence: &mut Evidence)
    requires { IsQuestion asked.now }
    ensures proves { Proves evidence.old evidence.new asked.now.buf.now
        (IsRuledOut asked.now (i ∷ [])) }
    ensures inside { IsOf evidence.old asked.now.buf.now → IsOf evidence.new asked.now.buf.now }
{
    if i < asked.least {
        weigh_at(i, asked.parent, asked.buf, &asked.read, evidence);
    }
}

/// What names a row that is ruled out.
trait Ruled {
    // The row, if the buffer may have it.
    ghost rows: { Self → List ℕ → List ℕ };

    /// Asks for what decides that the row does not widen the answer, if it stands before the one that does.
    fn rule_out(&self, asked: &Question<'_>, evidence: &mut Evidence)
        requires { IsQuestion asked.now }
        ensures proves { Proves evidence.old evidence.new asked.now.buf.now
            (λ c. IsRuledOut asked.now (rows self.now c) c) }
        ensures inside { IsOf evidence.old asked.now.buf.now
            → IsOf evidence.new asked.now.buf.now };
}

impl Ruled for Entry {
    ghost rows = { λ e c. candidate c e };

    fn rule_out(&self, asked: &Question<'_>, evidence: &mut Evidence) {
        let i = usize::from(self.row);
        if i >= asked.least {
            return;
        }
        // Below an answer few rows stand, and each is ruled out by what it asks first.
        if asked.parent.is_some() || has_byte(asked.buf, self.place, self.byte) {
            rule_out(i, asked, evidence);
            return;
        }
        ask_byte(self.place as usize, number(i), asked.buf, evidence);
    }
}

impl Ruled for Named {
    ghost rows = { λ e c. e.row ∷ [] };

    fn rule_out(&self, asked: &Question<'_>, evidence: &mut Evidence) {
        rule_out(usize::from(self.row), asked, evidence);
    }
}

/// Asks for what decides that none of these rows widens the answer, of those that stand before the one that does.
fn rule_out_each<R: Ruled>(list: &[R], asked: &Question<'_>, evidence: &mut Evidence)
    requires { IsQuestion asked.now }
    ensures proves { Proves evidence.old evidence.new asked.now.buf.now
        (λ c. IsRuledOut asked.now (all_of (λ e. R.rows e c) list.now) c) }
    ensures inside { IsOf evidence.old asked.now.buf.now → IsOf evidence.new asked.now.buf.now }
{
    for named in list {
        named.rule_out(asked, evidence);
    }
}

/// The same of each list.
fn rule_out_lists<R: Ruled>(lists: &[&[R]], asked: &Question<'_>, evidence: &mut Evidence)
    requires { IsQuestion asked.now }
    ensures proves { Proves evidence.old evidence.new asked.now.buf.now
        (λ c. IsRuledOut asked.now (all_of (λ list. all_of (λ e. R.rows e c) list.now) lists.now)
        c) }
    ensures inside { IsOf evidence.old asked.now.buf.now → IsOf evidence.new asked.now.buf.now }
{
    for list in lists {
        rule_out_each(list, asked, evidence);
    }
}

/// The same of the rows of this way.
fn rule_out_way(way: &Below, asked: &Question<'_>, evidence: &mut Evidence)
    requires { IsQuestion asked.now }
    ensures proves { Proves evidence.old evidence.new asked.now.buf.now
        (λ c. IsRuledOut asked.now (rows_of way.now c) c) }
    ensures inside { IsOf evidence.old asked.now.buf.now → IsOf evidence.new asked.now.buf.now }
{
    match way {
        Below::Nothing => {}
        Below::Entries(entries) => rule_out_each(entries, asked, evidence),
        Below::ClassIds(entries, names) | Below::Packages(entries, names) => {
            rule_out_each(entries, asked, evidence);
            rule_out_each(names, asked, evidence);
        }
        Below::Programs(entries, names) => {
            rule_out_each(entries, asked, evidence);
            rule_out_lists(names, asked, evidence);
        }
        Below::Roots(roots) => rule_out_lists(roots, asked, evidence),
        Below::Tagged(entries, _, _, tagged) => {
            rule_out_each(entries, asked, evidence);
            rule_out_each(tagged, asked, evidence);
        }
    }
}

/// The same of the rows that the buffer's own byte picks at the spot, for which it asks.
fn rule_out_picked(index: &Parentless, spot: &Spot, asked: &Question<'_>, evidence: &mut Evidence)
    requires { IsQuestion asked.now }
    ensures proves { Proves evidence.old evidence.new asked.now.buf.now
        (λ c. IsRuledOut asked.now (tried_at index.now c spot.now) c) }
    ensures inside { IsOf evidence.old asked.now.buf.now → IsOf evidence.new asked.now.buf.now }
{
    ask_byte(spot.place as usize, None, asked.buf, evidence);
    if let Some(span) = span_picked(index, spot, asked.buf) {
        rule_out_each(span.of(index.entries), asked, evidence);
    }
}

/// The same of those that are picked at each spot.
fn rule_out_spotted(index: &Parentless, asked: &Question<'_>, evidence: &mut Evidence)
    requires { IsQuestion asked.now }
    ensures proves { Proves evidence.old evidence.new asked.now.buf.now
        (λ c. IsRuledOut asked.now (tried_parentless index.now c) c) }
    ensures inside { IsOf evidence.old asked.now.buf.now → IsOf evidence.new asked.now.buf.now }
{
    for spot in index.spots {
        rule_out_picked(index, spot, asked, evidence);
    }
}

/// The same of the rows without a parent.
fn rule_out_by_lead(by_lead: &ByLead, asked: &Question<'_>, evidence: &mut Evidence)
    requires { IsQuestion asked.now }
    ensures proves { Proves evidence.old evidence.new asked.now.buf.now
        (λ c. IsRuledOut asked.now (led_rows by_lead.now c) c) }
    ensures inside { IsOf evidence.old asked.now.buf.now → IsOf evidence.new asked.now.buf.now }
{
    rule_out_spotted(&by_lead.index, asked, evidence);
    rule_out_each(by_lead.beside, asked, evidence);
    let texts = by_lead.index.texts;
    rule_out(usize::from(texts.lines), asked, evidence);
    rule_out(usize::from(texts.json), asked, evidence);
    rule_out(usize::from(texts.plain), asked, evidence);
}

/// The same of all rows.
fn rule_out_all(asked: &Question<'_>, evidence: &mut Evidence)
    requires { IsQuestion asked.now }
    ensures proves { Proves evidence.old evidence.new asked.now.buf.now
        (λ c. IsLeast (WidensAt asked.now.parent c) asked.now.least asked.now.least) }
    ensures inside { IsOf evidence.old asked.now.buf.now → IsOf evidence.new asked.now.buf.now }
{
    match asked.parent {
        Some(row) => rule_out_way(way_below(row), asked, evidence),
        None => rule_out_by_lead(&all_by_lead(), asked, evidence),
    }
}

/// The first further row that widens this answer, and asks for what decides that it is.
fn widen(parent: Option<usize>, buf: &[u8], evidence: &mut Evidence) -> Option<usize>
    ensures first { IsFirstOf (Widens parent buf.now) further result }
    ensures bound { IfSome result (λ i. i < FURTHER_COUNT) }
    ensures proves { Proves evidence.old evidence.new buf.now
        (λ c. IsFirstOf (Widens parent c) further result) }
    ensures inside { IsOf evidence.old buf.now → IsOf evidence.new buf.now }
{
    let asked = Question {
        parent,
        least: least_widening(parent, buf),
        buf,
        read: read_root(parent, buf),
    };
    // Its own bytes come first, since they rule out most others, which then have no range.
    let widens = weigh_at(asked.least, parent, buf, &asked.read, evidence);
    rule_out_all(&asked, evidence);
    if widens { Some(asked.least) } else { None }
}

/// Whether some further row may widen this answer: one that stands below it or, if there is no answer, below none.
#[inline(always)]
fn may_widen(parent: Option<usize>) -> bool
    ensures { result ≡ false → IsWidest parent }
{
    match parent {
        Some(row) => match way_below(row) {
            Below::Nothing => false,
            _ => true,
        },
        None => true,
    }
}

/// Asks for the whole buffer, and for nothing else.
fn ask_whole(buf: &[u8], evidence: &mut Evidence)
    ensures decides { (c : List ℕ) → AgreesOn evidence.new buf.now c → c ≡ buf.now }
    ensures inside { IsOf evidence.new buf.now }
    ensures few { evidence.new.count ≤ 1 }
{
    evidence.clear();
    evidence.ask_held(Range::new(0, buf.len(), None));
    evidence.ask_exact();
}

/// The number of the wider answer of `buf`, as [`position`](crate::position) answers, and what decides it: the bytes of at
/// most [`MOST_RANGES`](infer_evidence::MOST_RANGES) ranges, and what is needed of the length. Every buffer with the same
/// bytes in these ranges and such a length has the same answer.
///
/// The built-in answer accepts by its bytes too. A further row that asks for bytes at fixed places has those, or one that is
/// another. Of every other row they are the shortest front that decides it, and the whole buffer if more bytes may always change
/// it, as of text. Where more ranges are wanted than there is room for, there is one range: the whole buffer.
pub fn evidence(buf: &[u8], evidence: &mut Evidence) -> Option<usize>
    ensures wider { IsWider buf.now result }
    ensures bound { IfSome result (λ i. i < ROW_COUNT + FURTHER_COUNT) }
    ensures decides { Decides evidence.new buf.now result }
    ensures inside { IsOf evidence.new buf.now }
    ensures few { evidence.new.count ≤ 80 }
{
    law_numbers();
    let parent = infer::evidence(buf, evidence);
    // Most built-in answers are wide enough whatever the buffer is.
    if !may_widen(parent) {
        return parent;
    }
    let found = widen(parent, buf, evidence);
    if evidence.wanted() > MOST_RANGES {
        ask_whole(buf, evidence);
    }
    match found {
        Some(i) => Some(ROW_COUNT + i),
        None => parent,
    }
}
