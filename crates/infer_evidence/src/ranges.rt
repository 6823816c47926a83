//! Ranges of a buffer, and what is needed of its length.
ghost use Rattle.std.specs.Prelude.{◌≡◌, ◌↔◌, ◌+◌, ◌<◌, ◌≤◌, ℕ, List, [], Any, IfSome, IsTrue, MatchOption, None, Some, false, length};
ghost use Rattle.infer_evidence.specs.Evidence.{AgreesOn, Grows, HasSame, IsAround, IsInside, IsOf, IsSame, place_in, ranges_of, row_of};

/// For how many ranges an [`Evidence`] has room.
pub const MOST_RANGES: usize = 80;

/// What a range for no row keeps in its place: so one without a byte is zeros, as which many are made at once.
const NO_ROW: u32 = 0;

/// A range can be for the rows below this one.
const ROW_LIMIT: usize = u32::MAX as usize;

/// How far apart bytes of a range are at most.
const MOST_STEP: usize = 1 << 16;

/// Bytes of a buffer, and the first row that they decide: `len` of them, the first at `place` and each other `step` after
/// the one before. That which decides no single row is the first byte, which rules out all rows that begin with another.
#[derive(Clone, Copy)]
pub struct Range {
    pub place: usize,
    pub len: usize,
    pub step: u32,
    /// One more than the number of the row, and 0 for none. [`row`](Range::row) gives the number.
    pub row: u32,
}

impl Range {
    /// The `len` bytes from `place` on, which decide the row.
    #[tactic(auto, using(crate::proofs::RangeLemmas::inside_in_a_row))]
    pub fn new(place: usize, len: usize, row: Option<usize>) -> Range
        ensures place { result.place ≡ place }
        ensures len { result.len ≡ len }
        ensures step { result.step ≡ 1 }
        ensures reads { (b c : List ℕ) → IsSame b c result → HasSame b c place len }
        ensures inside { (b : List ℕ) → place + len ≤ length b → IsInside b result }
        ensures row { MatchOption row (row_of result ≡ None) (λ i. i < ROW_LIMIT → row_of result ≡ Some i) }
    {
        Range {
            place,
            len,
            step: 1,
            row: number(row),
        }
    }

    /// No byte, of no row.
    fn blank() -> Range
        ensures { result.len ≡ 0 }
    {
        Range {
            place: 0,
            len: 0,
            step: 0,
            row: NO_ROW,
        }
    }

    /// Whether it has no byte.
    pub fn is_empty(&self) -> bool
        ensures { IsTrue result ↔ (self.now.len ≡ 0) }
    {
        self.len == 0
    }

    /// The row that the bytes decide.
    pub fn row(&self) -> Option<usize>
        ensures { result ≡ row_of self.now }
    {
        if self.row == NO_ROW {
            return None;
        }
        Some(self.row as usize - 1)
    }

    /// Makes the byte at `place` one more of the range, if it can be: if it is the first, the second, or as far after the last
    /// as each of them is after the one before.
    pub(crate) fn grow(&mut self, place: usize) -> bool
        ensures grown { IsTrue result → Grows self.old place self.new }
        ensures kept { result ≡ false → self.new ≡ self.old }
    {
        let Some(len) = self.len.checked_add(1) else {
            return false;
        };
        match self.len {
            0 => self.place = place,
            1 if self.place < place && place - self.place <= MOST_STEP => {
                self.step = (place - self.place) as u32;
            }
            _ if self.next_place() == Some(place) => {}
            _ => return false,
        }
        self.len = len;
        true
    }

    /// The place of one byte more.
    fn next_place(&self) -> Option<usize>
        ensures { IfSome result (λ p. p ≡ place_in self.now self.now.len) }
    {
        let extent = self.len.checked_mul(self.step as usize)?;
        self.place.checked_add(extent)
    }
}

/// The number of the row as a range keeps it: one more.
fn number(row: Option<usize>) -> u32
    ensures none { row ≡ None → result ≡ NO_ROW }
    ensures some { IfSome row (λ i. i < ROW_LIMIT → result ≡ i + 1) }
{
    match row {
        Some(i) if i < ROW_LIMIT => i as u32 + 1,
        _ => NO_ROW,
    }
}

/// Of how many places at the front the evidence finds at once whether a range has them.
const NEAR: usize = 64;

/// As many more places are distinguished among those that are far.
const FAR: usize = 32;

/// How many ranges are kept to look at first, each by its number: one of each near place, and one of all far ones that are
/// not distinguished.
const HINTS: usize = NEAR + FAR;

/// Keeps the number of a range with bytes in a row, which is the next, at each near place that it has, or at its first if that
/// is far.
#[inline(always)]
fn mark(hints: &mut [u8; HINTS], range: &Range, number: u8) {
    if range.step != 1 {
        return;
    }
    if range.place >= NEAR {
        hints[NEAR + range.place % FAR] = number;
        return;
    }
    let end = range.place.saturating_add(range.len).min(NEAR);
    for place in range.place..end {
        hints[place] = number;
    }
}

/// What decides: ranges of a buffer, the least length that is needed, and whether another length is not enough.
#[derive(Drop)]
pub struct Evidence {
    ranges: [Range; MOST_RANGES],
    /// Where to look first for the range with a byte. Nothing is taken from here without a look at that range.
    hints: [u8; HINTS],
    count: usize,
    least: usize,
    exact: bool,
}

impl Evidence {
    /// Evidence that asks for nothing.
    pub fn new() -> Evidence
        ensures ranges { ranges_of result ≡ [] }
        ensures least { result.least ≡ 0 }
        ensures exact { result.exact ≡ false }
    {
        Evidence {
            ranges: [Range::blank(); MOST_RANGES],
            hints: [0; HINTS],
            count: 0,
            least: 0,
            exact: false,
        }
    }

    /// The ranges.
    pub fn ranges(&self) -> &[Range]
        ensures { result.now ≡ ranges_of self.now }
    {
        &self.ranges[..self.count.min(MOST_RANGES)]
    }

    /// How many ranges are wanted. If there are more than [`MOST_RANGES`], those that there is room for are not enough.
    pub fn wanted(&self) -> usize
        ensures { result ≡ self.now.count }
    {
        self.count
    }

    /// The least length that is needed.
    pub fn least(&self) -> usize
        ensures { result ≡ self.now.least }
    {
        self.least
    }

    /// Whether just the length that the buffer has is needed.
    pub fn is_exact(&self) -> bool
        ensures { result ≡ self.now.exact }
    {
        self.exact
    }

    /// Asks for nothing any more.
    pub fn clear(&mut self)
        ensures ranges { ranges_of self.new ≡ [] }
        ensures count { self.new.count ≡ 0 }
        ensures least { self.new.least ≡ 0 }
        ensures exact { self.new.exact ≡ false }
    {
        self.count = 0;
        self.least = 0;
        self.exact = false;
    }

    /// Whether the range that was asked for last with the first byte of this one has all its bytes.
    #[inline(always)]
    fn has_near(&self, range: &Range) -> bool
        ensures { IsTrue result → Any (IsAround range.now) (ranges_of self.now) }
    {
        let slot = if range.place < NEAR {
            range.place
        } else {
            NEAR + range.place % FAR
        };
        match self.ranges().get(usize::from(self.hints[slot])) {
            Some(other) => is_around(other, range),
            None => false,
        }
    }

    /// How many bytes at the front a range has that was asked for last with the first of them.
    pub fn front(&self) -> usize
        ensures { (b c : List ℕ) → AgreesOn self.now b c → HasSame b c 0 result }
    {
        match self.ranges().get(usize::from(self.hints[0])) {
            Some(range) if range.place == 0 && range.step == 1 => range.len,
            _ => 0,
        }
    }

    /// Whether a range that is asked for has the byte at the place. Of a far place that may stay untold.
    #[inline(always)]
    pub fn is_asked(&self, place: usize) -> bool
        ensures { IsTrue result → (b c : List ℕ) → AgreesOn self.now b c → HasSame b c place 1 }
    {
        self.has_near(&Range::new(place, 1, None))
    }

    /// Whether a range that is asked for has all bytes of this one.
    fn has(&self, range: &Range) -> bool
        ensures { IsTrue result → Any (IsAround range.now) (ranges_of self.now) }
    {
        if self.has_near(range) {
            return true;
        }
        // The last range with a near byte has it.
        if range.len == 1 && range.place < NEAR {
            return false;
        }
        for other in self.ranges() {
            if is_around(other, range) {
                return true;
            }
        }
        false
    }

    /// Asks for the bytes of a range by which a row accepts, also where a range with all of them is asked for: so these are
    /// decided.
    #[tactic(auto, using(crate::proofs::RangeLemmas::one_more, crate::proofs::RangeLemmas::one_more_inside, crate::proofs::RangeLemmas::no_more))]
    pub fn ask_held(&mut self, range: Range)
        ensures same { (b c : List ℕ) → AgreesOn self.new b c → AgreesOn self.old b c
            × IsSame b c range }
        ensures inside { (b : List ℕ) → IsOf self.old b → IsInside b range → IsOf self.new b }
        ensures few { self.new.count ≤ self.old.count + 1 }
    {
        if range.len == 0 {
            return;
        }
        if self.count >= MOST_RANGES {
            self.count = self.count.saturating_add(1);
            return;
        }
        mark(&mut self.hints, &range, self.count as u8);
        self.ranges[self.count] = range;
        self.count += 1;
    }

    /// Asks for the bytes of a range, unless they are asked for already.
    pub fn ask(&mut self, range: Range)
        ensures same { (b c : List ℕ) → AgreesOn self.new b c → AgreesOn self.old b c
            × IsSame b c range }
        ensures inside { (b : List ℕ) → IsOf self.old b → IsInside b range → IsOf self.new b }
        ensures few { self.new.count ≤ self.old.count + 1 }
    {
        if range.is_empty() {
            return;
        }
        if self.has(&range) {
            return;
        }
        self.ask_held(range);
    }

    /// Asks for the bytes of a range by which a row accepts, or which rule it out.
    pub fn ask_front(&mut self, range: Range, accepts: bool)
        ensures same { (b c : List ℕ) → AgreesOn self.new b c → AgreesOn self.old b c
            × IsSame b c range }
        ensures inside { (b : List ℕ) → IsOf self.old b → IsInside b range → IsOf self.new b }
        ensures few { self.new.count ≤ self.old.count + 1 }
    {
        if accepts {
            self.ask_held(range);
        } else {
            self.ask(range);
        }
    }

    /// Asks for that many bytes at least.
    pub fn ask_least(&mut self, n: usize)
        ensures long { (b c : List ℕ) → AgreesOn self.new b c → AgreesOn self.old b c
            × (n ≤ length c) }
        ensures inside { (b : List ℕ) → IsOf self.old b → n ≤ length b → IsOf self.new b }
        ensures few { self.new.count ≡ self.old.count }
    {
        self.least = self.least.max(n);
    }

    /// Asks for just the length that the buffer has.
    pub fn ask_exact(&mut self)
        ensures exact { (b c : List ℕ) → AgreesOn self.new b c → AgreesOn self.old b c
            × (length c ≡ length b) }
        ensures inside { (b : List ℕ) → IsOf self.old b → IsOf self.new b }
        ensures few { self.new.count ≡ self.old.count }
    {
        self.exact = true;
    }
}

/// Whether the first range has all bytes of the second, if each has bytes in a row.
#[tactic(auto, using(crate::proofs::RangeLemmas::around_in_a_row))]
fn is_around(outer: &Range, inner: &Range) -> bool
    ensures { IsTrue result → IsAround inner.now outer.now }
{
    if outer.step != 1 || inner.step != 1 {
        return false;
    }
    outer.place <= inner.place
        && inner.len <= outer.len
        && inner.place - outer.place <= outer.len - inner.len
}
