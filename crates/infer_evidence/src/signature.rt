//! Fixed signatures as data that the code reads.
ghost use Rattle.std.specs.Prelude.{◌≡◌, ◌↔◌, ℕ, List};
ghost use Rattle.infer_evidence.specs.Listed.{set_listed};
ghost use Rattle.infer_evidence.specs.Weighed.{HasPart};
ghost use Rattle.infer_sig.specs.Signature.{allows};

/// A set of bytes.
#[derive(Clone, Copy)]
pub enum Set {
    /// These.
    AnyOf(&'static [u8]),
    /// Those from the first to the second.
    Between(u8, u8),
    /// All but this.
    AllBut(u8),
}

/// What a signature asks of places.
#[derive(Clone, Copy)]
pub enum Part {
    /// These bytes, from the place on.
    Text(usize, &'static [u8]),
    /// The bytes of one of these texts, from the place on.
    AnyText(usize, &'static [&'static [u8]]),
    /// At the place a byte of the set.
    Byte(usize, Set),
}

/// A least length, and parts.
#[derive(Drop)]
pub struct Alternative {
    pub least: usize,
    pub parts: &'static [Part],
}

/// What is written in another way, and asks what a part asks.
pub trait AsPart {
    // The buffer has what it asks.
    ghost asks: { Self → List ℕ → Type 0 };

    /// The part.
    fn part(&self) -> Part
        ensures { (b : List ℕ) → HasPart b result ↔ asks self.now b };
}

impl AsPart for Part {
    ghost asks = { λ p b. HasPart b p };

    fn part(&self) -> Part {
        *self
    }
}

/// Whether the byte is in the set.
pub(crate) fn allows(set: &Set, byte: u8) -> bool
    ensures { result ≡ allows (set_listed set.now) byte }
{
    match set {
        Set::AnyOf(bytes) => bytes.contains(&byte),
        Set::Between(low, high) => *low <= byte && byte <= *high,
        Set::AllBut(other) => byte != *other,
    }
}
