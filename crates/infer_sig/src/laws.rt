//! Facts about the definitions, each the contract of a function that does nothing.
ghost use Rattle.std.specs.Prelude.{◌↔◌, ℕ, List, IsTrue};
ghost use Rattle.infer_deep.specs.Signatures.{Lasts};
ghost use Rattle.infer_sig.specs.Signature.{Alternative, accepts, stands};
ghost use Rattle.infer_sig.specs.Places.{StandsByPlace};
ghost use Rattle.infer_sig.specs.Laws.{DependsOnFront, Leads, is_within};
ghost use Rattle.infer_sig.specs.Open.{Begins, MayBecomeIsExact, is_sound};

/// A text stands at a place exactly if each place from there on is in the buffer and holds the text's byte.
#[tactic(auto, using(crate::proofs::PlaceLemmas::stands_by_place))]
pub fn by_place()
    ensures { (place : ℕ) (t buf : List ℕ) → IsTrue (stands place t buf)
        ↔ StandsByPlace place t buf }
{}

/// What a signature accepts, it accepts however the buffer goes on.
pub fn growth()
    ensures { (signature : List Alternative)
        → Lasts (λ buf. IsTrue (accepts signature buf)) }
{}

/// If no part and no least length of a signature reaches past the first n bytes, these decide, however long
/// the buffer is.
pub fn near()
    ensures { (n : ℕ) (signature : List Alternative) → IsTrue (is_within n signature)
        → DependsOnFront n signature }
{}

/// A buffer that a signature accepts begins with a byte that the signature allows there.
pub fn leads()
    ensures { (signature : List Alternative) → Leads signature }
{}

/// If the parts of each alternative ascend, lie apart and are possible, bytes after a buffer can make the signature
/// accept it exactly if the buffer has an alternative as far as it goes.
pub fn open()
    ensures { (signature : List Alternative) → IsTrue (is_sound signature)
        → MayBecomeIsExact signature }
{}

/// With each byte that such a signature allows first begins a buffer that it accepts.
#[tactic(auto, using(crate::proofs::OpenLemmas::signature_begins))]
pub fn begins()
    ensures { (signature : List Alternative) → IsTrue (is_sound signature) → Begins signature }
{}
