//! What holds of all texts.
ghost use Rattle.std.specs.Prelude.{◌≡◌, ◌↔◌, ℕ, List, Some};
ghost use Rattle.infer_notation.specs.Alternative.{Alternative};
ghost use Rattle.infer_notation.specs.Described.{Describes, IsMadeOf};
ghost use Rattle.infer_notation.specs.Fixed.{Asked, alternatives_of};
ghost use Rattle.infer_notation.specs.Grammar.{IsSignature, tokens_of};
ghost use Rattle.infer_notation.specs.Reasons.{reason_text};
ghost use Rattle.infer_notation.specs.Signature.{signature_of};
ghost use Rattle.infer_notation.specs.Tokens.{Token};
ghost use Rattle.infer_notation.specs.declared.reason.Reason.{Reason};

/// The alternatives of a text are those that its tokens have by the grammar.
pub fn grammar()
    ensures { (t : List ℕ) (alternatives : List Asked) → alternatives_of t ≡ Some alternatives
        ↔ IsSignature t alternatives }
{}

/// The tokens of a text are those that it is made of.
#[tactic(auto, using(crate::proofs::MadeLemmas::is_made, crate::proofs::MadeLemmas::is_read))]
pub fn tokens()
    ensures { (t : List ℕ) (ts : List Token) → tokens_of t ≡ Some ts ↔ IsMadeOf t ts }
{}

/// The alternatives that are read of a text are those that it describes, by fixed bytes or by a relation.
pub fn described()
    ensures { (t : List ℕ) (alternatives : List Alternative) → signature_of t ≡ Some alternatives
        ↔ Describes t alternatives }
{}

/// Different reasons have different words.
#[tactic(auto, using(crate::proofs::ReasonLemmas::texts_apart))]
pub fn reasons()
    ensures { (a b : Reason) → reason_text a ≡ reason_text b → a ≡ b }
{}
