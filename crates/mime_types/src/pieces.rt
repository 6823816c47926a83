//! The pieces of a header's value, between its commas.
ghost use Rattle.std.specs.Prelude.{◌≡◌, ◌≤◌, length};
ghost use Rattle.mime_types.specs.Pieces.{IsAfter};

use crate::nosniff::{piece_len, trim_blanks};

/// The pieces of a header's value, in order: what stands between commas outside of quotes, without tabs and blanks at both
/// ends.
#[derive(Drop)]
pub struct Pieces<'a> {
    rest: Option<&'a [u8]>,
}

impl<'a> Pieces<'a> {
    ghost use Rattle.std.specs.Prelude.{◌∷◌, [], MatchOption};
    ghost use Rattle.mime_types.specs.Pieces.{pieces, pieces_left};

    /// Those of a value. Several values are given as one, with `, ` between them.
    ///
    /// ```
    /// let mut pieces = mime_types::Pieces::new(b"a, \"b,c\"");
    /// assert_eq!(rt; pieces.next(), Some(b"a".as_slice()));
    /// assert_eq!(rt; pieces.next(), Some(b"\"b,c\"".as_slice()));
    /// assert_eq!(rt; pieces.next(), None);
    /// ```
    pub fn new(value: &'a [u8]) -> Self
        ensures { pieces_left result ≡ pieces value.now }
    {
        Pieces { rest: Some(value) }
    }

    /// The next one. Behind the last there is none, however often it is asked for.
    #[tactic(auto, using(crate::proofs::PiecesLemmas::piece_after))]
    pub fn next(&mut self) -> Option<&'a [u8]>
        ensures { MatchOption result ((pieces_left self.old ≡ []) × (pieces_left self.new ≡ []))
            (λ piece. pieces_left self.old ≡ piece.now ∷ pieces_left self.new) }
    {
        match self.rest {
            None => None,
            Some(value) => {
                let end = piece_len(value);
                self.rest = after_comma(value, end);
                Some(trim_blanks(&value[..end]))
            },
        }
    }
}

/// What stands after the comma at the place, if there is one.
fn after_comma(value: &[u8], place: usize) -> Option<&[u8]>
    requires { place ≤ length value.now }
    ensures { IsAfter value.now place result }
{
    if place == value.len() {
        return None;
    }
    Some(&value[place + 1..])
}
