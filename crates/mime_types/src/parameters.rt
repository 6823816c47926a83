//! The parameters of a MIME type, one after the other.
ghost use Rattle.mime_types.specs.Segment.{left_by};
ghost use Rattle.std.specs.Prelude.{◌≡◌, ◌≤◌, ◌+◌, length};

use crate::first::is_first;
use crate::parameter::Parameter;
use crate::segment::first_segment;

/// The parameters that count, in order: of those that are written, the first valid one of each name.
#[derive(Drop)]
pub struct Parameters<'a> {
    tail: &'a [u8],
    rest: &'a [u8],
    count: usize,
    ghost place: { left_by count tail.now ≡ rest.now },
    ghost bound: { count + length rest.now ≤ length tail.now },
}

impl<'a> Parameters<'a> {
    ghost use Rattle.std.specs.Prelude.{◌<◌, ◌++◌, ◌∷◌, [], IfSome, MatchOption, option_map, option_to_list};
    ghost use Rattle.mime_types.specs.Parameters.{StandsFirst, parameters};
    ghost use Rattle.mime_types.specs.Left.{left, text_read};
    ghost use Rattle.mime_types.specs.Segment.{stands, written, written_by};
    ghost use Rattle.mime_types.specs.Seen.{parameter_seen, written_seen};

    /// All of what stands after a subtype.
    #[tactic(auto, using(crate::proofs::WrittenLemmas::all_left, crate::proofs::WrittenLemmas::none_written))]
    pub(crate) fn new(tail: &'a [u8]) -> Self
        ensures all { left result ≡ parameters tail.now }
        ensures text { text_read result ≡ tail.now }
    {
        Parameters {
            tail,
            rest: tail,
            count: 0,
        }
    }

    /// The next one, as it was written. Behind the last there is none, however often it is asked for.
    pub fn next(&mut self) -> Option<Parameter<'a>>
        ensures left { MatchOption result ((left self.old ≡ []) × (left self.new ≡ []))
            (λ p. left self.old ≡ parameter_seen p ∷ left self.new) }
        ensures stands { IfSome result (λ p. StandsFirst (text_read self.old) (written_seen p)) }
        ensures text { text_read self.new ≡ text_read self.old }
    {
        while !self.rest.is_empty() {
            let count = self.count;
            if let Some(found) = self.next_written() {
                if is_first(self.tail, count, &found) {
                    return Some(found);
                }
            }
        }
        None
    }

    /// What the next segment writes, if it does.
    fn next_written(&mut self) -> Option<Parameter<'a>>
        requires { 0 < length self.old.rest.now }
        ensures tail { self.new.tail.now ≡ self.old.tail.now }
        ensures shorter { length self.new.rest.now < length self.old.rest.now }
        ensures stands { option_map written_seen result ≡ (stands self.old.rest.now).parameter }
        ensures later { written self.old.rest.now
            ≡ option_to_list (option_map parameter_seen result) ++ written self.new.rest.now }
        ensures earlier { written_by self.new.count self.new.tail.now
            ≡ written_by self.old.count self.old.tail.now ++ option_to_list (option_map parameter_seen result) }
    {
        let segment = first_segment(self.rest);
        self.rest = segment.rest;
        self.count += 1;
        segment.written
    }
}
