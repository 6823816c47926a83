//! Which of the parameters that are written count.
ghost use Rattle.std.specs.Prelude.{◌≡◌, option_map, option_to_list};
ghost use Rattle.std.specs.List.{list_all, list_any};
ghost use Rattle.mime_types.specs.Bytes.{is_quotable};
ghost use Rattle.mime_types.specs.Parameters.{is_first, is_named, is_valid};
ghost use Rattle.mime_types.specs.Segment.{written_by};
ghost use Rattle.mime_types.specs.Seen.{parameter_seen};
ghost use Rattle.mime_types.specs.Text.{lower};

use crate::bytes::is_quotable;
use crate::groups::is_alike;
use crate::parameter::Parameter;
use crate::segment::{Segment, first_segment};
use crate::text::is_a_token;

/// Whether the parameter counts, after those that so many segments write.
pub(crate) fn is_first(tail: &[u8], count: usize, parameter: &Parameter<'_>) -> bool
    ensures { result ≡ is_first (written_by count tail.now) (parameter_seen parameter.now) }
{
    is_valid(parameter) && !has_named(tail, count, parameter.name)
}

/// Whether one of so many segments writes a valid parameter of the name.
fn has_named(tail: &[u8], count: usize, name: &[u8]) -> bool
    ensures { result ≡ list_any (is_named (lower name.now)) (written_by count tail.now) }
{
    let mut rest = tail;
    for i in 0..count {
        let segment = first_segment(rest);
        rest = segment.rest;
        if writes_named(&segment, name) {
            return true;
        }
    }
    false
}

fn writes_named(segment: &Segment<'_>, name: &[u8]) -> bool
    ensures { result ≡ list_any (is_named (lower name.now))
        (option_to_list (option_map parameter_seen segment.now.written)) }
{
    match segment.written {
        Some(found) => is_named(&found, name),
        None => false,
    }
}

/// Whether the parameter is valid, and of the name in any ASCII case.
pub(crate) fn is_named(parameter: &Parameter<'_>, name: &[u8]) -> bool
    ensures { result ≡ is_named (lower name.now) (parameter_seen parameter.now) }
{
    is_alike(parameter.name, name) && is_valid(parameter)
}

/// Whether the name is a token, and the value may stand in quotes.
#[tactic(auto, using(crate::proofs::FirstLemmas::quotable_seen, crate::proofs::FirstLemmas::token_in_lower))]
fn is_valid(parameter: &Parameter<'_>) -> bool
    ensures { result ≡ is_valid (parameter_seen parameter.now) }
{
    is_a_token(parameter.name) && all_quotable(parameter.value.text)
}

fn all_quotable(text: &[u8]) -> bool
    ensures { result ≡ list_all is_quotable text.now }
{
    text.iter().all(|byte| is_quotable(*byte))
}
