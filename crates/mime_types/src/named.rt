//! The parameter of a name.
ghost use Rattle.std.specs.Prelude.{◌≡◌, IfSome, IsTrue, Some, option_map, option_to_list};
ghost use Rattle.mime_types.specs.Named.{first_value};
ghost use Rattle.mime_types.specs.Parameters.{is_named};
ghost use Rattle.mime_types.specs.Seen.{parameter_seen, value_seen};
ghost use Rattle.mime_types.specs.Text.{lower};

use crate::first::is_named;
use crate::mime_type::MimeType;
use crate::parameter::{Parameter, Value};
use crate::segment::{Segment, first_segment};

impl<'a> MimeType<'a> {
    ghost use Rattle.mime_types.specs.Named.{ValueStands, value_of};
    ghost use Rattle.mime_types.specs.Parameters.{parameters};

    /// The value of the parameter with the name in any ASCII case. Of several the first valid one counts.
    ///
    /// ```
    /// let found = mime_types::parse(b"text/html; charset=\"utf-8\"").ok_or("a MIME type")?;
    /// let value = found.parameter(b"charset").ok_or("a charset")?;
    /// assert_eq!(rt; value.text, b"utf-8".as_slice());
    /// ```
    pub fn parameter(&self, name: &[u8]) -> Option<Value<'a>>
        ensures says { option_map value_seen result ≡ value_of (lower name.now) (parameters self.now.tail.now) }
        ensures stands { IfSome result (λ value. ValueStands self.now.tail.now (lower name.now) value) }
    {
        let mut rest = self.tail;
        while !rest.is_empty() {
            let segment = first_segment(rest);
            rest = segment.rest;
            if let Some(value) = value_named(&segment, name) {
                return Some(value);
            }
        }
        None
    }
}

fn value_named<'a>(segment: &Segment<'a>, name: &[u8]) -> Option<Value<'a>>
    ensures says { option_map value_seen result ≡ first_value (lower name.now)
        (option_to_list (option_map parameter_seen segment.now.written)) }
    ensures stands { IfSome result (λ value. (found : Parameter) × (segment.now.written ≡ Some found)
        × IsTrue (is_named (lower name.now) (parameter_seen found)) × (found.value ≡ value)) }
{
    match segment.written {
        Some(found) => {
            if is_named(&found, name) {
                return Some(found.value);
            }
            None
        },
        None => None,
    }
}
