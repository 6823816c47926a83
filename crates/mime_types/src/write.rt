//! The text of a MIME type, written into a buffer. What stands after the text stays. Without room for all of it, as much of it
//! as there is room for is written.
ghost use Rattle.std.specs.Prelude.{◌≡◌, ◌↔◌, ◌≤◌, ◌∷◌, ◌+◌, ◌<◌, [], length, option_map, option_to_list, IsTrue, IsSome};
ghost use Rattle.mime_types.specs.Parameters.{parameters};
ghost use Rattle.mime_types.specs.Seen.{parameter_seen, value_seen};
ghost use Rattle.mime_types.specs.Serialize.{escaped, in_quotes, parameter_text, parameters_text, value_text};
ghost use Rattle.mime_types.specs.Text.{lower};
ghost use Rattle.mime_types.specs.Wrote.{HasFew, Wrote};

use crate::extraction::Extracted;
use crate::mime_type::MimeType;
use crate::parameter::{Parameter, Value};
use crate::parameters::Parameters;
use crate::segment::first_segment;
use crate::value::{is_token_value, split_value};

/// Why a text was not written.
#[derive(Clone, Copy, Debug, Drop)]
pub enum WriteError {
    /// More than 256 parameters are written, each of which would be compared with those before it: one that does not count is
    /// one of them. Nothing is written.
    TooManyParameters,
    /// The text is longer than the buffer.
    NoRoom,
}

fn write_byte(out: &mut [u8], at: usize, byte: u8) -> Option<usize>
    requires { at ≤ length out.old }
    ensures { Wrote out.old out.new at (byte ∷ []) result }
{
    if at == out.len() {
        return None;
    }
    out[at] = byte;
    Some(at + 1)
}

fn write_lower(out: &mut [u8], at: usize, text: &[u8]) -> Option<usize>
    requires { at ≤ length out.old }
    ensures { Wrote out.old out.new at (lower text.now) result }
{
    let mut end = at;
    for byte in text {
        end = write_byte(out, end, byte.to_ascii_lowercase())?;
    }
    Some(end)
}

fn write_plain(out: &mut [u8], at: usize, value: &Value<'_>) -> Option<usize>
    requires { at ≤ length out.old }
    ensures { Wrote out.old out.new at (value_seen value.now) result }
{
    let mut end = at;
    let mut left = *value;
    while let Some((byte, rest)) = split_value(&left) {
        end = write_byte(out, end, byte)?;
        left = rest;
    }
    Some(end)
}

fn write_escaped(out: &mut [u8], at: usize, value: &Value<'_>) -> Option<usize>
    requires { at ≤ length out.old }
    ensures { Wrote out.old out.new at (escaped (value_seen value.now)) result }
{
    let mut end = at;
    let mut left = *value;
    while let Some((byte, rest)) = split_value(&left) {
        end = write_escaped_byte(out, end, byte)?;
        left = rest;
    }
    Some(end)
}

fn write_escaped_byte(out: &mut [u8], at: usize, byte: u8) -> Option<usize>
    requires { at ≤ length out.old }
    ensures { Wrote out.old out.new at (escaped (byte ∷ [])) result }
{
    if byte == b'"' || byte == b'\\' {
        let at = write_byte(out, at, b'\\')?;
        return write_byte(out, at, byte);
    }
    write_byte(out, at, byte)
}

fn write_quoted(out: &mut [u8], at: usize, value: &Value<'_>) -> Option<usize>
    requires { at ≤ length out.old }
    ensures { Wrote out.old out.new at (in_quotes (value_seen value.now)) result }
{
    let at = write_byte(out, at, b'"')?;
    let at = write_escaped(out, at, value)?;
    write_byte(out, at, b'"')
}

fn write_value(out: &mut [u8], at: usize, value: &Value<'_>) -> Option<usize>
    requires { at ≤ length out.old }
    ensures { Wrote out.old out.new at (value_text (value_seen value.now)) result }
{
    if is_token_value(value) {
        return write_plain(out, at, value);
    }
    write_quoted(out, at, value)
}

fn write_parameter(out: &mut [u8], at: usize, parameter: &Parameter<'_>) -> Option<usize>
    requires { at ≤ length out.old }
    ensures { Wrote out.old out.new at (parameter_text (parameter_seen parameter.now)) result }
{
    let at = write_byte(out, at, b';')?;
    let at = write_lower(out, at, parameter.name)?;
    let at = write_byte(out, at, b'=')?;
    write_value(out, at, &parameter.value)
}

fn write_parameters(out: &mut [u8], at: usize, tail: &[u8]) -> Option<usize>
    requires { at ≤ length out.old }
    ensures { Wrote out.old out.new at (parameters_text (parameters tail.now)) result }
{
    let mut end = at;
    let mut left = Parameters::new(tail);
    while let Some(parameter) = left.next() {
        end = write_parameter(out, end, &parameter)?;
    }
    Some(end)
}

/// How many parameters may be written: each is compared with those before it.
pub const MOST_PARAMETERS: usize = 256;

impl<'a> MimeType<'a> {
    ghost use Rattle.std.specs.Prelude.{IfSome};
    ghost use Rattle.mime_types.specs.Left.{left, text_read};
    ghost use Rattle.mime_types.specs.Groups.{essence};
    ghost use Rattle.mime_types.specs.Seen.{kind_of, mime_of};
    ghost use Rattle.mime_types.specs.Serialize.{serialize};
    ghost use Rattle.mime_types.specs.Wrote.{IsWritten};

    /// The parameters that count, or none if more than 256 are written, of which those that do not count are some.
    pub fn parameters(&self) -> Option<Parameters<'a>>
        ensures few { IsSome result ↔ HasFew MOST_PARAMETERS self.now.tail.now }
        ensures all { IfSome result (λ p. left p ≡ parameters self.now.tail.now) }
        ensures text { IfSome result (λ p. text_read p ≡ self.now.tail.now) }
    {
        if has_few(self.tail) {
            return Some(Parameters::new(self.tail));
        }
        None
    }

    /// Writes the text of the MIME type, and returns how long it is.
    pub fn write(&self, out: &mut [u8]) -> Result<usize, WriteError>
        ensures { IsWritten MOST_PARAMETERS self.now.tail.now (mime_of self.now) out.old out.new result }
    {
        if !has_few(self.tail) {
            return Err(WriteError::TooManyParameters);
        }
        match self.write_text(out) {
            Some(end) => Ok(end),
            None => Err(WriteError::NoRoom),
        }
    }

    fn write_text(&self, out: &mut [u8]) -> Option<usize>
        ensures { Wrote out.old out.new 0 (serialize (mime_of self.now)) result }
    {
        let at = self.write_essence(out)?;
        write_parameters(out, at, self.tail)
    }

    /// Writes the type and the subtype in lower case, as `text/html`, and returns how long that is; or none if it is longer
    /// than the buffer.
    pub fn write_essence(&self, out: &mut [u8]) -> Option<usize>
        ensures { Wrote out.old out.new 0 (essence (kind_of self.now)) result }
    {
        let at = write_lower(out, 0, self.type_name)?;
        let at = write_byte(out, at, b'/')?;
        write_lower(out, at, self.subtype)
    }
}

impl<'a> Extracted<'a> {
    ghost use Rattle.std.specs.Prelude.{option_map, option_to_list};
    ghost use Rattle.mime_types.specs.Extracted.{carried, charset_of, mime_together};
    ghost use Rattle.mime_types.specs.Seen.{mime_of};
    ghost use Rattle.mime_types.specs.Serialize.{serialize};
    ghost use Rattle.mime_types.specs.Wrote.{IsWritten};

    /// Writes the text of what the values say, and returns how long it is. A MIME type without a charset has the other after its
    /// parameters.
    ///
    /// ```
    /// let found = mime_types::extract(b"text/html;charset=gbk, text/html").ok_or("a MIME type")?;
    /// let mut out = [0; 21];
    /// assert!(rt; matches!(found.write(&mut out), Ok(21)) && out == *b"text/html;charset=gbk");
    /// ```
    pub fn write(&self, out: &mut [u8]) -> Result<usize, WriteError>
        ensures { IsWritten MOST_PARAMETERS self.now.mime_type.tail.now (mime_together self.now) out.old out.new result }
    {
        if !has_few(self.mime_type.tail) {
            return Err(WriteError::TooManyParameters);
        }
        match self.write_text(out) {
            Some(end) => Ok(end),
            None => Err(WriteError::NoRoom),
        }
    }

    fn write_text(&self, out: &mut [u8]) -> Option<usize>
        ensures { Wrote out.old out.new 0 (serialize (mime_together self.now)) result }
    {
        let at = self.mime_type.write_text(out)?;
        write_carried(out, at, self.carried())
    }

    /// The charset as a parameter, if the MIME type has none of its own.
    fn carried(&self) -> Option<Parameter<'a>>
        ensures { option_to_list (option_map parameter_seen result)
            ≡ carried (charset_of (mime_of self.now.mime_type)) (option_map value_seen self.now.charset) }
    {
        match (self.mime_type.parameter(b"charset"), self.charset) {
            (None, Some(value)) => Some(Parameter {
                name: b"charset",
                value,
            }),
            _ => None,
        }
    }
}

#[tactic(auto, using(crate::proofs::WroteLemmas::text_none, crate::proofs::WroteLemmas::text_one, crate::proofs::WroteLemmas::wrote_rest, crate::proofs::WroteLemmas::wrote_same))]
fn write_carried(out: &mut [u8], at: usize, carried: Option<Parameter<'_>>) -> Option<usize>
    requires { at ≤ length out.old }
    ensures { Wrote out.old out.new at (parameters_text (option_to_list (option_map parameter_seen carried.entry))) result }
{
    match carried {
        Some(parameter) => write_parameter(out, at, &parameter),
        None => Some(at),
    }
}

impl<'a> Value<'a> {
    /// Writes what the value says, without quotes and backslashes, and returns how long that is; or none if it is longer than
    /// the buffer.
    pub fn write(&self, out: &mut [u8]) -> Option<usize>
        ensures { Wrote out.old out.new 0 (value_seen self.now) result }
    {
        write_plain(out, 0, self)
    }
}

/// Whether no more than 256 parameters are written. A segment that writes none, such as an empty one, counts for nothing.
fn has_few(tail: &[u8]) -> bool
    ensures { IsTrue result ↔ HasFew MOST_PARAMETERS tail.now }
{
    let mut rest = tail;
    let mut count = 0;
    while !rest.is_empty() {
        let segment = first_segment(rest);
        rest = segment.rest;
        count += usize::from(segment.written.is_some());
        if count > MOST_PARAMETERS {
            return false;
        }
    }
    true
}
