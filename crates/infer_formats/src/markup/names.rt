//! The bytes of names.
ghost use Rattle.std.specs.Prelude.{◌↔◌, IsTrue};
ghost use Rattle.infer_formats.specs.Markup.{BeginsElement, EndsType, IsNameByte, IsXmlSpace};

pub(super) fn begins_element(byte: u8) -> bool
    ensures { IsTrue result ↔ BeginsElement byte }
{
    byte != b'!' && byte != b'?'
}

pub(super) fn is_xml_space(byte: u8) -> bool
    ensures { IsTrue result ↔ IsXmlSpace byte }
{
    // Most bytes are decided by the first test.
    byte <= b' ' && matches!(byte, b'\t' | b'\n' | b'\r' | b' ')
}

pub(super) fn ends_type(byte: u8) -> bool
    ensures { IsTrue result ↔ EndsType byte }
{
    is_xml_space(byte) || byte == b'>' || byte == b'['
}

pub(super) fn is_name_byte(byte: u8) -> bool
    ensures { IsTrue result ↔ IsNameByte byte }
{
    !is_xml_space(byte) && byte != b'>' && byte != b'/'
}
