//! Texts.
ghost use Rattle.std.specs.Prelude.{◌≡◌};
ghost use Rattle.infer_sig.specs.Signature.{accepts};
ghost use Rattle.infer_sig.specs.Text.{shellscript};

use crate::places::matches_at;
pub use infer_deep::text::{is_html, is_xml, may_become_html, may_become_xml};

/// Script that names its interpreter: at least 3 bytes, "#!" first.
pub fn is_shellscript(buf: &[u8]) -> bool
    ensures { result ≡ accepts shellscript buf.now }
{
    buf.len() >= 3 && matches_at(buf, b"#!", 0)
}
