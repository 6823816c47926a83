//! Buffers that are made and not written down.
use std::alloc::{AllocError, Global};

/// A buffer of `len` bytes, or of more if the texts go further, each `fill` but for the texts at their places,
/// which ascend.
pub fn filled_but(
    alloc: Global,
    fill: u8,
    len: usize,
    texts: &[(usize, &[u8])],
) -> Result<Vec<u8>, AllocError> {
    let mut buf = Vec::new(alloc);
    for (place, text) in texts {
        buf.resize(*place, fill)?;
        buf.extend_from_slice(*text)?;
    }
    buf.resize(len.max(buf.len()), fill)?;
    Ok(buf)
}
