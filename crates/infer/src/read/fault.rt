//! Why there is no answer.
use std::io::ErrorKind;
use thiserror::Error;

/// Why a file or a reader has no answer. It keeps the kind of the system's error, and nothing else of it.
#[derive(Clone, Copy, Debug, Drop, PartialEq, Eq, Error)]
pub enum Fault {
    /// The file could not be opened.
    #[error("cannot open")]
    Open(ErrorKind),
    /// A read failed. Bytes read before are lost.
    #[error("cannot read")]
    Read(ErrorKind),
    /// There is no memory for the input. Nothing was read.
    #[error("no memory")]
    Memory,
}
