//! What a browser makes of first bytes: the MIME Sniffing Standard, and Go's `http.DetectContentType`.
#![tactic(auto)]

mod computed;
mod context;
pub mod go;
pub mod laws;
mod markup;
mod mp3;
mod mp4;
mod question;
mod row;
mod settled;
mod sniffer;
mod standard;
mod supplied;
mod table;
mod webm;

pub use computed::{
    Computed, HEADER_LENGTH, compute, compute_in, is_apache_bug, is_decided, may_be_scriptable,
};
pub use context::Context;
pub use sniffer::Sniffer;
pub use supplied::Supplied;
