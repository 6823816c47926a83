//! MIME types: how they are read, and what groups they are in, by the MIME Sniffing Standard.
#![tactic(auto)]

mod bytes;
mod extraction;
mod first;
mod groups;
pub mod laws;
mod mime_type;
mod minimal;
mod named;
mod nosniff;
mod parameter;
mod parameters;
mod pieces;
mod read;
mod segment;
mod text;
mod value;
mod write;

pub use extraction::{Extracted, extract};
pub use mime_type::MimeType;
pub use minimal::Minimal;
pub use nosniff::{Destination, is_blocked, is_nosniff};
pub use parameter::{Parameter, Value};
pub use parameters::Parameters;
pub use pieces::Pieces;
pub use read::parse;
pub use write::WriteError;
