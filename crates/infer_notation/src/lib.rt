//! The notation of signatures, as text that is read.
#![tactic(auto)]

mod described;
mod fixed;
mod items;
pub mod laws;
mod leads;
mod names;
mod reason;
mod relations;
mod signature;
mod texts;
mod tokens;
mod words;

pub use described::{accepts, accepts_known};
pub use leads::{Lead, lead_of};
pub use reason::{Flaw, Reason};
pub use words::{skip_blanks, split_word};
