//! Tells the type of an input that is still growing, and when it can no longer change.
//!
//! A [`Sniffer`] takes the bytes as they come and keeps the first 8192. After each piece it answers a [`Verdict`]:
//! the type that [`infer::get`] answers for the bytes so far, and whether it is certain that no bytes after them
//! change it.
#![tactic(auto)]

pub mod laws;
mod position;
mod reading;
mod sniffer;
mod verdict;

pub use position::position_settled;
pub use reading::label;
pub use sniffer::Sniffer;
pub use verdict::Verdict;
