//! What the laws and contracts of `infer`, `infer_sniff` and `infer_uses` tell a caller, as functions with contracts, and
//! the tests of all libraries, over public items alone: in one program, since each takes a minute to compile.
#![tactic(auto)]

pub mod added;
pub mod asked;
pub mod definitions;
pub mod growing;
pub mod laws;
pub mod streams;
#[cfg(test)]
mod tests;
pub mod types;
