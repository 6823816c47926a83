//! Rows of a caller, asked before the built-in ones.
pub mod custom;
pub mod infer;
