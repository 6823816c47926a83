//! The front of a reader, and calls that answer about it.
pub mod fault;
pub mod head;
pub mod identify;
pub mod watched;
