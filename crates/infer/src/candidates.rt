//! The rows that can accept a buffer, by its first byte, and the walk over them.
pub mod asker;
pub mod dispatch;
pub mod groups;
