//! A question, asked of one row.
pub mod question;
