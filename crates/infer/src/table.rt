//! The built-in rows: what is known of each, by its name.
pub mod built_in;
pub mod file_type;
pub mod row_data;
pub mod rows;
