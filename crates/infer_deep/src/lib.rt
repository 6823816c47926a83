//! Matchers of the file types that no list of bytes at fixed places describes.
#![tactic(auto)]

pub mod archive;
pub mod doc;
pub mod image;
pub mod laws;
pub mod numbers;
pub mod places;
pub mod text;
pub mod video;
