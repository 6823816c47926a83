//! Matchers of the file types that fixed bytes at fixed places identify, by class.
//!
//! The modules pass on the matchers of `infer_deep` too, so that each holds all of its class.
#![tactic(auto)]

pub mod app;
pub mod archive;
pub mod audio;
pub mod book;
pub mod doc;
pub mod font;
pub mod image;
pub mod laws;
pub mod odf;
mod places;
pub mod text;
pub mod video;
