//! Relations that look inside containers, documents and texts. Where a function says whether more bytes may bring one, a
//! no is certain.
#![tactic(auto)]

pub mod begins;
pub mod dbase;
pub mod elf;
pub mod header;
pub mod id3;
pub mod json;
pub mod laws;
pub mod markup;
pub mod model;
mod numbers;
pub mod png;
pub mod relation;
mod runs;
pub mod script;
mod search;
pub mod subtitles;
pub mod tar;
pub mod text;
pub mod tiff;
pub mod token;
pub mod zip;
