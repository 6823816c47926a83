//! Users of `infer`: what prints the types of files, and, each proved, what an upload gate lets pass and which type a file
//! server sends, by the built-in rows and by names, what a report on directories counts, what a labelling proxy writes,
//! how a relay passes a stream on, and what a catalogue of wider answers says.
#![tactic(auto)]

pub mod catalogue;
pub mod count;
pub mod files;
pub mod gate;
pub mod label;
pub mod name;
pub mod relay;
pub mod sending;
pub mod upload;
