//! Buffers whose answers a program computed that shares no code with this one.

mod begins;
mod dbase;
mod elf;
mod header;
mod id3;
mod json;
mod key;
mod markup;
mod png;
mod script;
mod subtitles;
mod text;
mod tiff;
mod zip;
