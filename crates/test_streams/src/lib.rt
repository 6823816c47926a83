//! Readers and writers over memory that cut what passes through them and fail at a stated step, for tests.
#![tactic(auto)]

mod reader;
mod writer;

pub use reader::PieceReader;
pub use writer::{PieceWriter, ROOM};

/// The number of a read or a write that never comes.
pub const NEVER: u32 = u32::MAX;
