//! Which bytes of a buffer decide its type: ranges of it, what is needed of its length, and what of a fixed signature
//! goes into both. Signatures are data here, and tables of data hold parts of long lists and texts.
#![tactic(auto)]

mod front;
mod more_bytes;
pub mod ranges;
mod search;
pub mod signature;
mod spans;
mod weighing;

pub use front::{Claim, shortest_front};
pub use more_bytes::may_become;
pub use ranges::{Evidence, MOST_RANGES, Range};
pub use search::{MOST_OF_A_SEARCH, Search, accept_search, refuse_search};
pub use signature::{Alternative, AsPart, Part, Set};
pub use spans::{Span, stretch, text_at};
pub use weighing::{accept, fits, refuse, weigh};
