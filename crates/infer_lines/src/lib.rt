//! What programs that write a line for each input share: outcomes, what is said of faults, writers that
//! remember a failure or end with it, buffers that hand on whole lines, and the number of bytes to look at, as a word.
#![tactic(auto)]

mod buffers;
mod faults;
mod halting;
mod limit;
mod outcome;
mod writer;

pub use buffers::{lines_over, writer_of};
pub use faults::text_of;
pub use halting::HaltingWriter;
pub use limit::{limit_in, limit_of};
pub use outcome::Outcome;
pub use writer::{Output, WatchedWriter};
