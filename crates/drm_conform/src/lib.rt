//! The engine that holds the log of a real kernel against the rules of a scheduler, between any reader and any writer.
//!
//! `conform` reads a log and writes the rules that it breaks (`drm_rules`), line by line, with the lines that they are
//! broken against; then how many jobs and broken rules there are, what was not judged, and how long the jobs of each
//! ring waited and ran. It ends as `Done` exactly where the log keeps all rules. `read_options` makes what is asked of
//! the log of the words of a command line.
#![tactic(auto)]

mod answering;
mod asking;
mod conforming;
mod judged;
mod options;
mod times;
mod words;

pub use asking::read_options;
pub use conforming::conform;
pub use judged::Judged;
pub use options::{Limit, Options};
pub use times::{Counts, Times, Total};
