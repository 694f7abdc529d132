//! A trace of a run for Perfetto and `chrome://tracing`: from a script to JSON of Chrome's trace event format.
//!
//! A track shows one thing: the job at the head of a ring, the first job in the queue of an entity, the job of an
//! entity that waits for a fence, the context that holds a buffer. What it shows changes with a command: there one
//! slice ends and another begins (`specs/Tracks`). Instants tell what a command did, counters what each ring has, and
//! arrows which fence let a waiting job go (`specs/Steps`). `trace` writes what the steps of a run make, in their order
//! (`specs/Traces`), as one line of text for each entry (`specs/Entries`). It keeps what each track shows, and nothing
//! of a command behind it. No command costs time in the number of jobs that have ended, and it looks at no track that
//! it can't have changed.
#![tactic(auto)]

mod clock;
mod entry;
mod lanes;
mod named;
mod pen;
mod rows;
mod text;
mod tracing;
mod watches;

pub use clock::Clock;
pub use entry::{Entry, Track, When};
pub use lanes::{Lane, Row};
pub use named::Named;
pub use tracing::trace;
