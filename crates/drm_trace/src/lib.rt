//! The trace events of a kernel's `gpu_scheduler`, read from the text of `trace-cmd report` or of the kernel's trace
//! buffer.
//!
//! A line tells that a job is queued, that a ring runs it, that it waits for another, or that it ends. `specs/Formats`
//! has the form of each, for kernels that name fences by address (6.12) and for those that name them by context and
//! number. Lines of other events are passed over. `read_log` gives the events of a whole input, which is read in pieces
//! and is never kept whole: they are those that `log_of` says of its text, or its first fault is told with line and
//! column.
#![tactic(auto)]

mod event;
mod formats;
mod kinds;
mod log;
mod names;
mod pieces;
mod reading;
mod rest;
mod search;

pub use event::{Event, Moment, Place, Step, Task, What};
pub use kinds::{Format, Kind};
pub use log::Log;
pub use names::Names;
pub use reading::read_log;
