//! What all texts share: the header that describes a device, and the words of a job.
//!
//! `read_header` gives the device that the next lines describe, `read_job` the job that the words left of a line spell,
//! or the first fault with line and column. Both are exact: what is read is what the definitions `header_at` and
//! `job_at` say, and `specs/Grammar` tells what is written so. `make_job` tells whether a device has such a job.
#![tactic(auto)]

mod header;
mod job;

pub use header::read_header;
pub use job::{make_job, push_job, read_job};
