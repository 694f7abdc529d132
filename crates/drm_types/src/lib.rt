//! The vocabulary of the scheduler: names of things, how buffers are used, how a job ends, and the description
//! of a device with its limits.
//!
//! What a caller may rely on: `DeviceSpec::check` accepts exactly the descriptions within the limits and names
//! the first part that is not; `wanted` and `adds` are the two tables of implicit sync, for all four usages.
#![tactic(auto)]

mod access;
mod ids;
mod outcome;
mod sequence;
mod spec;
mod spec_check;

pub use access::{Access, Usage, adds, wanted};
pub use ids::{BufferId, CtxId, EntityId, FenceId, Moment, RingId, Ticket};
pub use outcome::Outcome;
pub use sequence::Sequence;
pub use spec::{BadSpec, DeviceSpec, EntitySpec, Priority, RingSpec};
