//! A device (`drm_gpu_scheduler` with its entities and rings): its memory, its armed jobs, their fences, and which job
//! a ring takes next.
//!
//! Contracts see a `Device` as its state, with the mark of each packet that is out of it. Each call promises what its
//! definition says (`specs/Calls`, by `Refusals` and `Outcomes` of `drm_state`), and that the state which it leads to
//! is lawful (`drm_state/specs/Lawful`): memory is that of the machine that runs the armed jobs one after another.
//! `Parts` has the bodies of the calls, and `Device` keeps what they need in one type. No call but `build` takes
//! memory.
//!
//! ```text
//!               entity            run queue            ring
//!   arm   +----------------+   +--------------+   +----------------+
//!  -----> | job, job, head |-->| heads by     |-->| head, job, job |--> fence of the head
//!         +----------------+   | priority and |   | runs packet by |    has its outcome
//!         +----------------+   | number; the  |   | packet, here   |
//!         | job, head      |-->| ready ones   |   | or outside     |
//!         +----------------+   +--------------+   +----------------+
//!           cancel, reap             pick           step, timeout     finish
//! ```
//!
//! An armed job waits in the queue of its entity. The head of each queue is in the run queue of its ring if the entity
//! is not stopped. It is ready once all that it waits for is met. A pick gives the ring the first ready one, if its
//! credits fit. It is pending then, behind those that the ring has. The ring runs the packets of its jobs one after
//! another, by steps or beside the device, and ends its head once that is complete.
//!
//! # A worked call
//!
//! This is the body of `runs` of `drm_core_tests` (`src/tests/device_calls.rt`), word for word. The test
//! `device_runs_a_job` runs it once the first job is armed:
//!
//! ```text
//! !device.spec().rings.is_empty()
//!     && matches!(
//!         device.pick(0, 0),
//!         Ok(Picked {
//!             fence: 0,
//!             skipped: false
//!         })
//!     )
//!     && matches!(
//!         device.step(0),
//!         Ok(Stepped::Ran {
//!             fence: 0,
//!             packet: 0
//!         })
//!     )
//!     && matches!(device.timeout(0, 10), Ok(Expired::Complete))
//!     && matches!(
//!         device.finish(0, 10),
//!         Ok(Finished {
//!             fence: 0,
//!             outcome: Outcome::Good
//!         })
//!     )
//! ```
#![tactic(auto)]

mod device_calls;
mod heads;
mod outside;
mod parts;

pub use device_calls::Device;
pub use drm_state::{
    Answer, ArmError, CancelError, Expired, FinishError, Finished, Held, JobRecord, Phase,
    PickError, Picked, Plan, ReadError, ReapError, Refusal, StepError, Stepped, TimeoutError,
    add_dependencies, add_use, bytes_stay, choice_is_least, collected_covers, devices_stay_steady,
    reads_wait_for_writers,
};
pub use drm_table::{BuildError, Closed};
pub use outside::Begun;
