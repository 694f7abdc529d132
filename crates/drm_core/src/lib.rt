//! The core over a device: one event at a time.
//!
//! A `Core` is a device (`drm_sched`) with the reservations of its buffers and the contexts that lock them. Contracts
//! see it as its state. Each call promises one step of the definition (`specs/Step`), and that the state which it leads
//! to is lawful. A list of events on a new core leaves it as promised (`specs/Headline`): every buffer has the bytes of
//! the machine that runs the armed jobs one at a time. No call takes memory but those that may answer that there is
//! none.
//!
//! ```text
//!              contexts                 reservations               device (drm_sched)
//!           +-------------+   try    +-----------------+ armed  +---------------------+
//!   event   | ticket,     |--------->| of each buffer: |------->| queues, run queues, |  answer
//!  -------->| locks held, |   plan   | who reads,      |        | rings, fences,      |-------->
//!   apply   | plan        |--------->| writes, moves   |<-------| bytes of buffers    |
//!           +-------------+          +-----------------+ ended  +---------------------+
//!  submit, begin .. arm         what a job waits for      pick, step, finish, timeout, reap
//! ```
//!
//! # A worked call
//!
//! A caller asks whether an event names what the device has, and gives it to the core. These are the bodies of
//! `answer_to` and `goes_to_its_end` of `drm_core_tests` (`src/tests/events.rt`), word for word. The test
//! `a_job_goes_to_its_end` runs them:
//!
//! ```text
//! if !event.names_exist(core.spec()) {
//!     return None;
//! }
//! Some(core.apply(alloc, event))
//! ```
//!
//! ```text
//! is_armed(alloc, core)
//!     && matches!(
//!         answer_to(alloc, core, Event::Pick { ring: 0, now: 0 }),
//!         Some(Answer::Picked {
//!             fence: 0,
//!             skipped: false
//!         })
//!     )
//!     && matches!(
//!         answer_to(alloc, core, Event::Step { ring: 0 }),
//!         Some(Answer::Ran {
//!             fence: 0,
//!             packet: 0
//!         })
//!     )
//!     && matches!(
//!         answer_to(alloc, core, Event::Finish { ring: 0, now: 1 }),
//!         Some(Answer::Finished {
//!             fence: 0,
//!             outcome: Outcome::Good
//!         })
//!     )
//!     && matches!(
//!         answer_to(alloc, core, Event::Status { fence: 0 }),
//!         Some(Answer::Status { status: 1 })
//!     )
//! ```
#![tactic(auto)]

mod blank;
mod cores;
mod device_events;
mod event;
mod events;
mod jobs;
mod laws;
mod locking;
mod looking;
mod machine;
mod names;
mod outline;
mod planned;
mod planning;
mod submission;

pub use cores::CONTEXTS;
pub use drm_sched::{
    Answer, ArmError, Begun, BuildError, CancelError, Closed, Device, Expired, FinishError,
    Finished, Held, JobRecord, Phase, PickError, Picked, Plan, ReadError, ReapError, Refusal,
    StepError, Stepped, TimeoutError, choice_is_least,
};
pub use event::Event;
pub use laws::{every_run_is_lawful, headline};
pub use machine::Core;
pub use outline::{put_draft, put_job, put_number};
