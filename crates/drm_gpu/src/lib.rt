//! The device that threads share: `drm_sched`'s device behind one lock, and a wait-die lock for each buffer's
//! reservation.
//!
//! Threads share a `Gpu` by reference, and each has a `Pass` of its own. With a pass a caller drives the device, or
//! begins a submission, which goes through `Locking`, `Locked`, `Planned` and `Armed` back to the pass, or a `Reading`.
//! Contracts see what a pass knows of the device: each call tells which device it found, what it left there, and that
//! it did what the device's own call does. Whatever other passes do meanwhile, no call is lost and none works on an old
//! copy.
//!
//! # The calls of a caller
//!
//! These are the bodies of three functions of `drm_gpu_tests` (`src/calling.rt`, word for word). The first submits a
//! job, which `Gpu::check` made of a draft: it begins, locks what the job declares, plans, arms and gives the buffers
//! back. What is refused on the way hands the pass back.
//!
//! ```text
//! let locking = match gpu.begin(alloc, pass, job, rt) {
//!     Ok(locking) => locking,
//!     Err(BeginError::Memory(pass, _job)) => return (pass, None),
//!     Err(BeginError::TicketsOut(pass, _job)) => return (pass, None),
//! };
//! let planned = match locking.lock_all(rt).plan() {
//!     Ok(planned) => planned,
//!     Err(locked) => return (locked.abandon().0, None),
//! };
//! match planned.arm(rt) {
//!     Ok(armed) => {
//!         let fence = armed.fence();
//!         (armed.release(), Some(fence))
//!     }
//!     Err((planned, _refusal)) => (planned.abandon().0, None),
//! }
//! ```
//!
//! `lock_all` backs off by itself. A caller that locks two buffers by hand releases what it holds if it has to back
//! off. Then it begins anew with the contended buffer, for which it may wait:
//!
//! ```text
//! let mut next = first;
//! let mut other = second;
//! for _ in rt.forever() {
//!     if locking.try_lock(next).is_err() {
//!         locking.lock_slow(next, rt);
//!     }
//!     let Err(_backoff) = locking.lock(other, rt) else {
//!         return;
//!     };
//!     locking.release_all();
//!     mem::swap(&mut next, &mut other);
//! }
//! unreachable!()
//! ```
//!
//! And a reader, which holds the buffer while it reads, so that nobody arms a job that uses it:
//!
//! ```text
//! let mut reading = match gpu.begin_read(alloc, pass, buffer, rt) {
//!     Ok(reading) => reading,
//!     Err(BeginReadError::Memory(pass)) => return (pass, false),
//!     Err(BeginReadError::TicketsOut(pass)) => return (pass, false),
//! };
//! let is_read = reading.read_into(out, rt).is_ok();
//! (reading.release(), is_read)
//! ```
#![tactic(auto)]

mod boxed_plan;
mod crossing;
mod device_calls;
mod driver;
mod fence_word;
mod gpu;
mod inside;
mod locking;
mod pass;
mod reading;
mod running;
mod submission;
mod waiting;

pub use driver::{Driver, Task};
pub use drm_fence::NoFence;
pub use gpu::{CloseError, Closed, Gpu};
pub use locking::{BeginError, BeginReadError, Locked, Locking};
pub use pass::Pass;
pub use reading::{Reading, readbacks_agree};
pub use running::{Running, StartError};
pub use submission::{Armed, Planned};
