//! The state of a device: its definitions, the laws over them, and the steps on the parts of which tables are made.
//!
//! The definitions of a device stand here (`specs/State`, `Order`, `Choice`, `Refusals`, `Outcomes`, `Lawful`), with
//! its answers and errors. The record of a job and the loads of rings are types of their own, whose calls promise what
//! one event changes of them. The pending jobs of the rings are those of `drm_ring`. `drm_table` puts them together.
#![tactic(auto)]

mod answer;
mod arming;
mod choice;
mod errors;
mod journal;
mod laws;
mod loads;
mod plans;
mod recovery;
mod rows;
mod running;
mod stopping;
mod uses;

pub use answer::{Answer, Expired, Finished, Picked, Refusal, Stepped};
pub use arming::{first_unarmed, note_named};
pub use choice::is_met;
pub use drm_fence::Phase;
pub use errors::{
    ArmError, CancelError, FinishError, PickError, ReadError, ReapError, StepError, TimeoutError,
};
pub use journal::JobRecord;
pub use laws::{
    bytes_stay, choice_is_least, collected_covers, devices_stay_steady, reads_wait_for_writers,
};
pub use loads::Loads;
pub use plans::{Held, Plan, add_dependencies};
pub use recovery::{blame, condemn};
pub use rows::{counted_credits, is_complete, pass_over};
pub use running::{end_job, final_outcome, must_stall, schedule_job};
pub use stopping::may_end;
pub use uses::{add_held_uses, add_use};
