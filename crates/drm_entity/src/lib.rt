//! The entities of a device: the queues of their jobs, and their marks.
//!
//! `Entities` promises that the queue of an entity is a list of job numbers, first in first out. A call changes the
//! entity that it names and no other, and a mark stays. All queues are linked through one array, which has one place
//! for each job of the device. Each call takes the same time however long the queues are. Nothing but `new` takes
//! memory.
#![tactic(auto)]

mod entities;

pub use entities::Entities;
