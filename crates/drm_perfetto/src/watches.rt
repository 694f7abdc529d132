//! What is known of the first job in the queue of each entity.

ghost use Rattle.std.specs.Prelude.{◌≡◌, IfOk};
ghost use Rattle.drm_state.specs.State.{DeviceState};
ghost use Rattle.drm_reason.specs.Awaited.{awaited_by};
ghost use Rattle.drm_reason.specs.Reasons.{reason_of};
ghost use Rattle.drm_reason.specs.Watching.{Knows};
ghost use Rattle.drm_perfetto.specs.Watches.{AreKnown};

use drm_reason::{Retired, Watch};
use drm_sched::Device;
use drm_types::{EntityId, FenceId};
use std::alloc::{AllocError, Global};

/// A watch of the first job in the queue of each entity, and how many of the first jobs have ended. A command then
/// costs no look at an earlier job that was looked at before, or that has ended.
#[derive(Drop)]
pub struct Watches {
    /// The watches. That of another job says nothing of the one that is now the first.
    pub heads: Vec<Watch>,
    /// The jobs that have ended.
    pub retired: Retired,
}

impl Watches {
    /// Makes watches for so many entities, which know nothing.
    pub(crate) fn of(alloc: Global, entities: u32) -> Result<Watches, AllocError>
        ensures { IfOk result (λ watches. (device : DeviceState) → AreKnown device watches) }
    {
        let mut heads = Vec::new(alloc);
        for _ in 0..entities {
            heads.push(Watch::of(0))?;
        }
        Ok(Watches {
            heads,
            retired: Retired::none(),
        })
    }

    /// Goes on behind the jobs that have ended.
    pub(crate) fn advance(&mut self, device: &Device)
        requires { AreKnown device.now.state self.old }
        ensures { AreKnown device.now.state self.new }
    {
        self.retired.advance(device);
    }

    // Returns the watch of this job, which is the first in the queue of the entity.
    fn watch(&self, device: &Device, entity: EntityId, fence: FenceId) -> Watch
        requires { AreKnown device.now.state self.now }
        ensures known { Knows device.now.state result }
        ensures fence { result.fence ≡ fence }
    {
        if let Some(watch) = self.heads.get(entity as usize) {
            if watch.fence == fence {
                return *watch;
            }
        }
        self.retired.watch(device, fence)
    }

    // Keeps the watch of an entity.
    fn keep(&mut self, entity: EntityId, watch: Watch)
        ensures { (device : DeviceState) → AreKnown device self.old → Knows device watch → AreKnown device self.new }
    {
        let place = entity as usize;
        if place < self.heads.len() {
            self.heads[place] = watch;
        }
    }

    /// Returns the fence that this job, which is the first in the queue of the entity, waits for.
    pub(crate) fn awaited(
        &mut self,
        device: &Device,
        entity: EntityId,
        fence: FenceId,
    ) -> Option<FenceId>
        requires { AreKnown device.now.state self.old }
        ensures awaited { result ≡ awaited_by (reason_of device.now.state fence) }
        ensures known { AreKnown device.now.state self.new }
    {
        let mut watch = self.watch(device, entity, fence);
        let awaited = watch.awaited(device);
        self.keep(entity, watch);
        awaited
    }
}
