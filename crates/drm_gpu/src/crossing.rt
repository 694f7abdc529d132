//! What of the shared device may cross threads.
ghost use denote.Param.Send.{IsSend, IsSync};
ghost use Rattle.drm_gpu.specs.contracts.gpu.Gpu as GpuRow;
ghost use Rattle.drm_gpu.specs.contracts.pass.Pass as PassRow;

use crate::gpu::Gpu;

impl Gpu {
    /// Tells a proof that threads may share the device by reference, and that each may be handed a pass of its own:
    /// Rust's `Sync` of a `Gpu` and `Send` of a `Pass`. A function that starts threads calls it first. It does nothing
    /// when it runs.
    pub fn crosses_threads(&self)
        ensures pass { IsSend (PassRow.the_field).row }
        ensures gpu { IsSync (GpuRow.the_field).row }
    {
        self.board.crosses_threads();
    }
}
