use drm_buffer::Store;
use drm_state::JobRecord;
use drm_types::{BadSpec, DeviceSpec, Sequence};

/// Why a device was not built.
#[derive(Clone, Copy, Debug, PartialEq, Eq)]
pub enum BuildError {
    /// The description is out of its limits.
    Spec(BadSpec),
    /// Memory was refused.
    Memory,
}

/// What a device leaves when it is taken apart.
#[derive(Drop)]
pub struct Closed {
    /// The description that the device was built from.
    pub spec: DeviceSpec,
    /// The records of all armed jobs, in arming order.
    pub records: Sequence<JobRecord>,
    /// The last bytes of each buffer.
    pub buffers: Store,
}
