ghost use Rattle.std.specs.Prelude.{◌≡◌};
ghost use Rattle.drm_types.specs.Usages.{wanted_usage, added_usage, place_of, is_as_strong};

/// What a job does with a buffer that it declares. The usage that follows is in `wanted` and `adds`.
#[derive(Clone, Copy, Debug, PartialEq, Eq)]
pub enum Access {
    /// Its packets may read the buffer. It waits for writers and for moves (`DMA_RESV_USAGE_READ`).
    Read,
    /// Its packets may read and write the buffer. It waits for readers, writers and moves (`DMA_RESV_USAGE_WRITE`).
    Write,
    /// Its packets do not touch the buffer: the buffer is only kept where it is until the job has ended, as a driver
    /// does with buffers that have to stay resident (`DMA_RESV_USAGE_BOOKKEEP`). It waits for moves alone, and moves
    /// alone wait for it: no implicit sync.
    Hold,
    /// Its packets may read and write the buffer, as memory management does when it clears, evicts or moves the buffer
    /// (`DMA_RESV_USAGE_KERNEL`). It waits for everybody, and everybody for it. Only an entity of KERNEL priority
    /// declares it.
    Move,
}

/// What a fence stands for at a buffer (`enum dma_resv_usage`), strongest first. Asking for a usage gives the
/// fences of that usage and of all stronger ones (`dma_resv_for_each_fence`).
#[derive(Clone, Copy, Debug, PartialEq, Eq)]
pub enum Usage {
    /// Memory management: a move (`Access::Move`). Everybody waits for it.
    Kernel,
    /// An implicit writer (`Access::Write`). Readers, writers and memory management wait for it.
    Write,
    /// An implicit reader (`Access::Read`). Writers and memory management wait for it.
    Read,
    /// No implicit sync (`Access::Hold`). Only memory management waits for it.
    Bookkeep,
}

/// Returns the weakest usage that a job with this access waits for (`dma_resv_usage_rw`).
///
/// It is right that the names cross: a new reader waits for the writers, and a new writer for the readers too, which
/// asking for READ gives since WRITE is the stronger. So a hold asks for KERNEL, the moves alone, and a move asks for
/// BOOKKEEP, all fences of the buffer.
pub fn wanted(access: Access) -> Usage
    ensures { result ≡ wanted_usage access }
{
    match access {
        Access::Read => Usage::Write,
        Access::Write => Usage::Read,
        Access::Hold => Usage::Kernel,
        Access::Move => Usage::Bookkeep,
    }
}

/// Returns the usage that a job with this access adds (`dma_resv_add_fence`).
pub fn adds(access: Access) -> Usage
    ensures { result ≡ added_usage access }
{
    match access {
        Access::Read => Usage::Read,
        Access::Write => Usage::Write,
        Access::Hold => Usage::Bookkeep,
        Access::Move => Usage::Kernel,
    }
}

impl Usage {
    // The place of the usage in their order, strongest first.
    fn place(self) -> u32
        ensures { result ≡ place_of self }
    {
        match self {
            Usage::Kernel => 0,
            Usage::Write => 1,
            Usage::Read => 2,
            Usage::Bookkeep => 3,
        }
    }

    /// Returns whether this usage is at least as strong as the other.
    pub fn is_as_strong_as(self, other: Usage) -> bool
        ensures { result ≡ is_as_strong self other }
    {
        self.place() <= other.place()
    }
}
