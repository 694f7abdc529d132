/// How a job ended, which its finished fence tells for good.
#[derive(Clone, Copy, Debug, PartialEq, Eq)]
pub enum Outcome {
    /// All its packets ran. Status 1.
    Good,
    /// It was skipped, since its entity is guilty of a hang. Status -125 (`-ECANCELED`).
    Cancelled,
    /// It was reaped from a stopped entity before it ran anything. Status -3 (`-ESRCH`).
    Stopped,
}
