//! Laws over the definitions, on functions that do nothing.
ghost use Rattle.drm_state.specs.Chosen.{ChoiceIsLeast};
ghost use Rattle.drm_state.specs.Collected.{CollectedCovers};
ghost use Rattle.drm_state.specs.Events.{DevicesStaySteady};
ghost use Rattle.drm_state.specs.Readers.{BytesStay};
ghost use Rattle.drm_state.specs.Writers.{ReadsWaitForWriters};

use drm_job::jobs_are_the_sound_drafts;

/// The job that a ring takes next is, of all that may begin on it, the one whose entity has the highest priority, and
/// of these that of the least number. There is none exactly if none may begin.
pub fn choice_is_least()
    ensures { ChoiceIsLeast }
{}

/// A device opens steady, and each event that is not refused leads from a steady device to a steady one that the old
/// one grew to; reservations that fitted its jobs go on to fit them.
pub fn devices_stay_steady()
    ensures { DevicesStaySteady }
{}

/// A read of a buffer has nothing to wait for exactly if every armed job that writes the buffer has its outcome.
pub fn reads_wait_for_writers()
    ensures { ReadsWaitForWriters }
{}

/// What a reader of a buffer copied stays so while it holds the buffer, whatever the rings do meanwhile: where one and
/// the same reservation fits a device and the device that it has grown to, no job that uses the buffer was armed
/// between; and where every armed job that writes the buffer had ended, they have ended still, and its bytes are the
/// same. A `dma_resv` is held by its `ww_mutex`, so that nobody adds a writer to it (`dma_resv_assert_held`).
pub fn bytes_stay()
    ensures { BytesStay }
{}

/// What is collected for a job from reservations that are held covers, where every buffer that the job declares is
/// held: in any lawful device that these reservations fit, each armed job that the new one has to wait for has a
/// dependency.
pub fn collected_covers()
    ensures { CollectedCovers }
{
    jobs_are_the_sound_drafts();
}
