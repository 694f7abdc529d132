//! Laws over the definitions, on functions that do nothing.
ghost use Rattle.drm_workers.specs.Numbers.{ArmingsRise, ArmedJobsStay, JoinedArmings, OnlyArmingsArm};

/// The numbers that a pass has armed rise, and are those of records of the device that it saw last.
pub fn armings_rise()
    ensures { ArmingsRise }
{}

/// A pass that was joined has armed what both have armed.
pub fn joined_armings()
    ensures { JoinedArmings }
{}

/// The jobs of numbers are those of the same numbers later.
pub fn armed_jobs_stay()
    ensures { ArmedJobsStay }
{}

/// An arming that is not refused arms the number that it answers. An arming that is refused arms none, nor does a call
/// by which a pass drives the device.
pub fn only_armings_arm()
    ensures { OnlyArmingsArm }
{}
