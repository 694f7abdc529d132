//! What is taken for the time of a command.

ghost use Rattle.std.specs.Prelude.{◌≡◌, max};
ghost use Rattle.std.specs.Option.{option_map_or};
ghost use Rattle.drm_perfetto.specs.Traces.{moment_of, time_of};

use drm_core::Event;
use drm_job::Draft;
use drm_types::Moment;

/// What is taken for the time of a command.
#[derive(Clone, Copy, Debug, PartialEq, Eq)]
pub enum Clock {
    /// Its number, counted from 0.
    Command,
    /// The greatest moment that it or a command before it told. Moments need not rise, but the time of a trace does not
    /// fall.
    Moment,
}

// The moment that an event tells.
fn moment(event: &Event<Draft>) -> Option<Moment>
    ensures { result ≡ moment_of event.now }
{
    match event {
        Event::Pick { now, .. } => Some(*now),
        Event::Finish { now, .. } => Some(*now),
        Event::Timeout { now, .. } => Some(*now),
        _ => None,
    }
}

// The greater of a time and a moment, if there is one.
fn latest(last: u64, moment: Option<Moment>) -> u64
    ensures { result ≡ option_map_or (λ now. max last now) moment last }
{
    match moment {
        Some(now) => last.max(now),
        None => last,
    }
}

impl Clock {
    /// The time of a command of this number, behind one of this time.
    pub(crate) fn time(self, command: u64, last: u64, event: &Event<Draft>) -> u64
        ensures { result ≡ time_of self command last event.now }
    {
        match self {
            Clock::Command => command,
            Clock::Moment => latest(last, moment(event)),
        }
    }
}
