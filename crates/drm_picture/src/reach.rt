//! How far fences reach: behind which place none of the first ones ends.

ghost use Rattle.std.specs.List.{All};
ghost use Rattle.std.specs.Prelude.{◌≡◌, max, IfOk};
ghost use Rattle.drm_picture.specs.Latest.{EndsIn, end_of};
ghost use Rattle.drm_picture.specs.Reach.{AreReaches, is_within as is_within_by};

use crate::bars::Bar;
use crate::command::Step;
use std::alloc::{AllocError, Global};

// The later of a place and that where a bar ends.
fn later(run: &[Step], bar: &Bar, reach: usize) -> usize
    requires { EndsIn run.now bar.now }
    ensures { result ≡ max (end_of bar.now) reach }
{
    // Read, so that the proof knows how long the run can be.
    let _commands = run.len();
    (bar.from + bar.span).max(reach)
}

/// How far each of these fences and those before it reach: where the last of them ends. A search from the last fence on
/// may stop at the first one behind which nothing reaches.
pub(crate) fn reaches(alloc: Global, run: &[Step], fences: &[Bar]) -> Result<Vec<usize>, AllocError>
    requires { All (EndsIn run.now) fences.now }
    ensures { IfOk result (λ reaches. AreReaches fences.now reaches.items) }
{
    let mut reaches = Vec::new(alloc);
    let mut reach = 0;
    for bar in fences {
        reach = later(run, bar, reach);
        reaches.push(reach)?;
    }
    Ok(reaches)
}

/// Whether none of the bars up to this place ends behind that end.
pub(crate) fn is_within(reaches: &[usize], place: usize, end: usize) -> bool
    ensures { result ≡ is_within_by reaches.now place end }
{
    match reaches.get(place) {
        Some(reach) => *reach <= end,
        None => false,
    }
}
