//! The jobs that a run arms.

ghost use Rattle.std.specs.List.{cons_option};
ghost use Rattle.std.specs.Option.{option_copied};
ghost use Rattle.std.specs.Prelude.{◌≡◌, ◌++◌, [], IfOk, OnOk};
ghost use Rattle.drm_picture.specs.Armed.{request_by, requests_of};
ghost use Rattle.drm_picture.specs.Bars.{armed_job as armed_job_of};

use crate::bars::armed_job;
use crate::command::{Request, Step, run_before};
use drm_state::Answer;
use std::alloc::{AllocError, Global};

// The job that a step behind these arms, if it arms one.
fn armed_request<'a>(before: &'a [Step], step: &'a Step) -> Option<&'a Request>
    ensures { option_copied result ≡ request_by (armed_job_of before.now step.now) step.now.answer }
{
    match &step.answer {
        Answer::Armed { .. } => armed_job(before, step),
        _ => None,
    }
}

// Adds a copy of a job, if there is one.
fn push_request(
    alloc: Global,
    requests: &mut Vec<Request>,
    job: Option<&Request>,
) -> Result<(), AllocError>
    ensures { OnOk result (requests.new.items ≡ requests.old.items ++ cons_option (option_copied job.entry) []) }
{
    match job {
        Some(request) => {
            let copy = request.copied(alloc)?;
            requests.push(copy)?;
            Ok(())
        }
        None => Ok(()),
    }
}

/// The jobs that a run arms, in the order of their fences.
pub(crate) fn requests(alloc: Global, run: &[Step]) -> Result<Vec<Request>, AllocError>
    ensures { IfOk result (λ requests. requests.items ≡ requests_of run.now) }
{
    let mut requests = Vec::new(alloc);
    for (place, step) in run.iter().enumerate() {
        push_request(
            alloc,
            &mut requests,
            armed_request(run_before(run, place), step),
        )?;
    }
    Ok(requests)
}
