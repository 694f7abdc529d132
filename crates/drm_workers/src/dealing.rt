//! How jobs are dealt to submitters.
ghost use Rattle.std.specs.Prelude.{◌≡◌, ◌<◌, IfOk, All, [], length};
ghost use Rattle.drm_workers.specs.Shares.{AreShares};

use drm_job::Job;
use std::alloc::{AllocError, Global};

// As many empty lists, each with room for its share of so many jobs.
fn empty_shares(alloc: Global, count: usize, submitters: usize) -> Result<Vec<Vec<Job>>, AllocError>
    requires { 0 < submitters }
    ensures count { IfOk result (λ shares. length shares.items ≡ submitters) }
    ensures empty { IfOk result (λ shares. All (λ share. share.items ≡ []) shares.items) }
{
    let each = count / submitters;
    let more = count % submitters;
    let mut shares = Vec::with_capacity(alloc, submitters)?;
    for submitter in 0..submitters {
        let room = if submitter < more { each + 1 } else { each };
        shares.push_reserved(Vec::with_capacity(alloc, room)?);
    }
    Ok(shares)
}

/// Deals jobs to submitters in turn: the job at place k goes to submitter k mod `submitters`, and each gets its jobs in
/// their order. A list has room for its share before the first job is dealt.
///
/// # Errors
///
/// It fails if there is no memory for the lists. The jobs are dropped.
pub fn deal(alloc: Global, jobs: Vec<Job>, submitters: u32) -> Result<Vec<Vec<Job>>, AllocError>
    requires { 0 < submitters }
    ensures shares { IfOk result (λ shares. AreShares (λ share. share.items) submitters jobs.items shares.items) }
{
    let submitters = submitters as usize;
    let mut shares = empty_shares(alloc, jobs.len(), submitters)?;
    let mut place = 0usize;
    for job in jobs {
        shares[place % submitters].push(job)?;
        place += 1;
    }
    Ok(shares)
}
