//! Submissions that are run and read back.
use crate::calls::{closed, device, each_ran, filling, is_busy, is_status, reads, runs, submitted};

// A submission, whose buffer is read back before and after it has run.
#[test]
fn a_job_is_submitted_and_read_back(rt: HostRuntime) {
    let alloc = rt.alloc();
    let job = filling(alloc, 0, 0, 5, &rt);
    let (gpu, pass) = device(alloc, 8, &rt);
    let pass = submitted(&gpu, pass, job, 0, &rt, alloc);
    let mut pass = is_busy(&gpu, pass, 0, 0, &rt, alloc);
    runs(&gpu, &mut pass, 0, 0, (0, 1), &rt);
    let mut pass = reads(&gpu, pass, 0, 5, &rt, alloc);
    is_status(&gpu, &mut pass, 0, 1, &rt);
    let closed = closed(gpu, pass, &rt, alloc);
    each_ran(closed.records.as_slice(), 1, &rt);
}
