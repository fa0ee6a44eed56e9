//! Jobs, each from its text.

use sour_reader::read_job;
use sour_scope::{ScopeFault, check};
use sour_syntax::{Body, FunId, Job};
use std::alloc::Global;
use std::test::Fail;

/// What comes of the check of a text that reads as a job.
pub(crate) fn checked(alloc: Global, text: &[u8]) -> Result<Result<Job, ScopeFault>, Fail> {
    let raw = read_job(alloc, text)?;
    Ok(check(alloc, raw))
}

/// The job that a text means.
pub(crate) fn job_of(alloc: Global, text: &[u8]) -> Result<Job, Fail> {
    Ok(checked(alloc, text)??)
}

/// What is seen in the job that a text means.
pub(crate) fn seen<T: Drop, F: Fn(&Job) -> T>(
    alloc: Global,
    text: &[u8],
    look: F,
) -> Result<T, Fail>
    requires { F.IsAlwaysCallable look }
{
    let job = job_of(alloc, text)?;
    Ok(look(&job))
}

/// The body of the first version of a function.
pub(crate) fn body_of(job: &Job, function: u32) -> Option<&Body> {
    Some(&job.program.function(FunId(function))?.versions.get(0)?.body)
}
