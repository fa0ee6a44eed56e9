//! A text as a whole.

ghost use Rattle.std.specs.Prelude.{◌≡◌, ◌↔◌, IfOk, IfErr};
ghost use Rattle.sour_raw.specs.declared.raw.RawJob.{RawJob};
ghost use Rattle.sour_raw.specs.Productions.{job_at, whole_at};
ghost use Rattle.sour_raw.specs.Reads.{Reads};
ghost use Rattle.sour_reader.specs.Given.{Gives, GivesAll};
ghost use Rattle.sour_reader.specs.Told.{IsFault};

use crate::fault::{TextFault, fault_of};
use crate::functions::functions;
use crate::sections::sections;
use crate::stop::Stop;
use crate::tokens::Rest;
use sour_lexer::tokens_of;
use sour_raw::{Kind, RawJob};
use std::alloc::Global;

/// A job, which may be followed by more.
#[tactic(auto, unfolding(sour_raw::specs::Productions::job_at))]
fn job<'a>(alloc: Global, tokens: Rest<'a>) -> Result<(RawJob, Rest<'a>), Stop<'a>>
    ensures { Gives result job_at tokens.now }
{
    let (functions, rest) = functions(alloc, tokens)?;
    let ((plan, inputs), rest) = sections(alloc, rest)?;
    Ok((
        RawJob {
            functions,
            plan,
            inputs,
        },
        rest,
    ))
}

/// The job that the tokens spell, all of them.
#[tactic(auto, unfolding(sour_raw::specs::Productions::whole_at))]
fn whole<'a>(alloc: Global, tokens: Rest<'a>) -> Result<RawJob, Stop<'a>>
    ensures { GivesAll result whole_at tokens.now }
{
    let (job, rest) = job(alloc, tokens)?;
    match rest {
        [] => Ok(job),
        [_, ..] => Err(Stop::At(Kind::Form, rest)),
    }
}

/// What a text says, or its first fault. One pass over the bytes, and one over the tokens. Nothing is looked at
/// after a fault.
pub fn read_job(alloc: Global, bytes: &[u8]) -> Result<RawJob, TextFault>
    // It reads as this job, and as no other.
    ensures found { IfOk result (λ job. (other : RawJob) → Reads bytes.now other ↔ (other ≡ job)) }
    // It has this fault first, and no job.
    ensures fault { IfErr result (λ fault. IsFault bytes.now fault) }
{
    let tokens = tokens_of(alloc, bytes)?;
    match whole(alloc, tokens.tokens.as_slice()) {
        Ok(job) => Ok(job),
        Err(stop) => Err(fault_of(stop, tokens.end_line, tokens.end_column)),
    }
}
