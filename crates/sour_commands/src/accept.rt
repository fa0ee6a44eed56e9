ghost use Rattle.std.specs.Prelude.{IfOk, IfErr};
ghost use Rattle.sour_commands.specs.Accepted.{job_view, Accepts};
ghost use Rattle.sour_commands.specs.Due.{OfText, IsDueFault};
ghost use Rattle.sour_commands.specs.Ports.{source_moves};

use crate::fault::Fault;
use sour_ports::{ReadStop, Source, read_all};
use sour_reader::{TextFault, read_job};
use sour_scope::{ScopeFault, check};
use sour_syntax::Job;
use std::alloc::Global;

/// The most bytes of a text.
const TEXT_LIMIT: usize = 1_048_576;

/// Reads the source to its end, and gives the job that its text means.
pub fn accept<S: Source>(alloc: Global, source: &mut S) -> Result<Job, Fault>
    ensures job { IfOk result (λ job. OfText (source_moves S.left S.faults source.old source.new)
        (λ bytes. Accepts bytes (job_view job))) }
    ensures fault { IfErr result (λ fault.
        IsDueFault (source_moves S.left S.faults source.old source.new) fault) }
{
    let bytes = match read_all(alloc, source, TEXT_LIMIT) {
        Ok(bytes) => bytes,
        Err(ReadStop::Fault) => return Err(Fault::Read),
        Err(ReadStop::TooLong) => return Err(Fault::TextTooLong),
        Err(ReadStop::Memory) => return Err(Fault::Memory),
    };
    let raw = match read_job(alloc, bytes.as_slice()) {
        Ok(raw) => raw,
        Err(TextFault::At { kind, line, column }) => {
            return Err(Fault::Text { kind, line, column });
        }
        Err(TextFault::Memory) => return Err(Fault::Memory),
    };
    match check(alloc, raw) {
        Ok(job) => Ok(job),
        Err(ScopeFault::At { kind, line, .. }) => Err(Fault::Scope { kind, line }),
        Err(ScopeFault::Memory) => Err(Fault::Memory),
    }
}
