//! Running a row.

ghost use Rattle.std.specs.Prelude.{◌≡◌, ◌-◌, IfOk, take};

use crate::answer::{Answer, Difference};
use crate::row::{Failing, Row, Turns};
use sour_commands::sourir;
use sour_ports::{MemorySink, MemorySource};
use std::alloc::{AllocError, Global};
use std::fmt;

/// What a row differs in, and in which of its runs.
#[derive(Clone, Copy, Debug, PartialEq, Eq)]
pub struct Differs {
    pub difference: Difference,
    /// The call that failed in that run, if the row is run with one after the other failing.
    pub failing: Option<u64>,
}

impl fmt::Display for Differs {
    fn fmt<W: fmt::Write>(&self, f: &mut fmt::Formatter<W>) -> fmt::Result {
        let difference = self.difference;
        match self.failing {
            Some(call) => write!(f, "{difference}, with call {call} failing"),
            None => write!(f, "{difference}"),
        }
    }
}

/// Runs a row, and says what it first differs in, if it does.
pub fn run_row(alloc: Global, row: &Row) -> Result<Option<Differs>, AllocError> {
    match &row.failing {
        Failing::Listed { source, sink } => {
            let difference = run(alloc, row, source.clone()?, sink.clone()?, &row.wanted)?;
            Ok(difference.map(|difference| Differs {
                difference,
                failing: None,
            }))
        }
        Failing::SourceInTurn(turns) => run_source_in_turn(alloc, row, *turns),
        Failing::SinkInTurn(turns) => run_sink_in_turn(alloc, row, *turns),
    }
}

/// Runs a row with one call of the source after the other failing.
fn run_source_in_turn(
    alloc: Global,
    row: &Row,
    turns: Turns,
) -> Result<Option<Differs>, AllocError> {
    for call in turns.first..=turns.last {
        let fails = vec![in alloc; call]?;
        if let Some(difference) = run(alloc, row, fails, Vec::new(alloc), &row.wanted)? {
            return Ok(Some(Differs {
                difference,
                failing: Some(call),
            }));
        }
    }
    Ok(None)
}

/// Runs a row with one call of the sink after the other failing.
fn run_sink_in_turn(alloc: Global, row: &Row, turns: Turns) -> Result<Option<Differs>, AllocError> {
    for call in turns.first..=turns.last {
        let fails = vec![in alloc; call]?;
        let wanted = before_call(alloc, &row.wanted, call)?;
        if let Some(difference) = run(alloc, row, Vec::new(alloc), fails, &wanted)? {
            return Ok(Some(Differs {
                difference,
                failing: Some(call),
            }));
        }
    }
    Ok(None)
}

/// The status of an answer, and those of its bytes that are written before this call, at a byte a
/// call.
fn before_call(alloc: Global, wanted: &Answer, call: u64) -> Result<Answer, AllocError>
    ensures status { IfOk result (λ answer. answer.status ≡ wanted.now.status) }
    ensures written { IfOk result (λ answer.
        answer.written.items ≡ take (call - 1) wanted.now.written.items) }
{
    let count = call.saturating_sub(1).min(wanted.written.len() as u64) as usize;
    Ok(Answer {
        status: wanted.status,
        written: Vec::from_slice(alloc, &wanted.written[..count])?,
    })
}

/// Runs the words of a row on its text, with these calls of its ports failing, and says how what it
/// gives differs from what is wanted, if it does.
fn run(
    alloc: Global,
    row: &Row,
    source_fails: Vec<u64>,
    sink_fails: Vec<u64>,
    wanted: &Answer,
) -> Result<Option<Difference>, AllocError> {
    let text = row.text.clone()?;
    let mut source = MemorySource::new(text, row.ports.source_pieces, source_fails);
    let mut sink = MemorySink::new(alloc, row.ports.room, row.ports.sink_pieces, sink_fails)?;
    let status = sourir(alloc, row.words.as_slice(), &mut source, &mut sink);
    Ok(wanted.difference(status, sink.taken()))
}
