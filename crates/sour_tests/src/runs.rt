//! Runs, and the reports on them.

use crate::jobs::seen;
use sour_machine::{Advance, End, Report, Run};
use sour_syntax::{ArrayId, Job, Literal, Trap, Value};
use std::alloc::{AllocError, Global};
use std::test::Fail;

/// Reads a number, prints one more, and returns what it reads next.
const READS: &str =
    "fun main()\nver base\nread x\nx <- x + 1\nprint x\nread x\nreturn x\nend\n%inputs\ninput 41";

/// Reads a truth value. Where it is false it returns an array `[nil, nil]`. Where it is true it calls itself,
/// writes 5 into the first cell of what that returns, prints it and this cell, and returns it.
const CALLS: &str = "fun main()
ver base
read x
branch x called made
called: call y = &main()
y[0] <- 5
print y
print y[0]
return y
made: array y[2]
return y
end
%inputs
input true false";

/// Prints 7 for ever.
const LOOPS: &str = "fun main()\nver base\nagain: print 7\ngoto again\nend\n%inputs\ninput";

/// Prints 7, assumes what it reads, and stops; where that is false it begins again.
const ASSUMES: &str = "fun main()
ver base
start: print 7
read x
assume x else main.base.start []
stop
end
%inputs
input";

/// What a report counts: the input, the values read, turns, calls and cells.
fn counts(report: &Report) -> [u64; 5] {
    [
        report.input,
        report.read,
        report.turns,
        report.calls,
        report.cells,
    ]
}

/// How a run went on that was given turns twice: the turns that it took at first, the last answer, its end,
/// what the report counts, and whether this is its output.
type Course = (u64, Advance, End, [u64; 5], bool);

/// How a run of the first input of a job goes on that is given turns twice.
fn course_in(
    alloc: Global,
    job: &Job,
    turns: (u8, u8),
    output: &str,
) -> Result<Option<Course>, AllocError> {
    let Some(input) = job.inputs.get(0) else {
        return Ok(None);
    };
    let mut run = Run::start(alloc, job.program.clone()?, input.as_slice())?;
    run.advance_text(u64::from(turns.0));
    let before = run.turns();
    let answer = run.advance_text(u64::from(turns.1));
    let report = run.finish(3);
    let is_written = report.output.as_slice() == output.as_bytes();
    Ok(Some((before, answer, report.end, counts(&report), is_written)))
}

/// The same of a text whose last line goes on with some values.
fn course(
    alloc: Global,
    text: &str,
    values: &str,
    turns: (u8, u8),
    output: &str,
) -> Result<Option<Course>, Fail> {
    let whole = format!(in alloc; "{text}{values}")?;
    Ok(seen(
        alloc,
        whole.as_bytes(),
        |job| course_in(alloc, job, turns, output),
    )??)
}

#[test]
fn reports_how_a_run_went_on(rt: HostRuntime) -> Result<(), Fail> {
    let truth = Value::Plain(Literal::Truth(true));
    let array = Value::Array(ArrayId(0));
    for (text, values, turns, output, before, answer, end, counted) in [
        (
            READS,
            " true",
            (0, 1),
            "42\n",
            0,
            Advance::Ended,
            End::Returned(truth),
            [3, 2, 1, 1, 0],
        ),
        (
            READS,
            "",
            (0, 1),
            "42\n",
            0,
            Advance::Ended,
            End::Trapped(Trap::InputEnd),
            [3, 1, 0, 1, 0],
        ),
        (
            CALLS,
            "",
            (2, 3),
            "array(2)\n5\n",
            2,
            Advance::Ended,
            End::Returned(array),
            [3, 2, 5, 2, 2],
        ),
        (
            CALLS,
            "",
            (3, 1),
            "array(2)\n5\n",
            3,
            Advance::MoreTurns,
            End::Cut,
            [3, 2, 4, 2, 0],
        ),
        (
            LOOPS,
            "",
            (0, 2),
            "7\n7\n7\n",
            0,
            Advance::MoreTurns,
            End::Cut,
            [3, 0, 2, 1, 0],
        ),
        (
            ASSUMES,
            " true",
            (0, 0),
            "7\n",
            0,
            Advance::Ended,
            End::Stopped,
            [3, 1, 0, 1, 0],
        ),
        (
            ASSUMES,
            " nil",
            (0, 0),
            "7\n",
            0,
            Advance::Ended,
            End::Trapped(Trap::BadType),
            [3, 1, 0, 1, 0],
        ),
        (
            ASSUMES,
            " false",
            (0, 0),
            "7\n",
            0,
            Advance::MoreTurns,
            End::Cut,
            [3, 1, 0, 1, 0],
        ),
    ] {
        let found = course(rt.alloc(), text, values, turns, output)?;
        assert!(rt;
            found == Some((before, answer, end, counted, true)),
            "{text}{values}"
        );
    }
    Ok(())
}

#[test]
fn reports_an_input_that_found_no_memory(rt: HostRuntime) {
    let report = Report::wanting(rt.alloc(), 2);
    assert!(rt; report.end == End::Memory && report.output.len() == 0);
    assert!(rt; counts(&report) == [2, 0, 0, 0, 0]);
}
