//! The commands, and what they write.

use crate::jobs::seen;
use sour_commands::{Fault, command_check, command_run, command_show, sourir, write_fault};
use sour_machine::{End, Report};
use sour_ports::{Failed, MemorySink, MemorySource};
use sour_report::write_block;
use sour_syntax::{ArrayId, FunId, List, Literal, Program, Trap, Value};
use std::alloc::{AllocError, Global};
use std::test::Fail;

/// A sink with ample room that never fails.
fn ample_sink(alloc: Global) -> Result<MemorySink, AllocError> {
    MemorySink::new(alloc, 4096, 10, Vec::new(alloc))
}

/// What comes of writing the block of a run with this end and these cells, which wrote two lines for
/// input 12, and what was written.
fn block_of(
    alloc: Global,
    program: &Program,
    end: End,
    cells: u64,
) -> Result<(Result<(), Failed>, Vec<u8>), AllocError> {
    let mut report = Report::wanting(alloc, 12);
    report.output = List::from_vec(b"7\ntrue\n".to_vec(alloc)?);
    report.end = end;
    report.cells = cells;
    let mut sink = ample_sink(alloc)?;
    let answer = write_block(&mut sink, program, &report);
    Ok((answer, sink.taken().to_vec(alloc)?))
}

#[test]
fn writes_the_block_of_a_report(rt: HostRuntime) -> Result<(), Fail> {
    let text = b"fun main()\nver base\nstop\nend\n";
    for (end, cells, block) in [
        (
            End::Returned(Value::Plain(Literal::Number(-70))),
            0,
            "input 12\n7\ntrue\nend -70\n",
        ),
        (
            End::Returned(Value::Plain(Literal::Function(FunId(0)))),
            0,
            "input 12\n7\ntrue\nend &main\n",
        ),
        (
            End::Returned(Value::Array(ArrayId(5))),
            12,
            "input 12\n7\ntrue\nend array(12)\n",
        ),
        (End::Stopped, 0, "input 12\n7\ntrue\nstopped\n"),
        (
            End::Trapped(Trap::ArgCount),
            0,
            "input 12\n7\ntrue\ntrap 6\n",
        ),
        (End::Cut, 0, "input 12\n7\ntrue\ncut\n"),
        (End::Memory, 0, "input 12\n7\ntrue\nmemory\n"),
    ] {
        let alloc = rt.alloc();
        let found = seen(alloc, text, |job| block_of(alloc, &job.program, end, cells))?;
        let (answer, written) = found?;
        assert!(rt;
            answer == Ok(()) && written.as_slice() == block.as_bytes(),
            "{end:?}"
        );
    }
    Ok(())
}

/// What is written for a fault, and the status.
fn line_of(alloc: Global, fault: Fault) -> Result<(Vec<u8>, u8), AllocError> {
    let mut sink = ample_sink(alloc)?;
    let status = write_fault(&mut sink, fault);
    Ok((sink.taken().to_vec(alloc)?, status))
}

#[test]
fn writes_the_line_of_a_fault(rt: HostRuntime) -> Result<(), Fail> {
    for (fault, line, status) in [
        (Fault::Words, "fault words\n", 2),
        (Fault::Read, "fault read\n", 4),
        (Fault::TextTooLong, "fault text 5 line 0 column 0\n", 3),
        (
            Fault::Text {
                kind: 3,
                line: 1,
                column: 11,
            },
            "fault text 3 line 1 column 11\n",
            3,
        ),
        (
            Fault::Scope { kind: 5, line: 70 },
            "fault scope 5 line 70\n",
            3,
        ),
        (Fault::Memory, "fault memory\n", 6),
    ] {
        let (written, given) = line_of(rt.alloc(), fault)?;
        assert!(rt;
            given == status && written.as_slice() == line.as_bytes(),
            "{fault:?}"
        );
    }
    Ok(())
}

/// Adds up the numbers from the input down to 1. On 3 it takes 8 turns.
const SUM: &[u8] = b"fun main()
ver base # adds up
read n
var s=0
loop: branch n == 0 done more
more: s <- s + n
n <- n - 1
goto loop
done: return s
end
%inputs
input 3
";

/// A source of that text.
fn source(alloc: Global) -> Result<MemorySource, AllocError> {
    Ok(MemorySource::new(SUM.to_vec(alloc)?, 10, Vec::new(alloc)))
}

/// What is written for that text at a budget, and the status.
fn run(alloc: Global, budget: u8) -> Result<(Vec<u8>, u8), AllocError> {
    let (mut source, mut sink) = (source(alloc)?, ample_sink(alloc)?);
    let status = command_run(alloc, &mut source, &mut sink, u64::from(budget));
    Ok((sink.taken().to_vec(alloc)?, status))
}

#[test]
fn runs_a_text_at_a_budget(rt: HostRuntime) -> Result<(), Fail> {
    for (budget, block, status) in [(8, "input 1\nend 6\n", 0), (7, "input 1\ncut\n", 7)] {
        let (written, given) = run(rt.alloc(), budget)?;
        assert!(rt;
            given == status && written.as_slice() == block.as_bytes(),
            "at {budget}"
        );
    }
    Ok(())
}

/// The canonical text of that program.
const CANONICAL_SUM: &[u8] = b"fun main()
ver base
read n
var s = 0
loop: branch n == 0 done more
more: s <- s + n
n <- n - 1
goto loop
done: return s
end
";

#[test]
fn counts_what_a_text_has(rt: HostRuntime) -> Result<(), Fail> {
    let (mut source, mut sink) = (source(rt.alloc())?, ample_sink(rt.alloc())?);
    let status = command_check(rt.alloc(), &mut source, &mut sink);
    assert!(rt;
        status == 0 && sink.taken() == b"accepted functions 1 jobs 0 inputs 1\n".as_slice()
    );
    Ok(())
}

#[test]
fn shows_the_program_of_a_text(rt: HostRuntime) -> Result<(), Fail> {
    let (mut source, mut sink) = (source(rt.alloc())?, ample_sink(rt.alloc())?);
    let status = command_show(rt.alloc(), &mut source, &mut sink);
    assert!(rt; status == 0 && sink.taken() == CANONICAL_SUM);
    Ok(())
}

/// What is written for these words and that text, and the status.
fn answered(alloc: Global, words: &[&str]) -> Result<(Vec<u8>, u8), AllocError> {
    let mut strings = Vec::new(alloc);
    for word in words {
        strings.push(String::from_str(alloc, word)?)?;
    }
    let (mut source, mut sink) = (source(alloc)?, ample_sink(alloc)?);
    let status = sourir(alloc, strings.as_slice(), &mut source, &mut sink);
    Ok((sink.taken().to_vec(alloc)?, status))
}

#[test]
fn does_what_the_words_ask_for(rt: HostRuntime) -> Result<(), Fail> {
    for (words, answer, status) in [
        (&["run", "--budget", "8"][..], "input 1\nend 6\n", 0),
        (&["run", "--budget", "7"], "input 1\ncut\n", 7),
        (&["run", "--budget", "0"], "fault words\n", 2),
        (&["run"], "input 1\nend 6\n", 0),
        (&["check"], "accepted functions 1 jobs 0 inputs 1\n", 0),
    ] {
        let (written, given) = answered(rt.alloc(), words)?;
        assert!(rt;
            given == status && written.as_slice() == answer.as_bytes(),
            "{words:?}"
        );
    }
    Ok(())
}
