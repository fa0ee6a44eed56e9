//! Texts as they are written.

use sour_raw::{
    RawExpr, RawFunction, RawInstr, RawJob, RawLine, RawLiteral, RawSimple, RawVersion,
};
use sour_reader::{TextFault, read_job};
use sour_syntax::{Label, Op};
use std::alloc::{AllocError, Global};

/// How many functions, jobs of a plan and inputs a text has.
fn counts(alloc: Global, text: &[u8]) -> Result<[usize; 3], TextFault> {
    let job = read_job(alloc, text)?;
    Ok([job.functions.len(), job.plan.len(), job.inputs.len()])
}

/// A fault of this number, on this line and at this column.
const fn fault(kind: u32, line: u64, column: u64) -> Result<[usize; 3], TextFault> {
    Err(TextFault::At { kind, line, column })
}

#[test]
fn reads_texts_or_tells_their_first_fault(rt: HostRuntime) {
    let table: [(&[u8], Result<[usize; 3], TextFault>); 10] = [
        (b"fun main()\nver base\nstop\nend", Ok([1, 0, 0])),
        (
            b"fun f(a, b)\nver v\nend\nfun g(c)\nver v\nend\n%plan\n",
            Ok([2, 0, 0]),
        ),
        (
            b"fun f()\nver v\nend\n%plan\njob f from text:\n% inputs\ninput\ninput 1 nil\n",
            Ok([1, 1, 2]),
        ),
        (b"", fault(3, 1, 1)),
        (b"fun main()\nend\n", fault(3, 2, 1)),
        (b"fun goto()\nver v\nend\n", fault(3, 1, 5)),
        (b"fun main()\nver v\nend\n%inputs\n%plan\n", fault(3, 5, 1)),
        (b"fun main(\x80)\n", fault(1, 1, 10)),
        (b"fun main()\nver v $\n", fault(2, 2, 7)),
        (
            b"fun main()\nver v\nprint 9223372036854775808\nend\n",
            fault(4, 3, 7),
        ),
    ];
    for (text, answer) in table {
        assert!(rt; counts(rt.alloc(), text) == answer, "of {text:?}");
    }
}

/// The first function of a job, its first version and the first line there.
fn first_line(job: &RawJob) -> Option<(&RawFunction, &RawVersion, &RawLine)> {
    let function = job.functions.get(0)?;
    let version = function.versions.get(0)?;
    Some((function, version, version.lines.get(0)?))
}

/// What a line assigns, where that is a number and a variable added: the variable that gets it, the other one, and the number.
fn added(line: &RawLine) -> Option<(&Label, &Label, i64)> {
    match &line.instr {
        RawInstr::Assign(
            x,
            RawExpr::Binary(Op::Add, RawSimple::Lit(RawLiteral::Number(n)), RawSimple::Name(y)),
        ) => Some((x, y, *n)),
        _ => None,
    }
}

/// Puts a name and a blank behind names.
fn put(names: &mut Vec<u8>, name: &Label) -> Result<(), AllocError> {
    names.extend_from_slice(name.as_bytes())?;
    Ok(names.push(b' ')?)
}

/// Puts the names of the first function, of its second parameter, of its first version, of the label there, and of what is
/// added and assigned there; gives the number that is added, and the lines of the function, the version and the line.
fn put_names(names: &mut Vec<u8>, job: &RawJob) -> Result<Option<(i64, [u64; 3])>, AllocError> {
    let Some((function, version, line)) = first_line(job) else {
        return Ok(None);
    };
    let Some(parameter) = function.parameters.get(1) else {
        return Ok(None);
    };
    let Some(label) = &line.label else {
        return Ok(None);
    };
    let Some((x, y, n)) = added(line) else {
        return Ok(None);
    };
    put(names, &function.name)?;
    put(names, parameter)?;
    put(names, &version.name)?;
    put(names, label)?;
    put(names, x)?;
    put(names, y)?;
    Ok(Some((n, [function.line, version.line, line.line])))
}

/// Whether these are the names, the number and the lines of the job that a text spells.
fn spells(
    alloc: Global,
    text: &str,
    expected: &str,
    number: i64,
    lines: [u64; 3],
) -> Result<bool, TextFault> {
    let job = read_job(alloc, text.as_bytes())?;
    let mut names = Vec::new(alloc);
    let found = put_names(&mut names, &job)?;
    Ok(found == Some((number, lines)) && names.as_slice() == expected.as_bytes())
}

#[test]
fn keeps_what_is_written(rt: HostRuntime) {
    for (text, names, number, lines) in [
        (
            "fun f(a, b)\nver v\nl: c <- -12 + d\nend\n",
            "f b v l c d ",
            -12,
            [1, 2, 3],
        ),
        (
            "fun b(b,a)#\n\nver b\n b : b<-7+b # c\nend",
            "b a b b b b ",
            7,
            [1, 3, 4],
        ),
    ] {
        assert!(rt;
            spells(rt.alloc(), text, names, number, lines) == Ok(true),
            "{text}"
        );
    }
}
