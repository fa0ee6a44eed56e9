//! What a text means.

use crate::jobs::{body_of, seen};
use sour_syntax::{
    Code, Exit, Expr, FunId, Instr, Job, Literal, Op, Pass, PlanSimple, Simple, Start, VarId,
};
use std::test::Fail;

/// The lines behind the first `stop` are the example of the language reference for how variables are
/// numbered, but for the variable that waits, which must be there.
const TEXT: &[u8] = b"fun f(a)
ver base
stop
here: var b = a + 1
assume b < 9 else g.base.start [x = c], f.base.here b [a = b]
print d
stop
end
fun g(x)
ver base
start: var y = &main
return x
end
fun main()
ver base
stop
end
%plan
job g from active: inject @a / _0 x == 3; constprop; unreachable; inline more text
job f from text: move @b; hoist @c @d/1 nil == y; compose @e; prune; inline f active; inject @f true == &g
% inputs
input 1 true &g
input
";

/// The number of a variable of `f`.
fn number_of(job: &Job, name: &str) -> Option<usize> {
    body_of(job, 0)?.variables().place(name.as_bytes())
}

#[test]
fn numbers_variables_in_the_order_of_first_mention(rt: HostRuntime) -> Result<(), Fail> {
    for (name, number) in [
        ("a", Some(0)),
        ("b", Some(1)),
        ("c", Some(2)),
        ("d", Some(3)),
        ("x", None),
        ("g", None),
        ("start", None),
    ] {
        let found = seen(rt.alloc(), TEXT, |job| number_of(job, name))?;
        assert!(rt; found == number, "of {name}");
    }
    Ok(())
}

/// The variable that a line declares, and the expression of which it gets the value.
fn declared(job: &Job, function: u32, place: usize) -> Option<(VarId, Expr)> {
    match &body_of(job, function)?.lines().get(place)?.instr {
        Instr::Var(x, value) => Some((*x, *value)),
        _ => None,
    }
}

#[test]
fn numbers_what_an_expression_mentions(rt: HostRuntime) -> Result<(), Fail> {
    let one = Simple::Lit(Literal::Number(1));
    let main = Simple::Lit(Literal::Function(FunId(2)));
    for (function, place, expected) in [
        (
            0,
            1,
            Some((VarId(1), Expr::Binary(Op::Add, Simple::Var(VarId(0)), one))),
        ),
        (1, 0, Some((VarId(1), Expr::Plain(main)))),
        (1, 1, None),
    ] {
        let found = seen(rt.alloc(), TEXT, |job| declared(job, function, place))?;
        assert!(rt; found == expected, "line {place} of {function}");
    }
    Ok(())
}

/// The exit of the third line of `f`.
fn exit_of(job: &Job) -> Option<&Exit> {
    match &body_of(job, 0)?.lines().get(2)?.instr {
        Instr::Assume(_, exit) => Some(exit),
        _ => None,
    }
}

/// The code and the variables of a frame that an exit makes: the one that waits, and the first of the
/// map with its value.
type Landing = (Code, Option<VarId>, VarId, Expr);

/// A frame that an exit makes, of those of which the top one is the first.
fn landing(exit: &Exit, number: usize) -> Option<Landing> {
    if number == 0 {
        let bind = exit.map.get(0)?;
        return Some((exit.target.code, None, bind.name, bind.value));
    }
    let extra = exit.extras.get(number - 1)?;
    let bind = extra.map.get(0)?;
    Some((extra.target.code, Some(extra.result), bind.name, bind.value))
}

#[test]
fn numbers_an_exit(rt: HostRuntime) -> Result<(), Fail> {
    let (b, c) = (Simple::Var(VarId(1)), Simple::Var(VarId(2)));
    for (number, expected) in [
        (
            0,
            Some((Code::Text(FunId(1), 0), None, VarId(0), Expr::Plain(c))),
        ),
        (
            1,
            Some((
                Code::Text(FunId(0), 0),
                Some(VarId(1)),
                VarId(0),
                Expr::Plain(b),
            )),
        ),
        (2, None),
    ] {
        let found = seen(rt.alloc(), TEXT, |job| landing(exit_of(job)?, number))?;
        assert!(rt; found == expected, "frame {number}");
    }
    Ok(())
}

/// A value of an input.
fn value_of(job: &Job, input: usize, place: usize) -> Option<Literal> {
    job.inputs.get(input)?.get(place).copied()
}

#[test]
fn gives_the_inputs(rt: HostRuntime) -> Result<(), Fail> {
    for (input, place, expected) in [
        (0, 0, Some(Literal::Number(1))),
        (0, 1, Some(Literal::Truth(true))),
        (0, 2, Some(Literal::Function(FunId(1)))),
        (0, 3, None),
        (1, 0, None),
    ] {
        let found = seen(rt.alloc(), TEXT, |job| value_of(job, input, place))?;
        assert!(rt; found == expected, "value {place} of input {input}");
    }
    let count = seen(rt.alloc(), TEXT, |job| job.inputs.len())?;
    assert!(rt; count == 2);
    Ok(())
}

/// Whether a pass has this word and these labels.
fn is_of(pass: &Pass, word: &str, first: &str, second: &str) -> bool {
    let (found, labels) = match pass {
        Pass::Inject(anchor, _) => ("inject", (anchor.as_bytes(), &b""[..])),
        Pass::Constprop => ("constprop", (&b""[..], &b""[..])),
        Pass::Unreachable => ("unreachable", (&b""[..], &b""[..])),
        Pass::Inline(call, Start::Text) => ("inline text", (call.as_bytes(), &b""[..])),
        Pass::Inline(call, Start::Active) => ("inline active", (call.as_bytes(), &b""[..])),
        Pass::Move(anchor) => ("move", (anchor.as_bytes(), &b""[..])),
        Pass::Hoist(from, to, _) => ("hoist", (from.as_bytes(), to.as_bytes())),
        Pass::Compose(anchor) => ("compose", (anchor.as_bytes(), &b""[..])),
        Pass::Prune => ("prune", (&b""[..], &b""[..])),
    };
    found == word && labels == (first.as_bytes(), second.as_bytes())
}

/// A pass of a job.
fn pass_of(job: &Job, number: usize, place: usize) -> Option<&Pass> {
    job.plan.get(number)?.passes.get(place)
}

#[test]
fn gives_the_passes_of_a_plan(rt: HostRuntime) -> Result<(), Fail> {
    for (number, place, word, first, second) in [
        (0, 0, "inject", "a/_0", ""),
        (0, 1, "constprop", "", ""),
        (0, 2, "unreachable", "", ""),
        (0, 3, "inline text", "more", ""),
        (1, 0, "move", "b", ""),
        (1, 1, "hoist", "c", "d/1"),
        (1, 2, "compose", "e", ""),
        (1, 3, "prune", "", ""),
        (1, 4, "inline active", "f", ""),
    ] {
        let there = seen(rt.alloc(), TEXT, |job| {
            pass_of(job, number, place).is_some_and(|pass| is_of(pass, word, first, second))
        })?;
        assert!(rt; there, "pass {place} of job {number}");
    }
    Ok(())
}

/// Whether a side of a predicate is this name, or this literal where there is one.
fn is_side(side: &PlanSimple, name: &str, literal: Option<Literal>) -> bool {
    match side {
        PlanSimple::Lit(found) => Some(*found) == literal,
        PlanSimple::Name(found) => literal.is_none() && found.as_bytes() == name.as_bytes(),
    }
}

/// A side of the predicate of a pass.
fn side_of(pass: &Pass, is_left: bool) -> Option<&PlanSimple> {
    let predicate = match pass {
        Pass::Inject(_, predicate) | Pass::Hoist(_, _, predicate) => predicate,
        _ => return None,
    };
    Some(if is_left {
        &predicate.left
    } else {
        &predicate.right
    })
}

#[test]
fn gives_the_predicates_of_a_plan(rt: HostRuntime) -> Result<(), Fail> {
    for (number, place, is_left, name, literal) in [
        (0, 0, true, "x", None),
        (0, 0, false, "", Some(Literal::Number(3))),
        (1, 1, true, "", Some(Literal::Nil)),
        (1, 1, false, "y", None),
        (1, 5, true, "", Some(Literal::Truth(true))),
        (1, 5, false, "", Some(Literal::Function(FunId(1)))),
    ] {
        let there = seen(rt.alloc(), TEXT, |job| {
            pass_of(job, number, place)
                .and_then(|pass| side_of(pass, is_left))
                .is_some_and(|side| is_side(side, name, literal))
        })?;
        assert!(rt; there, "pass {place} of job {number}");
    }
    Ok(())
}

/// What a job of a plan starts from: its function, and its version or the active one; and how many passes it has.
fn start_of(job: &Job, number: usize) -> Option<(FunId, Start, usize)> {
    let planned = job.plan.get(number)?;
    Some((planned.function, planned.start, planned.passes.len()))
}

#[test]
fn gives_the_jobs_of_a_plan(rt: HostRuntime) -> Result<(), Fail> {
    for (number, expected) in [
        (0, Some((FunId(1), Start::Active, 4))),
        (1, Some((FunId(0), Start::Text, 6))),
        (2, None),
    ] {
        let found = seen(rt.alloc(), TEXT, |job| start_of(job, number))?;
        assert!(rt; found == expected, "job {number}");
    }
    Ok(())
}
