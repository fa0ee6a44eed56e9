//! Leaving a frame of the language.

ghost use Rattle.std.specs.Prelude.{◌≡◌, [], ◌∷◌, true, IfOk, IsTrue};
ghost use Rattle.sour_semantics.specs.Validity.{scope_of};
ghost use Rattle.sour_tests.specs.MainExits.{main_start, main_target, main_extra, main_exit, HasStart, IsOfTwo};

use crate::jobs::job_of;
use sour_machine::{Env, Frame, FrameCode, Heap, LeaveStop, leave};
use sour_syntax::{
    Bind, Code, Exit, Expr, Extra, FunId, Label, List, Literal, Op, Program, Simple, Target, Trap,
    Value, VarId,
};
use std::alloc::{AllocError, Global};
use std::test::Fail;

const X: VarId = VarId(0);

const Y: VarId = VarId(1);

/// A program of `main`, with the line `a` and two variables.
const TEXT: &[u8] = b"fun main()
ver base
a: var x = 3
b: var y = 4
stop
end
";

fn label_of(alloc: Global, name: u8) -> Result<Label, AllocError>
    ensures { IfOk result (λ label. label ≡ name ∷ []) }
{
    Ok(Label::from_bytes(vec![in alloc; name]?))
}

/// Whether the first version of the first function has the line `a`, and two variables.
fn has_start(program: &Program, start: &Label) -> bool
    requires { start.now ≡ main_start }
    ensures { IsTrue result → HasStart program.now.functions }
{
    let Some(function) = program.function(FunId(0)) else {
        return false;
    };
    let Some(version) = function.versions.get(0) else {
        return false;
    };
    let Some(_place) = version.body.place(start) else {
        return false;
    };
    version.body.variables().len() == 2
}

fn start(alloc: Global) -> Result<Target, AllocError>
    ensures { IfOk result (λ target. target ≡ main_target) }
{
    Ok(Target {
        code: Code::Text(FunId(0), 0),
        label: label_of(alloc, b'a')?,
    })
}

fn bind(alloc: Global, name: VarId, value: Expr) -> Result<List<Bind>, AllocError>
    ensures { IfOk result (λ binds. binds ≡ record { name = name; value = value } ∷ []) }
{
    Ok(List::from_vec(vec![in alloc; Bind { name, value }]?))
}

fn extra(alloc: Global, waits: VarId, name: VarId, value: Expr) -> Result<Extra, AllocError>
    ensures { IfOk result (λ extra. extra ≡ main_extra waits name value) }
{
    Ok(Extra {
        target: start(alloc)?,
        result: waits,
        map: bind(alloc, name, value)?,
    })
}

/// An exit to `a` with two further frames there.
fn exit_of(alloc: Global, first: Expr, second: Expr, third: Expr) -> Result<Exit, AllocError>
    ensures { IfOk result (λ exit. exit ≡ main_exit first second third) }
{
    let next = extra(alloc, X, Y, second)?;
    let last = extra(alloc, Y, X, third)?;
    Ok(Exit {
        target: start(alloc)?,
        map: bind(alloc, Y, first)?,
        extras: List::from_vec(vec![in alloc; next, last]?),
    })
}

/// A row in which `x` is 3 and `y` is 4.
fn row(alloc: Global) -> Result<Env, AllocError>
    ensures { IfOk result (λ env. scope_of env ≡ true ∷ true ∷ []) }
{
    let mut env = Env::new(alloc);
    env.push(Value::Plain(Literal::Number(3)))?;
    env.push(Value::Plain(Literal::Number(4)))?;
    Ok(env)
}

/// What comes of leaving a frame in which `x` is 3 and `y` is 4 by an exit with these values.
fn left(
    alloc: Global,
    program: &Program,
    first: Expr,
    second: Expr,
    third: Expr,
) -> Result<Vec<Frame>, LeaveStop>
    requires start { HasStart program.now.functions }
    requires first { IsOfTwo first }
    requires second { IsOfTwo second }
    requires third { IsOfTwo third }
{
    let label = label_of(alloc, b'b')?;
    let frame = Frame::new(FrameCode::Text(FunId(0), 0), label, row(alloc)?, None);
    let exit = exit_of(alloc, first, second, third)?;
    leave(alloc, program, &frame, &Heap::new(alloc), &exit)
}

/// What is looked at in a frame: its code, whether it is at `a`, the values of its two variables, and the variable
/// that waits.
type Landed = (FrameCode, bool, Option<Value>, Option<Value>, Option<VarId>);

fn parts(frame: &Frame) -> Landed {
    let is_first = frame.label().as_bytes() == b"a".as_slice();
    let env = frame.env();
    (
        *frame.code(),
        is_first,
        env.get(X),
        env.get(Y),
        frame.waits(),
    )
}

/// The frames that an exit makes whose values are `x + y`, `y` and `nil`.
fn landed(alloc: Global, program: &Program) -> Result<Vec<Landed>, Fail>
    requires { HasStart program.now.functions }
{
    let sum = Expr::Binary(Op::Add, Simple::Var(X), Simple::Var(Y));
    let y = Expr::Plain(Simple::Var(Y));
    let nil = Expr::Plain(Simple::Lit(Literal::Nil));
    let frames = left(alloc, program, sum, y, nil)?;
    let mut landed = Vec::new(alloc);
    for frame in frames.as_slice() {
        landed.push(parts(frame))?;
    }
    Ok(landed)
}

/// What comes of an exit whose values are `y`, `!y` and `y`.
fn stop(alloc: Global, program: &Program) -> Option<LeaveStop>
    requires { HasStart program.now.functions }
{
    let y = Expr::Plain(Simple::Var(Y));
    let wrong = Expr::Not(Simple::Var(Y));
    left(alloc, program, y, wrong, y).err()
}

#[test]
fn makes_the_frames_of_an_exit(rt: HostRuntime) -> Result<(), Fail> {
    let job = job_of(rt.alloc(), TEXT)?;
    assert!(rt; has_start(&job.program, &label_of(rt.alloc(), b'a')?));
    let code = FrameCode::Text(FunId(0), 0);
    let seven = Some(Value::Plain(Literal::Number(7)));
    let four = Some(Value::Plain(Literal::Number(4)));
    let nil = Some(Value::Plain(Literal::Nil));
    assert!(rt;
        landed(rt.alloc(), &job.program)?.as_slice()
            == [
                (code, true, None, seven, None),
                (code, true, None, four, Some(X)),
                (code, true, nil, None, Some(Y)),
            ]
            .as_slice()
    );
    assert!(rt; stop(rt.alloc(), &job.program) == Some(LeaveStop::Trap(Trap::BadType)));
    Ok(())
}
