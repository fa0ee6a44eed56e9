//! The instructions that stay in their frame.

ghost use Rattle.std.specs.Prelude.{◌≡◌, ◌⊎◌, ◌+◌, ◌^◌, ◌<◌, ◌≤◌, ℕ, List, [], ◌∷◌, true, false, Ok, length, IsTrue, OnOk, OnErr};
ghost use Rattle.sour_syntax.specs.declared.exit.Exit.{Exit};
ghost use Rattle.sour_syntax.specs.declared.expression.Expr.{Expr};
ghost use Rattle.sour_syntax.specs.declared.literal.Literal.{Literal};
ghost use Rattle.sour_syntax.specs.Jumps.{GoesTo};
ghost use Rattle.sour_syntax.specs.Labels.{IsPlaceOf};
ghost use Rattle.sour_syntax.specs.Program.{ProgramView};
ghost use Rattle.sour_syntax.specs.Scopes.{IsInScope};
ghost use Rattle.sour_syntax.specs.Spread.{following};
ghost use Rattle.sour_semantics.specs.Evaluation.{truth_in, holds_each};
ghost use Rattle.sour_semantics.specs.Step.{branches};
ghost use Rattle.sour_semantics.specs.Validity.{scope_of};
ghost use Rattle.sour_machine.specs.Scope.{HasValues, HasValuesOfEach};
ghost use Rattle.sour_machine.specs.Frame.{frame_lines};
ghost use Rattle.sour_machine.specs.Moment.{state_at};
ghost use Rattle.sour_machine.specs.Run.{is_call};
ghost use Rattle.sour_semantics.specs.Shape.{IsCallOrReturn};
ghost use Rattle.sour_machine.specs.Instruction.{IsReady, ActsAs, LeadsOut, ComesTo, StaysInFrame, jump_at, jumps_away, turns_after};
ghost use Rattle.sour_machine.specs.Want.{TakesMemoryInside};

use crate::arrays::{make_empty, make_list, store};
use crate::evaluation::eval;
use crate::moment::Moment;
use crate::predicates::holds_each;
use crate::report::End;
use crate::text::{count_cells, value_head, value_middle, value_tail};
use itoa::Buffer;
use sour_syntax::{Expr, Instr, Jump, Literal, Program, Trap, Value, VarId};
use std::alloc::{AllocError, Global};

/// What came of an instruction.
#[derive(Clone, Copy, Debug, PartialEq, Eq)]
pub(crate) enum Acted {
    /// It was carried out, in its frame.
    Inside,
    /// Nothing was done: it is a call or a return, or its predicates lead to its exit.
    Crossing,
    /// Nothing was done: it would take a turn beyond the budget.
    MoreTurns,
}

/// Carries out one instruction of a run on this input, or none where memory is wanting, as it may be only for
/// a print and for a new array. The jump at its place has the places of the labels that the instruction names.
/// Of an instruction that enters a frame or leaves one it says so, and does nothing; nor does it where the
/// instruction would take a turn beyond the budget. An assume whose predicates hold takes no turn.
///
/// Most instructions set a variable or jump. The functions of the others aren't inlined, so the loop stays
/// small; and only those that take a turn look at the turns, and only those that jump at the jumps.
pub(crate) fn act(
    alloc: Global,
    program: &Program,
    moment: &mut Moment,
    input: &[Literal],
    instr: &Instr,
    jumps: &[Jump],
    budget: u64,
) -> Result<Acted, AllocError>
    requires going { moment.old.end ≡ End.Cut }
    requires place { moment.old.frame.place + 1 < 2 ^ 64 }
    requires turns { moment.old.turns ≤ budget }
    requires within { moment.old.read ≤ length input.now }
    requires ready { IsReady instr.now moment.old.frame.env }
    requires there { moment.old.frame.place < length jumps.now }
    requires goes { GoesTo (frame_lines program.now moment.old.frame) instr.now (jump_at jumps.now moment.old.frame.place) }
    ensures inside { result ≡ Ok Acted.Inside → ActsAs program.now input.now instr.now moment.old moment.new }
    ensures comes { result ≡ Ok Acted.Inside → ComesTo instr.now (following instr.now (jump_at jumps.now moment.old.frame.place) (moment.old.frame.place + 1)) moment.old.frame.env moment.new moment.new.end }
    ensures enters_none { result ≡ Ok Acted.Inside → is_call instr.now ≡ false }
    ensures turns { result ≡ Ok Acted.Inside → moment.new.turns ≡ turns_after (jumps_away instr.now) moment.old.turns }
    ensures left { moment.new.turns ≤ budget }
    ensures crossing { result ≡ Ok Acted.Crossing → (IsCallOrReturn instr.now ⊎ LeadsOut instr.now moment.old.frame.env moment.old.heap) × (moment.old.turns < budget) × (moment.new ≡ moment.old) }
    ensures more_turns { result ≡ Ok Acted.MoreTurns → (IsTrue (jumps_away instr.now) ⊎ IsCallOrReturn instr.now ⊎ LeadsOut instr.now moment.old.frame.env moment.old.heap) × (moment.old.turns ≡ budget) × (moment.new ≡ moment.old) }
    ensures stays { StaysInFrame moment.old moment.new }
    ensures within { moment.new.read ≤ length input.now }
    ensures err { OnErr result (moment.new ≡ moment.old) }
    ensures wants { OnErr result (TakesMemoryInside instr.now) }
{
    match instr {
        Instr::Var(x, expr) | Instr::Assign(x, expr) => set(moment, *x, expr),
        Instr::Drop(x) => clear(moment, *x),
        Instr::ArrayLength(x, expr) => make_empty(alloc, moment, *x, expr)?,
        Instr::ArrayList(x, exprs) => make_list(alloc, moment, *x, exprs.as_slice())?,
        Instr::Store(x, index, expr) => store(moment, *x, index, expr),
        Instr::Print(expr) => print(program, moment, expr)?,
        Instr::Read(x) => read(moment, input, *x),
        Instr::Branch(expr, _, _) if moment.turns < budget => {
            branch(moment, expr, jumps[moment.frame.place]);
        }
        Instr::Goto(_) if moment.turns < budget => goto(moment, jumps[moment.frame.place]),
        Instr::Call(..) | Instr::Return(_) if moment.turns < budget => {
            return Ok(Acted::Crossing);
        }
        Instr::Branch(..) | Instr::Goto(_) | Instr::Call(..) | Instr::Return(_) => {
            return Ok(Acted::MoreTurns);
        }
        Instr::Stop => stop(moment),
        Instr::Assume(predicates, _) => {
            if !stays(moment, predicates.as_slice()) {
                if moment.turns < budget {
                    return Ok(Acted::Crossing);
                }
                return Ok(Acted::MoreTurns);
            }
        }
    }
    Ok(Acted::Inside)
}

/// Gives a variable the value of an expression.
fn set(moment: &mut Moment, x: VarId, expr: &Expr)
    requires going { moment.old.end ≡ End.Cut }
    requires place { moment.old.frame.place + 1 < 2 ^ 64 }
    requires values { HasValues moment.old.frame.env expr.now }
    requires there { x.0 < length moment.old.frame.env }
    ensures acts { (program : ProgramView) (input : List Literal) → ActsAs program input (Instr.Var x expr.now) moment.old moment.new }
    ensures declares { ComesTo (Instr.Var x expr.now) ((moment.old.frame.place + 1) ∷ []) moment.old.frame.env moment.new moment.new.end }
    ensures assigns { IsInScope (scope_of moment.old.frame.env) x → ComesTo (Instr.Assign x expr.now) ((moment.old.frame.place + 1) ∷ []) moment.old.frame.env moment.new moment.new.end }
    ensures stays { StaysInFrame moment.old moment.new }
    ensures turns { moment.new.turns ≡ moment.old.turns }
    ensures reads { moment.new.read ≡ moment.old.read }
{
    match eval(&moment.frame.env, &moment.heap, expr) {
        Ok(value) => {
            moment.frame.env.set(x, value);
            moment.frame.place += 1;
        }
        Err(trap) => moment.end = End::Trapped(trap),
    }
}

/// Takes the value of a variable away.
fn clear(moment: &mut Moment, x: VarId)
    requires going { moment.old.end ≡ End.Cut }
    requires place { moment.old.frame.place + 1 < 2 ^ 64 }
    requires there { x.0 < length moment.old.frame.env }
    ensures acts { (program : ProgramView) (input : List Literal) → ActsAs program input (Instr.Drop x) moment.old moment.new }
    ensures comes { ComesTo (Instr.Drop x) ((moment.old.frame.place + 1) ∷ []) moment.old.frame.env moment.new moment.new.end }
    ensures stays { StaysInFrame moment.old moment.new }
    ensures turns { moment.new.turns ≡ moment.old.turns }
    ensures reads { moment.new.read ≡ moment.old.read }
{
    moment.frame.env.clear(x);
    moment.frame.place += 1;
}

/// Takes the next value of the input into a variable.
#[inline(never)]
fn read(moment: &mut Moment, input: &[Literal], x: VarId)
    requires going { moment.old.end ≡ End.Cut }
    requires place { moment.old.frame.place + 1 < 2 ^ 64 }
    requires within { moment.old.read ≤ length input.now }
    requires there { x.0 < length moment.old.frame.env }
    ensures acts { (program : ProgramView) → ActsAs program input.now (Instr.Read x) moment.old moment.new }
    ensures comes { ComesTo (Instr.Read x) ((moment.old.frame.place + 1) ∷ []) moment.old.frame.env moment.new moment.new.end }
    ensures stays { StaysInFrame moment.old moment.new }
    ensures turns { moment.new.turns ≡ moment.old.turns }
    ensures within { moment.new.read ≤ length input.now }
{
    match input.get(moment.read) {
        Some(literal) => {
            moment.frame.env.set(x, Value::Plain(*literal));
            moment.read += 1;
            moment.frame.place += 1;
        }
        None => moment.end = End::Trapped(Trap::InputEnd),
    }
}

/// Writes the text of a value on a line of its own, if the output has room for all of it.
#[inline(never)]
fn print(program: &Program, moment: &mut Moment, expr: &Expr) -> Result<(), AllocError>
    requires going { moment.old.end ≡ End.Cut }
    requires place { moment.old.frame.place + 1 < 2 ^ 64 }
    requires values { HasValues moment.old.frame.env expr.now }
    ensures acts { OnOk result ((input : List Literal) → ActsAs program.now input (Instr.Print expr.now) moment.old moment.new) }
    ensures comes { OnOk result (ComesTo (Instr.Print expr.now) ((moment.old.frame.place + 1) ∷ []) moment.old.frame.env moment.new moment.new.end) }
    ensures stays { StaysInFrame moment.old moment.new }
    ensures turns { moment.new.turns ≡ moment.old.turns }
    ensures reads { moment.new.read ≡ moment.old.read }
    ensures err { OnErr result (moment.new ≡ moment.old) }
{
    let value = match eval(&moment.frame.env, &moment.heap, expr) {
        Ok(value) => value,
        Err(trap) => {
            moment.end = End::Trapped(trap);
            return Ok(());
        }
    };
    let mut digits = Buffer::new();
    let head = value_head(value);
    let middle = value_middle(
        value,
        program,
        count_cells(value, &moment.heap),
        &mut digits,
    );
    let tail = value_tail(value);
    if moment.output.room() < head.len() + middle.len() + tail.len() + 1 {
        moment.end = End::Trapped(Trap::OutputFull);
        return Ok(());
    }
    moment.output.write_line(head, middle, tail)?;
    moment.frame.place += 1;
    Ok(())
}

/// Goes to the place of the first label or to that of the second, as the truth value of an expression
/// says. The turn is taken even where the expression has none.
fn branch(moment: &mut Moment, expr: &Expr, jump: Jump)
    requires going { moment.old.end ≡ End.Cut }
    requires turns { moment.old.turns + 1 < 2 ^ 64 }
    requires values { HasValues moment.old.frame.env expr.now }
    ensures acts { (program : ProgramView) (input : List Literal) (first second : List ℕ) → IsPlaceOf (frame_lines program moment.old.frame) first jump.first → IsPlaceOf (frame_lines program moment.old.frame) second jump.second → ActsAs program input (Instr.Branch expr.now first second) moment.old moment.new }
    ensures comes { (first second : List ℕ) → ComesTo (Instr.Branch expr.now first second) (jump.first ∷ jump.second ∷ []) moment.old.frame.env moment.new moment.new.end }
    ensures stays { StaysInFrame moment.old moment.new }
    ensures turn { moment.new.turns ≡ moment.old.turns + 1 }
    ensures reads { moment.new.read ≡ moment.old.read }
{
    moment.turns += 1;
    match eval(&moment.frame.env, &moment.heap, expr) {
        Ok(value) => go_by(moment, value, jump),
        Err(trap) => moment.end = End::Trapped(trap),
    }
}

/// Goes to the place of the first label on `true`, to that of the second on `false`, and nowhere on any
/// other value.
#[tactic(auto, using(crate::proofs::Jumps::state_at_place))]
fn go_by(moment: &mut Moment, value: Value, jump: Jump)
    requires { moment.old.end ≡ End.Cut }
    ensures acts { (program : ProgramView) (input : List Literal) (first second : List ℕ) → IsPlaceOf (frame_lines program moment.old.frame) first jump.first → IsPlaceOf (frame_lines program moment.old.frame) second jump.second
        → state_at program input moment.new ≡ branches (truth_in value) first second (state_at program input moment.old) }
    ensures comes { (expr : Expr) (first second : List ℕ) → ComesTo (Instr.Branch expr first second) (jump.first ∷ jump.second ∷ []) moment.old.frame.env moment.new moment.new.end }
    ensures stays { StaysInFrame moment.old moment.new }
    ensures turns { moment.new.turns ≡ moment.old.turns }
    ensures reads { moment.new.read ≡ moment.old.read }
{
    match value {
        Value::Plain(Literal::Truth(true)) => moment.frame.place = jump.first,
        Value::Plain(Literal::Truth(false)) => moment.frame.place = jump.second,
        _ => moment.end = End::Trapped(Trap::BadType),
    }
}

/// Goes to the place of a label.
#[tactic(auto, using(crate::proofs::Jumps::state_at_place))]
fn goto(moment: &mut Moment, jump: Jump)
    requires going { moment.old.end ≡ End.Cut }
    requires turns { moment.old.turns + 1 < 2 ^ 64 }
    ensures acts { (program : ProgramView) (input : List Literal) (label : List ℕ) → IsPlaceOf (frame_lines program moment.old.frame) label jump.first → ActsAs program input (Instr.Goto label) moment.old moment.new }
    ensures comes { (label : List ℕ) → ComesTo (Instr.Goto label) (jump.first ∷ []) moment.old.frame.env moment.new moment.new.end }
    ensures stays { StaysInFrame moment.old moment.new }
    ensures turn { moment.new.turns ≡ moment.old.turns + 1 }
    ensures reads { moment.new.read ≡ moment.old.read }
{
    moment.turns += 1;
    moment.frame.place = jump.first;
}

/// Ends the run.
fn stop(moment: &mut Moment)
    requires { moment.old.end ≡ End.Cut }
    ensures acts { (program : ProgramView) (input : List Literal) → ActsAs program input Instr.Stop moment.old moment.new }
    ensures comes { ComesTo Instr.Stop [] moment.old.frame.env moment.new moment.new.end }
    ensures stays { StaysInFrame moment.old moment.new }
    ensures turns { moment.new.turns ≡ moment.old.turns }
    ensures reads { moment.new.read ≡ moment.old.read }
{
    moment.end = End::Stopped;
}

/// Goes on to the next line where each predicate holds, and ends the run where one traps. Where one is
/// false it says so, and does nothing.
#[inline(never)]
fn stays(moment: &mut Moment, predicates: &[Expr]) -> bool
    requires going { moment.old.end ≡ End.Cut }
    requires place { moment.old.frame.place + 1 < 2 ^ 64 }
    requires values { HasValuesOfEach moment.old.frame.env predicates.now }
    ensures acts { result ≡ true → (program : ProgramView) (input : List Literal) (exit : Exit) → ActsAs program input (Instr.Assume predicates.now exit) moment.old moment.new }
    ensures comes { result ≡ true → (exit : Exit) → ComesTo (Instr.Assume predicates.now exit) ((moment.old.frame.place + 1) ∷ []) moment.old.frame.env moment.new moment.new.end }
    ensures holds { result ≡ true → ¬ (holds_each moment.old.frame.env moment.old.heap predicates.now ≡ Ok false) }
    ensures leaves { result ≡ false → (holds_each moment.old.frame.env moment.old.heap predicates.now ≡ Ok false) × (moment.new ≡ moment.old) }
    ensures stays { StaysInFrame moment.old moment.new }
    ensures turns { moment.new.turns ≡ moment.old.turns }
    ensures reads { moment.new.read ≡ moment.old.read }
{
    match holds_each(&moment.frame.env, &moment.heap, predicates) {
        Ok(true) => moment.frame.place += 1,
        Ok(false) => return false,
        Err(trap) => moment.end = End::Trapped(trap),
    }
    true
}
