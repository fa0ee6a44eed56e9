//! What an instruction does to the variables in scope.

ghost use Rattle.std.specs.Prelude.{◌≡◌, ◌<◌, ◌↔◌, Bool, IsTrue, true, false, slice_set};
ghost use Rattle.std.specs.List.{AllByRecursion};
ghost use Rattle.sour_syntax.specs.Exits.{bound_values, extras_values, exit_values};
ghost use Rattle.sour_syntax.specs.Scopes.{simple_variables, variables_of_expr, variables_of_each, needed, declared_by, scope_after, IsInScope, IsOutOfScope};

use crate::exit::{Bind, Exit, Extra};
use crate::expression::{Expr, Simple};
use crate::instruction::Instr;
use crate::literal::VarId;

/// Whether a variable is in scope.
fn is_in_scope(x: VarId, scope: &[bool]) -> bool
    ensures { IsTrue result ↔ IsInScope scope.now x }
{
    match scope.get(x.0 as usize) {
        Some(is_in) => *is_in,
        None => false,
    }
}

/// Whether a variable isn't in scope.
fn is_out_of_scope(x: VarId, scope: &[bool]) -> bool
    ensures { IsTrue result ↔ IsOutOfScope scope.now x }
{
    match scope.get(x.0 as usize) {
        Some(is_in) => !*is_in,
        None => false,
    }
}

/// Whether the variables of an operand are in scope.
fn has_operand(operand: Simple, scope: &[bool]) -> bool
    ensures { IsTrue result ↔ AllByRecursion (IsInScope scope.now) (simple_variables operand) }
{
    match operand {
        Simple::Lit(_) => true,
        Simple::Var(x) => is_in_scope(x, scope),
    }
}

/// Whether the variables of an expression are in scope.
fn has_variables(e: &Expr, scope: &[bool]) -> bool
    ensures { IsTrue result ↔ AllByRecursion (IsInScope scope.now) (variables_of_expr e.now) }
{
    match e {
        Expr::Plain(a) => has_operand(*a, scope),
        Expr::Cell(x, index) => is_in_scope(*x, scope) && has_operand(*index, scope),
        Expr::Length(a) => has_operand(*a, scope),
        Expr::Not(a) => has_operand(*a, scope),
        Expr::Binary(_, a, b) => has_operand(*a, scope) && has_operand(*b, scope),
    }
}

/// Whether the variables of some expressions are in scope.
fn each_has_variables(es: &[Expr], scope: &[bool]) -> bool
    ensures { IsTrue result ↔ AllByRecursion (IsInScope scope.now) (variables_of_each es.now) }
{
    for e in es {
        if !has_variables(e, scope) {
            return false;
        }
    }
    true
}

/// Whether the variables of the values in a map are in scope.
fn map_has_variables(binds: &[Bind], scope: &[bool]) -> bool
    ensures { IsTrue result ↔ AllByRecursion (IsInScope scope.now) (variables_of_each (bound_values binds.now)) }
{
    for bind in binds {
        if !has_variables(&bind.value, scope) {
            return false;
        }
    }
    true
}

/// Whether the variables of the values in the maps of further frames are in scope.
fn extras_have_variables(extras: &[Extra], scope: &[bool]) -> bool
    ensures { IsTrue result ↔ AllByRecursion (IsInScope scope.now) (variables_of_each (extras_values extras.now)) }
{
    for extra in extras {
        if !map_has_variables(extra.map.as_slice(), scope) {
            return false;
        }
    }
    true
}

/// Whether the variables of the values in the maps of an exit are in scope.
fn exit_has_variables(exit: &Exit, scope: &[bool]) -> bool
    ensures { IsTrue result ↔ AllByRecursion (IsInScope scope.now) (variables_of_each (exit_values exit.now)) }
{
    map_has_variables(exit.map.as_slice(), scope)
        && extras_have_variables(exit.extras.as_slice(), scope)
}

/// Whether the variables that an instruction needs are in scope.
pub(crate) fn has_needed(instr: &Instr, scope: &[bool]) -> bool
    ensures { IsTrue result ↔ AllByRecursion (IsInScope scope.now) (needed instr.now) }
{
    match instr {
        Instr::Var(_, e) => has_variables(e, scope),
        Instr::Drop(x) => is_in_scope(*x, scope),
        Instr::Assign(x, e) => is_in_scope(*x, scope) && has_variables(e, scope),
        Instr::ArrayLength(_, e) => has_variables(e, scope),
        Instr::ArrayList(_, es) => each_has_variables(es.as_slice(), scope),
        Instr::Store(x, index, e) => {
            is_in_scope(*x, scope) && has_operand(*index, scope) && has_variables(e, scope)
        }
        Instr::Print(e) => has_variables(e, scope),
        Instr::Read(_) => true,
        Instr::Branch(e, _, _) => has_variables(e, scope),
        Instr::Goto(_) => true,
        Instr::Call(_, callee, es) => {
            has_operand(*callee, scope) && each_has_variables(es.as_slice(), scope)
        }
        Instr::Return(e) => has_variables(e, scope),
        Instr::Stop => true,
        Instr::Assume(es, exit) => {
            each_has_variables(es.as_slice(), scope) && exit_has_variables(exit, scope)
        }
    }
}

/// Whether no variable that an instruction declares is in scope.
pub(crate) fn lacks_declared(instr: &Instr, scope: &[bool]) -> bool
    ensures { IsTrue result ↔ AllByRecursion (IsOutOfScope scope.now) (declared_by instr.now) }
{
    match instr {
        Instr::Var(x, _) => is_out_of_scope(*x, scope),
        Instr::ArrayLength(x, _) => is_out_of_scope(*x, scope),
        Instr::ArrayList(x, _) => is_out_of_scope(*x, scope),
        Instr::Drop(_) => true,
        Instr::Assign(_, _) => true,
        Instr::Store(_, _, _) => true,
        Instr::Print(_) => true,
        Instr::Read(_) => true,
        Instr::Branch(_, _, _) => true,
        Instr::Goto(_) => true,
        Instr::Call(_, _, _) => true,
        Instr::Return(_) => true,
        Instr::Stop => true,
        Instr::Assume(_, _) => true,
    }
}

/// Puts a variable into the scope, or takes it out.
fn put(x: VarId, is_in: bool, scope: &mut Vec<bool>)
    ensures { scope.new.items ≡ slice_set scope.old.items x.0 is_in }
{
    let place = x.0 as usize;
    if place < scope.len() {
        scope[place] = is_in;
    }
}

/// Makes of the scope at an instruction the scope behind it.
pub(crate) fn change_scope(instr: &Instr, scope: &mut Vec<bool>)
    ensures { scope.new.items ≡ scope_after instr.now scope.old.items }
{
    match instr {
        Instr::Var(x, _) => put(*x, true, scope),
        Instr::Drop(x) => put(*x, false, scope),
        Instr::ArrayLength(x, _) => put(*x, true, scope),
        Instr::ArrayList(x, _) => put(*x, true, scope),
        Instr::Read(x) => put(*x, true, scope),
        Instr::Call(x, _, _) => put(*x, true, scope),
        Instr::Assign(_, _) => (),
        Instr::Store(_, _, _) => (),
        Instr::Print(_) => (),
        Instr::Branch(_, _, _) => (),
        Instr::Goto(_) => (),
        Instr::Return(_) => (),
        Instr::Stop => (),
        Instr::Assume(_, _) => (),
    }
}
