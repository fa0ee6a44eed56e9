//! Instructions, with numbers in place of names.

ghost use Rattle.std.specs.Prelude.{◌≡◌, IfOk, OnOk, OnErr, IsErrOf};
ghost use Rattle.sour_raw.specs.declared.raw.RawInstr.TheVariants.{ArrayList, Store, Branch, Call};
ghost use Rattle.sour_raw.specs.declared.raw.RawInstr.TheVariants.{Assume};
ghost use Rattle.sour_checked.specs.Numbered.{number_of, expr_of, instr_of};
ghost use Rattle.sour_checked.specs.Parts.{is_terminator};
ghost use Rattle.sour_scope.specs.Known.{IsAmong, IsKnownExpr, IsKnownInstr};
ghost use Rattle.sour_scope.specs.Outlined.{function_names, names_of};

use crate::exit_numbers::{exit_of, has_label};
use crate::expression_lists::each_of;
use crate::expressions::{expr_of, simple_of};
use crate::outline::Outline;
use crate::unnumbered::Unnumbered;
use crate::version_outline::VersionOutline;
use sour_raw::{RawExit, RawExpr, RawInstr, RawSimple};
use sour_syntax::{Expr, Instr, Label, List, VarId};
use std::alloc::Global;

/// Whether an instruction is a terminator.
pub(crate) fn is_terminator(raw: &RawInstr) -> bool
    ensures { result ≡ is_terminator raw.now }
{
    matches!(
        raw,
        RawInstr::Branch(..) | RawInstr::Goto(_) | RawInstr::Return(_) | RawInstr::Stop
    )
}

/// A variable of a version.
fn variable_of(name: Label, own: &VersionOutline) -> Result<VarId, Unnumbered>
    ensures ok { IfOk result (λ x. x ≡ number_of own.now.variables name) }
    ensures known { OnOk result (IsAmong own.now.variables name) }
    ensures unknown { OnErr result (IsAmong own.now.variables name → ⊥) }
{
    own.variables.number(&name)
}

/// An expression in a version.
fn value_of(value: RawExpr, outline: &Outline, own: &VersionOutline) -> Result<Expr, Unnumbered>
    ensures ok { IfOk result (λ e.
        e ≡ expr_of (function_names outline.now) own.now.variables value) }
    ensures known { OnOk result (IsKnownExpr (function_names outline.now) own.now.variables value) }
    ensures unknown { OnErr result (IsKnownExpr (function_names outline.now) own.now.variables value
        → ⊥) }
{
    expr_of(&value, outline, &own.variables)
}

/// A variable of a version, and the expression that it gets the value of.
fn both_of(
    name: Label,
    value: RawExpr,
    outline: &Outline,
    own: &VersionOutline,
) -> Result<(VarId, Expr), Unnumbered>
    ensures variable { IfOk result (λ both. both.0 ≡ number_of own.now.variables name) }
    ensures value { IfOk result (λ both.
        both.1 ≡ expr_of (function_names outline.now) own.now.variables value) }
    ensures known { OnOk result (IsAmong own.now.variables name
        × IsKnownExpr (function_names outline.now) own.now.variables value) }
    ensures unknown { OnErr result (IsAmong own.now.variables name
        × IsKnownExpr (function_names outline.now) own.now.variables value → ⊥) }
{
    let x = own.variables.number(&name)?;
    Ok((x, expr_of(&value, outline, &own.variables)?))
}

/// An array of the values that are written.
fn array_of(
    alloc: Global,
    name: Label,
    values: List<RawExpr>,
    outline: &Outline,
    own: &VersionOutline,
) -> Result<Instr, Unnumbered>
    ensures ok { IfOk result (λ instr.
        instr ≡ instr_of (names_of outline.now) own.now.variables (ArrayList name values)) }
    ensures known { OnOk result (IsKnownInstr outline.now own.now (ArrayList name values)) }
    ensures unknown { IsErrOf result Unnumbered.Unknown
        → IsKnownInstr outline.now own.now (ArrayList name values) → ⊥ }
{
    let x = own.variables.number(&name)?;
    let values = each_of(alloc, values.as_slice(), outline, &own.variables)?;
    Ok(Instr::ArrayList(x, values))
}

/// A write of a cell.
fn store_of(
    name: Label,
    index: RawSimple,
    value: RawExpr,
    outline: &Outline,
    own: &VersionOutline,
) -> Result<Instr, Unnumbered>
    ensures ok { IfOk result (λ instr.
        instr ≡ instr_of (names_of outline.now) own.now.variables (Store name index value)) }
    ensures known { OnOk result (IsKnownInstr outline.now own.now (Store name index value)) }
    ensures unknown { OnErr result (IsKnownInstr outline.now own.now (Store name index value) → ⊥) }
{
    let x = own.variables.number(&name)?;
    let index = simple_of(&index, outline, &own.variables)?;
    let value = expr_of(&value, outline, &own.variables)?;
    Ok(Instr::Store(x, index, value))
}

/// A branch.
fn branch_of(
    test: RawExpr,
    first: Label,
    second: Label,
    outline: &Outline,
    own: &VersionOutline,
) -> Result<Instr, Unnumbered>
    ensures ok { IfOk result (λ instr.
        instr ≡ instr_of (names_of outline.now) own.now.variables (Branch test first second)) }
    ensures known { OnOk result (IsKnownInstr outline.now own.now (Branch test first second)) }
    ensures unknown { OnErr result (IsKnownInstr outline.now own.now (Branch test first second)
        → ⊥) }
{
    let test = expr_of(&test, outline, &own.variables)?;
    if !has_label(&own.labels, &first) || !has_label(&own.labels, &second) {
        return Err(Unnumbered::Unknown);
    }
    Ok(Instr::Branch(test, first, second))
}

/// A jump.
fn goto_of(label: Label, own: &VersionOutline) -> Result<Instr, Unnumbered>
    ensures ok { IfOk result (λ instr. instr ≡ Instr.Goto label) }
    ensures known { OnOk result (IsAmong own.now.labels label) }
    ensures unknown { OnErr result (IsAmong own.now.labels label → ⊥) }
{
    if !has_label(&own.labels, &label) {
        return Err(Unnumbered::Unknown);
    }
    Ok(Instr::Goto(label))
}

/// A call with its arguments.
fn call_of(
    alloc: Global,
    name: Label,
    callee: RawSimple,
    arguments: List<RawExpr>,
    outline: &Outline,
    own: &VersionOutline,
) -> Result<Instr, Unnumbered>
    ensures ok { IfOk result (λ instr.
        instr ≡ instr_of (names_of outline.now) own.now.variables (Call name callee arguments)) }
    ensures known { OnOk result (IsKnownInstr outline.now own.now (Call name callee arguments)) }
    ensures unknown { IsErrOf result Unnumbered.Unknown
        → IsKnownInstr outline.now own.now (Call name callee arguments) → ⊥ }
{
    let x = own.variables.number(&name)?;
    let callee = simple_of(&callee, outline, &own.variables)?;
    let arguments = each_of(alloc, arguments.as_slice(), outline, &own.variables)?;
    Ok(Instr::Call(x, callee, arguments))
}

/// Predicates and an exit.
fn assume_of(
    alloc: Global,
    predicates: List<RawExpr>,
    exit: RawExit,
    outline: &Outline,
    own: &VersionOutline,
) -> Result<Instr, Unnumbered>
    ensures ok { IfOk result (λ instr.
        instr ≡ instr_of (names_of outline.now) own.now.variables (Assume predicates exit)) }
    ensures known { OnOk result (IsKnownInstr outline.now own.now (Assume predicates exit)) }
    ensures unknown { IsErrOf result Unnumbered.Unknown
        → IsKnownInstr outline.now own.now (Assume predicates exit) → ⊥ }
{
    let predicates = each_of(alloc, predicates.as_slice(), outline, &own.variables)?;
    Ok(Instr::Assume(predicates, exit_of(alloc, exit, outline, &own.variables)?))
}

/// The instruction that is written in a version.
pub(crate) fn instr_of(
    alloc: Global,
    raw: RawInstr,
    outline: &Outline,
    own: &VersionOutline,
) -> Result<Instr, Unnumbered>
    ensures ok { IfOk result (λ instr.
        instr ≡ instr_of (names_of outline.now) own.now.variables raw) }
    ensures known { OnOk result (IsKnownInstr outline.now own.now raw) }
    ensures unknown { IsErrOf result Unnumbered.Unknown → IsKnownInstr outline.now own.now raw → ⊥ }
{
    match raw {
        RawInstr::Var(name, value) => {
            let (x, value) = both_of(name, value, outline, own)?;
            Ok(Instr::Var(x, value))
        }
        RawInstr::Drop(name) => Ok(Instr::Drop(variable_of(name, own)?)),
        RawInstr::Assign(name, value) => {
            let (x, value) = both_of(name, value, outline, own)?;
            Ok(Instr::Assign(x, value))
        }
        RawInstr::ArrayLength(name, count) => {
            let (x, count) = both_of(name, count, outline, own)?;
            Ok(Instr::ArrayLength(x, count))
        }
        RawInstr::ArrayList(name, values) => array_of(alloc, name, values, outline, own),
        RawInstr::Store(name, index, value) => store_of(name, index, value, outline, own),
        RawInstr::Print(value) => Ok(Instr::Print(value_of(value, outline, own)?)),
        RawInstr::Read(name) => Ok(Instr::Read(variable_of(name, own)?)),
        RawInstr::Branch(test, first, second) => branch_of(test, first, second, outline, own),
        RawInstr::Goto(label) => goto_of(label, own),
        RawInstr::Call(name, callee, arguments) => {
            call_of(alloc, name, callee, arguments, outline, own)
        }
        RawInstr::Return(value) => Ok(Instr::Return(value_of(value, outline, own)?)),
        RawInstr::Stop => Ok(Instr::Stop),
        RawInstr::Assume(predicates, exit) => assume_of(alloc, predicates, exit, outline, own),
    }
}
