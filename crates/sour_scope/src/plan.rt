//! The plan of a text, with numbers in place of the names of functions.

ghost use Rattle.std.specs.Prelude.{◌≡◌, [], Some, map, List as Listed, IfOk, OnOk, OnErr, IfErr};
ghost use Rattle.std.specs.Prelude.{IsErrOf};
ghost use Rattle.std.specs.List.{AllByRecursion};
ghost use Rattle.sour_raw.specs.declared.raw.RawFunction.{RawFunction};
ghost use Rattle.sour_checked.specs.Numbered.{side_of, predicate_of, pass_of, plan_job_of, plan_of};
ghost use Rattle.sour_checked.specs.Texts.{function_names as names_of_text};
ghost use Rattle.laws_scope.specs.TextOrder.{first_broken, each_in_order, job_broken};
ghost use Rattle.sour_scope.specs.Known.{IsKnownSide, IsKnownPredicate, IsKnownPass, IsKnownJob};
ghost use Rattle.sour_scope.specs.Outlined.{outlined, function_names};
ghost use Rattle.sour_scope.specs.Told.{Tells};

use crate::expressions::literal_of;
use crate::fault::{ScopeFault, UNKNOWN};
use crate::outline::Outline;
use crate::unnumbered::Unnumbered;
use sour_raw::{RawPass, RawPlanJob, RawPlanSimple, RawPredicate};
use sour_syntax::{List, Pass, PlanJob, PlanPredicate, PlanSimple};
use std::alloc::Global;

/// The side of a predicate that is written.
fn side_of(raw: RawPlanSimple, outline: &Outline) -> Result<PlanSimple, Unnumbered>
    ensures ok { IfOk result (λ side. side ≡ side_of (function_names outline.now) raw) }
    ensures known { OnOk result (IsKnownSide (function_names outline.now) raw) }
    ensures unknown { OnErr result (IsKnownSide (function_names outline.now) raw → ⊥) }
{
    match raw {
        RawPlanSimple::Lit(literal) => Ok(PlanSimple::Lit(literal_of(&literal, outline)?)),
        RawPlanSimple::Name(name) => Ok(PlanSimple::Name(name)),
    }
}

/// The predicate that is written.
fn predicate_of(raw: RawPredicate, outline: &Outline) -> Result<PlanPredicate, Unnumbered>
    ensures ok { IfOk result (λ predicate. predicate
        ≡ predicate_of (function_names outline.now) raw) }
    ensures known { OnOk result (IsKnownPredicate (function_names outline.now) raw) }
    ensures unknown { OnErr result (IsKnownPredicate (function_names outline.now) raw → ⊥) }
{
    let RawPredicate { left, right } = raw;
    let left = side_of(left, outline)?;
    let right = side_of(right, outline)?;
    Ok(PlanPredicate { left, right })
}

/// The pass that is written; its labels aren't looked at.
fn pass_of(raw: RawPass, outline: &Outline) -> Result<Pass, Unnumbered>
    ensures ok { IfOk result (λ pass. pass ≡ pass_of (function_names outline.now) raw) }
    ensures known { OnOk result (IsKnownPass (function_names outline.now) raw) }
    ensures unknown { OnErr result (IsKnownPass (function_names outline.now) raw → ⊥) }
{
    match raw {
        RawPass::Inject(anchor, predicate) => {
            Ok(Pass::Inject(anchor, predicate_of(predicate, outline)?))
        }
        RawPass::Constprop => Ok(Pass::Constprop),
        RawPass::Unreachable => Ok(Pass::Unreachable),
        RawPass::Inline(call, start) => Ok(Pass::Inline(call, start)),
        RawPass::Move(anchor) => Ok(Pass::Move(anchor)),
        RawPass::Hoist(from, to, predicate) => {
            Ok(Pass::Hoist(from, to, predicate_of(predicate, outline)?))
        }
        RawPass::Compose(anchor) => Ok(Pass::Compose(anchor)),
        RawPass::Prune => Ok(Pass::Prune),
    }
}

/// The passes that are written.
fn passes_of(alloc: Global, raw: List<RawPass>, outline: &Outline) -> Result<List<Pass>, Unnumbered>
    ensures ok { IfOk result (λ passes. passes
        ≡ map (pass_of (function_names outline.now)) raw) }
    ensures known { OnOk result (AllByRecursion (IsKnownPass (function_names outline.now)) raw) }
    ensures unknown { IsErrOf result Unnumbered.Unknown
        → AllByRecursion (IsKnownPass (function_names outline.now)) raw → ⊥ }
{
    let mut passes = List::new(alloc);
    for pass in raw.into_vec() {
        passes.push(pass_of(pass, outline)?)?;
    }
    Ok(passes)
}

/// The job that is written, but for its line: its function and its passes.
fn numbered_job(alloc: Global, raw: RawPlanJob, outline: &Outline) -> Result<PlanJob, Unnumbered>
    ensures ok { IfOk result (λ job. job ≡ plan_job_of (function_names outline.now) raw) }
    ensures known { OnOk result (IsKnownJob (function_names outline.now) raw) }
    ensures unknown { IsErrOf result Unnumbered.Unknown
        → IsKnownJob (function_names outline.now) raw → ⊥ }
{
    let function = outline.function(raw.function.as_bytes())?;
    let passes = passes_of(alloc, raw.passes, outline)?;
    Ok(PlanJob {
        function,
        start: raw.start,
        passes,
    })
}

/// The job that is written; or the rule that it breaks.
fn job_of(alloc: Global, raw: RawPlanJob, outline: &Outline) -> Result<PlanJob, ScopeFault>
    ghost functions: { Listed RawFunction }
    requires outline { outline.now ≡ outlined functions }
    ensures ok { IfOk result (λ job. job ≡ plan_job_of (names_of_text functions) raw) }
    ensures none { OnOk result (job_broken functions raw ≡ []) }
    ensures fault { IfErr result (Tells (λ fault.
        first_broken (job_broken functions raw) ≡ Some fault)) }
{
    let line = raw.line;
    match numbered_job(alloc, raw, outline) {
        Ok(job) => Ok(job),
        Err(Unnumbered::Unknown) => Err(ScopeFault::nameless(alloc, UNKNOWN, line)),
        Err(Unnumbered::Memory) => Err(ScopeFault::Memory),
    }
}

/// The plan that is written; or the first rule that one of its jobs breaks.
pub(crate) fn plan_of(
    alloc: Global,
    raw: List<RawPlanJob>,
    outline: &Outline,
) -> Result<List<PlanJob>, ScopeFault>
    ghost functions: { Listed RawFunction }
    requires outline { outline.now ≡ outlined functions }
    ensures ok { IfOk result (λ plan. plan ≡ plan_of (names_of_text functions) raw) }
    ensures none { OnOk result (each_in_order (λ place. job_broken functions) 0 raw ≡ []) }
    ensures fault { IfErr result (Tells (λ fault.
        first_broken (each_in_order (λ place. job_broken functions) 0 raw) ≡ Some fault)) }
{
    let mut plan = List::new(alloc);
    for job in raw.into_vec() {
        plan.push(job_of(alloc, job, outline)?)?;
    }
    Ok(plan)
}
