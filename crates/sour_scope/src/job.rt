//! A text as a whole.

ghost use Rattle.std.specs.Prelude.{◌≡◌, ◌↔◌, List, length, IfOk, IfErr};
ghost use Rattle.std.specs.List.{AllByRecursion};
ghost use Rattle.sour_syntax.specs.declared.literal.Literal.{Literal};
ghost use Rattle.sour_syntax.specs.declared.plan.PlanJob.{PlanJob};
ghost use Rattle.sour_syntax.specs.Literals.{IsLiteral};
ghost use Rattle.sour_syntax.specs.Plan.{IsKnownJob};
ghost use Rattle.sour_syntax.specs.Program.{ProgramView};
ghost use Rattle.sour_raw.specs.Limits.{IsShort};
ghost use Rattle.sour_raw.specs.Order.{IsInOrder};
ghost use Rattle.sour_raw.specs.Written.{IsWritten};
ghost use Rattle.sour_checked.specs.Checked.{IsChecked};
ghost use Rattle.sour_scope.specs.Told.{IsFault};

use crate::bodies::{Bodies, bodies_of};
use crate::exits::exits_fit;
use crate::fault::ScopeFault;
use crate::first_stage::numbered;
use crate::numbered::NumberedJob;
use sour_raw::RawJob;
use sour_syntax::{Job, Program};
use std::alloc::Global;
use std::sync::Arc;

/// The program, the plan and the inputs that a text means, or its first fault.
pub fn check(alloc: Global, raw: RawJob) -> Result<Job, ScopeFault>
    requires written { IsWritten raw }
    requires short { IsShort raw }
    requires ordered { IsInOrder raw }
    // It means this program, this plan and these inputs, and no others.
    ensures found { IfOk result (λ job.
        (program : ProgramView) (plan : List PlanJob) (inputs : List (List Literal))
        → IsChecked raw program plan inputs
        ↔ ((program ≡ job.program.value) × (plan ≡ job.plan) × (inputs ≡ job.inputs))) }
    // Each function that the plan names is one of this program.
    ensures plan { IfOk result (λ job.
        AllByRecursion (IsKnownJob (length job.program.value.functions)) job.plan) }
    // Each literal of an input is one of this program.
    ensures inputs { IfOk result (λ job.
        AllByRecursion (AllByRecursion (IsLiteral (length job.program.value.functions)))
        job.inputs) }
    // It has this fault first, and means nothing.
    ensures fault { IfErr result (IsFault raw) }
{
    let NumberedJob {
        functions,
        main,
        plan,
        inputs,
    } = numbered(alloc, raw)?;
    let Bodies {
        functions,
        line_numbers,
    } = bodies_of(alloc, functions)?;
    exits_fit(alloc, functions.as_slice(), line_numbers.as_slice())?;
    let program = Arc::new(alloc, Program::of_functions(functions, main).linked(alloc)?)?;
    Ok(Job {
        program,
        plan,
        inputs,
    })
}
