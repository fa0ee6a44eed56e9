//! Where the instructions of some lines go by name.

ghost use Rattle.std.specs.Prelude.{◌≡◌, Some, Contains, slice_get, IfOk};
ghost use Rattle.std.specs.List.{AllByRecursion};
ghost use Rattle.sour_syntax.specs.Labels.{labels_of};
ghost use Rattle.sour_syntax.specs.Jumps.{named_labels, NamesItsLabels, GoesAmong, GoTo};

use crate::instruction::{Instr, Line};
use crate::jump::Jump;
use crate::label::Label;
use crate::labels::Labels;
use crate::list::List;
use std::alloc::{AllocError, Global};

/// The place of a label that is there.
fn place_of(label: &Label, labels: &Labels) -> usize
    requires { Contains labels.now label.now }
    ensures { slice_get labels.now result ≡ Some label.now }
{
    labels.place(label.as_bytes()).unwrap()
}

/// Where an instruction goes by name.
fn jump_of(instr: &Instr, labels: &Labels) -> Jump
    requires { AllByRecursion (Contains labels.now) (named_labels instr.now) }
    ensures { GoesAmong labels.now instr.now result }
{
    let nowhere = Jump {
        first: 0,
        second: 0,
    };
    match instr {
        Instr::Branch(_, first, second) => Jump {
            first: place_of(first, labels),
            second: place_of(second, labels),
        },
        Instr::Goto(label) => Jump {
            first: place_of(label, labels),
            second: 0,
        },
        Instr::Var(_, _) => nowhere,
        Instr::Drop(_) => nowhere,
        Instr::Assign(_, _) => nowhere,
        Instr::ArrayLength(_, _) => nowhere,
        Instr::ArrayList(_, _) => nowhere,
        Instr::Store(_, _, _) => nowhere,
        Instr::Print(_) => nowhere,
        Instr::Read(_) => nowhere,
        Instr::Call(_, _, _) => nowhere,
        Instr::Return(_) => nowhere,
        Instr::Stop => nowhere,
        Instr::Assume(_, _) => nowhere,
    }
}

/// Where each line goes by name.
pub(crate) fn jumps_of(
    alloc: Global,
    lines: &[Line],
    labels: &Labels,
) -> Result<List<Jump>, AllocError>
    requires labels { labels.now ≡ labels_of lines.now }
    requires named { NamesItsLabels lines.now }
    ensures { IfOk result (GoTo lines.now lines.now) }
{
    let mut jumps = List::new(alloc);
    for line in lines {
        jumps.push(jump_of(&line.instr, labels))?;
    }
    Ok(jumps)
}
