//! Names of which no two on a line may be the same.

ghost use Rattle.std.specs.Prelude.{◌≡◌, ◌↔◌, IsTrue, IfOk};
ghost use Rattle.std.specs.List.{AllByRecursion};
ghost use Rattle.sour_syntax.specs.Program.{NamesDiffer};
ghost use Rattle.sour_checked.specs.Parts.{Leave, left_names, further, exit_leaves, leaves};

use crate::names::Seen;
use sour_raw::{RawBind, RawExit, RawExtra, RawInstr};
use sour_syntax::Label;
use std::alloc::{AllocError, Global};

/// Whether no two of the names are the same.
pub(crate) fn are_distinct(alloc: Global, names: &[Label]) -> Result<bool, AllocError>
    ensures { IfOk result (λ distinct. IsTrue distinct ↔ NamesDiffer names.now) }
{
    let mut seen = Seen::new(alloc);
    for name in names {
        if !seen.add(name.as_bytes())? {
            return Ok(false);
        }
    }
    Ok(true)
}

/// Whether no two names of a map are the same.
fn is_distinct_map(alloc: Global, binds: &[RawBind]) -> Result<bool, AllocError>
    ensures { IfOk result (λ distinct. IsTrue distinct ↔ NamesDiffer (left_names binds.now)) }
{
    let mut seen = Seen::new(alloc);
    for bind in binds {
        if !seen.add(bind.name.as_bytes())? {
            return Ok(false);
        }
    }
    Ok(true)
}

/// Whether no two names of the map of a further continuation are the same, whichever it is.
fn are_distinct_extras(alloc: Global, extras: &[RawExtra]) -> Result<bool, AllocError>
    ensures { IfOk result (λ distinct. IsTrue distinct ↔ AllByRecursion (λ extra.
        NamesDiffer (further extra).names) extras.now) }
{
    for extra in extras {
        if !is_distinct_map(alloc, extra.map.as_slice())? {
            return Ok(false);
        }
    }
    Ok(true)
}

/// Whether no two names of one map of an instruction are the same.
pub(crate) fn has_distinct_maps(alloc: Global, instr: &RawInstr) -> Result<bool, AllocError>
    ensures { IfOk result (λ distinct. IsTrue distinct
        ↔ AllByRecursion (λ (leave : Leave). NamesDiffer leave.names) (leaves instr.now)) }
{
    match instr {
        RawInstr::Assume(_, exit) => Ok(
            is_distinct_map(alloc, exit.map.as_slice())?
                && are_distinct_extras(alloc, exit.extras.as_slice())?,
        ),
        _ => Ok(true),
    }
}
