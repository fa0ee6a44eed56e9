//! Whether a continuation of an exit fits its target.

ghost use Rattle.std.specs.Prelude.{◌≡◌, true, None, length, slice_get, slice_set};
ghost use Rattle.std.specs.Prelude.{IfOk, IfSome, IfNone};
ghost use Rattle.sour_syntax.specs.Exits.{bound_names};
ghost use Rattle.sour_syntax.specs.Taking.{place_scope};
ghost use Rattle.sour_syntax.specs.Targets.{scope_of_names};
ghost use Rattle.sour_checked.specs.Landing.{has_result, scope_without};
ghost use Rattle.sour_scope.specs.Landings.{places_of, names_of, IsReached, label_scope};
ghost use Rattle.sour_scope.specs.Landings.{continuation_fault};
ghost use Rattle.sour_scope.specs.Told.{Finds};

use crate::fault::{MAP_DIFFERS, ScopeFault, UNKNOWN};
use sour_syntax::{Bind, Body, Function, Label, List, Names, Target, VarId, body_named, names_of};
use std::alloc::{AllocError, Global};

/// Puts a variable into a scope that tells of it.
fn put(variable: VarId, scope: &mut Vec<bool>)
    ensures { scope.new.items ≡ slice_set scope.old.items variable.0 true }
{
    let place = variable.0 as usize;
    if place < scope.len() {
        scope[place] = true;
    }
}

/// The scope of so many variables in which those are that a map names.
fn mapped_scope(alloc: Global, binds: &[Bind], count: usize) -> Result<Vec<bool>, AllocError>
    ensures { IfOk result (λ scope. scope.items ≡ scope_of_names count (bound_names binds.now)) }
{
    let mut scope = vec![in alloc; false; count]?;
    for bind in binds {
        put(bind.name, &mut scope);
    }
    Ok(scope)
}

/// The scope of so many variables in which these are.
fn scope_of(alloc: Global, variables: &[VarId], count: usize) -> Result<Vec<bool>, AllocError>
    ensures { IfOk result (λ scope. scope.items ≡ scope_of_names count variables.now) }
{
    let mut scope = vec![in alloc; false; count]?;
    for variable in variables {
        put(*variable, &mut scope);
    }
    Ok(scope)
}

/// Takes the variable that waits for a result, if one does, out of a scope: whether it was in it.
fn take_result(waits: Option<u32>, scope: &mut Vec<bool>) -> bool
    ensures has { result ≡ has_result waits scope.old.items }
    ensures without { scope.new.items ≡ scope_without waits scope.old.items }
{
    let Some(variable) = waits else {
        return true;
    };
    let place = variable as usize;
    if place >= scope.len() {
        return false;
    }
    let is_in = scope[place];
    scope[place] = false;
    is_in
}

/// The names of the variables that a map names.
fn mapped_names(alloc: Global, names: &Names, binds: &[Bind]) -> Result<List<Label>, AllocError>
    ensures { IfOk result (λ list. list ≡ names_of names.now (bound_names binds.now)) }
{
    let mut list = List::new(alloc);
    for bind in binds {
        if let Some(name) = names.get(bind.name.0 as usize) {
            list.push(Label::from_bytes(Vec::from_slice(alloc, name)?))?;
        }
    }
    Ok(list)
}

/// The variables in scope at a place of a body; none exactly where the place has no scope, or there
/// is no such place.
pub(crate) fn scope_at_place(body: &Body, place: usize) -> Option<&[VarId]>
    ensures reached { IfSome result (λ variables. IsReached body.now
        (place_scope (slice_get (places_of body.now) place)) variables.now) }
    ensures unreached { IfNone result (place_scope (slice_get (places_of body.now) place) ≡ None) }
{
    // What holds of each body: its labels have one scope, and its parameters are among its
    // variables.
    let lines = body.lines();
    let parameters = body.parameters() as usize;
    prove!(parameters <= body.variables().len());
    if place < lines.len() {
        body.scope(place)
    } else {
        None
    }
}

/// The variables in scope at a label of a body; none exactly where the label has no scope, or there
/// is no such label.
fn scope_at_label<'a>(body: &'a Body, label: &Label) -> Option<&'a [VarId]>
    ensures reached { IfSome result (λ variables. IsReached body.now
        (label_scope body.now label.now) variables.now) }
    ensures unreached { IfNone result (label_scope body.now label.now ≡ None) }
{
    let place = body.place(label).unwrap_or(body.lines().len());
    scope_at_place(body, place)
}

/// Whether a continuation on a line with this target, map and waiting variable fits the scope of
/// its target.
pub(crate) fn continuation_fits(
    alloc: Global,
    functions: &[Function],
    line: u64,
    target: &Target,
    binds: &[Bind],
    waits: Option<u32>,
) -> Result<(), ScopeFault>
    ensures { Finds (continuation_fault functions.now line
        (record { target = target.now; binds = binds.now; waits = waits })) result }
{
    let Some(body) = body_named(functions, target.code) else {
        return Err(ScopeFault::nameless(alloc, UNKNOWN, line));
    };
    let Some(variables) = scope_at_label(body, &target.label) else {
        return Err(ScopeFault::nameless(alloc, UNKNOWN, line));
    };
    let names = body.variables();
    let count = names.len();
    let mapped = mapped_scope(alloc, binds, count)?;
    let mut wanted = scope_of(alloc, variables, count)?;
    if take_result(waits, &mut wanted) && mapped == wanted {
        return Ok(());
    }
    Err(ScopeFault::At {
        kind: MAP_DIFFERS,
        line,
        first: names_of(alloc, names, wanted.as_slice())?,
        second: mapped_names(alloc, names, binds)?,
    })
}
