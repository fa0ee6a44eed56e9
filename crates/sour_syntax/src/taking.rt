//! The scope of each place of a body, or the first fault of its scopes: again and again the
//! smallest place that has a scope and wasn't taken is taken.

ghost use Rattle.std.specs.Prelude.{◌≡◌, ◌≤◌, ◌<◌, ◌+◌, ◌++◌, ℕ, List, Some, Err, length, slice_get, IfOk, IfSome, IfNone};
ghost use Rattle.std.specs.Option.{option_to_list};
ghost use Rattle.sour_syntax.specs.declared.instruction.Line.{Line};
ghost use Rattle.sour_syntax.specs.Body.{IsWellFormed};
ghost use Rattle.sour_syntax.specs.BodyView.{BodyView};
ghost use Rattle.sour_syntax.specs.Jumps.{GoesTo, GoTo};
ghost use Rattle.sour_syntax.specs.Labels.{label_at};
ghost use Rattle.sour_syntax.specs.Scopes.{Scope, first_scope, following_labels, IsFine};
ghost use Rattle.sour_syntax.specs.Spread.{following, unless_found};
ghost use Rattle.sour_syntax.specs.Taking.{PlaceState, first_places, place_scope, take_instr, taken};

use crate::body_fault::BodyFault;
use crate::instruction::Instr;
use crate::jump::Jump;
use crate::parts::Parts;
use crate::places::Places;
use crate::scopes::{change_scope, has_needed, lacks_declared};
use std::alloc::{AllocError, Global};

/// The places that may follow an instruction, where `next` is that of the next line.
fn following(instr: &Instr, jump: Jump, next: usize) -> (Option<usize>, Option<usize>)
    ensures { option_to_list result.0 ++ option_to_list result.1 ≡ following instr.now jump next }
{
    match instr {
        Instr::Branch(_, _, _) => (Some(jump.first), Some(jump.second)),
        Instr::Goto(_) => (Some(jump.first), None),
        Instr::Return(_) => (None, None),
        Instr::Stop => (None, None),
        Instr::Var(_, _) => (Some(next), None),
        Instr::Drop(_) => (Some(next), None),
        Instr::Assign(_, _) => (Some(next), None),
        Instr::ArrayLength(_, _) => (Some(next), None),
        Instr::ArrayList(_, _) => (Some(next), None),
        Instr::Store(_, _, _) => (Some(next), None),
        Instr::Print(_) => (Some(next), None),
        Instr::Read(_) => (Some(next), None),
        Instr::Call(_, _, _) => (Some(next), None),
        Instr::Assume(_, _) => (Some(next), None),
    }
}

/// The fault of the instruction at a place, if it may not stand there where this is the scope.
fn fault_at(place: usize, instr: &Instr, scope: &[bool]) -> Option<BodyFault>
    ensures fine { IfNone result (IsFine instr.now scope.now) }
    ensures fault { IfSome result (λ fault.
        (body : BodyView) (labels : List (List ℕ)) (places : List PlaceState)
        → take_instr body place instr.now scope.now labels places ≡ Err fault) }
{
    if !has_needed(instr, scope) {
        return Some(BodyFault::NotInScope(place));
    }
    if !lacks_declared(instr, scope) {
        return Some(BodyFault::InScope(place));
    }
    None
}

/// The scope at the first line: the parameters.
fn first_scope_of(alloc: Global, parts: &Parts) -> Result<Vec<bool>, AllocError>
    requires { parts.now.parameters ≤ length parts.now.variables }
    ensures { IfOk result (λ scope. scope.items ≡ first_scope parts.now) }
{
    let mut scope = vec![in alloc; true; parts.parameters()]?;
    scope.resize(parts.count(), false)?;
    Ok(scope)
}

/// The places of a body before any is taken.
fn first_places_of(alloc: Global, parts: &Parts) -> Result<Places, AllocError>
    requires some { 0 < length parts.now.lines }
    requires parameters { parts.now.parameters ≤ length parts.now.variables }
    ensures { IfOk result (λ places. places
        ≡ first_places (first_scope parts.now) parts.now.lines) }
{
    let mut places = Places::new(alloc, parts.lines().len())?;
    let first = first_scope_of(alloc, parts)?;
    places.reach(alloc, 0, first.as_slice())?;
    Ok(places)
}

/// Takes the instruction at a place: its scope comes to the places that may follow. The fault in
/// that, if there is one.
fn take_instr(
    alloc: Global,
    parts: &Parts,
    jump: Jump,
    place: usize,
    places: &mut Places,
) -> Result<Option<BodyFault>, AllocError>
    requires form { IsWellFormed parts.now }
    requires within { place < length parts.now.lines }
    requires long { length places.old ≡ length parts.now.lines }
    requires goes { (line : Line) → slice_get parts.now.lines place ≡ Some line
        → GoesTo parts.now.lines line.instr jump }
    requires scope { (scope : Scope) × (place_scope (slice_get places.old place) ≡ Some scope) }
    ensures { IfOk result (λ found. (line : Line) (scope : Scope)
        → slice_get parts.now.lines place ≡ Some line
        → place_scope (slice_get places.old place) ≡ Some scope
        → take_instr parts.now place line.instr scope
        (following_labels line.instr (label_at parts.now.lines (place + 1))) places.old
        ≡ unless_found found places.new) }
{
    let line = &parts.lines()[place];
    let mut scope = places.scope_at(alloc, place)?;
    if let Some(fault) = fault_at(place, &line.instr, scope.as_slice()) {
        return Ok(Some(fault));
    }
    change_scope(&line.instr, &mut scope);
    let next = following(&line.instr, jump, place + 1);
    places.come_each(alloc, &parts.variables, place, next, scope.as_slice())
}

/// The places of a body once each that can be taken was, or the first fault of its scopes.
pub(crate) fn taken_places(
    alloc: Global,
    parts: &Parts,
    jumps: &[Jump],
) -> Result<Result<Places, BodyFault>, AllocError>
    requires form { IsWellFormed parts.now }
    requires jumps { GoTo parts.now.lines parts.now.lines jumps.now }
    ensures { IfOk result (λ found. taken parts.now ≡ found) }
{
    let mut places = first_places_of(alloc, parts)?;
    while let Some(place) = places.take_smallest() {
        if let Some(fault) = take_instr(alloc, parts, jumps[place], place, &mut places)? {
            return Ok(Err(fault));
        }
    }
    Ok(Ok(places))
}
