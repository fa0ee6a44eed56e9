//! The variables in scope as lists of their numbers, or of their names.

ghost use Rattle.std.specs.Prelude.{◌≡◌, Some, length, map, IfOk, IfSome};
ghost use Rattle.sour_syntax.specs.Scopes.{members};
ghost use Rattle.sour_syntax.specs.Spread.{variables_in, TellOf};
ghost use Rattle.sour_syntax.specs.Taking.{place_scope, scope_names};

use crate::label::Label;
use crate::list::List;
use crate::literal::VarId;
use crate::names::Names;
use crate::place_state::PlaceState;
use std::alloc::{AllocError, Global};

/// The variables in a scope by their numbers, in ascending order, where these are their names.
fn members_of(alloc: Global, names: &Names, scope: &[bool]) -> Result<List<VarId>, AllocError>
    requires { length scope.now ≡ length names.now }
    ensures { IfOk result (λ variables. variables ≡ members 0 scope.now) }
{
    let mut variables = List::new(alloc);
    for number in 0..names.len() {
        if scope[number] {
            variables.push(VarId(number as u32))?;
        }
    }
    Ok(variables)
}

/// The same where a place has a scope.
fn list_of(
    alloc: Global,
    names: &Names,
    place: &PlaceState,
) -> Result<Option<List<VarId>>, AllocError>
    requires { IfSome (place_scope (Some place.now)) (λ scope. length scope ≡ length names.now) }
    ensures { IfOk result (λ list. list ≡ variables_in (place_scope (Some place.now))) }
{
    match place.scope() {
        Some(scope) => {
            let variables = members_of(alloc, names, scope)?;
            Ok(Some(variables))
        }
        None => Ok(None),
    }
}

/// The same for each place.
pub(crate) fn lists_of(
    alloc: Global,
    names: &Names,
    places: &[PlaceState],
) -> Result<List<Option<List<VarId>>>, AllocError>
    requires { TellOf (length names.now) places.now }
    ensures { IfOk result (λ lists. lists
        ≡ map (λ place. variables_in (place_scope (Some place))) places.now) }
{
    let mut lists = List::new(alloc);
    for place in places {
        let list = list_of(alloc, names, place)?;
        lists.push(list)?;
    }
    Ok(lists)
}

/// The names of the variables in a scope, in the order of their numbers.
pub fn names_of(alloc: Global, names: &Names, scope: &[bool]) -> Result<List<Label>, AllocError>
    ensures { IfOk result (λ list. list ≡ scope_names names.now scope.now) }
{
    let mut list = List::new(alloc);
    for (number, is_in) in scope.iter().enumerate() {
        if !*is_in {
            continue;
        }
        if let Some(name) = names.get(number) {
            list.push(Label::from_bytes(Vec::from_slice(alloc, name)?))?;
        }
    }
    Ok(list)
}
