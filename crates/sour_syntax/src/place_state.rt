//! What is known of a place of a body.

ghost use Rattle.std.specs.Prelude.{◌≡◌, Some};
ghost use Rattle.std.specs.Option.{option_copied};
ghost use Rattle.sour_syntax.specs.Scopes.{Scope};
ghost use Rattle.sour_syntax.specs.Taking.{Reached, Taken, place_scope};

use crate::list::List;
use std::mem;

/// What is known of a place of a body as its places are taken.
#[derive(Drop)]
pub enum PlaceState {
    /// It has no scope.
    Unreached,
    /// A scope came to it.
    Reached(List<bool>),
    /// It was taken with this scope.
    Taken(List<bool>),
}

impl PlaceState {
    /// The scope of the place, if it has one.
    pub(crate) fn scope(&self) -> Option<&[bool]>
        ensures { option_copied result ≡ place_scope (Some self.now) }
    {
        match self {
            PlaceState::Unreached => None,
            PlaceState::Reached(scope) => Some(scope.as_slice()),
            PlaceState::Taken(scope) => Some(scope.as_slice()),
        }
    }

    /// The place is taken with the scope that came to it.
    pub(crate) fn take(&mut self)
        ensures { (scope : Scope) → self.old ≡ Reached scope → self.new ≡ Taken scope }
    {
        *self = match mem::replace(self, PlaceState::Unreached) {
            PlaceState::Reached(scope) => PlaceState::Taken(scope),
            other => other,
        };
    }
}
