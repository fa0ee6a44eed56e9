//! The places of a body, to which scopes come.

ghost use Rattle.std.specs.Prelude.{◌≡◌, ◌<◌, ◌++◌, None, Some, length, replicate, slice_get, slice_set, IfOk, OnOk, IfSome, IfNone};
ghost use Rattle.std.specs.List.{AllByRecursion};
ghost use Rattle.std.specs.Option.{option_copied, option_to_list};
ghost use Rattle.sour_syntax.specs.Scopes.{Scope};
ghost use Rattle.sour_syntax.specs.Spread.{come_places, unless_found};
ghost use Rattle.sour_syntax.specs.Taking.{Unreached, Reached, Taken, come, place_scope, smallest};

use crate::body_fault::BodyFault;
use crate::list::List;
use crate::names::Names;
use crate::place_state::PlaceState;
use crate::scope_lists::names_of;
use std::alloc::{AllocError, Global};
use std::collections::BTreeSet;
use std::marker::Model;

/// What is known of each place of a body. Contracts see the list of that.
#[derive(Drop)]
pub(crate) struct Places {
    states: Vec<PlaceState>,
    /// The places that have a scope and weren't taken.
    waiting: BTreeSet<usize>,
}

impl Model for Places {
    ghost use Rattle.std.specs.Prelude.{◌≡◌, List};
    ghost use Rattle.sour_syntax.specs.declared.place_state.PlaceState.{PlaceState};
    ghost use Rattle.sour_syntax.specs.Spread.{waiting_places};

    ghost Value = { List PlaceState };

    ghost view = { λ places. places.states.items };

    ghost invariant = { λ places. places.waiting.keys ≡ waiting_places 0 places.states.items };
}

impl Places {
    /// So many places, none of which has a scope.
    pub(crate) fn new(alloc: Global, count: usize) -> Result<Places, AllocError>
        ensures { IfOk result (λ places. places ≡ replicate count Unreached) }
    {
        let mut states = Vec::with_capacity(alloc, count)?;
        for _ in 0..count {
            states.push(PlaceState::Unreached)?;
        }
        Ok(Places {
            states,
            waiting: BTreeSet::new(alloc),
        })
    }

    /// What is known of each place, in order.
    pub(crate) fn as_slice(&self) -> &[PlaceState]
        ensures { result.now ≡ self.now }
    {
        self.states.as_slice()
    }

    /// A place that has no scope gets this one.
    pub(crate) fn reach(
        &mut self,
        alloc: Global,
        place: usize,
        scope: &[bool],
    ) -> Result<(), AllocError>
        requires { slice_get self.old place ≡ Some Unreached }
        ensures { OnOk result (self.new ≡ slice_set self.old place (Reached scope.now)) }
    {
        let scope = List::from_vec(Vec::from_slice(alloc, scope)?);
        self.waiting.insert(place)?;
        self.states[place] = PlaceState::Reached(scope);
        Ok(())
    }

    /// Takes the smallest place that has a scope and wasn't taken; none where there is none.
    pub(crate) fn take_smallest(&mut self) -> Option<usize>
        ensures some { IfSome result (λ place. (scope : Scope)
            × (smallest 0 self.old ≡ Some (place, scope))
            × (self.new ≡ slice_set self.old place (Taken scope))) }
        ensures none { IfNone result (smallest 0 self.old ≡ None) }
        ensures kept { IfNone result (self.new ≡ self.old) }
    {
        let place = self.waiting.pop_first()?;
        self.states[place].take();
        Some(place)
    }

    /// A copy of the scope of a place that has one.
    pub(crate) fn scope_at(&self, alloc: Global, place: usize) -> Result<Vec<bool>, AllocError>
        requires { (scope : Scope) × (place_scope (slice_get self.now place) ≡ Some scope) }
        ensures { IfOk result (λ scope. place_scope (slice_get self.now place)
            ≡ Some scope.items) }
    {
        let scope = self.states[place].scope().unwrap();
        Vec::from_slice(alloc, scope)
    }

    /// A scope comes from the instruction at one place to another: the fault in that, if it has
    /// another scope.
    fn come(
        &mut self,
        alloc: Global,
        names: &Names,
        from: usize,
        to: usize,
        scope: &[bool],
    ) -> Result<Option<BodyFault>, AllocError>
        requires { to < length self.old }
        ensures { IfOk result (λ found. come names.now from scope.now self.old to
            (place_scope (slice_get self.old to)) ≡ unless_found found self.new) }
    {
        let Some(other) = self.states[to].scope() else {
            self.reach(alloc, to, scope)?;
            return Ok(None);
        };
        if other == scope {
            return Ok(None);
        }
        let had = names_of(alloc, names, other)?;
        let gets = names_of(alloc, names, scope)?;
        Ok(Some(BodyFault::ScopesDiffer(from, had, gets)))
    }

    /// The same to a place, if there is one.
    fn come_if(
        &mut self,
        alloc: Global,
        names: &Names,
        from: usize,
        to: Option<usize>,
        scope: &[bool],
    ) -> Result<Option<BodyFault>, AllocError>
        requires { IfSome to (λ place. place < length self.old) }
        ensures { IfOk result (λ found. come_places names.now from scope.now
            (option_to_list to) self.old ≡ unless_found found self.new) }
    {
        match to {
            Some(to) => self.come(alloc, names, from, to, scope),
            None => Ok(None),
        }
    }

    /// The same to each of up to two places in turn.
    pub(crate) fn come_each(
        &mut self,
        alloc: Global,
        names: &Names,
        from: usize,
        to: (Option<usize>, Option<usize>),
        scope: &[bool],
    ) -> Result<Option<BodyFault>, AllocError>
        requires { AllByRecursion (λ place. place < length self.old)
            (option_to_list to.0 ++ option_to_list to.1) }
        ensures { IfOk result (λ found. come_places names.now from scope.now
            (option_to_list to.0 ++ option_to_list to.1) self.old ≡ unless_found found self.new) }
    {
        let (first, second) = to;
        if let Some(fault) = self.come_if(alloc, names, from, first, scope)? {
            return Ok(Some(fault));
        }
        self.come_if(alloc, names, from, second, scope)
    }
}
