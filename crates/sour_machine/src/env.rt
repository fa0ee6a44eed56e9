ghost use Rattle.std.specs.Prelude.{◌≡◌, ◌<◌, ◌≤◌, ◌-◌, ◌++◌, ◌∷◌, [], Some, None, length, replicate, slice_get, slice_set, IfOk, OnOk, OnErr};
ghost use Rattle.std.specs.Option.{option_flatten};
ghost use Rattle.sour_syntax.specs.Scopes.{IsInScope};
ghost use Rattle.sour_semantics.specs.Validity.{scope_of};

use sour_syntax::{Value, VarId};
use std::alloc::{AllocError, Global};
use std::marker::Model;

/// The values of the variables of a frame, by their numbers. Contracts see the language's environment.
#[derive(Drop)]
pub struct Env {
    values: Vec<Option<Value>>,
}

impl Model for Env {
    ghost use Rattle.sour_semantics.specs.State.{Environment};

    ghost Value = { Environment };

    ghost view = { λ env. env.values.items };
}

impl Env {
    /// No variables. It takes no memory.
    pub fn new(alloc: Global) -> Env
        ensures { result ≡ [] }
    {
        Env {
            values: Vec::new(alloc),
        }
    }

    /// How many variables there are.
    pub fn len(&self) -> usize
        ensures { result ≡ length self.now }
    {
        self.values.len()
    }

    /// Puts a variable with this value behind the others.
    pub fn push(&mut self, value: Value) -> Result<(), AllocError>
        ensures ok { OnOk result (self.new ≡ self.old ++ Some value ∷ []) }
        ensures err { OnErr result (self.new ≡ self.old) }
    {
        self.values.push(Some(value))?;
        Ok(())
    }

    /// Puts variables without a value behind the others, up to this number of variables.
    pub fn extend_to(&mut self, count: usize) -> Result<(), AllocError>
        requires { length self.old ≤ count }
        ensures ok { OnOk result (self.new ≡ self.old ++ replicate (count - length self.old) None) }
        ensures err { OnErr result (self.new ≡ self.old) }
    {
        self.values.resize(count, None)
    }

    /// Makes room for so many variables more, so that to put them in takes no memory.
    pub(crate) fn reserve(&mut self, more: usize) -> Result<(), AllocError>
        ensures { self.new ≡ self.old }
    {
        self.values.reserve(more)
    }

    /// Takes all variables out, and keeps the room for as many.
    pub(crate) fn clear_all(&mut self)
        ensures { self.new ≡ [] }
    {
        self.values.clear();
    }

    /// The value of a variable, where it has one.
    pub fn get(&self, x: VarId) -> Option<Value>
        ensures { result ≡ option_flatten (slice_get self.now x.0) }
    {
        self.values.get(x.0 as usize).copied().flatten()
    }

    /// The value of a variable that has one.
    #[inline(always)]
    pub(crate) fn value(&self, x: VarId) -> &Value
        requires { IsInScope (scope_of self.now) x }
        ensures { slice_get self.now x.0 ≡ Some (Some result.now) }
    {
        match &self.values[x.0 as usize] {
            Some(value) => value,
            None => unreachable!(),
        }
    }

    /// Gives a variable a value.
    #[inline(always)]
    pub fn set(&mut self, x: VarId, value: Value)
        requires { x.0 < length self.old }
        ensures { self.new ≡ slice_set self.old x.0 (Some value) }
    {
        self.values[x.0 as usize] = Some(value);
    }

    /// Takes the value of a variable away.
    pub fn clear(&mut self, x: VarId)
        requires { x.0 < length self.old }
        ensures { self.new ≡ slice_set self.old x.0 None }
    {
        self.values[x.0 as usize] = None;
    }
}
