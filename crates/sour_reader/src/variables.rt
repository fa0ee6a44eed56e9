//! The variables of a version so far, while it is read.

ghost use Rattle.std.specs.Prelude.{◌≡◌, ◌++◌, ◌∷◌, [], true, false, IfOk, OnOk};
ghost use Rattle.sour_raw.specs.Mentions.{with_name};
ghost use Rattle.sour_raw.specs.Names.{is_name as passes};
ghost use Rattle.sour_raw.specs.Variables.{is_known as knows, fits as fits_among, may_mention};

use crate::words::{is_name, is_short};
use indexmap::IndexSet;
use std::alloc::{AllocError, Global};
use std::marker::Model;

/// The most variables that a version has.
const MAX_VARIABLES: usize = 1024;

/// The names of the variables so far, in the order of their first mention. Contracts see the list of their bytes.
#[derive(Drop)]
pub(crate) struct Variables {
    names: IndexSet<Vec<u8>>,
    /// How many of them pass the test of names, as all of them do that a text gives.
    count: usize,
}

impl Model for Variables {
    ghost use Rattle.std.specs.Prelude.{◌≡◌, List, ℕ, length, filter, map};
    ghost use Rattle.std.specs.Coded.{coded_list, coded_ℕ};
    ghost use Rattle.sour_raw.specs.Names.{is_name};

    ghost Value = { List (List ℕ) };

    ghost coded = { coded_list (coded_list coded_ℕ) };

    ghost view = { λ variables. map (λ name. name.items) variables.names.keys };

    ghost invariant = { λ variables. variables.count ≡ length (filter is_name (map (λ name. name.items) variables.names.keys)) };
}

impl Variables {
    /// No variables. It takes no memory.
    pub(crate) fn new(alloc: Global) -> Variables
        ensures { result ≡ [] }
    {
        Variables {
            names: IndexSet::new(alloc),
            count: 0,
        }
    }

    /// Whether a name is one of them.
    fn is_known(&self, name: &[u8]) -> bool
        ensures { result ≡ knows self.now name.now }
    {
        self.names.contains(name)
    }

    /// Whether a name is short, or one of them.
    pub(crate) fn fits(&self, name: &[u8]) -> bool
        ensures { result ≡ fits_among self.now name.now }
    {
        is_short(name) || self.is_known(name)
    }

    /// Puts a name after the others.
    fn put(&mut self, alloc: Global, name: &[u8]) -> Result<(), AllocError>
        requires { knows self.old name.now ≡ false }
        ensures { OnOk result (self.new ≡ self.old ++ name.now ∷ []) }
    {
        let copied = Vec::from_slice(alloc, name)?;
        self.names.insert(copied)?;
        let len = self.names.len();
        prove!(self.count < len);
        if is_name(name) {
            self.count += 1;
        }
        Ok(())
    }

    /// Puts a name after the others where it isn't one of them.
    pub(crate) fn add(&mut self, alloc: Global, name: &[u8]) -> Result<(), AllocError>
        ensures { OnOk result (self.new ≡ with_name self.old name.now) }
    {
        if !self.is_known(name) {
            self.put(alloc, name)?;
        }
        Ok(())
    }

    /// Whether a name may be mentioned as a variable. If so, it is then one of them.
    pub(crate) fn mention(&mut self, alloc: Global, name: &[u8]) -> Result<bool, AllocError>
        requires { passes name.now ≡ true }
        ensures may { IfOk result (λ may. may ≡ may_mention self.old name.now) }
        ensures put { IfOk result (λ may. may ≡ true → self.new ≡ with_name self.old name.now) }
    {
        if self.is_known(name) {
            Ok(true)
        } else if is_short(name) && self.count < MAX_VARIABLES {
            self.put(alloc, name)?;
            Ok(true)
        } else {
            Ok(false)
        }
    }
}
