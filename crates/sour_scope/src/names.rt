//! Names, and their numbers.

ghost use Rattle.std.specs.Prelude.{◌≡◌, ◌≢◌, ◌++◌, ◌∷◌, [], ◌↔◌, IsTrue, IfOk, OnOk, OnErr};
ghost use Rattle.std.specs.Bool.{OnTrue};
ghost use Rattle.std.specs.List.{AllByRecursion};
ghost use Rattle.sour_raw.specs.Mentions.{with_name};
ghost use Rattle.sour_checked.specs.Numbered.{number_of};
ghost use Rattle.sour_scope.specs.Known.{IsAmong};

use crate::unnumbered::Unnumbered;
use indexmap::IndexSet;
use sour_syntax::{Label, Names, VarId};
use std::alloc::{AllocError, Global};
use std::marker::Model;

/// Names, no two of them the same, in the order in which they were put. Contracts see the list of their
/// bytes, and there are fewer of them than numbers.
#[derive(Drop)]
pub(crate) struct DistinctNames {
    names: Names,
}

impl Model for DistinctNames {
    ghost use Rattle.std.specs.Prelude.{◌<◌, ◌^◌, List, ℕ, length};
    ghost use Rattle.std.specs.Coded.{coded_list, coded_ℕ};
    ghost use Rattle.sour_syntax.specs.Program.{NamesDiffer};

    ghost Value = { List (List ℕ) };

    ghost coded = { coded_list (coded_list coded_ℕ) };

    ghost view = { λ distinct. distinct.names };

    ghost invariant = { λ distinct. NamesDiffer distinct.names × (length distinct.names < 2 ^ 32) };
}

impl DistinctNames {
    /// No names. It takes no memory.
    pub(crate) fn new(alloc: Global) -> DistinctNames
        ensures { result ≡ [] }
    {
        DistinctNames {
            names: Names::new(alloc),
        }
    }

    /// The number of a name, which is unknown exactly where it isn't there.
    pub(crate) fn number(&self, name: &Label) -> Result<VarId, Unnumbered>
        ensures ok { IfOk result (λ number. number ≡ number_of self.now name.now) }
        ensures known { OnOk result (IsAmong self.now name.now) }
        ensures unknown { OnErr result (IsAmong self.now name.now → ⊥) }
    {
        match self.names.place(name.as_bytes()) {
            Some(place) => Ok(VarId(place as u32)),
            None => Err(Unnumbered::Unknown),
        }
    }

    /// Puts a name behind the others where it isn't there yet. With as many names as there are numbers
    /// it fails as it does without memory, whether the name is there or not.
    pub(crate) fn put(&mut self, alloc: Global, name: &Label) -> Result<(), AllocError>
        ensures { OnOk result (self.new ≡ with_name self.old name.now) }
    {
        if self.names.len() >= u32::MAX as usize {
            return Err(AllocError);
        }
        let copy = Vec::from_slice(alloc, name.as_bytes())?;
        self.names.add(copy)?;
        Ok(())
    }

    /// The names alone.
    pub(crate) fn into_names(self) -> Names
        ensures { result ≡ self }
    {
        let DistinctNames { names } = self;
        names
    }
}

/// Names that were seen, no two of them the same. Contracts see the list of their bytes.
#[derive(Drop)]
pub(crate) struct Seen<'a> {
    names: IndexSet<&'a [u8]>,
}

impl<'a> Model for Seen<'a> {
    ghost use Rattle.std.specs.Prelude.{List, ℕ, map};
    ghost use Rattle.std.specs.Coded.{coded_list, coded_ℕ};

    ghost Value = { List (List ℕ) };

    ghost coded = { coded_list (coded_list coded_ℕ) };

    ghost view = { λ seen. map (λ name. name.now) seen.names.keys };
}

impl<'a> Seen<'a> {
    /// No names. It takes no memory.
    pub(crate) fn new(alloc: Global) -> Seen<'a>
        ensures { result ≡ [] }
    {
        Seen {
            names: IndexSet::new(alloc),
        }
    }

    /// Puts a name behind the others, and says whether it wasn't there before.
    pub(crate) fn add(&mut self, name: &'a [u8]) -> Result<bool, AllocError>
        ensures whether { IfOk result (λ is_new. IsTrue is_new ↔ AllByRecursion (λ other.
            other ≢ name.now) self.old) }
        ensures put { IfOk result (λ is_new. OnTrue is_new (self.new ≡ self.old ++ name.now ∷ [])) }
    {
        let is_new = self.names.insert(name)?;
        Ok(is_new)
    }
}
