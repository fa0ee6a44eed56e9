ghost use Rattle.std.specs.Prelude.{◌≡◌, ◌≢◌, ◌^◌, ◌<◌, ◌≤◌, [], Some, length, slice_get, IfOk, OnErr, IfSome, IfNone};
ghost use Rattle.std.specs.List.{AllByRecursion};
ghost use Rattle.std.specs.Option.{option_copied};
ghost use Rattle.sour_syntax.specs.Names.{Numbers};

use crate::literal::VarId;
use indexmap::IndexSet;
use std::alloc::{AllocError, Global};
use std::marker::Model;

/// The names of a body's variables, each once, in the order of their numbers. Contracts see the list
/// of their bytes.
#[derive(Drop)]
pub struct Names {
    names: IndexSet<Vec<u8>>,
}

impl Model for Names {
    ghost use Rattle.std.specs.Prelude.{◌≤◌, ◌^◌, List, ℕ, length, map};
    ghost use Rattle.std.specs.Coded.{coded_list, coded_ℕ};

    ghost Value = { List (List ℕ) };

    ghost coded = { coded_list (coded_list coded_ℕ) };

    ghost view = { λ names. map (λ name. name.items) names.names.keys };

    ghost invariant = { λ names. length names.names.keys ≤ 2 ^ 32 };
}

impl Names {
    /// No names. It takes no memory.
    pub fn new(alloc: Global) -> Names
        ensures { result ≡ [] }
    {
        Names {
            names: IndexSet::new(alloc),
        }
    }

    /// How many names there are. Each has a number, so there are no more of them than numbers.
    pub fn len(&self) -> usize
        ensures value { result ≡ length self.now }
        ensures few { result ≤ 2 ^ 32 }
    {
        self.names.len()
    }

    /// The name at a place, counted from 0, if there is one.
    pub fn get(&self, place: usize) -> Option<&[u8]>
        ensures { option_copied result ≡ slice_get self.now place }
    {
        let name = self.names.get_index(place)?;
        Some(name.as_slice())
    }

    /// The place of a name, counted from 0; none exactly where it isn't among the names.
    pub fn place(&self, name: &[u8]) -> Option<usize>
        ensures found { IfSome result (λ place. slice_get self.now place ≡ Some name.now) }
        ensures none { IfNone result (AllByRecursion (λ other. other ≢ name.now) self.now) }
    {
        self.names.get_index_of(name)
    }

    /// The number of a name, which is put behind the others where it isn't there yet.
    pub fn add(&mut self, name: Vec<u8>) -> Result<VarId, AllocError>
        requires { length self.old < 2 ^ 32 }
        ensures ok { IfOk result (λ x. Numbers self.old self.new name.items x) }
        ensures err { OnErr result (self.new ≡ self.old) }
    {
        let (place, _) = self.names.insert_full(name)?;
        Ok(VarId(place as u32))
    }
}
