//! The first number of each name.

ghost use Rattle.std.specs.Prelude.{◌≡◌, ◌∷◌, ◌++◌, ◌≤◌, ℕ, List, [], length, OnOk};
ghost use Rattle.laws_scope.specs.TextOrder.{stands_before as named_before};
ghost use Rattle.sour_scope.specs.Numbering.{number_at, IsNumbering};

use indexmap::IndexMap;
use std::alloc::{AllocError, Global};
use std::marker::Model;

/// For each name that was put, the number with which it was put first. Contracts see the names with
/// their numbers.
#[derive(Drop)]
pub(crate) struct Numbers {
    numbers: IndexMap<Vec<u8>, u32>,
}

impl Model for Numbers {
    ghost use Rattle.std.specs.Prelude.{List, ℕ, map};
    ghost use Rattle.std.specs.Coded.{coded_list, coded_ℕ, coded×};

    ghost Value = { List (List ℕ × ℕ) };

    ghost coded = { coded_list (coded× (coded_list coded_ℕ) coded_ℕ) };

    ghost view = { λ numbers. map (λ entry. (entry.0.items, entry.1)) numbers.numbers.entries };
}

impl Numbers {
    /// No numbers. It takes no memory.
    pub(crate) fn new(alloc: Global) -> Numbers
        ensures { IsNumbering result [] }
    {
        Numbers {
            numbers: IndexMap::new(alloc),
        }
    }

    /// Puts a name with a number; one that is there keeps its own.
    pub(crate) fn put(&mut self, name: Vec<u8>, number: u32) -> Result<(), AllocError>
        ensures { (names : List (List ℕ)) → IsNumbering self.old names → number ≡ length names
            → OnOk result (IsNumbering self.new (names ++ name.items ∷ [])) }
    {
        if self.get(name.as_slice()).is_none() {
            self.numbers.insert(name, number)?;
        }
        Ok(())
    }

    /// The number of a name, if it has one.
    pub(crate) fn get(&self, name: &[u8]) -> Option<u32>
        ensures { result ≡ number_at self.now name.now }
    {
        self.numbers.get(name).copied()
    }

    /// Whether a name has a number below this one.
    pub(crate) fn stands_before(&self, name: &[u8], number: usize) -> bool
        ensures { (names : List (List ℕ)) → IsNumbering self.now names → number ≤ length names
            → result ≡ named_before names name.now number }
    {
        match self.get(name) {
            Some(first) => (first as usize) < number,
            None => false,
        }
    }
}
