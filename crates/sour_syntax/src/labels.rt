//! From a label to its place without a scan.

ghost use Rattle.std.specs.Prelude.{◌≡◌, ◌≢◌, ◌↔◌, [], ◌∷◌, ◌++◌, Some, slice_get, IsTrue, IfOk, IfSome, IfNone, OnErr};
ghost use Rattle.std.specs.Bool.{OnTrue, OnFalse};
ghost use Rattle.std.specs.List.{AllByRecursion};
ghost use Rattle.sour_syntax.specs.Labels.{labels_of, LabelsDiffer};

use crate::instruction::Line;
use indexmap::IndexSet;
use std::alloc::{AllocError, Global};
use std::marker::Model;

/// The labels of some lines, no two of them the same, in the order of their places. Contracts see
/// the list of their bytes.
#[derive(Drop)]
pub struct Labels {
    labels: IndexSet<Vec<u8>>,
}

impl Model for Labels {
    ghost use Rattle.std.specs.Prelude.{List, ℕ, map};
    ghost use Rattle.std.specs.Coded.{coded_list, coded_ℕ};

    ghost Value = { List (List ℕ) };

    ghost coded = { coded_list (coded_list coded_ℕ) };

    ghost view = { λ labels. map (λ label. label.items) labels.labels.keys };
}

impl Labels {
    /// No labels. It takes no memory.
    pub fn new(alloc: Global) -> Labels
        ensures { result ≡ [] }
    {
        Labels {
            labels: IndexSet::new(alloc),
        }
    }

    /// The labels of these lines.
    pub(crate) fn of_lines(alloc: Global, lines: &[Line]) -> Result<Labels, AllocError>
        requires { LabelsDiffer lines.now }
        ensures { IfOk result (λ labels. labels ≡ labels_of lines.now) }
    {
        let mut labels = Labels::new(alloc);
        for line in lines {
            let label = Vec::from_slice(alloc, line.label.as_bytes())?;
            labels.add(label)?;
        }
        Ok(labels)
    }

    /// Puts a label behind the others where it isn't there yet, and says whether it wasn't.
    pub fn add(&mut self, label: Vec<u8>) -> Result<bool, AllocError>
        ensures whether { IfOk result (λ is_new. IsTrue is_new
            ↔ AllByRecursion (λ other. other ≢ label.items) self.old) }
        ensures put { IfOk result (λ is_new. OnTrue is_new
            (self.new ≡ self.old ++ label.items ∷ [])) }
        ensures kept { IfOk result (λ is_new. OnFalse is_new (self.new ≡ self.old)) }
        ensures err { OnErr result (self.new ≡ self.old) }
    {
        let is_new = self.labels.insert(label)?;
        Ok(is_new)
    }

    /// The place of a label, counted from 0; none exactly where it isn't there.
    pub fn place(&self, label: &[u8]) -> Option<usize>
        ensures found { IfSome result (λ place. slice_get self.now place ≡ Some label.now) }
        ensures none { IfNone result (AllByRecursion (λ other. other ≢ label.now) self.now) }
    {
        self.labels.get_index_of(label)
    }
}
