//! The rows of variables that returned frames left behind.

ghost use Rattle.std.specs.Prelude.{◌≡◌, []};

use crate::env::Env;
use std::alloc::Global;

/// Rows for the variables of frames to come. They have room and no variables.
#[derive(Drop)]
pub(crate) struct SpareRows {
    rows: Vec<Env>,
}

impl SpareRows {
    /// No rows. It takes no memory.
    pub(crate) fn new(alloc: Global) -> SpareRows {
        SpareRows {
            rows: Vec::new(alloc),
        }
    }

    /// A row without variables: one that was given back, or else a new one, which takes memory only as it
    /// grows.
    pub(crate) fn take(&mut self, alloc: Global) -> Env
        ensures { result ≡ [] }
    {
        match self.rows.pop() {
            Some(row) => {
                let mut row = row;
                row.clear_all();
                row
            }
            None => Env::new(alloc),
        }
    }

    /// Keeps a row for another frame, unless memory is wanting.
    pub(crate) fn give(&mut self, row: Env) {
        let _ = self.rows.push(row);
    }
}
