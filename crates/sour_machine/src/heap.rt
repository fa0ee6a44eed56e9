//! The arrays of a run.

ghost use Rattle.std.specs.Prelude.{◌≡◌, ◌≤◌, ◌<◌, ◌-◌, ◌++◌, ◌∷◌, [], length, slice_get, slice_set, IfOk, IfSome, OnOk, OnErr};
ghost use Rattle.std.specs.Option.{option_copied, option_map};
ghost use Rattle.sour_semantics.specs.Step.{cell_limit, count_heap, next_array};

use sour_syntax::{ArrayId, List, Value};
use std::alloc::{AllocError, Global};
use std::marker::Model;

/// The most cells that a run may make.
const CELL_LIMIT: usize = 4_194_304;

/// The arrays that a run has made, each with its cells. Contracts see the language's heap.
#[derive(Drop)]
pub struct Heap {
    arrays: Vec<List<Value>>,
    /// How many cells they have together.
    count: usize,
}

impl Model for Heap {
    ghost use Rattle.std.specs.Prelude.{◌≡◌, ◌≤◌};
    ghost use Rattle.sour_semantics.specs.State.{Heap as Listed};
    ghost use Rattle.sour_semantics.specs.Step.{cell_limit, count_heap};

    ghost Value = { Listed };

    ghost view = { λ heap. heap.arrays.items };

    ghost invariant = { λ heap. (heap.count ≡ count_heap heap.arrays.items) × (heap.count ≤ cell_limit) };
}

impl Heap {
    /// No arrays. It takes no memory.
    pub fn new(alloc: Global) -> Heap
        ensures { result ≡ [] }
    {
        Heap {
            arrays: Vec::new(alloc),
            count: 0,
        }
    }

    /// How many cells more the run may make.
    pub fn room(&self) -> usize
        ensures room { result ≡ cell_limit - count_heap self.now }
        ensures within { count_heap self.now ≤ cell_limit }
    {
        CELL_LIMIT - self.count
    }

    /// The cells of an array; none exactly where there is no such array.
    #[inline(always)]
    pub(crate) fn cells(&self, array: ArrayId) -> Option<&[Value]>
        ensures { option_copied result ≡ slice_get self.now array.0 }
    {
        match self.arrays.get(array.0 as usize) {
            Some(cells) => Some(cells.as_slice()),
            None => None,
        }
    }

    /// How many cells an array has; none exactly where there is no such array.
    pub fn length(&self, array: ArrayId) -> Option<u64>
        ensures { result ≡ option_map length (slice_get self.now array.0) }
    {
        self.cells(array).map(|cells| cells.len() as u64)
    }

    /// Makes an array of these cells, for which there is room. Where memory is wanting nothing is made.
    pub fn add(&mut self, cells: List<Value>) -> Result<ArrayId, AllocError>
        requires { length cells ≤ cell_limit - count_heap self.old }
        ensures ok { OnOk result (self.new ≡ self.old ++ cells ∷ []) }
        ensures array { IfOk result (λ array. array ≡ next_array self.old) }
        ensures err { OnErr result (self.new ≡ self.old) }
    {
        let array = ArrayId(self.arrays.len() as u64);
        let count = cells.len();
        self.arrays.push(cells)?;
        self.count += count;
        Ok(array)
    }

    /// Writes a value into the cell of an array at a place, counted from 0.
    pub(crate) fn write(&mut self, array: ArrayId, place: usize, value: Value)
        requires array { array.0 < length self.old }
        requires place { IfSome (slice_get self.old array.0) (λ cells. place < length cells) }
        ensures { IfSome (slice_get self.old array.0) (λ cells. self.new ≡ slice_set self.old array.0 (slice_set cells place value)) }
    {
        self.arrays[array.0 as usize].set(place, value);
    }
}
