ghost use Rattle.std.specs.Prelude.{◌≡◌, []};

use sour_syntax::{List, Trap, Value};
use std::alloc::Global;

/// How a run ended.
#[derive(Clone, Copy, Debug, PartialEq, Eq)]
pub enum End {
    /// The lowest frame returned this value: that of `main`, or one for which it left.
    Returned(Value),
    /// The program stopped itself.
    Stopped,
    /// An instruction could not be carried out.
    Trapped(Trap),
    /// The run was not over when its turns were used up.
    Cut,
    /// Memory was wanting.
    Memory,
}

/// What a run came to.
#[derive(Drop)]
pub struct Report {
    /// The number of the input that the run was given, counted from 1.
    pub input: u64,
    /// The bytes that the run wrote.
    pub output: List<u8>,
    pub end: End,
    /// How many values of the input it read.
    pub read: u64,
    /// The turns that it took.
    pub turns: u64,
    /// How many calls entered a frame; entering `main` is the first.
    pub calls: u64,
    /// How many cells the array has that the run returned; 0 where it returned none.
    pub cells: u64,
}

impl Report {
    /// The report on an input for which there was no memory to run at all. It takes no memory.
    pub fn wanting(alloc: Global, input: u64) -> Report
        ensures { result ≡ record { input = input; output = []; end = End.Memory; read = 0; turns = 0; calls = 0; cells = 0 } }
    {
        Report {
            input,
            output: List::new(alloc),
            end: End::Memory,
            read: 0,
            turns: 0,
            calls: 0,
            cells: 0,
        }
    }
}
