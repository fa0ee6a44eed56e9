ghost use Rattle.std.specs.Prelude.{◌≡◌};
ghost use Rattle.sour_machine.specs.End.{returned_cells};

use crate::activation::Activation;
use crate::heap::Heap;
use crate::output::Output;
use crate::report::End;
use crate::text::count_cells;
use crate::waiting_frames::WaitingFrames;

/// How far a run has come.
#[derive(Drop)]
pub(crate) struct Moment {
    /// The top frame.
    pub(crate) frame: Activation,
    /// The frames below it.
    pub(crate) below: WaitingFrames,
    pub(crate) heap: Heap,
    /// How many values of the input were read so far.
    pub(crate) read: usize,
    pub(crate) output: Output,
    /// The turns taken so far.
    pub(crate) turns: u64,
    /// How many frames were entered so far.
    pub(crate) calls: u64,
    /// What a report would say: `Cut` as long as the run goes on.
    pub(crate) end: End,
}

impl Moment {
    /// How many cells the array has that the run returned; 0 where it returned none.
    pub(crate) fn cells_returned(&self) -> u64
        ensures { result ≡ returned_cells self.now.heap self.now.end }
    {
        match self.end {
            End::Returned(value) => count_cells(value, &self.heap),
            _ => 0,
        }
    }
}
