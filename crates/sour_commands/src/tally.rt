ghost use Rattle.std.specs.Prelude.{◌≡◌, List, [], ◌∷◌, ◌++◌};
ghost use Rattle.sour_semantics.specs.Block.{BlockEnd};
ghost use Rattle.sour_report.specs.Report.{end_kind};
ghost use Rattle.sour_commands.specs.Status.{status_of_blocks};
ghost use Rattle.sour_commands.specs.Tally.{Counts};

use sour_machine::End;

/// Of which kinds the blocks were that have been written so far.
#[derive(Clone, Copy, Debug, PartialEq, Eq)]
pub struct Tally {
    memory: bool,
    cut: bool,
    trap: bool,
}

impl Tally {
    /// No block yet.
    pub fn new() -> Tally
        ensures { Counts [] result }
    {
        Tally {
            memory: false,
            cut: false,
            trap: false,
        }
    }

    /// Counts one more block.
    pub fn count(&mut self, end: End)
        ensures { (ends : List BlockEnd) → Counts ends self.old
            → Counts (ends ++ end_kind end ∷ []) self.new }
    {
        match end {
            End::Returned(_) | End::Stopped => {}
            End::Trapped(_) => self.trap = true,
            End::Cut => self.cut = true,
            End::Memory => self.memory = true,
        }
    }

    /// The status that these blocks give.
    pub fn status(self) -> u8
        ensures { (ends : List BlockEnd) → Counts ends self → result ≡ status_of_blocks ends }
    {
        if self.memory {
            6
        } else if self.cut {
            7
        } else if self.trap {
            1
        } else {
            0
        }
    }
}
