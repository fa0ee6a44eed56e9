ghost use Rattle.std.specs.Prelude.{◌≡◌, ◌+◌, ◌≤◌, ◌∷◌, [], ◌++◌, length, codes, decimal, OnOk, OnErr};
ghost use Rattle.std.specs.Io.KnownBytes.{Appends};
ghost use Rattle.sour_ports.specs.Cause.{HasCause};
ghost use Rattle.sour_ports.specs.Told.{AppendsFront};
ghost use Rattle.sour_syntax.specs.Trap.{trap_number};
ghost use Rattle.sour_report.specs.Report.{end_line, report_block};

use crate::line::{ShortLine, put};
use itoa::Buffer;
use sour_machine::{End, Report, value_head, value_middle, value_tail};
use sour_ports::{Failed, Sink, write_all};
use sour_syntax::{Program, Trap, Value};

/// Writes the first line of a block: the number of its input.
fn write_head<K: Sink>(sink: &mut K, number: u64) -> Result<(), Failed>
    ensures all { OnOk result (Appends (K.taken sink.old) (K.taken sink.new)
        (codes "input " ++ decimal number ++ 10 ∷ [])) }
    ensures front { OnErr result (AppendsFront (K.taken sink.old) (K.taken sink.new)
        (codes "input " ++ decimal number ++ 10 ∷ [])) }
    ensures cause { OnErr result (HasCause (K.faults sink.old) (K.faults sink.new)) }
    ensures count { K.faults sink.old ≤ K.faults sink.new }
{
    let mut digits = Buffer::new();
    let mut line = ShortLine::new();
    put(&mut line, b"input ");
    put(&mut line, digits.format(number).as_bytes());
    put(&mut line, b"\n");
    write_all(sink, line.as_slice())
}

/// Writes three pieces, one behind the other.
fn write_three<K: Sink>(
    sink: &mut K,
    first: &[u8],
    second: &[u8],
    third: &[u8],
) -> Result<(), Failed>
    ensures all { OnOk result (Appends (K.taken sink.old) (K.taken sink.new)
        (first.now ++ second.now ++ third.now)) }
    ensures front { OnErr result (AppendsFront (K.taken sink.old) (K.taken sink.new)
        (first.now ++ second.now ++ third.now)) }
    ensures cause { OnErr result (HasCause (K.faults sink.old) (K.faults sink.new)) }
    ensures count { K.faults sink.old ≤ K.faults sink.new }
{
    write_all(sink, first)?;
    write_all(sink, second)?;
    write_all(sink, third)
}

/// Writes the last line of the block of a run that returned a value. `cells` is how many cells the
/// array has to which it refers, if it refers to one.
fn write_returned<K: Sink>(
    sink: &mut K,
    program: &Program,
    value: Value,
    cells: u64,
) -> Result<(), Failed>
    ensures all { OnOk result (Appends (K.taken sink.old) (K.taken sink.new)
        (end_line program.now cells (End.Returned value) ++ 10 ∷ [])) }
    ensures front { OnErr result (AppendsFront (K.taken sink.old) (K.taken sink.new)
        (end_line program.now cells (End.Returned value) ++ 10 ∷ [])) }
    ensures cause { OnErr result (HasCause (K.faults sink.old) (K.faults sink.new)) }
    ensures count { K.faults sink.old ≤ K.faults sink.new }
{
    let mut digits = Buffer::new();
    let mut first = ShortLine::new();
    put(&mut first, b"end ");
    put(&mut first, value_head(value));
    let middle = value_middle(value, program, cells, &mut digits);
    let mut last = ShortLine::new();
    put(&mut last, value_tail(value));
    put(&mut last, b"\n");
    write_three(sink, first.as_slice(), middle, last.as_slice())
}

/// Writes the last line of the block of a run that ended in a trap.
fn write_trap<K: Sink>(sink: &mut K, trap: Trap) -> Result<(), Failed>
    ensures all { OnOk result (Appends (K.taken sink.old) (K.taken sink.new)
        (codes "trap " ++ decimal (trap_number trap) ++ 10 ∷ [])) }
    ensures front { OnErr result (AppendsFront (K.taken sink.old) (K.taken sink.new)
        (codes "trap " ++ decimal (trap_number trap) ++ 10 ∷ [])) }
    ensures cause { OnErr result (HasCause (K.faults sink.old) (K.faults sink.new)) }
    ensures count { K.faults sink.old ≤ K.faults sink.new }
{
    let mut digits = Buffer::new();
    let mut line = ShortLine::new();
    put(&mut line, b"trap ");
    put(&mut line, digits.format(trap.number()).as_bytes());
    put(&mut line, b"\n");
    write_all(sink, line.as_slice())
}

/// Writes the last line of a block: how the run ended.
fn write_end<K: Sink>(sink: &mut K, program: &Program, end: End, cells: u64) -> Result<(), Failed>
    ensures all { OnOk result (Appends (K.taken sink.old) (K.taken sink.new)
        (end_line program.now cells end ++ 10 ∷ [])) }
    ensures front { OnErr result (AppendsFront (K.taken sink.old) (K.taken sink.new)
        (end_line program.now cells end ++ 10 ∷ [])) }
    ensures cause { OnErr result (HasCause (K.faults sink.old) (K.faults sink.new)) }
    ensures count { K.faults sink.old ≤ K.faults sink.new }
{
    match end {
        End::Returned(value) => write_returned(sink, program, value, cells),
        End::Stopped => write_all(sink, b"stopped\n"),
        End::Trapped(trap) => write_trap(sink, trap),
        End::Cut => write_all(sink, b"cut\n"),
        End::Memory => write_all(sink, b"memory\n"),
    }
}

/// Writes the block of a report on a run of this program. It takes no memory.
pub fn write_block<K: Sink>(sink: &mut K, program: &Program, report: &Report) -> Result<(), Failed>
    ensures all { OnOk result (Appends (K.taken sink.old) (K.taken sink.new)
        (report_block program.now report.now)) }
    ensures front { OnErr result (AppendsFront (K.taken sink.old) (K.taken sink.new)
        (report_block program.now report.now)) }
    ensures cause { OnErr result (HasCause (K.faults sink.old) (K.faults sink.new)) }
    ensures count { K.faults sink.old ≤ K.faults sink.new }
{
    write_head(sink, report.input)?;
    write_all(sink, report.output.as_slice())?;
    write_end(sink, program, report.end, report.cells)
}
