ghost use Rattle.std.specs.Prelude.{◌≡◌};
ghost use Rattle.sour_commands.specs.declared.fault.Fault.TheVariants as fault;
ghost use Rattle.sour_commands.specs.Answer.{refusal, IsGiven};
ghost use Rattle.sour_commands.specs.Fault.{fault_line, fault_status};
ghost use Rattle.sour_commands.specs.Ports.{sink_moves};

use crate::output::write_output;
use itoa::Buffer;
use sour_ports::Sink;
use sour_report::{ShortLine, put};

/// Why a line is written in place of what was asked for.
#[derive(Clone, Copy, Debug, PartialEq, Eq)]
pub enum Fault {
    /// The words ask for nothing that there is.
    Words,
    /// The source failed.
    Read,
    /// The text has more bytes than a text may have.
    TextTooLong,
    /// The text doesn't read as a job: its first fault.
    Text {
        /// The number of the fault, as `sour_reader` tells it.
        kind: u32,
        /// Its line, counted from 1.
        line: u64,
        /// Its column in bytes, counted from 1.
        column: u64,
    },
    /// The names or the scopes of the text are wrong: their first fault.
    Scope {
        /// The number of the fault, as `sour_scope` tells it.
        kind: u32,
        /// Its line, counted from 1.
        line: u64,
    },
    /// There was no memory before anything was written.
    Memory,
}

impl Fault {
    /// The line that is written.
    fn line(self) -> ShortLine
        ensures { result.items ≡ fault_line self }
    {
        let mut written = ShortLine::new();
        match self {
            Fault::Words => put(&mut written, b"fault words\n"),
            Fault::Read => put(&mut written, b"fault read\n"),
            Fault::TextTooLong => put(&mut written, b"fault text 5 line 0 column 0\n"),
            Fault::Text { kind, line, column } => return text_line(kind, line, column),
            Fault::Scope { kind, line } => return scope_line(kind, line),
            Fault::Memory => put(&mut written, b"fault memory\n"),
        }
        written
    }

    /// The status where the line was written.
    fn status(self) -> u8
        ensures { result ≡ fault_status self }
    {
        match self {
            Fault::Words => 2,
            Fault::TextTooLong | Fault::Text { .. } | Fault::Scope { .. } => 3,
            Fault::Read => 4,
            Fault::Memory => 6,
        }
    }
}

/// The line of the first fault of a text.
fn text_line(kind: u32, line: u64, column: u64) -> ShortLine
    ensures { result.items ≡ fault_line (fault.Text kind line column) }
{
    let mut digits = Buffer::new();
    let mut written = ShortLine::new();
    put(&mut written, b"fault text ");
    put(&mut written, digits.format(kind).as_bytes());
    put(&mut written, b" line ");
    put(&mut written, digits.format(line).as_bytes());
    put(&mut written, b" column ");
    put(&mut written, digits.format(column).as_bytes());
    put(&mut written, b"\n");
    written
}

/// The line of the first fault of names and scopes.
fn scope_line(kind: u32, line: u64) -> ShortLine
    ensures { result.items ≡ fault_line (fault.Scope kind line) }
{
    let mut digits = Buffer::new();
    let mut written = ShortLine::new();
    put(&mut written, b"fault scope ");
    put(&mut written, digits.format(kind).as_bytes());
    put(&mut written, b" line ");
    put(&mut written, digits.format(line).as_bytes());
    put(&mut written, b"\n");
    written
}

/// Writes the line of a fault, and gives the status.
pub fn write_fault<K: Sink>(sink: &mut K, fault: Fault) -> u8
    ensures { IsGiven (refusal fault) (sink_moves K.taken K.faults sink.old sink.new) result }
{
    write_output(sink, fault.line().as_slice(), fault.status())
}
