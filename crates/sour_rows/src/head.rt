//! The lines of a row before its text.

ghost use Rattle.std.specs.Prelude.{◌≡◌, ◌↔◌, ◌-◌, ◌++◌, Some, IsSome, IfOk, IsErrOf, OnOk, OnErr, replicate, vec_len};

use crate::answer::Answer;
use crate::fault::{LineFault, NoRow};
use crate::number::{calls_of, count_of, number_of, status_of, turns_of};
use crate::part::unend;
use crate::row::{Failing, Ports, Row, Turns};
use std::alloc::Global;
use std::num::NonZeroUsize;

/// Puts a value where none has been put before.
fn set<T: Drop>(place: &mut Option<T>, value: T) -> Result<(), LineFault>
    ensures ok { OnOk result (place.new ≡ Some value) }
    ensures again { IsErrOf result LineFault.Again ↔ IsSome place.old }
    ensures err { OnErr result (place.new ≡ place.old) }
{
    if place.is_some() {
        return Err(LineFault::Again);
    }
    *place = Some(value);
    Ok(())
}

/// The calls of a port that fail.
#[derive(Debug, Drop)]
enum Calls {
    Listed(Vec<u64>),
    InTurn(Turns),
}

impl Calls {
    fn are_none(&self) -> bool {
        match self {
            Calls::Listed(calls) => calls.is_empty(),
            Calls::InTurn(_) => false,
        }
    }
}

/// What the lines have said of a port so far.
#[derive(Debug, Drop)]
struct PortLines {
    pieces: Option<NonZeroUsize>,
    calls: Option<Calls>,
}

impl PortLines {
    fn new() -> PortLines {
        PortLines {
            pieces: None,
            calls: None,
        }
    }

    /// Takes what a line says after the name of the port.
    fn take(&mut self, alloc: Global, words: &[&str]) -> Result<(), LineFault> {
        match words {
            ["pieces", number] => set(&mut self.pieces, count_of(number)?),
            ["fails", "in", "turn", first, "to", last] => {
                set(&mut self.calls, Calls::InTurn(turns_of(first, last)?))
            }
            ["fails", numbers @ ..] => set(
                &mut self.calls,
                Calls::Listed(calls_of(alloc, numbers)?),
            ),
            _ => Err(LineFault::Unknown),
        }
    }
}

/// What the lines before the text have said so far.
#[derive(Debug, Drop)]
pub struct Head {
    words: Vec<String>,
    status: Option<u8>,
    source: PortLines,
    sink: PortLines,
    room: Option<usize>,
    blanks: Option<usize>,
    text_unended: Option<()>,
    written_unended: Option<()>,
}

impl Head {
    /// Nothing so far.
    pub fn new(alloc: Global) -> Head {
        Head {
            words: Vec::new(alloc),
            status: None,
            source: PortLines::new(),
            sink: PortLines::new(),
            room: None,
            blanks: None,
            text_unended: None,
            written_unended: None,
        }
    }

    /// Takes a line, without its line feed.
    pub fn take(&mut self, alloc: Global, line: &[u8]) -> Result<(), LineFault> {
        let Ok(line) = str::from_utf8(line) else {
            return Err(LineFault::Unknown);
        };
        if let Some(word) = line.strip_prefix("word ") {
            self.words.push(String::from_str(alloc, word)?)?;
            return Ok(());
        }
        let words: Vec<&str> = line.split(' ').collect(alloc)?;
        self.take_words(alloc, words.as_slice())
    }

    /// Takes the words of a line that gives no word of the command line, or an empty one.
    fn take_words(&mut self, alloc: Global, words: &[&str]) -> Result<(), LineFault> {
        match words {
            ["word"] => Ok(self.words.push(String::new(alloc))?),
            ["status", number] => set(&mut self.status, status_of(number)?),
            ["source", said @ ..] => self.source.take(alloc, said),
            ["sink", "room", number] => set(&mut self.room, number_of(number)?),
            ["sink", said @ ..] => self.sink.take(alloc, said),
            ["blanks", "up", "to", number] => set(&mut self.blanks, number_of(number)?),
            ["text", "unended"] => set(&mut self.text_unended, ()),
            ["written", "unended"] => set(&mut self.written_unended, ()),
            _ => Err(LineFault::Unknown),
        }
    }

    /// The row of these lines, with this text and this that is written.
    pub fn row(self, alloc: Global, mut text: Vec<u8>, mut written: Vec<u8>) -> Result<Row, NoRow>
        ensures words { IfOk result (λ row. row.words ≡ self.words) }
        ensures status { IfOk result (λ row. Some row.wanted.status ≡ self.status) }
    {
        let Some(status) = self.status else {
            return Err(NoRow::NoStatus);
        };
        if self.text_unended.is_some() {
            unend(&mut text)?;
        }
        if let Some(blanks) = self.blanks {
            fill(&mut text, blanks)?;
        }
        if self.written_unended.is_some() {
            unend(&mut written)?;
        }
        let ports = Ports::new(self.source.pieces, self.sink.pieces, self.room);
        let failing = failing_of(alloc, self.source.calls, self.sink.calls, ports.sink_pieces)?;
        Ok(Row {
            words: self.words,
            text,
            ports,
            failing,
            wanted: Answer { status, written },
        })
    }
}

/// Puts blanks after a text, so that it has so many bytes.
fn fill(text: &mut Vec<u8>, length: usize) -> Result<(), NoRow>
    ensures { OnOk result (text.new.items
        ≡ text.old.items ++ replicate (length - vec_len text.old) 32) }
{
    if text.len() > length {
        return Err(NoRow::NoRoomForBlanks);
    }
    text.resize(length, b' ')?;
    Ok(())
}

/// The calls that fail in a row that says this of its ports.
fn failing_of(
    alloc: Global,
    source: Option<Calls>,
    sink: Option<Calls>,
    sink_pieces: usize,
) -> Result<Failing, NoRow> {
    let sink = sink.unwrap_or(Calls::Listed(Vec::new(alloc)));
    match source.unwrap_or(Calls::Listed(Vec::new(alloc))) {
        Calls::Listed(source) => failing_beside(source, sink, sink_pieces),
        Calls::InTurn(turns) if sink.are_none() => Ok(Failing::SourceInTurn(turns)),
        Calls::InTurn(_) => Err(NoRow::Turns),
    }
}

/// The calls that fail in a row that says this of its sink, beside these of its source.
fn failing_beside(source: Vec<u64>, sink: Calls, sink_pieces: usize) -> Result<Failing, NoRow> {
    match sink {
        Calls::Listed(sink) => Ok(Failing::Listed { source, sink }),
        Calls::InTurn(turns) if source.is_empty() && sink_pieces == 1 => {
            Ok(Failing::SinkInTurn(turns))
        }
        Calls::InTurn(_) => Err(NoRow::Turns),
    }
}
