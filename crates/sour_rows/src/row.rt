//! A row: a run of the program, and what is wanted of it.

ghost use Rattle.std.specs.Prelude.{◌≤◌};

use crate::answer::Answer;
use std::alloc::Global;
use std::num::NonZeroUsize;

/// A row, as it is run.
#[derive(Debug, Drop)]
pub struct Row {
    /// The words on the command line, without the program's name.
    pub words: Vec<String>,
    /// What the source gives.
    pub text: Vec<u8>,
    pub ports: Ports,
    pub failing: Failing,
    pub wanted: Answer,
}

/// The most bytes that a call of the source gives where no other number is said.
const SOURCE_PIECES: usize = 10;

/// The most bytes that a call of the sink takes where no other number is said.
const SINK_PIECES: usize = 65536;

/// The most bytes that the sink takes in all where no other number is said.
const ROOM: usize = 4_194_304;

/// How the source gives bytes, and how the sink takes them.
#[derive(Clone, Copy, Debug)]
pub struct Ports {
    /// The most bytes that a call of the source gives.
    pub source_pieces: usize,
    /// The most bytes that a call of the sink takes.
    pub sink_pieces: usize,
    /// The most bytes that the sink takes in all.
    pub room: usize,
    ghost source_gives: { 1 ≤ source_pieces },
    ghost sink_takes: { 1 ≤ sink_pieces },
}

impl Ports {
    /// The ports of a row that says this of them.
    pub fn new(
        source_pieces: Option<NonZeroUsize>,
        sink_pieces: Option<NonZeroUsize>,
        room: Option<usize>,
    ) -> Ports {
        Ports {
            source_pieces: match source_pieces {
                Some(pieces) => pieces.get(),
                None => SOURCE_PIECES,
            },
            sink_pieces: match sink_pieces {
                Some(pieces) => pieces.get(),
                None => SINK_PIECES,
            },
            room: room.unwrap_or(ROOM),
        }
    }
}

/// Which calls of the ports fail. Calls are counted from 1.
#[derive(Debug, Drop)]
pub enum Failing {
    /// The row is run once, with these calls failing.
    Listed { source: Vec<u64>, sink: Vec<u64> },
    /// The row is run once for each of these calls of the source, with that one failing.
    SourceInTurn(Turns),
    /// The row is run once for each of these calls of the sink, with that one failing. Each call
    /// takes one byte, so the bytes that are wanted are those that the calls before took.
    SinkInTurn(Turns),
}

impl Failing {
    /// No call fails.
    pub fn none(alloc: Global) -> Failing {
        Failing::Listed {
            source: Vec::new(alloc),
            sink: Vec::new(alloc),
        }
    }
}

/// The calls from one to another, of which there is one or more.
#[derive(Clone, Copy, Debug, PartialEq, Eq)]
pub struct Turns {
    pub first: u64,
    pub last: u64,
    ghost counted: { 1 ≤ first },
    ghost some: { first ≤ last },
}
