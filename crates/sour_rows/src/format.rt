//! The form in which a file writes a row.

use crate::fault::{LineFault, NoRow};
use crate::head::Head;
use crate::part::{Part, without_feed};
use crate::row::Row;
use std::alloc::Global;

/// The line before the text.
const TEXT: &[u8] = b"--- text";

/// The line before what is written.
const WRITTEN: &[u8] = b"--- written";

/// To what the next line of a file belongs.
#[derive(Clone, Copy, Debug, PartialEq, Eq)]
enum Place {
    Head,
    Text,
    Written,
}

/// What the lines of a file have said so far.
#[derive(Debug, Drop)]
struct Draft {
    place: Place,
    head: Head,
    text: Part,
    written: Part,
}

impl Draft {
    fn new(alloc: Global) -> Draft {
        Draft {
            place: Place::Head,
            head: Head::new(alloc),
            text: Part::new(alloc),
            written: Part::new(alloc),
        }
    }

    /// Takes a line.
    fn take(&mut self, alloc: Global, line: &[u8]) -> Result<(), LineFault> {
        let words = without_feed(line);
        match self.place {
            Place::Head if words == TEXT => self.place = Place::Text,
            Place::Head => self.head.take(alloc, words)?,
            Place::Text if words == WRITTEN && !self.text.repeats() => self.place = Place::Written,
            Place::Text => self.text.take(line)?,
            Place::Written => self.written.take(line)?,
        }
        Ok(())
    }

    fn finish(self, alloc: Global) -> Result<Row, NoRow> {
        match self.place {
            Place::Head => Err(NoRow::NoText),
            Place::Text => Err(NoRow::NoWritten),
            Place::Written => {
                let text = self.text.into_bytes()?;
                let written = self.written.into_bytes()?;
                self.head.row(alloc, text, written)
            }
        }
    }
}

/// The row that the bytes of a file write.
pub fn row_of(alloc: Global, bytes: &[u8]) -> Result<Row, NoRow> {
    let mut draft = Draft::new(alloc);
    for (place, line) in bytes.split_inclusive(|byte| *byte == b'\n').enumerate() {
        if let Err(fault) = draft.take(alloc, line) {
            return Err(NoRow::Line {
                line: place + 1,
                fault,
            });
        }
    }
    draft.finish(alloc)
}
