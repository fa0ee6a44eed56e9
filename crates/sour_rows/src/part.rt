//! A part of a row: its text, or what is written.

ghost use Rattle.std.specs.Prelude.{◌≡◌, ◌⊎◌, ◌∷◌, [], ◌++◌, ◌↔◌, IsSome, IsTrue, OnOk, OnErr, IfOk};

use crate::fault::{LineFault, NoRow};
use crate::number::number_of;
use std::alloc::Global;

/// The most bytes of a part.
const PART_LIMIT: usize = 16_777_216;

/// A line without its line feed, if it has one.
pub fn without_feed(line: &[u8]) -> &[u8]
    ensures { (line.now ≡ result.now) ⊎ (line.now ≡ result.now ++ 10 ∷ []) }
{
    match line {
        [words @ .., b'\n'] => words,
        _ => line,
    }
}

/// Takes the line feed from the end of a part.
pub fn unend(bytes: &mut Vec<u8>) -> Result<(), NoRow>
    ensures ok { OnOk result (bytes.old.items ≡ bytes.new.items ++ 10 ∷ []) }
    ensures err { OnErr result (bytes.new.items ≡ bytes.old.items) }
{
    if bytes.last() != Some(&b'\n') {
        return Err(NoRow::NothingUnended);
    }
    bytes.pop();
    Ok(())
}

/// How often `N times` says that the next line stands there.
fn times_of(words: &[u8]) -> Result<usize, LineFault> {
    let Some(number) = words.strip_suffix(b" times") else {
        return Err(LineFault::Unknown);
    };
    let Ok(number) = str::from_utf8(number) else {
        return Err(LineFault::Unknown);
    };
    number_of(number)
}

/// The lines of a part so far.
#[derive(Debug, Drop)]
pub struct Part {
    bytes: Vec<u8>,
    // how often the next line stands there, if a line has said so
    times: Option<usize>,
}

impl Part {
    /// No lines yet.
    pub fn new(alloc: Global) -> Part {
        Part {
            bytes: Vec::new(alloc),
            times: None,
        }
    }

    /// Whether the next line is repeated, whatever it is.
    pub fn repeats(&self) -> bool
        ensures { IsTrue result ↔ IsSome self.now.times }
    {
        self.times.is_some()
    }

    /// Takes a line.
    pub fn take(&mut self, line: &[u8]) -> Result<(), LineFault> {
        if let Some(times) = self.times.take() {
            return self.repeat(line, times);
        }
        match without_feed(line).strip_prefix(b"--- ") {
            Some(words) => {
                self.times = Some(times_of(words)?);
                Ok(())
            }
            None => self.push(line),
        }
    }

    /// Puts a line behind the others so many times.
    fn repeat(&mut self, line: &[u8], times: usize) -> Result<(), LineFault> {
        for _ in 0..times {
            self.push(line)?;
        }
        Ok(())
    }

    /// Puts a line behind the others.
    fn push(&mut self, line: &[u8]) -> Result<(), LineFault>
        ensures ok { OnOk result (self.new.bytes.items ≡ self.old.bytes.items ++ line.now) }
        ensures err { OnErr result (self.new.bytes.items ≡ self.old.bytes.items) }
    {
        if self.bytes.len().saturating_add(line.len()) > PART_LIMIT {
            return Err(LineFault::TooLong);
        }
        self.bytes.extend_from_slice(line)?;
        Ok(())
    }

    /// The bytes of the part.
    pub fn into_bytes(self) -> Result<Vec<u8>, NoRow>
        ensures { IfOk result (λ bytes. bytes ≡ self.bytes) }
    {
        if self.times.is_some() {
            return Err(NoRow::NothingRepeated);
        }
        Ok(self.bytes)
    }
}
