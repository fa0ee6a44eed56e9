//! What is wanted of a run, and how what it gave differs from it.

ghost use Rattle.std.specs.Prelude.{◌≡◌, ◌≢◌, ◌↔◌, IsNone, IfSome};
ghost use Rattle.sour_rows.specs.Answer.{DifferFrom};

use std::fmt;

/// What a run gives: its status, and what it writes.
#[derive(Debug, Drop)]
pub struct Answer {
    pub status: u8,
    pub written: Vec<u8>,
}

/// How what a run gave differs from what is wanted.
#[derive(Clone, Copy, Debug, PartialEq, Eq)]
pub enum Difference {
    /// The status is another.
    Status { given: u8, wanted: u8 },
    /// The bytes are others from this one on, counted from 1.
    Bytes { from: usize },
}

impl fmt::Display for Difference {
    fn fmt<W: fmt::Write>(&self, f: &mut fmt::Formatter<W>) -> fmt::Result {
        match self {
            Difference::Status { given, wanted } => {
                write!(f, "status {given} in place of {wanted}")
            }
            Difference::Bytes { from } => write!(f, "other bytes from byte {from} on"),
        }
    }
}

/// The first place at which two slices differ.
fn first_other(given: &[u8], wanted: &[u8]) -> usize
    requires { given.now ≢ wanted.now }
    ensures { DifferFrom given.now wanted.now result }
{
    let mut place = 0;
    while place < given.len() && place < wanted.len() && given[place] == wanted[place] {
        place += 1;
    }
    place
}

impl Answer {
    ghost use Rattle.sour_rows.specs.Answer.{IsAsWanted, DiffersIn};

    /// How the status and the bytes that a run gave differ from these, if they do.
    pub fn difference(&self, status: u8, written: &[u8]) -> Option<Difference>
        ensures same { IsNone result ↔ IsAsWanted self.now status written.now }
        ensures other { IfSome result (DiffersIn self.now status written.now) }
    {
        if status != self.status {
            return Some(Difference::Status {
                given: status,
                wanted: self.status,
            });
        }
        let wanted = self.written.as_slice();
        if written == wanted {
            return None;
        }
        Some(Difference::Bytes {
            from: first_other(written, wanted) + 1,
        })
    }
}
