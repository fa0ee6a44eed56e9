//! Why a text isn't accepted.

ghost use Rattle.std.specs.Prelude.{◌≡◌, []};
ghost use Rattle.sour_scope.specs.declared.fault.ScopeFault.TheVariants.{Memory};

use sour_syntax::{Label, List};
use std::alloc::{AllocError, AllocFailed, Global};
use std::fmt;
use thiserror::Error;

/// The kinds of faults, as `ScopeFault::At` has them.
pub(crate) const TWICE: u32 = 1;

pub(crate) const UNKNOWN: u32 = 2;

pub(crate) const NOT_IN_SCOPE: u32 = 3;

pub(crate) const IN_SCOPE: u32 = 4;

pub(crate) const SCOPES_DIFFER: u32 = 5;

pub(crate) const MAP_DIFFERS: u32 = 6;

pub(crate) const FALLS_OFF: u32 = 7;

pub(crate) const NO_MAIN: u32 = 8;

/// Why a text isn't accepted.
#[derive(Drop, Error)]
pub enum ScopeFault {
    /// The first fault of the names and scopes of the text.
    #[error("line {line}: fault {kind}")]
    At {
        /// Which rule is broken: 1 if a function, a version, a parameter, a label or a name of a
        /// map stands twice, 2 if a function, a version, a label or a variable isn't there, 3 if a
        /// variable must be in scope and isn't, 4 if one is declared that is in scope, 5 if a place
        /// has a scope and another one comes to it, 6 if the names of a map aren't those that its
        /// target asks for, 7 if a version doesn't end in a terminator, 8 if there is no function
        /// `main` without parameters.
        kind: u32,
        /// The line of the text where it is broken.
        line: u64,
        /// At kind 5 the scope that the place had, at kind 6 the names that the map must have; else
        /// empty.
        first: List<Label>,
        /// At kind 5 the scope that comes, at kind 6 the names that the map has; else empty.
        second: List<Label>,
    },
    /// There is no memory for the program.
    #[error("out of memory")]
    Memory,
}

impl ScopeFault {
    /// A fault without names. It takes no memory.
    pub(crate) fn nameless(alloc: Global, kind: u32, line: u64) -> ScopeFault
        ensures { result ≡ ScopeFault.At kind line [] [] }
    {
        ScopeFault::At {
            kind,
            line,
            first: List::new(alloc),
            second: List::new(alloc),
        }
    }
}

impl fmt::Debug for ScopeFault {
    fn fmt<W: fmt::Write>(&self, f: &mut fmt::Formatter<W>) -> fmt::Result {
        write!(f, "{self}")
    }
}

impl From<AllocError> for ScopeFault {
    ghost use Rattle.std.specs.Prelude.{◌≡◌};

    ghost from_gives = { λ _ e. e ≡ Memory };

    fn from(_error: AllocError) -> ScopeFault {
        ScopeFault::Memory
    }
}

impl<T: Drop> From<AllocFailed<T>> for ScopeFault {
    ghost use Rattle.std.specs.Prelude.{◌≡◌};

    ghost from_gives = { λ _ e. e ≡ Memory };

    fn from(_error: AllocFailed<T>) -> ScopeFault {
        ScopeFault::Memory
    }
}
