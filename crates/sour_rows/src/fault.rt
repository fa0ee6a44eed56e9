//! Why a file is no row.

use std::alloc::{AllocError, AllocFailed};
use thiserror::Error;

/// Why a file is no row.
#[derive(Clone, Copy, Debug, PartialEq, Eq, Error)]
pub enum NoRow {
    #[error("it can't be read")]
    Unreadable,
    #[error("no file with the ending .out is beside it")]
    NoOutput,
    #[error("the status beside it is none")]
    BadStatus,
    #[error("line {line} {fault}")]
    Line { line: usize, fault: LineFault },
    #[error("no line begins a row of the table")]
    NoRows,
    #[error("no line gives its status")]
    NoStatus,
    #[error("no line begins its text")]
    NoText,
    #[error("no line begins what is written")]
    NoWritten,
    #[error("no line is there to be repeated")]
    NothingRepeated,
    #[error("no line feed is there to be left out")]
    NothingUnended,
    #[error("its text is longer than with its blanks")]
    NoRoomForBlanks,
    #[error("calls fail in turn beside others, or take more than a byte")]
    Turns,
    #[error("no memory was found for it")]
    Memory,
}

/// What is wrong with a line of a row.
#[derive(Clone, Copy, Debug, PartialEq, Eq, Error)]
pub enum LineFault {
    #[error("says nothing that there is")]
    Unknown,
    #[error("has a number that is none")]
    Number,
    #[error("says again what a line before it said")]
    Again,
    #[error("makes its part too long")]
    TooLong,
    #[error("found no memory")]
    Memory,
}

impl From<AllocError> for NoRow {
    fn from(_error: AllocError) -> NoRow {
        NoRow::Memory
    }
}

impl<T: Drop> From<AllocFailed<T>> for NoRow {
    fn from(_failed: AllocFailed<T>) -> NoRow {
        NoRow::Memory
    }
}

impl From<AllocError> for LineFault {
    fn from(_error: AllocError) -> LineFault {
        LineFault::Memory
    }
}

impl<T: Drop> From<AllocFailed<T>> for LineFault {
    fn from(_failed: AllocFailed<T>) -> LineFault {
        LineFault::Memory
    }
}
