//! Reading a row from its files.

use crate::answer::Answer;
use crate::fault::NoRow;
use crate::format::row_of;
use crate::number::status_of;
use crate::part::without_feed;
use crate::row::{Failing, Ports, Row};
use crate::table::{TableRow, rows_of};
use std::fs;
use std::io::ErrorKind;

/// Reads the row of a file of its own.
pub fn read_file(rt: &HostRuntime, group: &str, name: &str) -> Result<Row, NoRow> {
    let bytes = bytes_of(rt, group, name, "row")?.ok_or(NoRow::Unreadable)?;
    row_of(rt.alloc(), &bytes)
}

/// Reads the rows of a table.
pub fn read_table(rt: &HostRuntime, group: &str, name: &str) -> Result<Vec<TableRow>, NoRow> {
    let bytes = bytes_of(rt, group, name, "rows")?.ok_or(NoRow::Unreadable)?;
    rows_of(rt.alloc(), &bytes)
}

/// Reads an example.
pub fn read_example(rt: &HostRuntime, group: &str, name: &str) -> Result<Row, NoRow> {
    let text = bytes_of(rt, group, name, "sour")?.ok_or(NoRow::Unreadable)?;
    let written = bytes_of(rt, group, name, "out")?.ok_or(NoRow::NoOutput)?;
    let status = match bytes_of(rt, group, name, "status")? {
        Some(line) => status_in(&line)?,
        None => 0,
    };
    Ok(Row {
        words: vec![in rt.alloc(); String::from_str(rt.alloc(), "run")?]?,
        text,
        ports: Ports::new(None, None, None),
        failing: Failing::none(rt.alloc()),
        wanted: Answer { status, written },
    })
}

/// The status that a file of one line has.
fn status_in(line: &[u8]) -> Result<u8, NoRow> {
    let Ok(word) = str::from_utf8(without_feed(line)) else {
        return Err(NoRow::BadStatus);
    };
    status_of(word).map_err(|_| NoRow::BadStatus)
}

/// The bytes of a file with this ending, if there is one.
fn bytes_of(
    rt: &HostRuntime,
    group: &str,
    name: &str,
    ending: &str,
) -> Result<Option<Vec<u8>>, NoRow> {
    let path = format!(in rt.alloc(); "{group}/{name}.{ending}")?;
    match fs::read(rt, path.as_str()) {
        Ok(bytes) => Ok(Some(bytes)),
        Err(error) if error.kind() == ErrorKind::NotFound => Ok(None),
        Err(error) if error.kind() == ErrorKind::OutOfMemory => Err(NoRow::Memory),
        Err(_) => Err(NoRow::Unreadable),
    }
}
