//! Tables: several rows in one file.

use crate::fault::NoRow;
use crate::part::without_feed;
use std::alloc::Global;

/// What stands before the name of a row in the line that begins it.
const ROW: &[u8] = b"--- row ";

/// A row of a table.
#[derive(Debug, Drop)]
pub struct TableRow {
    pub name: String,
    /// The bytes of the row, as a file of its own would have them.
    pub bytes: Vec<u8>,
}

impl TableRow {
    /// The row of this name, with these lines so far.
    fn new(alloc: Global, name: &[u8], lines: &[u8]) -> Result<TableRow, NoRow> {
        let Ok(name) = str::from_utf8(name) else {
            return Err(NoRow::Unreadable);
        };
        Ok(TableRow {
            name: String::from_str(alloc, name)?,
            bytes: Vec::from_slice(alloc, lines)?,
        })
    }
}

/// The rows of a table, in the order of the file. The lines before the first row are lines of each.
pub fn rows_of(alloc: Global, bytes: &[u8]) -> Result<Vec<TableRow>, NoRow> {
    let mut shared = Vec::new(alloc);
    let mut rows: Vec<TableRow> = Vec::new(alloc);
    for line in bytes.split_inclusive(|byte| *byte == b'\n') {
        if let Some(name) = without_feed(line).strip_prefix(ROW) {
            rows.push(TableRow::new(alloc, name, &shared)?)?;
        } else if let Some(row) = rows.last_mut() {
            row.bytes.extend_from_slice(line)?;
        } else {
            shared.extend_from_slice(line)?;
        }
    }
    if rows.is_empty() {
        return Err(NoRow::NoRows);
    }
    Ok(rows)
}
