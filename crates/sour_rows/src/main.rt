//! `sour_rows`: runs the rows of the folder that it is run in, and says which differ from what they
//! want.
//!
//! Each folder there is a group, and each row is a run of the program `sourir` with what it must write
//! and the status that it must give. What a row is made of is told in `docs/formats.md`, under *Rows*.
#![tactic(auto)]

mod answer;
mod fault;
mod format;
mod group;
mod head;
mod number;
mod part;
mod reading;
mod row;
mod running;
mod table;

use crate::fault::NoRow;
use crate::format::row_of;
use crate::group::{Form, Found, Group, groups};
use crate::reading::{read_example, read_file, read_table};
use crate::row::Row;
use crate::running::{Differs, run_row};
use std::alloc::Global;
use std::{fmt, io};

/// What comes of a row.
#[derive(Clone, Copy, Debug, PartialEq, Eq)]
enum Outcome {
    Same,
    Differs(Differs),
    NoRow(NoRow),
}

impl fmt::Display for Outcome {
    fn fmt<W: fmt::Write>(&self, f: &mut fmt::Formatter<W>) -> fmt::Result {
        match self {
            Outcome::Same => write!(f, "as wanted"),
            Outcome::Differs(differs) => write!(f, "{differs}"),
            Outcome::NoRow(fault) => write!(f, "no row: {fault}"),
        }
    }
}

/// Runs a row, if it could be read.
fn outcome_of(alloc: Global, read: Result<Row, NoRow>) -> Outcome {
    let row = match read {
        Ok(row) => row,
        Err(fault) => return Outcome::NoRow(fault),
    };
    match run_row(alloc, &row) {
        Ok(None) => Outcome::Same,
        Ok(Some(differs)) => Outcome::Differs(differs),
        Err(_) => Outcome::NoRow(NoRow::Memory),
    }
}

/// How many rows of a group there are, and how many of them aren't as wanted.
#[derive(Debug, Drop)]
struct Counts<'a> {
    group: &'a str,
    rows: usize,
    differ: usize,
}

impl<'a> Counts<'a> {
    fn new(group: &'a str) -> Counts<'a> {
        Counts {
            group,
            rows: 0,
            differ: 0,
        }
    }

    /// Counts a row, and prints a line for it if it isn't as wanted.
    fn take(&mut self, rt: &HostRuntime, name: &str, outcome: Outcome) -> io::Result<()> {
        self.rows = self.rows.saturating_add(1);
        if outcome == Outcome::Same {
            return Ok(());
        }
        self.differ = self.differ.saturating_add(1);
        let group = self.group;
        println!(rt; "{group}/{name}: {outcome}")
    }

    /// Runs the rows of a table. One that has none, or can't be read, counts as a row.
    fn take_table(&mut self, rt: &HostRuntime, table: &str) -> io::Result<()> {
        let rows = match read_table(rt, self.group, table) {
            Ok(rows) => rows,
            Err(fault) => return self.take(rt, table, Outcome::NoRow(fault)),
        };
        for row in &rows {
            let row_name = row.name.as_str();
            let name = format!(in rt.alloc(); "{table}/{row_name}")?;
            let outcome = outcome_of(rt.alloc(), row_of(rt.alloc(), &row.bytes));
            self.take(rt, name.as_str(), outcome)?;
        }
        Ok(())
    }

    /// Runs what was found in the folder of the group.
    fn take_found(&mut self, rt: &HostRuntime, found: &Found) -> io::Result<()> {
        let name = found.name.as_str();
        let read = match found.form {
            Form::Table => return self.take_table(rt, name),
            Form::File => read_file(rt, self.group, name),
            Form::Example => read_example(rt, self.group, name),
            Form::Unnamed => Err(NoRow::Unreadable),
        };
        self.take(rt, name, outcome_of(rt.alloc(), read))
    }
}

/// Prints a line for each row of a group that isn't as wanted, and then one with the counts.
fn tell(rt: &HostRuntime, group: &Group) -> io::Result<()> {
    let mut counts = Counts::new(group.name.as_str());
    for found in &group.found {
        counts.take_found(rt, found)?;
    }
    let Counts {
        group,
        rows,
        differ,
    } = counts;
    println!(rt; "{group}: {rows} rows, {differ} differ")
}

fn main(rt: HostRuntime) -> io::Result<()> {
    for group in &groups(&rt)? {
        tell(&rt, group)?;
    }
    Ok(())
}
