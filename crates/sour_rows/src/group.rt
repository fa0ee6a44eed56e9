//! Groups of rows: the folders that the rows are found in.

use std::alloc::{AllocError, Global};
use std::fs::DirEntry;
use std::io::ErrorKind;
use std::{fs, io};

/// In which files a row is, or a table of rows.
#[derive(Clone, Copy, Debug, PartialEq, Eq, PartialOrd, Ord)]
pub enum Form {
    /// In one with the ending `.row`.
    File,
    /// In one with the ending `.rows`, which is a table of several.
    Table,
    /// Its text in one with the ending `.sour`, what is written in one with the ending `.out`, and
    /// its status, if that isn't 0, in one with the ending `.status`.
    Example,
    /// In one whose name can't be read.
    Unnamed,
}

/// A row or a table of rows, as it is found in its folder.
#[derive(Debug, PartialEq, Eq, PartialOrd, Ord, Drop)]
pub struct Found {
    /// The name of its files, without their endings.
    pub name: String,
    pub form: Form,
}

/// A folder of rows.
#[derive(Debug, Drop)]
pub struct Group {
    pub name: String,
    /// Its rows and tables, in the order of their names.
    pub found: Vec<Found>,
}

/// The groups of the folder that the program is run in, in the order of their names.
pub fn groups(rt: &HostRuntime) -> io::Result<Vec<Group>> {
    let mut groups = Vec::new(rt.alloc());
    for name in folders(rt)? {
        let found = found_in(rt, name.as_str())?;
        groups.push(Group { name, found })?;
    }
    Ok(groups)
}

/// The names of the folders in the one that the program is run in, in order.
fn folders(rt: &HostRuntime) -> io::Result<Vec<String>> {
    let mut names = Vec::new(rt.alloc());
    for entry in fs::read_dir(rt, ".")? {
        let entry = entry?;
        if entry.file_type()?.is_dir() {
            names.push(String::from_str(rt.alloc(), entry.file_name())?)?;
        }
    }
    names.sort()?;
    Ok(names)
}

/// The rows and tables in a folder, in the order of their names.
fn found_in(rt: &HostRuntime, folder: &str) -> io::Result<Vec<Found>> {
    let mut all = Vec::new(rt.alloc());
    for entry in fs::read_dir(rt, folder)? {
        if let Some(found) = found_at(rt.alloc(), entry)? {
            all.push(found)?;
        }
    }
    all.sort()?;
    Ok(all)
}

/// The row or table whose file an entry of a folder is, if it is one.
fn found_at(alloc: Global, entry: io::Result<DirEntry>) -> io::Result<Option<Found>> {
    let entry = match entry {
        Ok(entry) => entry,
        Err(error) if error.kind() == ErrorKind::InvalidFilename => {
            return Ok(Some(Found {
                name: String::from_str(alloc, "?")?,
                form: Form::Unnamed,
            }));
        }
        Err(error) => return Err(error),
    };
    if entry.file_type()?.is_dir() {
        return Ok(None);
    }
    Ok(found_named(alloc, entry.file_name())?)
}

/// The row or table whose file has this name, if it is one.
fn found_named(alloc: Global, file: &str) -> Result<Option<Found>, AllocError> {
    let (name, form) = if let Some(name) = file.strip_suffix(".row") {
        (name, Form::File)
    } else if let Some(name) = file.strip_suffix(".rows") {
        (name, Form::Table)
    } else if let Some(name) = file.strip_suffix(".sour") {
        (name, Form::Example)
    } else {
        return Ok(None);
    };
    Ok(Some(Found {
        name: String::from_str(alloc, name)?,
        form,
    }))
}
