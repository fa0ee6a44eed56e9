//! `sourir`: reads a text of functions and inputs from standard input, runs each input, and writes one
//! block of output for each to standard output.
//!
//! The words on the command line say what is wanted, and the exit status says how it went: see
//! `sour_commands`, where the commands are.
#![tactic(auto)]

use sour_commands::{Fault, sourir, write_fault};
use sour_ports::{ReaderSource, WriterSink};
use std::io::ErrorKind;
use std::process::ExitCode;
use std::{env, io};

/// The words on the command line, without the program's name.
fn words(rt: &HostRuntime) -> io::Result<Vec<String>> {
    let mut words = Vec::new(rt.alloc());
    for word in env::args(rt)?.skip(1) {
        words.push(word)?;
    }
    Ok(words)
}

fn main(rt: HostRuntime) -> ExitCode {
    let mut source = ReaderSource::new(rt.stdin());
    let mut sink = WriterSink::new(rt.stdout());
    let status = match words(&rt) {
        Ok(words) => sourir(rt.alloc(), words.as_slice(), &mut source, &mut sink),
        Err(error) if error.kind() == ErrorKind::OutOfMemory => {
            write_fault(&mut sink, Fault::Memory)
        }
        // A word that is no text asks for nothing that there is.
        Err(_) => write_fault(&mut sink, Fault::Words),
    };
    ExitCode::from(status)
}
