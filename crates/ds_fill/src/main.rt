//! The program: a load of as many items as its word says, served over memory; and what the answer to its query tells.
//!
//! `fill` has the public call, with its theorem: what is printed is a definition of the number of items alone, whatever the schedule.
//! `word`
//! reads the word. In `specs/`, `Filling` has the words of its clauses.
#![tactic(auto)]

mod fill;
mod word;

use ds_io::StdSink;
use fill::{FillStatus, fill};
use std::io::{ErrorKind, Write};
use std::process::ExitCode;
use std::{env, io};

fn main(rt: HostRuntime) -> ExitCode {
    let words = match words(&rt) {
        Ok(words) => words,
        Err(error) => return end(&rt, unread(&error)),
    };
    let mut output = StdSink::new(rt.stdout());
    let status = fill(&rt, rt.alloc(), words.as_slice(), &mut output);
    end(&rt, status)
}

/// The words behind the program's name.
fn words(rt: &HostRuntime) -> io::Result<Vec<String>> {
    Ok(env::args(rt)?.skip(1).collect(rt.alloc())?)
}

/// How a run ends whose words could not be had: a word that isn't UTF-8 leaves their form, as any other that does.
fn unread(error: &io::Error) -> FillStatus {
    match error.kind() {
        ErrorKind::InvalidData => FillStatus::Usage,
        _ => FillStatus::NoMemory,
    }
}

/// Tells on standard error how the run ended, unless all went well, and gives the number of its status.
fn end(rt: &HostRuntime, status: FillStatus) -> ExitCode {
    let mut errors = rt.stderr();
    let told = match status {
        FillStatus::Done => Ok(()),
        FillStatus::Usage => writeln!(errors, "usage"),
        FillStatus::WriteFault => writeln!(errors, "write fault"),
        FillStatus::NoMemory => writeln!(errors, "no memory"),
    };
    // Where standard error is closed, the number alone tells it.
    let _ = told;
    ExitCode::from(status.exit_number())
}
