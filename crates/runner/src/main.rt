// Inspects a segment, a core file and its sheet, or posts it: inspects, runs it where it passed, and puts the core back by a rename.
#![tactic(auto)]

mod files;
mod looks;
mod options;
mod report;
mod say;
mod segments;

use std::env::Env;
use std::fs::File;
use std::io;
use std::rt::Files;
use wording::{Command, CommandError, Status};

// The status is the last line, and not what `main` returns: an error of the output ends it too.
fn main(rt: HostRuntime) -> io::Result<()> {
    let mut room = [0u8; 16];
    let word = options::short(&rt, 1, &mut room);
    let status = obey(&rt, wording::command_of(word, options::count(&rt)))?;
    println!(rt; "status {}", u64::from(status))
}

fn obey<R: Files<File = File> + Env + Print + Eprint>(
    rt: &R,
    command: Result<Command, CommandError>,
) -> io::Result<Status> {
    match command {
        Ok(Command::Run) => segments::run(rt),
        Ok(Command::Inspect) => segments::inspect(rt),
        Ok(Command::Help) => {
            rt.print(say::USAGE)?;
            Ok(Status::Done)
        }
        Err(CommandError::Unknown) => {
            eprintln!(rt; "runner: the first argument is run, inspect or help")?;
            rt.eprint(say::USAGE)?;
            Ok(Status::Undone)
        }
        Err(CommandError::Miscounted) => {
            eprintln!(rt; "runner: too few or too many arguments")?;
            rt.eprint(say::USAGE)?;
            Ok(Status::Undone)
        }
    }
}
