// What is written: why a file failed, how to call the program.
use std::io;
use std::io::Write;

pub const USAGE: &str = "runner inspect CORE SHEET
  says whether the segment passes, or the number that refuses it and where
runner run CORE SHEET [BUDGET [OUTPUT]]
  inspects the segment, runs it where it passed for at most BUDGET syllables (1000000),
  and puts the core in place of OUTPUT (CORE) by a rename
The last line of the output is the status:
  0  passes, or ran to a communicate or to the end of its budget
  1  refused by a number: nothing is written
  2  could not be done, for its arguments or its files: nothing is written
  3  ran, and stopped with 15, 20 or 21
";

// A file's name and why it failed, in the system's words: std has the error's number behind them.
pub fn fail(rt: &impl Eprint, name: &str, why: io::Error) -> io::Result<()> {
    let mut room = [0u8; 256];
    let mut rest: &mut [u8] = &mut room;
    write!(rest, "{why}")?;
    let text = str::from_utf8(&room).unwrap_or("").trim_end_matches('\0');
    let reason = match text.split_once(" (os error ") {
        Some((words, _)) => words,
        None => text,
    };
    eprintln!(rt; "runner: {name}: {reason}")
}
