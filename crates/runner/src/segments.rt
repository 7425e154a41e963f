// The commands: a segment is read, inspected, and with `run` posted and put back.
use crate::files::Got;
use crate::looks::Look;
use crate::report::Reason;
use crate::{files, options, report};
use machine::Ran;
use std::env::Env;
use std::fs::File;
use std::io;
use std::rt::Files;
use wording::Status;

// The longest core file and the longest sheet, in bytes.
const CORE_MAX: usize = 196608;

const SHEET_MAX: usize = 6162;

// Room for both files, each with a byte more to see that one is too long, and for the core.
#[derive(Drop)]
struct Room {
    bytes: [u8; CORE_MAX + 1],
    sheet: [u8; SHEET_MAX + 1],
    core: [u64; 32768],
}

// Each command has a room of its own, and is never built into a caller: help and refused arguments have none on their stack.
const EMPTY: Room = Room {
    bytes: [0; CORE_MAX + 1],
    sheet: [0; SHEET_MAX + 1],
    core: [0; 32768],
};

// A core file and what it is, its sheet, and room for the file's core.
#[derive(Drop)]
struct Segment<'a> {
    bytes: &'a mut [u8],
    look: Look,
    sheet: &'a [u8],
    core: &'a mut [u64],
}

// Reads both files; none, with a complaint, where that fails. A longer sheet is refused with 30.
fn read<'a, R: Files<File = File> + Env + Eprint>(
    rt: &R,
    room: &'a mut Room,
) -> io::Result<Option<Segment<'a>>> {
    let Room { bytes, sheet, core } = room;
    let Some(Got { bytes, look }) = files::read_argument(rt, 2, bytes)? else {
        return Ok(None);
    };
    if CORE_MAX < bytes.len() {
        files::complain_of(rt, 2, "over 32,768 words")?;
        return Ok(None);
    }
    let Some(Got { bytes: sheet, .. }) = files::read_argument(rt, 3, sheet)? else {
        return Ok(None);
    };
    let core = &mut core[..bytes.len() / 6];
    Ok(Some(Segment {
        bytes,
        look,
        sheet,
        core,
    }))
}

// Reads the core, and inspects it.
fn inspected(bytes: &[u8], sheet: &[u8], core: &mut [u64]) -> Result<(), Reason> {
    tape::read_file(bytes, core)?;
    inspector::inspect(core, sheet)?;
    Ok(())
}

// Reads the core, posts it, and writes it over the file's bytes.
fn posted(bytes: &mut [u8], sheet: &[u8], core: &mut [u64], budget: u64) -> Result<Ran, Reason> {
    tape::read_file(bytes, core)?;
    let ran = post::post(core, sheet, budget)?;
    tape::write_file(core, bytes)?;
    Ok(ran)
}

#[inline(never)]
pub fn inspect<R: Files<File = File> + Env + Print + Eprint>(rt: &R) -> io::Result<Status> {
    let mut room = EMPTY;
    let Some(
        Segment {
            bytes,
            sheet,
            core,
            ..
        },
    ) = read(rt, &mut room)?
    else {
        return Ok(Status::Undone);
    };
    match inspected(bytes, sheet, core) {
        Ok(()) => {
            println!(rt; "passes")?;
            Ok(wording::status_of(0, 0))
        }
        Err(why) => refused(rt, core, sheet, why),
    }
}

pub fn run<R: Files<File = File> + Env + Print + Eprint>(rt: &R) -> io::Result<Status> {
    let Some(budget) = options::budget(rt)? else {
        return Ok(Status::Undone);
    };
    run_for(rt, budget)
}

#[inline(never)]
fn run_for<R: Files<File = File> + Env + Print + Eprint>(
    rt: &R,
    budget: u64,
) -> io::Result<Status> {
    let mut room = EMPTY;
    let Some(
        Segment {
            bytes,
            look,
            sheet,
            core,
        },
    ) = read(rt, &mut room)?
    else {
        return Ok(Status::Undone);
    };
    let ran = match posted(bytes, sheet, core, budget) {
        Ok(ran) => ran,
        Err(why) => return refused(rt, core, sheet, why),
    };
    if !files::put_argument(rt, output(rt), bytes, look)? {
        return Ok(Status::Undone);
    }
    report::ran(rt, core, ran)?;
    Ok(wording::status_of(0, u64::from(ran.end)))
}

fn refused(rt: &impl Print, core: &[u64], sheet: &[u8], why: Reason) -> io::Result<Status> {
    report::refused(rt, core, sheet, why)?;
    Ok(wording::status_of(u64::from(why), 0))
}

// The argument that names the file to put in place.
fn output(rt: &impl Env) -> usize {
    if options::count(rt) < 6 { 2 } else { 5 }
}
