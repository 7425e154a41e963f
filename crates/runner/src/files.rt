// Whole files, read and put in place. What cannot be done is said on standard error, with the file's name and the reason.
ghost use Rattle.std.specs.Prelude.{◌≤◌, length, IfOk};

use crate::looks::Look;
use crate::say;
use std::env::Env;
use std::fs::{File, Permissions};
use std::io::{ErrorKind, Read, Write};
use std::os::unix::fs::{OpenOptionsExt, PermissionsExt, fchown};
use std::rt::Files;
use std::{fs, io};

// No path is longer, its ending zero counted.
const PATH_MAX: usize = 4096;

// How many names beside a file are tried for a new one: six octal digits tell them apart.
const TURNS: u64 = 262144;

// The system's numbers of what failed: a file that is there already, a name that is too long.
const EEXIST: i32 = 17;

const ENAMETOOLONG: i32 = 36;

// What was read of a file, and what the file is.
#[derive(Drop)]
pub struct Got<'a> {
    pub bytes: &'a mut [u8],
    pub look: Look,
}

// Reads until room is full or the file ends: std's read_exact says nothing of a file that ends.
fn read_all<'a>(file: &mut File, room: &'a mut [u8]) -> io::Result<Got<'a>> {
    let look = Look::of(file);
    let mut done = 0;
    while done < room.len() {
        match file.read(&mut room[done..])? {
            0 => break,
            more => done += more,
        }
    }
    Ok(Got {
        bytes: &mut room[..done],
        look,
    })
}

fn read_file<'a>(
    rt: &impl Files<File = File>,
    name: &str,
    room: &'a mut [u8],
) -> io::Result<Got<'a>> {
    read_all(&mut fs::open(rt, name)?, room)
}

// The name that an argument is; none, with a complaint, where it is too long for a name or not UTF-8.
fn name_of<'a>(
    rt: &(impl Env + Eprint),
    at: usize,
    room: &'a mut [u8],
) -> io::Result<Option<&'a str>> {
    let Ok(n) = rt.arg(at, room) else {
        eprintln!(rt; "runner: a file's name: File name too long")?;
        return Ok(None);
    };
    let Ok(name) = str::from_utf8(&room[..n]) else {
        eprintln!(rt; "runner: a file's name: not UTF-8")?;
        return Ok(None);
    };
    Ok(Some(name))
}

// Reads the file that an argument names, up to the length of room; none, with a complaint, where that fails.
pub fn read_argument<'a, R: Files<File = File> + Env + Eprint>(
    rt: &R,
    at: usize,
    room: &'a mut [u8],
) -> io::Result<Option<Got<'a>>> {
    let mut path = [0u8; PATH_MAX];
    let Some(name) = name_of(rt, at, &mut path)? else {
        return Ok(None);
    };
    match read_file(rt, name, room) {
        Ok(got) => Ok(Some(got)),
        Err(why) => {
            say::fail(rt, name, why)?;
            Ok(None)
        }
    }
}

// Complains of the file that an argument names.
pub fn complain_of(rt: &(impl Env + Eprint), at: usize, reason: &str) -> io::Result<()> {
    let mut path = [0u8; PATH_MAX];
    match name_of(rt, at, &mut path)? {
        Some(name) => eprintln!(rt; "runner: {name}: {reason}"),
        None => Ok(()),
    }
}

fn is_link(rt: &impl Files, name: &str) -> bool {
    fs::symlink_metadata(rt, name).is_ok_and(|state| state.is_symlink())
}

// The look of a file that may be read and written.
fn look_of(rt: &impl Files<File = File>, name: &str) -> io::Result<Look> {
    let file = File::options().read(true).write(true).open(rt, name)?;
    Ok(Look::of(&file))
}

// The look of what is to take this name by a rename: that of the file there, or of a new one like `other`.
// None, with a complaint, for a file that may not be written, and for a device or a pipe: they are left alone.
fn target_of(
    rt: &(impl Files<File = File> + Eprint),
    name: &str,
    other: Look,
) -> io::Result<Option<Look>> {
    if is_link(rt, name) {
        eprintln!(rt; "runner: {name}: a symbolic link: name the file itself")?;
        return Ok(None);
    }
    match look_of(rt, name) {
        Ok(look) if look.regular => Ok(Some(look)),
        Ok(_) => {
            eprintln!(rt; "runner: {name}: not a regular file")?;
            Ok(None)
        }
        Err(why) if why.kind() == ErrorKind::NotFound => Ok(Some(other.renewed())),
        Err(why) => {
            say::fail(rt, name, why)?;
            Ok(None)
        }
    }
}

// Writes the bytes, and gives the file its permissions, and its owner if that may be done.
fn written(mut file: File, bytes: &[u8], look: Look) -> io::Result<()> {
    file.write_all(bytes)?;
    let _ = fchown(&file, look.owner, look.group);
    file.set_permissions(Permissions::from_mode(look.mode))?;
    file.sync_all()
}

// A name in the same folder, put into room: one that room cuts is too long.
fn beside<'a>(name: &str, turn: u64, room: &'a mut [u8]) -> io::Result<&'a str>
    ensures { IfOk result (λ text. length text.now ≤ length room.old) }
{
    let mut rest: &mut [u8] = &mut *room;
    let _ = write!(rest, "{name}.{turn:06o}");
    let text = room
        .get(..name.len() + 7)
        .and_then(|text| str::from_utf8(text).ok());
    text.ok_or(io::Error::from_raw_os_error(ENAMETOOLONG))
}

// Makes a file that was not there, for its owner alone.
fn create(rt: &impl Files<File = File>, name: &str) -> io::Result<File> {
    File::options()
        .write(true)
        .create_new(true)
        .mode(0o600)
        .open(rt, name)
}

// Writes a new file beside the name, and gives it the name: whole or not at all.
fn put_beside(
    rt: &impl Files<File = File>,
    name: &str,
    bytes: &[u8],
    look: Look,
) -> io::Result<()> {
    let mut path = [0u8; PATH_MAX];
    for turn in 0..TURNS {
        let temp = beside(name, turn, &mut path)?;
        match create(rt, temp) {
            Ok(file) => return put_by(rt, file, temp, name, bytes, look),
            Err(why) if why.kind() == ErrorKind::AlreadyExists => {}
            Err(why) => return Err(why),
        }
    }
    Err(io::Error::from_raw_os_error(EEXIST))
}

fn put_by(
    rt: &impl Files<File = File>,
    file: File,
    temp: &str,
    name: &str,
    bytes: &[u8],
    look: Look,
) -> io::Result<()> {
    let put = written(file, bytes, look).and_then(|()| fs::rename(rt, temp, name));
    if put.is_err() {
        let _ = fs::remove_file(rt, temp);
    }
    put
}

// Puts the bytes in place of the file that an argument names, and answers whether that was done.
// The new file has the permissions of the one that it replaces, or of `other` where it replaces none.
// Never built into its caller, which has the segment on its stack: its own names lie there only while it puts.
#[inline(never)]
pub fn put_argument<R: Files<File = File> + Env + Eprint>(
    rt: &R,
    at: usize,
    bytes: &[u8],
    other: Look,
) -> io::Result<bool> {
    let mut path = [0u8; PATH_MAX];
    let Some(name) = name_of(rt, at, &mut path)? else {
        return Ok(false);
    };
    let Some(look) = target_of(rt, name, other)? else {
        return Ok(false);
    };
    match put_beside(rt, name, bytes, look) {
        Ok(()) => Ok(true),
        Err(why) => {
            say::fail(rt, name, why)?;
            Ok(false)
        }
    }
}
