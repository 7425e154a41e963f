// The arguments: how many there are, a short one, and the budget among them.
ghost use Rattle.std.specs.Prelude.{◌≤◌, length};

use std::env::{Env, FillError};
use std::io;
use wording::NumberError;

// The budget where none is given, and the largest.
const BUDGET: u32 = 1000000;

// How many arguments there are, the program's own name among them.
pub fn count(rt: &impl Env) -> usize {
    for i in 0..usize::MAX {
        if let Err(FillError::NotPresent) = rt.arg(i, &mut []) {
            return i;
        }
    }
    usize::MAX
}

// An argument, put into room: empty where there is none, or where it is longer than room.
pub fn short<'a>(rt: &impl Env, at: usize, room: &'a mut [u8]) -> &'a [u8]
    ensures { length result.now ≤ length room.old }
{
    match rt.arg(at, room) {
        Ok(n) => &room[..n],
        Err(_) => &[],
    }
}

// The budget; one that is too large is handed on, and refused with 5 in its turn. None, with a complaint, where it is no number.
pub fn budget(rt: &(impl Env + Eprint)) -> io::Result<Option<u64>> {
    if count(rt) < 5 {
        return Ok(Some(u64::from(BUDGET)));
    }
    let mut room = [0u8; 64];
    match wording::number_of(short(rt, 4, &mut room), 10, BUDGET) {
        Ok(n) => Ok(Some(n)),
        Err(NumberError::Over) => Ok(Some(u64::from(BUDGET) + 1)),
        Err(NumberError::Wrong) => {
            eprintln!(rt; "runner: the budget is not a number")?;
            Ok(None)
        }
    }
}
