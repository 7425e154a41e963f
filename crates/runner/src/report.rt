// What came of a segment, in words.
use inspector::Broken;
use machine::{Cause, End, Ran};
use post::PostError;
use std::{fmt, io};
use syllable::{Syllable, Table};
use tape::{ReadError, WriteError};
use word::CoreError;
use wording::RecordKind;

// Why a segment is refused: by its core file, by its posting, or by the core that the run left.
#[derive(Clone, Copy)]
pub enum Reason {
    Read(ReadError),
    Post(PostError),
    Write(WriteError),
}

impl From<ReadError> for Reason {
    fn from(why: ReadError) -> Reason {
        Reason::Read(why)
    }
}

impl From<Broken> for Reason {
    fn from(why: Broken) -> Reason {
        Reason::Post(PostError::Broken(why))
    }
}

impl From<PostError> for Reason {
    fn from(why: PostError) -> Reason {
        Reason::Post(why)
    }
}

impl From<WriteError> for Reason {
    fn from(why: WriteError) -> Reason {
        Reason::Write(why)
    }
}

// The number that refuses.
impl From<Reason> for u64 {
    fn from(why: Reason) -> u64 {
        match why {
            Reason::Read(why) => u64::from(why),
            Reason::Post(why) => u64::from(why),
            Reason::Write(why) => u64::from(why),
        }
    }
}

// The number, what it means, and where.
pub fn refused(rt: &impl Print, core: &[u64], sheet: &[u8], why: Reason) -> io::Result<()> {
    let number = u64::from(why);
    println!(rt; "refused: {number}{why}")?;
    match why {
        Reason::Post(PostError::Broken(broken)) => place(rt, core, sheet, broken),
        _ => Ok(()),
    }
}

fn place(rt: &impl Print, core: &[u64], sheet: &[u8], broken: Broken) -> io::Result<()> {
    match broken {
        Broken::Core(_) | Broken::Length => Ok(()),
        Broken::Record(at) | Broken::Area(at) => record(rt, sheet, at),
        Broken::Cell(at) => println!(rt; "cell {at}"),
        Broken::Syllable(at) | Broken::Target(at) => spot(rt, core, sheet, at),
    }
}

// The paper's words for what refuses.
impl fmt::Display for Reason {
    fn fmt<W: fmt::Write>(&self, f: &mut fmt::Formatter<W>) -> fmt::Result {
        let words = match *self {
            Reason::Read(ReadError::Records) | Reason::Write(WriteError::Room) => {
                ", core file length not a multiple of 6"
            }
            Reason::Read(ReadError::Length) => no_core(CoreError::Length),
            Reason::Write(WriteError::Core(why)) => no_core(why),
            Reason::Post(PostError::Broken(broken)) => rule(broken),
            Reason::Post(PostError::Budget) => ", budget over 1,000,000",
        };
        write!(f, "{words}")
    }
}

// Why a core is none.
fn no_core(why: CoreError) -> &'static str {
    match why {
        CoreError::Length => ", core length 0 or over 32,768",
        CoreError::Word => ", a core word at or above 2^48",
    }
}

fn rule(broken: Broken) -> &'static str {
    match broken {
        Broken::Core(why) => no_core(why),
        Broken::Length => ", sheet length not 6 times 3 to 1,027",
        Broken::Record(_) => ", first bad record",
        Broken::Area(_) => ", code, stack words or table outside core, or two of them meeting",
        Broken::Cell(_) => ", lowest named cell unfit",
        Broken::Syllable(_) => ", first syllable breaking the scan",
        Broken::Target(_) => {
            ", lowest branch whose target is outside the code or has a shape not empty"
        }
    }
}

fn record(rt: &impl Print, sheet: &[u8], place: u64) -> io::Result<()> {
    let words = kind(wording::kind_at(sheet, place));
    println!(rt; "record {place}{words}")
}

// A Display cannot be written here for another crate's type.
fn kind(k: RecordKind) -> &'static str {
    match k {
        RecordKind::Code => ", code words",
        RecordKind::Start => ", starting S and room",
        RecordKind::Numbers => ", number cells",
        RecordKind::Arrays => ", array cells",
        RecordKind::Table => ", R and table length",
        RecordKind::Other(_) => ", neither number cells nor array cells",
    }
}

fn spot(rt: &impl Print, core: &[u64], sheet: &[u8], place: u64) -> io::Result<()> {
    let at = wording::place_of(sheet, place);
    print!(rt;
        "syllable {place}: word {:04o}, syllable {}",
        at.word, at.syllable
    )?;
    if let Some(w) = core.get(at.word as usize) {
        named(rt, syllable::syllable_at(*w, at.syllable))?;
    }
    println!(rt; "")
}

// A syllable's name, and its number k where it has one.
fn named(rt: &impl Print, y: u16) -> io::Result<()> {
    let table = Table::new();
    let name = wording::name_of(table.number_of(y));
    let letters = str::from_utf8(name.trim_ascii_end()).unwrap_or("");
    print!(rt; ", {letters}")?;
    match table.read(y) {
        Syllable::Litc(k) | Syllable::Opdc(k) | Syllable::Desc(k) => print!(rt; " {k}"),
        Syllable::Operator(_) => Ok(()),
    }
}

// The stop and what it means, the syllables completed, C and L, and on 17 the word communicated.
pub fn ran(rt: &impl Print, core: &[u64], ran: Ran) -> io::Result<()> {
    let stop = u64::from(ran.end);
    let words = stopped(ran.end);
    println!(rt; "stop: {stop}{words}")?;
    println!(rt; "completed: {}", ran.completed)?;
    println!(rt; "C: {:04o}", ran.regs.c)?;
    println!(rt; "L: {}", ran.regs.l)?;
    match ran.end {
        End::Communicated => told(rt, wording::communicated(core, ran.regs.r)),
        _ => Ok(()),
    }
}

// What a passed segment can stop with, in the paper's words: no Display, which cannot be written here for another crate's type.
fn stopped(end: End) -> &'static str {
    match end {
        End::On => ", budget spent",
        End::Communicated => ", communicate",
        End::Stopped(Cause::Index) => ", index",
        End::Stopped(Cause::Unwhole) => ", number not whole 39-bit",
        End::Stopped(Cause::ZeroDivisor) => ", zero divisor",
        End::Stopped(_) => "",
    }
}

fn told(rt: &impl Print, w: u64) -> io::Result<()> {
    match word::whole_of(w) {
        Some(z) => println!(rt; "communicated: {w:016o}, {z}"),
        None => println!(rt; "communicated: {w:016o}, not a whole number"),
    }
}
