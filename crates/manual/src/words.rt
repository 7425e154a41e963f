// Words: the octades of paragraph 2-14, the bound of an operand, and the formats of paragraphs 5-27, 5-29 and 5-31.
use std::{fmt, io};
use word::Kind;

// Whether an operand is read back as the number that it was made of.
fn back(w: u64, v: i64) -> &'static str {
    match word::whole_of(w) {
        Some(u) if u == v => "read back",
        Some(_) => "read back as another",
        None => "not whole",
    }
}

// The operand of a number that is written as `name`.
fn operand(rt: &impl Print, name: impl fmt::Display + Drop, v: i64) -> io::Result<()> {
    match word::operand_of(v) {
        Some(w) => {
            let back = back(w, v);
            println!(rt; "{name} is the operand {w:016o}, {back}")
        }
        None => println!(rt; "{name} is past 39 bits"),
    }
}

// Of fourteen octal digits the one at this place is 1, the others are 0.
fn octade(rt: &impl Print, at: usize) -> io::Result<()> {
    let mut digits = [0u8; 14];
    digits[at % 14] = 1;
    match word::from_digits(&digits, 8).and_then(|n| i64::try_from(n).ok()) {
        Some(n) => operand(rt, n, n),
        None => println!(rt; "no word"),
    }
}

pub fn octades(rt: &impl Print) -> io::Result<()> {
    println!(rt; "Octades")?;
    for at in (0..14).rev() {
        octade(rt, at)?;
    }
    Ok(())
}

pub fn bound(rt: &impl Print) -> io::Result<()> {
    println!(rt; "Operand bound")?;
    operand(rt, "2^39-1", 549755813887)?;
    operand(rt, "2^39", 549755813888)?;
    operand(rt, "-(2^39-1)", -549755813887)?;
    operand(rt, "-2^39", -549755813888)
}

// A Display cannot be written here for another crate's type.
fn kind(w: u64) -> &'static str {
    match word::kind_of(w) {
        Kind::Operand => "an operand",
        Kind::Data => "a data descriptor",
        Kind::Program => "a program descriptor",
        Kind::Control => "a control word",
    }
}

// A word's name, its digits and its kind.
fn heading(rt: &impl Print, name: &str, w: u64) -> io::Result<()> {
    let kind = kind(w);
    println!(rt; "{name} {w:016o}, {kind}")
}

// A field of one bit; a Display cannot be written here for `bool`.
fn flag(on: bool) -> &'static str {
    if on { "on" } else { "off" }
}

pub fn mark_stack(rt: &impl Print) -> io::Result<()> {
    let w = word::mscw(0o525, true, false, 0o12345);
    heading(rt, "MSCW", w)?;
    let r = word::mscw_r(w);
    let msff = flag(word::mscw_msff(w));
    let salf = flag(word::mscw_salf(w));
    let f = word::f_field(w);
    println!(rt; "R {r:04o}, MSFF {msff}, SALF {salf}, F {f:05o}")
}

pub fn program(rt: &impl Print) -> io::Result<()> {
    let w = word::program(true, false, true, 0o23456, 0o34567);
    heading(rt, "Program descriptor", w)?;
    let presence = flag(word::presence(w));
    let mode = flag(word::mode(w));
    let argument = flag(word::argument(w));
    let f = word::f_field(w);
    let address = word::address(w);
    print!(rt; "presence {presence}, mode {mode}, argument {argument}, ")?;
    println!(rt; "F {f:05o}, address {address:05o}")
}

pub fn return_control(rt: &impl Print) -> io::Result<()> {
    let w = word::rcw(true, 2, 0o45671, 0o56712);
    heading(rt, "RCW", w)?;
    let call = flag(word::rcw_call(w));
    let l = word::rcw_l(w);
    let f = word::f_field(w);
    let c = word::rcw_c(w);
    println!(rt; "descriptor call {call}, L {l}, F {f:05o}, C {c:05o}")
}
