// The panel's register set, moved on by one syllable where it stands.
ghost use Rattle.std.specs.Prelude.{◌≡◌};
ghost use Rattle.machine.specs.Steps.{step_of};
ghost use Rattle.panel.specs.Panels.{moved_by};

use machine::{End, Refusal, Registers};
use std::{fmt, io};

// The only function with a set of its own: it lends the set to `step_panel`, and hands it on with what came of the step.
fn moved(core: &mut [u64], g: Registers) -> (Result<End, Refusal>, Registers)
    ensures { moved_by result.0 result.1 core.new ≡ step_of core.old g }
{
    let mut regs = g;
    let ended = panel::step_panel(core, &mut regs);
    (ended, regs)
}

// R=1, S=31, all else 0, empty or off. All fields are written out, since a constant cannot call `default`.
const START: Registers = Registers {
    r: 1,
    f: 0,
    salf: false,
    msff: false,
    a: 0,
    s: 31,
    bfull: false,
    afull: false,
    b: 0,
    c: 0,
    l: 0,
};

// A or B: its word, or a dash if it is empty.
#[derive(Drop)]
struct Stacked(Option<u64>);

impl fmt::Display for Stacked {
    fn fmt<W: fmt::Write>(&self, f: &mut fmt::Formatter<W>) -> fmt::Result {
        match self.0 {
            Some(w) => write!(f, "{w:016o}"),
            None => write!(f, "-"),
        }
    }
}

// A line of one step: the number given back, A, B, S, C, L. The set goes on to the next.
fn shown(rt: &impl Print, name: &str, core: &mut [u64], g: Registers) -> io::Result<Registers> {
    let (ended, regs) = moved(core, g);
    let number = match ended {
        Ok(end) => u64::from(end),
        Err(why) => u64::from(why),
    };
    let a = Stacked(regs.afull.then_some(regs.a));
    let b = Stacked(regs.bfull.then_some(regs.b));
    println!(rt; "{name}: {number} {a} {b} {} {} {}", regs.s, regs.c, regs.l)?;
    Ok(regs)
}

// LITC 5, LITC 7, SUB, COM, which stores in cell 9.
pub fn program(rt: &impl Print) -> io::Result<()> {
    let mut core = [0u64; 128];
    core[0] = 0o0024_0034_0301_1011;
    println!(rt; "The panel: number, A, B, S, C, L")?;
    let mut g = START;
    for name in ["LITC 5", "LITC 7", "SUB", "COM"] {
        g = shown(rt, name, &mut core, g)?;
    }
    println!(rt; "Cell 9: {:016o}", core[73])
}

// 2^39-1 plus 1 stops, and the registers stay.
pub fn past_whole(rt: &impl Print) -> io::Result<()> {
    let mut core = [0u64; 128];
    core[0] = 0o0101_0000_0000_0000;
    let g = Registers {
        b: 0o7777777777777,
        bfull: true,
        a: 1,
        afull: true,
        ..START
    };
    shown(rt, "2^39-1 ADD 1", &mut core, g)?;
    Ok(())
}

// L is out of range, and the registers stay.
pub fn refused(rt: &impl Print) -> io::Result<()> {
    let mut core = [0u64; 128];
    shown(rt, "L=4", &mut core, Registers { l: 4, ..START })?;
    Ok(())
}
