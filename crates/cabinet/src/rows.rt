// A register set crosses as a row of eleven words: A, a_full, B, b_full, S, F, C, R, L, SALF, MSFF.
ghost use Rattle.std.specs.Prelude.{◌≡◌};
ghost use Rattle.cabinet.specs.Rows.{row_of};
ghost use Rattle.cabinet.specs.ForCode.Rooms.{narrow_of, mark_by, set_by, set_read};

use machine::{Refusal, Registers};

// A number past 16 bits is out of range, and stays so.
pub fn narrow(n: u64) -> u16
    ensures { result ≡ narrow_of 65535 n }
{
    u16::try_from(n).unwrap_or(u16::MAX)
}

// 0 or 1.
fn mark(w: u64) -> Result<bool, Refusal>
    ensures { result ≡ mark_by w }
{
    match w {
        0 => Ok(false),
        1 => Ok(true),
        _ => Err(Refusal::Registers),
    }
}

// The set of a row.
fn set_of(row: [u64; 11]) -> Result<Registers, Refusal>
    ensures { result ≡ set_by row }
{
    let [a, afull, b, bfull, s, f, c, r, l, salf, msff] = row;
    Ok(Registers {
        a,
        afull: mark(afull)?,
        b,
        bfull: mark(bfull)?,
        s: narrow(s),
        f: narrow(f),
        c: narrow(c),
        r: narrow(r),
        l: u8::try_from(l).unwrap_or(u8::MAX),
        salf: mark(salf)?,
        msff: mark(msff)?,
    })
}

// The set of 66 bytes.
pub fn set_in(regs: &[u8]) -> Result<Registers, Refusal>
    ensures { result ≡ set_read regs.now }
{
    let mut row = [0u64; 11];
    tape::read_file(regs, &mut row).or(Err(Refusal::Registers))?;
    set_of(row)
}

// The row of a set.
pub fn row_of(g: Registers) -> [u64; 11]
    ensures { result ≡ row_of g }
{
    [
        g.a,
        u64::from(g.afull),
        g.b,
        u64::from(g.bfull),
        u64::from(g.s),
        u64::from(g.f),
        u64::from(g.c),
        u64::from(g.r),
        u64::from(g.l),
        u64::from(g.salf),
        u64::from(g.msff),
    ]
}
