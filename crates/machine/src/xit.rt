// XIT: back through the two control words, and the last mark of the chain.
ghost use Rattle.std.specs.Prelude.{◌≡◌, ◌≤◌, IfOk};
ghost use Rattle.machine.specs.Outcomes.{part_of};
ghost use Rattle.machine.specs.Marks.{control_of, mark_at_of, chain_of, restore_of, leave_of, xit_of};
ghost use Rattle.machine.specs.ForCode.Answers.{went_of, Does};
ghost use Rattle.machine.specs.States.{state_of};

use crate::memory::{in_core, read};
use crate::outcome::{Cause, Registers};
use word::cell_address;

// A word whose flag is on.
#[tactic(auto, unfolding(crate::specs::Marks::control_of, crate::proofs::Calculus::branching))]
fn control(core: &[u64], m: usize) -> Result<u64, Cause>
    ensures { part_of result ≡ control_of core.now m }
{
    let w = read(core, m)?;
    if word::flag(w) {
        Ok(w)
    } else {
        Err(Cause::Flag)
    }
}

// The MSCW at m; S becomes the address below it, so m is not 0.
#[tactic(auto, unfolding(crate::specs::Marks::mark_at_of, crate::proofs::Calculus::branching))]
fn mark_at(core: &[u64], m: usize) -> Result<u64, Cause>
    ensures same { part_of result ≡ mark_at_of core.now m }
    ensures above { IfOk result (λ w. 1 ≤ m) }
{
    if m == 0 {
        Err(Cause::Address)
    } else {
        control(core, m)
    }
}

// The last word of the chain of F fields from m, within 32,768 reads.
#[tactic(auto, unfolding(crate::proofs::Calculus::branching), using(crate::proofs::Exits::chains))]
fn chain(core: &[u64], m: u16) -> Result<u64, Cause>
    ensures { part_of result ≡ chain_of 32768 core.now m }
{
    let mut at = m;
    for _ in 0..32768u16 {
        let w = read(core, at as usize)?;
        if !word::mscw_msff(w) {
            return Ok(w);
        }
        at = word::f_field(w);
    }
    Err(Cause::Address)
}

// The registers as the RCW, at F, and the MSCW, at its F field, give them.
#[tactic(auto, unfolding(crate::specs::Marks::leave_of, crate::proofs::Calculus::branching))]
fn leave(core: &[u64], g: Registers) -> Result<Registers, Cause>
    ensures { went_of core.now result ≡ leave_of (state_of core.now g) }
{
    let rcw = control(core, g.f as usize)?;
    let m = word::f_field(rcw);
    let mscw = mark_at(core, m as usize)?;
    Ok(Registers {
        a: 0,
        afull: false,
        b: 0,
        bfull: false,
        s: m - 1,
        f: word::f_field(mscw),
        c: word::rcw_c(rcw),
        r: word::mscw_r(mscw),
        l: word::rcw_l(rcw),
        salf: word::mscw_salf(mscw),
        msff: word::mscw_msff(mscw),
    })
}

// Where both flags came back on, the last mark of the chain is written at 64R+7.
#[tactic(auto, unfolding(crate::specs::Marks::restore_of, crate::specs::Memory::store_of, crate::proofs::Calculus::branching))]
fn restore(core: &mut [u64], g: Registers) -> Result<Registers, Cause>
    ensures { Does core.old core.new result (restore_of (state_of core.old g)) }
{
    if g.msff && g.salf {
        let w = chain(core, g.f)?;
        let m = in_core(core.len(), cell_address(g.r, 7))?;
        core[m] = w;
    }
    Ok(g)
}

#[tactic(auto, unfolding(crate::specs::Marks::xit_of, crate::proofs::Calculus::branching))]
pub fn xit(core: &mut [u64], g: Registers) -> Result<Registers, Cause>
    ensures { Does core.old core.new result (xit_of (state_of core.old g)) }
{
    if g.salf {
        let h = leave(core, g)?;
        restore(core, h)
    } else {
        Ok(g)
    }
}
