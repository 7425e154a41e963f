// Push, pop and the four adjustments.
ghost use Rattle.std.specs.Prelude.{◌≡◌, ◌+◌, ◌≤◌, length, set, get_or, IfOk};
ghost use Rattle.machine.specs.Outcomes.{part_of};
ghost use Rattle.machine.specs.Stack.{slot_of, push_b_of, top_of, a_empty_of, a_full_of, b_full_of, both_full_of};
ghost use Rattle.machine.specs.ForCode.Answers.{went_of, Does};
ghost use Rattle.machine.specs.States.{state_of};

use crate::memory::{put, read};
use crate::outcome::{Cause, Registers};

// The address that a push writes. S takes it in 16 bits, so that core may have no more words than it ever has.
#[tactic(auto, unfolding(crate::specs::Stack::slot_of, crate::specs::Memory::in_core, crate::proofs::Calculus::branching))]
pub fn slot(len: usize, s: u16, r: u16) -> Result<u16, Cause>
    requires { len ≤ 32768 }
    ensures same { part_of result ≡ slot_of len s r }
    ensures next { IfOk result (λ up. up ≡ s + 1) }
{
    let up = s as usize + 1;
    if up / 64 == r as usize {
        Err(Cause::Overflow)
    } else if up < len {
        Ok(up as u16)
    } else {
        Err(Cause::Address)
    }
}

// The word that a pop reads.
#[tactic(auto, unfolding(crate::specs::Stack::top_of, crate::proofs::Calculus::branching))]
pub fn top(core: &[u64], s: u16) -> Result<u64, Cause>
    ensures same { part_of result ≡ top_of core.now s }
    ensures above { IfOk result (λ w. 1 ≤ s) }
{
    if s == 0 {
        Err(Cause::Address)
    } else {
        read(core, s as usize)
    }
}

#[tactic(auto, unfolding(crate::specs::Stack::push_b_of, crate::specs::Stack::push_of, crate::proofs::Calculus::branching), using(crate::proofs::Writes::put_back))]
pub fn push_b(core: &mut [u64], g: Registers) -> Result<Registers, Cause>
    requires { length core.old ≤ 32768 }
    ensures does { Does core.old core.new result (push_b_of (state_of core.old g)) }
    ensures undone { set core.new (g.s + 1) (get_or core.old (g.s + 1) 0) ≡ core.old }
{
    if g.bfull {
        let up = slot(core.len(), g.s, g.r)?;
        put(core, true, up as usize, g.b);
        return Ok(Registers {
            b: 0,
            bfull: false,
            s: up,
            ..g
        });
    }
    Ok(g)
}

#[tactic(auto, unfolding(crate::specs::Stack::a_empty_of, crate::proofs::Calculus::branching))]
pub fn a_empty(core: &mut [u64], g: Registers) -> Result<Registers, Cause>
    requires { length core.old ≤ 32768 }
    ensures does { Does core.old core.new result (a_empty_of (state_of core.old g)) }
    ensures undone { set core.new (g.s + 1) (get_or core.old (g.s + 1) 0) ≡ core.old }
{
    if g.afull {
        let h = push_b(core, g)?;
        return Ok(Registers {
            a: 0,
            afull: false,
            b: h.a,
            bfull: true,
            ..h
        });
    }
    Ok(g)
}

#[tactic(auto, unfolding(crate::specs::Stack::a_full_of, crate::proofs::Calculus::branching))]
pub fn a_full(core: &[u64], g: Registers) -> Result<Registers, Cause>
    ensures same { went_of core.now result ≡ a_full_of (state_of core.now g) }
    ensures stays { IfOk result (λ h. h.l ≡ g.l) }
{
    if g.afull {
        return Ok(g);
    }
    if g.bfull {
        return Ok(Registers {
            a: g.b,
            afull: true,
            b: 0,
            bfull: false,
            ..g
        });
    }
    let a = top(core, g.s)?;
    Ok(Registers {
        a,
        afull: true,
        s: g.s - 1,
        ..g
    })
}

#[tactic(auto, unfolding(crate::specs::Stack::b_full_of, crate::proofs::Calculus::branching))]
pub fn b_full(core: &[u64], g: Registers) -> Result<Registers, Cause>
    ensures same { went_of core.now result ≡ b_full_of (state_of core.now g) }
    ensures stays { IfOk result (λ h. h.l ≡ g.l) }
{
    if g.bfull {
        return Ok(g);
    }
    let b = top(core, g.s)?;
    Ok(Registers {
        b,
        bfull: true,
        s: g.s - 1,
        ..g
    })
}

#[tactic(auto, unfolding(crate::specs::Stack::both_full_of, crate::proofs::Calculus::branching))]
pub fn both_full(core: &[u64], g: Registers) -> Result<Registers, Cause>
    ensures same { went_of core.now result ≡ both_full_of (state_of core.now g) }
    ensures stays { IfOk result (λ h. h.l ≡ g.l) }
{
    b_full(core, a_full(core, g)?)
}
