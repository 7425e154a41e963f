// The four branches.
ghost use Rattle.std.specs.Prelude.{◌≡◌, List, ℕ, ◌<◌, ◌≤◌, max, IfOk};
ghost use Rattle.machine.specs.Outcomes.{part_of};
ghost use Rattle.machine.specs.Branches.{landing_of, jump_of, always_of, if_off_of};
ghost use Rattle.machine.specs.ForCode.Answers.{went_of};
ghost use Rattle.machine.specs.States.{state_of};

use crate::outcome::{Cause, Registers};
use crate::stack::{a_full, both_full};

// Where a branch by d syllables from syllable n lands.
#[tactic(auto, unfolding(crate::specs::Branches::landing_of, crate::proofs::Calculus::branching))]
pub fn landing(back: bool, n: u32, d: u16) -> Result<usize, Cause>
    ensures same { part_of result ≡ landing_of back n d }
    ensures below { IfOk result (λ m. m ≤ max n 131071) }
{
    let from = n as usize;
    let by = d as usize;
    if back {
        from.checked_sub(by).ok_or(Cause::Address)
    } else if 131071 < from + by {
        Err(Cause::Address)
    } else {
        Ok(from + by)
    }
}

// L has 2 bits, so that the landing's word has an address that C can hold.
#[tactic(auto, unfolding(crate::specs::Branches::jump_of, crate::proofs::Calculus::branching), using(crate::proofs::Turns::low_bits))]
pub fn jump(back: bool, g: Registers, w: u64) -> Result<Registers, Cause>
    requires { g.l < 4 }
    ensures { (core : List ℕ) → went_of core result ≡ jump_of back (state_of core g) w }
{
    if word::flag(w) {
        if word::presence(w) {
            return Ok(Registers {
                c: word::address(w),
                l: 0,
                ..g
            });
        }
        return Err(Cause::Presence);
    }
    let n = landing(back, 4 * g.c as u32 + g.l as u32, (w % 4096) as u16)?;
    Ok(Registers {
        c: (n / 4) as u16,
        l: (n % 4) as u8,
        ..g
    })
}

#[tactic(auto, unfolding(crate::specs::Branches::always_of, crate::proofs::Calculus::branching))]
pub fn always(core: &[u64], back: bool, g: Registers) -> Result<Registers, Cause>
    requires { g.l < 4 }
    ensures { went_of core.now result ≡ always_of back (state_of core.now g) }
{
    let h = a_full(core, g)?;
    let empty = Registers {
        a: 0,
        afull: false,
        ..h
    };
    jump(back, empty, h.a)
}

#[tactic(auto, unfolding(crate::specs::Branches::if_off_of, crate::proofs::Calculus::branching), using(crate::proofs::Turns::last_bit))]
pub fn if_off(core: &[u64], back: bool, g: Registers) -> Result<Registers, Cause>
    requires { g.l < 4 }
    ensures { went_of core.now result ≡ if_off_of back (state_of core.now g) }
{
    let h = both_full(core, g)?;
    let empty = Registers {
        a: 0,
        afull: false,
        b: 0,
        bfull: false,
        ..h
    };
    if h.b % 2 == 1 {
        Ok(empty)
    } else {
        jump(back, empty, h.a)
    }
}
