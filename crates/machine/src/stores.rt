// LITC, LOD, STD, SND and COM.
ghost use Rattle.std.specs.Prelude.{◌≡◌, ◌≤◌, ◌<◌, length, IfOk};
ghost use Rattle.machine.specs.Outcomes.{part_of};
ghost use Rattle.machine.specs.Stores.{litc_of, place_of, lod_of, snd_of, std_of, com_of};
ghost use Rattle.machine.specs.ForCode.Answers.{went_of, Does};
ghost use Rattle.machine.specs.States.{state_of};
ghost use Rattle.word.specs.Choices.{if◌then◌otherwise◌};

use crate::memory::{in_core, k_address};
use crate::outcome::{Cause, Registers};
use crate::stack::{a_empty, a_full, both_full};
use word::cell_address;

#[tactic(auto, unfolding(crate::specs::Stores::litc_of, crate::proofs::Calculus::branching))]
pub fn litc(core: &mut [u64], g: Registers, k: u16) -> Result<Registers, Cause>
    requires { length core.old ≤ 32768 }
    ensures { Does core.old core.new result (litc_of (state_of core.old g) k) }
{
    let h = a_empty(core, g)?;
    Ok(Registers {
        a: k as u64,
        afull: true,
        ..h
    })
}

#[tactic(auto, unfolding(crate::specs::Stores::place_of, crate::proofs::Calculus::branching), using(crate::proofs::Turns::low_bits))]
pub fn place(core: &[u64], here: u16, g: Registers, a: u64) -> Result<usize, Cause>
    ensures same { part_of result ≡ place_of here (state_of core.now g) a }
    ensures below { IfOk result (λ m. m < length core.now) }
{
    if word::flag(a) {
        if word::presence(a) {
            in_core(core.len(), word::address(a) as usize)
        } else {
            Err(Cause::Presence)
        }
    } else {
        k_address(core, here, g, (a % 1024) as u16)
    }
}

#[tactic(auto, unfolding(crate::specs::Stores::lod_of, crate::proofs::Calculus::branching))]
pub fn lod(core: &[u64], here: u16, g: Registers) -> Result<Registers, Cause>
    ensures { went_of core.now result ≡ lod_of here (state_of core.now g) }
{
    let h = a_full(core, g)?;
    let m = place(core, here, h, h.a)?;
    Ok(Registers {
        a: core[m],
        afull: true,
        ..h
    })
}

// STD and SND, which keeps B's word.
#[tactic(auto, unfolding(crate::specs::Stores::std_of, crate::specs::Stores::snd_of, crate::proofs::Calculus::branching))]
pub fn store(core: &mut [u64], here: u16, g: Registers, keep: bool) -> Result<Registers, Cause>
    ensures { Does core.old core.new result (if keep then snd_of here (state_of core.old g) otherwise std_of here (state_of core.old g)) }
{
    let h = both_full(core, g)?;
    let m = place(core, here, h, h.a)?;
    core[m] = h.b;
    let u = Registers {
        a: 0,
        afull: false,
        ..h
    };
    if keep {
        Ok(u)
    } else {
        Ok(Registers {
            b: 0,
            bfull: false,
            ..u
        })
    }
}

#[tactic(auto, unfolding(crate::specs::Stores::com_of, crate::specs::Memory::store_of, crate::proofs::Calculus::branching))]
pub fn com(core: &mut [u64], g: Registers) -> Result<Registers, Cause>
    ensures { Does core.old core.new result (com_of (state_of core.old g)) }
{
    let h = a_full(core, g)?;
    let m = in_core(core.len(), cell_address(h.r, 9))?;
    core[m] = h.a;
    Ok(Registers {
        a: 0,
        afull: false,
        ..h
    })
}
