// Reading, storing, and the address of k.
ghost use Rattle.std.specs.Prelude.{◌≡◌, ◌<◌, length, IfOk};
ghost use Rattle.machine.specs.Outcomes.{part_of};
ghost use Rattle.machine.specs.Memory.{in_core, read_of, base_of, pattern_of, k_address_of};
ghost use Rattle.machine.specs.ForCode.Answers.{put_of};
ghost use Rattle.machine.specs.States.{state_of};

use crate::outcome::{Cause, Registers};
use word::cell_address;

#[tactic(auto, unfolding(crate::specs::Memory::in_core, crate::proofs::Calculus::branching))]
pub fn in_core(len: usize, m: usize) -> Result<usize, Cause>
    ensures same { part_of result ≡ in_core len m }
    ensures below { IfOk result (λ m. m < len) }
{
    if m < len { Ok(m) } else { Err(Cause::Address) }
}

#[tactic(auto, unfolding(crate::specs::Memory::read_of, crate::specs::Memory::in_core, crate::proofs::Calculus::branching))]
pub fn read(core: &[u64], m: usize) -> Result<u64, Cause>
    ensures { part_of result ≡ read_of core.now m }
{
    core.get(m).copied().ok_or(Cause::Address)
}

// Writes a word where the address is in core.
pub fn put(core: &mut [u64], live: bool, m: usize, w: u64)
    ensures { core.new ≡ put_of live m w core.old }
{
    if live && m < core.len() {
        core[m] = w;
    }
}

#[tactic(auto, unfolding(crate::specs::Memory::base_of, crate::proofs::Calculus::branching))]
pub fn base(core: &[u64], g: Registers) -> Result<u16, Cause>
    ensures { part_of result ≡ base_of (state_of core.now g) }
{
    if g.msff {
        Ok(word::f_field(read(core, cell_address(g.r, 7))?))
    } else {
        Ok(g.f)
    }
}

#[tactic(auto, unfolding(crate::specs::Memory::pattern_of, crate::proofs::Calculus::branching))]
pub fn pattern(core: &[u64], here: u16, g: Registers, k: u16) -> Result<usize, Cause>
    ensures same { part_of result ≡ pattern_of here (state_of core.now g) k }
    ensures below { IfOk result (λ m. m < length core.now) }
{
    let len = core.len();
    if k / 512 == 0 {
        in_core(len, cell_address(g.r, k % 512))
    } else if k / 256 == 2 {
        in_core(len, base(core, g)? as usize + k as usize % 256)
    } else if k / 128 == 6 {
        in_core(len, here as usize + k as usize % 128)
    } else {
        let from = base(core, g)?;
        if from < k % 128 {
            Err(Cause::Address)
        } else {
            in_core(len, (from - k % 128) as usize)
        }
    }
}

#[tactic(auto, unfolding(crate::specs::Memory::k_address_of, crate::proofs::Calculus::branching))]
pub fn k_address(core: &[u64], here: u16, g: Registers, k: u16) -> Result<usize, Cause>
    ensures same { part_of result ≡ k_address_of here (state_of core.now g) k }
    ensures below { IfOk result (λ m. m < length core.now) }
{
    if g.salf {
        pattern(core, here, g, k)
    } else {
        in_core(core.len(), cell_address(g.r, k))
    }
}
