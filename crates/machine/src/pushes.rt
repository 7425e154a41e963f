// Pushes made only where a register is full: the tests apart from the writes.
ghost use Rattle.std.specs.Prelude.{◌≡◌, ◌≤◌};
ghost use Rattle.machine.specs.Outcomes.{part_of};
ghost use Rattle.machine.specs.ForCode.Pushes.{slot_if, in_core_if, emptied as emptied_of};

use crate::memory::in_core;
use crate::outcome::Cause;
use crate::stack::slot;

// S after a push that is made or not.
#[tactic(auto, unfolding(crate::specs::ForCode::Pushes::slot_if, crate::proofs::Calculus::branching))]
pub fn slot_if(live: bool, len: usize, s: u16, r: u16) -> Result<u16, Cause>
    requires { len ≤ 32768 }
    ensures { part_of result ≡ slot_if live len s r }
{
    if live { slot(len, s, r) } else { Ok(s) }
}

// An address that is looked at or not.
#[tactic(auto, unfolding(crate::specs::ForCode::Pushes::in_core_if, crate::proofs::Calculus::branching))]
pub fn in_core_if(live: bool, len: usize, m: usize) -> Result<usize, Cause>
    ensures { part_of result ≡ in_core_if live len m }
{
    if live { in_core(len, m) } else { Ok(m) }
}

// What a register holds after it was pushed if full.
#[tactic(auto, unfolding(crate::specs::ForCode::Pushes::emptied, crate::proofs::Calculus::branching))]
pub fn emptied(full: bool, w: u64) -> u64
    ensures { result ≡ emptied_of full w }
{
    if full { 0 } else { w }
}
