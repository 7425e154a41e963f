// MKS.
ghost use Rattle.std.specs.Prelude.{◌≡◌, ◌≤◌, length};
ghost use Rattle.machine.specs.Marks.{mks_of};
ghost use Rattle.machine.specs.ForCode.Pushes.{marked_of};
ghost use Rattle.machine.specs.States.{state_of};
ghost use Rattle.machine.specs.ForCode.Answers.{Does};

use crate::memory::put;
use crate::outcome::{Cause, Registers};
use crate::pushes::{emptied, in_core_if, slot_if};
use crate::stack::slot;
use word::cell_address;

// The registers after MKS.
#[tactic(auto, unfolding(crate::specs::ForCode::Pushes::marked_of))]
fn marked(g: Registers, s: u16) -> Registers
    ensures { result ≡ marked_of g s }
{
    Registers {
        a: emptied(g.afull, g.a),
        afull: false,
        b: emptied(g.bfull, g.b),
        bfull: false,
        s,
        f: s,
        msff: true,
        ..g
    }
}

// Room for all that is written is found first, then all is written.
#[tactic(auto, unfolding(crate::proofs::MksPlan::mks_plan, crate::specs::ForCode::Pushes::piled_of, crate::proofs::Calculus::branching), using(crate::proofs::MksPlan::mks_is))]
pub fn mks(core: &mut [u64], g: Registers) -> Result<Registers, Cause>
    requires { length core.old ≤ 32768 }
    ensures { Does core.old core.new result (mks_of (state_of core.old g)) }
{
    let len = core.len();
    let p = slot_if(g.bfull, len, g.s, g.r)?;
    let q = slot_if(g.afull, len, p, g.r)?;
    let s = slot(len, q, g.r)?;
    // SALF on and MSFF off: the mark stands at 64R+7 too.
    let twice = g.salf && !g.msff;
    let m = in_core_if(twice, len, cell_address(g.r, 7))?;
    let mark = word::mscw(g.r, g.msff, g.salf, g.f);
    put(core, g.bfull, p as usize, g.b);
    put(core, g.afull, q as usize, g.a);
    put(core, true, s as usize, mark);
    put(core, twice, m, mark);
    Ok(marked(g, s))
}
