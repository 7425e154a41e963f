// The panel: its set of registers is moved on by one syllable where it stands.
#![tactic(auto)]

ghost use Rattle.std.specs.Prelude.{◌≡◌};
ghost use Rattle.machine.specs.Steps.{step_of};
ghost use Rattle.panel.specs.Panels.{moved_by};

use machine::{End, Refusal, Registers};

// Copies the registers out, steps, writes them back; a refusal leaves them.
pub fn step_panel(core: &mut [u64], g: &mut Registers) -> Result<End, Refusal>
    ensures { moved_by result g.new core.new ≡ step_of core.old g.old }
{
    let a = machine::step(core, *g)?;
    *g = a.regs;
    Ok(a.end)
}
