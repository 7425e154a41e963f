// The run: steps until a stop or the budget is spent.
ghost use Rattle.std.specs.Prelude.{◌≡◌, ◌≤◌, length};
ghost use Rattle.machine.specs.Runs.{run_from, run_of, run_says, ran_of};
ghost use Rattle.machine.specs.States.{state_of};

use crate::checks::check;
use crate::outcome::{Done, End, Ran, Refusal, Registers};
use crate::quick::sprint;
use crate::steps::execute;
use syllable::Table;

// A sprint over the common syllables, then a full step for the next one. A fit state stays fit, so the checks are not made again.
// A sprint completes many syllables, so the loop is no `for`.
pub fn turns(table: &Table, core: &mut [u64], g: Registers, budget: u64) -> Ran
    requires { length core.old ≤ 32768 }
    ensures { run_says result core.new ≡ run_from budget (state_of core.old g) }
{
    let mut regs = g;
    let mut completed = 0;
    loop {
        let q = sprint(table, core, regs, completed, budget);
        if q.completed == budget {
            return Ran {
                end: End::On,
                completed: budget,
                regs: q.regs,
            };
        }
        match execute(table, core, q.regs) {
            Ok(Done::Next(h)) => {
                regs = h;
                completed = q.completed + 1;
            }
            Ok(Done::Com(h)) => {
                return Ran {
                    end: End::Communicated,
                    completed: q.completed + 1,
                    regs: h,
                };
            }
            Err(cause) => {
                return Ran {
                    end: End::Stopped(cause),
                    completed: q.completed,
                    regs: q.regs,
                };
            }
        }
    }
}

// Checks 1, 2, 3 and 5 once, then steps.
#[tactic(auto, using(crate::proofs::Running::run_refused, crate::proofs::Running::run_over, crate::proofs::Running::run_steps, crate::proofs::Endings::refusal_length))]
pub fn run(core: &mut [u64], g: Registers, budget: u64) -> Result<Ran, Refusal>
    ensures { ran_of g result core.new ≡ run_of core.old g budget }
{
    check(&core[..], g)?;
    if 1000000 < budget {
        return Err(Refusal::Budget);
    }
    Ok(turns(&Table::new(), core, g, budget))
}
