// The step: fetch, advance, perform; and the checks before it.
ghost use Rattle.std.specs.Prelude.{◌≡◌, ◌≤◌, ◌<◌, length};
ghost use Rattle.machine.specs.Steps.{logic_as, branch_as, operate_of, perform_of, execute_of, step_of, answered};
ghost use Rattle.machine.specs.States.{state_of};
ghost use Rattle.machine.specs.ForCode.Answers.{went_of, plain_as, Ends};

use crate::arithmetic::{reckon, relate, two};
use crate::bits::{del, dup, inx, lng, lqv, one_word, top_flag, two_words, xch};
use crate::branches::{always, if_off};
use crate::calls::call_k;
use crate::checks::check;
use crate::memory::read;
use crate::mks::mks;
use crate::outcome::{Answer, Cause, Done, Refusal, Registers};
use crate::runs::turns;
use crate::stores::{com, litc, lod, store};
use crate::xit::xit;
use syllable::{Branch, Logic, Operator, Syllable, Table};

// A syllable that goes on.
fn plain(w: Result<Registers, Cause>) -> Result<Done, Cause>
    ensures { result ≡ plain_as w }
{
    Ok(Done::Next(w?))
}

// LND, LOR, LQV, LNG.
fn logic(core: &[u64], g: Registers, o: Logic) -> Result<Registers, Cause>
    ensures { went_of core.now result ≡ logic_as o (state_of core.now g) }
{
    match o {
        Logic::Lnd => two_words(
            core,
            g,
            |b, a| word::with_body(b, word::body(b) & word::body(a)),
        ),
        Logic::Lor => two_words(
            core,
            g,
            |b, a| word::with_body(b, word::body(b) | word::body(a)),
        ),
        Logic::Lqv => two_words(core, g, lqv),
        Logic::Lng => one_word(core, g, lng),
    }
}

// BFW, BBW, BFC, BBC.
fn branch(core: &[u64], g: Registers, o: Branch) -> Result<Registers, Cause>
    requires { g.l < 4 }
    ensures { went_of core.now result ≡ branch_as o (state_of core.now g) }
{
    match o {
        Branch::Bfw => always(core, false, g),
        Branch::Bbw => always(core, true, g),
        Branch::Bfc => if_off(core, false, g),
        Branch::Bbc => if_off(core, true, g),
    }
}

// What each operator does; here is the address of the present syllable's word.
#[tactic(auto, unfolding(crate::specs::Steps::operate_of, crate::proofs::Calculus::branching), using(crate::proofs::Endings::plains))]
fn operate(core: &mut [u64], here: u16, o: Operator, g: Registers) -> Result<Done, Cause>
    requires { (length core.old ≤ 32768) × (g.l < 4) }
    ensures { Ends core.old core.new result (operate_of here o (state_of core.old g)) }
{
    // One arm for STD and SND, so that `store` has one caller and is built into the run.
    let keep = matches!(o, Operator::Snd);
    match o {
        Operator::Arithmetic(a) => plain(two(&core[..], g, |y, x| reckon(a, y, x))),
        Operator::Relation(r) => plain(two(&core[..], g, |y, x| relate(r, y, x))),
        Operator::Logic(l) => plain(logic(&core[..], g, l)),
        Operator::Branch(b) => plain(branch(&core[..], g, b)),
        Operator::Mop => plain(one_word(&core[..], g, |a| word::with_flag(a, false))),
        Operator::Mds => plain(one_word(&core[..], g, |a| word::with_flag(a, true))),
        Operator::Ssp => plain(one_word(&core[..], g, |a| word::with_sign(a, false))),
        Operator::Ssn => plain(one_word(&core[..], g, |a| word::with_sign(a, true))),
        Operator::Chs => plain(one_word(&core[..], g, |a| word::with_sign(a, !word::sign(a)))),
        Operator::Top => plain(top_flag(core, g)),
        Operator::Xch => plain(xch(&core[..], g)),
        Operator::Dup => plain(dup(core, g)),
        Operator::Del => plain(del(&core[..], g)),
        Operator::Nop => Ok(Done::Next(g)),
        Operator::Lod => plain(lod(&core[..], here, g)),
        Operator::Std | Operator::Snd => plain(store(core, here, g, keep)),
        Operator::Inx => plain(inx(&core[..], g)),
        Operator::Mks => plain(mks(core, g)),
        Operator::Xit => plain(xit(core, g)),
        Operator::Com => Ok(Done::Com(com(core, g)?)),
        Operator::NotBuilt(_) => Err(Cause::Unbuilt),
    }
}

// What a syllable does.
#[tactic(auto, unfolding(crate::specs::Steps::perform_of))]
fn perform(core: &mut [u64], here: u16, s: Syllable, g: Registers) -> Result<Done, Cause>
    requires { (length core.old ≤ 32768) × (g.l < 4) }
    ensures { Ends core.old core.new result (perform_of here s (state_of core.old g)) }
{
    // One arm for OPDC and DESC, so that `call_k` has one caller and is built into the run.
    let desc = matches!(s, Syllable::Desc(_));
    match s {
        Syllable::Litc(k) => plain(litc(core, g, k)),
        Syllable::Opdc(k) | Syllable::Desc(k) => plain(call_k(core, desc, here, g, k)),
        Syllable::Operator(o) => operate(core, here, o, g),
    }
}

// One syllable of a fit state; the table is lent, since a constant table is built anew at every use.
#[tactic(auto, unfolding(crate::specs::Steps::execute_of), using(crate::proofs::Endings::syllable_small))]
pub fn execute(table: &Table, core: &mut [u64], g: Registers) -> Result<Done, Cause>
    requires { length core.old ≤ 32768 }
    ensures { Ends core.old core.new result (execute_of (state_of core.old g)) }
{
    let w = read(&core[..], g.c as usize)?;
    let y = syllable::syllable_at(w, g.l);
    let p = syllable::advance(g.c, g.l);
    let h = Registers {
        c: p.c,
        l: p.l,
        ..g
    };
    perform(core, g.c, table.read(y), h)
}

// Checks 1, 2 and 3, then one syllable: a run of one, so that `execute` has one caller and is built into the run.
#[tactic(auto, using(crate::proofs::Endings::refused, crate::proofs::Endings::refusal_length))]
pub fn step(core: &mut [u64], g: Registers) -> Result<Answer, Refusal>
    ensures { answered g result core.new ≡ step_of core.old g }
{
    check(&core[..], g)?;
    let ran = turns(&Table::new(), core, g, 1);
    Ok(Answer {
        end: ran.end,
        regs: ran.regs,
    })
}
