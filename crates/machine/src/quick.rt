// The sprint: the common cases of the common syllables, over few registers; all else is left to the full step.
// Its functions are the step's own, written again over fewer registers: for speed.
ghost use Rattle.std.specs.Prelude.{◌≡◌, ◌&&◌, true, false, List, ℕ, ℤ, ◌≤◌, ◌<◌};
ghost use Rattle.word.specs.Choices.{if◌then◌otherwise◌};
ghost use Rattle.machine.specs.Stores.{litc_of, snd_of, std_of};
ghost use Rattle.machine.specs.Calls.{call_of, call_k_of};
ghost use Rattle.machine.specs.Branches.{if_off_of};
ghost use Rattle.machine.specs.Arithmetics.{two_of};
ghost use Rattle.machine.specs.Steps.{plain as plain_of, operate_of, perform_of, execute_of};
ghost use Rattle.machine.specs.States.{state_of};
ghost use Rattle.machine.specs.ForCode.Answers.{Works};
ghost use Rattle.machine.specs.Outcomes.{Res};
ghost use Rattle.word.specs.Layout.{flag_of};
ghost use Rattle.machine.specs.ForCode.Sprints.{upon, under_of, element_of, raised, Quickly, Hurries, rest_of_run};

use crate::arithmetic::{reckon, relate, work};
use crate::branches::landing;
use crate::calls::{index, moved};
use crate::memory::{k_address, read};
use crate::outcome::{Cause, Hot, Registers, Sprint};
use crate::stores::place;
use syllable::{Branch, Operator, Syllable, Table};

// A and B both hold a word.
fn both_full(t: Hot) -> bool
    ensures { result ≡ (t.afull && t.bfull) }
{
    t.afull && t.bfull
}

// A word comes to A; where A and B are full, B would have to be pushed.
#[tactic(auto, unfolding(crate::specs::Stores::litc_of, crate::specs::Stack::a_empty_of, crate::specs::Stack::push_b_of, crate::proofs::Calculus::branching))]
fn filled(t: Hot, w: u64) -> Option<Hot>
    ensures { (core : List ℕ) (g : Registers) → Quickly core g result (plain_of (litc_of (state_of core (upon g t)) w)) }
{
    if t.afull {
        if t.bfull {
            return None;
        }
        return Some(Hot {
            a: w,
            b: t.a,
            bfull: true,
            ..t
        });
    }
    Some(Hot {
        a: w,
        afull: true,
        ..t
    })
}

// B's word once A is empty, where no pop is due.
#[tactic(auto, unfolding(crate::specs::ForCode::Sprints::under_of, crate::proofs::Calculus::branching))]
fn under(t: Hot) -> Option<u64>
    ensures { result ≡ under_of t }
{
    if t.afull {
        return Some(t.a);
    }
    if t.bfull {
        return Some(t.b);
    }
    None
}

// The descriptor of the element that a present data descriptor and an index at hand name.
#[tactic(auto, unfolding(crate::specs::ForCode::Sprints::element_of, crate::proofs::Calculus::branching))]
fn element(t: Hot, d: u64) -> Option<u64>
    ensures { result ≡ element_of t d }
{
    if word::sign(d) || !word::presence(d) {
        return None;
    }
    let x = under(t)?;
    let i = index(x, word::size(d)).ok()?;
    Some(moved(d, i))
}

// OPDC's call of a word whose flag is on: of an element of an array.
#[tactic(auto, using(crate::proofs::Sprinting::takes_element))]
fn flagged(core: &[u64], t: Hot, d: u64) -> Option<Hot>
    requires { flag_of d ≡ true }
    ensures { (g : Registers) (m : ℕ) → Quickly core.now g result (plain_of (call_of false m (state_of core.now (upon g (raised t d))))) }
{
    let e = element(t, d)?;
    let w = read(core, word::address(e) as usize).ok()?;
    if word::flag(w) {
        return None;
    }
    Some(Hot {
        a: w,
        b: 0,
        afull: true,
        bfull: false,
        ..t
    })
}

// OPDC of an operand or an element of an array.
fn operand(core: &[u64], here: u16, g: Registers, t: Hot, k: u16) -> Option<Hot>
    ensures { Quickly core.now g result (plain_of (call_k_of false here (state_of core.now (upon g t)) k)) }
{
    if both_full(t) {
        return None;
    }
    let m = k_address(core, here, g, k).ok()?;
    let w = core[m];
    if word::flag(w) {
        return flagged(core, t, w);
    }
    filled(t, w)
}

// Arithmetic and relations, both registers being full.
#[tactic(auto, unfolding(crate::specs::Arithmetics::two_of, crate::specs::Stack::both_full_of, crate::specs::Stack::a_full_of, crate::specs::Stack::b_full_of, crate::proofs::Calculus::branching))]
fn both<F: FnOnce(i64, i64) -> Result<u64, Cause>>(t: Hot, f: F) -> Option<Hot>
    requires { F.IsAlwaysCallable f }
    ensures { (k : ℤ → ℤ → Res ℕ) → Works (F.post f) k → (core : List ℕ) (g : Registers) → Quickly core g result (plain_of (two_of k (state_of core (upon g t)))) }
{
    if !both_full(t) {
        return None;
    }
    let w = work(t.b, t.a, f).ok()?;
    Some(Hot {
        a: 0,
        b: w,
        afull: false,
        bfull: true,
        ..t
    })
}

// STD and SND, both registers being full.
#[tactic(auto, unfolding(crate::specs::Stores::std_of, crate::specs::Stores::snd_of, crate::specs::Stack::both_full_of, crate::specs::Stack::a_full_of, crate::specs::Stack::b_full_of, crate::proofs::Calculus::branching), using(crate::proofs::Sprinting::place_upon))]
fn stored(core: &mut [u64], here: u16, g: Registers, t: Hot, keep: bool) -> Option<Hot>
    ensures { Hurries core.old core.new g result (plain_of (if keep then snd_of here (state_of core.old (upon g t)) otherwise std_of here (state_of core.old (upon g t)))) }
{
    if !both_full(t) {
        return None;
    }
    let m = place(&core[..], here, g, t.a).ok()?;
    core[m] = t.b;
    if keep {
        return Some(Hot {
            a: 0,
            afull: false,
            ..t
        });
    }
    Some(Hot {
        a: 0,
        b: 0,
        afull: false,
        bfull: false,
        ..t
    })
}

// BFC and BBC by a count of syllables, both registers being full.
#[tactic(auto, unfolding(crate::specs::Branches::if_off_of, crate::specs::Branches::jump_of, crate::specs::Stack::both_full_of, crate::specs::Stack::a_full_of, crate::specs::Stack::b_full_of, crate::proofs::Calculus::branching), using(crate::proofs::Turns::low_bits, crate::proofs::Turns::last_bit))]
fn turned(t: Hot, back: bool) -> Option<Hot>
    requires { t.l < 4 }
    ensures { (core : List ℕ) (g : Registers) → Quickly core g result (plain_of (if_off_of back (state_of core (upon g t)))) }
{
    if !both_full(t) {
        return None;
    }
    let u = Hot {
        a: 0,
        b: 0,
        afull: false,
        bfull: false,
        ..t
    };
    if t.b % 2 == 1 {
        return Some(u);
    }
    if word::flag(t.a) {
        return None;
    }
    let n = landing(back, 4 * t.c as u32 + t.l as u32, (t.a % 4096) as u16).ok()?;
    Some(Hot {
        c: (n / 4) as u16,
        l: (n % 4) as u8,
        ..u
    })
}

// The registers of a set with the hot ones.
fn joined(g: Registers, t: Hot) -> Registers
    ensures { result ≡ upon g t }
{
    Registers {
        a: t.a,
        b: t.b,
        afull: t.afull,
        bfull: t.bfull,
        c: t.c,
        l: t.l,
        ..g
    }
}

// The present syllable, where it is a common one. One function, for speed: nothing stands between the table and the arm.
#[tactic(auto, unfolding(crate::specs::Steps::execute_of, crate::specs::Steps::perform_of, crate::specs::Steps::operate_of, crate::proofs::Calculus::branching), using(crate::proofs::Endings::syllable_small, crate::proofs::Sprinting::hurries_reads))]
fn hurry(table: &Table, core: &mut [u64], g: Registers, t: Hot) -> Option<Hot>
    ensures { Hurries core.old core.new g result (execute_of (state_of core.old (upon g t))) }
{
    let here = t.c;
    let w = read(&core[..], here as usize).ok()?;
    let p = syllable::advance(here, t.l);
    let u = Hot {
        c: p.c,
        l: p.l,
        ..t
    };
    let s = table.read(syllable::syllable_at(w, t.l));
    match s {
        Syllable::Litc(k) => filled(u, k as u64),
        Syllable::Opdc(k) => operand(&core[..], here, g, u, k),
        Syllable::Desc(_) => None,
        Syllable::Operator(o) => {
            // One arm for each two, so that `stored` and `turned` have one caller and are built into the run.
            let keep = matches!(o, Operator::Snd);
            let back = matches!(o, Operator::Branch(Branch::Bbc));
            match o {
                Operator::Arithmetic(a) => both(u, |y, x| reckon(a, y, x)),
                Operator::Relation(r) => both(u, |y, x| relate(r, y, x)),
                Operator::Std | Operator::Snd => stored(core, here, g, u, keep),
                Operator::Branch(Branch::Bfc | Branch::Bbc) => turned(u, back),
                _ => None,
            }
        }
    }
}

// Common syllables, until one is not or the budget is spent.
#[tactic(auto, using(crate::proofs::Sprinting::sprints_on))]
pub fn sprint(table: &Table, core: &mut [u64], g: Registers, from: u64, budget: u64) -> Sprint
    requires { from ≤ budget }
    ensures onward { from ≤ result.completed }
    ensures within { result.completed ≤ budget }
    ensures rest { rest_of_run budget from (state_of core.old g) ≡ rest_of_run budget result.completed (state_of core.new result.regs) }
{
    let mut t = Hot {
        a: g.a,
        b: g.b,
        afull: g.afull,
        bfull: g.bfull,
        c: g.c,
        l: g.l,
    };
    for n in from..budget {
        match hurry(table, core, g, t) {
            Some(x) => t = x,
            None => {
                return Sprint {
                    completed: n,
                    regs: joined(g, t),
                };
            }
        }
    }
    Sprint {
        completed: budget,
        regs: joined(g, t),
    }
}
