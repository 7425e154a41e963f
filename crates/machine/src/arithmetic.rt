// Arithmetic and relations on two whole numbers: B's, y, and A's, x.
ghost use Rattle.std.specs.Prelude.{◌≡◌, ℕ, ℤ};
ghost use Rattle.machine.specs.Outcomes.{Res, ◌>>=◌ as bind, part_of};
ghost use Rattle.machine.specs.Arithmetics.{taken_of, reckon_of, holds, relate_of, two_of};
ghost use Rattle.machine.specs.ForCode.Answers.{went_of, given_if, Works};
ghost use Rattle.machine.specs.States.{state_of};

use crate::outcome::{Cause, Registers};
use crate::stack::both_full;
use syllable::{Arithmetic, Relation};

// A result as an operand, or that it is past 39 bits, as one past an i64 is.
#[tactic(auto, unfolding(crate::specs::Arithmetics::given_of))]
pub fn given(v: Option<i64>) -> Result<u64, Cause>
    ensures { part_of result ≡ given_if v }
{
    v.and_then(|z| word::operand_of(z)).ok_or(Cause::Unwhole)
}

#[tactic(auto, unfolding(crate::specs::Arithmetics::reckon_of, crate::specs::Arithmetics::divided_of, crate::proofs::Calculus::branching), using(crate::proofs::Results::signed))]
pub fn reckon(o: Arithmetic, y: i64, x: i64) -> Result<u64, Cause>
    ensures { part_of result ≡ reckon_of o y x }
{
    match o {
        Arithmetic::Add => given(y.checked_add(x)),
        Arithmetic::Sub => given(y.checked_sub(x)),
        Arithmetic::Mul => given(y.checked_mul(x)),
        Arithmetic::Idv if x != 0 => given(y.checked_div(x)),
        Arithmetic::Rdv if x != 0 => given(Some(y.wrapping_rem(x))),
        Arithmetic::Idv | Arithmetic::Rdv => Err(Cause::ZeroDivisor),
    }
}

pub fn compare(o: Relation, y: i64, x: i64) -> bool
    ensures { result ≡ holds o y x }
{
    match o {
        Relation::Gtr => x < y,
        Relation::Geq => x <= y,
        Relation::Eql => y == x,
        Relation::Leq => y <= x,
        Relation::Lss => y < x,
        Relation::Neq => y != x,
    }
}

#[tactic(auto, unfolding(crate::specs::Arithmetics::relate_of))]
pub fn relate(o: Relation, y: i64, x: i64) -> Result<u64, Cause>
    ensures { part_of result ≡ relate_of o y x }
{
    Ok(u64::from(compare(o, y, x)))
}

// The word that an operator makes of B's word and A's.
#[tactic(auto, unfolding(crate::specs::Arithmetics::taken_of, crate::proofs::Calculus::branching))]
pub fn work<F: FnOnce(i64, i64) -> Result<u64, Cause>>(b: u64, a: u64, f: F) -> Result<u64, Cause>
    requires { F.IsAlwaysCallable f }
    ensures { (k : ℤ → ℤ → Res ℕ) → Works (F.post f) k → part_of result ≡ bind (taken_of a) (λ x. bind (taken_of b) (λ y. k y x)) }
{
    let x = word::whole_of(a).ok_or(Cause::Unwhole)?;
    let y = word::whole_of(b).ok_or(Cause::Unwhole)?;
    f(y, x)
}

// "Two": both full, result in B, A empty.
#[tactic(auto, unfolding(crate::specs::Arithmetics::two_of, crate::proofs::Calculus::branching))]
pub fn two<F: FnOnce(i64, i64) -> Result<u64, Cause>>(
    core: &[u64],
    g: Registers,
    f: F,
) -> Result<Registers, Cause>
    requires { F.IsAlwaysCallable f }
    ensures { (k : ℤ → ℤ → Res ℕ) → Works (F.post f) k → went_of core.now result ≡ two_of k (state_of core.now g) }
{
    let h = both_full(core, g)?;
    Ok(Registers {
        a: 0,
        afull: false,
        b: work(h.b, h.a, f)?,
        bfull: true,
        ..h
    })
}
