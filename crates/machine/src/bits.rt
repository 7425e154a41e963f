// Logic, single bits, and the exchanges of A and B.
ghost use Rattle.std.specs.Prelude.{◌≡◌, ℕ, not, ◌≤◌, length};
ghost use Rattle.machine.specs.Bits.{lng_of, lqv_of, one_word_of, two_words_of, top_flag_of, xch_of, dup_of, del_of, inx_of};
ghost use Rattle.machine.specs.ForCode.Answers.{went_of, Does};
ghost use Rattle.word.specs.Field.{field, with_field, one_of};
ghost use Rattle.word.specs.Layout.{flag_of, address_of};
ghost use Rattle.word.specs.Addresses.{sum_of};
ghost use Rattle.machine.specs.States.{state_of};

use crate::outcome::{Cause, Registers};
use crate::stack::{a_full, b_full, both_full, push_b};

// Bits 1-47, all on.
const BODY: u64 = (1 << 47) - 1;

// The word that LNG makes.
pub fn lng(a: u64) -> u64
    ensures { result ≡ lng_of a }
{
    word::with_body(a, BODY - word::body(a))
}

// The word that LQV makes.
#[tactic(auto, using(crate::proofs::Turns::xor_room))]
pub fn lqv(b: u64, a: u64) -> u64
    ensures { result ≡ lqv_of b a }
{
    word::with_body(b, BODY - (word::body(b) ^ word::body(a)))
}

// "One": A full.
#[tactic(auto, unfolding(crate::specs::Bits::one_word_of, crate::proofs::Calculus::branching))]
pub fn one_word<F: FnOnce(u64) -> u64>(core: &[u64], g: Registers, f: F) -> Result<Registers, Cause>
    requires { F.IsAlwaysCallable f }
    ensures { (k : ℕ → ℕ) → ((a w : ℕ) → F.post f a w → w ≡ k a) → went_of core.now result ≡ one_word_of k (state_of core.now g) }
{
    let h = a_full(core, g)?;
    Ok(Registers {
        a: f(h.a),
        afull: true,
        ..h
    })
}

// "Two": of the words in B and A; A empty.
#[tactic(auto, unfolding(crate::specs::Bits::two_words_of, crate::proofs::Calculus::branching))]
pub fn two_words<F: FnOnce(u64, u64) -> u64>(
    core: &[u64],
    g: Registers,
    f: F,
) -> Result<Registers, Cause>
    requires { F.IsAlwaysCallable f }
    ensures { (k : ℕ → ℕ → ℕ) → ((b a w : ℕ) → F.post f b a w → w ≡ k b a) → went_of core.now result ≡ two_words_of k (state_of core.now g) }
{
    let h = both_full(core, g)?;
    Ok(Registers {
        a: 0,
        afull: false,
        b: f(h.b, h.a),
        bfull: true,
        ..h
    })
}

// What TOP says of B: 1 if its flag is off, else 0.
fn flag_off(b: u64) -> u64
    ensures { result ≡ one_of (not (flag_of b)) }
{
    u64::from(!word::flag(b))
}

#[tactic(auto, unfolding(crate::specs::Bits::top_flag_of, crate::specs::Stack::a_empty_of, crate::specs::Stack::b_full_of, crate::proofs::Calculus::branching))]
pub fn top_flag(core: &mut [u64], g: Registers) -> Result<Registers, Cause>
    requires { length core.old ≤ 32768 }
    ensures { Does core.old core.new result (top_flag_of (state_of core.old g)) }
{
    // A, moved to B, leaves it full: after the push nothing stops.
    if g.afull {
        let h = push_b(core, g)?;
        return Ok(Registers {
            a: flag_off(h.a),
            afull: true,
            b: h.a,
            bfull: true,
            ..h
        });
    }
    let h = b_full(core, g)?;
    Ok(Registers {
        a: flag_off(h.b),
        afull: true,
        ..h
    })
}

#[tactic(auto, unfolding(crate::specs::Bits::xch_of, crate::proofs::Calculus::branching))]
pub fn xch(core: &[u64], g: Registers) -> Result<Registers, Cause>
    ensures { went_of core.now result ≡ xch_of (state_of core.now g) }
{
    let h = both_full(core, g)?;
    Ok(Registers {
        a: h.b,
        afull: true,
        b: h.a,
        bfull: true,
        ..h
    })
}

#[tactic(auto, unfolding(crate::specs::Bits::dup_of, crate::proofs::Calculus::branching))]
pub fn dup(core: &mut [u64], g: Registers) -> Result<Registers, Cause>
    requires { length core.old ≤ 32768 }
    ensures { Does core.old core.new result (dup_of (state_of core.old g)) }
{
    let u = a_full(core, g)?;
    let h = push_b(core, u)?;
    Ok(Registers {
        b: h.a,
        bfull: true,
        ..h
    })
}

#[tactic(auto, unfolding(crate::specs::Bits::del_of, crate::proofs::Calculus::branching))]
pub fn del(core: &[u64], g: Registers) -> Result<Registers, Cause>
    ensures { went_of core.now result ≡ del_of (state_of core.now g) }
{
    let h = a_full(core, g)?;
    Ok(Registers {
        a: 0,
        afull: false,
        ..h
    })
}

// A with the low 15 bits of B added to its address, modulo 32,768.
fn moved(a: u64, b: u64) -> u64
    ensures { result ≡ with_field a 33 47 (sum_of (address_of a) (field b 33 47)) }
{
    word::with_address(a, word::sum(word::address(a), word::address(b)))
}

#[tactic(auto, unfolding(crate::specs::Bits::inx_of, crate::proofs::Calculus::branching))]
pub fn inx(core: &[u64], g: Registers) -> Result<Registers, Cause>
    ensures { went_of core.now result ≡ inx_of (state_of core.now g) }
{
    let h = both_full(core, g)?;
    Ok(Registers {
        a: moved(h.a, h.b),
        afull: true,
        b: 0,
        bfull: false,
        ..h
    })
}
