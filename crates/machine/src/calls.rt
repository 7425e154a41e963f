// OPDC, DESC and calling A.
ghost use Rattle.std.specs.Prelude.{◌≡◌, List, ℕ, ◌≤◌, length};
ghost use Rattle.machine.specs.Outcomes.{part_of};
ghost use Rattle.machine.specs.Calls.{index_of, indexed_of, load_of, data_call_of, enter_of, program_call_of, left_of, call_of, fetched_of, call_k_of};
ghost use Rattle.machine.specs.ForCode.Pushes.{framed_of, entered_of};
ghost use Rattle.machine.specs.ForCode.Answers.{went_of, Does};
ghost use Rattle.word.specs.Field.{with_field};
ghost use Rattle.word.specs.Layout.{address_of};
ghost use Rattle.word.specs.Addresses.{sum_of};
ghost use Rattle.machine.specs.States.{state_of};

use crate::memory::{k_address, put, read};
use crate::outcome::{Cause, Registers};
use crate::pushes::{emptied, slot_if};
use crate::stack::{a_empty, b_full, slot};
use word::Kind;

// The index that a word is, below size.
#[tactic(auto, unfolding(crate::specs::Calls::index_of, crate::specs::Calls::within_of, crate::specs::Arithmetics::taken_of, crate::proofs::Calculus::branching))]
pub fn index(w: u64, size: u16) -> Result<u16, Cause>
    ensures { part_of result ≡ index_of w size }
{
    let z = word::whole_of(w).ok_or(Cause::Unwhole)?;
    match u16::try_from(z) {
        Ok(n) if n < size => Ok(n),
        _ => Err(Cause::Index),
    }
}

// The descriptor of the word at index i.
pub fn moved(d: u64, i: u16) -> u64
    ensures { result ≡ with_field (with_field d 8 17 0) 33 47 (sum_of (address_of d) i) }
{
    word::with_address(word::with_size(d, 0), word::sum(word::address(d), i))
}

#[tactic(auto, unfolding(crate::specs::Calls::indexed_of, crate::proofs::Calculus::branching))]
fn indexed(core: &[u64], g: Registers, d: u64) -> Result<Registers, Cause>
    ensures { went_of core.now result ≡ indexed_of (state_of core.now g) d }
{
    let size = word::size(d);
    if size == 0 {
        return Ok(g);
    }
    let h = b_full(core, g)?;
    Ok(Registers {
        a: moved(d, index(h.b, size)?),
        afull: true,
        b: 0,
        bfull: false,
        ..h
    })
}

#[tactic(auto, unfolding(crate::specs::Calls::load_of, crate::proofs::Calculus::branching))]
fn load(core: &[u64], g: Registers) -> Result<Registers, Cause>
    ensures { went_of core.now result ≡ load_of (state_of core.now g) }
{
    let a = read(core, word::address(g.a) as usize)?;
    if word::flag(a) {
        Err(Cause::Flag)
    } else {
        Ok(Registers {
            a,
            afull: true,
            ..g
        })
    }
}

#[tactic(auto, unfolding(crate::specs::Calls::data_call_of, crate::proofs::Calculus::branching))]
fn data_call(core: &[u64], desc: bool, g: Registers, d: u64) -> Result<Registers, Cause>
    ensures { went_of core.now result ≡ data_call_of desc (state_of core.now g) d }
{
    let h = indexed(core, g, d)?;
    if desc { Ok(h) } else { load(core, h) }
}

// Writes what entry pushes: B, the mark and the return word.
#[tactic(auto, unfolding(crate::specs::ForCode::Pushes::framed_of, crate::proofs::Calculus::branching))]
fn frame(core: &mut [u64], desc: bool, argument: bool, g: Registers, p: u16, q: u16, s: u16)
    ensures { core.new ≡ framed_of desc argument g p q s core.old }
{
    let f = if argument { g.f } else { q };
    put(core, g.bfull, p as usize, g.b);
    put(
        core,
        !argument,
        q as usize,
        word::mscw(g.r, g.msff, g.salf, g.f),
    );
    put(core, true, s as usize, word::rcw(desc, g.l, f, g.c));
}

// The registers after entry.
#[tactic(auto, unfolding(crate::specs::ForCode::Pushes::entered_of, crate::proofs::Calculus::branching))]
fn inside(argument: bool, g: Registers, d: u64, s: u16) -> Registers
    ensures { result ≡ entered_of argument g d s }
{
    Registers {
        a: 0,
        afull: false,
        b: emptied(g.bfull, g.b),
        bfull: false,
        s,
        f: if argument { s } else { word::f_field(d) },
        c: word::address(d),
        l: 0,
        salf: true,
        msff: false,
        ..g
    }
}

// Room for all that is pushed is found first, then all is written.
#[tactic(auto, unfolding(crate::specs::Calls::enter_of, crate::specs::Calls::mark_of, crate::specs::Stack::push_b_of, crate::specs::Stack::push_of, crate::specs::ForCode::Pushes::slot_if, crate::specs::ForCode::Pushes::framed_of, crate::specs::ForCode::Pushes::entered_of, crate::specs::ForCode::Pushes::emptied, crate::proofs::Calculus::branching))]
fn enter(core: &mut [u64], desc: bool, g: Registers, d: u64) -> Result<Registers, Cause>
    requires { length core.old ≤ 32768 }
    ensures { Does core.old core.new result (enter_of desc (state_of core.old g) d) }
{
    let argument = word::argument(d);
    let len = core.len();
    let p = slot_if(g.bfull, len, g.s, g.r)?;
    let q = slot_if(!argument, len, p, g.r)?;
    let s = slot(len, q, g.r)?;
    frame(core, desc, argument, g, p, q, s);
    Ok(inside(argument, g, d, s))
}

#[tactic(auto, unfolding(crate::specs::Calls::program_call_of, crate::proofs::Calculus::branching))]
fn program_call(core: &mut [u64], desc: bool, g: Registers, d: u64) -> Result<Registers, Cause>
    requires { length core.old ≤ 32768 }
    ensures { Does core.old core.new result (program_call_of desc (state_of core.old g) d) }
{
    if word::mode(d) {
        Err(Cause::Unbuilt)
    } else if word::argument(d) && !g.msff {
        Ok(g)
    } else {
        enter(core, desc, g, d)
    }
}

// What an operand or a control word at m leaves in A.
#[tactic(auto, unfolding(crate::specs::Calls::left_of, crate::proofs::Calculus::branching))]
fn left(desc: bool, m: u16, g: Registers) -> Result<Registers, Cause>
    ensures { (core : List ℕ) → went_of core result ≡ left_of desc m (state_of core g) }
{
    if desc {
        Ok(Registers {
            a: word::data(true, 0, m),
            afull: true,
            ..g
        })
    } else {
        Ok(g)
    }
}

#[tactic(auto, unfolding(crate::specs::Calls::call_of, crate::proofs::Calculus::branching))]
fn call(core: &mut [u64], desc: bool, m: u16, g: Registers) -> Result<Registers, Cause>
    requires { length core.old ≤ 32768 }
    ensures { Does core.old core.new result (call_of desc m (state_of core.old g)) }
{
    match word::kind_of(g.a) {
        Kind::Operand | Kind::Control => left(desc, m, g),
        Kind::Data if word::presence(g.a) => data_call(core, desc, g, g.a),
        Kind::Program if word::presence(g.a) => program_call(core, desc, g, g.a),
        Kind::Data | Kind::Program => Err(Cause::Presence),
    }
}

// Calls the word at the address of k, A being empty.
#[tactic(auto, unfolding(crate::specs::Calls::fetched_of, crate::proofs::Calculus::branching))]
fn fetched(
    core: &mut [u64],
    desc: bool,
    here: u16,
    g: Registers,
    k: u16,
) -> Result<Registers, Cause>
    requires { length core.old ≤ 32768 }
    ensures { Does core.old core.new result (fetched_of desc here (state_of core.old g) k) }
{
    let m = k_address(core, here, g, k)?;
    let h = Registers {
        a: core[m],
        afull: true,
        ..g
    };
    call(core, desc, m as u16, h)
}

// OPDC and DESC. Where A and B are full, B is pushed first; a later stop puts back the word that stood at S+1.
#[tactic(auto, unfolding(crate::specs::Calls::call_k_of, crate::proofs::Calculus::branching))]
pub fn call_k(
    core: &mut [u64],
    desc: bool,
    here: u16,
    g: Registers,
    k: u16,
) -> Result<Registers, Cause>
    requires { length core.old ≤ 32768 }
    ensures { Does core.old core.new result (call_k_of desc here (state_of core.old g) k) }
{
    let up = g.s as usize + 1;
    let was = core.get(up).copied().unwrap_or(0);
    let h = a_empty(core, g)?;
    let result = fetched(core, desc, here, h, k);
    if result.is_err() {
        put(core, true, up, was);
    }
    result
}
