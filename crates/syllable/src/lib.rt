// Syllables, as paper 01 reads them: four in a word, each a literal, an operand call, a descriptor call or an operator.
// A syllable has 12 bits: a larger number is taken modulo 4,096, and a number k of ten bits modulo 1,024.
#![tactic(auto)]

mod tables;

ghost use Rattle.std.specs.Prelude.{◌≡◌};
ghost use Rattle.syllable.specs.Codes.{operator_code};
ghost use Rattle.syllable.specs.Encoding.{encode_of};
ghost use Rattle.syllable.specs.Positions.{syllable_of, advance_of};

pub use tables::{Table, decode, number, numbers};

#[derive(Clone, Copy, Debug, PartialEq, Eq)]
pub enum Arithmetic {
    Add,
    Sub,
    Mul,
    Idv,
    Rdv,
}

#[derive(Clone, Copy, Debug, PartialEq, Eq)]
pub enum Relation {
    Gtr,
    Geq,
    Eql,
    Leq,
    Lss,
    Neq,
}

#[derive(Clone, Copy, Debug, PartialEq, Eq)]
pub enum Logic {
    Lnd,
    Lor,
    Lqv,
    Lng,
}

#[derive(Clone, Copy, Debug, PartialEq, Eq)]
pub enum Branch {
    Bfw,
    Bbw,
    Bfc,
    Bbc,
}

// NotBuilt holds the number k of an operator syllable that the paper does not list.
#[derive(Clone, Copy, Debug, PartialEq, Eq)]
pub enum Operator {
    Arithmetic(Arithmetic),
    Relation(Relation),
    Logic(Logic),
    Branch(Branch),
    Mop,
    Mds,
    Ssp,
    Ssn,
    Chs,
    Top,
    Xch,
    Dup,
    Del,
    Nop,
    Lod,
    Std,
    Snd,
    Inx,
    Mks,
    Xit,
    Com,
    NotBuilt(u16),
}

#[derive(Clone, Copy, Debug, PartialEq, Eq)]
pub enum Syllable {
    Litc(u16),
    Opdc(u16),
    Desc(u16),
    Operator(Operator),
}

// Where a syllable stands: in the word at c, the l-th.
#[derive(Clone, Copy, Debug, PartialEq, Eq)]
pub struct Position {
    pub c: u16,
    pub l: u8,
}

// The syllable of an operator.
fn code(o: Operator) -> u16
    ensures { result ≡ operator_code o }
{
    match o {
        Operator::Arithmetic(a) => match a {
            Arithmetic::Add => 0o0101,
            Arithmetic::Sub => 0o0301,
            Arithmetic::Mul => 0o0401,
            Arithmetic::Idv => 0o3001,
            Arithmetic::Rdv => 0o7001,
        },
        Operator::Relation(r) => match r {
            Relation::Gtr => 0o0225,
            Relation::Geq => 0o0125,
            Relation::Eql => 0o4425,
            Relation::Leq => 0o4125,
            Relation::Lss => 0o4225,
            Relation::Neq => 0o0425,
        },
        Operator::Logic(l) => match l {
            Logic::Lnd => 0o0415,
            Logic::Lor => 0o0215,
            Logic::Lqv => 0o1015,
            Logic::Lng => 0o0115,
        },
        Operator::Branch(b) => match b {
            Branch::Bfw => 0o4231,
            Branch::Bbw => 0o4131,
            Branch::Bfc => 0o0231,
            Branch::Bbc => 0o0131,
        },
        Operator::Mop => 0o2015,
        Operator::Mds => 0o4015,
        Operator::Ssp => 0o4431,
        Operator::Ssn => 0o0431,
        Operator::Chs => 0o1031,
        Operator::Top => 0o2031,
        Operator::Xch => 0o1025,
        Operator::Dup => 0o2025,
        Operator::Del => 0o0065,
        Operator::Nop => 0o0055,
        Operator::Lod => 0o2021,
        Operator::Std => 0o0421,
        Operator::Snd => 0o1021,
        Operator::Inx => 0o0141,
        Operator::Mks => 0o0441,
        Operator::Xit => 0o0435,
        Operator::Com => 0o1011,
        Operator::NotBuilt(k) => 4 * (k % 1024) + 1,
    }
}

pub fn encode(s: Syllable) -> u16
    ensures { result ≡ encode_of s }
{
    match s {
        Syllable::Litc(k) => 4 * (k % 1024),
        Syllable::Opdc(k) => 4 * (k % 1024) + 2,
        Syllable::Desc(k) => 4 * (k % 1024) + 3,
        Syllable::Operator(o) => code(o),
    }
}

// The l-th syllable of a word, the leftmost being 0; the last one for every l over 3.
#[tactic(auto, using(crate::proofs::Lasts::twelve, word::proofs::Choices::chosen))]
pub fn syllable_at(w: u64, l: u8) -> u16
    ensures { result ≡ syllable_of w l }
{
    let first = 12 * l.min(3);
    word::bits(w, first, first + 11) as u16
}

// The place of the next syllable.
pub fn advance(c: u16, l: u8) -> Position
    ensures { result ≡ advance_of c l }
{
    let n = (4 * u32::from(c) + u32::from(l) + 1) % 131072;
    Position {
        c: (n / 4) as u16,
        l: (n % 4) as u8,
    }
}
