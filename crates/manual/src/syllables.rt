// Syllables: figures 5-4, 5-5 and 5-6 of the manual. Each is decoded, and what it was read as is encoded again.
use std::{fmt, io};
use syllable::{Arithmetic, Operator, Syllable, Table};

// What a syllable was read as. The manual's examples have no operator by name but these.
#[derive(Drop)]
struct Reading(Syllable);

impl fmt::Display for Reading {
    fn fmt<W: fmt::Write>(&self, f: &mut fmt::Formatter<W>) -> fmt::Result {
        match self.0 {
            Syllable::Litc(k) => write!(f, "LITC {k:04o}"),
            Syllable::Opdc(k) => write!(f, "OPDC {k:04o}"),
            Syllable::Desc(k) => write!(f, "DESC {k:04o}"),
            Syllable::Operator(Operator::Arithmetic(a)) => match a {
                Arithmetic::Add => write!(f, "ADD"),
                Arithmetic::Sub => write!(f, "SUB"),
                Arithmetic::Mul => write!(f, "MUL"),
                Arithmetic::Idv => write!(f, "IDV"),
                Arithmetic::Rdv => write!(f, "RDV"),
            },
            Syllable::Operator(Operator::NotBuilt(k)) => write!(f, "operator {k:04o}"),
            Syllable::Operator(_) => write!(f, "operator"),
        }
    }
}

fn examples(rt: &impl Print, syllables: &[u16]) -> io::Result<()> {
    let table = Table::new();
    for y in syllables {
        let s = table.read(*y);
        let coded = syllable::encode(s);
        println!(rt; "{:04o} is {}, coded {coded:04o}", *y, Reading(s))?;
    }
    Ok(())
}

pub fn figure_5_4(rt: &impl Print) -> io::Result<()> {
    println!(rt; "Figure 5-4")?;
    examples(rt, &[0o1232, 0o0253, 0o0040, 0o0101, 0o0002, 0o0003])
}

pub fn figures_5_5_and_5_6(rt: &impl Print) -> io::Result<()> {
    println!(rt; "Figures 5-5 and 5-6")?;
    examples(rt, &[0o0514, 0o0515, 0o0516, 0o0517])
}
