// What is lent: the panel's register set, moved on where it stands; the stretch of core that an array cell names.
#![tactic(auto)]

mod moves;
mod stretches;

use std::io;

fn main(rt: HostRuntime) -> io::Result<()> {
    moves::program(&rt)?;
    moves::past_whole(&rt)?;
    moves::refused(&rt)?;
    stretches::cells(&rt)
}
