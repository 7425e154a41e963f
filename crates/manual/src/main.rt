// Runs the manual's own examples of syllables and words, and writes a line for each.
// Syllables, words and fields are octal; the values of the octades are decimal, as the manual prints them.
#![tactic(auto)]

mod syllables;
mod words;

use std::io;

fn main(rt: HostRuntime) -> io::Result<()> {
    syllables::figure_5_4(&rt)?;
    syllables::figures_5_5_and_5_6(&rt)?;
    words::octades(&rt)?;
    words::bound(&rt)?;
    words::mark_stack(&rt)?;
    words::program(&rt)?;
    words::return_control(&rt)
}
