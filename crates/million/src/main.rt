// Runs a loop for a million syllables, and writes the line of the trial program.
#![tactic(auto)]

use std::io;

fn main(rt: HostRuntime) -> io::Result<()> {
    let mut core = [0u64; 4096];
    // OPDC 9, OPDC 10, ADD, LITC 9
    core[0] = 0o0046_0052_0101_0044;
    // STD, OPDC 10, LITC 1, SUB
    core[1] = 0o0421_0052_0004_0301;
    // LITC 10, SND, LITC 0, EQL
    core[2] = 0o0050_1021_0000_4425;
    // LITC 14, BBC, LITC 16, BBW
    core[3] = 0o0070_0131_0100_4131;
    // Cell 10 counts down from 100,000, and cell 9 is the sum of the counts.
    core[74] = 100000;
    let sum = trial::run_from_start(&mut core, 1000000);
    let mut room = [0u8; 128];
    let length = trial::line(Ok(sum), &mut room);
    rt.write_all(&room[..length])
}
