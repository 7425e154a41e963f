// The paper's trial program: runs the core file on standard input, and writes what came of it in one line.
#![tactic(auto)]

ghost use Rattle.std.specs.Prelude.{◌≤◌, length, IfOk};

use std::io::{self, Read};

fn main(rt: HostRuntime) -> io::Result<()> {
    let mut input = rt.stdin();
    // 4,096 words; what is past them is only counted.
    let mut bytes = [0u8; 24576];
    let n = read_full(&mut input, &mut bytes)?;
    let rest = io::copy(&mut input, &mut io::sink())?;
    let total = n.saturating_add(rest as usize);
    let t = trial::trial(&bytes[..n], total).map_err(u64::from);
    let mut room = [0u8; 128];
    let length = trial::line(t, &mut room);
    rt.write_all(&room[..length])
}

// Reads until the buffer is full or the input ends, and answers how many bytes it put at the start. `read_exact` does not say how many.
fn read_full(input: &mut impl Read, buffer: &mut [u8]) -> io::Result<usize>
    ensures { IfOk result (λ n. n ≤ length buffer.new) }
{
    let mut done = 0;
    while done < buffer.len() {
        match input.read(&mut buffer[done..])? {
            0 => break,
            n => done += n,
        }
    }
    Ok(done)
}
