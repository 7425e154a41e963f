// The words that an array cell names, handed out as that stretch of the core itself.
use std::io;

// A line of one call: the number, then how many words were handed out, and each.
fn handed(rt: &impl Print, name: &str, core: &[u64], r: u16, cell: u16) -> io::Result<()> {
    let number = handout::hand_out_number(core, r, cell);
    let words = handout::hand_out(core, r, cell);
    print!(rt; "{name}: {number} {}", words.len())?;
    for w in words {
        print!(rt; " {}", *w)?;
    }
    println!(rt; "")
}

// Cell 10 of the table at 64 names words 100 to 109, which hold 1 to 10; cell 11 holds 0.
pub fn cells(rt: &impl Print) -> io::Result<()> {
    let mut core = [0u64; 128];
    core[74] = word::data(true, 10, 100);
    for (n, w) in (1..).zip(&mut core[100..110]) {
        *w = n;
    }
    println!(rt; "The hand-out: number, count, words")?;
    handed(rt, "Cell 10", &core, 1, 10)?;
    handed(rt, "Cell 11", &core, 1, 11)?;
    handed(rt, "R=512", &core, 512, 10)
}
