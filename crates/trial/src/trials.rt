// The run of a core file, or why it is refused.
ghost use Rattle.std.specs.Prelude.{◌≡◌};
ghost use Rattle.trial.specs.Trials.{Told, says_trial, trial_of};
ghost use Rattle.trial.specs.ForCode.Loads.{Loaded};

use machine::{Ran, Registers};
use tape::ReadError;

// What a run leaves, as numbers to be told: the stop, the syllables completed, C, L, S and cell 9.
#[derive(Clone, Copy, Debug, PartialEq, Eq)]
pub struct Sum {
    // A number, as it is printed.
    pub stop: u64,
    pub completed: u64,
    pub c: u16,
    pub l: u8,
    pub s: u16,
    pub cell: u64,
}

// Runs an input of `total` bytes; `bytes` are the first of them, all where they are 4,096 words or fewer.
pub fn trial(bytes: &[u8], total: usize) -> Result<Sum, ReadError>
    ensures { says_trial result ≡ trial_of bytes.now total }
{
    let mut core = [0u64; 4096];
    load(bytes, total, &mut core)?;
    Ok(run_from_start(&mut core, 1000))
}

// Reads the file into the first words of core.
fn load(bytes: &[u8], total: usize, core: &mut [u64; 4096]) -> Result<(), ReadError>
    ensures { Loaded bytes.now total core.old core.new result }
{
    let n = tape::words_in(total)?;
    if 4096 < n {
        return Err(ReadError::Length);
    }
    tape::read_file(bytes, &mut core[..n])
}

// Runs a core: "starts at C=0, R=1, S=31, the rest 0, empty or off".
pub fn run_from_start(core: &mut [u64; 4096], budget: u64) -> Sum
    ensures { Told core.old budget core.new result }
{
    let g = Registers {
        s: 31,
        r: 1,
        ..Registers::default()
    };
    let (stop, completed, h) = match machine::run(core, g, budget) {
        Ok(
            Ran {
                end,
                completed,
                regs,
            },
        ) => (u64::from(end), completed, regs),
        Err(refusal) => (u64::from(refusal), 0, g),
    };
    Sum {
        stop,
        completed,
        c: h.c,
        l: h.l,
        s: h.s,
        cell: core[73],
    }
}
